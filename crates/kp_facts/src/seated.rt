//! The connections: what each serves, and how many of its requests wait.
ghost use Rattle.std.specs.Prelude.{◌≡◌, ◌++◌, IfOk, OnOk};
ghost use Rattle.std.specs.FinMap as map;
ghost use Rattle.kp_step.specs.Settling.{session_in as served_in};
ghost use Rattle.kp_facts.specs.Facts.{conns_facts, facts_at, session_at as session_of};

use kp_conn::Phase;
use kp_model::{Items, NoMemory};
use kp_seats::Seats;
use kp_step::Seat;
use kp_words::ConnFacts;
use std::alloc::Global;

// The session that a connection serves, or 0.
fn session_in(phase: Phase) -> u64
    ensures { result ≡ served_in phase }
{
    match phase {
        Phase::Live { session, .. } => session,
        _ => 0,
    }
}

/// The session that the connection of this number serves, or 0.
pub(crate) fn session_at(seats: &Seats<Seat>, conn: u64) -> u64
    ensures { result ≡ session_of seats.now.seats conn }
{
    match seats.get(conn) {
        None => 0,
        Some(seat) => session_in(seat.connection.phase()),
    }
}

// Puts what is known of the connection behind the others.
fn push_conn(seats: &Seats<Seat>, conn: u64, list: &mut Vec<ConnFacts>) -> Result<(), NoMemory>
    ensures { OnOk result (list.new.items ≡ list.old.items ++ facts_at conn (map.get seats.now.seats conn)) }
{
    let Some(seat) = seats.get(conn) else {
        return Ok(());
    };
    list.push(ConnFacts {
        number: conn,
        session: session_in(seat.connection.phase()),
        waiting: seat.connection.waiting() as u64,
    })?;
    Ok(())
}

/// The connections, in the order of their numbers.
pub fn conns(alloc: Global, seats: &Seats<Seat>) -> Result<Items<ConnFacts>, NoMemory>
    ensures { IfOk result (λ list. list ≡ conns_facts seats.now.seats) }
{
    let mut list = Vec::new(alloc);
    let mut conn = 0;
    while let Some(next) = seats.next_after(conn) {
        push_conn(seats, next, &mut list)?;
        conn = next;
    }
    Ok(Items::from_vec(list))
}
