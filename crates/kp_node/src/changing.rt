//! What a step in which few connections change makes ready, gives up and sweeps, found at these connections alone.

ghost use Rattle.std.specs.Prelude.{◌≡◌, ◌++◌, ◌∷◌, [], length, IfOk, OnOk, if◌then◌else◌};
ghost use Rattle.std.specs.FinMap as map;
ghost use Rattle.kp_watch.specs.Watching.{dropped};
ghost use Rattle.kp_step.specs.Step.{is_ready as has_ready, keeps_watches, swept};
ghost use Rattle.kp_node.specs.Changing.{was_given_up, idle_among as idle_of, ready_among as ready_of, lost_among as lost_of, AreKeptBut, ReadyAmong, LostAmong};

use kp_model::NoMemory;
use kp_seats::Seats;
use kp_step::Seat;
use kp_watch::Watches;
use std::alloc::Global;

/// Where connections with these numbers changed and no others, what is ready anew is found among them, and so is how
/// many were given up.
pub fn found_among()
    ensures ready { ReadyAmong }
    ensures lost { LostAmong }
{}

// Whether something is ready for a connection: packets, or that it is over.
fn is_ready(seats: &Seats<Seat>, conn: u64) -> bool
    ensures { result ≡ has_ready (map.get seats.now.seats conn) }
{
    match seats.get(conn) {
        None => false,
        Some(seat) => seat.connection.phase().is_over() || seat.connection.has_packets(),
    }
}

/// Whether a connection is there and was given up.
pub(crate) fn is_given_up(seats: &Seats<Seat>, conn: u64) -> bool
    ensures { result ≡ was_given_up (map.get seats.now.seats conn) }
{
    match seats.get(conn) {
        None => false,
        Some(seat) => seat.connection.phase().is_lost(),
    }
}

// Puts the connection behind the others, unless something is ready for it.
fn push_idle(idle: &mut Vec<u64>, seats: &Seats<Seat>, conn: u64) -> Result<(), NoMemory>
    ensures { OnOk result (idle.new.items ≡ idle.old.items ++ idle_of seats.now.seats (conn ∷ [])) }
{
    if !is_ready(seats, conn) {
        idle.push(conn)?;
    }
    Ok(())
}

/// Those of the connections for which nothing is ready.
pub(crate) fn idle_among(
    alloc: Global,
    seats: &Seats<Seat>,
    conns: &[u64],
) -> Result<Vec<u64>, NoMemory>
    ensures { IfOk result (λ idle. idle.items ≡ idle_of seats.now.seats conns.now) }
{
    let mut idle = Vec::new(alloc);
    for conn in conns {
        push_idle(&mut idle, seats, *conn)?;
    }
    Ok(idle)
}

/// Keeps those of the connections for which something is ready.
pub(crate) fn keep_ready(seats: &Seats<Seat>, conns: &mut Vec<u64>)
    ensures { conns.new.items ≡ ready_of seats.now.seats conns.old.items }
{
    conns.retain(|conn| is_ready(seats, *conn));
}

/// How many of the connections were given up.
pub(crate) fn count_lost(seats: &Seats<Seat>, conns: &[u64]) -> usize
    ensures { result ≡ length (lost_of seats.now.seats conns.now) }
{
    let mut lost = 0;
    for conn in conns {
        if is_given_up(seats, *conn) {
            lost += 1;
        }
    }
    lost
}

// Whether a connection is there and was not given up.
fn keeps(seats: &Seats<Seat>, conn: u64) -> bool
    ensures { result ≡ keeps_watches (map.get seats.now.seats conn) }
{
    match seats.get(conn) {
        None => false,
        Some(seat) => !seat.connection.phase().is_lost(),
    }
}

// The watches of a connection go, unless it is there and was not given up.
fn sweep_one(seats: &Seats<Seat>, watches: &mut Watches, conn: u64)
    ensures { watches.new ≡ (if keeps_watches (map.get seats.now.seats conn) then watches.old else dropped watches.old conn) }
{
    if !keeps(seats, conn) {
        watches.drop_conn(conn);
    }
}

/// The watches of those that were given up go, where all others are of connections that keep theirs.
pub(crate) fn sweep(seats: &Seats<Seat>, watches: &mut Watches, conns: &[u64])
    requires { AreKeptBut conns.now seats.now.seats watches.old }
    ensures { watches.new ≡ swept seats.now.seats watches.old }
{
    for conn in conns {
        sweep_one(seats, watches, *conn);
    }
}
