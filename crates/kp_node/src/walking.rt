//! All connections are changed at once, and what follows of it.

ghost use Rattle.std.specs.Prelude.{◌≡◌, ℕ, ◌<◌, ◌^◌, ◌++◌, ◌∷◌, [], not, if◌then◌else◌, IfOk, OnOk};
ghost use Rattle.std.specs.List.{filter};
ghost use Rattle.std.specs.FinMap as map;
ghost use Rattle.kp_seats.specs.Seating.{left};
ghost use Rattle.kp_watch.specs.Watching.{dropped};
ghost use Rattle.kp_step.specs.Step.{is_ready as ready_so, count_lost as lost_of};
ghost use Rattle.kp_node.specs.Walking.{phase_at as phase_of, is_idle, is_given_up, left_all, dropped_all, unready_of, IsBefore, Loosens, IsTurned};
ghost use Rattle.kp_node.specs.Holding.{AreKept, served_at};

use kp_conn::Phase;
use kp_model::{Items, NoMemory};
use kp_seats::{Change, Seats, change_all};
use kp_step::Seat;
use kp_watch::Watches;
use std::alloc::Global;

// More connections than `u32` counts.
const MOST: usize = 4294967296;

/// What is known of the connections before they are changed.
#[derive(Drop)]
pub(crate) struct Before {
    // those for which nothing is ready, ascending
    pub(crate) unready: Vec<u64>,
    // how many were given up
    pub(crate) lost: u64,
}

/// What comes of a change of all connections.
#[derive(Drop)]
pub(crate) struct Turned {
    /// The connections, ascending, for which something is ready now and nothing was before.
    pub(crate) ready: Items<u64>,
    /// How many were given up.
    pub(crate) lost: u32,
}

/// Looks at the connections before they are changed. No more of them than `u32` counts may be there, and they are walked
/// over once.
pub(crate) fn look(alloc: Global, seats: &Seats<Seat>) -> Result<Before, NoMemory>
    ensures { IfOk result (λ b. IsBefore seats.now.seats b.unready.items b.lost) }
{
    if seats.len() >= MOST {
        return Err(NoMemory);
    }
    Ok(Before {
        unready: unready(alloc, seats)?,
        lost: count_lost(seats),
    })
}

/// Changes each connection, and what follows of it: one that serves no session any more leaves the index of sessions, and
/// one that was given up has no watches. It takes no memory but what the change itself does.
pub(crate) fn change_each<C: Change<Seat>>(
    seats: &mut Seats<Seat>,
    watches: &mut Watches,
    change: &C,
    before: Before,
) -> Turned
    requires before { IsBefore seats.old.seats before.unready.items before.lost }
    requires loosens { Loosens (C.changes change.now) }
    requires kept { AreKept seats.old.seats watches.old }
    requires served { (q : ℕ) → map.get seats.old.sessions q ≡ served_at (map.get seats.old.seats q) }
    ensures { IsTurned (C.changes change.now) seats.old watches.old seats.new watches.new result.ready result.lost }
{
    change_all(seats, change);
    follow(seats, watches);
    let lost = count_lost(seats).saturating_sub(before.lost) as u32;
    let ready = ready_of(seats, before.unready);
    Turned {
        ready: Items::from_vec(ready),
        lost,
    }
}

// Where the connection stands, if it is there.
fn phase_at(seats: &Seats<Seat>, conn: u64) -> Option<Phase>
    ensures { result ≡ phase_of seats.now.seats conn }
{
    match seats.get(conn) {
        None => None,
        Some(seat) => Some(seat.connection.phase()),
    }
}

// Whether something is ready for the connection.
fn is_ready(seats: &Seats<Seat>, conn: u64) -> bool
    ensures { result ≡ ready_so (map.get seats.now.seats conn) }
{
    match seats.get(conn) {
        None => false,
        Some(seat) => seat.connection.phase().is_over() || seat.connection.has_packets(),
    }
}

// A connection that serves no session leaves the index of sessions, and one that was given up has no watches.
fn follow_one(seats: &mut Seats<Seat>, watches: &mut Watches, conn: u64)
    ensures seats { seats.new ≡ (if is_idle (phase_of seats.old.seats conn) then left seats.old conn else seats.old) }
    ensures watches { watches.new ≡ (if is_given_up (phase_of seats.old.seats conn) then dropped watches.old conn else watches.old) }
{
    let Some(phase) = phase_at(seats, conn) else {
        return;
    };
    if !matches!(phase, Phase::Live { .. }) {
        seats.leave(conn);
    }
    if phase.is_lost() {
        watches.drop_conn(conn);
    }
}

// The same of all connections.
fn follow(seats: &mut Seats<Seat>, watches: &mut Watches)
    ensures seats { seats.new ≡ record seats.old { sessions = left_all seats.old.seats seats.old.sessions (map.keys seats.old.seats) } }
    ensures watches { watches.new ≡ dropped_all seats.old.seats watches.old (map.keys seats.old.seats) }
{
    let mut conn = 0;
    while let Some(next) = seats.next_after(conn) {
        follow_one(seats, watches, next);
        conn = next;
    }
}

// How many connections were given up.
fn count_lost(seats: &Seats<Seat>) -> u64
    ensures { result ≡ lost_of seats.now.seats }
{
    let mut conn = 0;
    let mut lost = 0;
    while let Some(next) = seats.next_after(conn) {
        lost += is_lost(seats, next);
        conn = next;
    }
    lost
}

// One where the connection was given up, and else none.
fn is_lost(seats: &Seats<Seat>, conn: u64) -> u64
    ensures { result ≡ (if is_given_up (phase_of seats.now.seats conn) then 1 else 0) }
{
    match phase_at(seats, conn) {
        Some(phase) if phase.is_lost() => 1,
        _ => 0,
    }
}

// The connections, ascending, for which nothing is ready.
fn unready(alloc: Global, seats: &Seats<Seat>) -> Result<Vec<u64>, NoMemory>
    ensures { IfOk result (λ list. list.items ≡ unready_of seats.now.seats) }
{
    let mut list = Vec::new(alloc);
    let mut conn = 0;
    while let Some(next) = seats.next_after(conn) {
        note(seats, &mut list, next)?;
        conn = next;
    }
    Ok(list)
}

// Puts the connection behind the others, where nothing is ready for it.
fn note(seats: &Seats<Seat>, list: &mut Vec<u64>, conn: u64) -> Result<(), NoMemory>
    ensures { OnOk result (list.new.items ≡ list.old.items ++ filter (λ k. not (ready_so (map.get seats.now.seats k))) (conn ∷ [])) }
{
    if !is_ready(seats, conn) {
        list.push(conn)?;
    }
    Ok(())
}

// Those of the connections for which something is ready.
fn ready_of(seats: &Seats<Seat>, mut list: Vec<u64>) -> Vec<u64>
    ensures { result.items ≡ filter (λ k. ready_so (map.get seats.now.seats k)) list.items }
{
    list.retain(|conn| is_ready(seats, *conn));
    list
}
