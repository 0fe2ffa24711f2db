//! A connection takes bytes of its client.

ghost use Rattle.std.specs.Prelude.{◌≡◌, List, ℕ, IfOk, IsSome, OnErr};
ghost use Rattle.std.specs.FinMap as map;
ghost use Rattle.kp_conn.specs.Fed.{IsLive};
ghost use Rattle.kp_node.specs.Clients.{SeatTakes, TakesAmong, TakesAt, is_over_at, left_over};
ghost use Rattle.kp_node.specs.Holding.{served_at};
ghost use Rattle.kp_node.specs.TakingBytes.{Takes, end_in};

use crate::joining::Ground;
use crate::serving::{Handed, serve};
use kp_conn::{Conn, FedEnd};
use kp_model::NoMemory;
use kp_raft::Raft;
use kp_seats::Seats;
use kp_snapshot::Image;
use kp_step::Seat;
use kp_storage::Storage;
use kp_watch::Watches;
use std::alloc::Global;

/// What bytes gave, and how their reading ended.
#[derive(Drop)]
pub struct Taken {
    pub handed: Handed,
    pub end: FedEnd,
}

// A live connection of this number takes bytes. Without memory nothing has changed.
fn take_live(
    alloc: Global,
    ground: Ground,
    raft: &mut Raft<Image>,
    storage: &mut Storage,
    watches: &mut Watches,
    number: u64,
    conn: &mut Conn,
    bytes: &[u8],
) -> Result<Taken, NoMemory>
    requires { IsLive conn.old.phase }
    ensures ok { IfOk result (λ t. (draw : List ℕ) (text : List ℕ → List ℕ) → Takes ground number draw text bytes.now raft.old storage.old watches.old conn.old raft.new storage.new watches.new conn.new t.handed) }
    ensures end { IfOk result (λ t. t.end ≡ end_in conn.old bytes.now) }
    ensures raft { OnErr result (raft.new ≡ raft.old) }
    ensures storage { OnErr result (storage.new ≡ storage.old) }
    ensures watches { OnErr result (watches.new ≡ watches.old) }
    ensures conn { OnErr result (conn.new ≡ conn.old) }
{
    let fed = conn.feed(bytes)?;
    let end = fed.end;
    let handed = serve(alloc, ground, raft, storage, watches, number, conn, fed);
    Ok(Taken { handed, end })
}

// The same for its seat.
fn take_seat(
    alloc: Global,
    ground: Ground,
    raft: &mut Raft<Image>,
    storage: &mut Storage,
    watches: &mut Watches,
    number: u64,
    seat: &mut Seat,
    bytes: &[u8],
) -> Result<Taken, NoMemory>
    requires { IsLive seat.old.connection.phase }
    ensures ok { IfOk result (λ t. SeatTakes ground number bytes.now raft.old storage.old watches.old seat.old raft.new storage.new watches.new seat.new t) }
    ensures raft { OnErr result (raft.new ≡ raft.old) }
    ensures storage { OnErr result (storage.new ≡ storage.old) }
    ensures watches { OnErr result (watches.new ≡ watches.old) }
    ensures seat { OnErr result (seat.new ≡ seat.old) }
{
    take_live(
        alloc,
        ground,
        raft,
        storage,
        watches,
        number,
        &mut seat.connection,
        bytes,
    )
}

// The same for the connection of this number, which serves this session.
fn take_among(
    alloc: Global,
    ground: Ground,
    raft: &mut Raft<Image>,
    storage: &mut Storage,
    watches: &mut Watches,
    seats: &mut Seats<Seat>,
    number: u64,
    bytes: &[u8],
) -> Result<Taken, NoMemory>
    requires { IsSome (served_at (map.get seats.old.seats number)) }
    ensures ok { IfOk result (λ t. TakesAmong ground number bytes.now raft.old storage.old watches.old seats.old raft.new storage.new watches.new seats.new t) }
    ensures raft { OnErr result (raft.new ≡ raft.old) }
    ensures storage { OnErr result (storage.new ≡ storage.old) }
    ensures watches { OnErr result (watches.new ≡ watches.old) }
    ensures seats { OnErr result (seats.new ≡ seats.old) }
{
    match seats.get_mut(number) {
        None => unreachable!(),
        Some(seat) => take_seat(alloc, ground, raft, storage, watches, number, seat, bytes),
    }
}

/// A connection that is over serves no session.
pub(crate) fn leave_over(seats: &mut Seats<Seat>, number: u64)
    ensures { seats.new ≡ left_over (map.get seats.old.seats number) seats.old number }
{
    if is_over(seats, number) {
        let _ = seats.leave(number);
    }
}

// Whether a connection is there and is over.
fn is_over(seats: &Seats<Seat>, number: u64) -> bool
    ensures { result ≡ is_over_at (map.get seats.now.seats number) }
{
    match seats.get(number) {
        None => false,
        Some(seat) => seat.connection.phase().is_over(),
    }
}

/// The connection of this number, which is live, takes bytes of its client. Without memory nothing has changed.
pub(crate) fn take_at(
    alloc: Global,
    ground: Ground,
    raft: &mut Raft<Image>,
    storage: &mut Storage,
    watches: &mut Watches,
    seats: &mut Seats<Seat>,
    number: u64,
    bytes: &[u8],
) -> Result<Taken, NoMemory>
    requires { IsSome (served_at (map.get seats.old.seats number)) }
    ensures ok { IfOk result (λ t. (text : List ℕ → List ℕ) → TakesAt ground number text bytes.now raft.old storage.old watches.old seats.old raft.new storage.new watches.new seats.new t) }
    ensures raft { OnErr result (raft.new ≡ raft.old) }
    ensures storage { OnErr result (storage.new ≡ storage.old) }
    ensures watches { OnErr result (watches.new ≡ watches.old) }
    ensures seats { OnErr result (seats.new ≡ seats.old) }
{
    let taken = take_among(alloc, ground, raft, storage, watches, seats, number, bytes)?;
    leave_over(seats, number);
    Ok(taken)
}
