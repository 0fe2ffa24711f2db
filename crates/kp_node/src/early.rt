//! Connections that aren't live take bytes, and words are answered, in their places among the others.

ghost use Rattle.std.specs.Prelude.{◌≡◌, false, IfOk, OnOk, OnErr};
ghost use Rattle.std.specs.FinMap as map;
ghost use Rattle.kp_seats.specs.Seating.{left};
ghost use Rattle.kp_conn.specs.Connection.{closed, put, taken_back};
ghost use Rattle.kp_node.specs.FirstBytes.{IsFirst, TakesFirst};
ghost use Rattle.kp_node.specs.Early.{IsFirstAt, SeatTakesFirst, FirstAmong, FirstAt, conn_changed};

use crate::first_bytes::{First, take_first, take_waiting};
use crate::joining::Ground;
use crate::taking::leave_over;
use kp_conn::{Conn, Phase};
use kp_model::NoMemory;
use kp_raft::Raft;
use kp_seats::Seats;
use kp_snapshot::Image;
use kp_step::Seat;
use kp_storage::Storage;
use std::alloc::Global;

// A connection of this number, with this draw, that isn't live takes bytes, unless they are a word. Without memory nothing
// has changed.
fn take_early(
    alloc: Global,
    ground: Ground,
    raft: &mut Raft<Image>,
    storage: &mut Storage,
    number: u64,
    draw: [u8; 16],
    conn: &mut Conn,
    bytes: &[u8],
) -> Result<First, NoMemory>
    requires { IsFirst conn.old.phase }
    ensures ok { IfOk result (λ f. TakesFirst ground number draw bytes.now raft.old storage.old conn.old raft.new storage.new conn.new f) }
    ensures raft { OnErr result (raft.new ≡ raft.old) }
    ensures storage { OnErr result (storage.new ≡ storage.old) }
    ensures conn { OnErr result (conn.new ≡ conn.old) }
{
    let _last = storage.last();
    if matches!(conn.phase(), Phase::Connecting { .. }) {
        return Ok(First::Taken(take_waiting(alloc, conn, bytes)?));
    }
    take_first(alloc, ground, raft, storage, number, draw, conn, bytes)
}

// The same for its seat.
fn take_early_seat(
    alloc: Global,
    ground: Ground,
    raft: &mut Raft<Image>,
    storage: &mut Storage,
    number: u64,
    seat: &mut Seat,
    bytes: &[u8],
) -> Result<First, NoMemory>
    requires { IsFirst seat.old.connection.phase }
    ensures ok { IfOk result (λ f. SeatTakesFirst ground number bytes.now raft.old storage.old seat.old raft.new storage.new seat.new f) }
    ensures raft { OnErr result (raft.new ≡ raft.old) }
    ensures storage { OnErr result (storage.new ≡ storage.old) }
    ensures seat { OnErr result (seat.new ≡ seat.old) }
{
    let draw = seat.draw;
    take_early(
        alloc,
        ground,
        raft,
        storage,
        number,
        draw,
        &mut seat.connection,
        bytes,
    )
}

// The same for the connection of this number.
fn take_early_among(
    alloc: Global,
    ground: Ground,
    raft: &mut Raft<Image>,
    storage: &mut Storage,
    seats: &mut Seats<Seat>,
    number: u64,
    bytes: &[u8],
) -> Result<First, NoMemory>
    requires { IsFirstAt (map.get seats.old.seats number) }
    ensures ok { IfOk result (λ f. FirstAmong ground number bytes.now raft.old storage.old seats.old raft.new storage.new seats.new f) }
    ensures raft { OnErr result (raft.new ≡ raft.old) }
    ensures storage { OnErr result (storage.new ≡ storage.old) }
    ensures seats { OnErr result (seats.new ≡ seats.old) }
{
    match seats.get_mut(number) {
        None => unreachable!(),
        Some(seat) => take_early_seat(alloc, ground, raft, storage, number, seat, bytes),
    }
}

/// The connection of this number, which isn't live or over, takes bytes of its client, unless they are a word. Without
/// memory nothing has changed.
pub(crate) fn take_early_at(
    alloc: Global,
    ground: Ground,
    raft: &mut Raft<Image>,
    storage: &mut Storage,
    seats: &mut Seats<Seat>,
    number: u64,
    bytes: &[u8],
) -> Result<First, NoMemory>
    requires { IsFirstAt (map.get seats.old.seats number) }
    ensures ok { IfOk result (λ f. FirstAt ground number bytes.now raft.old storage.old seats.old raft.new storage.new seats.new f) }
    ensures raft { OnErr result (raft.new ≡ raft.old) }
    ensures storage { OnErr result (storage.new ≡ storage.old) }
    ensures seats { OnErr result (seats.new ≡ seats.old) }
{
    let first = take_early_among(alloc, ground, raft, storage, seats, number, bytes)?;
    leave_over(seats, number);
    Ok(first)
}

/// A packet goes out on the connection of this number, if it is there. Without memory nothing has changed.
pub(crate) fn put_at(seats: &mut Seats<Seat>, number: u64, packet: &[u8]) -> Result<(), NoMemory>
    ensures ok { OnOk result (seats.new ≡ conn_changed (put packet.now) seats.old number) }
    ensures err { OnErr result (seats.new ≡ seats.old) }
{
    match seats.get_mut(number) {
        None => Ok(()),
        Some(seat) => seat.connection.put(packet),
    }
}

/// The last packet of the connection of this number is taken back, if it is there.
pub(crate) fn unput_at(seats: &mut Seats<Seat>, number: u64)
    ensures { seats.new ≡ conn_changed taken_back seats.old number }
{
    if let Some(seat) = seats.get_mut(number) {
        seat.connection.unput();
    }
}

// The connection of this number ends, if it is there.
fn end_at(seats: &mut Seats<Seat>, number: u64)
    ensures { seats.new ≡ conn_changed (closed false) seats.old number }
{
    if let Some(seat) = seats.get_mut(number) {
        seat.connection.close(false);
    }
}

/// The same, and it serves no session.
pub(crate) fn close_at(seats: &mut Seats<Seat>, number: u64)
    ensures { seats.new ≡ left (conn_changed (closed false) seats.old number) number }
{
    end_at(seats, number);
    let _ = seats.leave(number);
}
