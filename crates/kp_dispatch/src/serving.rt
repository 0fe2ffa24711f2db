// Serving one connection.
ghost use Rattle.std.specs.Prelude.{◌≡◌, ◌<◌, length};
ghost use Rattle.kp_shared.specs.Sharing.{IsNodeSeatOf};
ghost use Rattle.kp_dispatch.specs.Serving.{ServedSo, ServedWhole, TakeTells};

use crate::ends::ConnEnd;
use crate::rounds::turn_round;
use kp_event::NodeEventKind;
use kp_io::{Clock, Gate, Sink, Stream, Took};
use kp_model::Bytes;
use kp_shared::{Kept, NodeSeat, SharedNode, think};
use std::alloc::Global;
use std::sync::Wait;

/// The most bytes of one piece.
const PIECE: usize = 65_536;

// Takes a piece of the stream, or None where nothing has come yet.
fn take_piece<S: Stream>(
    alloc: Global,
    input: &mut S,
    room: &mut [u8],
) -> Result<Option<Bytes>, ConnEnd>
    requires { 0 < length room.old }
    ensures tells { TakeTells (S.told input.old) (S.told input.new) (S.ended input.old) (S.ended input.new) (S.faults input.old) (S.faults input.new) result }
    ensures room { length room.new ≡ length room.old }
{
    match input.take(room) {
        Err(_) => Err(ConnEnd::ReadFault),
        Ok(Took::End) => Err(ConnEnd::Ended),
        Ok(Took::Later) => Ok(None),
        Ok(Took::Bytes(count)) => match Vec::from_slice(alloc, &room[..count]) {
            Ok(bytes) => Ok(Some(Bytes::from_vec(bytes))),
            Err(_) => Err(ConnEnd::NoMemory),
        },
    }
}

// Serves a connection until its end is fixed.
fn serve<R: Wait, S: Stream, W: Sink, G: Gate, C: Clock, K: Kept>(
    rt: &R,
    alloc: Global,
    conn: u64,
    seat: &mut NodeSeat<K>,
    node: &SharedNode<K>,
    input: &mut S,
    output: &mut W,
    gate: &G,
    clock: &C,
) -> ConnEnd
    requires { IsNodeSeatOf (λ s. K.life s.kept) node.now seat.old }
    ensures seat { IsNodeSeatOf (λ s. K.life s.kept) node.now seat.new }
    ensures serves { ServedSo (C.may clock.now) conn (S.told input.old) (S.told input.new) (S.ended input.old) (S.ended input.new) (S.faults input.old) (S.faults input.new) (W.held output.old) (W.held output.new) (W.faults output.old) (W.faults output.new) seat.old seat.new result }
{
    let mut room = [0u8; PIECE];
    let mut turns = 0u64;
    for _ in rt.forever() {
        gate.pass(rt, conn, turns);
        if node.stop.load(&mut seat.stop) {
            return ConnEnd::Stopped;
        }
        let piece = match take_piece(alloc, input, &mut room) {
            Ok(piece) => piece,
            Err(end) => return end,
        };
        match turn_round(rt, alloc, conn, node, seat, output, clock, piece) {
            Ok(()) => turns = turns.saturating_add(1),
            Err(end) => return end,
        }
    }
    unreachable!()
}

/// Serves one accepted connection until it ends, and then hangs it up.
///
/// In a loop it passes the gate, looks at the stop word, and takes a piece of at most 65,536 bytes. Then it makes one turn of the
/// node: a Client event of the piece, where one came, commits and a Beat where they are worth while, and a Drain event; it keeps
/// them all by one flush, sends their mail, and writes what was drained.
pub fn serve_connection<R: Wait, S: Stream, W: Sink, G: Gate, C: Clock, K: Kept>(
    rt: &R,
    alloc: Global,
    conn: u64,
    seat: &mut NodeSeat<K>,
    node: &SharedNode<K>,
    input: &mut S,
    output: &mut W,
    gate: &G,
    clock: &C,
) -> ConnEnd
    requires { IsNodeSeatOf (λ s. K.life s.kept) node.now seat.old }
    ensures seat { IsNodeSeatOf (λ s. K.life s.kept) node.now seat.new }
    ensures serves { ServedWhole (C.may clock.now) conn (S.told input.old) (S.told input.new) (S.ended input.old) (S.ended input.new) (S.faults input.old) (S.faults input.new) (W.held output.old) (W.held output.new) (W.faults output.old) (W.faults output.new) seat.old seat.new result }
{
    let end = serve(rt, alloc, conn, seat, node, input, output, gate, clock);
    let _ = think(
        rt,
        &node.turn,
        &mut seat.turn,
        clock,
        NodeEventKind::Hangup { conn },
    );
    end
}
