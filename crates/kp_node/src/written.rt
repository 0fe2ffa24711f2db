//! The answer of a write, made before its entry is applied.

ghost use Rattle.std.specs.Prelude.{◌≡◌, IfOk};
ghost use Rattle.kp_node.specs.Concerned.{subject, IsSubject};
ghost use Rattle.kp_node.specs.Informing.{IsAnswerIn};
ghost use Rattle.kp_node.specs.Meaning.{IsIndexed};
ghost use Rattle.kp_node.specs.Written.{IsAnswerAt};

use crate::telling::answer_for;
use kp_model::{Body, NoMemory, Reply};
use kp_seats::Seats;
use kp_step::Seat;
use kp_wire::WireReply;
use std::alloc::Global;

// What the write with this number is answered that waits at this connection, if it is there.
fn answer_at(
    alloc: Global,
    seats: &Seats<Seat>,
    server: Option<u64>,
    seq: u64,
    reply: &Reply,
) -> Result<Option<WireReply>, NoMemory>
    ensures { IfOk result (λ a. IsAnswerAt seats.now.seats server seq reply.now a) }
{
    match server {
        None => Ok(None),
        Some(conn) => match seats.get(conn) {
            None => Ok(None),
            Some(seat) => answer_for(alloc, &seat.connection, seq, reply),
        },
    }
}

/// What the write of an entry with this reply is answered, where it waits at the connection of its session, which is this
/// one. None where there is no such write.
pub(crate) fn answer_in(
    alloc: Global,
    seats: &Seats<Seat>,
    server: Option<u64>,
    body: &Body,
    reply: &Reply,
) -> Result<Option<WireReply>, NoMemory>
    requires indexed { IsIndexed seats.now }
    requires server { IsSubject seats.now (subject body.now) server }
    ensures { IfOk result (λ a. IsAnswerIn body.now reply.now a seats.now.seats) }
{
    match body {
        Body::Noop => Ok(None),
        Body::OpenSession { .. } => Ok(None),
        Body::Attach { .. } => Ok(None),
        Body::Expire { .. } => Ok(None),
        Body::Write { seq, .. } => answer_at(alloc, seats, server, *seq, reply),
    }
}
