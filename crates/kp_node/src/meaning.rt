//! What an applied entry means for the connection of its session.

ghost use Rattle.std.specs.Prelude.{◌≡◌, true, false};
ghost use Rattle.kp_model.specs.Taken.{is_stale};
ghost use Rattle.kp_seats.specs.Serving.{is_that as is_number};
ghost use Rattle.kp_seats.specs.Walked.{IsStep, SameBeside};
ghost use Rattle.kp_step.specs.Committing.{is_of as of_session, is_in as in_epoch};
ghost use Rattle.kp_node.specs.Informing.{is_epoch, IsAnswerIn, AreMeant};
ghost use Rattle.kp_node.specs.Meaning.{moved, IsIndexed, SeatRefuses, AreEnded, SeatKeeps, AreReplied};

use crate::entry::newcomer;
use crate::refusing::refuse;
use crate::telling::reply_to;
use kp_conn::Phase;
use kp_model::errors::SESSION_EXPIRED;
use kp_model::{Body, Reply};
use kp_seats::Seats;
use kp_step::Seat;
use kp_wire::WireReply;

/// The session was taken over by another connection.
const SESSION_MOVED: i32 = -118;

// Whether a connection serves the session.
fn is_of(session: u64, phase: Phase) -> bool
    ensures { result ≡ of_session session phase }
{
    match phase {
        Phase::Live {
            session: served,
            ..
        } => served == session,
        _ => false,
    }
}

// Whether a connection serves the session in this epoch.
fn is_in(session: u64, epoch: u64, phase: Phase) -> bool
    ensures { result ≡ in_epoch session epoch phase }
{
    match phase {
        Phase::Live {
            session: served,
            epoch: current,
            ..
        } => served == session && current == epoch,
        _ => false,
    }
}

// Whether it is this number.
fn is_that(number: Option<u64>, conn: u64) -> bool
    ensures { result ≡ is_number number conn }
{
    match number {
        None => false,
        Some(n) => n == conn,
    }
}

// Refuses all that waits at a seat of the session.
fn refuse_seat(seat: &mut Seat, conn: u64, session: u64, zxid: u64, refusal: &WireReply)
    ensures { SeatRefuses session true zxid refusal.now conn seat.old seat.new }
{
    if is_of(session, seat.connection.phase()) {
        refuse(&mut seat.connection, zxid, refusal);
    }
}

// Refuses all that waits at this connection, if it is of the session.
fn refuse_at(seats: &mut Seats<Seat>, conn: u64, session: u64, zxid: u64, refusal: &WireReply)
    ensures { IsStep (SeatRefuses session true zxid refusal.now) conn seats.old seats.new }
{
    if let Some(seat) = seats.get_mut(conn) {
        refuse_seat(seat, conn, session, zxid, refusal);
    }
}

/// Answers each request that waits at the connection of the session by this reply, which is the code of a refusal, and
/// ends the connection; one that is spared stays. It costs that connection.
pub(crate) fn end_session(
    seats: &mut Seats<Seat>,
    session: u64,
    spared: Option<u64>,
    zxid: u64,
    refusal: &WireReply,
)
    requires { IsIndexed seats.old }
    ensures ended { AreEnded session spared zxid refusal.now seats.old.seats seats.new.seats }
    ensures beside { SameBeside seats.old seats.new }
{
    match seats.find(session) {
        None => {}
        Some(conn) => {
            if !is_that(spared, conn) {
                refuse_at(seats, conn, session, zxid, refusal);
            }
        }
    }
}

// The write with the number keeps its answer at a seat of the session and the epoch.
fn reply_seat(
    seat: &mut Seat,
    conn: u64,
    session: u64,
    epoch: u64,
    seq: u64,
    answer: Option<WireReply>,
)
    ensures { SeatKeeps session epoch seq answer conn seat.old seat.new }
{
    if is_in(session, epoch, seat.connection.phase()) {
        reply_to(&mut seat.connection, seq, answer);
    } else {
        drop(answer);
    }
}

// The same at this connection.
fn reply_at(
    seats: &mut Seats<Seat>,
    conn: u64,
    session: u64,
    epoch: u64,
    seq: u64,
    answer: Option<WireReply>,
)
    ensures { IsStep (SeatKeeps session epoch seq answer) conn seats.old seats.new }
{
    match seats.get_mut(conn) {
        None => drop(answer),
        Some(seat) => reply_seat(seat, conn, session, epoch, seq, answer),
    }
}

/// The write with the number keeps its answer, where it waits at the connection of the session and the epoch. It takes
/// no memory, and costs that connection.
pub(crate) fn reply_in(
    seats: &mut Seats<Seat>,
    session: u64,
    epoch: u64,
    seq: u64,
    answer: Option<WireReply>,
)
    requires { IsIndexed seats.old }
    ensures replied { AreReplied session epoch seq answer seats.old.seats seats.new.seats }
    ensures beside { SameBeside seats.old seats.new }
{
    match seats.find(session) {
        None => drop(answer),
        Some(conn) => reply_at(seats, conn, session, epoch, seq, answer),
    }
}

// Whether an entry came too late.
pub(crate) fn is_late(reply: &Reply) -> bool
    ensures { result ≡ is_stale reply.now }
{
    matches!(reply, Reply::Stale)
}

// Whether an attach was told that it took its session over.
fn is_moved(reply: &Reply) -> bool
    ensures { result ≡ is_epoch reply.now }
{
    matches!(reply, Reply::Epoch(_))
}

// An attach that took its session over ends every other connection of it.
fn mean_attach(seats: &mut Seats<Seat>, session: u64, spared: Option<u64>, zxid: u64, reply: &Reply)
    requires { IsIndexed seats.old }
    ensures meant { (is_epoch reply.now ≡ true → AreEnded session spared zxid moved seats.old.seats seats.new.seats) × (is_epoch reply.now ≡ false → seats.new.seats ≡ seats.old.seats) }
    ensures beside { SameBeside seats.old seats.new }
{
    if is_moved(reply) {
        end_session(seats, session, spared, zxid, &WireReply::Err(SESSION_MOVED));
    }
}

// What the body of an entry that came in time means.
fn mean_body(
    seats: &mut Seats<Seat>,
    node: u8,
    boot: u64,
    zxid: u64,
    body: &Body,
    reply: &Reply,
    answer: Option<WireReply>,
)
    requires indexed { IsIndexed seats.old }
    requires answer { IsAnswerIn body.now reply.now answer seats.old.seats }
    requires late { is_stale reply.now ≡ false }
    ensures meant { AreMeant node boot zxid body.now reply.now seats.old.seats seats.new.seats }
    ensures beside { SameBeside seats.old seats.new }
{
    match body {
        Body::Noop => drop(answer),
        Body::OpenSession { .. } => drop(answer),
        Body::Attach { session, .. } => {
            drop(answer);
            mean_attach(seats, *session, newcomer(node, boot, body), zxid, reply);
        }
        Body::Expire { session } => {
            drop(answer);
            end_session(
                seats,
                *session,
                None,
                zxid,
                &WireReply::Err(SESSION_EXPIRED),
            );
        }
        Body::Write {
            session,
            epoch,
            seq,
            ..
        } => reply_in(seats, *session, *epoch, *seq, answer),
    }
}

/// What an applied entry with this reply means for the connections of a node that was started so often: each of its
/// session is answered or ended. The answer is the one that was made for the write. It costs the connection of the
/// session.
pub(crate) fn mean(
    seats: &mut Seats<Seat>,
    node: u8,
    boot: u64,
    zxid: u64,
    body: &Body,
    reply: &Reply,
    answer: Option<WireReply>,
)
    requires indexed { IsIndexed seats.old }
    requires answer { IsAnswerIn body.now reply.now answer seats.old.seats }
    ensures meant { AreMeant node boot zxid body.now reply.now seats.old.seats seats.new.seats }
    ensures beside { SameBeside seats.old seats.new }
{
    if is_late(reply) {
        drop(answer);
        return;
    }
    mean_body(seats, node, boot, zxid, body, reply, answer);
}
