//! The requests of a connection are answered from the front.

ghost use Rattle.std.specs.Prelude.{◌≡◌, ◌<◌, true, false, length, OnOk, OnErr};
ghost use Rattle.kp_watch.specs.Watching.{dropped};
ghost use Rattle.kp_conn.specs.Connection.{answered, closed, is_lost};
ghost use Rattle.kp_step.specs.Settling.{session_in, is_end};
ghost use Rattle.kp_node.specs.Deciding.{TurnsTo, IsSettled, Answered, with_events, without_last, let_out as let_out_so};

use crate::answering::{Decision, decide};
use kp_conn::{Conn, Phase, Waiting};
use kp_model::{Event, Events, NoMemory, View};
use kp_watch::Watches;
use kp_wire::{WireAsk, WireReply};
use std::alloc::Global;

/// What a turn made of a connection.
#[derive(Clone, Copy)]
pub enum Turn {
    /// Nothing is left that can be answered.
    Stays,
    /// The front was answered, and what is behind it goes on.
    Goes,
    /// The front was answered, and it was the last.
    Ends,
    /// There was no memory for the answer.
    Lost,
}

// The session that a connection serves, 0 where it isn't live.
pub fn session_of(phase: Phase) -> u64
    ensures { result ≡ session_in phase }
{
    match phase {
        Phase::Live { session, .. } => session,
        _ => 0,
    }
}

// Whether a request is the end of a session whose entry was applied.
fn is_last(waiting: &Waiting) -> bool
    ensures { result ≡ is_end waiting.now }
{
    matches!(waiting.request.ask, WireAsk::CloseSession) && waiting.reply.is_some()
}

// Takes the last packets back.
fn take_back(conn: &mut Conn, count: usize)
    ensures { conn.new ≡ without_last count conn.old }
{
    for done in 0..count {
        conn.unput();
    }
}

// Puts the packets of events, or none.
fn put_events(conn: &mut Conn, events: &[Event]) -> Result<(), NoMemory>
    ensures ok { OnOk result (conn.new ≡ with_events events.now conn.old) }
    ensures err { OnErr result (conn.new ≡ conn.old) }
{
    for done in 0..events.len() {
        match conn.event(&events[done]) {
            Ok(()) => {}
            Err(none) => {
                take_back(conn, done);
                return Err(none);
            }
        }
    }
    Ok(())
}

// Answers the front, behind events.
fn answer_behind(
    conn: &mut Conn,
    zxid: u64,
    events: &Events,
    reply: &WireReply,
) -> Result<(), NoMemory>
    requires { 0 < length conn.old.queue }
    ensures ok { OnOk result (conn.new ≡ answered zxid reply.now (with_events events.now conn.old)) }
    ensures err { OnErr result (conn.new ≡ conn.old) }
{
    put_events(conn, events.as_slice())?;
    match conn.answer(zxid, reply) {
        Ok(()) => Ok(()),
        Err(none) => {
            take_back(conn, events.len());
            Err(none)
        }
    }
}

// Lets what was decided of the front go out.
fn let_out(conn: &mut Conn, zxid: u64, decision: &Decision) -> Result<(), NoMemory>
    requires { 0 < length conn.old.queue }
    ensures ok { OnOk result (conn.new ≡ let_out_so zxid decision.now conn.old) }
    ensures err { OnErr result (conn.new ≡ conn.old) }
{
    match decision {
        Decision::Waits => Ok(()),
        Decision::Kept => conn.answer_kept(zxid),
        Decision::Tells(events, reply) => answer_behind(conn, zxid, events, reply),
    }
}

/// Gives a connection up for want of memory. It has no watches any more.
pub fn give_up(watches: &mut Watches, number: u64, conn: &mut Conn)
    ensures conn { conn.new ≡ closed true conn.old }
    ensures watches { watches.new ≡ dropped watches.old number }
{
    conn.close(true);
    watches.drop_conn(number);
}

// Answers the front as it was decided, where it is the last or isn't.
fn answer_front(
    watches: &mut Watches,
    number: u64,
    conn: &mut Conn,
    zxid: u64,
    decision: &Decision,
    last: bool,
) -> Turn
    requires { 0 < length conn.old.queue }
    ensures { Answered zxid number decision.now last watches.old conn.old watches.new conn.new result }
{
    if matches!(decision, Decision::Waits) {
        return Turn::Stays;
    }
    if let_out(conn, zxid, decision).is_err() {
        give_up(watches, number, conn);
        return Turn::Lost;
    }
    if last {
        conn.close(false);
        return Turn::Ends;
    }
    Turn::Goes
}

// Answers the request at the front, where it can be answered.
fn settle_front<V: View>(
    alloc: Global,
    view: &V,
    zxid: u64,
    watches: &mut Watches,
    number: u64,
    conn: &mut Conn,
) -> Turn
    requires { zxid ≡ (V.state view.now).applied }
    ensures { TurnsTo (V.state view.now) number watches.old conn.old watches.new conn.new result }
{
    let session = session_of(conn.phase());
    match conn.front() {
        None => Turn::Stays,
        Some(front) => {
            let last = is_last(front);
            match decide(alloc, view, watches, number, session, front) {
                Err(_) => {
                    give_up(watches, number, conn);
                    Turn::Lost
                }
                Ok(decision) => {
                    let turn = answer_front(watches, number, conn, zxid, &decision, last);
                    drop(decision);
                    turn
                }
            }
        }
    }
}

/// Answers what waits at a connection of this number on the state of the view, whose applied index is `zxid`: from the
/// front, until the front is a write whose entry isn't applied. A connection whose answer finds no memory is given up.
pub fn settle<V: View>(
    alloc: Global,
    view: &V,
    zxid: u64,
    watches: &mut Watches,
    number: u64,
    conn: &mut Conn,
)
    requires zxid { zxid ≡ (V.state view.now).applied }
    requires there { is_lost conn.old.phase ≡ false }
    ensures { IsSettled (V.state view.now) number watches.old conn.old watches.new conn.new }
{
    for turn in 0..conn.waiting() {
        match settle_front(alloc, view, zxid, watches, number, conn) {
            Turn::Goes => {}
            Turn::Stays => return,
            Turn::Ends => return,
            Turn::Lost => return,
        }
    }
}
