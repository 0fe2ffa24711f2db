//! What an applied entry tells the connection that waits for it.

ghost use Rattle.std.specs.Prelude.{◌≡◌, IfOk, OnOk, OnErr, option_copied};
ghost use Rattle.kp_conn.specs.Queue.{awaited};
ghost use Rattle.kp_node.specs.Telling.{answer_for as answer_found, replied_by, greeted_with};

use crate::connect::{greeting, refusal};
use kp_ask::answer_to;
use kp_conn::Conn;
use kp_model::{NoMemory, Reply, Session};
use kp_wire::WireReply;
use std::alloc::Global;

/// What the write with this number is answered that waits at a connection, where this is the reply of its entry. None
/// where no such write waits.
pub fn answer_for(
    alloc: Global,
    conn: &Conn,
    seq: u64,
    reply: &Reply,
) -> Result<Option<WireReply>, NoMemory>
    ensures { IfOk result (λ r. r ≡ answer_found reply.now (awaited seq conn.now.queue)) }
{
    match conn.awaiting(seq) {
        None => Ok(None),
        Some(waiting) => Ok(Some(answer_to(alloc, &waiting.request.ask, reply)?)),
    }
}

/// The write with this number keeps its answer, if it waits. Takes no memory.
pub fn reply_to(conn: &mut Conn, seq: u64, answer: Option<WireReply>)
    ensures { conn.new ≡ replied_by seq answer conn.old }
{
    if let Some(answer) = answer {
        conn.settle(seq, answer);
    }
}

/// Answers the connect request of a connection: it serves this session, or is refused where there is none. Without memory
/// nothing has changed.
pub fn greet(
    conn: &mut Conn,
    read_only: bool,
    id: u64,
    session: Option<&Session>,
) -> Result<(), NoMemory>
    ensures ok { OnOk result (conn.new ≡ greeted_with read_only id (option_copied session.entry) conn.old) }
    ensures err { OnErr result (conn.new ≡ conn.old) }
{
    match session {
        None => conn.connect(&refusal(read_only), 0),
        Some(found) => conn.connect(&greeting(read_only, id, found), found.epoch),
    }
}
