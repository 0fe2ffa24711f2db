//! A story of a node, line by line: what happens to it, and what is seen of that.
ghost use Rattle.std.specs.Prelude.{◌≤◌, ◌^◌};

use kp_event::{FedWord, NodeEvent, NodeEventKind, OutPiece, Said};
use kp_model::{Bytes, Meta, NoMemory, Role};
use kp_node::Node;
use kp_raft::Mail;
use kp_snapshot::Image;
use std::alloc::Global;

/// What the password of a new session comes from.
const DRAW: [u8; 16] = [0, 1, 2, 3, 4, 5, 6, 7, 8, 9, 10, 11, 12, 13, 14, 15];

/// The length of the longest frame.
const LONGEST: usize = 1_048_575;

/// No story has so many events.
const MANY: u64 = 100_000;

/// What happens, and what is said of it.
#[derive(Clone, Copy)]
pub enum Line {
    /// From here on it is this time, in milliseconds.
    Time(u64),
    /// No leader was heard for too long.
    Timeout,
    /// The node leads in this term, and this is its last index and its commit index.
    Leads(u64, u64, u64),
    /// A node of the committed tree has no data, and these numbers.
    See(&'static str, Meta),
    /// A connection comes, and gets this number.
    Accept(u64),
    /// A connection takes these bytes.
    In(u64, &'static [u8]),
    /// It takes them in pieces of one byte.
    Bytewise(u64, &'static [u8]),
    /// It takes the longest frame there is, with a request of no type that is known, numbered 7.
    Longest(u64),
    /// It takes them, and the frame that begins at this place of all that it took is none.
    Bad(u64, &'static [u8], u64),
    /// There is no such connection, or it is over.
    Deaf(u64, &'static [u8]),
    /// The entry of this index is applied.
    Commit(u64),
    /// There is none to apply.
    Idle,
    /// This goes out on a connection.
    Out(u64, &'static [u8]),
    /// This goes out, and the connection is over.
    End(u64, &'static [u8]),
    /// The end of so many sessions is proposed.
    Expire(u32),
    /// A connection hangs up.
    Hangup(u64),
    /// There is no connection of this number: it can't hang up, and nothing goes out on it.
    Gone(u64),
}

// The longest frame, with a request of type 77 and nothing but zeros behind it.
fn longest(alloc: Global) -> Result<Vec<u8>, NoMemory> {
    let mut frame = vec![in alloc; 0u8; LONGEST + 4]?;
    frame[1] = 0x0f;
    frame[2] = 0xff;
    frame[3] = 0xff;
    frame[7] = 7;
    frame[11] = 77;
    Ok(frame)
}

// What happens to the node at this line; None where nothing does.
fn happening(alloc: Global, line: Line) -> Result<Option<NodeEventKind<Mail<Image>>>, NoMemory> {
    let kind = match line {
        Line::Time(_)
        | Line::Bytewise(_, _)
        | Line::Leads(_, _, _)
        | Line::See(_, _)
        | Line::Gone(_) => return Ok(None),
        Line::Timeout => NodeEventKind::Timeout,
        Line::Accept(_) => NodeEventKind::Accept { draw: DRAW },
        Line::In(conn, bytes) | Line::Bad(conn, bytes, _) | Line::Deaf(conn, bytes) => {
            NodeEventKind::Client {
                conn,
                bytes: Bytes::from_vec(Vec::from_slice(alloc, bytes)?),
            }
        }
        Line::Longest(conn) => NodeEventKind::Client {
            conn,
            bytes: Bytes::from_vec(longest(alloc)?),
        },
        Line::Commit(_) | Line::Idle => NodeEventKind::CommitOne,
        Line::Out(conn, _) | Line::End(conn, _) => NodeEventKind::Drain { conn },
        Line::Expire(_) => NodeEventKind::ExpireDue,
        Line::Hangup(conn) => NodeEventKind::Hangup { conn },
    };
    Ok(Some(kind))
}

// Whether these bytes were ready, and no more will come exactly where it says so.
fn is_out(piece: &Option<OutPiece>, bytes: &[u8], over: bool) -> bool {
    match piece {
        None => false,
        Some(piece) => piece.bytes.as_slice() == bytes && piece.over == over && !piece.lost,
    }
}

// Whether a connection said this of its bytes.
fn is_fed(word: FedWord, line: Line) -> bool {
    match (word, line) {
        (FedWord::Taken, Line::In(_, _) | Line::Longest(_)) => true,
        (FedWord::Bad { at }, Line::Bad(_, _, place)) => at == place,
        (FedWord::Unknown, Line::Deaf(_, _)) => true,
        _ => false,
    }
}

// Whether an applied entry is the one that the line names.
fn is_done(index: Option<u64>, line: Line) -> bool {
    match line {
        Line::Commit(wanted) => index == Some(wanted),
        Line::Idle => index.is_none(),
        _ => false,
    }
}

// Whether that is what the line says.
fn is_said(said: &Said, line: Line) -> bool {
    match said {
        Said::Conn(conn) => matches!(line, Line::Accept(number) if number == *conn),
        Said::Fed(word) => is_fed(*word, line),
        Said::Hung(there) => *there == matches!(line, Line::Hangup(_)),
        Said::Out(piece) => match line {
            Line::Out(_, bytes) => is_out(piece, bytes, false),
            Line::End(_, bytes) => is_out(piece, bytes, true),
            _ => piece.is_none(),
        },
        Said::Raft => true,
        Said::Beat(_) | Said::Snapped(_) => false,
        Said::Done(index) => is_done(*index, line),
        Said::Expired(count) => matches!(line, Line::Expire(wanted) if wanted == *count),
    }
}

// Whether the node does at this line what it says.
fn does(alloc: Global, node: &mut Node, now: u64, line: Line) -> Result<bool, NoMemory> {
    let Some(kind) = happening(alloc, line)? else {
        return Ok(true);
    };
    said_of(node, now, kind, line)
}

// Whether the node says of this what the line says, with no message, and nobody given up.
fn said_of(
    node: &mut Node,
    now: u64,
    kind: NodeEventKind<Mail<Image>>,
    line: Line,
) -> Result<bool, NoMemory> {
    if node.events() > MANY {
        drop(kind);
        return Ok(false);
    }
    let outcome = node.event(NodeEvent { now, kind })?;
    let quiet = outcome.lost == 0 && outcome.cut.is_none() && outcome.mail.len() == 0;
    let said = is_said(&outcome.said, line) && quiet;
    drop(outcome);
    Ok(said)
}

// Whether the node stands so.
fn leads(node: &Node, term: u64, last: u64, commit: u64) -> bool {
    matches!(node.role(), Role::Leader)
        && node.term() == term
        && node.last() == last
        && node.commit() == commit
}

// Whether the committed tree has a node without data, with these numbers.
fn sees(node: &Node, path: &str, wanted: &Meta) -> bool {
    let storage = node.storage();
    match (storage.committed_meta(path), storage.committed_data(path)) {
        (Some(meta), Some(bytes)) => *meta == *wanted && bytes.is_empty(),
        _ => false,
    }
}

// Whether there is no such connection.
fn is_gone(alloc: Global, node: &mut Node, now: u64, conn: u64) -> Result<bool, NoMemory> {
    let hung = said_of(node, now, NodeEventKind::Hangup { conn }, Line::Gone(conn))?;
    let out = said_of(node, now, NodeEventKind::Drain { conn }, Line::Gone(conn))?;
    let fed = does(alloc, node, now, Line::Deaf(conn, b"ruok"))?;
    Ok(hung && out && fed)
}

// Whether the node takes each byte as a piece of its own.
fn takes_each(
    alloc: Global,
    node: &mut Node,
    now: u64,
    conn: u64,
    bytes: &'static [u8],
) -> Result<bool, NoMemory> {
    for place in 0..bytes.len() {
        if !does(alloc, node, now, Line::In(conn, &bytes[place..place + 1]))? {
            return Ok(false);
        }
    }
    Ok(true)
}

/// Whether a node does what the lines say, one behind the other, from this time on, in milliseconds.
pub fn follows(
    alloc: Global,
    node: &mut Node,
    now: &mut u64,
    lines: &[Line],
) -> Result<bool, NoMemory> {
    for line in lines {
        if let Line::Time(time) = *line {
            *now = time;
        }
        let done = match *line {
            Line::Bytewise(conn, bytes) => takes_each(alloc, node, *now, conn, bytes)?,
            Line::Leads(term, last, commit) => leads(node, term, last, commit),
            Line::See(path, meta) => sees(node, path, &meta),
            Line::Gone(conn) => is_gone(alloc, node, *now, conn)?,
            other => does(alloc, node, *now, other)?,
        };
        if !done {
            return Ok(false);
        }
    }
    Ok(true)
}
