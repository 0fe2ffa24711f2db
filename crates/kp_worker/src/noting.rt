// What is looked at of events and thoughts.
ghost use Rattle.std.specs.Prelude.{◌≡◌};
ghost use Rattle.kp_worker.specs.Notes.{ends_at, is_bad, is_end, is_last, mark_of, opened_by, starves, where_so};
ghost use Rattle.kp_shared.specs.Tasks.{is_none_left, out_of};

use crate::note::{Mark, Note};
use kp_event::{FedWord, NodeEventKind, OutPiece, Said};

/// The connection of an event that gave bytes or drains.
pub(crate) fn mark_at<M>(kind: &NodeEventKind<M>) -> Mark
    ensures { result ≡ mark_of kind.now }
{
    match kind {
        NodeEventKind::Client { conn, .. } => Mark::Fed(*conn),
        NodeEventKind::Drain { conn } => Mark::Drained(*conn),
        _ => Mark::Other,
    }
}

// Whether a CommitOne found no further entry.
fn finds_none_left(said: &Said) -> bool
    ensures { result ≡ is_none_left said.now }
{
    match said {
        Said::Done(None) => true,
        _ => false,
    }
}

/// Whether no commit comes behind it.
pub(crate) fn ends_commits<M>(note: &Note<M>) -> bool
    ensures { result ≡ is_end note.now.thought }
{
    match &note.thought {
        Some(thought) => finds_none_left(&thought.said),
        None => true,
    }
}

/// The connection that was opened.
pub(crate) fn opened(said: &Said) -> Option<u64>
    ensures { result ≡ opened_by said.now }
{
    match said {
        Said::Conn(conn) => Some(*conn),
        _ => None,
    }
}

/// The bytes that were drained.
pub(crate) fn drained(said: &Said) -> &[u8]
    ensures { result.now ≡ out_of said.now }
{
    match said {
        Said::Out(Some(piece)) => piece.bytes.as_slice(),
        _ => &[],
    }
}

// Whether a frame was outside the grammar.
fn bad(said: &Said) -> bool
    ensures { result ≡ is_bad said.now }
{
    match said {
        Said::Fed(FedWord::Bad { .. }) => true,
        _ => false,
    }
}

// Whether a drain found the connection over, given up, or gone.
fn last(said: &Said) -> bool
    ensures { result ≡ is_last said.now }
{
    match said {
        Said::Out(Some(OutPiece { over, lost, .. })) => *over || *lost,
        Said::Out(None) => true,
        _ => false,
    }
}

// The connection, where it is so.
fn where_it_is(so: bool, conn: u64) -> Option<u64>
    ensures { result ≡ where_so so conn }
{
    if so { Some(conn) } else { None }
}

/// The connection that a thought ends.
pub(crate) fn ended(mark: Mark, said: &Said) -> Option<u64>
    ensures { result ≡ ends_at mark said.now }
{
    match mark {
        Mark::Fed(conn) => where_it_is(bad(said), conn),
        Mark::Drained(conn) => where_it_is(last(said), conn),
        Mark::Other => None,
    }
}

/// The connection that ends since the node had no memory for its event.
pub(crate) fn starved(mark: Mark) -> Option<u64>
    ensures { result ≡ starves mark }
{
    match mark {
        Mark::Fed(conn) => Some(conn),
        Mark::Drained(conn) => Some(conn),
        Mark::Other => None,
    }
}
