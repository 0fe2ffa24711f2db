ghost use Rattle.std.specs.Prelude.{◌≡◌, ◌≤◌, map, IfOk, IfSome};
ghost use Rattle.kp_script.specs.Events.{node_of as node_in, one_node as one_node_in, accept_line as accepts, in_line as feeds, hangup_line as hangs_up, drain_line as drains, deliver_line as delivers, plain_event as plain, plain_line as plain_line_in, event_of as event_in};

use kp_model::limits::LAST_NUMBER;
use kp_model::{Bytes, NoMemory};
use kp_text::{data_of, number_of, passwd_of};
use std::alloc::Global;

/// An event of a script, with the words of its line. Nodes are counted from 1.
#[derive(Drop)]
pub enum EventLine {
    /// `accept n PASS`: a connection comes, and these 16 bytes were drawn for it.
    Accept { node: u8, draw: [u8; 16] },
    /// `in n c HEX`: bytes of a client come in.
    In { node: u8, conn: u64, bytes: Bytes },
    /// `hangup n c`: a connection goes.
    Hangup { node: u8, conn: u64 },
    /// `drain n c`: what is ready for a connection is taken.
    Drain { node: u8, conn: u64 },
    /// `timeout n`: no leader was heard for long.
    Timeout { node: u8 },
    /// `deliver m`: the message of this number reaches its receiver.
    Deliver { message: u64 },
    /// `beat n`: a leader sends what its followers lack.
    Beat { node: u8 },
    /// `commit n`: the next committed entry is applied.
    Commit { node: u8 },
    /// `expire n`: a leader expires the sessions that weren't heard.
    Expire { node: u8 },
    /// `snap n`: the log's beginning gives way to an image.
    Snap { node: u8 },
}

/// The number of a node, of so many, that a word is.
pub(crate) fn node_of(nodes: u8, word: &str) -> Option<u8>
    ensures { result ≡ node_in nodes word.now }
{
    match number_of(nodes as u64, word) {
        Some(node) if node >= 1 => Some(node as u8),
        _ => None,
    }
}

/// The number of a node where it is the only word.
pub(crate) fn one_node(nodes: u8, words: &[&str]) -> Option<u8>
    ensures { result ≡ one_node_in nodes (map (λ x. x.now) words.now) }
{
    match words {
        [word] => node_of(nodes, word),
        _ => None,
    }
}

#[tactic(auto, unfolding(crate::specs::Events::accept_line))]
fn accept_line(alloc: Global, nodes: u8, words: &[&str]) -> Result<Option<EventLine>, NoMemory>
    ensures { IfOk result (λ o. o ≡ accepts nodes (map (λ x. x.now) words.now)) }
{
    match words {
        [node, draw] => {
            let Some(node) = node_of(nodes, node) else {
                return Ok(None);
            };
            match passwd_of(alloc, draw)? {
                None => Ok(None),
                Some(draw) => Ok(Some(EventLine::Accept { node, draw })),
            }
        }
        _ => Ok(None),
    }
}

#[tactic(auto, unfolding(crate::specs::Events::in_line))]
fn in_line(alloc: Global, nodes: u8, words: &[&str]) -> Result<Option<EventLine>, NoMemory>
    ensures { IfOk result (λ o. o ≡ feeds nodes (map (λ x. x.now) words.now)) }
{
    match words {
        [node, conn, bytes] => {
            let Some(node) = node_of(nodes, node) else {
                return Ok(None);
            };
            let Some(conn) = number_of(LAST_NUMBER, conn) else {
                return Ok(None);
            };
            match data_of(alloc, bytes)? {
                None => Ok(None),
                Some(bytes) => Ok(Some(EventLine::In {
                    node,
                    conn,
                    bytes: Bytes::from_vec(bytes),
                })),
            }
        }
        _ => Ok(None),
    }
}

#[tactic(auto, unfolding(crate::specs::Events::hangup_line))]
fn hangup_line(nodes: u8, words: &[&str]) -> Option<EventLine>
    ensures { result ≡ hangs_up nodes (map (λ x. x.now) words.now) }
{
    match words {
        [node, conn] => {
            let node = node_of(nodes, node)?;
            let conn = number_of(LAST_NUMBER, conn)?;
            Some(EventLine::Hangup { node, conn })
        }
        _ => None,
    }
}

#[tactic(auto, unfolding(crate::specs::Events::drain_line))]
fn drain_line(nodes: u8, words: &[&str]) -> Option<EventLine>
    ensures { result ≡ drains nodes (map (λ x. x.now) words.now) }
{
    match words {
        [node, conn] => {
            let node = node_of(nodes, node)?;
            let conn = number_of(LAST_NUMBER, conn)?;
            Some(EventLine::Drain { node, conn })
        }
        _ => None,
    }
}

#[tactic(auto, unfolding(crate::specs::Events::deliver_line))]
fn deliver_line(words: &[&str]) -> Option<EventLine>
    ensures { result ≡ delivers (map (λ x. x.now) words.now) }
{
    match words {
        [message] => {
            let message = number_of(LAST_NUMBER, message)?;
            Some(EventLine::Deliver { message })
        }
        _ => None,
    }
}

#[tactic(auto, unfolding(crate::specs::Events::plain_event))]
fn plain_event(name: &str, node: u8) -> Option<EventLine>
    ensures { result ≡ plain name.now node }
{
    if name == "timeout" {
        Some(EventLine::Timeout { node })
    } else if name == "beat" {
        Some(EventLine::Beat { node })
    } else if name == "commit" {
        Some(EventLine::Commit { node })
    } else if name == "expire" {
        Some(EventLine::Expire { node })
    } else if name == "snap" {
        Some(EventLine::Snap { node })
    } else {
        None
    }
}

#[tactic(auto, unfolding(crate::specs::Events::plain_line))]
fn plain_line(nodes: u8, name: &str, words: &[&str]) -> Option<EventLine>
    ensures { result ≡ plain_line_in nodes name.now (map (λ x. x.now) words.now) }
{
    match one_node(nodes, words) {
        None => None,
        Some(node) => plain_event(name, node),
    }
}

/// The event that a name and the words behind it are.
#[tactic(auto, unfolding(crate::specs::Events::event_of))]
pub(crate) fn event_of(
    alloc: Global,
    nodes: u8,
    name: &str,
    words: &[&str],
) -> Result<Option<EventLine>, NoMemory>
    ensures { IfOk result (λ o. o ≡ event_in nodes name.now (map (λ x. x.now) words.now)) }
{
    if name == "accept" {
        accept_line(alloc, nodes, words)
    } else if name == "in" {
        in_line(alloc, nodes, words)
    } else if name == "hangup" {
        Ok(hangup_line(nodes, words))
    } else if name == "drain" {
        Ok(drain_line(nodes, words))
    } else if name == "deliver" {
        Ok(deliver_line(words))
    } else {
        Ok(plain_line(nodes, name, words))
    }
}
