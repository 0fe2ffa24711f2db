ghost use Rattle.std.specs.Prelude.{◌≡◌, ◌↔◌, map, Err, Some, None, IfOk, IsTrue};
ghost use Rattle.kp_text.specs.Lines.{is_look as look_name};
ghost use Rattle.kp_script.specs.Spelling.{is_line, spelled};
ghost use Rattle.kp_script.specs.Lines.{time_line as times, torn_line as tears, who_line as asks_who, is_member as member_name, member_at as member_of, member_line as member_line_in, look_at as looks, look_line as look_line_in, event_line as event_line_in, of_words as of, line_of};

use crate::event::{EventLine, event_of, node_of, one_node};
use kp_model::limits::LAST_NUMBER;
use kp_model::{NoMemory, Text};
use kp_text::{LineFail, number_of, path_of, words_of};
use std::alloc::Global;
use std::str;

/// A look at the tree of a node, with the words of its line.
#[derive(Drop)]
pub enum LookLine {
    /// `peek n PATH`: a node of the uncommitted state.
    Peek { path: Text },
    /// `see n PATH`: a node of the committed state.
    See { path: Text },
    /// `kids n PATH`: the children of a node in the uncommitted state.
    Kids { path: Text },
    /// `ls n PATH`: the children of a node in the committed state.
    Ls { path: Text },
    /// `acl n PATH`: the access list of a node in the uncommitted state.
    Acl { path: Text },
    /// `who n S`: a session in the uncommitted state.
    Who { session: u64 },
}

/// A line of the script language, with its words. Nodes are counted from 1; times are in milliseconds.
#[derive(Drop)]
pub enum ScriptLine {
    /// `time T`: the time of what comes.
    Time { time: u64 },
    /// An event of a node, or of the receiver of a message.
    Event(EventLine),
    /// `torn k LINE`: an event of whose records the first k stay, and then its node stops.
    Torn { kept: u64, event: EventLine },
    /// `crash n`: the node stops.
    Crash { node: u8 },
    /// `start n`: the node is opened from its home.
    Start { node: u8 },
    /// `hold n`: the node keeps back what its events give.
    Hold { node: u8 },
    /// `flush n`: it gives all of that, and holds no more.
    Flush { node: u8 },
    /// A look at the tree of a node.
    Look { node: u8, look: LookLine },
}

#[tactic(auto, unfolding(crate::specs::Lines::time_line))]
fn time_line(words: &[&str]) -> Option<ScriptLine>
    ensures { result ≡ times (map (λ x. x.now) words.now) }
{
    match words {
        [time] => {
            let time = number_of(LAST_NUMBER, time)?;
            Some(ScriptLine::Time { time })
        }
        _ => None,
    }
}

#[tactic(auto, unfolding(crate::specs::Lines::torn_line))]
fn torn_line(alloc: Global, nodes: u8, words: &[&str]) -> Result<Option<ScriptLine>, NoMemory>
    ensures { IfOk result (λ o. o ≡ tears nodes (map (λ x. x.now) words.now)) }
{
    match words {
        [kept, name, others @ ..] => {
            let Some(kept) = number_of(LAST_NUMBER, kept) else {
                return Ok(None);
            };
            match event_of(alloc, nodes, name, others)? {
                None => Ok(None),
                Some(event) => Ok(Some(ScriptLine::Torn { kept, event })),
            }
        }
        _ => Ok(None),
    }
}

#[tactic(auto, unfolding(crate::specs::Lines::who_line))]
fn who_line(nodes: u8, words: &[&str]) -> Option<ScriptLine>
    ensures { result ≡ asks_who nodes (map (λ x. x.now) words.now) }
{
    match words {
        [node, session] => {
            let node = node_of(nodes, node)?;
            let session = number_of(LAST_NUMBER, session)?;
            Some(ScriptLine::Look {
                node,
                look: LookLine::Who { session },
            })
        }
        _ => None,
    }
}

fn is_member(name: &str) -> bool
    ensures { result ≡ member_name name.now }
{
    (name == "crash" || name == "start") || (name == "hold" || name == "flush")
}

#[tactic(auto, unfolding(crate::specs::Lines::member_at))]
fn member_at(name: &str, node: u8) -> Option<ScriptLine>
    ensures { result ≡ member_of name.now node }
{
    if name == "crash" {
        Some(ScriptLine::Crash { node })
    } else if name == "start" {
        Some(ScriptLine::Start { node })
    } else if name == "hold" {
        Some(ScriptLine::Hold { node })
    } else if name == "flush" {
        Some(ScriptLine::Flush { node })
    } else {
        None
    }
}

#[tactic(auto, unfolding(crate::specs::Lines::member_line))]
fn member_line(nodes: u8, name: &str, words: &[&str]) -> Option<ScriptLine>
    ensures { result ≡ member_line_in nodes name.now (map (λ x. x.now) words.now) }
{
    match one_node(nodes, words) {
        None => None,
        Some(node) => member_at(name, node),
    }
}

fn is_look(name: &str) -> bool
    ensures { result ≡ look_name name.now }
{
    (name == "peek" || name == "see") || (name == "kids" || (name == "ls" || name == "acl"))
}

#[tactic(auto, unfolding(crate::specs::Lines::look_at))]
fn look_at(name: &str, path: Text) -> Option<LookLine>
    ensures { result ≡ looks name.now path }
{
    if name == "peek" {
        Some(LookLine::Peek { path })
    } else if name == "see" {
        Some(LookLine::See { path })
    } else if name == "kids" {
        Some(LookLine::Kids { path })
    } else if name == "ls" {
        Some(LookLine::Ls { path })
    } else if name == "acl" {
        Some(LookLine::Acl { path })
    } else {
        None
    }
}

#[tactic(auto, unfolding(crate::specs::Lines::look_line))]
fn look_line(
    alloc: Global,
    nodes: u8,
    name: &str,
    words: &[&str],
) -> Result<Option<ScriptLine>, NoMemory>
    ensures { IfOk result (λ o. o ≡ look_line_in nodes name.now (map (λ x. x.now) words.now)) }
{
    match words {
        [node, path] => {
            let Some(node) = node_of(nodes, node) else {
                return Ok(None);
            };
            let Some(path) = path_of(alloc, path)? else {
                return Ok(None);
            };
            match look_at(name, path) {
                None => Ok(None),
                Some(look) => Ok(Some(ScriptLine::Look { node, look })),
            }
        }
        _ => Ok(None),
    }
}

#[tactic(auto, unfolding(crate::specs::Lines::event_line))]
fn event_line(
    alloc: Global,
    nodes: u8,
    name: &str,
    words: &[&str],
) -> Result<Option<ScriptLine>, NoMemory>
    ensures { IfOk result (λ o. o ≡ event_line_in nodes name.now (map (λ x. x.now) words.now)) }
{
    match event_of(alloc, nodes, name, words)? {
        None => Ok(None),
        Some(event) => Ok(Some(ScriptLine::Event(event))),
    }
}

#[tactic(auto, unfolding(crate::specs::Lines::of_words))]
fn of_words(alloc: Global, nodes: u8, words: &[&str]) -> Result<Option<ScriptLine>, NoMemory>
    ensures { IfOk result (λ o. o ≡ of nodes (map (λ x. x.now) words.now)) }
{
    match words {
        [] => Ok(None),
        [name, others @ ..] => {
            if *name == "time" {
                Ok(time_line(others))
            } else if *name == "torn" {
                torn_line(alloc, nodes, others)
            } else if *name == "who" {
                Ok(who_line(nodes, others))
            } else if is_member(name) {
                Ok(member_line(nodes, name, others))
            } else if is_look(name) {
                look_line(alloc, nodes, name, others)
            } else {
                event_line(alloc, nodes, name, others)
            }
        }
    }
}

/// The line that a text is, where it is one.
#[tactic(auto, unfolding(crate::specs::Lines::line_of))]
fn line_in(alloc: Global, nodes: u8, text: &[u8]) -> Result<Option<ScriptLine>, NoMemory>
    ensures { IfOk result (λ o. o ≡ line_of nodes text.now) }
{
    match str::from_utf8(text) {
        Err(_) => Ok(None),
        Ok(line) => {
            let words = words_of(alloc, line)?;
            of_words(alloc, nodes, words.as_slice())
        }
    }
}

/// Reads a line of the script language among nodes 1 to `nodes`; `line` has no line feed. Ok exactly with the line
/// that the bytes spell, `BadLine` only where they spell none, else `NoMemory`.
pub fn read_script_line(alloc: Global, line: &[u8], nodes: u8) -> Result<ScriptLine, LineFail>
    ensures line { IfOk result (λ l. line_of nodes line.now ≡ Some l) }
    ensures bad { result ≡ Err LineFail.BadLine → line_of nodes line.now ≡ None }

    // A line is read exactly from its spelling. So each line has one spelling, and no bytes are read as two lines.
    ensures spelled { (l : ScriptLine) → (line_of nodes line.now ≡ Some l) ↔ (IsTrue (is_line nodes l) × (line.now ≡ spelled l)) }
{
    match line_in(alloc, nodes, line) {
        Ok(Some(line)) => Ok(line),
        Ok(None) => Err(LineFail::BadLine),
        Err(NoMemory) => Err(LineFail::NoMemory),
    }
}
