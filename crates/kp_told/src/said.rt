ghost use Rattle.std.specs.Prelude.{◌≡◌, IfOk, [], if◌then◌else◌, codes};
ghost use Rattle.kp_node.specs.Parts.{node_of};
ghost use Rattle.kp_play.specs.Texts.{numbered as numbered_bytes, fed_text as fed_bytes, out_text as out_bytes, said_text as said_bytes};

use crate::state::state_text;
use kp_event::{FedWord, OutPiece, Said};
use kp_look::text_of;
use kp_model::NoMemory;
use kp_node::Node;
use kp_text::{print_data, print_text};
use std::alloc::Global;

fn numbered(alloc: Global, word: &str, number: u64) -> Result<Vec<u8>, NoMemory>
    ensures { IfOk result (λ v. v.items ≡ numbered_bytes word.now number) }
{
    let text = format!(in alloc; "{word} {number}")?;
    Ok(text.into_bytes())
}

fn fed_text(alloc: Global, word: FedWord) -> Result<Vec<u8>, NoMemory>
    ensures { IfOk result (λ v. v.items ≡ fed_bytes word) }
{
    match word {
        FedWord::Taken => text_of(alloc, "in ok"),
        FedWord::Bad { at } => numbered(alloc, "in bad", at),
        FedWord::Unknown => text_of(alloc, "in none"),
    }
}

fn end_text(over: bool) -> &'static str
    ensures { result.now ≡ (if over then codes " end" else []) }
{
    if over { " end" } else { "" }
}

fn out_text(alloc: Global, piece: &OutPiece) -> Result<Vec<u8>, NoMemory>
    ensures { IfOk result (λ v. v.items ≡ out_bytes piece.now) }
{
    let mut out = text_of(alloc, "out ")?;
    print_data(piece.bytes.as_slice(), &mut out)?;
    print_text(end_text(piece.over), &mut out)?;
    Ok(out)
}

/// The first line of an event, by what the node says of it: to a timeout and to a message where the node stands now.
#[tactic(auto, unfolding(kp_play::specs::Texts::said_text))]
pub fn said_text(alloc: Global, node: &Node, said: &Said) -> Result<Vec<u8>, NoMemory>
    ensures { IfOk result (λ v. v.items ≡ said_bytes (node_of node.now) said.now) }
{
    match said {
        Said::Conn(conn) => numbered(alloc, "conn", *conn),
        Said::Fed(word) => fed_text(alloc, *word),
        Said::Hung(true) => text_of(alloc, "hangup ok"),
        Said::Hung(false) => text_of(alloc, "hangup none"),
        Said::Out(None) => text_of(alloc, "out none"),
        Said::Out(Some(piece)) => out_text(alloc, piece),
        Said::Raft => state_text(alloc, node),
        Said::Beat(count) => numbered(alloc, "beat", *count as u64),
        Said::Done(None) => text_of(alloc, "done none"),
        Said::Done(Some(index)) => numbered(alloc, "done", *index),
        Said::Expired(count) => numbered(alloc, "expire", *count as u64),
        Said::Snapped(index) => numbered(alloc, "snap", *index),
    }
}
