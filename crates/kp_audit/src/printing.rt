//! The text of an audit. Without memory `print_home` appends nothing; the functions below it may leave a beginning of
//! their text.

ghost use Rattle.std.specs.Prelude.{◌≡◌, ◌++◌, IfOk, IfSome, OnOk, OnErr, codes};
ghost use Rattle.kp_model.specs.Store.{last as last_of};
ghost use Rattle.kp_homes.specs.Opening.{IsWithin, base_of};
ghost use Rattle.kp_homes.specs.Stands.{slot_number};
ghost use Rattle.kp_audit.specs.Texts.{slot_text, vote_text, base_text, numbers_text, live_text as live_bytes, store_of, store_counts, told_text};

use crate::replaying::replayed;
use kp_homes::LiveSlot;
use kp_model::NoMemory;
use kp_plain::Counts;
use kp_snapshot::Image;
use std::alloc::Global;

// Appends bytes.
fn append(bytes: &[u8], out: &mut Vec<u8>) -> Result<(), NoMemory>
    ensures ok { OnOk result (out.new.items ≡ out.old.items ++ bytes.now) }
    ensures err { OnErr result (out.new.items ≡ out.old.items) }
{
    out.extend_from_slice(bytes)?;
    Ok(())
}

fn print_slot(slot: u64, generation: u64, boot: u64, out: &mut Vec<u8>) -> Result<(), NoMemory>
    ensures { OnOk result (out.new.items ≡ out.old.items ++ slot_text slot generation boot) }
{
    let text = format!(in *out.allocator(); "slot {slot} gen {generation} boot {boot}")?;
    append(text.as_bytes(), out)
}

fn print_vote(term: u64, vote: u8, out: &mut Vec<u8>) -> Result<(), NoMemory>
    ensures { OnOk result (out.new.items ≡ out.old.items ++ vote_text term vote) }
{
    let text = format!(in *out.allocator(); " term {term} vote {vote}")?;
    append(text.as_bytes(), out)
}

fn print_base(index: u64, term: u64, last: u64, out: &mut Vec<u8>) -> Result<(), NoMemory>
    ensures { OnOk result (out.new.items ≡ out.old.items ++ base_text index term last) }
{
    let text = format!(in *out.allocator(); " base {index}.{term} last {last}\n")?;
    append(text.as_bytes(), out)
}

fn print_numbers(word: &str, nodes: u64, sessions: u64, out: &mut Vec<u8>) -> Result<(), NoMemory>
    ensures { OnOk result (out.new.items ≡ out.old.items ++ numbers_text word.now nodes sessions) }
{
    let text = format!(in *out.allocator(); "{word} nodes={nodes} sessions={sessions}\n")?;
    append(text.as_bytes(), out)
}

// The number of a slot's journal.
fn slot_number(second: bool) -> u64
    ensures { result ≡ slot_number second }
{
    if second { 1 } else { 0 }
}

// The index and the term of the image's base.
fn base_of(image: &Option<Image>) -> (u64, u64)
    ensures index { result.0 ≡ (base_of image.now).base }
    ensures term { result.1 ≡ (base_of image.now).base_term }
{
    match image {
        None => (0, 0),
        Some(image) => (image.index(), image.term()),
    }
}

// The line of a slot whose last entry has this index.
fn print_line(slot: &LiveSlot, last: u64, out: &mut Vec<u8>) -> Result<(), NoMemory>
    ensures { OnOk result (out.new.items ≡ out.old.items ++ (slot_text (slot_number slot.now.second) slot.now.generation slot.now.kept.boot ++ (vote_text slot.now.kept.term slot.now.kept.vote ++ base_text (base_of slot.now.kept.image).base (base_of slot.now.kept.image).base_term last))) }
{
    let (index, term) = base_of(&slot.kept.image);
    print_slot(
        slot_number(slot.second),
        slot.generation,
        slot.kept.boot,
        out,
    )?;
    print_vote(slot.kept.term, slot.kept.vote, out)?;
    print_base(index, term, last, out)
}

// The lines of the nodes and sessions.
fn print_counts(counts: Counts, out: &mut Vec<u8>) -> Result<(), NoMemory>
    ensures { OnOk result (out.new.items ≡ out.old.items ++ (numbers_text (codes "tree") counts.nodes counts.sessions ++ numbers_text (codes "replay") counts.all_nodes counts.all_sessions)) }
{
    print_numbers("tree", counts.nodes, counts.sessions, out)?;
    print_numbers("replay", counts.all_nodes, counts.all_sessions, out)
}

// The index of the last entry of a live slot, and how many nodes and sessions its image and its entries leave.
fn counted(alloc: Global, slot: &LiveSlot) -> Result<(u64, Counts), NoMemory>
    requires room { IsWithin slot.now.kept.image slot.now.kept.rest.items }
    ensures last { IfOk result (λ x. x.0 ≡ last_of (store_of slot.now.kept.image slot.now.kept.rest.items)) }
    ensures counts { IfOk result (λ x. x.1 ≡ store_counts (store_of slot.now.kept.image slot.now.kept.rest.items)) }
{
    let store = replayed(alloc, &slot.kept.image, slot.kept.rest.as_slice())?;
    let last = store.last();
    let counts = store.counts();
    drop(store);
    match counts {
        Ok(counts) => Ok((last, counts)),
        Err(none) => Err(none),
    }
}

// The three lines of a live slot.
fn print_lines(slot: &LiveSlot, out: &mut Vec<u8>) -> Result<(), NoMemory>
    requires room { IsWithin slot.now.kept.image slot.now.kept.rest.items }
    ensures { OnOk result (out.new.items ≡ out.old.items ++ live_bytes slot.now) }
{
    let (last, counts) = counted(*out.allocator(), slot)?;
    print_line(slot, last, out)?;
    print_counts(counts, out)
}

// The same by themselves.
fn live_text(alloc: Global, slot: &LiveSlot) -> Result<Vec<u8>, NoMemory>
    requires room { IsWithin slot.now.kept.image slot.now.kept.rest.items }
    ensures { IfOk result (λ v. v.items ≡ live_bytes slot.now) }
{
    let mut text = Vec::new(alloc);
    match print_lines(slot, &mut text) {
        Ok(()) => Ok(text),
        Err(none) => {
            drop(text);
            Err(none)
        }
    }
}

/// Appends the text of a home whose live slot this is, or of a blank one.
pub(crate) fn print_home(live: &Option<LiveSlot>, out: &mut Vec<u8>) -> Result<(), NoMemory>
    requires room { IfSome live.now (λ s. IsWithin s.kept.image s.kept.rest.items) }
    ensures ok { OnOk result (out.new.items ≡ out.old.items ++ told_text live.now) }
    ensures err { OnErr result (out.new.items ≡ out.old.items) }
{
    match live {
        None => append(b"blank\n", out),
        Some(slot) => {
            let text = live_text(*out.allocator(), slot)?;
            append(text.as_slice(), out)
        }
    }
}
