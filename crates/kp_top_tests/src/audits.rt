//! Audits of a home, and their words.
ghost use Rattle.std.specs.Prelude.{◌≤◌, length};

use crate::runs::{DONE, End, prints, words_of};
use kp_io::{Disk, MemoryDisk, MemorySink, MemorySource, Seven};
use kp_top::{Status, run_command};
use std::alloc::{AllocError, Global};
use std::test::Fail;

/// The journal of a home of node 1 with one entry, which changes nothing.
const ONE_ENTRY: &[u8] =
    b"\x01KPJ1\0\0\0\0\0\0\0\x01\x01\0\0\0\0\0\0\0\0\x01\0\0\0\x25\x01\0\0\0\0\0\0\0\x01\x01\x02\0\0\0\0\0\0\0\x01\x03\0\0\0\0\0\0\0\x01\0\0\0\0\0\0\0\0\0\0";

/// The journal of a home of node 1 whose only record has no known tag.
const UNKNOWN_TAG: &[u8] = b"\x01KPJ1\0\0\0\0\0\0\0\x01\x01\0\0\0\0\0\0\0\0\x01\0\0\0\x01\x63\0";

/// What the home with one entry prints.
const ONE_ENTRY_TEXT: &[u8] =
    b"slot 0 gen 1 boot 1 term 1 vote 1 base 0.0 last 1\ntree nodes=1 sessions=0\nreplay nodes=1 sessions=0\n";

/// Homes in memory, of which the first journal of node 1 holds these bytes.
fn homes_of(alloc: Global, journal: &[u8]) -> Seven<MemoryDisk>
    requires { length journal.now ≤ 1000 }
{
    let mut homes = Seven::blank(alloc);
    let _ = homes.one.j0.write_at(0, journal, &mut homes.one.moments);
    homes
}

/// How an audit of node 1 ends, and what it prints.
fn audited(
    alloc: Global,
    homes: &mut Seven<MemoryDisk>,
    output: &mut MemorySink,
) -> Result<Status, AllocError> {
    let words = words_of(alloc, "audit 1")?;
    let mut input = MemorySource::new(Vec::new(alloc), 1);
    Ok(run_command(alloc, words.as_slice(), &mut input, output, homes))
}

/// The place that a status names, where a home is damaged.
fn place_of(status: &Status) -> Option<(u64, u64)> {
    match status {
        Status::Damaged { slot, at } => Some((*slot, *at)),
        _ => None,
    }
}

#[test]
fn an_entry_is_counted(rt: HostRuntime) -> Result<(), Fail> {
    let mut homes = homes_of(rt.alloc(), ONE_ENTRY);
    let mut output = MemorySink::new(rt.alloc(), 16);
    let ended = audited(rt.alloc(), &mut homes, &mut output);
    drop(homes);
    assert!(rt; ended?.code() == 0 && output.bytes() == ONE_ENTRY_TEXT);
    Ok(())
}

#[test]
fn a_breach_is_named(rt: HostRuntime) -> Result<(), Fail> {
    let mut homes = homes_of(rt.alloc(), UNKNOWN_TAG);
    let mut output = MemorySink::new(rt.alloc(), 16);
    let ended = audited(rt.alloc(), &mut homes, &mut output);
    drop(homes);
    assert!(rt; place_of(&ended?) == Some((0, 27)) && output.bytes().is_empty());
    Ok(())
}

/// Words, what they print on blank homes, and how they end.
const ROWS: [(&str, &str, End); 8] = [
    ("audit 1", "blank\n", DONE),
    ("audit 7", "blank\n", DONE),
    ("audit", "", (2, 0)),
    ("audit 0", "", (2, 0)),
    ("audit 8", "", (2, 0)),
    ("audit 01", "", (2, 0)),
    ("audit 1 1", "", (2, 0)),
    ("audit x", "", (2, 0)),
];

#[test]
fn blank_homes_are_told(rt: HostRuntime) -> Result<(), Fail> {
    for (words, printed, end) in &ROWS {
        assert!(rt;
            prints(
                rt.alloc(),
                words,
                Vec::new(rt.alloc()),
                3,
                printed.as_bytes(),
                *end
            )?
        );
    }
    Ok(())
}
