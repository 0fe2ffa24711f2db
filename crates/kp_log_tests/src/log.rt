//! The log of a member, walked by one list of calls.

ghost use Rattle.std.specs.Prelude.{◌≤◌, ◌^◌, IsTrue};
ghost use Rattle.kp_entry.specs.Log.{last_index};

use kp_entry::Entries;
use kp_model::{Body, Entry, NoMemory};
use kp_raftlog::RaftLog;
use std::alloc::Global;

// A call, and what the log tells behind it: its base, its last index, and the term at the last index.
enum Call {
    Append {
        term: u64,
    },
    // the part of the entries of terms 4, 5, 6 and 7 behind the entry of index `keep`
    Replace {
        keep: u64,
        first: usize,
        until: usize,
    },
    Truncate {
        last: u64,
    },
    Compact {
        index: u64,
    },
    Rebase {
        index: u64,
        term: u64,
    },
}

struct Row {
    call: Call,
    base: (u64, u64),
    last: u64,
    term: u64,
}

const ROWS: &[Row] = &[
    Row {
        call: Call::Append { term: 1 },
        base: (0, 0),
        last: 1,
        term: 1,
    },
    Row {
        call: Call::Append { term: 2 },
        base: (0, 0),
        last: 2,
        term: 2,
    },
    Row {
        call: Call::Append { term: 3 },
        base: (0, 0),
        last: 3,
        term: 3,
    },
    Row {
        call: Call::Replace {
            keep: 2,
            first: 1,
            until: 4,
        },
        base: (0, 0),
        last: 5,
        term: 7,
    },
    Row {
        call: Call::Truncate { last: 4 },
        base: (0, 0),
        last: 4,
        term: 6,
    },
    Row {
        call: Call::Compact { index: 3 },
        base: (3, 5),
        last: 4,
        term: 6,
    },
    Row {
        call: Call::Replace {
            keep: 4,
            first: 2,
            until: 2,
        },
        base: (3, 5),
        last: 4,
        term: 6,
    },
    Row {
        call: Call::Replace {
            keep: 3,
            first: 0,
            until: 1,
        },
        base: (3, 5),
        last: 4,
        term: 4,
    },
    Row {
        call: Call::Rebase { index: 9, term: 8 },
        base: (9, 8),
        last: 9,
        term: 8,
    },
    Row {
        call: Call::Append { term: 9 },
        base: (9, 8),
        last: 10,
        term: 9,
    },
];

fn noop(term: u64) -> Result<Entry, NoMemory> {
    if term > 9 {
        return Err(NoMemory);
    }
    Entry::new(term, 0, Body::Noop)
}

fn append(log: &mut RaftLog, term: u64) -> Result<(), NoMemory> {
    let entry = noop(term)?;
    let added = if log.last() < 100 {
        log.append(&entry)
    } else {
        Err(NoMemory)
    };
    drop(entry);
    added
}

// Whether the call's conditions hold.
fn lies_within(log: &RaftLog, index: u64) -> bool
    ensures { IsTrue result → (log.now.base ≤ index) × (index ≤ last_index log.now) × (index ≤ 100) }
{
    let (base, _) = log.base();
    base <= index && index <= log.last() && index <= 100
}

fn make(log: &mut RaftLog, entries: &Entries, call: &Call) -> Result<(), NoMemory> {
    match call {
        Call::Append { term } => append(log, *term),
        Call::Replace { keep, first, until } => {
            let known = *first <= *until && *until <= entries.len() && *until <= 4;
            if known && lies_within(log, *keep) {
                return log.replace(*keep, entries, *first, *until);
            }
            Err(NoMemory)
        }
        Call::Truncate { last } => {
            if lies_within(log, *last) {
                log.truncate(*last);
            }
            Ok(())
        }
        Call::Compact { index } => {
            if lies_within(log, *index) {
                log.compact(*index);
            }
            Ok(())
        }
        Call::Rebase { index, term } => {
            if *index <= 9 && *term <= 9 {
                log.rebase(*index, *term);
            }
            Ok(())
        }
    }
}

// Whether the log tells what the row says.
fn tells(log: &RaftLog, row: &Row) -> bool {
    let ends = log.base() == row.base && log.last() == row.last;
    let terms = log.term_at(row.last) == Some(row.term)
        && log.term_at(row.base.0) == Some(row.base.1);
    let none = log.bytes_at(row.base.0).is_none()
        && log.bytes_at(row.last.wrapping_add(1)).is_none();
    ends && terms && none
}

fn walk(log: &mut RaftLog, entries: &mut Entries) -> Result<bool, NoMemory> {
    for term in 4..8 {
        let entry = noop(term)?;
        let added = entries.push(&entry);
        drop(entry);
        added?;
    }
    for row in ROWS {
        make(log, entries, &row.call)?;
        if !tells(log, row) {
            return Ok(false);
        }
    }
    Ok(true)
}

#[test]
fn a_log_is_what_its_calls_made_of_it(rt: HostRuntime) -> Result<(), NoMemory> {
    let mut log = RaftLog::new(rt.alloc());
    let mut entries = Entries::new(rt.alloc());
    let walked = walk(&mut log, &mut entries);
    drop(log);
    drop(entries);
    let walked = walked?;
    assert!(rt; walked);
    Ok(())
}

fn fill(log: &mut RaftLog) -> Result<(), NoMemory> {
    for _ in 0..70 {
        append(log, 1)?;
    }
    Ok(())
}

// How many entries a message takes behind the index.
fn batch_len(log: &RaftLog, after: u64) -> Result<usize, NoMemory> {
    let (base, _) = log.base();
    if after < base {
        return Err(NoMemory);
    }
    let entries = log.batch(after)?;
    let len = entries.len();
    drop(entries);
    Ok(len)
}

#[test]
fn a_message_takes_64_entries(rt: HostRuntime) -> Result<(), NoMemory> {
    let mut log = RaftLog::new(rt.alloc());
    let filled = fill(&mut log);
    let first = batch_len(&log, 0);
    let last = batch_len(&log, 65);
    let none = batch_len(&log, 70);
    drop(log);
    filled?;
    let counts = (first?, last?, none?);
    assert!(rt; counts == (64, 5, 0));
    Ok(())
}
