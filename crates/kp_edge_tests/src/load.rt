//! The lines of a load, whose numbers were worked out by another program.
use kp_load::LoadLines;
use kp_model::NoMemory;
use kp_text::{Command, Operation, StoreLine};
use std::alloc::Global;

/// What a line is to be.
#[derive(Clone, Copy)]
enum Row {
    Open,
    Create(&'static str, &'static [u8], u32),
    Set(&'static str, &'static [u8]),
    Delete(&'static str),
    Commit,
    Truncate(u64),
}

// A load of nine drawn lines from 7, of a store that has applied 3 of 5 entries.
const LINES: [Row; 12] = [
    Row::Open,
    Row::Commit,
    Row::Truncate(3),
    Row::Create("/n19", b"\xe8\x15\x5a\x62\xcd\x76\x9f\xcc", 0),
    Row::Create("/n57", b"\x45\xd2\xb7\x22\x80\x43\xcc\x2b", 0),
    Row::Delete("/n14"),
    Row::Create("/n16", b"\x23\x6f\x92\x07\x4a\x6d\x4f\x55", 0),
    Row::Set("/n62", b"\x67\x23\x7f\xd0\xaf\x72\x9e\x40"),
    Row::Create("/n1", b"\x52\x72\x70\x28\xc6\x4f\x12\x8f", 0),
    Row::Create("/n13/s", b"\xfb\x37\xe1\xb6\x4e\xbd\xb5\x72", 2),
    // nothing more is drawn, and two entries are unapplied
    Row::Commit,
    Row::Commit,
];

fn is_operation(operation: &Operation, row: Row) -> bool {
    match (operation, row) {
        (
            Operation::Create {
                path,
                flags,
                bytes,
                acl,
            },
            Row::Create(at, data, kind),
        ) => { path.as_str() == at && bytes.as_slice() == data && *flags == kind && acl.is_none() }
        (
            Operation::Set {
                path,
                bytes,
                version,
            },
            Row::Set(at, data),
        ) => path.as_str() == at && bytes.as_slice() == data && *version == u32::MAX,
        (Operation::Delete { path, version }, Row::Delete(at)) => {
            path.as_str() == at && *version == u32::MAX
        }
        _ => false,
    }
}

fn is_line(line: &StoreLine, row: Row) -> bool {
    match (line, row) {
        (StoreLine::Open { timeout, passwd }, Row::Open) => {
            *timeout == 30_000 && *passwd == [0; 16]
        }
        (
            StoreLine::Write {
                session,
                command: Command::Operation(operation),
            },
            row,
        ) => *session == 1 && is_operation(operation, row),
        (StoreLine::Commit, Row::Commit) => true,
        (StoreLine::Truncate { last }, Row::Truncate(index)) => *last == index,
        _ => false,
    }
}

fn is_next(lines: &mut LoadLines, row: Row) -> Result<bool, NoMemory> {
    let next = lines.next(3, 5)?;
    let same = match &next {
        None => false,
        Some(line) => is_line(line, row),
    };
    drop(next);
    Ok(same)
}

fn are_drawn(alloc: Global) -> Result<bool, NoMemory> {
    let mut lines = LoadLines::new(alloc, 7, 9);
    let mut same = true;
    for row in LINES {
        same = same && is_next(&mut lines, row)?;
    }
    Ok(same)
}

#[test]
fn lines_are_drawn_from_a_number(rt: HostRuntime) -> Result<(), NoMemory> {
    assert!(rt; are_drawn(rt.alloc())?);
    let mut none = LoadLines::new(rt.alloc(), 7, 0);
    assert!(rt; is_next(&mut none, Row::Open)?);
    assert!(rt; matches!(none.next(1, 1), Ok(None)));
    Ok(())
}
