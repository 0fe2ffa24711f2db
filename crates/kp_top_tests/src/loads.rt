//! Loads, and the one line that each prints.
use crate::runs::{DONE, End, prints};
use std::alloc::{AllocError, Global};
use std::test::Fail;

/// Words, what they must print, and how they must end.
#[derive(Clone, Copy)]
struct Row {
    words: &'static str,
    output: &'static str,
    end: End,
}

/// The words are no command.
const USAGE: End = (2, 0);

/// The first lines were worked out by hand, the others by another program.
const ROWS: [Row; 8] = [
    Row {
        words: "load 7 0",
        output: "load 7 0 pre=1 ok=1 err=0 done=1 cut=0 nodes=1\n",
        end: DONE,
    },
    Row {
        words: "load 7 1000",
        output: "load 7 1000 pre=748 ok=353 err=395 done=668 cut=80 nodes=98\n",
        end: DONE,
    },
    Row {
        words: "load 7",
        output: "",
        end: USAGE,
    },
    Row {
        words: "load 7 1000001",
        output: "",
        end: USAGE,
    },
    Row {
        words: "load 07 1",
        output: "",
        end: USAGE,
    },
    Row {
        words: "load 18446744073709551616 1",
        output: "",
        end: USAGE,
    },
    Row {
        words: "load 7 -1",
        output: "",
        end: USAGE,
    },
    Row {
        words: "load 7 1 1",
        output: "",
        end: USAGE,
    },
];

/// Whether a row prints what it must, whatever stands on its input.
fn holds(alloc: Global, row: &Row) -> Result<bool, AllocError> {
    let text = Vec::from_slice(alloc, b"noop\n")?;
    prints(alloc, row.words, text, 16, row.output.as_bytes(), row.end)
}

#[test]
fn loads_print_what_they_counted(rt: HostRuntime) -> Result<(), Fail> {
    for row in &ROWS {
        assert!(rt; holds(rt.alloc(), row)?);
    }
    Ok(())
}

#[test]
fn a_large_load_ends(rt: HostRuntime) -> Result<(), Fail> {
    let row = Row {
        words: "load 7 100000",
        output: "load 7 100000 pre=75051 ok=25318 err=49733 done=65920 cut=9131 nodes=5596\n",
        end: DONE,
    };
    assert!(rt; holds(rt.alloc(), &row)?);
    Ok(())
}
