//! Runs by their lines, what they print, and how they end.
ghost use Rattle.std.specs.Prelude.{◌<◌};

use crate::runs::{DONE, End, end_of, prints};
use kp_io::{FaultySink, FaultySource, MemorySink, MemorySource};
use std::alloc::{AllocError, Global};
use std::test::Fail;

/// Lines, what they must print, and how they must end.
#[derive(Clone, Copy)]
struct Row {
    lines: &'static str,
    output: &'static str,
    end: End,
}

const ROWS: [Row; 11] = [
    Row {
        lines: "open 30000 00000000000000000000000000000000\ncreate 1 /a 0 6869\npeek /a\nsee /a\ncommit\ncommit\nsee /a\n",
        output: "pre 1 ok session=1\npre 2 ok path=/a\npeek 6869 cz=2 mz=2 pz=2 ct=0 mt=0 v=0 cv=0 av=0 own=0 len=2 kids=0\nsee none\ndone 1 ok session=1\ndone 2 ok path=/a\nsee 6869 cz=2 mz=2 pz=2 ct=0 mt=0 v=0 cv=0 av=0 own=0 len=2 kids=0\n",
        end: DONE,
    },
    Row {
        lines: "",
        output: "",
        end: DONE,
    },
    Row {
        lines: "noop\nfoo\n",
        output: "pre 1 ok\n",
        end: (3, 2),
    },
    Row {
        lines: "open 30000 00000000000000000000000000000000\ncreate 1 /a 0 -\ncreate 1 /a 0 -\ncommit\ncommit\ncommit",
        output: "pre 1 ok session=1\npre 2 ok path=/a\npre 3 err=-110\ndone 1 ok session=1\ndone 2 ok path=/a\ndone 3 err=-110\n",
        end: DONE,
    },
    Row {
        lines: "open 30000 00000000000000000000000000000000\ncommit\ncommit\ntruncate 0\ntruncate 2\ntruncate 1\n",
        output: "pre 1 ok session=1\ndone 1 ok session=1\ndone none\ncut refused\ncut refused\ncut 1\n",
        end: DONE,
    },
    Row {
        lines: "open 30000 00000000000000000000000000000000\ncreate 1 /a 0 -\nset 1 /a 01 -1\nset 1 /a 02 -1\nset 1 /a 03 -1\ntruncate 4\npeek /a\n",
        output: "pre 1 ok session=1\npre 2 ok path=/a\npre 3 ok cz=2 mz=3 pz=2 ct=0 mt=0 v=1 cv=0 av=0 own=0 len=1 kids=0\npre 4 ok cz=2 mz=4 pz=2 ct=0 mt=0 v=2 cv=0 av=0 own=0 len=1 kids=0\npre 5 ok cz=2 mz=5 pz=2 ct=0 mt=0 v=3 cv=0 av=0 own=0 len=1 kids=0\ncut 4\npeek 02 cz=2 mz=4 pz=2 ct=0 mt=0 v=2 cv=0 av=0 own=0 len=1 kids=0\n",
        end: DONE,
    },
    Row {
        lines: "open 30000 00000000000000000000000000000000\ncreate 1 /a 0 -\nset 1 /a 01 -1\nset 1 /a 02 -1\ncommit\ncommit\ncommit\nsee /a\npeek /a\n",
        output: "pre 1 ok session=1\npre 2 ok path=/a\npre 3 ok cz=2 mz=3 pz=2 ct=0 mt=0 v=1 cv=0 av=0 own=0 len=1 kids=0\npre 4 ok cz=2 mz=4 pz=2 ct=0 mt=0 v=2 cv=0 av=0 own=0 len=1 kids=0\ndone 1 ok session=1\ndone 2 ok path=/a\ndone 3 ok cz=2 mz=3 pz=2 ct=0 mt=0 v=1 cv=0 av=0 own=0 len=1 kids=0\nsee 01 cz=2 mz=3 pz=2 ct=0 mt=0 v=1 cv=0 av=0 own=0 len=1 kids=0\npeek 02 cz=2 mz=4 pz=2 ct=0 mt=0 v=2 cv=0 av=0 own=0 len=1 kids=0\n",
        end: DONE,
    },
    Row {
        lines: "open 30000 00000000000000000000000000000000\ncreate 1 /p 0 -\ncreate 1 /p/c 0 -\ndelete 1 /p/c -1\ndelete 1 /p -1\ntruncate 3\ndelete 1 /p -1\n",
        output: "pre 1 ok session=1\npre 2 ok path=/p\npre 3 ok path=/p/c\npre 4 ok\npre 5 ok\ncut 3\npre 4 err=-111\n",
        end: DONE,
    },
    Row {
        lines: "open 30000 00000000000000000000000000000000\ncreate 1 /a 0 -\ncreate 1 /a/y 0 -\ncreate 1 /a/x 0 -\nkids /\nkids /a\nls /a\nkids /a/x\nkids /b\nls /\n",
        output: "pre 1 ok session=1\npre 2 ok path=/a\npre 3 ok path=/a/y\npre 4 ok path=/a/x\nkids 1 a\nkids 2 x y\nls none\nkids 0\nkids none\nls 0\n",
        end: DONE,
    },
    Row {
        lines: "open 30000 00000000000000000000000000000000\ncreate 1 /a 0 -\ncreate 1 /a/x 0 -\ncheck 1 /a 0\ncheck 1 /a 1\ncheck 1 /none -1\nset 1 /a - 5\ndelete 1 /a 0\ndelete 1 /a/x 2147483647\ndelete 1 /a/x 0\ndelete 2 /a 0\ntime 7\nset 1 /a 6869 0\ncheck 1 /a 1\nkids /a\n",
        output: "pre 1 ok session=1\npre 2 ok path=/a\npre 3 ok path=/a/x\npre 4 ok\npre 5 err=-103\npre 6 err=-101\npre 7 err=-103\npre 8 err=-111\npre 9 err=-103\npre 10 ok\npre 11 err=-112\ntime 7\npre 12 ok cz=2 mz=12 pz=10 ct=0 mt=7 v=1 cv=2 av=0 own=0 len=2 kids=0\npre 13 ok\nkids 0\n",
        end: DONE,
    },
    Row {
        lines: "open 30000 00000000000000000000000000000000\ncreate 1 /a 0 -\ncreate 1 /a/x 0 -\ncommit\ncommit\ncommit\ndelete 1 /a/x -1\nkids /a\nls /a\nls /\nls /b\n",
        output: "pre 1 ok session=1\npre 2 ok path=/a\npre 3 ok path=/a/x\ndone 1 ok session=1\ndone 2 ok path=/a\ndone 3 ok path=/a/x\npre 4 ok\nkids 0\nls 1 x\nls 1 a\nls none\n",
        end: DONE,
    },
];

/// Runs with sessions, access lists, ephemeral and numbered nodes, and multis.
const SESSION_ROWS: [Row; 6] = [
    Row {
        lines: "open 30000 00000000000000000000000000000000\ncreate 1 /a 2 -\ncreate 1 /a0000000000/b 0 -\npeek /\ntruncate 1\npeek /\nwho 1\ncreate 1 /a 2 -\n",
        output: "pre 1 ok session=1\npre 2 ok path=/a0000000000\npre 3 ok path=/a0000000000/b\npeek - cz=0 mz=0 pz=2 ct=0 mt=0 v=0 cv=1 av=0 own=0 len=0 kids=1\ncut 1\npeek - cz=0 mz=0 pz=0 ct=0 mt=0 v=0 cv=0 av=0 own=0 len=0 kids=0\nwho timeout=30000 epoch=1 seq=0 ids=0\npre 2 ok path=/a0000000000\n",
        end: DONE,
    },
    Row {
        lines: "open 30000 00000000000000000000000000000000\nmulti 1 create /m 0 - ; set /m 01 -1 ; check /none -1\npeek /m\nmulti 1\nwho 1\n",
        output: "pre 1 ok session=1\npre 2 fail 3: err=0 | err=0 | err=-101\npeek none\npre 3 multi 0:\nwho timeout=30000 epoch=1 seq=2 ids=0\n",
        end: DONE,
    },
    Row {
        lines: "open 30000 00000000000000000000000000000000\ncreate 1 /e 1 -\ncommit\ncommit\ncreate 1 /f 1 -\nclose 1\npeek /e\npeek /\ntruncate 3\npeek /\n",
        output: "pre 1 ok session=1\npre 2 ok path=/e\ndone 1 ok session=1\ndone 2 ok path=/e\npre 3 ok path=/f\npre 4 ok\npeek none\npeek - cz=0 mz=0 pz=4 ct=0 mt=0 v=0 cv=4 av=0 own=0 len=0 kids=0\ncut 3\npeek - cz=0 mz=0 pz=3 ct=0 mt=0 v=0 cv=2 av=0 own=0 len=0 kids=2\n",
        end: DONE,
    },
    Row {
        lines: "open 30000 00000000000000000000000000000000\nraw 1 1 2 sync /\nraw 1 1 1 sync /\nraw 1 1 1 sync /\nclose 2\ncreate 1 /e 1 -\ncreate 1 /e/x 0 -\ncreate 1 bad 0 -\ncreate 1 /z 0 - noacl\n",
        output: "pre 1 ok session=1\npre 2 stale\npre 3 ok path=/\npre 4 stale\npre 5 err=-112\npre 6 ok path=/e\npre 7 err=-108\npre 8 err=-8\npre 9 err=-114\n",
        end: DONE,
    },
    Row {
        lines: "open 30000 00000000000000000000000000000000\nauth 1 digest 73757065723a61646d696e\ncreate 1 /d 0 - 31:auth:\nacl /d\nopen 30000 00000000000000000000000000000000\nset 2 /d 01 -1\nauth 1 ip 00\n",
        output: "pre 1 ok session=1\npre 2 ok\npre 3 ok path=/d\nacl 1 31:digest:super:xQJmxLMiHGwaqBvst5y6rkB6HQs=\npre 4 ok session=2\npre 5 err=-102\npre 6 err=-115\n",
        end: DONE,
    },
    Row {
        lines: "open 30000 00000000000000000000000000000000\nattach 1 00000000000000000000000000000000\nraw 1 1 1 sync /\nattach 1 00000000000000000000000000000001\nsync 1 /\nexpire 1\nexpire 1\ntruncate 5\nwho 1\n",
        output: "pre 1 ok session=1\npre 2 ok epoch=2\npre 3 stale\npre 4 err=-112\npre 5 ok path=/\npre 6 ok\npre 7 stale\ncut 5\nwho timeout=30000 epoch=2 seq=1 ids=0\n",
        end: DONE,
    },
];

/// Whether the lines of a row print what they must, in such pieces.
fn is_printed(alloc: Global, row: &Row, piece: usize) -> Result<bool, AllocError>
    requires { 0 < piece }
{
    let text = Vec::from_slice(alloc, row.lines.as_bytes())?;
    prints(alloc, "store", text, piece, row.output.as_bytes(), row.end)
}

/// How many of the rows print what they must, in such pieces.
fn printed(alloc: Global, rows: &[Row], piece: usize) -> Result<usize, AllocError>
    requires { 0 < piece }
{
    let mut right: usize = 0;
    for row in rows {
        if is_printed(alloc, row, piece)? {
            right = right.saturating_add(1);
        }
    }
    Ok(right)
}

#[test]
fn lines_print_their_transcript(rt: HostRuntime) -> Result<(), Fail> {
    for piece in [1, 7, 4096] {
        assert!(rt; printed(rt.alloc(), &ROWS, piece)? == ROWS.len());
    }
    Ok(())
}

#[test]
fn sessions_print_their_transcript(rt: HostRuntime) -> Result<(), Fail> {
    assert!(rt; printed(rt.alloc(), &SESSION_ROWS, 4096)? == SESSION_ROWS.len());
    Ok(())
}

/// Texts that are no line: a version outside its spelling, words that are missing or too many, a number too large.
const BAD_LINES: [&str; 32] = [
    "delete 1 /a",
    "delete 1 /a -2",
    "delete 1 /a +1",
    "delete 1 /a 01",
    "delete 1 /a -01",
    "delete 1 /a 2147483648",
    "delete 1 /a 4294967295",
    "delete 1 /a -",
    "delete 1 /a ",
    "delete 1 /a -1 ",
    "delete  1 /a -1",
    "delete 1  -1",
    "delete 1 /a -1 -1",
    "delete -1 /a -1",
    "delete 4611686018427387905 /a -1",
    "set 1 /a -1",
    "set 1 /a 0 -1",
    "set 1 /a AB -1",
    "set 1 /a  -1",
    "set 1 /a - -2",
    "set 1 /a - 2147483648",
    "set 1 /a - -1 -",
    "check 1 /a",
    "check 1 /a --1",
    "check x /a 1",
    "check 1 /a - -1",
    "kids",
    "kids ",
    "kids  /a",
    "kids /a /b",
    "ls",
    "LS /",
];

/// Whether a text between two lines is a bad one.
fn is_bad(alloc: Global, line: &str) -> Result<bool, AllocError> {
    let text = format!(in alloc; "noop\n{line}\nnoop\n")?;
    prints(
        alloc,
        "store",
        text.into_bytes(),
        4096,
        b"pre 1 ok\n",
        (3, 2),
    )
}

#[test]
fn texts_outside_the_grammar_are_bad_lines(rt: HostRuntime) -> Result<(), Fail> {
    for line in &BAD_LINES {
        assert!(rt; is_bad(rt.alloc(), line)?);
    }
    Ok(())
}

/// Whether these words are no command.
fn is_refused(alloc: Global, words: &str) -> Result<bool, AllocError> {
    let text = Vec::from_slice(alloc, b"noop\n")?;
    prints(alloc, words, text, 4096, b"", (2, 0))
}

#[test]
fn other_words_are_no_command(rt: HostRuntime) -> Result<(), Fail> {
    for words in ["script 2", "store 1", "stor", "STORE"] {
        assert!(rt; is_refused(rt.alloc(), words)?);
    }
    Ok(())
}

/// Whether a run ends with the output's fault at its second write.
fn ends_at_a_write(alloc: Global) -> Result<bool, AllocError> {
    let mut input = MemorySource::new(Vec::from_slice(alloc, b"noop\nnoop\n")?, 4096);
    let mut output = FaultySink::new(alloc, 4096, vec![in alloc; 2]?);
    let end = end_of(alloc, "store", &mut input, &mut output)?;
    Ok(end == (5, 0) && output.bytes() == b"pre 1 ok\n".as_slice())
}

/// Whether a run ends with the input's fault at its third read.
fn ends_at_a_read(alloc: Global) -> Result<bool, AllocError> {
    let text = Vec::from_slice(alloc, b"noop\nnoop\n")?;
    let mut input = FaultySource::new(text, 3, vec![in alloc; 3]?);
    let mut output = MemorySink::new(alloc, 4096);
    let end = end_of(alloc, "store", &mut input, &mut output)?;
    Ok(end == (4, 0) && output.bytes().is_empty())
}

#[test]
fn faults_end_a_run(rt: HostRuntime) -> Result<(), Fail> {
    assert!(rt; ends_at_a_write(rt.alloc())?);
    assert!(rt; ends_at_a_read(rt.alloc())?);
    Ok(())
}

fn spaces(alloc: Global, count: usize) -> Result<Vec<u8>, AllocError> {
    vec![in alloc; b' '; count]
}

#[test]
fn one_byte_too_many_is_too_long(rt: HostRuntime) -> Result<(), Fail> {
    let alloc = rt.alloc();
    let text = spaces(alloc, 67108865)?;
    assert!(rt; prints(alloc, "store", text, usize::MAX, b"", (10, 0))?);
    Ok(())
}
