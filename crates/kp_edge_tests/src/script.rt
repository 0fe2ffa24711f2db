//! Lines of the script language, texts that are none, and messages as they are printed.
use kp_model::NoMemory;
use kp_script::{MessageLine, print_message, read_script_line};
use kp_text::LineFail;
use std::alloc::Global;

/// A line of each kind, among three nodes.
const LINES: [&str; 23] = [
    "time 1000",
    "accept 1 000102030405060708090a0b0c0d0e0f",
    "in 3 0 -",
    "in 1 1 0000000d",
    "hangup 2 7",
    "drain 1 4611686018427387904",
    "timeout 1",
    "deliver 0",
    "beat 3",
    "commit 1",
    "expire 2",
    "snap 2",
    "crash 3",
    "start 1",
    "hold 1",
    "flush 1",
    "torn 0 commit 1",
    "torn 2 in 1 1 ff",
    "peek 1 /a",
    "see 2 /",
    "ls 3 anything",
    "acl 1 /a",
    "who 3 0",
];

/// Texts that are none: words too many or too few, other nodes, numbers that are too large or spelled otherwise, and
/// lines that can't be torn.
const OTHERS: [&str; 20] = [
    "",
    "time",
    "time 01",
    "time 4611686018427387905",
    "accept 1 00",
    "accept 0 000102030405060708090a0b0c0d0e0f",
    "in 4 1 -",
    "in 1 1 FF",
    "in 1 1",
    "timeout 4",
    "timeout 1 1",
    "deliver -1",
    " commit 1",
    "commit 1 ",
    "torn 1 crash 1",
    "torn 1 time 1",
    "torn 1 torn 1 commit 1",
    "torn 1 see 1 /a",
    "peek /a",
    "who 1",
];

fn is_line(alloc: Global, text: &str) -> bool {
    read_script_line(alloc, text.as_bytes(), 3).is_ok()
}

fn is_bad(alloc: Global, text: &str) -> bool {
    matches!(
        read_script_line(alloc, text.as_bytes(), 3),
        Err(LineFail::BadLine)
    )
}

#[test]
fn lines_are_read_and_other_texts_are_not(rt: HostRuntime) {
    for text in &LINES {
        assert!(rt; is_line(rt.alloc(), text));
    }
    for text in &OTHERS {
        assert!(rt; is_bad(rt.alloc(), text));
    }
}

/// Messages, and what is printed of them behind their number, sender and receiver.
const MESSAGES: [(MessageLine, &str); 7] = [
    (
        MessageLine::VoteReq {
            term: 2,
            last: 2,
            last_term: 1,
        },
        "msg 10 2>1 votereq t=2 last=2.1",
    ),
    (
        MessageLine::VoteRep { term: 1, yes: true },
        "msg 10 2>1 voterep t=1 yes",
    ),
    (
        MessageLine::Append {
            term: 1,
            prev: 0,
            prev_term: 0,
            count: 2,
            commit: 1,
        },
        "msg 10 2>1 append t=1 prev=0.0 n=2 commit=1",
    ),
    (
        MessageLine::AppendRep {
            term: 2,
            ok: false,
            last: 3,
        },
        "msg 10 2>1 appendrep t=2 no last=3",
    ),
    (
        MessageLine::Install {
            term: 2,
            index: 4,
            index_term: 1,
        },
        "msg 10 2>1 install t=2 at=4.1",
    ),
    (
        MessageLine::ForwardOpen { term: 1 },
        "msg 10 2>1 forward t=1 open",
    ),
    (
        MessageLine::ForwardWrite {
            term: 1,
            session: 3,
            epoch: 1,
            seq: 9,
        },
        "msg 10 2>1 forward t=1 write s=3 e=1 q=9",
    ),
];

fn is_printed(alloc: Global, message: &MessageLine, text: &str) -> Result<bool, NoMemory> {
    let mut out = Vec::new(alloc);
    print_message(10, 2, 1, message, &mut out)?;
    Ok(out.as_slice() == text.as_bytes())
}

#[test]
fn messages_have_their_texts(rt: HostRuntime) -> Result<(), NoMemory> {
    for (message, text) in &MESSAGES {
        assert!(rt; is_printed(rt.alloc(), message, text)?);
    }
    Ok(())
}
