//! A multi of 10,000 operations whose last one fails leaves nothing of the 9,999 before it.
use crate::runs::{DONE, prints};
use kp_model::NoMemory;
use kp_text::print_text;
use std::alloc::Global;
use std::test::Fail;

/// How many operations hold.
const HOLDING: u64 = 9999;

/// The lines up to the operations.
const BEFORE: &str = "open 30000 00000000000000000000000000000000\ncreate 1 /a 0 -\nmulti 1";

/// The failing operation, and the lines behind the multi.
const BEHIND: &str =
    " check /none -1\npeek /a/n0\npeek /a/n9998\npeek /a\nkids /a\nkids /\nwho 1\ncommit\ncommit\ncommit\nsee /a/n0\nsee /a/n9998\nsee /a\nls /a\nls /\n";

/// What is printed up to the code of the first operation, from that of the last one on to the answer of the third
/// commit, and behind this one's codes.
const PRINTED_BEFORE: &str = "pre 1 ok session=1\npre 2 ok path=/a\npre 3 fail 10000:";

const PRINTED_BETWEEN: &str =
    " err=-101\npeek none\npeek none\npeek - cz=2 mz=2 pz=2 ct=0 mt=0 v=0 cv=0 av=0 own=0 len=0 kids=0\nkids 0\nkids 1 a\nwho timeout=30000 epoch=1 seq=2 ids=0\ndone 1 ok session=1\ndone 2 ok path=/a\ndone 3 fail 10000:";

const PRINTED_BEHIND: &str =
    " err=-101\nsee none\nsee none\nsee - cz=2 mz=2 pz=2 ct=0 mt=0 v=0 cv=0 av=0 own=0 len=0 kids=0\nls 0\nls 1 a\n";

fn add_creation(n: u64, out: &mut Vec<u8>) -> Result<(), NoMemory> {
    let text = format!(in *out.allocator(); " create /a/n{n} 0 - ;")?;
    print_text(text.as_str(), out)
}

/// The lines.
fn lines(alloc: Global) -> Result<Vec<u8>, NoMemory> {
    let mut out = Vec::new(alloc);
    print_text(BEFORE, &mut out)?;
    for n in 0..HOLDING {
        add_creation(n, &mut out)?;
    }
    print_text(BEHIND, &mut out)?;
    Ok(out)
}

/// Appends the code of each operation that holds.
fn add_codes(out: &mut Vec<u8>) -> Result<(), NoMemory> {
    for _ in 0..HOLDING {
        print_text(" err=0 |", out)?;
    }
    Ok(())
}

/// What the lines must print.
fn printed(alloc: Global) -> Result<Vec<u8>, NoMemory> {
    let mut out = Vec::new(alloc);
    print_text(PRINTED_BEFORE, &mut out)?;
    add_codes(&mut out)?;
    print_text(PRINTED_BETWEEN, &mut out)?;
    add_codes(&mut out)?;
    print_text(PRINTED_BEHIND, &mut out)?;
    Ok(out)
}

/// Whether the lines print what they must.
fn is_printed(alloc: Global) -> Result<bool, NoMemory> {
    let expected = printed(alloc)?;
    Ok(prints(
        alloc,
        "store",
        lines(alloc)?,
        4096,
        expected.as_slice(),
        DONE,
    )?)
}

#[test]
fn nothing_is_left_of_a_long_multi_that_fails(rt: HostRuntime) -> Result<(), Fail> {
    assert!(rt; is_printed(rt.alloc())?);
    Ok(())
}
