//! Homes that are audited.

use crate::homes::{ONE_ENTRY, ROOT_IMAGE, UNKNOWN_TAG, failing_home, home_of};
use kp_audit::{AuditFail, audit};
use kp_disks::FaultyDisk;
use kp_io::Four;
use std::alloc::{AllocError, Global};
use std::test::Fail;

// A home of node 1 with generation 7, an image of 136 bytes, term 3, vote 2, boot 4, and one entry, which opens a session.
const BEHIND_AN_IMAGE: &[u8] =
    b"\x01KPJ1\0\0\0\0\0\0\0\x07\x01\0\0\0\0\0\0\0\x88\x01\0\0\0\x4a\x01\0\0\0\0\0\0\0\x03\x02\x02\0\0\0\0\0\0\0\x04\x03\0\0\0\0\0\0\0\x03\0\0\0\0\0\0\0\x2c\x01\0\0\x27\x10\0\0\0\0\0\0\0\0\0\0\0\0\0\0\0\0\x01\0\0\0\0\0\0\0\x01\0\0\0\0\0\0\0\x05\0";

// What an audit of a home of node 1 answers, and what it appends.
type Told = (Result<(), AuditFail>, Vec<u8>);

fn told(alloc: Global, disks: Four<FaultyDisk>) -> Told {
    let mut disks = disks;
    let mut out = Vec::new(alloc);
    let answer = audit(&mut disks, 1, &mut out);
    drop(disks);
    (answer, out)
}

// Whether the text of a home whose first journal and image hold these bytes is this one.
fn is_text(alloc: Global, journal: &[u8], image: &[u8], text: &str) -> Result<bool, AllocError> {
    let (answer, out) = told(alloc, home_of(alloc, journal, image, u64::MAX)?);
    Ok(answer.is_ok() && out.as_slice() == text.as_bytes())
}

// The n-th home, by its first journal and image, and its text.
fn text_row(n: u64) -> (&'static [u8], &'static [u8], &'static str) {
    match n {
        0 => (b"".as_slice(), b"".as_slice(), "blank\n"),
        1 => (
            ONE_ENTRY,
            b"".as_slice(),
            "slot 0 gen 1 boot 1 term 1 vote 1 base 0.0 last 1\ntree nodes=1 sessions=0\nreplay nodes=1 sessions=0\n",
        ),
        _ => (
            BEHIND_AN_IMAGE,
            ROOT_IMAGE,
            "slot 0 gen 7 boot 4 term 3 vote 2 base 2.1 last 3\ntree nodes=1 sessions=0\nreplay nodes=1 sessions=1\n",
        ),
    }
}

fn are_texts(alloc: Global) -> Result<bool, AllocError> {
    let mut right = true;
    for n in 0..3u64 {
        let (journal, image, text) = text_row(n);
        right = right && is_text(alloc, journal, image, text)?;
    }
    Ok(right)
}

#[test]
fn homes_have_their_texts(rt: HostRuntime) -> Result<(), Fail> {
    assert!(rt; are_texts(rt.alloc())?);
    Ok(())
}

// Whether a home whose first journal and image hold these bytes is refused at this place.
fn is_damaged(
    alloc: Global,
    journal: &[u8],
    image: &[u8],
    place: (u64, u64),
) -> Result<bool, AllocError> {
    let (answer, out) = told(alloc, home_of(alloc, journal, image, u64::MAX)?);
    let refused = match answer {
        Err(AuditFail::Damaged { slot, at }) => (slot, at) == place,
        Ok(()) | Err(AuditFail::DiskFault | AuditFail::NoMemory) => false,
    };
    Ok(refused && out.is_empty())
}

#[test]
fn a_breach_is_told(rt: HostRuntime) -> Result<(), Fail> {
    assert!(rt; is_damaged(rt.alloc(), UNKNOWN_TAG, &[], (0, 27))?);
    assert!(rt; is_damaged(rt.alloc(), BEHIND_AN_IMAGE, &[], (0, 14))?);
    let other = [0u8; 136];
    assert!(rt; is_damaged(rt.alloc(), BEHIND_AN_IMAGE, &other, (2, 0))?);
    Ok(())
}

// Whether a home of which this call of this disk fails answers so and appends nothing, or has its text.
fn is_failed_once(alloc: Global, which: u64, call: u64) -> Result<bool, AllocError> {
    let (answer, out) = told(alloc, failing_home(alloc, which, call)?);
    Ok(match answer {
        Ok(()) => out.len() == 100,
        Err(AuditFail::DiskFault) => out.is_empty(),
        Err(AuditFail::Damaged { .. } | AuditFail::NoMemory) => false,
    })
}

// Whether that holds for each of the first calls of each disk.
fn are_failed_once(alloc: Global) -> Result<bool, AllocError> {
    let mut right = true;
    for which in 0..4u64 {
        for call in 1..10u64 {
            right = right && is_failed_once(alloc, which, call)?;
        }
    }
    Ok(right)
}

#[test]
fn a_disk_fails_under_an_audit(rt: HostRuntime) -> Result<(), Fail> {
    assert!(rt; are_failed_once(rt.alloc())?);
    Ok(())
}
