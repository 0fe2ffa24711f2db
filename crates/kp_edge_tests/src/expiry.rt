//! Sessions that come due: a session that was heard at 1,000 for 30,000 milliseconds has the deadline 31,000.
use kp_expiry::{Expiry, NoMemory};
use std::alloc::Global;
use std::test::Fail;

// Whether these sessions are due.
fn are_due(alloc: Global, expiry: &Expiry, now: u64, sessions: &[u64]) -> Result<bool, NoMemory> {
    let due = expiry.due(alloc, now)?;
    Ok(due.as_slice() == sessions)
}

// Four sessions, of which three share a deadline.
fn hear(expiry: &mut Expiry) -> Result<(), NoMemory> {
    expiry.touch(9, 30_000, 1_000)?;
    expiry.touch(7, 4_200, 1_700)?;
    expiry.touch(8, 29_501, 1_000)?;
    expiry.touch(3, 30_000, 1_001)
}

// Whether sessions come due at their deadlines, and later where they are heard again.
fn come_due(alloc: Global, expiry: &mut Expiry) -> Result<bool, NoMemory> {
    hear(expiry)?;
    let before = are_due(alloc, expiry, 30_999, &[7])?;
    let at = are_due(alloc, expiry, 31_000, &[7, 8, 9])?;
    expiry.touch(7, 4_200, 31_000)?;
    let heard = are_due(alloc, expiry, 31_500, &[8, 9, 3])?;
    expiry.remove(9);
    let removed = are_due(alloc, expiry, u64::MAX, &[8, 3, 7])?;
    Ok(before && at && heard && removed && expiry.len() == 3)
}

// Whether all sessions are heard at once.
fn are_heard_again(alloc: Global, expiry: &mut Expiry) -> Result<bool, NoMemory> {
    expiry.touch_all(40_000);
    let before = are_due(alloc, expiry, 69_999, &[7])?;
    let at = are_due(alloc, expiry, 70_000, &[7, 3, 8])?;
    Ok(before && at && expiry.heard(3).map(|known| known.deadline()) == Some(70_000))
}

#[test]
fn sessions_come_due(rt: HostRuntime) -> Result<(), Fail> {
    let mut expiry = Expiry::new(rt.alloc());
    let due = come_due(rt.alloc(), &mut expiry)?;
    let again = are_heard_again(rt.alloc(), &mut expiry)?;
    assert!(rt; due && again);
    Ok(())
}
