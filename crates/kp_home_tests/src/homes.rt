//! Homes that are opened, added to and stopped at each moment.

ghost use Rattle.std.specs.Prelude.{◌≡◌, false, length, IfOk, IfSome};
ghost use Rattle.kp_entry.specs.Records.{has_base};

use kp_disks::{FaultyDisk, file_home};
use kp_entry::{Record, Records};
use kp_homes::{Home, HomeFail, Kept0, Whole};
use kp_io::{Disk, Four, MemoryDisk};
use kp_model::NoMemory;
use kp_snapshot::{Image, ImageFail};
use std::alloc::{AllocError, Global};
use std::fs::{File, Files};
use std::io::Print;
use std::test::Fail;

/// A home of node 1 with term 1, vote 1, boot 1 and one entry.
pub(crate) const ONE_ENTRY: &[u8] =
    b"\x01KPJ1\0\0\0\0\0\0\0\x01\x01\0\0\0\0\0\0\0\0\x01\0\0\0\x25\x01\0\0\0\0\0\0\0\x01\x01\x02\0\0\0\0\0\0\0\x01\x03\0\0\0\0\0\0\0\x01\0\0\0\0\0\0\0\0\0\0";

/// A home of node 1 whose only record has no known tag.
pub(crate) const UNKNOWN_TAG: &[u8] =
    b"\x01KPJ1\0\0\0\0\0\0\0\x01\x01\0\0\0\0\0\0\0\0\x01\0\0\0\x01\x63\0";

/// An image of the state of a node that has only the root, as of index 2 and term 1.
pub(crate) const ROOT_IMAGE: &[u8] =
    b"KPI1\0\0\0\0\0\0\0\x02\0\0\0\0\0\0\0\x01\0\0\0\0\0\0\0\x01\0\0\0\0\0\0\0\x01\0\0\0\x01/\0\0\0\0\0\0\0\x01\0\0\0\x1f\0\0\0\x05world\0\0\0\x06anyone\0\0\0\0\0\0\0\0\0\0\0\0\0\0\0\0\0\0\0\0\0\0\0\0\0\0\0\0\0\0\0\0\0\0\0\0\0\0\0\0\0\0\0\0\0\0\0\0\0\0\0\0\0\0\0\0\0\0\0\0\0\0\0\0";

// Term, vote, boot, the index of the image, and the number of entries.
type Told = (u64, u8, u64, Option<u64>, usize);

fn told(kept: &Kept0) -> Told {
    let image = match &kept.image {
        None => None,
        Some(image) => Some(image.index()),
    };
    (kept.term, kept.vote, kept.boot, image, kept.rest.len())
}

// Opens a home of node 1 and closes it: what it starts with, and the disks.
fn opened<H: Disk>(alloc: Global, disks: Four<H>) -> (Result<Told, HomeFail>, Four<H>) {
    match Home::open(alloc, disks, 1) {
        Ok((home, kept)) => {
            let told = told(&kept);
            drop(kept);
            (Ok(told), home.close())
        }
        Err((fail, disks)) => (Err(fail), disks),
    }
}

// A disk in memory that holds these bytes and fails in no call before `stop`.
fn disk(alloc: Global, bytes: &[u8], stop: u64) -> Result<FaultyDisk, AllocError> {
    FaultyDisk::new(alloc, Vec::from_slice(alloc, bytes)?, Vec::new(alloc), stop)
}

// The same, which fails in this call alone.
fn failing_disk(alloc: Global, bytes: &[u8], call: u64) -> Result<FaultyDisk, AllocError> {
    FaultyDisk::new(
        alloc,
        Vec::from_slice(alloc, bytes)?,
        Vec::from_slice(alloc, &[call])?,
        u64::MAX,
    )
}

// What a crash leaves of the disks, with `fill` for each byte that is torn.
fn crashed(
    alloc: Global,
    disks: &Four<FaultyDisk>,
    fill: u8,
) -> Result<Four<FaultyDisk>, AllocError> {
    let j0 = disks.j0.torn(fill)?;
    let j1 = disks.j1.torn(fill)?;
    let i0 = disks.i0.torn(fill)?;
    let i1 = disks.i1.torn(fill)?;
    Ok(Four {
        j0: disk(alloc, &j0, u64::MAX)?,
        j1: disk(alloc, &j1, u64::MAX)?,
        i0: disk(alloc, &i0, u64::MAX)?,
        i1: disk(alloc, &i1, u64::MAX)?,
        moments: 0,
    })
}

/// A home whose first journal and image hold these bytes, and which stops behind a moment.
pub(crate) fn home_of(
    alloc: Global,
    journal: &[u8],
    image: &[u8],
    stop: u64,
) -> Result<Four<FaultyDisk>, AllocError> {
    Ok(Four {
        j0: disk(alloc, journal, stop)?,
        j1: disk(alloc, &[], stop)?,
        i0: disk(alloc, image, stop)?,
        i1: disk(alloc, &[], stop)?,
        moments: 0,
    })
}

// Opens a home of these bytes, and again.
fn opened_twice(
    alloc: Global,
    journal: &[u8],
    image: &[u8],
) -> Result<(Result<Told, HomeFail>, Result<Told, HomeFail>), AllocError> {
    let disks = home_of(alloc, journal, image, u64::MAX)?;
    let (first, disks) = opened(alloc, disks);
    let (second, disks) = opened(alloc, disks);
    drop(disks);
    Ok((first, second))
}

#[test]
fn homes_are_opened(rt: HostRuntime) -> Result<(), Fail> {
    let blank = opened_twice(rt.alloc(), &[], &[])?;
    assert!(rt; blank == (Ok((0, 0, 1, None, 0)), Ok((0, 0, 2, None, 0))));
    let one = opened_twice(rt.alloc(), ONE_ENTRY, &[])?;
    assert!(rt; one == (Ok((1, 1, 2, None, 1)), Ok((1, 1, 3, None, 1))));
    let unknown = opened_twice(rt.alloc(), UNKNOWN_TAG, &[])?;
    let damaged = HomeFail::Damaged { slot: 0, at: 27 };
    assert!(rt; unknown == (Err(damaged), Err(damaged)));
    Ok(())
}

// One record: a vote of term 7.
fn vote(alloc: Global) -> Result<Records, NoMemory>
    ensures { IfOk result (λ rs. has_base rs ≡ false) }
{
    let mut records = Records::new(alloc);
    match records.push(&Record::Vote { term: 7, vote: 2 }) {
        Ok(()) => Ok(records),
        Err(none) => {
            drop(records);
            Err(none)
        }
    }
}

// What is done to a home that was opened.
#[derive(Clone, Copy)]
enum Work {
    Batch,
    Slot,
}

// The image of a node that has only the root, and these records behind it.
fn root_and(alloc: Global, records: Records) -> Result<Whole, ImageFail>
    ensures { IfOk result (λ w. w.rest ≡ records) }
{
    let bytes = Vec::from_slice(alloc, ROOT_IMAGE);
    match image_from(alloc, bytes) {
        Ok(image) => Ok(Whole {
            image: Some(image),
            rest: records,
        }),
        Err(fail) => {
            drop(records);
            Err(fail)
        }
    }
}

fn image_from(alloc: Global, bytes: Result<Vec<u8>, AllocError>) -> Result<Image, ImageFail> {
    match bytes {
        Ok(bytes) => Image::from_vec(alloc, bytes),
        Err(_) => Err(ImageFail::NoMemory),
    }
}

// Opens a home, does this work, and closes it: whether it was opened, and whether the work was done.
fn worked<H: Disk>(
    alloc: Global,
    disks: Four<H>,
    work: Work,
    whole: &Whole,
) -> (bool, bool, Four<H>)
    requires { has_base whole.now.rest ≡ false }
{
    match Home::open(alloc, disks, 1) {
        Ok((home, kept)) => {
            drop(kept);
            let mut home = home;
            let done = match work {
                Work::Batch => home.append_batch(&whole.rest),
                Work::Slot => home.compact(whole),
            };
            (true, done.is_ok(), home.close())
        }
        Err((_, disks)) => (false, false, disks),
    }
}

// Does the work on a home, and opens what a crash leaves of it: whether the home was opened, whether the work was done, and
// what is found.
fn found_behind(
    alloc: Global,
    disks: Four<FaultyDisk>,
    work: Work,
    whole: &Whole,
) -> Result<(bool, bool, Result<Told, HomeFail>), AllocError>
    requires { has_base whole.now.rest ≡ false }
{
    let (begun, done, disks) = worked(alloc, disks, work, whole);
    let left = crashed(alloc, &disks, 1);
    drop(disks);
    let (found, left) = opened(alloc, left?);
    drop(left);
    Ok((begun, done, found))
}

// What is found once the work was done.
fn after(work: Work, boot: u64) -> Told {
    match work {
        Work::Batch => (7, 2, boot, None, 1),
        Work::Slot => (7, 2, boot, Some(2), 0),
    }
}

// Whether this may be found: all that was acknowledged, and else what was there or what was being written.
fn may_be_found(work: Work, begun: bool, done: bool, found: Result<Told, HomeFail>) -> bool {
    let before_start = found == Ok((1, 1, 2, None, 1));
    let behind_start = found == Ok((1, 1, 3, None, 1));
    let behind_work = match work {
        Work::Batch => found == Ok(after(work, 3)),
        Work::Slot => found == Ok(after(work, 1)),
    };
    if done {
        behind_work
    } else if begun {
        behind_start || behind_work
    } else {
        before_start || behind_start
    }
}

// Whether that holds wherever the disks stop, and how many stops let the work be done.
fn stops(alloc: Global, work: Work, whole: &Whole) -> Result<(bool, u64), AllocError>
    requires { has_base whole.now.rest ≡ false }
{
    let mut held = true;
    let mut full = 0u64;
    for stop in 0..40u64 {
        let disks = home_of(alloc, ONE_ENTRY, &[], stop)?;
        let (begun, done, found) = found_behind(alloc, disks, work, whole)?;
        held = held && may_be_found(work, begun, done, found);
        if done && full < 100 {
            full += 1;
        }
    }
    Ok((held, full))
}

#[test]
fn a_home_is_stopped_at_each_moment(rt: HostRuntime) -> Result<(), Fail> {
    let whole = root_and(rt.alloc(), vote(rt.alloc())?)?;
    let batch = stops(rt.alloc(), Work::Batch, &whole);
    let slot = stops(rt.alloc(), Work::Slot, &whole);
    drop(whole);
    let (held, full) = batch?;
    assert!(rt; held && 0 < full && full < 40);
    let (held, full) = slot?;
    assert!(rt; held && 0 < full && full < 40);
    Ok(())
}

// Whether it holds where one of the first calls of one disk fails, and how often the work was not done.
fn fails_once(
    alloc: Global,
    work: Work,
    whole: &Whole,
    which: u64,
) -> Result<(bool, u64), AllocError>
    requires { has_base whole.now.rest ≡ false }
{
    let mut held = true;
    let mut failed = 0u64;
    for call in 1..24u64 {
        let disks = failing_home(alloc, which, call)?;
        let (begun, done, found) = found_behind(alloc, disks, work, whole)?;
        held = held && may_be_found(work, begun, done, found);
        if !done && failed < 100 {
            failed += 1;
        }
    }
    Ok((held, failed))
}

#[test]
fn each_call_of_a_batch_and_of_a_slot_fails_once(rt: HostRuntime) -> Result<(), Fail> {
    let whole = root_and(rt.alloc(), vote(rt.alloc())?)?;
    let batch = fails_once(rt.alloc(), Work::Batch, &whole, 0);
    let journal = fails_once(rt.alloc(), Work::Slot, &whole, 1);
    let image = fails_once(rt.alloc(), Work::Slot, &whole, 3);
    drop(whole);
    let (held, failed) = batch?;
    assert!(rt; held && 0 < failed && failed < 23);
    let (held, failed) = journal?;
    assert!(rt; held && 0 < failed && failed < 23);
    let (held, failed) = image?;
    assert!(rt; held && 0 < failed && failed < 23);
    Ok(())
}

// Opens a home over real files twice, and takes the files away.
fn opened_on_files<R: Files<File = File> + Copy, E: Print + Copy>(
    alloc: Global,
    files: R,
    errors: E,
) -> Result<(Result<Told, HomeFail>, Result<Told, HomeFail>), AllocError> {
    let first = file_home(alloc, files, errors, ".", 1)?;
    let (first, disks) = opened(alloc, first);
    drop(disks);
    let second = file_home(alloc, files, errors, ".", 1)?;
    let (second, disks) = opened(alloc, second);
    drop(disks);
    let _gone = files.remove_file("./n1.j0");
    let _gone = files.remove_file("./n1.i0");
    Ok((first, second))
}

#[test]
fn a_home_is_kept_in_files(rt: HostRuntime) -> Result<(), Fail> {
    let files = opened_on_files(rt.alloc(), rt, rt)?;
    assert!(rt; files == (Ok((0, 0, 1, None, 0)), Ok((0, 0, 2, None, 0))));
    Ok(())
}

/// A home with one entry whose disk of this number fails in this call.
pub(crate) fn failing_home(
    alloc: Global,
    which: u64,
    call: u64,
) -> Result<Four<FaultyDisk>, AllocError> {
    Ok(Four {
        j0: failing_disk(alloc, ONE_ENTRY, if which == 0 { call } else { 0 })?,
        j1: failing_disk(alloc, &[], if which == 1 { call } else { 0 })?,
        i0: failing_disk(alloc, &[], if which == 2 { call } else { 0 })?,
        i1: failing_disk(alloc, &[], if which == 3 { call } else { 0 })?,
        moments: 0,
    })
}

// Opens a home of which one call fails, and opens what a crash leaves: whether the answers are right.
fn is_failed_once(alloc: Global, which: u64, call: u64) -> Result<bool, AllocError> {
    let disks = failing_home(alloc, which, call)?;
    let (first, disks) = opened(alloc, disks);
    let left = crashed(alloc, &disks, 1);
    drop(disks);
    let (found, left) = opened(alloc, left?);
    drop(left);
    let before = found == Ok((1, 1, 2, None, 1));
    let behind = found == Ok((1, 1, 3, None, 1));
    Ok(match first {
        Ok(told) => told == (1, 1, 2, None, 1) && behind,
        Err(fail) => fail == HomeFail::DiskFault && (before || behind),
    })
}

// Whether that holds for each of the first calls of each disk.
fn are_failed_once(alloc: Global) -> Result<bool, AllocError> {
    let mut right = true;
    for which in 0..4u64 {
        for call in 1..16u64 {
            right = right && is_failed_once(alloc, which, call)?;
        }
    }
    Ok(right)
}

#[test]
fn each_call_of_a_disk_fails_once(rt: HostRuntime) -> Result<(), Fail> {
    assert!(rt; are_failed_once(rt.alloc())?);
    Ok(())
}
