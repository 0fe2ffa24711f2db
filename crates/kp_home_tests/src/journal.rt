//! Journals that were written by hand from the format, and journals that are added to.

ghost use Rattle.std.specs.Prelude.{◌≡◌, ◌<◌, [], true, length, Some, IfSome};
ghost use Rattle.kp_journal.specs.Journals.{StandsFor};

use kp_entry::{Record, Records};
use kp_io::{Disk, MemoryDisk};
use kp_journal::{Head, Journal, JournalFail, append, open_gate, open_generation, write_head};
use kp_model::NoMemory;
use std::alloc::Global;
use std::test::Fail;

// Generation 1, node 1, no image, and one batch with term 1, vote 1, and boot 1.
const ONE_BATCH: &[u8] =
    b"\x01KPJ1\0\0\0\0\0\0\0\x01\x01\0\0\0\0\0\0\0\0\x01\0\0\0\x13\x01\0\0\0\0\0\0\0\x01\x01\x02\0\0\0\0\0\0\0\x01\0";

// Generation, length of the image, number of records, and the first three places.
type Told = (u64, u64, usize, Option<u64>, Option<u64>, Option<u64>);

fn told(journal: &Journal) -> Told {
    (
        journal.generation(),
        journal.image_len(),
        journal.records().len(),
        journal.place(0),
        journal.place(1),
        journal.place(2),
    )
}

// What the journal on the disk says to node 1.
fn read(alloc: Global, disk: &mut MemoryDisk, moments: &mut u64) -> Result<Told, JournalFail> {
    match Journal::read_all(alloc, disk, 1, moments) {
        Ok(journal) => {
            let told = told(&journal);
            drop(journal);
            Ok(told)
        }
        Err(fail) => Err(fail),
    }
}

// The same of a journal of these bytes, of which one byte is another.
fn read_but(alloc: Global, bytes: &[u8], at: u64, byte: u8) -> Result<Told, JournalFail> {
    let mut moments = 0u64;
    let mut disk = MemoryDisk::new(alloc);
    let written = bytes.len() < 100
        && at < bytes.len() as u64
        && disk.write_at(0, bytes, &mut moments).is_ok();
    let told = if written {
        change(alloc, &mut disk, at, byte, &mut moments)
    } else {
        Err(JournalFail::NoMemory)
    };
    drop(disk);
    told
}

fn change(
    alloc: Global,
    disk: &mut MemoryDisk,
    at: u64,
    byte: u8,
    moments: &mut u64,
) -> Result<Told, JournalFail> {
    match disk.len(moments) {
        Ok(len) if at < len && at < 100 => {
            disk.write_at(at, &[byte], moments)?;
            read(alloc, disk, moments)
        }
        _ => Err(JournalFail::Closed),
    }
}

// A place, the byte that is put there, and what is refused.
const CHANGED: &[(u64, u8, JournalFail)] = &[
    (0, 0, JournalFail::Closed),
    (1, 0x4c, JournalFail::Damaged { at: 1 }),
    (12, 0, JournalFail::Damaged { at: 5 }),
    (13, 2, JournalFail::Damaged { at: 13 }),
    (14, 0x80, JournalFail::Damaged { at: 14 }),
    (26, 0x14, JournalFail::Damaged { at: 46 }),
    (26, 0x15, JournalFail::Damaged { at: 23 }),
    (26, 0x12, JournalFail::Damaged { at: 38 }),
    (27, 0x63, JournalFail::Damaged { at: 27 }),
    (36, 8, JournalFail::Damaged { at: 36 }),
    (46, 1, JournalFail::Damaged { at: 47 }),
];

// Whether each of them is refused so.
fn are_refused(alloc: Global, bytes: &[u8]) -> bool {
    for row in CHANGED {
        if read_but(alloc, bytes, row.0, row.1) != Err(row.2) {
            return false;
        }
    }
    true
}

#[test]
fn a_journal_is_read_or_refused_at_its_field(rt: HostRuntime) -> Result<(), Fail> {
    assert!(rt; read_but(rt.alloc(), ONE_BATCH, 0, 1) == Ok((1, 0, 2, Some(27), Some(37), None)));
    assert!(rt; read_but(rt.alloc(), ONE_BATCH, 22, 0) == Ok((1, 0, 0, None, None, None)));
    assert!(rt; are_refused(rt.alloc(), ONE_BATCH));
    Ok(())
}

// One record: the start of this number.
fn boots(alloc: Global, boot: u64) -> Result<Records, NoMemory> {
    let mut records = Records::new(alloc);
    let added = if records.has_base() {
        Err(NoMemory)
    } else {
        records.push(&Record::Boot { boot })
    };
    match added {
        Ok(()) => Ok(records),
        Err(none) => {
            drop(records);
            Err(none)
        }
    }
}

// Adds a batch of one record to the journal on the disk.
fn add(alloc: Global, disk: &mut MemoryDisk, moments: &mut u64) -> Result<(), JournalFail> {
    let records = boots(alloc, 2)?;
    let added = match Journal::read_all(alloc, disk, 1, moments) {
        Ok(journal) => add_to(journal, disk, &records, moments),
        Err(fail) => Err(fail),
    };
    drop(records);
    added
}

fn add_to(
    journal: Journal,
    disk: &mut MemoryDisk,
    records: &Records,
    moments: &mut u64,
) -> Result<(), JournalFail>
    requires { IfSome (Some disk.old.held) (StandsFor journal) }
{
    let mut journal = journal;
    let added = if records.has_base() {
        Err(JournalFail::NoMemory)
    } else {
        journal.append_batch(disk, records, moments)
    };
    drop(journal);
    added
}

// Makes a journal of generation 2 and node 1 with one batch of one record on a blank disk.
fn make(alloc: Global, disk: &mut MemoryDisk, moments: &mut u64) -> Result<(), JournalFail>
    requires { disk.old.held ≡ [] }
{
    let records = boots(alloc, 1)?;
    let made = make_of(disk, records.bytes(), moments);
    drop(records);
    made
}

fn make_of(disk: &mut MemoryDisk, body: &[u8], moments: &mut u64) -> Result<(), JournalFail>
    requires { disk.old.held ≡ [] }
{
    let head = Head {
        generation: 2,
        node: 1,
        image_len: 5,
    };
    disk.write_at(0, &[0], moments)?;
    write_head(disk, head, moments)?;
    if body.len() > 100 {
        return Err(JournalFail::NoMemory);
    }
    if !is_longer(disk, 22, moments) {
        return Err(JournalFail::NoMemory);
    }
    append(disk, 22, body, moments)?;
    if !is_longer(disk, 0, moments) {
        return Err(JournalFail::NoMemory);
    }
    open_gate(disk, 0, moments)?;
    Ok(())
}

// Whether the disk has more bytes than these.
fn is_longer(disk: &mut MemoryDisk, than: u64, moments: &mut u64) -> bool
    ensures longer { result ≡ true → than < length disk.new.held }
    ensures same { disk.new ≡ disk.old }
{
    match disk.len(moments) {
        Ok(len) => than < len,
        Err(_) => false,
    }
}

// A journal is made, and a batch is added; what it says before and behind, and its generation.
fn make_and_add(
    alloc: Global,
    disk: &mut MemoryDisk,
) -> Result<(Told, Told, Option<u64>), JournalFail>
    requires { disk.old.held ≡ [] }
{
    let mut moments = 0u64;
    make(alloc, disk, &mut moments)?;
    let before = read(alloc, disk, &mut moments)?;
    add(alloc, disk, &mut moments)?;
    let behind = read(alloc, disk, &mut moments)?;
    let generation = open_generation(disk, &mut moments)?;
    Ok((before, behind, generation))
}

#[test]
fn a_journal_is_made_and_added_to(rt: HostRuntime) -> Result<(), Fail> {
    let mut disk = MemoryDisk::new(rt.alloc());
    let made = make_and_add(rt.alloc(), &mut disk);
    drop(disk);
    let before = (2, 5, 1, Some(27), None, None);
    let behind = (2, 5, 2, Some(27), Some(41), None);
    assert!(rt; made == Ok((before, behind, Some(2))));
    Ok(())
}
