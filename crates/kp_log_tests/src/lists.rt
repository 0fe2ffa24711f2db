//! Lists of entries and of records, and the room for the first records of a step.
use crate::entries::row;
use kp_entry::{Entries, Record, Records, Room, decode};
use kp_model::{Body, Entry, NoMemory};
use std::alloc::Global;

// A vote for server 2 in term 3, the fifth start, an entry that is a no-op, and a truncation to index 9.
const RECORDS: &[u8] =
    b"\x01\0\0\0\0\0\0\0\x03\x02\x02\0\0\0\0\0\0\0\x05\x03\0\0\0\0\0\0\0\x03\0\0\0\0\0\0\x03\xe8\0\x04\0\0\0\0\0\0\0\x09";

// A no-op of term 3 at time 1,000.
fn noop() -> Result<Entry, NoMemory> {
    Entry::new(3, 1000, Body::Noop)
}

// Adds a record where none is a base.
fn add(records: &mut Records, record: &Record) -> Result<(), NoMemory> {
    if records.has_base() {
        return Err(NoMemory);
    }
    records.push(record)
}

// Adds the entry, and the truncation behind it.
fn add_entry(records: &mut Records) -> Result<(), NoMemory> {
    let entry = noop()?;
    if records.has_base() {
        drop(entry);
        return Err(NoMemory);
    }
    let added = records.push_entry(&entry);
    drop(entry);
    added?;
    add(records, &Record::Truncate { last: 9 })
}

// The four records of the bytes, of which the last two come from another list.
fn add_all(records: &mut Records, more: &mut Records) -> Result<(), NoMemory> {
    add(records, &Record::Vote { term: 3, vote: 2 })?;
    add(records, &Record::Boot { boot: 5 })?;
    add_entry(more)?;
    if records.has_base() || more.has_base() {
        return Err(NoMemory);
    }
    records.join(more)
}

// Whether the record of this place is the start of number 5.
fn is_boot(alloc: Global, records: &Records, index: usize) -> Result<bool, NoMemory> {
    match records.get(alloc, index)? {
        Some(Record::Boot { boot }) => Ok(boot == 5),
        other => {
            drop(other);
            Ok(false)
        }
    }
}

// Whether copies and beginnings of the list have the bytes that they should have.
fn is_kept(alloc: Global, records: &mut Records) -> Result<bool, NoMemory> {
    let copy = records.copy()?;
    let same = copy.bytes() == RECORDS && copy.len() == 4;
    drop(copy);
    add(records, &Record::Base { index: 9, term: 3 })?;
    let based = records.has_base() && records.len() == 5 && records.bytes() == RECORDS;
    records.keep(2);
    let boot = is_boot(alloc, records, 1)?;
    Ok(same && based && boot && !records.has_base() && records.bytes() == &RECORDS[..19])
}

fn records_hold(alloc: Global, records: &mut Records) -> Result<bool, NoMemory> {
    let mut more = Records::new(alloc);
    let added = add_all(records, &mut more);
    drop(more);
    added?;
    let whole = records.bytes() == RECORDS && records.len() == 4;
    Ok(whole && is_kept(alloc, records)?)
}

#[test]
fn records_have_their_bytes(rt: HostRuntime) -> Result<(), NoMemory> {
    let mut records = Records::new(rt.alloc());
    let held = records_hold(rt.alloc(), &mut records);
    drop(records);
    let held = held?;
    assert!(rt; held);
    Ok(())
}

// Whether the records that the room gives have these bytes.
fn room_gives(alloc: Global) -> Result<bool, NoMemory> {
    let first = Room::new(alloc)?;
    let second = Room::new(alloc)?;
    let cut = first.records(Some((3, 2)), Some(9));
    let based = second.based(None, 9, 3);
    let told = cut.len() == 2
        && cut.bytes() == b"\x01\0\0\0\0\0\0\0\x03\x02\x04\0\0\0\0\0\0\0\x09".as_slice();
    let ended = based.has_base() && based.bytes().is_empty();
    drop(cut);
    drop(based);
    Ok(told && ended)
}

#[test]
fn room_gives_the_first_records(rt: HostRuntime) -> Result<(), NoMemory> {
    let given = room_gives(rt.alloc())?;
    assert!(rt; given);
    Ok(())
}

// Adds the entry of a row, by its value and by its bytes.
fn add_row(alloc: Global, list: &mut Entries, index: usize) -> Result<(), NoMemory> {
    let bytes = row(alloc, index)?;
    match decode(alloc, &bytes) {
        Err(_) => Err(NoMemory),
        Ok((entry, _)) => {
            let added = list.push(&entry);
            drop(entry);
            added
        }
    }
}

// Whether the entry at this place has the bytes of the row, and is read with its term.
fn is_row(alloc: Global, list: &Entries, index: usize) -> Result<bool, NoMemory> {
    let bytes = row(alloc, index)?;
    let same = list.bytes_at(index) == Some(bytes.as_slice()) && list.term_at(index) == Some(3);
    match list.get(alloc, index)? {
        None => Ok(false),
        Some(entry) => {
            let time = entry.time;
            drop(entry);
            Ok(same && time == 1000)
        }
    }
}

// Whether a copy of the list, and the records of its entries, have their bytes.
fn is_copied(alloc: Global, list: &Entries) -> Result<bool, NoMemory> {
    let mut records = Records::new(alloc);
    let added = if list.len() == 13 {
        records.push_entries(list, 1, 13)
    } else {
        Err(NoMemory)
    };
    let count = records.len();
    drop(records);
    added?;
    let copy = list.copy(alloc)?;
    let same = count == 12 && copy.len() == 13;
    let last = is_row(alloc, &copy, 12);
    drop(copy);
    Ok(same && last?)
}

fn entries_hold(alloc: Global, list: &mut Entries) -> Result<bool, NoMemory> {
    list.reserve(13, 1000)?;
    for index in 0..13 {
        add_row(alloc, list, index)?;
    }
    for index in 0..13 {
        if !is_row(alloc, list, index)? {
            return Ok(false);
        }
    }
    is_copied(alloc, list)
}

#[test]
fn entries_are_held_as_their_bytes(rt: HostRuntime) -> Result<(), NoMemory> {
    let mut list = Entries::new(rt.alloc());
    let held = entries_hold(rt.alloc(), &mut list);
    drop(list);
    let held = held?;
    assert!(rt; held);
    Ok(())
}
