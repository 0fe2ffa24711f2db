//! Frames of requests that are refused, and where.

use crate::requests::{CLOSE_SESSION, CREATE, CREATE_LOCK, DELETE, GET_CHILDREN, PING};
use kp_wire::{WireFail, read_request};
use std::alloc::Global;
use std::test::Fail;

// The refusal's place, None where there is none.
fn refused_at(alloc: Global, frame: &[u8]) -> Option<u64> {
    match read_request(alloc, frame) {
        Err(WireFail::BadRecord { at }) => Some(at),
        Err(WireFail::NoMemory) => None,
        Ok(request) => {
            drop(request);
            None
        }
    }
}

// The packet of these bytes.
fn packet(alloc: Global, record: &[u8]) -> Result<Vec<u8>, Fail> {
    let len = u32::try_from(record.len())?;
    let mut packet = Vec::from_slice(alloc, &len.to_be_bytes())?;
    packet.extend_from_slice(record)?;
    Ok(packet)
}

// Whether the packet of these bytes is refused there.
fn is_refused(alloc: Global, record: &[u8], place: usize) -> Result<bool, Fail> {
    let packet = packet(alloc, record)?;
    let refused = refused_at(alloc, packet.as_slice()) == Some(place as u64);
    drop(packet);
    Ok(refused)
}

// The last of the places at or below the end.
fn field_at(fields: &[usize], end: usize) -> Option<usize> {
    fields.iter().filter(|place| **place <= end).max().copied()
}

// Whether a record that is cut is refused at the field that isn't whole, the last of these places at or below the
// cut, and a packet that is cut at its length.
fn is_refused_where_cut(alloc: Global, frame: &[u8], fields: &[usize]) -> Result<bool, Fail> {
    let record = frame.get(4..).ok_or("no length")?;
    for len in 0..record.len() {
        let place = field_at(fields, len + 4).ok_or("no field")?;
        let cut = is_refused(alloc, &record[..len], place)?;
        if !cut || refused_at(alloc, &frame[..len]) != Some(0) {
            return Ok(false);
        }
    }
    Ok(true)
}

// Whether a byte behind the record or the packet is refused at that byte.
fn is_refused_behind(alloc: Global, frame: &[u8]) -> Result<bool, Fail> {
    let mut longer = Vec::from_slice(alloc, frame)?;
    longer.push(0)?;
    let behind = refused_at(alloc, longer.as_slice()) == Some(frame.len() as u64);
    let within = is_refused(alloc, longer.get(4..).ok_or("no length")?, frame.len())?;
    drop(longer);
    Ok(behind && within)
}

const CUT: [(&[u8], &[usize]); 6] = [
    (CREATE, &[4, 8, 12, 20, 24, 28, 32, 41, 51]),
    (CREATE_LOCK, &[4, 8, 12, 26, 30, 34, 38, 47, 57]),
    (GET_CHILDREN, &[4, 8, 12, 20]),
    (DELETE, &[4, 8, 12, 36]),
    (PING, &[4, 8]),
    (CLOSE_SESSION, &[4, 8]),
];

#[test]
fn refuses_what_is_cut(rt: HostRuntime) -> Result<(), Fail> {
    let mut refused = true;
    for (frame, fields) in CUT {
        refused = refused
            && is_refused_where_cut(rt.alloc(), frame, fields)?
            && is_refused_behind(rt.alloc(), frame)?;
    }
    assert!(rt; refused);
    Ok(())
}

// Of each kind of refusal one, with its place.
const REFUSED: &[(&[u8], u64)] = &[
    // A path of length -2.
    (b"\0\0\0\x0d\0\0\0\x01\0\0\0\x03\xff\xff\xff\xfe\0", 12),
    // A path that is not UTF-8.
    (b"\0\0\0\x0e\0\0\0\x01\0\0\0\x03\0\0\0\x01\xff\0", 12),
    // A watch of 2.
    (b"\0\0\0\x0e\0\0\0\x01\0\0\0\x03\0\0\0\x01/\x02", 17),
    // An access list of count -2, and one of a count that the bytes don't hold.
    (
        b"\0\0\0\x14\0\0\0\x01\0\0\0\x07\xff\xff\xff\xff\xff\xff\xff\xfe\0\0\0\0",
        16,
    ),
    (
        b"\0\0\0\x14\0\0\0\x01\0\0\0\x07\xff\xff\xff\xff\x7f\xff\xff\xff\0\0\0\0",
        24,
    ),
    // A multi of type 3, of a mark that isn't the end, of an end that isn't marked, and of the error 0.
    (
        b"\0\0\0\x11\0\0\0\x01\0\0\0\x0e\0\0\0\x03\0\xff\xff\xff\xff",
        12,
    ),
    (
        b"\0\0\0\x11\0\0\0\x01\0\0\0\x0e\0\0\0\x02\x01\xff\xff\xff\xff",
        16,
    ),
    (
        b"\0\0\0\x11\0\0\0\x01\0\0\0\x0e\xff\xff\xff\xff\0\xff\xff\xff\xff",
        16,
    ),
    (
        b"\0\0\0\x11\0\0\0\x01\0\0\0\x0e\xff\xff\xff\xff\x01\0\0\0\0",
        17,
    ),
    // A packet of length -1.
    (b"\xff\xff\xff\xff\0\0\0\x01\0\0\0\x0b", 0),
];

#[test]
fn refuses_where_the_field_begins(rt: HostRuntime) {
    let mut refused = true;
    for (frame, place) in REFUSED {
        refused = refused && refused_at(rt.alloc(), frame) == Some(*place);
    }
    assert!(rt; refused);
}
