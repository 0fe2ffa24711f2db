//! Entries in bytes that were written by hand from the format.
use kp_entry::{EntryFail, decode, encode};
use kp_model::NoMemory;
use std::alloc::Global;

// An entry behind its term and its time: its bytes, and the places in the whole entry where its fields begin.
struct Case {
    tail: &'static [u8],
    fields: &'static [usize],
}

// term 3 and time 1,000
const HEAD: &[u8] = b"\0\0\0\0\0\0\0\x03\0\0\0\0\0\0\x03\xe8";

const CASES: &[Case] = &[
    Case {
        tail: b"\0",
        fields: &[16],
    },
    Case {
        tail: b"\x01\0\0u0\0\x01\x02\x03\x04\x05\x06\x07\x08\x09\x0a\x0b\x0c\x0d\x0e\x0f\x01\0\0\0\0\0\0\0\x02\0\0\0\0\0\0\0\x05",
        fields: &[16, 17, 21, 37, 38, 46],
    },
    Case {
        tail: b"\x02\0\0\0\0\0\0\0\x01\0\x01\x02\x03\x04\x05\x06\x07\x08\x09\x0a\x0b\x0c\x0d\x0e\x0f\x01\0\0\0\0\0\0\0\x02\0\0\0\0\0\0\0\x05",
        fields: &[16, 17, 25, 41, 42, 50],
    },
    Case {
        tail: b"\x03\0\0\0\0\0\0\0\x06",
        fields: &[16, 17],
    },
    Case {
        tail: b"\x04\0\0\0\0\0\0\0\x01\0\0\0\0\0\0\0\x04\0\0\0\0\0\0\0\x02\x01\0\0\0\x04/app\0\0\0\x02hi\0\0\0\x01\0\0\0\x1f\0\0\0\x05world\0\0\0\x06anyone\0\0\0\x03\x01",
        fields: &[16, 17, 25, 33, 41, 42, 50, 56, 60, 64, 73, 83, 87],
    },
    Case {
        tail: b"\x04\0\0\0\0\0\0\0\x01\0\0\0\0\0\0\0\x04\0\0\0\0\0\0\0\x02\x02\0\0\0\x02/a\xff\xff\xff\xff",
        fields: &[16, 17, 25, 33, 41, 42, 48],
    },
    Case {
        tail: b"\x04\0\0\0\0\0\0\0\x01\0\0\0\0\0\0\0\x04\0\0\0\0\0\0\0\x02\x03\0\0\0\x02/a\0\0\0\x01x\0\0\0\x07",
        fields: &[16, 17, 25, 33, 41, 42, 48, 53],
    },
    Case {
        tail: b"\x04\0\0\0\0\0\0\0\x01\0\0\0\0\0\0\0\x04\0\0\0\0\0\0\0\x02\x04\0\0\0\x02/a\0\0\0\x01\0\0\0\x1f\0\0\0\x05world\0\0\0\x06anyone\0\0\0\x08",
        fields: &[16, 17, 25, 33, 41, 42, 48, 52, 56, 65, 75],
    },
    Case {
        tail: b"\x04\0\0\0\0\0\0\0\x01\0\0\0\0\0\0\0\x04\0\0\0\0\0\0\0\x02\x05\0\0\0\x02/a\0\0\0\x09",
        fields: &[16, 17, 25, 33, 41, 42, 48],
    },
    Case {
        tail: b"\x04\0\0\0\0\0\0\0\x01\0\0\0\0\0\0\0\x04\0\0\0\0\0\0\0\x02\x06\0\0\0\x06digest\0\0\0\x03u:p",
        fields: &[16, 17, 25, 33, 41, 42, 52],
    },
    Case {
        tail: b"\x04\0\0\0\0\0\0\0\x01\0\0\0\0\0\0\0\x04\0\0\0\0\0\0\0\x02\x07\0\0\0\x04\x01\0\0\0\x02/m\0\0\0\0\0\0\0\0\0\0\0\0\0\x02\0\0\0\x02/a\xff\xff\xff\xff\x03\0\0\0\x02/b\0\0\0\x01y\0\0\0\x01\x05\0\0\0\x02/c\0\0\0\x02",
        fields: &[
            16, 17, 25, 33, 41, 42, 46, 47, 53, 57, 61, 65, 66, 67, 73, 77, 78, 84, 89, 93, 94, 100,
        ],
    },
    Case {
        tail: b"\x04\0\0\0\0\0\0\0\x01\0\0\0\0\0\0\0\x04\0\0\0\0\0\0\0\x02\x08\0\0\0\x02/a",
        fields: &[16, 17, 25, 33, 41, 42],
    },
    Case {
        tail: b"\x04\0\0\0\0\0\0\0\x01\0\0\0\0\0\0\0\x04\0\0\0\0\0\0\0\x02\x09",
        fields: &[16, 17, 25, 33, 41],
    },
];

/// The bytes of the entry of this row, behind the term 3 and the time 1,000.
pub(crate) fn row(alloc: Global, index: usize) -> Result<Vec<u8>, NoMemory> {
    match CASES.get(index) {
        Some(case) => whole(alloc, case.tail),
        None => Ok(Vec::new(alloc)),
    }
}

fn whole(alloc: Global, tail: &[u8]) -> Result<Vec<u8>, NoMemory> {
    let mut bytes = Vec::from_slice(alloc, HEAD)?;
    bytes.extend_from_slice(tail)?;
    Ok(bytes)
}

// Whether the bytes, with one more behind them, are read as an entry that is written as they stand.
fn is_read_back(alloc: Global, tail: &[u8]) -> Result<bool, NoMemory> {
    let mut bytes = whole(alloc, tail)?;
    let len = bytes.len();
    bytes.push(7)?;
    match decode(alloc, &bytes) {
        Err(_) => Ok(false),
        Ok((entry, read)) => {
            let written = encode(alloc, &entry);
            drop(entry);
            Ok(read == len && written?.as_slice() == &bytes[..len])
        }
    }
}

#[test]
fn entries_are_read_and_written(rt: HostRuntime) -> Result<(), NoMemory> {
    for case in CASES {
        let same = is_read_back(rt.alloc(), case.tail)?;
        assert!(rt; same);
    }
    Ok(())
}

// Where the field begins that holds this place.
fn field_at(fields: &[usize], place: usize) -> usize {
    let mut start = if place < 8 { 0 } else { 8 };
    for field in fields {
        if *field <= place {
            start = *field;
        }
    }
    start
}

// Where the bytes are refused, or None where they aren't.
fn refusal(alloc: Global, bytes: &[u8]) -> Option<usize> {
    match decode(alloc, bytes) {
        Err(EntryFail::BadEntry { at }) => Some(at),
        Err(EntryFail::NoMemory) => None,
        Ok((entry, _)) => {
            drop(entry);
            None
        }
    }
}

// Whether each beginning of the entry is refused at the field that is cut.
fn is_cut_at_its_fields(alloc: Global, case: &Case) -> Result<bool, NoMemory> {
    let bytes = whole(alloc, case.tail)?;
    for len in 0..bytes.len() {
        if refusal(alloc, &bytes[..len]) != Some(field_at(case.fields, len)) {
            return Ok(false);
        }
    }
    Ok(true)
}

#[test]
fn a_cut_entry_is_refused_at_the_cut_field(rt: HostRuntime) -> Result<(), NoMemory> {
    for case in CASES {
        let told = is_cut_at_its_fields(rt.alloc(), case)?;
        assert!(rt; told);
    }
    Ok(())
}

// Bytes behind term and time, and the place where they are refused.
const BAD: &[(&[u8], usize)] = &[
    (b"\x05", 16),
    (
        b"\x01\0\0\x27\x0f\0\x01\x02\x03\x04\x05\x06\x07\x08\x09\x0a\x0b\x0c\x0d\x0e\x0f\x01\0\0\0\0\0\0\0\x02\0\0\0\0\0\0\0\x05",
        17,
    ),
    (
        b"\x01\0\x01\x86\xa1\0\x01\x02\x03\x04\x05\x06\x07\x08\x09\x0a\x0b\x0c\x0d\x0e\x0f\x01\0\0\0\0\0\0\0\x02\0\0\0\0\0\0\0\x05",
        17,
    ),
    (b"\x03\x40\0\0\0\0\0\0\x01", 17),
    (
        b"\x04\0\0\0\0\0\0\0\x01\0\0\0\0\0\0\0\x04\0\0\0\0\0\0\0\x02\0",
        41,
    ),
    (
        b"\x04\0\0\0\0\0\0\0\x01\0\0\0\0\0\0\0\x04\0\0\0\0\0\0\0\x02\x0a",
        41,
    ),
    (
        b"\x04\0\0\0\0\0\0\0\x01\0\0\0\0\0\0\0\x04\0\0\0\0\0\0\0\x02\x08\0\0\0\x02\xff\xfe",
        42,
    ),
    (
        b"\x04\0\0\0\0\0\0\0\x01\0\0\0\0\0\0\0\x04\0\0\0\0\0\0\0\x02\x07\0\0\0\x01\x04\0\0\0\x02/a\0\0\0\0\0\0\0\0",
        46,
    ),
    (
        b"\x04\0\0\0\0\0\0\0\x01\0\0\0\0\0\0\0\x04\0\0\0\0\0\0\0\x02\x01\0\0\0\x02/a\0\0\0\0\0\0\0\0\0\0\0\0\x02",
        60,
    ),
    (
        b"\x04\0\0\0\0\0\0\0\x01\0\0\0\0\0\0\0\x04\0\0\0\0\0\0\0\x02\x07\xff\xff\xff\xff",
        46,
    ),
    (
        b"\x04\0\0\0\0\0\0\0\x01\0\0\0\0\0\0\0\x04\0\0\0\0\0\0\0\x02\x08\xff\xff\xff\xff/a",
        42,
    ),
];

#[test]
fn a_field_out_of_range_is_refused_where_it_begins(rt: HostRuntime) -> Result<(), NoMemory> {
    let alloc = rt.alloc();
    for (tail, at) in BAD {
        let bytes = whole(alloc, tail)?;
        let told = refusal(alloc, &bytes) == Some(*at);
        assert!(rt; told);
    }
    // 2^62 and one more as the term
    let more = refusal(alloc, b"\x40\0\0\0\0\0\0\x01\0\0\0\0\0\0\0\0\0");
    let most = refusal(alloc, b"\x40\0\0\0\0\0\0\0\0\0\0\0\0\0\0\0\0");
    assert!(rt; more == Some(0) && most.is_none());
    Ok(())
}
