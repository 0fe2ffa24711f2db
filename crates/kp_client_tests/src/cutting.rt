//! Streams of clients that come in pieces: what is read doesn't depend on where they are cut.
ghost use Rattle.std.specs.Prelude.{◌<◌};

use crate::frames::{CLOSE, CONNECT, CREATES, LOOKS, SETS};
use kp_conn::{Conn, Fed, FedEnd};
use kp_model::NoMemory;
use kp_wire::{ConnectReply, write_connect_request, write_request};
use std::alloc::Global;

/// How the reading of a stream ends.
#[derive(Clone, Copy, PartialEq)]
enum End {
    Whole,
    Bad(u64),
    Word([u8; 4]),
}

/// A stream, how many of its bytes are read as frames, and how that ends.
struct Row {
    pieces: [&'static [u8]; 4],
    read: usize,
    end: End,
}

const ROWS: [Row; 8] = [
    Row {
        pieces: [CONNECT, CREATES, LOOKS, CLOSE],
        read: 311,
        end: End::Whole,
    },
    Row {
        pieces: [CONNECT, CREATES, SETS, b""],
        read: 276,
        end: End::Whole,
    },
    // behind the connect request a length below 0, one above the longest, a ping of seven bytes
    Row {
        pieces: [CONNECT, b"\x80\x00\x00\x00", CREATES, b""],
        read: 49,
        end: End::Bad(49),
    },
    Row {
        pieces: [CONNECT, SETS, b"\x00\x10\x00\x00", CREATES],
        read: 99,
        end: End::Bad(99),
    },
    Row {
        pieces: [
            CONNECT,
            SETS,
            b"\x00\x00\x00\x07\xff\xff\xff\xfe\x00\x00\x00",
            CREATES,
        ],
        read: 99,
        end: End::Bad(99),
    },
    // a frame that isn't whole
    Row {
        pieces: [CONNECT, SETS, b"\x00\x0f\xff\xff\x00", b""],
        read: 99,
        end: End::Whole,
    },
    // no connect request, and a word
    Row {
        pieces: [b"", CREATES, SETS, b""],
        read: 0,
        end: End::Bad(0),
    },
    Row {
        pieces: [b"mntr", CREATES, b"", b""],
        read: 0,
        end: End::Word(*b"mntr"),
    },
];

// Writes again what was read.
fn write_again(alloc: Global, fed: &Fed, into: &mut Vec<u8>) -> Result<(), NoMemory> {
    if let Some(request) = &fed.connect {
        into.extend_from_slice(write_connect_request(alloc, request)?.as_slice())?;
    }
    for request in fed.requests.as_slice() {
        into.extend_from_slice(write_request(alloc, request)?.as_slice())?;
    }
    Ok(())
}

// How a piece ended.
fn end_of(end: FedEnd) -> End {
    match end {
        FedEnd::Ok => End::Whole,
        FedEnd::Bad { at } => End::Bad(at),
        FedEnd::Word(word) => End::Word(word),
    }
}

// Feeds a piece, grants the connect request that is read in it, and tells how the reading ended.
fn feed(alloc: Global, conn: &mut Conn, piece: &[u8], into: &mut Vec<u8>) -> Result<End, NoMemory> {
    let fed = conn.feed(piece)?;
    let written = write_again(alloc, &fed, into);
    let (asks, end) = (fed.connect.is_some(), end_of(fed.end));
    drop(fed);
    written?;
    if !asks {
        return Ok(end);
    }
    let reply = ConnectReply {
        timeout: 30_000,
        session: 1,
        passwd: [0; 16],
        with_read_only: true,
    };
    conn.connect(&reply, 1)?;
    let behind = conn.feed(&[])?;
    let written = write_again(alloc, &behind, into);
    let end = end_of(behind.end);
    drop(behind);
    written?;
    Ok(end)
}

// Feeds a stream in pieces of that many bytes at most, as far as the reading goes on.
fn feed_all(
    alloc: Global,
    conn: &mut Conn,
    stream: &[u8],
    size: usize,
    into: &mut Vec<u8>,
) -> Result<End, NoMemory>
    requires { 0 < size }
{
    for piece in stream.chunks(size) {
        let end = feed(alloc, conn, piece, into)?;
        if end != End::Whole {
            return Ok(end);
        }
    }
    Ok(End::Whole)
}

fn joined(alloc: Global, pieces: &[&[u8]; 4]) -> Result<Vec<u8>, NoMemory> {
    let mut stream = Vec::new(alloc);
    for piece in pieces {
        stream.extend_from_slice(piece)?;
    }
    Ok(stream)
}

// Whether a row is read as it says, in pieces of that size.
fn is_read(alloc: Global, row: &Row, size: usize) -> Result<bool, NoMemory>
    requires { 0 < size }
{
    let stream = joined(alloc, &row.pieces)?;
    let mut read = Vec::new(alloc);
    let mut conn = Conn::new(alloc);
    let end = feed_all(alloc, &mut conn, &stream, size, &mut read);
    drop(conn);
    let whole = read.len() == row.read && stream.starts_with(&read);
    Ok(whole && end? == row.end)
}

fn are_read(alloc: Global, size: usize) -> Result<bool, NoMemory>
    requires { 0 < size }
{
    let mut all = true;
    for row in &ROWS {
        all = all && is_read(alloc, row, size)?;
    }
    Ok(all)
}

#[test]
fn streams_are_read_however_they_are_cut(rt: HostRuntime) -> Result<(), NoMemory> {
    let bytewise = are_read(rt.alloc(), 1)?;
    let cut = are_read(rt.alloc(), 7)? && are_read(rt.alloc(), 50)?;
    let whole = are_read(rt.alloc(), 1_000)?;
    assert!(rt; bytewise && cut && whole);
    Ok(())
}
