//! A connection that is fed pieces of 64 requests, each of which joins, is answered and drained, over and over.
//! It is timed from outside, by bench/conn/run.sh.
#![tactic(auto)]

use anyhow::Result;
use kp_conn::{Conn, Waiting};
use kp_model::{Bytes, NoMemory, Text};
use kp_wire::{
    ConnectReply, ConnectRequest, Request, Stat, WireAsk, WireReply, write_connect_request,
    write_request,
};
use std::alloc::Global;
use std::env;

/// The path of each frame, the length of its data, and how many requests a piece has.
const PATH: &str = "/clickhouse/tables/01/replicas/r1";

const DATA: usize = 100;

const REQUESTS: u64 = 64;

fn main(rt: HostRuntime) -> Result<()> {
    let mut args = env::args(&rt)?;
    let _program = args.next();
    let kind = args.next();
    let rounds = number(args.next());
    match serve(rt.alloc(), &kind, rounds) {
        Ok(sum) => println!(rt; "{rounds} pieces, sum {sum}")?,
        Err(NoMemory) => println!(rt; "no memory, or no frame")?,
    }
    Ok(())
}

fn number(word: Option<String>) -> u64 {
    match word {
        Some(word) => word.as_str().parse::<u64>().unwrap_or(1),
        None => 1,
    }
}

fn is_set(word: &Option<String>) -> bool {
    match word {
        Some(word) => word.as_str() == "set",
        None => false,
    }
}

fn data(alloc: Global) -> Result<Bytes, NoMemory> {
    Ok(Bytes::from_vec(vec![in alloc; 120u8; DATA]?))
}

fn ask(alloc: Global, kind: &Option<String>) -> Result<WireAsk, NoMemory> {
    let path = Some(Text::from_str(alloc, PATH)?);
    if is_set(kind) {
        let bytes = Some(data(alloc)?);
        return Ok(WireAsk::SetData {
            path,
            bytes,
            version: u32::MAX,
        });
    }
    Ok(WireAsk::GetData { path, watch: false })
}

// A piece of so many requests.
fn piece(alloc: Global, kind: &Option<String>) -> Result<Vec<u8>, NoMemory> {
    let request = Request {
        xid: 7,
        ask: ask(alloc, kind)?,
    };
    let packet = write_request(alloc, &request)?;
    let mut piece = Vec::new(alloc);
    for _request in 0..REQUESTS {
        piece.extend_from_slice(packet.as_slice())?;
    }
    Ok(piece)
}

fn reply(alloc: Global, kind: &Option<String>) -> Result<WireReply, NoMemory> {
    let numbers = Stat {
        czxid: 3,
        mzxid: 4,
        pzxid: 3,
        ctime: 1000,
        mtime: 1000,
        version: 1,
        cversion: 0,
        aversion: 0,
        owner: 0,
        len: 100,
        kids: 0,
    };
    if is_set(kind) {
        return Ok(WireReply::Stat(numbers));
    }
    Ok(WireReply::Data(data(alloc)?, numbers))
}

// Makes the connection live.
fn begin(alloc: Global, conn: &mut Conn) -> Result<(), NoMemory> {
    let request = ConnectRequest {
        protocol: 0,
        zxid: 0,
        timeout: 30_000,
        session: 0,
        passwd: None,
        read_only: Some(false),
    };
    let first = write_connect_request(alloc, &request)?;
    let fed = conn.feed(first.as_slice())?;
    drop(fed);
    let reply = ConnectReply {
        timeout: 30_000,
        session: 1,
        passwd: [0; 16],
        with_read_only: true,
    };
    conn.connect(&reply, 1)
}

// Feeds a piece, and lets its requests join.
fn take(conn: &mut Conn, piece: &[u8]) -> Result<(), NoMemory> {
    let fed = conn.feed(piece)?;
    for request in fed.requests.into_vec() {
        conn.join(Waiting {
            request,
            mark: None,
            reply: None,
        })?;
    }
    Ok(())
}

// Answers all that waits.
fn answer(conn: &mut Conn, reply: &WireReply) -> Result<(), NoMemory> {
    for _request in 0..REQUESTS {
        if conn.front().is_none() {
            return Ok(());
        }
        conn.answer(9, reply)?;
    }
    Ok(())
}

fn serve(alloc: Global, kind: &Option<String>, rounds: u64) -> Result<u64, NoMemory> {
    let mut conn = Conn::new(alloc);
    let sum = serve_all(alloc, &mut conn, kind, rounds);
    drop(conn);
    sum
}

fn serve_all(
    alloc: Global,
    conn: &mut Conn,
    kind: &Option<String>,
    rounds: u64,
) -> Result<u64, NoMemory> {
    let piece = piece(alloc, kind)?;
    let reply = reply(alloc, kind)?;
    begin(alloc, conn)?;
    let mut sum: u64 = 0;
    for _round in 0..rounds {
        take(conn, &piece)?;
        answer(conn, &reply)?;
        let out = conn.drain();
        sum = sum.wrapping_add(out.bytes.len() as u64);
    }
    Ok(sum)
}
