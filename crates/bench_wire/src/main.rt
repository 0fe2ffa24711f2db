//! Frames of the wire protocol: requests that are read, and replies that are written, over and over.
//! It is timed from outside, by bench/wire/run.sh.
#![tactic(auto)]

use anyhow::Result;
use kp_model::{Bytes, Items, NoMemory, Text};
use kp_wire::{
    Request, Stat, WireAcl, WireAsk, WireReply, read_request, write_reply, write_request,
};
use std::alloc::Global;
use std::env;

/// The path of each frame, and the length of its data.
const PATH: &str = "/clickhouse/tables/01/replicas/r1";

const DATA: usize = 100;

fn main(rt: HostRuntime) -> Result<()> {
    let mut args = env::args(&rt)?;
    let _program = args.next();
    let way = args.next();
    let kind = args.next();
    let rounds = number(args.next());
    let sum = if is_word(&way, "read") {
        read_frames(rt.alloc(), &kind, rounds)
    } else {
        write_frames(rt.alloc(), &kind, rounds)
    };
    match sum {
        Ok(sum) => println!(rt; "{rounds} frames, sum {sum}")?,
        Err(NoMemory) => println!(rt; "no memory, or no frame")?,
    }
    Ok(())
}

fn number(word: Option<String>) -> u64 {
    match word {
        Some(word) => word.as_str().parse::<u64>().unwrap_or(1),
        None => 1,
    }
}

fn is_word(word: &Option<String>, text: &str) -> bool {
    match word {
        Some(word) => word.as_str() == text,
        None => false,
    }
}

fn path(alloc: Global) -> Result<Option<Text>, NoMemory> {
    Ok(Some(Text::from_str(alloc, PATH)?))
}

fn data(alloc: Global) -> Result<Bytes, NoMemory> {
    Ok(Bytes::from_vec(vec![in alloc; 120u8; DATA]?))
}

fn everyone(alloc: Global) -> Result<Items<WireAcl>, NoMemory> {
    let mut acl = Items::new(alloc);
    acl.push(WireAcl {
        perms: 31,
        scheme: Some(Text::from_str(alloc, "world")?),
        id: Some(Text::from_str(alloc, "anyone")?),
    })?;
    Ok(acl)
}

fn ask(alloc: Global, kind: &Option<String>) -> Result<WireAsk, NoMemory> {
    let path = path(alloc)?;
    if is_word(kind, "create") {
        let bytes = Some(data(alloc)?);
        let acl = Some(everyone(alloc)?);
        return Ok(WireAsk::Create {
            path,
            bytes,
            acl,
            flags: 0,
        });
    }
    if is_word(kind, "set") {
        let bytes = Some(data(alloc)?);
        return Ok(WireAsk::SetData {
            path,
            bytes,
            version: u32::MAX,
        });
    }
    Ok(WireAsk::GetData { path, watch: false })
}

// The packet of a request.
fn packet(alloc: Global, kind: &Option<String>) -> Result<Bytes, NoMemory> {
    let request = Request {
        xid: 7,
        ask: ask(alloc, kind)?,
    };
    write_request(alloc, &request)
}

// Reads a request, and tells the length of its path.
fn read_frame(alloc: Global, frame: &[u8]) -> Result<u64, NoMemory> {
    match read_request(alloc, frame) {
        Ok(request) => Ok(path_len(&request)),
        Err(_) => Err(NoMemory),
    }
}

// Reads a request over and over, and sums up the lengths of its paths.
fn read_frames(alloc: Global, kind: &Option<String>, rounds: u64) -> Result<u64, NoMemory> {
    let packet = packet(alloc, kind)?;
    let mut sum: u64 = 0;
    for _round in 0..rounds {
        sum = sum.wrapping_add(read_frame(alloc, packet.as_slice())?);
    }
    Ok(sum)
}

fn path_len(request: &Request) -> u64 {
    match &request.ask {
        WireAsk::Create { path, .. } => text_len(path),
        WireAsk::SetData { path, .. } => text_len(path),
        WireAsk::GetData { path, .. } => text_len(path),
        _ => 0,
    }
}

fn text_len(text: &Option<Text>) -> u64 {
    match text {
        Some(text) => text.as_str().len() as u64,
        None => 0,
    }
}

fn numbers() -> Stat {
    Stat {
        czxid: 3,
        mzxid: 4,
        pzxid: 3,
        ctime: 1000,
        mtime: 1000,
        version: 1,
        cversion: 0,
        aversion: 0,
        owner: 0,
        len: 100,
        kids: 0,
    }
}

fn reply(alloc: Global, kind: &Option<String>) -> Result<WireReply, NoMemory> {
    if is_word(kind, "create") {
        return Ok(WireReply::Path(Text::from_str(alloc, PATH)?));
    }
    if is_word(kind, "set") {
        return Ok(WireReply::Stat(numbers()));
    }
    Ok(WireReply::Data(data(alloc)?, numbers()))
}

// Writes a reply, and tells the length of its packet.
fn write_frame(alloc: Global, reply: &WireReply) -> Result<u64, NoMemory> {
    let packet = write_reply(alloc, 7, 9, reply)?;
    Ok(packet.as_slice().len() as u64)
}

// Writes a reply over and over, and sums up the lengths of its packets.
fn write_frames(alloc: Global, kind: &Option<String>, rounds: u64) -> Result<u64, NoMemory> {
    let reply = reply(alloc, kind)?;
    let mut sum: u64 = 0;
    for _round in 0..rounds {
        sum = sum.wrapping_add(write_frame(alloc, &reply)?);
    }
    Ok(sum)
}
