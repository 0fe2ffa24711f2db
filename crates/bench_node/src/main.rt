//! A node with many connections and watches, one of whose clients sends pieces of 64 requests, over and over: each piece is
//! taken, the entries of its writes are applied, and what is ready is drained. It is timed from outside, by bench/node.sh.
#![tactic(auto)]

ghost use Rattle.std.specs.Prelude.{◌≤◌, ◌^◌};

use anyhow::Result;
use kp_event::{NodeEvent, NodeEventKind, Said};
use kp_model::{Bytes, Items, NoMemory, Text};
use kp_node::Node;
use kp_raft::Mail;
use kp_snapshot::Image;
use kp_wire::{
    ConnectRequest, Request, WireAcl, WireAcls, WireAsk, write_connect_request, write_request,
};
use std::alloc::Global;
use std::env;

/// The path of each request, the length of its data, and how many requests a piece has.
const PATH: &str = "/a";

const DATA: usize = 100;

const REQUESTS: u64 = 64;

/// The paths at which each connection has a watch.
const WATCHED: [&str; 10] = [
    "/w0", "/w1", "/w2", "/w3", "/w4", "/w5", "/w6", "/w7", "/w8", "/w9",
];

/// No run has so many events.
const MANY: u64 = 1_000_000_000;

/// The access list that gives everybody everything.
const ALL: u32 = 31;

fn main(rt: HostRuntime) -> Result<()> {
    let mut args = env::args(&rt)?;
    let _program = args.next();
    let kind = args.next();
    let connections = number(args.next());
    let rounds = number(args.next());
    match serve(rt.alloc(), &kind, connections, rounds) {
        Ok(sum) => println!(rt; "{connections} connections, {rounds} pieces, {sum} bytes")?,
        Err(NoMemory) => println!(rt; "no memory, or no frame")?,
    }
    Ok(())
}

fn number(word: Option<String>) -> u64 {
    match word {
        Some(word) => word.as_str().parse::<u64>().unwrap_or(1),
        None => 1,
    }
}

fn is_set(word: &Option<String>) -> bool {
    match word {
        Some(word) => word.as_str() == "set",
        None => false,
    }
}

// How many bytes an answer brings.
fn length(said: &Said) -> u64 {
    match said {
        Said::Out(Some(piece)) => piece.bytes.len() as u64,
        _ => 0,
    }
}

// The node takes an event, and how many bytes were ready for it.
fn take(node: &mut Node, kind: NodeEventKind<Mail<Image>>) -> Result<u64, NoMemory> {
    if node.events() > MANY {
        drop(kind);
        return Err(NoMemory);
    }
    let outcome = node.event(NodeEvent { now: 1000, kind })?;
    let length = length(&outcome.said);
    drop(outcome);
    Ok(length)
}

// A connection takes bytes.
fn feed(alloc: Global, node: &mut Node, conn: u64, bytes: &[u8]) -> Result<(), NoMemory> {
    let bytes = Bytes::from_vec(Vec::from_slice(alloc, bytes)?);
    let _length = take(node, NodeEventKind::Client { conn, bytes })?;
    Ok(())
}

fn packet(alloc: Global, ask: WireAsk) -> Result<Vec<u8>, NoMemory> {
    let request = Request { xid: 7, ask };
    let packet = write_request(alloc, &request)?;
    drop(request);
    Ok(Vec::from_slice(alloc, packet.as_slice())?)
}

fn data(alloc: Global) -> Result<Option<Bytes>, NoMemory> {
    Ok(Some(Bytes::from_vec(vec![in alloc; 120u8; DATA]?)))
}

// Everybody may do everything.
fn anybody(alloc: Global) -> Result<WireAcls, NoMemory> {
    let line = WireAcl {
        perms: ALL,
        scheme: Some(Text::from_str(alloc, "world")?),
        id: Some(Text::from_str(alloc, "anyone")?),
    };
    let mut lines = Vec::new(alloc);
    lines.push(line)?;
    Ok(Items::from_vec(lines))
}

// The node of the requests is made.
fn create(alloc: Global) -> Result<Vec<u8>, NoMemory> {
    let path = Some(Text::from_str(alloc, PATH)?);
    let bytes = data(alloc)?;
    let acl = Some(anybody(alloc)?);
    packet(
        alloc,
        WireAsk::Create {
            path,
            bytes,
            acl,
            flags: 0,
        },
    )
}

fn ask(alloc: Global, set: bool) -> Result<WireAsk, NoMemory> {
    let path = Some(Text::from_str(alloc, PATH)?);
    if set {
        let bytes = data(alloc)?;
        return Ok(WireAsk::SetData {
            path,
            bytes,
            version: u32::MAX,
        });
    }
    Ok(WireAsk::GetData { path, watch: false })
}

// A piece of 64 requests.
fn piece(alloc: Global, set: bool) -> Result<Vec<u8>, NoMemory> {
    let packet = packet(alloc, ask(alloc, set)?)?;
    let mut piece = Vec::new(alloc);
    for _request in 0..REQUESTS {
        piece.extend_from_slice(packet.as_slice())?;
    }
    Ok(piece)
}

// The watches of a connection.
fn watches(alloc: Global) -> Result<Vec<u8>, NoMemory> {
    let mut piece = Vec::new(alloc);
    for path in WATCHED {
        let path = Some(Text::from_str(alloc, path)?);
        let packet = packet(alloc, WireAsk::Exists { path, watch: true })?;
        piece.extend_from_slice(packet.as_slice())?;
    }
    Ok(piece)
}

fn connect(alloc: Global) -> Result<Vec<u8>, NoMemory> {
    let request = ConnectRequest {
        protocol: 0,
        zxid: 0,
        timeout: 30_000,
        session: 0,
        passwd: None,
        read_only: Some(false),
    };
    let packet = write_connect_request(alloc, &request)?;
    drop(request);
    Ok(Vec::from_slice(alloc, packet.as_slice())?)
}

// A connection of a session of its own comes, and its watches are set.
fn join(alloc: Global, node: &mut Node, conn: u64) -> Result<(), NoMemory> {
    let _come = take(node, NodeEventKind::Accept { draw: [7; 16] })?;
    feed(alloc, node, conn, connect(alloc)?.as_slice())?;
    let _opened = take(node, NodeEventKind::CommitOne)?;
    feed(alloc, node, conn, watches(alloc)?.as_slice())?;
    let _told = take(node, NodeEventKind::Drain { conn })?;
    Ok(())
}

// The node leads, its connections are there, and so is the node of the requests.
fn begin(alloc: Global, node: &mut Node, connections: u64) -> Result<(), NoMemory> {
    let _leads = take(node, NodeEventKind::Timeout)?;
    let _begun = take(node, NodeEventKind::CommitOne)?;
    for conn in 0..connections {
        join(alloc, node, conn.saturating_add(1))?;
    }
    feed(alloc, node, 1, create(alloc)?.as_slice())?;
    let _made = take(node, NodeEventKind::CommitOne)?;
    let _told = take(node, NodeEventKind::Drain { conn: 1 })?;
    Ok(())
}

// A piece is taken, its entries are applied, and what is ready is drained.
fn go_round(alloc: Global, node: &mut Node, piece: &[u8], set: bool) -> Result<u64, NoMemory> {
    feed(alloc, node, 1, piece)?;
    if set {
        for _request in 0..REQUESTS {
            let _applied = take(node, NodeEventKind::CommitOne)?;
        }
    }
    take(node, NodeEventKind::Drain { conn: 1 })
}

fn serve(
    alloc: Global,
    kind: &Option<String>,
    connections: u64,
    rounds: u64,
) -> Result<u64, NoMemory> {
    let mut node = Node::blank(alloc, 1, 1)?;
    let sum = run(alloc, &mut node, is_set(kind), connections, rounds);
    drop(node);
    sum
}

fn run(
    alloc: Global,
    node: &mut Node,
    set: bool,
    connections: u64,
    rounds: u64,
) -> Result<u64, NoMemory> {
    begin(alloc, node, connections)?;
    let piece = piece(alloc, set)?;
    let mut sum: u64 = 0;
    for _round in 0..rounds {
        sum = sum.saturating_add(go_round(alloc, node, piece.as_slice(), set)?);
    }
    Ok(sum)
}
