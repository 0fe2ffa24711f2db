//! A connection from its first frame to its last, with each call that it has.

ghost use Rattle.kp_conn.specs.Queue.{SeqFits};

use crate::frames::{
    CLOSE, CLOSED, CONNECT, CONNECTED, CREATED, CREATES, HEARD, LOOKED, LOOKS, SET, SETS,
};
use kp_conn::{Conn, Fed, FedEnd, Mark, Phase, Waiting, write_event_packet};
use kp_model::{Bytes, Event, NoMemory, Paths, Text};
use kp_wire::{ConnectReply, Request, Stat, WireAsk, WireReply};
use std::alloc::Global;

/// What a client sends, the answers that are then due, and what goes out.
struct Step {
    sent: &'static [u8],
    // whether a child of `/app` changes
    changes: bool,
    answers: &'static [(u64, Told)],
    out: &'static [u8],
}

/// An answer.
#[derive(Clone, Copy)]
enum Told {
    Path(&'static str),
    Names,
    Done,
    Numbers,
    Data,
}

const LOCKS: [&str; 2] = ["lock-0000000000", "lock-0000000001"];

const FIRST: [Step; 4] = [
    Step {
        sent: CREATES,
        changes: false,
        answers: &[
            (3, Told::Path("/app")),
            (4, Told::Path("/app/lock-0000000000")),
            (5, Told::Path("/app/lock-0000000001")),
        ],
        out: CREATED,
    },
    Step {
        sent: LOOKS,
        changes: false,
        answers: &[(5, Told::Names)],
        out: LOOKED,
    },
    Step {
        sent: b"",
        changes: true,
        answers: &[(6, Told::Done), (6, Told::Done)],
        out: HEARD,
    },
    Step {
        sent: CLOSE,
        changes: false,
        answers: &[(7, Told::Done)],
        out: CLOSED,
    },
];

const SECOND: [Step; 1] = [Step {
    sent: SETS,
    changes: false,
    answers: &[(4, Told::Numbers), (4, Told::Data)],
    out: SET,
}];

const STAT: Stat = Stat {
    czxid: 3,
    mzxid: 4,
    pzxid: 3,
    ctime: 1_000,
    mtime: 1_000,
    version: 1,
    cversion: 0,
    aversion: 0,
    owner: 0,
    len: 1,
    kids: 0,
};

fn names(alloc: Global) -> Result<Paths, NoMemory> {
    let mut names = Paths::new(alloc);
    for name in &LOCKS {
        names.push(Text::from_str(alloc, name)?)?;
    }
    Ok(names)
}

fn reply_of(alloc: Global, told: Told) -> Result<WireReply, NoMemory> {
    match told {
        Told::Path(path) => Ok(WireReply::Path(Text::from_str(alloc, path)?)),
        Told::Names => Ok(WireReply::Names(names(alloc)?)),
        Told::Done => Ok(WireReply::Empty),
        Told::Numbers => Ok(WireReply::Stat(STAT)),
        Told::Data => Ok(WireReply::Data(Bytes::from_vec(Vec::from_slice(alloc, b"x")?), STAT)),
    }
}

// A request that goes into the log gets the next number.
fn mark_of(conn: &Conn, request: &Request) -> Option<Mark>
    ensures { SeqFits result }
{
    let reads = matches!(
        request.ask,
        WireAsk::GetChildren { .. } | WireAsk::GetData { .. } | WireAsk::Ping
    );
    match conn.live() {
        Some((_, _, next)) if !reads && next < 100 => Some(Mark { seq: next, term: 1 }),
        _ => None,
    }
}

// All requests of a piece join.
fn join_all(conn: &mut Conn, fed: Fed) -> Result<(), NoMemory> {
    for request in fed.requests.into_vec() {
        let mark = mark_of(conn, &request);
        conn.join(Waiting {
            request,
            mark,
            reply: None,
        })?;
    }
    Ok(())
}

// Answers the front: a write by the reply that it was given, any other by the reply itself.
fn answer(conn: &mut Conn, zxid: u64, reply: WireReply) -> Result<bool, NoMemory> {
    let mark = match conn.front() {
        None => return Ok(false),
        Some(front) => front.mark,
    };
    match mark {
        None => {
            let answered = conn.answer(zxid, &reply);
            drop(reply);
            answered?;
            Ok(true)
        }
        Some(mark) => {
            let waits = conn.awaiting(mark.seq).is_some();
            let settled = conn.settle(mark.seq, reply);
            conn.answer_kept(zxid)?;
            Ok(waits && settled)
        }
    }
}

fn answer_all(alloc: Global, conn: &mut Conn, answers: &[(u64, Told)]) -> Result<bool, NoMemory> {
    let mut all = true;
    for (zxid, told) in answers {
        all = answer(conn, *zxid, reply_of(alloc, *told)?)? && all;
    }
    Ok(all)
}

// Whether a step goes as it says.
fn goes(alloc: Global, conn: &mut Conn, step: &Step) -> Result<bool, NoMemory> {
    let fed = conn.feed(step.sent)?;
    join_all(conn, fed)?;
    if step.changes {
        conn.event(&Event::ChildrenChanged(Text::from_str(alloc, "/app")?))?;
    }
    let answered = answer_all(alloc, conn, step.answers)?;
    let out = conn.drain();
    Ok(answered && !out.over && out.bytes.as_slice() == step.out)
}

fn all_go(alloc: Global, conn: &mut Conn, steps: &[Step]) -> Result<bool, NoMemory> {
    let mut all = true;
    for step in steps {
        all = goes(alloc, conn, step)? && all;
    }
    Ok(all)
}

// Whether the connect request is answered, and the connection is live.
fn begins(conn: &mut Conn) -> Result<bool, NoMemory> {
    let fed = conn.feed(CONNECT)?;
    let asks = fed.connect.is_some() && matches!(fed.end, FedEnd::Ok);
    drop(fed);
    let connecting = matches!(conn.phase(), Phase::Connecting { read_only: true });
    let reply = ConnectReply {
        timeout: 30_000,
        session: 1,
        passwd: [0, 1, 2, 3, 4, 5, 6, 7, 8, 9, 10, 11, 12, 13, 14, 15],
        with_read_only: true,
    };
    conn.connect(&reply, 1)?;
    let out = conn.drain();
    let told = out.bytes.as_slice() == CONNECTED;
    Ok(asks && connecting && told && conn.live() == Some((1, 1, 1)))
}

// Whether it ends.
fn ends(conn: &mut Conn) -> bool {
    conn.close(false);
    let out = conn.drain();
    out.over && !out.lost && out.bytes.len() == 0 && conn.waiting() == 0
}

fn serves(alloc: Global, steps: &[Step]) -> Result<bool, NoMemory> {
    let mut conn = Conn::new(alloc);
    let served = serve(alloc, &mut conn, steps);
    drop(conn);
    served
}

fn serve(alloc: Global, conn: &mut Conn, steps: &[Step]) -> Result<bool, NoMemory> {
    let began = begins(conn)?;
    let went = all_go(alloc, conn, steps)?;
    Ok(began && went && ends(conn))
}

// Whether a packet is put that was written before, and taken back.
fn puts(alloc: Global, conn: &mut Conn) -> Result<bool, NoMemory> {
    let packet = write_event_packet(
        alloc,
        &Event::ChildrenChanged(Text::from_str(alloc, "/app")?),
    )?;
    conn.put(packet.as_slice())?;
    let put = conn.has_packets();
    conn.unput();
    conn.serve(1, 2);
    Ok(put && !conn.has_packets() && conn.live() == Some((1, 2, 1)))
}

#[test]
fn clients_are_served(rt: HostRuntime) -> Result<(), NoMemory> {
    let first = serves(rt.alloc(), &FIRST)?;
    let second = serves(rt.alloc(), &SECOND)?;
    assert!(rt; first && second);
    Ok(())
}

#[test]
fn packets_are_put(rt: HostRuntime) -> Result<(), NoMemory> {
    let mut conn = Conn::new(rt.alloc());
    let put = puts(rt.alloc(), &mut conn);
    drop(conn);
    assert!(rt; put?);
    Ok(())
}
