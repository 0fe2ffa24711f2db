//! Entries on their way from a leader's log into those of two followers: appended, copied out for each follower, copied
//! into its log and its records, and decoded once for its store. It is timed from outside, by bench/raftlog.sh.
#![tactic(auto)]

use anyhow::Result;
use kp_entry::{Entries, Records};
use kp_model::{Body, Bytes, Cmd, Entry, NoMemory, Text};
use kp_raftlog::RaftLog;
use std::alloc::Global;
use std::env;

/// More entries than any run has.
const MOST: u64 = 1_000_000_000_000;

fn main(rt: HostRuntime) -> Result<()> {
    let mut args = env::args(&rt)?;
    let _program = args.next();
    let rounds = number(args.next());
    let data = vec![in rt.alloc(); 7u8; 100]?;
    match go_round(rt.alloc(), rounds, &data) {
        Ok(sum) => println!(rt; "{rounds} messages, sum {sum}")?,
        Err(_) => println!(rt; "no memory")?,
    }
    Ok(())
}

fn number(word: Option<String>) -> u64 {
    match word {
        Some(word) => word.as_str().parse::<u64>().unwrap_or(1),
        None => 1,
    }
}

fn go_round(alloc: Global, rounds: u64, data: &[u8]) -> Result<u64, NoMemory> {
    let mut leader = RaftLog::new(alloc);
    let mut follower = RaftLog::new(alloc);
    let mut other = RaftLog::new(alloc);
    let gone = run(alloc, rounds, data, &mut leader, &mut follower, &mut other);
    drop(leader);
    drop(follower);
    drop(other);
    gone
}

fn run(
    alloc: Global,
    rounds: u64,
    data: &[u8],
    leader: &mut RaftLog,
    follower: &mut RaftLog,
    other: &mut RaftLog,
) -> Result<u64, NoMemory> {
    let mut sum: u64 = 0;
    for _ in 0..rounds {
        let before = leader.last();
        fill(alloc, leader, data)?;
        sum = sum.wrapping_add(send(alloc, leader, before, follower)?);
        sum = sum.wrapping_add(send(alloc, leader, before, other)?);
        forget(leader);
    }
    Ok(sum)
}

fn fill(alloc: Global, log: &mut RaftLog, data: &[u8]) -> Result<(), NoMemory> {
    for _ in 0..64 {
        let entry = entry_of(alloc, data)?;
        let added = if log.last() < MOST {
            log.append(&entry)
        } else {
            Err(NoMemory)
        };
        drop(entry);
        added?;
    }
    Ok(())
}

fn entry_of(alloc: Global, data: &[u8]) -> Result<Entry, NoMemory> {
    let cmd = cmd_of(alloc, data)?;
    Entry::new(
        1,
        1000,
        Body::Write {
            session: 1,
            epoch: 1,
            seq: 1,
            cmd,
        },
    )
}

fn cmd_of(alloc: Global, data: &[u8]) -> Result<Cmd, NoMemory> {
    let bytes = Vec::from_slice(alloc, data)?;
    let path = String::from_str(alloc, "/a")?;
    Ok(Cmd::SetData {
        path: Text::from_string(path),
        bytes: Bytes::from_vec(bytes),
        version: 0,
    })
}

// Copies what stands behind the index out of the leader's log and into the follower's.
fn send(
    alloc: Global,
    leader: &RaftLog,
    after: u64,
    follower: &mut RaftLog,
) -> Result<u64, NoMemory> {
    let (base, _) = leader.base();
    if after < base {
        return Err(NoMemory);
    }
    let mail = leader.batch(after)?;
    let mut records = Records::new(alloc);
    let taken = take(alloc, follower, &mut records, &mail);
    drop(records);
    drop(mail);
    forget(follower);
    taken
}

fn take(
    alloc: Global,
    log: &mut RaftLog,
    records: &mut Records,
    mail: &Entries,
) -> Result<u64, NoMemory> {
    let (_, _) = log.base();
    let last = log.last();
    if MOST < last || records.has_base() {
        return Err(NoMemory);
    }
    records.push_entries(mail, 0, mail.len())?;
    log.replace(last, mail, 0, mail.len())?;
    let decoded = decode_all(alloc, mail)?;
    Ok(decoded.wrapping_add(records.bytes().len() as u64))
}

fn decode_all(alloc: Global, mail: &Entries) -> Result<u64, NoMemory> {
    let mut sum: u64 = 0;
    for index in 0..mail.len() {
        if let Some(entry) = mail.get(alloc, index)? {
            sum = sum.wrapping_add(entry.time);
            drop(entry);
        }
    }
    Ok(sum)
}

fn forget(log: &mut RaftLog) {
    let (_, _) = log.base();
    let last = log.last();
    log.compact(last);
}
