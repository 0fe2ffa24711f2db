//! Watches that are set by many connections, of which some are dropped one after another.
//! It is timed from outside, by bench/watch/run.sh.
#![tactic(auto)]

use anyhow::Result;
use kp_model::NoMemory;
use kp_watch::{Kind, Watches};
use std::alloc::Global;
use std::env;

/// How many watches a connection has, and how many connections watch a path.
const WATCHES: u64 = 100;

const WATCHERS: u64 = 10;

fn main(rt: HostRuntime) -> Result<()> {
    let mut args = env::args(&rt)?;
    let _program = args.next();
    let count = number(args.next());
    let dropped = number(args.next());
    match watch(rt.alloc(), count, dropped) {
        Ok(left) => println!(rt; "{count} watches, {left} left")?,
        Err(NoMemory) => println!(rt; "no memory")?,
    }
    Ok(())
}

fn number(word: Option<String>) -> u64 {
    match word {
        Some(word) => word.as_str().parse::<u64>().unwrap_or(1),
        None => 1,
    }
}

fn watch(alloc: Global, count: u64, dropped: u64) -> Result<usize, NoMemory> {
    let mut watches = Watches::new(alloc);
    let left = watch_with(alloc, &mut watches, count, dropped);
    drop(watches);
    left
}

fn watch_with(
    alloc: Global,
    watches: &mut Watches,
    count: u64,
    dropped: u64,
) -> Result<usize, NoMemory> {
    for number in 0..count {
        set(alloc, watches, number, count / WATCHERS)?;
    }
    for conn in 0..dropped {
        watches.drop_conn(conn);
    }
    Ok(watches.len())
}

// Sets the watch of this number, where there are so many paths.
fn set(alloc: Global, watches: &mut Watches, number: u64, paths: u64) -> Result<(), NoMemory> {
    let place = if paths == 0 { 0 } else { number % paths };
    let path = format!(in alloc; "/clickhouse/tables/{place}")?;
    watches.add(path.as_str(), Kind::Data, number / WATCHES)
}
