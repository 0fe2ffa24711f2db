// Calls a counter under a turn from many threads, to be timed.
//
// Its words are the number of threads, the calls of each thread, and how often a step mixes a word. With a fourth word it prints
// the time that the calls took.
#![tactic(auto)]

mod calls;
mod counter;

use crate::counter::Counter;
use anyhow::Result;
use std::env;
use std::time::Instant;

fn main(rt: HostRuntime) -> Result<()> {
    let mut words = env::args(&rt)?;
    let _ = words.next();
    let threads = number(words.next());
    let calls = number(words.next());
    let work = number(words.next());
    let timed = words.next().is_some();
    let start = Instant::now(&rt)?;
    let total = calls::total(&rt, rt.alloc(), Counter::new(work), threads as usize, calls)?;
    let took = start.elapsed(&rt)?;
    println!(rt; "threads {threads} calls {calls} work {work}: {total}")?;
    if timed {
        println!(rt; "{}", took.as_micros())?;
    }
    Ok(())
}

fn number(word: Option<String>) -> u64 {
    word.and_then(|word| word.as_str().parse::<u64>().ok())
        .unwrap_or(1)
}
