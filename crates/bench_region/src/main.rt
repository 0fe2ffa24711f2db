//! Strings that go round through a region: pushed at its back, looked at and popped at its front.
//! It is timed from outside, by bench/region.sh.
#![tactic(auto)]

use anyhow::Result;
use kp_region::{NoMemory, Region};
use std::alloc::Global;
use std::env;

fn main(rt: HostRuntime) -> Result<()> {
    let mut args = env::args(&rt)?;
    let _program = args.next();
    let rounds = number(args.next());
    let len = number(args.next());
    let waiting = number(args.next());
    let text = vec![in rt.alloc(); 7u8; len as usize]?;
    match go_round(rt.alloc(), rounds, &text, waiting) {
        Ok(sum) => println!(rt; "{rounds} strings of {len} bytes, sum {sum}")?,
        Err(_) => println!(rt; "no memory")?,
    }
    Ok(())
}

fn number(word: Option<String>) -> u64 {
    match word {
        Some(word) => word.as_str().parse::<u64>().unwrap_or(1),
        None => 1,
    }
}

// Pushes the text `rounds` times while `waiting` strings stay in the region, and sums up the lengths
// of the strings at the front.
fn go_round(alloc: Global, rounds: u64, text: &[u8], waiting: u64) -> Result<u64, NoMemory> {
    let mut region = Region::new(alloc);
    let mut sum: u64 = 0;
    for round in 0..rounds {
        region.reserve(1, text.len())?;
        region.push(text);
        if waiting <= round {
            sum = sum.wrapping_add(front_len(&region));
            region.pop_front();
        }
    }
    Ok(sum)
}

fn front_len(region: &Region) -> u64 {
    match region.get(region.first()) {
        Some(text) => text.len() as u64,
        None => 0,
    }
}
