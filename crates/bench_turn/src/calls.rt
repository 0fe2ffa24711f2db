ghost use Rattle.std.specs.Prelude.{◌≡◌};
ghost use Rattle.kp_turn.specs.TurnSeats.{IsSeatOf};

use crate::counter::Counter;
use anyhow::{Result, anyhow};
use kp_turn::{Turn, TurnSeat};
use std::alloc::Global;
use std::sync::Wait;
use std::thread;
use std::thread::Threads;

fn call<R: Wait>(rt: &R, turn: &Turn<Counter>, seat: &mut TurnSeat<Counter>, calls: u64)
    requires { IsSeatOf turn.now seat.old }
{
    for k in 0..calls {
        let _ = turn.with(rt, seat, k);
    }
}

/// Makes the calls of all threads, and counts the events.
pub fn total<R: Threads + Wait + Sync>(
    rt: &R,
    alloc: Global,
    counter: Counter,
    threads: usize,
    calls: u64,
) -> Result<u64>
    requires { counter.calls ≡ 0 }
{
    let Ok((turn, mut first)) = Turn::new(alloc, counter) else {
        return Err(anyhow!("no memory for the turn"));
    };
    let mut seats = Vec::with_capacity(alloc, threads)?;
    for _ in 0..threads {
        seats.push(turn.split(&mut first))?;
    }
    let shared = &turn;
    thread::for_each_mut(
        rt,
        seats.as_mut_slice(),
        threads.max(1),
        &|_, seat: &mut TurnSeat<Counter>|
            requires { IsSeatOf shared.now seat.old }
        { call(rt, shared, seat, calls) },
    );
    Ok(turn.count(&mut first))
}
