//! Threads that meet at one turn, and a word that tells them to stop.
ghost use Rattle.std.specs.Prelude.{All, IfOk};
ghost use Rattle.kp_turn.specs.TurnSeats.{IsSeatOf};

mod probes;
mod values;

use crate::turn::values::{Clock, Flags, Looker, Tally, Ticking, tick_twice, try_twice};
use kp_turn::{Refused, StopWord, Turn, TurnSeat};
use std::alloc::{AllocError, Global};
use std::sync::{Arc, Wait};
use std::test::Fail;
use std::thread;

const THREADS: usize = 32;

const CALLS: usize = 1_000;

// A seat for each thread.
fn seats(
    alloc: Global,
    turn: &Turn<Tally>,
    first: &mut TurnSeat<Tally>,
) -> Result<Vec<TurnSeat<Tally>>, AllocError>
    requires { IsSeatOf turn.now first.old }
    ensures first { IsSeatOf turn.now first.new }
    ensures seats { IfOk result (λ seats. All (IsSeatOf turn.now) seats.items) }
{
    let mut seats = Vec::with_capacity(alloc, THREADS)?;
    for _ in 0..THREADS {
        seats.push(turn.split(first))?;
    }
    Ok(seats)
}

// Makes all calls of one thread, and gives their answers.
fn call<R: Wait>(rt: &R, alloc: Global, turn: &Turn<Tally>, mut seat: TurnSeat<Tally>) -> Vec<u64>
    requires { IsSeatOf turn.now seat }
{
    let mut answers = Vec::new(alloc);
    for k in 0..CALLS {
        if let Ok(said) = turn.with(rt, &mut seat, k as u64) {
            let _ = answers.push(said);
        }
    }
    answers
}

// The answers to all threads, the least first.
fn in_order(alloc: Global, answers: &[Vec<u64>]) -> Result<Vec<u64>, AllocError> {
    let mut all = Vec::new(alloc);
    for some in answers {
        all.extend_from_slice(some.as_slice())?;
    }
    all.sort()?;
    Ok(all)
}

#[test]
fn the_answers_to_32_threads_are_all_different(rt: HostRuntime) -> Result<(), Fail> {
    let (turn, mut first) = Turn::new(rt.alloc(), Tally::new())?;
    let seats = seats(rt.alloc(), &turn, &mut first)?;
    let shared = &turn;
    let answers = thread::map_vec(
        &rt,
        seats,
        &|seat: TurnSeat<Tally>| -> Vec<u64>
            requires { IsSeatOf shared.now seat }
        { call(&rt, rt.alloc(), shared, seat) },
    )?;
    let all = in_order(rt.alloc(), answers.as_slice())?;
    assert!(rt; turn.count(&mut first) == 32_000);
    assert!(rt; all.iter().copied().eq(0..32_000));
    Ok(())
}

#[test]
fn a_try_is_busy_while_a_step_looks(rt: HostRuntime) -> Result<(), Fail> {
    let flags = Arc::new(rt.alloc(), Flags::new())?;
    let (turn, mut one) = Turn::new(rt.alloc(), Looker::new(Arc::try_clone(&flags)?))?;
    let mut two = turn.split(&mut one);
    let (first, tried) = thread::join(
        &rt,
        || turn.with(&rt, &mut one, 5),
        || -> (Option<u64>, Option<u64>)
            requires { IsSeatOf turn two }
        { try_twice(&rt, &turn, &mut two, &flags) },
    );
    assert!(rt; first.ok() == Some(0) && tried == (Some(77), Some(1)));
    Ok(())
}

#[test]
fn a_generic_value_takes_events(rt: HostRuntime) -> Result<(), Fail> {
    let (turn, mut seat) = Turn::new(rt.alloc(), Ticking::new(Clock::new()))?;
    assert!(rt; tick_twice(&rt, &turn, &mut seat).ok() == Some((0, 1)));
    let mut other = turn.split(&mut seat);
    match turn.try_with(&mut other, ()) {
        Ok(said) => assert!(rt; said == 2),
        Err(Refused::Busy(())) | Err(Refused::Worn(())) => return Err("refused")?,
    }
    assert!(rt; turn.count(&mut seat) == 3);
    Ok(())
}

#[test]
fn a_stop_word_is_found_set_by_another_seat(rt: HostRuntime) -> Result<(), Fail> {
    let (word, mut one) = StopWord::new(rt.alloc())?;
    let mut two = word.split(&mut one);
    assert!(rt; !word.load(&mut one) && !word.load(&mut two));
    word.set(&mut two);
    assert!(rt; word.load(&mut one) && word.load(&mut two));
    Ok(())
}
