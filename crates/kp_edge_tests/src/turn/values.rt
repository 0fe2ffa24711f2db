// Values that take events: one that contracts see as a number, one whose step looks at a flag, and a generic one.
ghost use Rattle.std.specs.Prelude.{◌≡◌, ℕ, ◌+◌, ◌*◌, ◌<◌, ◌^◌, [], ◌∷◌, ◌++◌, OnOk, IfOk};
ghost use mathlib.Core.Option.{some};
ghost use Rattle.kp_turn.specs.TurnSeats.{IsSeatOf, view};
ghost use Rattle.kp_turn.specs.TurnView.{own};

use kp_turn::{Refused, Storied, Turn, TurnSeat, Worn};
use std::alloc::Global;
use std::marker::Model;
use std::sync::atomic::{AtomicBool, Ordering};
use std::sync::{Arc, Wait};
use std::thread;

/// A count, which contracts see as a number. Its step lets other threads run, so that they meet the turn taken.
#[derive(Drop)]
pub struct Tally {
    taken: u64,
    twice: u64,
}

impl Model for Tally {
    ghost Value = { ℕ };

    ghost view = { λ tally. tally.taken };

    ghost invariant = { λ tally. tally.twice ≡ 2 * tally.taken };
}

impl Tally {
    pub fn new() -> Tally
        ensures { result ≡ 0 }
    {
        Tally { taken: 0, twice: 0 }
    }
}

impl Storied for Tally {
    type Event = u64;

    type Said = u64;

    ghost events = { λ tally. tally };

    ghost steps = { λ before event said after. (said ≡ before) × (after ≡ before + 1) };

    fn step(&mut self, _event: u64) -> u64 {
        thread::yield_now();
        let said = self.taken;
        self.taken += 1;
        self.twice += 2;
        said
    }
}

/// What two threads tell each other: that the step has begun, and that it may end.
#[derive(Drop)]
pub struct Flags {
    begun: AtomicBool,
    may_end: AtomicBool,
}

impl Flags {
    pub fn new() -> Flags {
        Flags {
            begun: AtomicBool::new(false),
            may_end: AtomicBool::new(false),
        }
    }
}

/// A count whose step looks at a flag, at most 1,000,000 times.
#[derive(Drop)]
pub struct Looker {
    taken: u64,
    flags: Arc<Flags, Global>,
}

impl Looker {
    pub fn new(flags: Arc<Flags, Global>) -> Looker
        ensures { result.taken ≡ 0 }
    {
        Looker { taken: 0, flags }
    }
}

impl Storied for Looker {
    type Event = u64;

    type Said = u64;

    ghost events = { λ looker. looker.taken };

    ghost steps = { λ before event said after. said ≡ before.taken };

    fn step(&mut self, _event: u64) -> u64 {
        self.flags.begun.store(true, Ordering::SeqCst);
        for _ in 0..1_000_000u32 {
            if self.flags.may_end.load(Ordering::SeqCst) {
                break;
            }
            thread::yield_now();
        }
        let said = self.taken;
        self.taken += 1;
        said
    }
}

/// Tries with the event 77 while another thread's step looks at the flag, and then with 78 until the turn is free. The answers are
/// the event that came back, and what the step said.
pub fn try_twice<R: Wait>(
    rt: &R,
    turn: &Turn<Looker>,
    seat: &mut TurnSeat<Looker>,
    flags: &Flags,
) -> (Option<u64>, Option<u64>)
    requires { IsSeatOf turn.now seat.old }
{
    for _ in rt.forever() {
        if flags.begun.load(Ordering::SeqCst) {
            break;
        }
        thread::yield_now();
    }
    let back = match turn.try_with(seat, 77) {
        Err(Refused::Busy(event)) => Some(event),
        Ok(_) | Err(Refused::Worn(_)) => None,
    };
    flags.may_end.store(true, Ordering::SeqCst);
    for _ in rt.forever() {
        match turn.try_with(seat, 78) {
            Ok(said) => return (back, Some(said)),
            Err(Refused::Busy(_)) => thread::yield_now(),
            Err(Refused::Worn(_)) => break,
        }
    }
    (back, None)
}

/// What counts its ticks.
pub trait Ticks {
    ghost ticks: { Self → ℕ };

    fn tick(&mut self) -> u64
        requires { ticks self.old < 2 ^ 62 }
        ensures answer { result ≡ ticks self.old }
        ensures count { ticks self.new ≡ ticks self.old + 1 };
}

/// The simplest clock.
#[derive(Drop)]
pub struct Clock {
    ticks: u64,
}

impl Clock {
    pub fn new() -> Clock
        ensures { result.ticks ≡ 0 }
    {
        Clock { ticks: 0 }
    }
}

impl Ticks for Clock {
    ghost ticks = { λ clock. clock.ticks };

    fn tick(&mut self) -> u64 {
        let said = self.ticks;
        self.ticks += 1;
        said
    }
}

/// Anything that ticks, as a value that takes events.
#[derive(Drop)]
pub struct Ticking<C> {
    inner: C,
}

impl<C> Ticking<C> {
    pub fn new(inner: C) -> Ticking<C>
        ensures { result.inner ≡ inner }
    {
        Ticking { inner }
    }
}

impl<C: Ticks> Storied for Ticking<C> {
    type Event = ();

    type Said = u64;

    ghost events = { λ ticking. C.ticks ticking.inner };

    ghost steps = { λ before event said after. (said ≡ C.ticks before.inner) × (C.ticks after.inner ≡ C.ticks before.inner + 1) };

    fn step(&mut self, _event: ()) -> u64 {
        self.inner.tick()
    }
}

/// Two ticks. Other threads may tick in between.
pub fn tick_twice<C: Ticks, R: Wait>(
    rt: &R,
    turn: &Turn<Ticking<C>>,
    seat: &mut TurnSeat<Ticking<C>>,
) -> Result<(u64, u64), Worn>
    requires { IsSeatOf turn.now seat.old }
    ensures seat { IsSeatOf turn.now seat.new }
    ensures own { IfOk result (λ said. own (view seat.new) ≡ own (view seat.old) ++ some (tt, said.0) ∷ [] ++ some (tt, said.1) ∷ []) }
{
    let first = turn.with(rt, seat, ())?;
    let second = turn.with(rt, seat, ())?;
    Ok((first, second))
}
