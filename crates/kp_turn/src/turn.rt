// The lock: a table of two words, the count of the events and the turn, and one slot, which holds the value.
ghost use Rattle.std.specs.Prelude.{◌≡◌, ◌<◌, ◌^◌, ◌+◌, ◌≤◌, IsTrue, [], ◌++◌, ◌∷◌, length, IfOk, OnOk, MatchResult};
ghost use mathlib.Core.Option.{some};
ghost use Rattle.kp_turn.specs.History.{Runs};
ghost use Rattle.kp_turn.specs.Refusals.{Refuses};
ghost use Rattle.kp_turn.specs.TurnMoves.{HasValue, HasStepped, IsOut, SparesEvent, TakesEvent, WaitsForTurn};
ghost use Rattle.kp_turn.specs.TurnPlays.{Carries, GetsTurn, given_up};
ghost use Rattle.kp_turn.specs.TurnView.{Adds, IsFull, SeesMore, WaitsOnly, first_view, own, split_off, with_met, with_split};

use crate::NoMemory;
use crate::rule::{Ask, GiveUp, LoadCount, OneHistory, RaiseCount, SplitOff};
use crate::storied::Storied;
use crate::view::{TurnSlot, TurnView};
use atomic_table::{Refused as NoTable, Seat, Table, TableRule};
use std::alloc::{AllocError, Global};
use std::snapshot::Snapshot;
use std::sync::Wait;

/// The word that holds the number of events in the history.
const COUNT: usize = 0;

/// The word that holds `FREE`, `TAKEN` or `AWAITED`.
const TURN: usize = 1;

/// The only slot.
const VALUE: usize = 0;

/// No seat has the turn.
const FREE: u64 = 0;

/// A seat has the turn.
const TAKEN: u64 = 1;

/// A seat has the turn, and a thread may sleep until the word changes.
const AWAITED: u64 = 2;

/// The most events that a history can have.
const MOST_EVENTS: u64 = 1 << 62;

/// What a thread calls its turn with. It has no bytes. A thread that shares a turn gets a seat of its own by `split`.
pub type TurnSeat<T> = Seat<
    TurnSlot<T, <T as Storied>::Event, <T as Storied>::Said>,
    TurnView<T, <T as Storied>::Event, <T as Storied>::Said>,
>;

/// A table of two words and one slot. `Turn` is this type at the types of a `Storied` value. It is generic in them, since a
/// struct whose fields name the value's `Event` is not shown to be shared safely.
#[derive(Drop)]
pub struct TurnOf<S, V, K, P: TableRule<S, V, K>> {
    table: Table<S, V, K, P, Global>,
    ghost sized: { (table.shared.table_id.words ≡ 2) × (table.shared.table_id.slots ≡ 1) },
}

/// A value that many threads call, one at a time. The events of all calls make one history, and each call is answered by the
/// value after all events before its own.
pub type Turn<T> = TurnOf<
    TurnSlot<T, <T as Storied>::Event, <T as Storied>::Said>,
    TurnView<T, <T as Storied>::Event, <T as Storied>::Said>,
    Snapshot<T>,
    OneHistory<T>,
>;

/// The history has 2^62 events, and takes no more.
#[derive(Debug, Drop)]
pub struct Worn;

/// Why an event was not taken. It comes back.
#[derive(Debug, Drop)]
pub enum Refused<E> {
    /// Another seat had the turn.
    Busy(E),

    /// The history has 2^62 events, and takes no more.
    Worn(E),
}

impl<T: Storied> Turn<T> {
    ghost use Rattle.kp_turn.specs.TurnSeats.{IsSeatOf, view};

    /// Makes a turn of a value that has taken no event yet, and its first seat. Where memory runs out the value is dropped.
    pub fn new(alloc: Global, value: T) -> Result<(Turn<T>, TurnSeat<T>), NoMemory>
    where
        T: Drop,
        requires { T.events value ≡ 0 }
        ensures { IfOk result (λ t. IsSeatOf t.0 t.1 × (view t.1 ≡ first_view value)) }
    {
        let start = Snapshot::of(&value);
        let mut slots = Vec::with_capacity(alloc, 1)?;
        slots.push_reserved(TurnSlot { value, last: None });
        match Table::new(alloc, &[0, FREE], slots, &start) {
            Ok((table, seat)) => Ok((TurnOf { table }, seat)),
            Err(NoTable { slots: _ }) => Err(AllocError),
        }
    }

    /// The number of events in the history at this moment, all of which the seat has seen from then on. It waits for nobody.
    pub fn count(&self, seat: &mut TurnSeat<T>) -> u64
        requires seat { IsSeatOf self.now seat.old }
        ensures seat { IsSeatOf self.now seat.new }
        ensures view { SeesMore (view seat.old) (view seat.new) }
        ensures count { (result ≡ length (view seat.new).seen) × (result ≤ 2 ^ 62) }
        ensures history { Runs T.steps (view seat.new).start (view seat.new).seen }
        ensures own { own (view seat.new) ≡ own (view seat.old) }
    {
        self.table.shared.load::<LoadCount>(seat, COUNT)
    }

    /// A seat for another thread, which has seen as much as this one and has no event of its own. It takes no memory.
    pub fn split(&self, seat: &mut TurnSeat<T>) -> TurnSeat<T>
        requires seat { IsSeatOf self.now seat.old }
        ensures old { IsSeatOf self.now seat.new × (view seat.new ≡ with_split (view seat.old)) }
        ensures new { IsSeatOf self.now result × (view result ≡ split_off (view seat.old)) }
    {
        self.table.shared.split_seat::<SplitOff>(seat)
    }

    /// Waits for the turn, asleep, and takes the event. Where the history is full already it doesn't wait.
    pub fn with<R: Wait>(
        &self,
        rt: &R,
        seat: &mut TurnSeat<T>,
        event: T::Event,
    ) -> Result<T::Said, Worn>
        requires seat { IsSeatOf self.now seat.old }
        ensures seat { IsSeatOf self.now seat.new }
        ensures adds { MatchResult result (λ said. Adds T.steps (view seat.old) (view seat.new) event said) (λ _. WaitsOnly (view seat.old) (view seat.new) × IsFull (view seat.new)) }
        ensures own { MatchResult result (λ said. own (view seat.new) ≡ own (view seat.old) ++ some (event, said) ∷ []) (λ _. own (view seat.new) ≡ own (view seat.old)) }
    {
        if self.count(seat) >= MOST_EVENTS {
            return Err(Worn);
        }
        self.wait(rt, seat);
        match self.take_event(seat, event) {
            Ok(said) => Ok(said),
            Err(_) => Err(Worn),
        }
    }

    /// Takes the event if the turn is free. It asks once and waits for nobody.
    pub fn try_with(
        &self,
        seat: &mut TurnSeat<T>,
        event: T::Event,
    ) -> Result<T::Said, Refused<T::Event>>
        requires seat { IsSeatOf self.now seat.old }
        ensures seat { IsSeatOf self.now seat.new }
        ensures adds { MatchResult result (λ said. Adds T.steps (view seat.old) (view seat.new) event said) (λ refused. Refuses (view seat.old) (view seat.new) event refused) }
        ensures met { OnOk result ((view seat.new).met ≡ (view seat.old).met) }
        ensures own { MatchResult result (λ said. own (view seat.new) ≡ own (view seat.old) ++ some (event, said) ∷ []) (λ _. own (view seat.new) ≡ own (view seat.old)) }
    {
        if self.ask(seat) != FREE {
            return Err(Refused::Busy(event));
        }
        match self.take_event(seat, event) {
            Ok(said) => Ok(said),
            Err(event) => Err(Refused::Worn(event)),
        }
    }

    // Asks for the turn. The answer is `FREE` exactly where the seat has it now. It leaves the word as it is where another seat
    // has the turn, so that the mark of a sleeper stays.
    fn ask(&self, seat: &mut TurnSeat<T>) -> u64
        requires seat { IsSeatOf self.now seat.old }
        ensures seat { seat.new.table_id ≡ seat.old.table_id }
        ensures has { result ≡ 0 → HasValue T.events T.steps seat.new.me × GetsTurn seat.old.me.0 seat.new.me.0 }
        ensures taken { 0 < result → seat.new.me ≡ (with_met seat.old.me.0, []) }
    {
        self.table
            .shared
            .compare_exchange::<Ask>(seat, TURN, FREE, TAKEN)
    }

    // Asks for the turn, and marks that a thread may sleep. So whoever gives the turn up wakes one.
    fn ask_to_sleep(&self, seat: &mut TurnSeat<T>) -> u64
        requires seat { IsSeatOf self.now seat.old }
        ensures seat { seat.new.table_id ≡ seat.old.table_id }
        ensures has { result ≡ 0 → HasValue T.events T.steps seat.new.me × GetsTurn seat.old.me.0 seat.new.me.0 }
        ensures taken { 0 < result → seat.new.me ≡ (with_met seat.old.me.0, []) }
    {
        self.table.shared.swap::<Ask>(seat, TURN, AWAITED)
    }

    // Asks for the turn and sleeps in between, until the seat has it. After a sleep it marks the word again, since other threads
    // may still sleep.
    fn wait<R: Wait>(&self, rt: &R, seat: &mut TurnSeat<T>)
        requires seat { IsSeatOf self.now seat.old }
        ensures seat { seat.new.table_id ≡ seat.old.table_id }
        ensures has { HasValue T.events T.steps seat.new.me × WaitsForTurn seat.old.me.0 seat.new.me.0 }
    {
        if self.ask(seat) == FREE {
            return;
        }
        for _ in rt.forever() {
            if self.ask_to_sleep(seat) == FREE {
                return;
            }
            self.table.shared.park(rt, TURN, AWAITED as u32);
        }
        unreachable!()
    }

    // Takes the event in the seat's turn, and gives the turn up. The event comes back where the history is full.
    fn take_event(&self, seat: &mut TurnSeat<T>, event: T::Event) -> Result<T::Said, T::Event>
        requires seat { seat.old.table_id ≡ self.now.table.shared.table_id }
        requires has { HasValue T.events T.steps seat.old.me }
        ensures seat { (seat.new.table_id ≡ self.now.table.shared.table_id) × IsOut seat.new.me }
        ensures event { MatchResult result (λ said. TakesEvent T.steps seat.old.me.0 seat.new.me.0 event said) (λ back. (back ≡ event) × SparesEvent seat.old.me.0 seat.new.me.0) }
    {
        let count = self.table.shared.load::<LoadCount>(seat, COUNT);
        if count >= MOST_EVENTS {
            self.give_up(seat);
            return Err(event);
        }
        let said = self.step(seat, event);
        self.table.shared.fetch_add::<RaiseCount>(seat, COUNT, 1);
        self.give_up(seat);
        Ok(said)
    }

    // The value takes the event, which the slot tells from then on, and the history does not have yet.
    fn step(&self, seat: &mut TurnSeat<T>, event: T::Event) -> T::Said
        requires seat { seat.old.table_id ≡ self.now.table.shared.table_id }
        requires has { HasValue T.events T.steps seat.old.me × (length seat.old.me.0.seen < 2 ^ 62) }
        ensures seat { seat.new.table_id ≡ seat.old.table_id }
        ensures view { seat.new.me.0 ≡ seat.old.me.0 }
        ensures stepped { HasStepped T.events T.steps seat.new.me event result }
    {
        let told = Snapshot::of(&event);
        let slot = seat.slot_mut(&self.table.shared, VALUE);
        let said = slot.value.step(event);
        slot.last = Some((told, Snapshot::of(&said)));
        said
    }

    // Gives the turn and the value up, and wakes a thread that may sleep.
    fn give_up(&self, seat: &mut TurnSeat<T>)
        requires seat { seat.old.table_id ≡ self.now.table.shared.table_id }
        requires has { IsTrue seat.old.me.0.has_turn × Carries T.events T.steps seat.old.me }
        ensures seat { seat.new.table_id ≡ seat.old.table_id }
        ensures out { seat.new.me ≡ (given_up seat.old.me.0, []) }
    {
        if self.table.shared.swap::<GiveUp>(seat, TURN, FREE) == AWAITED {
            self.table.shared.wake_one(TURN);
        }
    }
}
