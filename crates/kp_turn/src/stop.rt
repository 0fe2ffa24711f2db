// The word that tells the threads of a node to stop: a table of one word.
ghost use Rattle.std.specs.Prelude.{◌≡◌, ◌+◌, ◌<◌, IsTrue, IfOk};
ghost use Rattle.kp_turn.specs.StopRule.{IsStopWord, no_stop, read, was_set, with_read, with_set, with_stop_split};

use crate::NoMemory;
use atomic_table::{Play, Seat, Split, Table, TableRule};
use std::alloc::Global;

/// The only word of the table.
const STOP: usize = 0;

/// No seat has set the word.
const GO_ON: u64 = 0;

/// Some seat has set the word. It stays set.
const SET: u64 = 1;

/// What a seat knows of its stop word, for contracts alone: no value of it is ever made.
pub struct StopView {
    /// How often the seat has set the word.
    pub sets: u64,

    /// How often the seat has loaded the word and found it set.
    pub reads: u64,

    /// How many seats were split off this one.
    pub splits: u64,
}

/// The rule of the table: the word is set exactly where some seat has set it.
pub struct StopRule;

impl TableRule<(), StopView, ()> for StopRule {
    ghost holds = { λ key. IsStopWord };

    ghost first = { λ key. no_stop };
}

struct Load;

impl Play<(), StopView> for Load {
    ghost then = { λ step. read };
}

struct Set;

impl Play<(), StopView> for Set {
    ghost then = { λ step. was_set };
}

struct SplitOff;

impl Split<StopView> for SplitOff {
    ghost left = { with_stop_split };

    ghost right = { λ view. no_stop };
}

/// What a thread calls its stop word with. It has no bytes.
pub type StopSeat = Seat<(), StopView>;

/// A word that begins clear, and that any seat can set for good.
#[derive(Drop)]
pub struct StopWord {
    table: Table<(), StopView, (), StopRule, Global>,
    ghost sized: { table.shared.table_id.words ≡ 1 },
}

impl StopWord {
    ghost use Rattle.kp_turn.specs.StopSeats.{IsStopSeatOf, stop_view};

    /// Makes a stop word that no seat has set, and its first seat.
    pub fn new(alloc: Global) -> Result<(StopWord, StopSeat), NoMemory>
        ensures { IfOk result (λ t. IsStopSeatOf t.0 t.1 × (stop_view t.1 ≡ no_stop)) }
    {
        let (table, seat) = Table::of_words(alloc, &[GO_ON], &())?;
        Ok((StopWord { table }, seat))
    }

    /// Whether the word is set. Once this seat has set it, or found it set, it is. It waits for nobody.
    pub fn load(&self, seat: &mut StopSeat) -> bool
        requires seat { IsStopSeatOf self.now seat.old }
        ensures seat { IsStopSeatOf self.now seat.new }
        ensures view { stop_view seat.new ≡ with_read result (stop_view seat.old) }
        ensures stays_set { 0 < (stop_view seat.old).sets + (stop_view seat.old).reads → IsTrue result }
    {
        self.table.shared.load::<Load>(seat, STOP) == SET
    }

    /// Sets the word.
    pub fn set(&self, seat: &mut StopSeat)
        requires seat { IsStopSeatOf self.now seat.old }
        ensures seat { IsStopSeatOf self.now seat.new }
        ensures view { stop_view seat.new ≡ with_set (stop_view seat.old) }
    {
        self.table.shared.store::<Set>(seat, STOP, SET);
    }

    /// A seat for another thread, which has neither set the word nor found it set. It takes no memory.
    pub fn split(&self, seat: &mut StopSeat) -> StopSeat
        requires seat { IsStopSeatOf self.now seat.old }
        ensures old { IsStopSeatOf self.now seat.new × (stop_view seat.new ≡ with_stop_split (stop_view seat.old)) }
        ensures new { IsStopSeatOf self.now result × (stop_view result ≡ no_stop) }
    {
        self.table.shared.split_seat::<SplitOff>(seat)
    }
}
