// What a seat knows, and what the slot of the table holds.
use std::collections::LinkedList;
use std::snapshot::Snapshot;

/// What a seat knows of its turn, for contracts alone: no value of it is ever made.
///
/// The history is the list of all events so far, each with its answer and the value after it.
pub struct TurnView<T, E, A> {
    /// The value before the first event.
    pub start: T,

    /// How the history begins, as far as the seat knows.
    pub seen: LinkedList<(E, A, T)>,

    /// The places in the history of the seat's own events, the first event of all having place 0.
    pub mine: LinkedList<u64>,

    /// How often the seat asked for the turn and found that another seat had it.
    pub met: u64,

    /// How many seats were split off this one.
    pub splits: u64,

    /// Whether the seat has the turn. Between two calls it never has.
    pub has_turn: bool,
}

/// What the slot of the table holds: the value, and for the proofs its last event with the answer.
pub struct TurnSlot<T, E, A> {
    pub value: T,

    /// These have no bytes.
    pub last: Option<(Snapshot<E>, Snapshot<A>)>,
}

impl<T: Drop, E, A> Drop for TurnSlot<T, E, A> {
    fn drop(self) {
        let Self { value, last } = self;
        drop(value);
        drop(last);
    }
}
