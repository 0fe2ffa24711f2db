// The rule of the table of a turn, and what each kind of step tells the seat that makes it. The steps are types without
// values, for the proofs alone.
ghost use Rattle.kp_turn.specs.TurnPlays.{asked, loaded, raised, gave_up};
ghost use Rattle.kp_turn.specs.TurnRule.{IsOneHistory};
ghost use Rattle.kp_turn.specs.TurnView.{first_view, split_off, with_split};

use crate::storied::Storied;
use crate::view::{TurnSlot, TurnView};
use atomic_table::{Play, Split, TableRule};
use std::marker::PhantomData;
use std::snapshot::Snapshot;

/// The rule of the table: one history, of which each seat knows a beginning, leads to the value.
pub struct OneHistory<T> {
    value: PhantomData<T>,
}

impl<T: Storied> TableRule<
    TurnSlot<T, T::Event, T::Said>,
    TurnView<T, T::Event, T::Said>,
    Snapshot<T>,
> for OneHistory<T> {
    ghost holds = { λ key. IsOneHistory T.events T.steps key.value };

    ghost first = { λ key. first_view key.value };
}

/// Asks for the turn.
pub struct Ask;

impl<T: Storied> Play<TurnSlot<T, T::Event, T::Said>, TurnView<T, T::Event, T::Said>> for Ask {
    ghost then = { λ step. asked T.events T.steps };
}

/// Loads the count of the events.
pub struct LoadCount;

impl<T: Storied> Play<TurnSlot<T, T::Event, T::Said>, TurnView<T, T::Event, T::Said>>
    for LoadCount {
    ghost then = { λ step. loaded T.steps };
}

/// Raises the count, by which the last event joins the history.
pub struct RaiseCount;

impl<T, E, A> Play<TurnSlot<T, E, A>, TurnView<T, E, A>> for RaiseCount {
    ghost then = { λ step. raised };
}

/// Gives the turn up.
pub struct GiveUp;

impl<T, E, A> Play<TurnSlot<T, E, A>, TurnView<T, E, A>> for GiveUp {
    ghost then = { λ step. gave_up };
}

/// Splits a seat off.
pub struct SplitOff;

impl<T, E, A> Split<TurnView<T, E, A>> for SplitOff {
    ghost left = { with_split };

    ghost right = { split_off };
}
