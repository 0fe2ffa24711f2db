//! The law of the epochs of sessions. The contract of the function is the law; the function does nothing.

ghost use Rattle.kp_cluster.specs.Epochs.{EpochsGoOn, EpochsNeverFall, GoneForGood, StatesAreNumbered};

/// Along any list of entries, from a state whose sessions all have numbers that were given out: the epoch of a session
/// rises by one where an attach of it is applied that isn't refused, and nowhere else, and it never falls; and the number
/// of a session that is gone is never given out again.
///
/// `one`: what one entry does to the epoch of each session. `all`: of a list of entries. `gone`: of a session that is
/// gone. `numbered`: the empty state is such a state, and so is each that a replay makes of one.
pub fn epochs_rise_by_attaching()
    ensures one { EpochsGoOn }
    ensures all { EpochsNeverFall }
    ensures gone { GoneForGood }
    ensures numbered { StatesAreNumbered }
{}
