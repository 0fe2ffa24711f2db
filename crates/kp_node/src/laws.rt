//! What the definitions of a node promise to its code. The contract of each function is a law; the function does nothing.

ghost use Rattle.kp_node.specs.Hearing.{HearsOn};
ghost use Rattle.kp_node.specs.Resting.{OneIsAll};
ghost use Rattle.kp_node.specs.Serving.{PartsServe, GivenUpServes};
ghost use Rattle.kp_node.specs.Telling.{FoundIsKept};
ghost use Rattle.kp_node.specs.Touching.{OthersStay, OneIsChanged, NoneIsChanged};

/// Where every connection but one rests, settling that one is settling all: so a commit settles the one connection whose
/// write it applied, however many there are.
pub fn one_is_all()
    ensures { OneIsAll }
{}

/// The answer that is made for a write before its entry is applied is the one that it keeps behind it.
pub fn found_is_kept()
    ensures { FoundIsKept }
{}

/// What was read of a live connection may be served in two parts: its requests join, and what they hand in is proposed;
/// then what can be answered is. `whole`: both parts are the definition's one. `given_up`: where the proposal finds no
/// memory, the connection is given up as if its first request had found none.
pub fn parts_serve()
    ensures whole { PartsServe }
    ensures given_up { GivenUpServes }
{}

/// An applied entry changes the connections that it concerns, which are those of its session, and no others. `others`: a
/// connection of another session stays as it is. `one` and `none`: where a change of all connections leaves all but one,
/// or all, as they are, it is the change of that one, or none.
pub fn one_is_changed()
    ensures others { OthersStay }
    ensures one { OneIsChanged }
    ensures none { NoneIsChanged }
{}

/// A connection that hears of events one after another is, by some luck, what the definition makes of it with all of
/// their packets.
pub fn hears_on()
    ensures { HearsOn }
{}
