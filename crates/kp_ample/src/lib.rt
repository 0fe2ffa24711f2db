//! Steps of a node in which memory never runs out: what they make is a function of the node and the event.
#![tactic(auto)]

ghost use Rattle.kp_ample.specs.Ample.{AmpleGivesUpNone, AmpleRunsGiveUpNone, RunsAreAmple, StartedRunsAreAmple, StepsAreAlike, StepsAreAmple};

/// Of every node of which no connection was given up, and at every event. `ample`: a step that takes an append whole and
/// gives up no connection is the one in which nothing runs out, whatever was chosen. `alike`: so two such steps of one
/// node at one event are one.
pub fn steps_are_ample<I>()
    ensures ample { StepsAreAmple I }
    ensures alike { StepsAreAlike I }
{}

/// Of every node of which no connection was given up. `step`: at every event, the step in which nothing runs out takes an
/// append whole and gives up no connection, and behind it none was given up. `runs`: so does each step of a run in which
/// nothing runs out, and so it is behind the run.
pub fn ample_gives_up_none<I>()
    ensures step { AmpleGivesUpNone I }
    ensures runs { AmpleRunsGiveUpNone I }
{}

/// A run whose steps all take appends whole and give up no connection is the run of the same events in which nothing runs
/// out. `later`: from any moment on at which no connection was given up. `start`: from a start on.
pub fn runs_are_ample<I>()
    ensures later { RunsAreAmple I }
    ensures start { StartedRunsAreAmple I }
{}
