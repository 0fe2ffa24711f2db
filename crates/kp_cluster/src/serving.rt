//! The laws of live connections and their answers. The contract of each function is a law; the function does nothing.

ghost use Rattle.kp_cluster.specs.Epochs.{NoneCrosses, BeginningsShow};
ghost use Rattle.kp_cluster.specs.Serving.{ServingBegins, ServingGoesOn, ServingFromBefore, ServingInRuns, StartsOnOneList, StepsOnOneList};
ghost use Rattle.kp_cluster.specs.Serving.{AnswersAreOfTheirEpoch, AnswersAreShown, AnswersKeepToAttaches, ClosesEndConnections};

/// Each live connection of a node serves a session whose number was given out, in the epoch that the session has, or had
/// last where it is gone; and a session that lives has exactly this epoch, and is held by this connection.
///
/// `start`: of a node that was just started. `step`: each step keeps it so, with images of any type whose sessions have
/// numbers that were given out. `runs`: so in every run. `before`: the entries may be counted from any earlier state on.
/// `starts`, `steps`: the same of a member whose entries are counted from the empty state on, and whose images each stand
/// for such a list.
pub fn live_connections_are_current<I>()
    ensures start { ServingBegins }
    ensures step { ServingGoesOn I }
    ensures runs { ServingInRuns I }
    ensures before { ServingFromBefore }
    ensures starts { StartsOnOneList }
    ensures steps { StepsOnOneList I }
{}

/// Each answer to a live connection shows the index of the committed state on which the step answers, and its epoch is
/// the one that its session has there, or had last where it is gone; of an answer -118 it is the one before the entry.
///
/// `state`: of each step of a node as above. `list`: the same where its entries are counted from the empty state on.
pub fn answers_are_of_their_epoch<I>()
    ensures state { AnswersAreOfTheirEpoch I }
    ensures list { AnswersAreShown I }
{}

/// No answer of an older epoch of a session shows an index above that of a newer attach of it, and none of the newer epoch
/// shows one below it.
///
/// `order`: on any list of entries, of what is shown there. `longer`: what is shown on the beginning of a list is shown on
/// the whole. `told`: so it is of each answer of each step of a node, on any list that begins with the entries that the
/// node has applied then, or begins them; so members whose entries begin one list keep to each other's attaches.
pub fn no_answer_crosses_an_attach<I>()
    ensures order { NoneCrosses }
    ensures longer { BeginningsShow }
    ensures told { AnswersKeepToAttaches I }
{}

/// At every step of every node: an entry that closes a session and isn't stale ends each connection that serves the
/// session in the entry's epoch and awaits a close under the entry's number.
pub fn closes_end_their_connections<I>()
    ensures { ClosesEndConnections I }
{}
