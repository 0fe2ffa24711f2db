//! The law of the nodes' world. The contract of each function is a law; the functions do nothing.

ghost use Rattle.kp_cluster.specs.Crossing.{AnswersKeepEarlier, AnswersKeepLater};
ghost use Rattle.kp_cluster.specs.Laws.{HasLongest, OneList, StatesFold, WritesCount};
ghost use Rattle.kp_cluster.specs.WorldRuns.{EntryIsApplied, ImageIsTaken};

use kp_world::writes_act_once;

/// Whatever happens to a cluster of any number of members, with messages that are lost, repeated and reordered, and with
/// members that stop behind any record of a step and start again: their trees are one.
///
/// `one_list`: of what any two members have applied, at one moment and at any later one, one begins the other. `longest`:
/// what some member has applied at some moment is begun by all that any member has applied at any moment. `folds`:
/// the committed state of each node that runs is the empty tree behind what its member has applied, and its uncommitted
/// state that behind the unapplied entries of its log too. `counted`: of each session and epoch, the writes that act among
/// what a member has applied are numbered 1, 2, 3 and so on, each once. `later`, `earlier`: no answer of an older epoch of a
/// session shows an index above that of a newer attach of it, and none of the newer epoch shows one below it: of the
/// attaches that any member has applied at any moment behind the answer, and at any moment before it.
pub fn one_tree<I>()
    ensures one_list { OneList I }
    ensures longest { HasLongest I }
    ensures folds { StatesFold I }
    ensures counted { WritesCount I }
    ensures later { AnswersKeepLater I }
    ensures earlier { AnswersKeepEarlier I }
{
    writes_act_once();
}

/// What may happen: runs of three members, so that the law is of something.
///
/// `applied`: a member is elected, and its entry is applied by it and by another while the third lags. `installed`: the
/// third takes an image, stops and starts again.
pub fn worlds_of_three()
    ensures applied { EntryIsApplied }
    ensures installed { ImageIsTaken }
{}
