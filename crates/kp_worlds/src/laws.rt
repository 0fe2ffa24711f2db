//! The laws of scripts. The contract of each function is a law; the function does nothing.

ghost use Rattle.kp_worlds.specs.OneTree.{ScriptsAreOneTree};
ghost use Rattle.kp_worlds.specs.Forwards.{ForwardsAreOfClients};
ghost use Rattle.kp_worlds.specs.Order.{MessagesAscend};
ghost use Rattle.kp_worlds.specs.Standing.{LinesAreEvents, ScriptsAreWorlds};

use kp_cluster::one_tree;
use kp_snapshot::Image;

/// What lines leave on a stage stands for what events make of the world of nodes for which the stage stood before:
/// every member keeps the same in its home, every node is the same, where it holds nothing back, and behind the steps
/// that it holds back else; and every message was sent.
///
/// `lines`: of lines on any such stage. `scripts`: of whole scripts, from blank homes on.
pub fn scripts_are_worlds()
    ensures lines { LinesAreEvents }
    ensures scripts { ScriptsAreWorlds }
{}

/// So the members of a script are one tree: of what any two of them have applied, at one moment and at the same or any
/// later one, one begins the other; the committed state of each node is the empty tree behind what its member has
/// applied, and its uncommitted state that behind the unapplied entries of its log too.
pub fn scripts_are_one_tree()
    ensures { ScriptsAreOneTree }
{
    scripts_are_worlds();
    one_tree::<Image>();
}

/// The messages of each step of each node are ascending by their receivers, so they are numbered and printed in this
/// order.
pub fn messages_ascend<I>()
    ensures { MessagesAscend I }
{}

/// What a member sends on to its leader in any step is a client's: the opening or the taking over of a session, or a
/// write.
pub fn forwards_are_of_clients<I>()
    ensures { ForwardsAreOfClients I }
{}
