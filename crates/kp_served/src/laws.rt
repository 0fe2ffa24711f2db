//! What holds of every history of a node with its home.

ghost use Rattle.std.specs.Prelude.{◌≡◌, length};
ghost use Rattle.kp_turn.specs.TurnSeats.{view};
ghost use Rattle.kp_turn.specs.TurnView.{SeesMore, own};
ghost use Rattle.kp_homes.specs.Opening.{Found};
ghost use Rattle.kp_kept.specs.Keeping.{KeepsUp};
ghost use Rattle.kp_shared.specs.Sharing.{IsNodeSeatOf};
ghost use Rattle.kp_shared.specs.TaskLaws.{Histories};
ghost use Rattle.kp_served.specs.HomeLaws.{AllFound, HaveRoom, bare};
ghost use Rattle.kp_served.specs.HomeNodes.{node_life};

use crate::home_node::HomeNode;
use kp_io::Disk;
use kp_shared::{Kept, NodeSeat, SharedNode};

/// In every history of a node on whose home opening finds something from which what waits leads to what the node is, opening
/// finds behind each flush that is Ok what the node is then, also after each crash from then on. No count of calls of a home and
/// no generation comes to its end in it.
pub fn flushed_is_found<H: Disk>()
    ensures { Histories ⟦<HomeNode<H> as Kept>⟧.moves ⟦<HomeNode<H> as Kept>⟧.stays ⟦<HomeNode<H> as Kept>⟧.keeps ⟦<HomeNode<H> as Kept>⟧.life (λ x ts. (f : Found) → KeepsUp H.held H.past x.kept f → HaveRoom x.kept ts → AllFound H.held H.past ts) }
{}

/// The number of tasks that a shared node was given up to this moment, which is seen by then. It waits for nobody.
///
/// Where the node that was shared kept up with its home, opening finds behind each flush among these tasks what the node was
/// then, also after each crash from then on; no matter whose the flush was.
pub fn count_found<H: Disk>(node: &SharedNode<HomeNode<H>>, seat: &mut NodeSeat<HomeNode<H>>) -> u64
    requires { IsNodeSeatOf (λ s. node_life H.faults s.kept) node.now seat.old }
    ensures seat { IsNodeSeatOf (λ s. node_life H.faults s.kept) node.now seat.new }
    ensures count { result ≡ length (view seat.new.turn).seen }
    ensures view { SeesMore (view seat.old.turn) (view seat.new.turn) }
    ensures own { own (view seat.new.turn) ≡ own (view seat.old.turn) }
    ensures found { (f : Found) → KeepsUp H.held H.past (view seat.new.turn).start.kept.kept f → HaveRoom (view seat.new.turn).start.kept.kept (bare (λ s. s.kept) (view seat.new.turn).seen)
        → AllFound H.held H.past (bare (λ s. s.kept) (view seat.new.turn).seen) }
    ensures same { (seat.new.stop ≡ seat.old.stop) × (seat.new.links ≡ seat.old.links) }
{
    node.turn.count(&mut seat.turn)
}
