//! A node with its home as a value that takes tasks.

ghost use Rattle.std.specs.Prelude.{◌≡◌, ◌<◌, ◌^◌};
ghost use Rattle.kp_node.specs.Parts.{node_of};
ghost use Rattle.kp_shared.specs.TaskSteps.{Flushes, Thinks};
ghost use Rattle.kp_served.specs.HomeNodes.{NodeKeeps, NodeMoves, NodeStays, is_feed, node_life};

use kp_event::{KeptFail, NodeEvent, Thought};
use kp_io::Disk;
use kp_raft::Mail;
use kp_shared::Kept;
use kp_snapshot::Image;

/// A node with the home that it is kept in, as a value that takes tasks.
#[derive(Drop)]
pub struct HomeNode<H: Disk> {
    pub kept: kp_kept::Kept<H>,
}

impl<H: Disk> Kept for HomeNode<H> {
    type Mail = Mail<Image>;

    ghost life = { node_life H.faults };

    ghost moves = { NodeMoves H.held H.past };

    ghost stays = { NodeStays H.held H.past };

    ghost keeps = { NodeKeeps H.held H.past };

    ghost number = { λ x. (node_of x.kept.node).me };

    ghost members = { λ x. (node_of x.kept.node).members };

    ghost feeds = { is_feed };

    fn think(
        &mut self,
        event: NodeEvent<Mail<Image>>,
    ) -> Result<Thought<(u8, Mail<Image>)>, KeptFail>
        requires { self.old.kept.node.events < 2 ^ 62 }
        ensures { Thinks (NodeMoves H.held H.past) (NodeStays H.held H.past) (node_life H.faults) self.old event result self.new }
    {
        self.kept.think(event)
    }

    fn flush(&mut self) -> Result<u64, KeptFail>
        ensures { Flushes (NodeStays H.held H.past) (NodeKeeps H.held H.past) (node_life H.faults) self.old result self.new }
    {
        self.kept.flush()
    }

    fn number(&self) -> u8 {
        self.kept.node().number()
    }

    fn members(&self) -> u8 {
        self.kept.node().members()
    }

    fn feeds_log(mail: &Mail<Image>) -> bool {
        matches!(mail, Mail::Append(_) | Mail::Install { .. })
    }
}
