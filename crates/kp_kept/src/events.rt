//! Events are taken and kept at once.

ghost use Rattle.std.specs.Prelude.{◌≡◌, ◌↔◌, ℕ, ◌+◌, ◌^◌, ◌<◌, IfOk, OnOk, OnErr, IsErrOf, IsTrue};
ghost use Rattle.kp_io.specs.Crash.{HasRoom};
ghost use Rattle.kp_event.specs.Kinds.{row_of_kind, row_of_said};
ghost use Rattle.kp_event.specs.declared.fail.KeptFail.TheVariants as kept_fail;
ghost use Rattle.kp_homes.specs.Homes.{FindsEither};
ghost use Rattle.kp_homes.specs.Opening.{Found};
ghost use Rattle.kp_node.specs.declared.outcome.Outcome.{Outcome};
ghost use Rattle.kp_kept.specs.Ahead.{nothing_waits};
ghost use Rattle.kp_kept.specs.Events.{EventEnds, IsKeptWith};
ghost use Rattle.kp_kept.specs.Flushing.{faults_of};
ghost use Rattle.kp_kept.specs.Keeping.{KeepsUp, found_behind, waiting_of};
ghost use Rattle.kp_kept.specs.Thinking.{Moves};

use crate::kept::Kept;
use kp_event::{KeptFail, NodeEvent, Thought};
use kp_io::Disk;
use kp_raft::Mail;
use kp_snapshot::Image;

impl<H: Disk> Kept<H> {
    /// Takes an event and keeps what it wants kept, and before it all that waits: a think and a flush in one. So what is said
    /// and sent of it may leave.
    ///
    /// A crash at any moment since the call began, within a write too, leaves a home on which opening finds what it found
    /// before, or that with all that waited and with what this event wants kept; after Ok it finds the latter. DiskFault, Full
    /// and Dead are those of the flush. NoMemory changes nothing of the home; the event wasn't taken then, or it was and waits,
    /// and what it says and sends is lost: where nothing waited before, only an event that makes an image the base of the log.
    pub fn event(
        &mut self,
        event: NodeEvent<Mail<Image>>,
    ) -> Result<Thought<(u8, Mail<Image>)>, KeptFail>
        requires { self.old.node.events < 2 ^ 62 }
        ensures moves { IfOk result (λ t. (o : Outcome) × Moves self.old.node event o t self.new.node × IsKeptWith H.held H.past self.old o self.new) }
        ensures number { IfOk result (λ t. t.number ≡ self.old.node.events + 1) }
        ensures fits { IfOk result (λ t. row_of_said t.said ≡ row_of_kind event.kind) }
        ensures ends { EventEnds (faults_of H.faults) self.old event result self.new }
        ensures crash { (f : Found) → KeepsUp H.held H.past self.old f → HasRoom self.new.home.disks.moments → self.old.home.journal.head.generation < 2 ^ 62
            → OnErr result (FindsEither self.old.home.journal.head.node H.past self.old.home.disks.moments self.new.home.disks f (found_behind self.new f)) }
        ensures stays { (f : Found) → KeepsUp H.held H.past self.old f → IsErrOf result kept_fail.NoMemory → KeepsUp H.held H.past self.new f }
        ensures node { OnOk result (self.new.home.journal.head.node ≡ self.old.home.journal.head.node) }
    {
        match self.think(event) {
            Ok(thought) => match self.flush() {
                Ok(_) => Ok(thought),
                Err(fail) => {
                    drop(thought);
                    Err(fail)
                }
            },
            Err(fail) => Err(fail),
        }
    }

    /// Whether nothing waits to be kept. Takes no memory.
    pub fn is_idle(&self) -> bool
        ensures { IsTrue result ↔ (waiting_of self.now ≡ nothing_waits) }
    {
        self.waiting.len() == 0 && self.image.is_none()
    }
}
