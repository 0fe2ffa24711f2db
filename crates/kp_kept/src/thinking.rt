//! Events are taken in memory.

ghost use Rattle.std.specs.Prelude.{◌≡◌, ℕ, ◌+◌, ◌^◌, ◌<◌, ◌≤◌, ◌↔◌, None, Some, true, false, vec_len, IfOk, OnOk, OnErr, IsErrOf};
ghost use Rattle.std.specs.Vec.{vec_capacity};
ghost use Rattle.kp_entry.specs.Records.{has_base};
ghost use Rattle.kp_event.specs.Kinds.{row_of_kind, row_of_said};
ghost use Rattle.kp_event.specs.declared.fail.KeptFail.{KeptFail};
ghost use Rattle.kp_event.specs.declared.fail.KeptFail.TheVariants as kept_fail;
ghost use Rattle.kp_event.specs.declared.fail.Why.{Why};
ghost use Rattle.kp_homes.specs.Opening.{Found};
ghost use Rattle.kp_node.specs.declared.outcome.Outcome.{Outcome};
ghost use Rattle.kp_kept.specs.Ahead.{has_some, waits_behind};
ghost use Rattle.kp_kept.specs.Answers.{IsOfThink};
ghost use Rattle.kp_kept.specs.Keeping.{KeepsUp, OnlyWaits, waiting_of};
ghost use Rattle.kp_kept.specs.Thinking.{IsOf, Moves};

use crate::kept::Kept;
use kp_entry::Records;
use kp_event::{KeptFail, NodeEvent, Thought};
use kp_io::Disk;
use kp_node::Outcome;
use kp_raft::Mail;
use kp_snapshot::Image;

impl<H: Disk> Kept<H> {
    /// Takes an event in memory, as one step of the node, and puts what it wants kept with what waits. It uses no disk. What
    /// is said and sent of the event may leave once a flush has answered its number or a later one.
    ///
    /// NoMemory changes nothing. Dead comes exactly where the node is dead, with the cause, and changes nothing too.
    pub fn think(
        &mut self,
        event: NodeEvent<Mail<Image>>,
    ) -> Result<Thought<(u8, Mail<Image>)>, KeptFail>
        requires { self.old.node.events < 2 ^ 62 }
        ensures moves { IfOk result (λ t. (o : Outcome) × Moves self.old.node event o t self.new.node × (waiting_of self.new ≡ waits_behind (waiting_of self.old) o.records o.image)) }
        ensures alive { OnOk result (self.old.death ≡ None) }
        ensures number { IfOk result (λ t. t.number ≡ self.old.node.events + 1) }
        ensures fits { IfOk result (λ t. row_of_said t.said ≡ row_of_kind event.kind) }
        ensures home { self.new.home ≡ self.old.home }
        ensures death { self.new.death ≡ self.old.death }
        ensures kept { self.new.kept ≡ self.old.kept }
        ensures err { OnErr result ((self.new.node ≡ self.old.node) × (waiting_of self.new ≡ waiting_of self.old)) }
        ensures few { vec_len self.new.waiting ≤ vec_len self.old.waiting + 1 }
        ensures dead { (why : Why) → IsErrOf result (kept_fail.Dead why) ↔ (self.old.death ≡ Some why) }
        ensures only { (f : KeptFail) → IsErrOf result f → IsOfThink f }
        ensures keeps { (f : Found) → KeepsUp H.held H.past self.old f → KeepsUp H.held H.past self.new f }
    {
        match self.make_room() {
            Ok(()) => self.take(event),
            Err(fail) => {
                drop(event);
                Err(fail)
            }
        }
    }

    // Makes room for what one event more wants kept, where the node isn't dead.
    fn make_room(&mut self) -> Result<(), KeptFail>
        ensures same { OnlyWaits self.old self.new }
        ensures waits { waiting_of self.new ≡ waiting_of self.old }
        ensures few { vec_len self.new.waiting ≡ vec_len self.old.waiting }
        ensures ok { OnOk result ((self.old.death ≡ None) × (vec_len self.new.waiting < vec_capacity self.new.waiting)) }
        ensures dead { (why : Why) → IsErrOf result (kept_fail.Dead why) ↔ (self.old.death ≡ Some why) }
        ensures only { (f : KeptFail) → IsErrOf result f → IsOfThink f }
    {
        if let Some(why) = self.death {
            return Err(KeptFail::Dead(why));
        }
        match self.waiting.reserve(1) {
            Ok(()) => Ok(()),
            Err(_) => Err(KeptFail::NoMemory),
        }
    }

    // Takes an event for whose records there is room.
    fn take(
        &mut self,
        event: NodeEvent<Mail<Image>>,
    ) -> Result<Thought<(u8, Mail<Image>)>, KeptFail>
        requires events { self.old.node.events < 2 ^ 62 }
        requires room { vec_len self.old.waiting < vec_capacity self.old.waiting }
        ensures moves { IfOk result (λ t. (o : Outcome) × Moves self.old.node event o t self.new.node × (waiting_of self.new ≡ waits_behind (waiting_of self.old) o.records o.image)) }
        ensures home { self.new.home ≡ self.old.home }
        ensures death { self.new.death ≡ self.old.death }
        ensures kept { self.new.kept ≡ self.old.kept }
        ensures err { OnErr result ((self.new.node ≡ self.old.node) × (waiting_of self.new ≡ waiting_of self.old)) }
        ensures few { vec_len self.new.waiting ≤ vec_len self.old.waiting + 1 }
        ensures only { (f : KeptFail) → IsErrOf result f → f ≡ kept_fail.NoMemory }
        ensures keeps { (f : Found) → KeepsUp H.held H.past self.old f → KeepsUp H.held H.past self.new f }
    {
        match self.node.event(event) {
            Ok(outcome) => {
                let _last = self.node.last();
                Ok(self.give(outcome))
            }
            Err(_) => Err(KeptFail::NoMemory),
        }
    }

    // Puts what an outcome wants kept with what waits, for which there is room, and gives the rest of it.
    fn give(&mut self, outcome: Outcome) -> Thought<(u8, Mail<Image>)>
        requires room { vec_len self.old.waiting < vec_capacity self.old.waiting }
        requires plain { outcome.image ≡ None → has_base outcome.records ≡ false }
        ensures thought { IsOf outcome self.old.node.events result }
        ensures same { OnlyWaits self.old self.new }
        ensures waits { waiting_of self.new ≡ waits_behind (waiting_of self.old) outcome.records outcome.image }
        ensures few { vec_len self.new.waiting ≤ vec_len self.old.waiting + 1 }
    {
        let Outcome {
            said,
            records,
            image,
            mail,
            cut,
            lost,
            standing,
            ready,
        } = outcome;
        self.wait(records, image);
        Thought {
            said,
            mail,
            cut,
            lost,
            standing,
            ready,
            number: self.node.events(),
        }
    }

    // Puts the records of an event, or the image of its base, with what waits, for which there is room.
    fn wait(&mut self, records: Records, image: Option<Image>)
        requires room { vec_len self.old.waiting < vec_capacity self.old.waiting }
        requires plain { image ≡ None → has_base records ≡ false }
        ensures same { OnlyWaits self.old self.new }
        ensures waits { waiting_of self.new ≡ waits_behind (waiting_of self.old) records image }
        ensures few { vec_len self.new.waiting ≤ vec_len self.old.waiting + 1 }
    {
        match image {
            Some(image) => {
                drop(records);
                self.waiting.clear();
                self.image = Some(image);
            }
            None => self.wait_some(records),
        }
    }

    // Puts the records of an event, which may be none, with what waits, for which there is room.
    fn wait_some(&mut self, records: Records)
        requires room { vec_len self.old.waiting < vec_capacity self.old.waiting }
        requires plain { has_base records ≡ false }
        ensures same { OnlyWaits self.old self.new }
        ensures waits { waiting_of self.new ≡ waits_behind (waiting_of self.old) records None }
        ensures few { vec_len self.new.waiting ≤ vec_len self.old.waiting + 1 }
    {
        if records.len() == 0 {
            drop(records);
        } else {
            self.wait_records(records);
        }
    }

    // Puts the records of an event with what waits, for which there is room.
    fn wait_records(&mut self, records: Records)
        requires room { vec_len self.old.waiting < vec_capacity self.old.waiting }
        requires plain { has_base records ≡ false }
        requires some { has_some records ≡ true }
        ensures same { OnlyWaits self.old self.new }
        ensures waits { waiting_of self.new ≡ waits_behind (waiting_of self.old) records None }
        ensures few { vec_len self.new.waiting ≤ vec_len self.old.waiting + 1 }
    {
        if self.image.is_some() {
            drop(records);
        } else {
            self.waiting.push_reserved(records);
        }
    }
}
