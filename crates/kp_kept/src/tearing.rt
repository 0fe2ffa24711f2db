//! A stop within an event: the first of its records are kept.

ghost use Rattle.std.specs.Prelude.{◌≡◌, ◌^◌, ◌<◌, min, true, false, None, length, take, IfOk, OnOk, OnErr};
ghost use Rattle.kp_io.specs.Crash.{HasRoom};
ghost use Rattle.kp_io.specs.Homes.{home_faults};
ghost use Rattle.kp_entry.specs.Records.{has_base};
ghost use Rattle.kp_homes.specs.declared.home.Home.{Home};
ghost use Rattle.kp_homes.specs.Homes.{FindsEither};
ghost use Rattle.kp_homes.specs.Opening.{Found};
ghost use Rattle.kp_node.specs.Parts.{node_of};
ghost use Rattle.kp_kept.specs.Ahead.{nothing_waits};
ghost use Rattle.kp_kept.specs.Flushing.{NodeStays, faults_of};
ghost use Rattle.kp_kept.specs.Keeping.{KeepsUp, waiting_of};
ghost use Rattle.kp_kept.specs.Tearing.{HasPart, IsTorn, IsTornOrNot, LeavesPart, PartEnds, TearEnds, TornEnds, WantsNone, part_image, says_none};

use crate::kept::Kept;
use crate::refusals::{death_by, fail_by};
use crate::slots::put_part;
use kp_entry::Records;
use kp_event::{FedWord, KeptFail, NodeEvent, Said, Why};
use kp_io::Disk;
use kp_node::Outcome;
use kp_raft::Mail;
use kp_snapshot::Image;

/// What a stop within an event leaves of its outcome. What it wanted to send is lost.
#[derive(Drop)]
pub struct TornStep {
    /// What the node said.
    pub said: Said,

    /// The number of the first records of the event that were kept.
    pub kept: u32,

    /// The number of entries that were taken of an append that had more, where memory ran out.
    pub cut: Option<u32>,

    /// The number of connections that were given up for want of memory.
    pub lost: u32,
}

// Whether the event found nothing to do: there is no such connection, or no entry to apply.
fn is_void(said: &Said) -> bool
    ensures { result ≡ says_none said.now }
{
    match said {
        Said::Fed(FedWord::Unknown) => true,
        Said::Hung(was) => !*was,
        Said::Out(piece) => piece.is_none(),
        Said::Done(index) => index.is_none(),
        Said::Conn(_)
        | Said::Fed(_)
        | Said::Raft
        | Said::Beat(_)
        | Said::Expired(_)
        | Said::Snapped(_) => false,
    }
}

// Keeps the first records, at most so many, and tells how many there are.
fn shorten(records: &mut Records, most: u32) -> u32
    ensures part { records.new ≡ take most records.old }
    ensures count { result ≡ min most (length records.old) }
{
    let len = records.len();
    let count = most as usize;
    records.keep(count);
    if len < count { len as u32 } else { most }
}

// The image, where it stands for the last of the first records, at most so many.
fn image_behind(records: &Records, image: Option<Image>, most: u32) -> Option<Image>
    ensures { result ≡ part_image most records.now image }
{
    if (most as usize) < records.len() {
        drop(image);
        None
    } else {
        image
    }
}

impl<H: Disk> Kept<H> {
    /// Takes an event in memory as the node does in whose step a stop comes: the first `k` of its records are kept, or all
    /// where there are fewer, its messages are lost, and the node is dead. An event that finds no connection or no entry to
    /// apply tears nothing, and the node goes on.
    ///
    /// Opening then finds those records behind what it found before. A crash at any moment since the call began leaves that, or
    /// what was found before. DiskFault and Full are those of a flush. NoMemory changes nothing of the home, and the node isn't
    /// dead: the event wasn't taken then, or it was and waits, where it makes an image the base of the log.
    pub fn torn(&mut self, event: NodeEvent<Mail<Image>>, k: u32) -> Result<TornStep, KeptFail>
        requires events { self.old.node.events < 2 ^ 62 }
        requires idle { waiting_of self.old ≡ nothing_waits }
        ensures torn { IfOk result (λ t. IsTorn H.held H.past self.old event k t self.new) }
        ensures ends { TornEnds (faults_of H.faults) self.old event result self.new }
        ensures crash { (f : Found) → KeepsUp H.held H.past self.old f → HasRoom self.new.home.disks.moments → self.old.home.journal.head.generation < 2 ^ 62
            → OnErr result ((g : Found) × IsTornOrNot self.old event k f g × FindsEither self.old.home.journal.head.node H.past self.old.home.disks.moments self.new.home.disks f g) }
        ensures lives { (f : Found) → KeepsUp H.held H.past self.old f → self.new.death ≡ None → KeepsUp H.held H.past self.new f }
        ensures kept { self.new.kept ≡ self.old.kept }
        ensures node { OnOk result (self.new.home.journal.head.node ≡ self.old.home.journal.head.node) }
    {
        match self.death {
            Some(why) => {
                drop(event);
                Err(KeptFail::Dead(why))
            }
            None => self.tear(event, k),
        }
    }

    // The same of a node that isn't dead.
    fn tear(&mut self, event: NodeEvent<Mail<Image>>, k: u32) -> Result<TornStep, KeptFail>
        requires events { self.old.node.events < 2 ^ 62 }
        requires alive { self.old.death ≡ None }
        requires idle { waiting_of self.old ≡ nothing_waits }
        ensures torn { IfOk result (λ t. IsTorn H.held H.past self.old event k t self.new) }
        ensures ends { TornEnds (faults_of H.faults) self.old event result self.new }
        ensures crash { (f : Found) → KeepsUp H.held H.past self.old f → HasRoom self.new.home.disks.moments → self.old.home.journal.head.generation < 2 ^ 62
            → OnErr result ((g : Found) × IsTornOrNot self.old event k f g × FindsEither self.old.home.journal.head.node H.past self.old.home.disks.moments self.new.home.disks f g) }
        ensures lives { (f : Found) → KeepsUp H.held H.past self.old f → self.new.death ≡ None → KeepsUp H.held H.past self.new f }
        ensures kept { self.new.kept ≡ self.old.kept }
        ensures node { OnOk result (self.new.home.journal.head.node ≡ self.old.home.journal.head.node) }
    {
        match self.node.event(event) {
            Ok(outcome) => {
                let _last = self.node.last();
                self.keep_first(outcome, k)
            }
            Err(_) => Err(KeptFail::NoMemory),
        }
    }

    // Keeps the first k records of a step that the node took, and ends the node, unless the event found nothing to do.
    fn keep_first(&mut self, outcome: Outcome, k: u32) -> Result<TornStep, KeptFail>
        requires alive { self.old.death ≡ None }
        requires idle { waiting_of self.old ≡ nothing_waits }
        requires plain { part_image k outcome.records outcome.image ≡ None → has_base (take k outcome.records) ≡ false }
        requires none { says_none outcome.said ≡ true → WantsNone outcome }
        ensures ends { TearEnds (λ (h : Home H). home_faults H.faults h.disks) self.old.home outcome k result self.new }
        ensures same { NodeStays self.old self.new }
        ensures crash { LeavesPart H.held H.past self.old.home self.new.home (part_image k outcome.records outcome.image) (take k outcome.records) (node_of self.old.node) }
        ensures keeps { OnOk result (HasPart H.held H.past self.old.home self.new.home (part_image k outcome.records outcome.image) (take k outcome.records) (node_of self.old.node)) }
        ensures node { OnOk result (self.new.home.journal.head.node ≡ self.old.home.journal.head.node) }
    {
        let Outcome {
            said,
            records,
            image,
            mail,
            cut,
            lost,
            ready,
            ..
        } = outcome;
        drop(mail);
        drop(ready);
        if is_void(&said) {
            drop(records);
            drop(image);
            return Ok(TornStep {
                said,
                kept: 0,
                cut,
                lost,
            });
        }
        match self.stop_behind(records, image, k) {
            Ok(kept) => Ok(TornStep {
                said,
                kept,
                cut,
                lost,
            }),
            Err(fail) => {
                drop(said);
                Err(fail)
            }
        }
    }

    // Keeps the first k of these records, and ends the node.
    fn stop_behind(
        &mut self,
        records: Records,
        image: Option<Image>,
        k: u32,
    ) -> Result<u32, KeptFail>
        requires alive { self.old.death ≡ None }
        requires idle { waiting_of self.old ≡ nothing_waits }
        requires plain { part_image k records image ≡ None → has_base (take k records) ≡ false }
        ensures count { IfOk result (λ n. n ≡ min k (length records)) }
        ensures ends { PartEnds (λ (h : Home H). home_faults H.faults h.disks) self.old.home (part_image k records image) result self.new }
        ensures same { NodeStays self.old self.new }
        ensures crash { LeavesPart H.held H.past self.old.home self.new.home (part_image k records image) (take k records) (node_of self.old.node) }
        ensures keeps { OnOk result (HasPart H.held H.past self.old.home self.new.home (part_image k records image) (take k records) (node_of self.old.node)) }
        ensures node { OnOk result (self.new.home.journal.head.node ≡ self.old.home.journal.head.node) }
    {
        let mut image = image_behind(&records, image, k);
        let mut records = records;
        let kept = shorten(&mut records, k);
        let put = put_part(&self.node, &mut self.home, &records, &mut image);
        drop(records);
        match put {
            Ok(()) => {
                drop(image);
                self.death = Some(Why::Torn);
                Ok(kept)
            }
            Err(fail) => {
                self.image = image;
                let faults = self.home.disks.faults();
                self.death = death_by(fail, faults);
                Err(fail_by(fail))
            }
        }
    }
}
