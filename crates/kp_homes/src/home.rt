ghost use Rattle.std.specs.Prelude.{ℕ, List, Some, Ok, true, false, ◌≡◌, ◌+◌, ◌^◌, ◌<◌, ◌≤◌, ◌↔◌, length, OnOk, OnErr, IfSome, IsErrOf, IsErr, cond, not};
ghost use Rattle.kp_io.specs.Crash.{HasRoom};
ghost use Rattle.kp_io.specs.Faults.{Rose};
ghost use Rattle.kp_io.specs.Homes.{home_faults};
ghost use Rattle.kp_entry.specs.Records.{spelled, has_base};
ghost use Rattle.kp_journal.specs.Answers.{IsOfAppend};
ghost use Rattle.kp_journal.specs.Heads.{IsHead};
ghost use Rattle.kp_journal.specs.Journals.{unread};
ghost use Rattle.kp_journal.specs.declared.fail.JournalFail.TheVariants as journal_fail;
ghost use Rattle.kp_homes.specs.declared.fail.HomeFail.TheVariants as home_fail;
ghost use Rattle.kp_homes.specs.Opening.{AreSound, Found, IsEarlier, are_fit, blank_start, with_records};
ghost use Rattle.kp_homes.specs.Homes.{HoldsEither, Keeps, FindsEither, FindsOnly};
ghost use Rattle.kp_homes.specs.Replays.{image_bytes, made_found};
ghost use Rattle.kp_homes.specs.Stands.{Bytes4, Stand, Stands, IsAtRest, IsReady, StandsForEither, StandsForOnly, stands, choice, with_more, made, next_head, slot_number, IsOfWriting};

use crate::fail::{HomeFail, fail_in};
use crate::slot::new_slot;
use crate::whole::{Whole, image_bytes};
use kp_entry::Records;
use kp_io::{Disk, Failed, Four};
use kp_journal::{Head, Journal, JournalFail};
use kp_model::limits::LAST_NUMBER;
use std::alloc::Global;

/// The most bytes that a disk of a home holds.
const MOST: u64 = 1 << 40;

// The head of the next slot, for an image of this length.
fn next_head(head: Head, len: u64) -> Head
    requires { len ≤ 2 ^ 40 }
    ensures next { result ≡ next_head head len }
    ensures fits { IsHead result }
{
    Head {
        generation: head.generation.saturating_add(1).min(LAST_NUMBER),
        node: head.node,
        image_len: len,
    }
}

// The number of the live journal's slot.
fn journal_slot(second: bool) -> u64
    ensures { result ≡ slot_number second }
{
    if second { 1 } else { 0 }
}

// The number of the image's slot that is not live.
fn other_image(second: bool) -> u64
    ensures { result ≡ cond second 2 3 }
{
    if second { 2 } else { 3 }
}

/// A home that is open.
#[derive(Drop)]
pub struct Home<H: Disk> {
    /// Where a new journal's records would be kept.
    pub alloc: Global,
    /// The disks of its slots.
    pub disks: Four<H>,
    /// Whether the second slot is the live one.
    pub second: bool,
    /// The live slot's journal.
    pub journal: Journal,
}

impl<H: Disk> Home<H> {
    // Adds a batch to the live journal.
    fn append_live(&mut self, records: &Records) -> Result<(), JournalFail>
        requires ready { IsReady self.old.second (H.held self.old.disks.j0) (H.held self.old.disks.j1) self.old.journal }
        requires no_base { has_base records.now ≡ false }
        ensures crash { (b : Bytes4) (v : Stand) → Stands H.held H.past self.old.disks self.old.second self.old.journal b v → HasRoom self.new.disks.moments
            → StandsForEither self.old.journal.head.node H.past self.old.disks.moments self.new.disks v (with_more records.now v) }
        ensures earlier { (b : Bytes4) (v : Stand) → Stands H.held H.past self.old.disks self.old.second self.old.journal b v → HasRoom self.new.disks.moments → IsEarlier H.past self.old.disks self.new.disks }
        ensures sound { (b : Bytes4) (v : Stand) → Stands H.held H.past self.old.disks self.old.second self.old.journal b v → HasRoom self.new.disks.moments → AreSound H.held H.past self.new.disks }
        ensures rest { (b : Bytes4) (v : Stand) → Stands H.held H.past self.old.disks self.old.second self.old.journal b v → HasRoom self.new.disks.moments
            → OnOk result ((c : Bytes4) × Stands H.held H.past self.new.disks self.new.second self.new.journal c (with_more records.now v)) }
        ensures head { OnOk result (self.new.journal.head ≡ self.old.journal.head) }
        ensures ready { OnOk result (IsReady self.new.second (H.held self.new.disks.j0) (H.held self.new.disks.j1) self.new.journal) }
        ensures full { (len : ℕ) → IsErrOf result (journal_fail.Full len) ↔ ((2 ^ 40 < len) × (len ≡ self.old.journal.gate + 6 + length (spelled records.now))) }
        ensures full_same { (len : ℕ) → IsErrOf result (journal_fail.Full len) → self.new ≡ self.old }
        ensures fault { IsErrOf result journal_fail.DiskFault → Rose (home_faults H.faults self.old.disks) (home_faults H.faults self.new.disks) }
        ensures quiet { OnOk result (home_faults H.faults self.new.disks ≡ home_faults H.faults self.old.disks) }
        ensures only { (f : JournalFail) → IsErrOf result f → IsOfAppend f }
        ensures moment { self.old.disks.moments ≤ self.new.disks.moments }
    {
        if self.second {
            self.journal
                .append_batch(&mut self.disks.j1, records, &mut self.disks.moments)
        } else {
            self.journal
                .append_batch(&mut self.disks.j0, records, &mut self.disks.moments)
        }
    }

    /// Adds a batch of records to the home: `append_batch` in the words of what the disks stand for.
    pub(crate) fn append_records(&mut self, records: &Records) -> Result<(), HomeFail>
        requires ready { IsReady self.old.second (H.held self.old.disks.j0) (H.held self.old.disks.j1) self.old.journal }
        requires no_base { has_base records.now ≡ false }
        ensures crash { (b : Bytes4) (v : Stand) → Stands H.held H.past self.old.disks self.old.second self.old.journal b v → HasRoom self.new.disks.moments
            → StandsForEither self.old.journal.head.node H.past self.old.disks.moments self.new.disks v (with_more records.now v) }
        ensures earlier { (b : Bytes4) (v : Stand) → Stands H.held H.past self.old.disks self.old.second self.old.journal b v → HasRoom self.new.disks.moments → IsEarlier H.past self.old.disks self.new.disks }
        ensures sound { (b : Bytes4) (v : Stand) → Stands H.held H.past self.old.disks self.old.second self.old.journal b v → HasRoom self.new.disks.moments → AreSound H.held H.past self.new.disks }
        ensures rest { (b : Bytes4) (v : Stand) → Stands H.held H.past self.old.disks self.old.second self.old.journal b v → HasRoom self.new.disks.moments
            → OnOk result ((c : Bytes4) × Stands H.held H.past self.new.disks self.new.second self.new.journal c (with_more records.now v)) }
        ensures kept { (b : Bytes4) (v : Stand) → Stands H.held H.past self.old.disks self.old.second self.old.journal b v → HasRoom self.new.disks.moments
            → OnOk result (StandsForOnly self.new.journal.head.node H.past self.new.disks.moments self.new.disks (with_more records.now v)) }
        ensures head { OnOk result (self.new.journal.head ≡ self.old.journal.head) }
        ensures ready { OnOk result (IsReady self.new.second (H.held self.new.disks.j0) (H.held self.new.disks.j1) self.new.journal) }
        ensures full { (slot len : ℕ) → IsErrOf result (home_fail.Full slot len) ↔ ((2 ^ 40 < len) × (len ≡ self.old.journal.gate + 6 + length (spelled records.now)) × (slot ≡ slot_number self.old.second)) }
        ensures full_same { (slot len : ℕ) → IsErrOf result (home_fail.Full slot len) → self.new ≡ self.old }
        ensures fault { IsErrOf result home_fail.DiskFault → Rose (home_faults H.faults self.old.disks) (home_faults H.faults self.new.disks) }
        ensures quiet { OnOk result (home_faults H.faults self.new.disks ≡ home_faults H.faults self.old.disks) }
        ensures only { (f : HomeFail) → IsErrOf result f → IsOfWriting f }
        ensures moment { self.old.disks.moments ≤ self.new.disks.moments }
    {
        let slot = journal_slot(self.second);
        match self.append_live(records) {
            Ok(()) => Ok(()),
            Err(fail) => Err(fail_in(slot, fail)),
        }
    }

    // Writes the other slot, which its last write makes the live one.
    fn write_other(&mut self, head: Head, image: &[u8], records: &Records) -> Result<(), Failed>
        requires image { length image.now ≤ 2 ^ 40 }
        requires no_base { has_base records.now ≡ false }
        requires fits { IsHead head }
        requires next { head ≡ next_head self.old.journal.head (length image.now) }
        ensures crash { (b : Bytes4) (v : Stand) → Stands H.held H.past self.old.disks self.old.second self.old.journal b v → HasRoom self.new.disks.moments → self.old.journal.head.generation < 2 ^ 62
            → StandsForEither self.old.journal.head.node H.past self.old.disks.moments self.new.disks v (made head image.now records.now) }
        ensures earlier { (b : Bytes4) (v : Stand) → Stands H.held H.past self.old.disks self.old.second self.old.journal b v → HasRoom self.new.disks.moments → IsEarlier H.past self.old.disks self.new.disks }
        ensures sound { (b : Bytes4) (v : Stand) → Stands H.held H.past self.old.disks self.old.second self.old.journal b v → HasRoom self.new.disks.moments → AreSound H.held H.past self.new.disks }
        ensures rest { (b : Bytes4) (v : Stand) → Stands H.held H.past self.old.disks self.old.second self.old.journal b v → HasRoom self.new.disks.moments → self.old.journal.head.generation < 2 ^ 62
            → OnOk result ((c : Bytes4) × IsAtRest H.held H.past self.new.disks c × (choice c.j0 c.j1 ≡ Some (not self.old.second)) × (stands self.old.journal.head.node c ≡ Some (Ok (made head image.now records.now)))) }
        ensures second { self.new.second ≡ self.old.second }
        ensures ready { OnOk result (IsReady (not self.old.second) (H.held self.new.disks.j0) (H.held self.new.disks.j1) (unread head (27 + length (spelled records.now)))) }
        ensures fault { IsErr result → Rose (home_faults H.faults self.old.disks) (home_faults H.faults self.new.disks) }
        ensures quiet { OnOk result (home_faults H.faults self.new.disks ≡ home_faults H.faults self.old.disks) }
        ensures moment { self.old.disks.moments ≤ self.new.disks.moments }
    {
        let body = records.bytes();
        if self.second {
            new_slot(
                &mut self.disks.j0,
                &mut self.disks.i0,
                head,
                image,
                body,
                &mut self.disks.moments,
            )
        } else {
            new_slot(
                &mut self.disks.j1,
                &mut self.disks.i1,
                head,
                image,
                body,
                &mut self.disks.moments,
            )
        }
    }

    // Makes the home stand for these bytes of an image, none where there are none, and these records behind it: `compact`
    // in the words of what the disks stand for.
    fn make_slot(&mut self, image: &[u8], rest: &Records) -> Result<(), HomeFail>
        requires { has_base rest.now ≡ false }
        ensures crash { (b : Bytes4) (v : Stand) → Stands H.held H.past self.old.disks self.old.second self.old.journal b v → HasRoom self.new.disks.moments → self.old.journal.head.generation < 2 ^ 62
            → StandsForEither self.old.journal.head.node H.past self.old.disks.moments self.new.disks v (made (next_head self.old.journal.head (length image.now)) image.now rest.now) }
        ensures earlier { (b : Bytes4) (v : Stand) → Stands H.held H.past self.old.disks self.old.second self.old.journal b v → HasRoom self.new.disks.moments → IsEarlier H.past self.old.disks self.new.disks }
        ensures sound { (b : Bytes4) (v : Stand) → Stands H.held H.past self.old.disks self.old.second self.old.journal b v → HasRoom self.new.disks.moments → AreSound H.held H.past self.new.disks }
        ensures rest { (b : Bytes4) (v : Stand) → Stands H.held H.past self.old.disks self.old.second self.old.journal b v → HasRoom self.new.disks.moments → self.old.journal.head.generation < 2 ^ 62
            → OnOk result ((c : Bytes4) × Stands H.held H.past self.new.disks self.new.second self.new.journal c (made (next_head self.old.journal.head (length image.now)) image.now rest.now)) }
        ensures kept { (b : Bytes4) (v : Stand) → Stands H.held H.past self.old.disks self.old.second self.old.journal b v → HasRoom self.new.disks.moments → self.old.journal.head.generation < 2 ^ 62
            → OnOk result (StandsForOnly self.new.journal.head.node H.past self.new.disks.moments self.new.disks (made (next_head self.old.journal.head (length image.now)) image.now rest.now)) }
        ensures ready { OnOk result (IsReady self.new.second (H.held self.new.disks.j0) (H.held self.new.disks.j1) self.new.journal) }
        ensures head { OnOk result (self.new.journal.head ≡ next_head self.old.journal.head (length image.now)) }
        ensures full { (slot len : ℕ) → IsErrOf result (home_fail.Full slot len) ↔ ((2 ^ 40 < len) × (len ≡ length image.now) × (slot ≡ cond self.old.second 2 3)) }
        ensures full_same { (slot len : ℕ) → IsErrOf result (home_fail.Full slot len) → self.new ≡ self.old }
        ensures fault { IsErrOf result home_fail.DiskFault → Rose (home_faults H.faults self.old.disks) (home_faults H.faults self.new.disks) }
        ensures quiet { OnOk result (home_faults H.faults self.new.disks ≡ home_faults H.faults self.old.disks) }
        ensures only { (f : HomeFail) → IsErrOf result f → IsOfWriting f }
        ensures moment { self.old.disks.moments ≤ self.new.disks.moments }
    {
        let len = image.len() as u64;
        if len > MOST {
            let slot = other_image(self.second);
            return Err(HomeFail::Full { slot, len });
        }
        let head = next_head(self.journal.head(), len);
        match self.write_other(head, image, rest) {
            Ok(()) => {
                self.second = !self.second;
                self.journal = Journal::fresh(self.alloc, head, rest.bytes().len() as u32);
                Ok(())
            }
            Err(_) => Err(HomeFail::DiskFault),
        }
    }

    /// Adds a batch of records to the home. Takes no memory.
    ///
    /// Opening finds `f` on the home as it is, and each record may stand behind those before it and what was found. Then a
    /// crash at any moment since the call began, within a write too, leaves a home on which opening finds `f`, or the replay
    /// of the records on it. After Ok opening finds the replay, whatever crash comes. After `DiskFault`, which comes only
    /// where the home's count of faults rose, it finds one of the two, and this value is to be closed. `Full` comes exactly
    /// where the journal would be longer than 2^40 bytes, and changes nothing.
    pub fn append_batch(&mut self, records: &Records) -> Result<(), HomeFail>
        requires ready { IsReady self.old.second (H.held self.old.disks.j0) (H.held self.old.disks.j1) self.old.journal }
        requires no_base { has_base records.now ≡ false }
        ensures crash { (f : Found) → Keeps H.held H.past self.old.disks self.old.second self.old.journal f → HasRoom self.new.disks.moments → are_fit f.start.held records.now ≡ true
            → FindsEither self.old.journal.head.node H.past self.old.disks.moments self.new.disks f (with_records records.now f) }
        ensures left { (f : Found) → Keeps H.held H.past self.old.disks self.old.second self.old.journal f → HasRoom self.new.disks.moments → are_fit f.start.held records.now ≡ true
            → HoldsEither self.old.journal.head.node H.held H.past self.new.disks f (with_records records.now f) }
        ensures kept { (f : Found) → Keeps H.held H.past self.old.disks self.old.second self.old.journal f → HasRoom self.new.disks.moments → are_fit f.start.held records.now ≡ true
            → OnOk result (FindsOnly self.new.journal.head.node H.past self.new.disks.moments self.new.disks (with_records records.now f)) }
        ensures keeps { (f : Found) → Keeps H.held H.past self.old.disks self.old.second self.old.journal f → HasRoom self.new.disks.moments → are_fit f.start.held records.now ≡ true
            → OnOk result (Keeps H.held H.past self.new.disks self.new.second self.new.journal (with_records records.now f)) }
        ensures earlier { (f : Found) → Keeps H.held H.past self.old.disks self.old.second self.old.journal f → HasRoom self.new.disks.moments → IsEarlier H.past self.old.disks self.new.disks }
        ensures head { OnOk result (self.new.journal.head ≡ self.old.journal.head) }
        ensures ready { OnOk result (IsReady self.new.second (H.held self.new.disks.j0) (H.held self.new.disks.j1) self.new.journal) }
        ensures full { (slot len : ℕ) → IsErrOf result (home_fail.Full slot len) ↔ ((2 ^ 40 < len) × (len ≡ self.old.journal.gate + 6 + length (spelled records.now)) × (slot ≡ slot_number self.old.second)) }
        ensures full_same { (slot len : ℕ) → IsErrOf result (home_fail.Full slot len) → self.new ≡ self.old }
        ensures fault { IsErrOf result home_fail.DiskFault → Rose (home_faults H.faults self.old.disks) (home_faults H.faults self.new.disks) }
        ensures quiet { OnOk result (home_faults H.faults self.new.disks ≡ home_faults H.faults self.old.disks) }
        ensures only { (f : HomeFail) → IsErrOf result f → IsOfWriting f }
        ensures moment { self.old.disks.moments ≤ self.new.disks.moments }
    {
        self.append_records(records)
    }

    /// Makes the home stand for an image and the records behind it. It writes the other slot, which its last write makes the
    /// live one. Takes no memory.
    ///
    /// Opening finds `f` on the home as it is, and each record may stand behind those before it and the image. Then a crash
    /// at any moment since the call began, within a write too, leaves a home on which opening finds `f`, or the image and the
    /// replay of the records behind it. After Ok opening finds that, whatever crash comes. After `DiskFault`, which comes
    /// only where the home's count of faults rose, it finds one of the two, and this value is to be closed. `Full` comes
    /// exactly where the image is longer than 2^40 bytes, and changes nothing.
    pub fn compact(&mut self, whole: &Whole) -> Result<(), HomeFail>
        requires { has_base whole.now.rest ≡ false }
        ensures crash { (f : Found) → Keeps H.held H.past self.old.disks self.old.second self.old.journal f → HasRoom self.new.disks.moments → self.old.journal.head.generation < 2 ^ 62 → are_fit (blank_start whole.now.image).held whole.now.rest ≡ true
            → FindsEither self.old.journal.head.node H.past self.old.disks.moments self.new.disks f (made_found whole.now.image whole.now.rest) }
        ensures left { (f : Found) → Keeps H.held H.past self.old.disks self.old.second self.old.journal f → HasRoom self.new.disks.moments → self.old.journal.head.generation < 2 ^ 62 → are_fit (blank_start whole.now.image).held whole.now.rest ≡ true
            → HoldsEither self.old.journal.head.node H.held H.past self.new.disks f (made_found whole.now.image whole.now.rest) }
        ensures kept { (f : Found) → Keeps H.held H.past self.old.disks self.old.second self.old.journal f → HasRoom self.new.disks.moments → self.old.journal.head.generation < 2 ^ 62 → are_fit (blank_start whole.now.image).held whole.now.rest ≡ true
            → OnOk result (FindsOnly self.new.journal.head.node H.past self.new.disks.moments self.new.disks (made_found whole.now.image whole.now.rest)) }
        ensures keeps { (f : Found) → Keeps H.held H.past self.old.disks self.old.second self.old.journal f → HasRoom self.new.disks.moments → self.old.journal.head.generation < 2 ^ 62 → are_fit (blank_start whole.now.image).held whole.now.rest ≡ true
            → OnOk result (Keeps H.held H.past self.new.disks self.new.second self.new.journal (made_found whole.now.image whole.now.rest)) }
        ensures earlier { (f : Found) → Keeps H.held H.past self.old.disks self.old.second self.old.journal f → HasRoom self.new.disks.moments → IsEarlier H.past self.old.disks self.new.disks }
        ensures head { OnOk result (self.new.journal.head ≡ next_head self.old.journal.head (length (image_bytes whole.now.image))) }
        ensures ready { OnOk result (IsReady self.new.second (H.held self.new.disks.j0) (H.held self.new.disks.j1) self.new.journal) }
        ensures full { (slot len : ℕ) → IsErrOf result (home_fail.Full slot len) ↔ ((2 ^ 40 < len) × (len ≡ length (image_bytes whole.now.image)) × (slot ≡ cond self.old.second 2 3)) }
        ensures full_same { (slot len : ℕ) → IsErrOf result (home_fail.Full slot len) → self.new ≡ self.old }
        ensures fault { IsErrOf result home_fail.DiskFault → Rose (home_faults H.faults self.old.disks) (home_faults H.faults self.new.disks) }
        ensures quiet { OnOk result (home_faults H.faults self.new.disks ≡ home_faults H.faults self.old.disks) }
        ensures only { (f : HomeFail) → IsErrOf result f → IsOfWriting f }
        ensures moment { self.old.disks.moments ≤ self.new.disks.moments }
    {
        let image = image_bytes(&whole.image);
        self.make_slot(image, &whole.rest)
    }
}
