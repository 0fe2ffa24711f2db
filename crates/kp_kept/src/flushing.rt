//! What waits is kept in the home.

ghost use Rattle.std.specs.Prelude.{◌≡◌, ◌⊎◌, ℕ, ◌^◌, ◌<◌, ◌≤◌, None, vec_len, OnOk, OnErr, IsOk, IsSome, IsErrOf};
ghost use Rattle.kp_io.specs.Crash.{HasRoom};
ghost use Rattle.kp_event.specs.declared.fail.KeptFail.TheVariants as kept_fail;
ghost use Rattle.kp_homes.specs.Homes.{FindsEither, FindsOnly};
ghost use Rattle.kp_homes.specs.Opening.{Found};
ghost use Rattle.kp_kept.specs.Ahead.{nothing_waits};
ghost use Rattle.kp_kept.specs.Flushing.{Flushes, IsPut, faults_of};
ghost use Rattle.kp_kept.specs.Keeping.{KeepsUp, waiting_of, found_behind};
ghost use Rattle.kp_kept.specs.Lengths.{IsOver, place_in};

use crate::kept::Kept;
use crate::refusals::{death_by, fail_by};
use crate::slots::put_waiting;
use kp_event::KeptFail;
use kp_io::Disk;

impl<H: Disk> Kept<H> {
    /// Keeps what all events so far want kept, as one batch, or as one new slot where an image is among it, and answers the
    /// number of the last event, 0 where there was none. Where nothing waits it makes no disk call and takes no memory.
    ///
    /// A crash at any moment since the call began, within a write too, leaves a home on which opening finds what it found
    /// before, or what the node is; after Ok it finds what the node is. NoMemory changes nothing, and comes only where an image
    /// or the records of several events wait. DiskFault comes only where the count of the home's faults rose, and Full exactly
    /// where that image or the journal would pass 2^40 bytes, if there is memory, which changes nothing of the home; after these
    /// two the node is dead. Dead comes exactly where it is dead, with the cause.
    pub fn flush(&mut self) -> Result<u64, KeptFail>
        ensures flushes { Flushes (faults_of H.faults) self.old result self.new }
        ensures none_waits { OnOk result (waiting_of self.new ≡ nothing_waits) }
        ensures all_wait { OnErr result (waiting_of self.new ≡ waiting_of self.old) }
        ensures keeps { (f : Found) → KeepsUp H.held H.past self.old f → HasRoom self.new.home.disks.moments → self.old.home.journal.head.generation < 2 ^ 62
            → OnOk result (KeepsUp H.held H.past self.new (found_behind self.old f)) }
        ensures kept { (f : Found) → KeepsUp H.held H.past self.old f → HasRoom self.new.home.disks.moments → self.old.home.journal.head.generation < 2 ^ 62
            → OnOk result (FindsOnly self.new.home.journal.head.node H.past self.new.home.disks.moments self.new.home.disks (found_behind self.old f)) }
        ensures crash { (f : Found) → KeepsUp H.held H.past self.old f → HasRoom self.new.home.disks.moments → self.old.home.journal.head.generation < 2 ^ 62
            → FindsEither self.old.home.journal.head.node H.past self.old.home.disks.moments self.new.home.disks f (found_behind self.old f) }
        ensures node { OnOk result (self.new.home.journal.head.node ≡ self.old.home.journal.head.node) }
        ensures full { (slot len : ℕ) → IsErrOf result (kept_fail.Full slot len) → IsOver (place_in self.old.home (waiting_of self.old)) slot len }
        ensures over { (slot len : ℕ) → self.old.death ≡ None → IsOver (place_in self.old.home (waiting_of self.old)) slot len → IsErrOf result (kept_fail.Full slot len) ⊎ IsErrOf result kept_fail.NoMemory }
        ensures memory { IsErrOf result kept_fail.NoMemory → IsSome self.old.image ⊎ (2 ≤ vec_len self.old.waiting) }
        ensures idle { self.old.death ≡ None → waiting_of self.old ≡ nothing_waits → (self.new.home ≡ self.old.home) × IsOk result }
    {
        if let Some(why) = self.death {
            return Err(KeptFail::Dead(why));
        }
        self.keep_waiting()?;
        self.kept = self.node.events();
        Ok(self.kept)
    }

    // Keeps what waits in the home of a node that isn't dead.
    fn keep_waiting(&mut self) -> Result<(), KeptFail>
        requires { self.old.death ≡ None }
        ensures put { IsPut (faults_of H.faults) self.old result self.new }
        ensures none_waits { OnOk result (waiting_of self.new ≡ nothing_waits) }
        ensures all_wait { OnErr result (waiting_of self.new ≡ waiting_of self.old) }
        ensures keeps { (f : Found) → KeepsUp H.held H.past self.old f → HasRoom self.new.home.disks.moments → self.old.home.journal.head.generation < 2 ^ 62
            → OnOk result (KeepsUp H.held H.past self.new (found_behind self.old f)) }
        ensures crash { (f : Found) → KeepsUp H.held H.past self.old f → HasRoom self.new.home.disks.moments → self.old.home.journal.head.generation < 2 ^ 62
            → FindsEither self.old.home.journal.head.node H.past self.old.home.disks.moments self.new.home.disks f (found_behind self.old f) }
        ensures node { OnOk result (self.new.home.journal.head.node ≡ self.old.home.journal.head.node) }
        ensures full { (slot len : ℕ) → IsErrOf result (kept_fail.Full slot len) → IsOver (place_in self.old.home (waiting_of self.old)) slot len }
        ensures over { (slot len : ℕ) → IsOver (place_in self.old.home (waiting_of self.old)) slot len → IsErrOf result (kept_fail.Full slot len) ⊎ IsErrOf result kept_fail.NoMemory }
        ensures memory { IsErrOf result kept_fail.NoMemory → IsSome self.old.image ⊎ (2 ≤ vec_len self.old.waiting) }
        ensures idle { waiting_of self.old ≡ nothing_waits → (self.new.home ≡ self.old.home) × IsOk result }
    {
        match put_waiting(
            self.alloc,
            &self.node,
            &mut self.home,
            self.waiting.as_slice(),
            &mut self.image,
        ) {
            Ok(()) => {
                self.waiting.clear();
                self.image = None;
                Ok(())
            }
            Err(fail) => {
                let faults = self.home.disks.faults();
                self.death = death_by(fail, faults);
                Err(fail_by(fail))
            }
        }
    }
}
