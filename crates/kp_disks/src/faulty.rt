ghost use Rattle.std.specs.Prelude.{Some, ◌≡◌, ◌+◌, ◌^◌, ◌≤◌, [], length, slice_get, true, false, IfOk, OnOk, OnErr, IsErr};
ghost use Rattle.std.specs.Io.{ReadsAtMost};
ghost use Rattle.kp_io.specs.Crash.{MayLeave, IsLeft, IsNotedOrNot, settled, wrote, cut_down, synced, unsynced};
ghost use Rattle.kp_io.specs.Disks.{TellsLength, ReadsAt, written_at, cut_to};
ghost use Rattle.kp_io.specs.Faults.{HasCause, one_more};
ghost use Rattle.kp_disks.specs.Faulty.{FaultyPlate, IsToFail, IsUntouched, torn, torn_byte};

use crate::counts::raised;
use kp_io::{Disk, Failed, PastDisk};
use std::alloc::{AllocError, Global};
use std::marker::Model;

// A byte as it was at the last sync, or another one in its place.
fn torn_byte(safe: &[u8], place: usize, byte: u8, fill: u8) -> u8
    ensures { result ≡ torn_byte fill (slice_get safe.now place) byte }
{
    match safe.get(place) {
        Some(same) => { if *same == byte { byte } else { fill } }
        None => fill,
    }
}

/// A disk in memory that tells for each moment what a crash may leave, and that fails where it is
/// told to: at calls of its own, counted from 1, and at each call behind a moment of its home.
///
/// A call that fails so has not begun: nothing but the counts changes.
#[derive(Drop)]
pub struct FaultyDisk {
    alloc: Global,
    disk: PastDisk,
    safe: Vec<u8>,
    failing: Vec<u64>,
    stop: u64,
    calls: u64,
    faults: u64,
}

impl Model for FaultyDisk {
    ghost use Rattle.kp_disks.specs.Faulty.{FaultyPlate};
    ghost use Rattle.kp_io.specs.Crash.{MayLeave};
    ghost use Rattle.std.specs.Prelude.{◌≡◌};

    ghost Value = { FaultyPlate };

    ghost view = { λ d. record { held = d.disk.held; past = d.disk.past; faults = d.faults; failing = d.failing.items; stop = d.stop; calls = d.calls } };

    ghost invariant = { λ d. MayLeave d.disk.past.now d.disk.held × (d.disk.past.now.safe ≡ d.safe.items) };
}

impl FaultyDisk {
    /// A disk that holds these bytes, all of them synced. The calls whose numbers stand in
    /// `failing` fail, and so does each that is a later moment of its home than `stop`.
    pub fn new(
        alloc: Global,
        bytes: Vec<u8>,
        failing: Vec<u64>,
        stop: u64,
    ) -> Result<FaultyDisk, AllocError>
        ensures { IfOk result (λ d. d ≡ record { held = bytes.items; past = record { now = settled bytes.items; notes = [] }; faults = 0; failing = failing.items; stop = stop; calls = 0 }) }
    {
        Ok(FaultyDisk {
            alloc,
            safe: Vec::from_slice(alloc, &bytes)?,
            disk: PastDisk::new(alloc, bytes)?,
            failing,
            stop,
            calls: 0,
            faults: 0,
        })
    }

    /// The bytes that it holds.
    pub fn bytes(&self) -> &[u8]
        ensures { result.now ≡ self.now.held }
    {
        self.disk.bytes()
    }

    /// What a crash now may leave: the bytes that it holds, with `fill` in the place of each that
    /// is not as it was at the last sync.
    #[tactic(auto, using(crate::proofs::Safe::torn_left))]
    pub fn torn(&self, fill: u8) -> Result<Vec<u8>, AllocError>
        ensures torn { IfOk result (λ c. c.items ≡ torn fill self.now.past.now.safe self.now.held) }
        ensures left { IfOk result (λ c. MayLeave self.now.past.now c.items) }
    {
        let safe = self.safe.as_slice();
        let mut left = Vec::new(self.alloc);
        for (place, byte) in self.disk.bytes().iter().enumerate() {
            left.push(torn_byte(safe, place, *byte, fill))?;
        }
        Ok(left)
    }

    // Counts a fault.
    fn fail(&mut self) -> Failed
        ensures { self.new ≡ record self.old { faults = one_more self.old.faults } }
    {
        self.faults = raised(self.faults);
        Failed
    }

    // Counts a call, and answers whether it is to fail.
    fn is_next_refused(&mut self, moment: u64) -> bool
        ensures fails { result ≡ true → IsToFail self.old moment }
        ensures begins { result ≡ false → (IsToFail self.old moment → ⊥) }
        ensures calls { self.new ≡ record self.old { calls = one_more self.old.calls } }
        ensures left { MayLeave self.old.past.now self.old.held }
    {
        self.calls = raised(self.calls);
        self.failing.contains(&self.calls) || self.stop < moment
    }

    // Syncs, where these are the bytes that it holds.
    #[tactic(auto, using(kp_io::proofs::Written::settled_left))]
    fn sync_copied(&mut self, safe: Vec<u8>, moments: &mut u64) -> Result<(), Failed>
        requires copied { safe.items ≡ self.old.held }
        ensures keeps { OnOk result (self.new.held ≡ self.old.held) }
        ensures past { OnOk result (self.new.past ≡ synced moments.new self.old.held self.old.past) }
        ensures past_err { OnErr result (IsNotedOrNot (unsynced moments.new) (Some self.old.past) (Some self.new.past)) }
        ensures was_left { IsLeft (Some self.old.past) (Some self.new.held) }
        ensures cause { HasCause self.old.faults self.new.faults result }
        ensures moment { moments.new ≡ one_more moments.old }
    {
        match self.disk.sync(moments) {
            Ok(()) => {
                self.safe = safe;
                Ok(())
            }
            Err(_) => Err(self.fail()),
        }
    }
}

impl Disk for FaultyDisk {
    ghost held = { λ d. Some d.held };

    ghost past = { λ d. Some d.past };

    ghost faults = { λ d. d.faults };

    fn len(&mut self, moments: &mut u64) -> Result<u64, Failed>
        ensures length { IfOk result (λ n. TellsLength (Some self.old.held) n) }
        ensures keeps { IsUntouched self.old self.new }
        ensures cause { HasCause self.old.faults self.new.faults result }
        ensures moment { moments.new ≡ one_more moments.old }
        ensures fails { IsToFail self.old moments.new → IsErr result }
    {
        if self.is_next_refused(raised(*moments)) {
            *moments = raised(*moments);
            return Err(self.fail());
        }
        match self.disk.len(moments) {
            Ok(len) => Ok(len),
            Err(_) => Err(self.fail()),
        }
    }

    fn read(&mut self, at: u64, into: &mut [u8], moments: &mut u64) -> Result<usize, Failed>
        ensures bound { ReadsAtMost result into.new }
        ensures bytes { IfOk result (λ n. ReadsAt (Some self.old.held) at n into.new) }
        ensures keeps { IsUntouched self.old self.new }
        ensures cause { HasCause self.old.faults self.new.faults result }
        ensures moment { moments.new ≡ one_more moments.old }
        ensures fails { IsToFail self.old moments.new → IsErr result }
    {
        if self.is_next_refused(raised(*moments)) {
            *moments = raised(*moments);
            return Err(self.fail());
        }
        match self.disk.read(at, into, moments) {
            Ok(count) => Ok(count),
            Err(_) => Err(self.fail()),
        }
    }

    #[tactic(auto, using(kp_io::proofs::Written::worn_holds, crate::proofs::Safe::write_keeps))]
    fn write_at(&mut self, at: u64, bytes: &[u8], moments: &mut u64) -> Result<(), Failed>
        requires inside { at ≤ length self.old.held }
        requires end { at + length bytes.now ≤ 2 ^ 40 }
        ensures bytes { OnOk result (self.new.held ≡ written_at at bytes.now self.old.held) }
        ensures past { OnOk result (self.new.past ≡ wrote moments.new at (length bytes.now) self.old.past) }
        ensures past_err { OnErr result (IsNotedOrNot (wrote moments.new at (length bytes.now)) (Some self.old.past) (Some self.new.past)) }
        ensures left { OnErr result (IsLeft (Some self.new.past) (Some self.new.held)) }
        ensures cause { HasCause self.old.faults self.new.faults result }
        ensures moment { moments.new ≡ one_more moments.old }
        ensures fails { IsToFail self.old moments.new → IsErr result }
        ensures untouched { IsToFail self.old moments.new → IsUntouched self.old self.new }
    {
        if self.is_next_refused(raised(*moments)) {
            *moments = raised(*moments);
            return Err(self.fail());
        }
        match self.disk.write_at(at, bytes, moments) {
            Ok(()) => Ok(()),
            Err(_) => Err(self.fail()),
        }
    }

    #[tactic(auto, using(kp_io::proofs::Written::shortened_holds, crate::proofs::Safe::cut_keeps))]
    fn cut(&mut self, len: u64, moments: &mut u64) -> Result<(), Failed>
        ensures bytes { OnOk result (self.new.held ≡ cut_to len self.old.held) }
        ensures past { OnOk result (self.new.past ≡ cut_down moments.new len self.old.past) }
        ensures past_err { OnErr result (IsNotedOrNot (cut_down moments.new len) (Some self.old.past) (Some self.new.past)) }
        ensures left { OnErr result (IsLeft (Some self.new.past) (Some self.new.held)) }
        ensures cause { HasCause self.old.faults self.new.faults result }
        ensures moment { moments.new ≡ one_more moments.old }
        ensures fails { IsToFail self.old moments.new → IsErr result }
        ensures untouched { IsToFail self.old moments.new → IsUntouched self.old self.new }
    {
        if self.is_next_refused(raised(*moments)) {
            *moments = raised(*moments);
            return Err(self.fail());
        }
        match self.disk.cut(len, moments) {
            Ok(()) => Ok(()),
            Err(_) => Err(self.fail()),
        }
    }

    #[tactic(auto, using(kp_io::proofs::Written::settled_left))]
    fn sync(&mut self, moments: &mut u64) -> Result<(), Failed>
        ensures keeps { OnOk result (self.new.held ≡ self.old.held) }
        ensures past { OnOk result (self.new.past ≡ synced moments.new self.old.held self.old.past) }
        ensures past_err { OnErr result (IsNotedOrNot (unsynced moments.new) (Some self.old.past) (Some self.new.past)) }
        ensures was_left { IsLeft (Some self.old.past) (Some self.new.held) }
        ensures cause { HasCause self.old.faults self.new.faults result }
        ensures moment { moments.new ≡ one_more moments.old }
        ensures fails { IsToFail self.old moments.new → IsErr result }
        ensures untouched { IsToFail self.old moments.new → IsUntouched self.old self.new }
    {
        if self.is_next_refused(raised(*moments)) {
            *moments = raised(*moments);
            return Err(self.fail());
        }
        let copied = Vec::from_slice(self.alloc, self.disk.bytes());
        match copied {
            Ok(safe) => self.sync_copied(safe, moments),
            Err(_) => {
                *moments = raised(*moments);
                Err(self.fail())
            }
        }
    }

    fn faults(&self) -> u64
        ensures { result ≡ self.now.faults }
    {
        self.faults
    }
}
