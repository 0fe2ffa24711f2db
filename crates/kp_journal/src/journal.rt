//! A journal: what was found in it, and where batches are added.

ghost use Rattle.std.specs.Prelude.{ℕ, List, Some, Ok, ◌≡◌, ◌+◌, ◌^◌, ◌<◌, ◌≤◌, ◌↔◌, false, length, slice_get, OnOk, OnErr, IfOk, IfSome, IsErrOf};
ghost use Rattle.std.specs.Option.{option_map};
ghost use Rattle.kp_io.specs.Crash.{LeavesIf, IsLeft, IsSettled, HasRoom};
ghost use Rattle.kp_io.specs.Faults.{Rose};
ghost use Rattle.kp_entry.specs.Records.{spelled, has_base};
ghost use Rattle.kp_journal.specs.declared.fail.JournalFail.TheVariants as fail;
ghost use Rattle.kp_journal.specs.Gates.{appended};
ghost use Rattle.kp_journal.specs.Journals.{Journaled, journal_of, with_batch, IsWithOrWithout, StandsFor, up_to, unread};
ghost use Rattle.kp_journal.specs.Answers.{Tells, IsOfAppend};

use crate::disk::read_disk;
use crate::fail::JournalFail;
use crate::found::Found;
use crate::gate::append;
use crate::head::{HEAD_LEN, Head, is_open, read_head};
use kp_entry::Records;
use kp_io::Disk;
use std::alloc::Global;
use std::marker::Model;

/// The most bytes that a journal has.
const MOST: u64 = 1 << 40;

/// A journal: its head, the records that were found in it, and the place of the closed gate behind which the next batch
/// goes.
#[derive(Drop)]
pub struct Journal {
    head: Head,
    found: Found,
    gate: u64,
}

impl Model for Journal {
    ghost use Rattle.std.specs.Prelude.{◌<◌, ◌^◌};
    ghost use Rattle.kp_journal.specs.Journals.{Journaled};

    ghost Value = { Journaled };

    ghost view = { λ j. record { head = j.head; run = j.found; gate = j.gate } };

    ghost invariant = { λ j. j.gate < 2 ^ 63 };
}

impl Journal {
    /// Reads the journal that the disk holds, of a home of this node. `Closed` comes exactly where the head isn't open.
    /// Otherwise `Damaged` comes exactly where the head or what stands behind an open gate is outside the format. Bytes
    /// behind the first gate that isn't open are not looked at.
    pub fn read_all<D: Disk>(
        alloc: Global,
        disk: &mut D,
        node: u8,
        moments: &mut u64,
    ) -> Result<Journal, JournalFail>
        ensures read { IfSome (D.held disk.old) (λ xs. Tells result (journal_of node xs)) }
        ensures node { IfOk result (λ j. j.head.node ≡ node) }
        ensures stands { IfOk result (λ j. IfSome (D.held disk.new) (StandsFor j)) }
        ensures no_full { (len : ℕ) → IsErrOf result (fail.Full len) → ⊥ }
        ensures fault { IsErrOf result fail.DiskFault → Rose (D.faults disk.old) (D.faults disk.new) }
        ensures quiet { OnOk result (D.faults disk.new ≡ D.faults disk.old) }
        ensures keeps { D.held disk.new ≡ D.held disk.old }
        ensures past { D.past disk.new ≡ D.past disk.old }
        ensures moment { moments.old ≤ moments.new }
    {
        let bytes = read_disk(alloc, disk, moments)?;
        let journal = journal_from(alloc, &bytes, node);
        drop(bytes);
        journal
    }

    /// A new journal with this head and one batch of `len` bytes, of which no record is read. Takes no memory.
    pub fn fresh(alloc: Global, head: Head, len: u32) -> Journal
        ensures { result ≡ unread head (27 + len) }
    {
        Journal {
            head,
            found: Found::new(alloc),
            gate: HEAD_LEN as u64 + 5 + u64::from(len),
        }
    }

    /// The records that `read_all` found.
    pub fn records(&self) -> &Records
        ensures { result.now ≡ self.now.run.records }
    {
        self.found.records()
    }

    /// The place of the first byte of the record at this place of `records`, counted from 0. None exactly where there is
    /// no such record.
    pub fn place(&self, index: usize) -> Option<u64>
        ensures place { result ≡ slice_get self.now.run.places index }
        ensures count { length self.now.run.places ≡ length self.now.run.records }
    {
        self.found.place(index)
    }

    /// What the head says.
    pub fn head(&self) -> Head
        ensures { result ≡ self.now.head }
    {
        self.head
    }

    /// The generation that the head says.
    pub fn generation(&self) -> u64
        ensures { result ≡ self.now.head.generation }
    {
        self.head.generation
    }

    /// How many bytes the image has, by the head.
    pub fn image_len(&self) -> u64
        ensures { result ≡ self.now.head.image_len }
    {
        self.head.image_len
    }

    /// Adds a batch. Takes no memory. A crash at any moment leaves the journal with the batch or without it; after Ok it
    /// leaves it with the batch. After `DiskFault` it leaves one of the two, and this value is to be dropped. `Full` comes
    /// exactly where the journal would be longer than 2^40 bytes, and changes nothing.
    pub fn append_batch<D: Disk>(
        &mut self,
        disk: &mut D,
        records: &Records,
        moments: &mut u64,
    ) -> Result<(), JournalFail>
        requires stands { IfSome (D.held disk.old) (StandsFor self.old) }
        requires no_base { has_base records.now ≡ false }
        ensures done { (xs : List ℕ) (v : Journaled) → D.held disk.old ≡ Some xs → journal_of self.old.head.node xs ≡ Ok v → v.gate ≡ self.old.gate
            → OnOk result (IfSome (D.held disk.new) (λ ys. journal_of self.old.head.node ys ≡ Ok (with_batch records.now v))) }
        ensures held { OnOk result (D.held disk.new ≡ option_map (appended self.old.gate (spelled records.now)) (D.held disk.old)) }
        ensures journal { OnOk result (self.new ≡ up_to (self.old.gate + 5 + length (spelled records.now)) self.old) }
        ensures journal_err { OnErr result (self.new ≡ self.old) }
        ensures settled { (xs : List ℕ) → D.held disk.old ≡ Some xs → IsSettled moments.old xs (D.past disk.old) → HasRoom moments.new
            → OnOk result (IsSettled moments.new (appended self.old.gate (spelled records.now) xs) (D.past disk.new)) }
        ensures crash { (xs : List ℕ) (v : Journaled) → D.held disk.old ≡ Some xs → journal_of self.old.head.node xs ≡ Ok v → v.gate ≡ self.old.gate
            → IsSettled moments.old xs (D.past disk.old) → HasRoom moments.new
            → LeavesIf moments.old moments.new (IsWithOrWithout self.old.head.node v records.now) (D.past disk.old) (D.past disk.new) }
        ensures left { IsLeft (D.past disk.old) (D.held disk.old) → IsLeft (D.past disk.new) (D.held disk.new) }
        ensures full { (len : ℕ) → IsErrOf result (fail.Full len) ↔ ((2 ^ 40 < len) × (len ≡ self.old.gate + 6 + length (spelled records.now))) }
        ensures full_same { (len : ℕ) → IsErrOf result (fail.Full len) → (disk.new ≡ disk.old) × (moments.new ≡ moments.old) }
        ensures fault { IsErrOf result fail.DiskFault → Rose (D.faults disk.old) (D.faults disk.new) }
        ensures quiet { OnOk result (D.faults disk.new ≡ D.faults disk.old) }
        ensures only { (f : JournalFail) → IsErrOf result f → IsOfAppend f }
        ensures moment { moments.old ≤ moments.new }
    {
        let body = records.bytes();
        let len = self.gate + 6 + body.len() as u64;
        if len > MOST {
            return Err(JournalFail::Full { len });
        }
        append(disk, self.gate, body, moments)?;
        self.gate += 5 + body.len() as u64;
        Ok(())
    }
}

// What the bytes of a journal stand for in a home of this node.
fn journal_from(alloc: Global, bytes: &[u8], node: u8) -> Result<Journal, JournalFail>
    ensures read { Tells result (journal_of node bytes.now) }
    ensures node { IfOk result (λ j. j.head.node ≡ node) }
    ensures no_fault { IsErrOf result fail.DiskFault → ⊥ }
{
    if !is_open(bytes) {
        return Err(JournalFail::Closed);
    }
    let head = read_head(bytes, node)?;
    let mut found = Found::new(alloc);
    match found.read_batches(alloc, bytes, HEAD_LEN) {
        Ok(gate) => Ok(Journal {
            head,
            found,
            gate: gate as u64,
        }),
        Err(fail) => {
            drop(found);
            Err(JournalFail::from(fail))
        }
    }
}
