//! Records that are replayed behind a base.

ghost use Rattle.std.specs.Prelude.{ℕ, List, ◌∷◌, ◌≡◌, ◌+◌, ◌≤◌, ◌^◌, true, drop, get_or, slice_get, OnOk, IfSome};
ghost use Rattle.kp_entry.specs.declared.record.Record.{Record};
ghost use Rattle.kp_entry.specs.Held.{replay_one};
ghost use Rattle.kp_entry.specs.Records.{IsRecord, IsRun};
ghost use Rattle.kp_homes.specs.Opening.{boot_by, is_fit, refused_at, blank_start, restarted, Says, Goes};

use crate::fail::HomeFail;
use kp_entry::{Record, Records};
use kp_journal::Journal;
use kp_model::limits::LAST_NUMBER;
use kp_model::{Entry, NoMemory};
use kp_snapshot::Image;
use std::alloc::Global;
use std::marker::Model;

/// What records leave of a server: how often it was started, its term and vote, and its log.
#[derive(Drop)]
pub(crate) struct Replay {
    base: u64,
    base_term: u64,
    term: u64,
    vote: u8,
    boot: u64,
    entries: Vec<Entry>,
}

impl Model for Replay {
    ghost use Rattle.std.specs.Prelude.{◌≤◌, ◌^◌};
    ghost use Rattle.kp_homes.specs.Opening.{Start};

    ghost Value = { Start };

    ghost view = { λ r. record { boot = r.boot; held = record { term = r.term; vote = r.vote; log = record { base = r.base; base_term = r.base_term; entries = r.entries.items } } } };

    ghost invariant = { λ r. (r.vote ≤ 7) × (r.term ≤ 2 ^ 62) × (r.boot ≤ 2 ^ 62) };
}

impl Replay {
    /// No records behind the image, or behind none. Takes no memory.
    pub(crate) fn behind(alloc: Global, image: &Option<Image>) -> Replay
        ensures value { result ≡ blank_start image.now }
        ensures limit { (Rattle.kp_homes.specs.Opening.base_of image.now).base ≤ 2 ^ 62 }
    {
        let (base, base_term) = base_of(image);
        Replay {
            base,
            base_term,
            term: 0,
            vote: 0,
            boot: 0,
            entries: Vec::new(alloc),
        }
    }

    /// How often the server was started.
    pub(crate) fn boot(&self) -> u64
        ensures is { result ≡ self.now.boot }
        ensures limit { result ≤ 2 ^ 62 }
    {
        self.boot
    }

    /// The term.
    pub(crate) fn term(&self) -> u64
        ensures is { result ≡ self.now.held.term }
        ensures limit { result ≤ 2 ^ 62 }
    {
        self.term
    }

    /// For whom the server voted in its term, or 0.
    pub(crate) fn vote(&self) -> u8
        ensures is { result ≡ self.now.held.vote }
        ensures limit { result ≤ 7 }
    {
        self.vote
    }

    /// The entries behind the base.
    pub(crate) fn into_entries(self) -> Vec<Entry>
        ensures { result.items ≡ self.held.log.entries }
    {
        self.entries
    }

    // Whether the record may stand behind the log so far.
    fn is_fit(&self, next: &Record) -> bool
        ensures { result ≡ is_fit self.now.held.log next.now }
    {
        let len = self.entries.len() as u64;
        match next {
            Record::Vote { .. } | Record::Boot { .. } => true,
            Record::Append { .. } => self.base.saturating_add(len) < LAST_NUMBER,
            Record::Truncate { last } => self.base <= *last && *last - self.base <= len,
            Record::Base { .. } => false,
        }
    }

    // Takes a record in. Of a base, which is no record of a journal, nothing is taken.
    fn take(&mut self, next: Record) -> Result<(), NoMemory>
        requires fit { is_fit self.old.held.log next ≡ true }
        requires is { IsRecord next }
        ensures { OnOk result (self.new ≡ record { boot = boot_by self.old.boot next; held = replay_one self.old.held next }) }
    {
        match next {
            Record::Vote { term, vote } => {
                self.term = term;
                self.vote = vote;
                Ok(())
            }
            Record::Boot { boot } => {
                self.boot = boot;
                Ok(())
            }
            Record::Append { entry } => {
                self.entries.push(entry)?;
                Ok(())
            }
            Record::Truncate { last } => {
                self.entries
                    .truncate(last.saturating_sub(self.base) as usize);
                Ok(())
            }
            Record::Base { .. } => Ok(()),
        }
    }

    // Takes the record at a place of the journal's list in, where it may stand.
    fn take_at(
        &mut self,
        alloc: Global,
        journal: &Journal,
        index: usize,
        slot: u64,
    ) -> Result<(), HomeFail>
        ensures { Goes result (restarted slot self.old (drop index journal.now.run.records) (drop index journal.now.run.places)) (restarted slot self.new (drop (index + 1) journal.now.run.records) (drop (index + 1) journal.now.run.places)) }
    {
        let records = journal.records();
        are_records(records);
        let found = records.get(alloc, index)?;
        let place = journal.place(index).unwrap_or(0);
        self.take_found(found, place, slot)
    }

    // Takes a record in, where there is one, that begins at this place.
    fn take_found(&mut self, found: Option<Record>, place: u64, slot: u64) -> Result<(), HomeFail>
        requires { IfSome found IsRecord }
        ensures { (rs : List Record) (ps : List ℕ) (k : ℕ) → found ≡ slice_get rs k → get_or (drop k ps) 0 0 ≡ place → Goes result (restarted slot self.old (drop k rs) (drop k ps)) (restarted slot self.new (drop (k + 1) rs) (drop (k + 1) ps)) }
    {
        match found {
            None => Ok(()),
            Some(next) => self.take_checked(next, place, slot),
        }
    }

    // Takes a record in that begins at this place, where it may stand.
    fn take_checked(&mut self, next: Record, place: u64, slot: u64) -> Result<(), HomeFail>
        requires { IsRecord next }
        ensures { (rs : List Record) (ps : List ℕ) → get_or ps 0 0 ≡ place → Goes result (restarted slot self.old (next ∷ rs) ps) (restarted slot self.new rs (drop 1 ps)) }
    {
        if !self.is_fit(&next) {
            let at = refused_at(place, &next);
            drop(next);
            return Err(HomeFail::Damaged { slot, at });
        }
        self.take(next)?;
        Ok(())
    }

    /// Takes all records of the journal of a slot in.
    pub(crate) fn take_all(
        &mut self,
        alloc: Global,
        journal: &Journal,
        slot: u64,
    ) -> Result<(), HomeFail>
        ensures { Says (λ _. self.new) result (restarted slot self.old journal.now.run.records journal.now.run.places) }
    {
        let count = journal.records().len();
        let mut index = 0;
        while index < count {
            self.take_at(alloc, journal, index, slot)?;
            index += 1;
        }
        Ok(())
    }
}

// What is in a list of records is in the ranges of the format. There is no code.
fn are_records(records: &Records)
    ensures { IsRun records.now }
{
    let _bytes = records.bytes();
}

// The index and the term of the image's base.
fn base_of(image: &Option<Image>) -> (u64, u64)
    ensures value { (result.0 ≡ (Rattle.kp_homes.specs.Opening.base_of image.now).base) × (result.1 ≡ (Rattle.kp_homes.specs.Opening.base_of image.now).base_term) }
    ensures limit { result.0 ≤ 2 ^ 62 }
{
    match image {
        None => (0, 0),
        Some(image) => {
            image.stays_sound();
            (image.index(), image.term())
        }
    }
}

// Where a record is refused that begins at a place.
fn refused_at(at: u64, next: &Record) -> u64
    ensures { result ≡ refused_at at next.now }
{
    match next {
        Record::Truncate { .. } => at.saturating_add(1),
        Record::Vote { .. } | Record::Boot { .. } | Record::Append { .. } | Record::Base { .. } => {
            at
        }
    }
}
