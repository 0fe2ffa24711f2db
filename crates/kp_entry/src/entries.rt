//! Lists of entries, held as their bytes.

ghost use Rattle.std.specs.Prelude.{◌≡◌, ◌^◌, ◌<◌, ◌≤◌, ◌==◌, [], ◌∷◌, ◌++◌, length, map, slice_get, option_map, Some, IfOk, IfSome, OnOk, OnErr};
ghost use Rattle.kp_entry.specs.Entries.{entries};
ghost use Rattle.kp_entry.specs.Pieces.{pieces, AreOf};
ghost use Rattle.kp_entry.specs.Spellings.{entry_of, IsEntryBytes, AreEntries};

use crate::entry::decode;
use crate::pieces::Pieces;
use crate::put_body::put_entry;
use kp_jute::Reader;
use kp_model::limits::LONGEST_FIELD;
use kp_model::{Duplicate, Entry, NoMemory};
use std::alloc::Global;
use std::marker::Model;

/// Log entries in their order, fewer than 2^32. They stand as their bytes in one vector, from which they are lent: so a
/// list is copied, added to a log and written down without reading what its entries say.
#[derive(Drop)]
pub struct Entries {
    alloc: Global,
    pieces: Pieces,
}

impl Model for Entries {
    ghost use Rattle.std.specs.Prelude.{List, map};
    ghost use Rattle.std.specs.Coded.{coded_list};
    ghost use Rattle.kp_model.specs.LogEntry.{LogEntry};
    ghost use Rattle.kp_model.specs.contracts.entry.Entry as entry;
    ghost use Rattle.kp_entry.specs.Spellings.{entry_of, AreEntries};

    ghost Value = { List LogEntry };

    ghost coded = { coded_list entry.the_row.coded };

    ghost view = { λ e. map entry_of e.pieces.strings };

    ghost invariant = { λ e. AreEntries e.pieces.strings };
}

impl Entries {
    /// No entries. Takes no memory.
    pub fn new(alloc: Global) -> Entries
        ensures { result ≡ [] }
    {
        Entries {
            alloc,
            pieces: Pieces::new(alloc),
        }
    }

    /// The entries that these bytes spell, one behind the other, of which each ends at the place in the bytes that `ends`
    /// says. Takes no memory.
    pub fn joined(alloc: Global, bytes: Vec<u8>, ends: Vec<usize>) -> Entries
        requires ended { AreOf bytes.items ends.items (pieces 0 bytes.items ends.items) }
        requires spelled { AreEntries (pieces 0 bytes.items ends.items) }
        ensures { result ≡ map entry_of (pieces 0 bytes.items ends.items) }
    {
        Entries {
            alloc,
            pieces: Pieces::joined(bytes, ends),
        }
    }

    /// The number of entries.
    pub fn len(&self) -> usize
        ensures len { result ≡ length self.now }
        ensures few { length self.now < 2 ^ 32 }
    {
        self.pieces.len()
    }

    /// Whether there are none.
    pub fn is_empty(&self) -> bool
        ensures { result ≡ (length self.now == 0) }
    {
        self.len() == 0
    }

    /// Lends the bytes of the entry at this place, counted from 0.
    #[tactic(auto, using(crate::proofs::Spelled::spelled_at, crate::proofs::Spelled::fits_at))]
    pub fn bytes_at(&self, index: usize) -> Option<&[u8]>
        ensures bytes { option_map (λ s. s.now) result ≡ option_map entries.spell (slice_get self.now index) }
        ensures fits { IfSome (slice_get self.now index) entries.Fits }
    {
        self.pieces.get(index)
    }

    /// The term of the entry at this place, counted from 0. The rest of the entry isn't looked at.
    pub fn term_at(&self, index: usize) -> Option<u64>
        ensures term { result ≡ option_map (λ e. e.term) (slice_get self.now index) }
        ensures range { IfSome result (λ term. term ≤ 2 ^ 62) }
    {
        match self.bytes_at(index) {
            None => None,
            Some(bytes) => Some(spelled_term(bytes)),
        }
    }

    /// The term of the entry at this place, where there is one.
    pub fn term_of(&self, index: usize) -> u64
        requires { index < length self.now }
        ensures term { Some result ≡ option_map (λ e. e.term) (slice_get self.now index) }
        ensures range { result ≤ 2 ^ 62 }
    {
        match self.term_at(index) {
            None => 0,
            Some(term) => term,
        }
    }

    /// The entry at this place, counted from 0, read from its bytes.
    pub fn get(&self, alloc: Global, index: usize) -> Result<Option<Entry>, NoMemory>
        ensures { IfOk result (λ found. found ≡ slice_get self.now index) }
    {
        match self.bytes_at(index) {
            None => Ok(None),
            Some(bytes) => Ok(Some(spelled_entry(alloc, bytes)?)),
        }
    }

    /// Makes room for `count` more entries of together `bytes` bytes.
    pub fn reserve(&mut self, count: usize, bytes: usize) -> Result<(), NoMemory>
        ensures { self.new ≡ self.old }
    {
        self.pieces.reserve(count, bytes)
    }

    /// Adds an entry at the end. Answers `NoMemory`, and changes nothing, also where there are 2^32 - 1 already.
    pub fn push(&mut self, entry: &Entry) -> Result<(), NoMemory>
        ensures ok { OnOk result (self.new ≡ self.old ++ entry.now ∷ []) }
        ensures err { OnErr result (self.new ≡ self.old) }
    {
        let mut bytes = Vec::new(self.alloc);
        put_entry(&mut bytes, entry)?;
        self.push_spelled(&bytes)
    }

    /// Adds the entry that these bytes spell at the end, by copying them. Answers `NoMemory`, and changes nothing, also
    /// where there are 2^32 - 1 already.
    pub fn push_spelled(&mut self, bytes: &[u8]) -> Result<(), NoMemory>
        requires { IsEntryBytes bytes.now }
        ensures ok { OnOk result (self.new ≡ self.old ++ entry_of bytes.now ∷ []) }
        ensures err { OnErr result (self.new ≡ self.old) }
    {
        if self.pieces.len() >= LONGEST_FIELD {
            return Err(NoMemory);
        }
        self.pieces.push(&[], bytes)
    }

    /// An equal list with memory of its own.
    pub fn copy(&self, alloc: Global) -> Result<Entries, NoMemory>
        ensures { IfOk result (λ made. made ≡ self.now) }
    {
        let pieces = self.pieces.copy(alloc)?;
        Ok(Entries { alloc, pieces })
    }
}

impl Duplicate for Entries {
    fn duplicate(&self, alloc: Global) -> Result<Entries, NoMemory> {
        self.copy(alloc)
    }
}

/// The term of the entry that these bytes spell, which is its first field.
#[tactic(auto, using(crate::proofs::Spelled::term_small))]
pub fn spelled_term(bytes: &[u8]) -> u64
    requires { IsEntryBytes bytes.now }
    ensures term { result ≡ (entry_of bytes.now).term }
    ensures range { result ≤ 2 ^ 62 }
{
    match Reader::new(bytes).unsigned_long() {
        Ok(term) => term,
        Err(fail) => {
            let _kept = fail;
            0
        }
    }
}

/// The entry that these bytes spell.
pub fn spelled_entry(alloc: Global, bytes: &[u8]) -> Result<Entry, NoMemory>
    requires { IsEntryBytes bytes.now }
    ensures { IfOk result (λ entry. entry ≡ entry_of bytes.now) }
{
    match decode(alloc, bytes) {
        Ok((entry, _len)) => Ok(entry),
        Err(_) => Err(NoMemory),
    }
}
