//! The log of a member.

ghost use Rattle.std.specs.Prelude.{◌≡◌, ◌+◌, ◌-◌, ◌^◌, ◌<◌, ◌≤◌, [], ◌∷◌, ◌++◌, length, map, drop, take, option_map, IfOk, IfSome, IsOk, OnOk, OnErr};
ghost use Rattle.std.specs.List.{AllByRecursion};
ghost use Rattle.kp_entry.specs.Entries.{entries};
ghost use Rattle.kp_entry.specs.Heads.{part_of};
ghost use Rattle.kp_entry.specs.Log.{based_at, batch, behind, last_index, term_at, entry_at, with_entries, truncated, compacted};
ghost use Rattle.kp_raftlog.specs.Kept.{joined};

use crate::batch::batch_ends;
use crate::strings::{pop_before, pop_behind, push_all, total_len};
use kp_entry::{Entries, encode, spelled_term};
use kp_model::{Entry, NoMemory};
use kp_region::Region;
use std::alloc::Global;
use std::marker::Model;

/// A base, which is the index up to which an image stands for the log and the term of the entry there, and the entries
/// behind it. They stand as bytes in one region, from which they are lent: so a look-up takes the same time wherever it
/// is in the log, and what leaves the log costs one step an entry.
#[derive(Drop)]
pub struct RaftLog {
    alloc: Global,
    region: Region,
    base: u64,
    base_term: u64,
    last: u64,
}

impl Model for RaftLog {
    ghost use Rattle.kp_entry.specs.Log.{Log, log_code};
    ghost use Rattle.kp_raftlog.specs.Kept.{shown, HoldsTogether};

    ghost Value = { Log };

    ghost coded = { log_code };

    ghost view = { λ l. shown l.region l.base l.base_term };

    ghost invariant = { λ l. HoldsTogether l.region l.base l.base_term l.last };
}

impl RaftLog {
    /// The log behind the base of index 0, without entries. Takes no memory.
    pub fn new(alloc: Global) -> RaftLog
        ensures { result ≡ based_at 0 0 }
    {
        RaftLog::based_at(alloc, 0, 0)
    }

    /// The log behind this base, without entries. Takes no memory.
    pub fn based_at(alloc: Global, index: u64, term: u64) -> RaftLog
        requires index { index ≤ 2 ^ 62 }
        requires term { term ≤ 2 ^ 62 }
        ensures { result ≡ based_at index term }
    {
        RaftLog {
            alloc,
            region: Region::new(alloc),
            base: index,
            base_term: term,
            last: index,
        }
    }

    /// The index of the last entry, or that of the base where there is none.
    pub fn last(&self) -> u64
        ensures index { result ≡ last_index self.now }
        ensures range { result ≤ 2 ^ 62 }
    {
        self.last
    }

    /// The index and the term of the base.
    pub fn base(&self) -> (u64, u64)
        ensures base { result ≡ (self.now.base, self.now.base_term) }
        ensures index { self.now.base ≤ last_index self.now }
        ensures range { self.now.base_term ≤ 2 ^ 62 }
    {
        (self.base, self.base_term)
    }

    /// Lends the bytes of the entry of this index. None exactly where there is no such entry.
    pub fn bytes_at(&self, index: u64) -> Option<&[u8]>
        ensures bytes { option_map (λ s. s.now) result ≡ option_map entries.spell (entry_at self.now index) }
        ensures fits { IfSome (entry_at self.now index) entries.Fits }
    {
        if index <= self.base || index > self.last {
            return None;
        }
        self.region.get(index - self.base - 1 + self.region.first())
    }

    /// The term at this index. None exactly where it is neither that of the base nor of an entry. Of an entry's bytes no
    /// more than its term is read.
    pub fn term_at(&self, index: u64) -> Option<u64>
        ensures term { result ≡ term_at self.now index }
        ensures range { IfSome result (λ t. t ≤ 2 ^ 62) }
    {
        if index == self.base {
            return Some(self.base_term);
        }
        match self.bytes_at(index) {
            None => None,
            Some(bytes) => Some(spelled_term(bytes)),
        }
    }

    /// A copy of the entries behind the one of index `after` that one message takes: at most 64, and none once the bytes of
    /// those before it have reached 1,048,576. They are adjacent in the log and are copied in one piece.
    pub fn batch(&self, after: u64) -> Result<Entries, NoMemory>
        requires { self.now.base ≤ after }
        ensures { IfOk result (λ es. es ≡ batch 64 1048576 (behind self.now after)) }
    {
        let mut ends = Vec::new(self.alloc);
        batch_ends(self, after, &mut ends)?;
        let count = ends.as_slice().len();
        let bytes = Vec::from_slice(self.alloc, self.bytes_behind(after, count))?;
        Ok(Entries::joined(self.alloc, bytes, ends))
    }

    // The bytes of so many entries behind the one of index `after`, in one piece.
    fn bytes_behind(&self, after: u64, count: usize) -> &[u8]
        requires from { self.now.base ≤ after }
        requires within { count ≤ length (behind self.now after) }
        ensures bytes { result.now ≡ joined (take count (behind self.now after)) }
        ensures fits { AllByRecursion entries.Fits (take count (behind self.now after)) }
    {
        if count == 0 {
            return &[];
        }
        let mark = after - self.base + self.region.first();
        match self.region.run(mark, count) {
            None => &[],
            Some(bytes) => bytes,
        }
    }

    /// Adds the entry at the end.
    pub fn append(&mut self, entry: &Entry) -> Result<(), NoMemory>
        requires { last_index self.old < 2 ^ 62 }
        ensures ok { OnOk result (self.new ≡ with_entries self.old (entry.now ∷ [])) }
        ensures err { OnErr result (self.new ≡ self.old) }
    {
        let bytes = encode(self.alloc, entry)?;
        if self.region.reserve(1, bytes.as_slice().len()).is_err() {
            return Err(NoMemory);
        }
        self.region.push(bytes.as_slice());
        self.last += 1;
        Ok(())
    }

    /// Makes the entries of `from`, from the place `first` on and before `until`, follow the entry of index `keep`, in place
    /// of all that stood there, by copying their bytes. Where there are none of them it takes no memory.
    pub fn replace(
        &mut self,
        keep: u64,
        from: &Entries,
        first: usize,
        until: usize,
    ) -> Result<(), NoMemory>
        requires from { self.old.base ≤ keep }
        requires to { keep ≤ last_index self.old }
        requires first { first ≤ until }
        requires until { until ≤ length from.now }
        requires fits { keep + (until - first) ≤ 2 ^ 62 }
        ensures ok { OnOk result (self.new ≡ with_entries (truncated self.old keep) (part_of first until from.now)) }
        ensures err { OnErr result (self.new ≡ self.old) }
        ensures free { first ≡ until → IsOk result }
    {
        if first == until {
            self.truncate(keep);
            return Ok(());
        }
        let Some(bytes) = total_len(from, first, until) else {
            return Err(NoMemory);
        };
        if self.region.reserve(until - first, bytes).is_err() {
            return Err(NoMemory);
        }
        pop_behind(&mut self.region, self.last - keep);
        push_all(&mut self.region, from, first, until);
        self.last = keep + (until - first) as u64;
        Ok(())
    }

    /// The entries up to this index stay. Takes no memory.
    pub fn truncate(&mut self, last: u64)
        requires from { self.old.base ≤ last }
        requires to { last ≤ last_index self.old }
        ensures { self.new ≡ truncated self.old last }
    {
        pop_behind(&mut self.region, self.last - last);
        self.last = last;
    }

    /// The entry of this index becomes the base. Takes no memory.
    pub fn compact(&mut self, index: u64)
        requires from { self.old.base ≤ index }
        requires to { index ≤ last_index self.old }
        ensures { self.new ≡ compacted self.old index }
    {
        if let Some(term) = self.term_at(index) {
            pop_before(&mut self.region, index - self.base);
            self.base = index;
            self.base_term = term;
        }
    }

    /// The base becomes this one, and no entry stays. Takes no memory.
    pub fn rebase(&mut self, index: u64, term: u64)
        requires index { index ≤ 2 ^ 62 }
        requires term { term ≤ 2 ^ 62 }
        ensures { self.new ≡ based_at index term }
    {
        pop_before(&mut self.region, self.last - self.base);
        self.base = index;
        self.base_term = term;
        self.last = index;
    }
}
