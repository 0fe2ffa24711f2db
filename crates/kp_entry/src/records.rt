//! Lists of records, which are held as their bytes.

ghost use Rattle.std.specs.Prelude.{◌≡◌, [], ◌∷◌, ◌++◌, ◌^◌, ◌<◌, ◌≤◌, false, length, take, slice_get, IfOk, OnOk, OnErr};
ghost use Rattle.std.specs.Option.{is_some};
ghost use Rattle.kp_entry.specs.declared.record.Record.TheVariants as record_;
ghost use Rattle.kp_entry.specs.Records.{IsRun, has_base, records, spelled};
ghost use Rattle.kp_entry.specs.Heads.{appended, part_of};
ghost use Rattle.kp_entry.specs.Spellings.{record_of, listed, Spells, IsRecordBytes, IsBaseOf, FitsBase, AreRecords};

use crate::entries::Entries;
use crate::pieces::Pieces;
use crate::put_body::put_entry;
use crate::put_fields::put_byte;
use crate::record::{APPEND, Record, put_record, read_record};
use kp_jute::Reader;
use kp_model::limits::{LAST_NUMBER, LONGEST_FIELD};
use kp_model::{Entry, NoMemory};
use std::alloc::Global;
use std::marker::Model;

/// The index and the term of a base.
#[derive(Clone, Copy)]
pub(crate) struct Base {
    pub(crate) index: u64,
    pub(crate) term: u64,
}

/// Records in their order, held as their bytes: so they are written down without memory, and an entry's bytes are copied
/// into them without reading what it says. A base has no bytes and is only ever the last.
#[derive(Drop)]
pub struct Records {
    alloc: Global,
    pieces: Pieces,
    base: Option<Base>,
}

impl Model for Records {
    ghost use Rattle.std.specs.Prelude.{List};
    ghost use Rattle.std.specs.Coded.{coded_list};
    ghost use Rattle.kp_entry.specs.declared.record.Record.{Record};
    ghost use Rattle.kp_entry.specs.contracts.record.Record as record_;
    ghost use Rattle.kp_entry.specs.Spellings.{listed, AreRecords};

    ghost Value = { List Record };

    ghost coded = { coded_list record_.the_row.coded };

    ghost view = { λ r. listed r.pieces.strings r.base };

    ghost invariant = { λ r. AreRecords r.pieces.strings r.base };
}

impl Records {
    /// No records. Takes no memory.
    pub fn new(alloc: Global) -> Records
        ensures { result ≡ [] }
    {
        Records {
            alloc,
            pieces: Pieces::new(alloc),
            base: None,
        }
    }

    // The records of these strings, and a base behind them.
    pub(crate) fn from_parts(alloc: Global, pieces: Pieces, base: Option<Base>) -> Records
        requires { AreRecords pieces.strings base }
        ensures { result ≡ listed pieces.strings base }
    {
        Records {
            alloc,
            pieces,
            base,
        }
    }

    /// The number of records.
    pub fn len(&self) -> usize
        ensures { result ≡ length self.now }
    {
        if self.base.is_some() {
            self.pieces.len() + 1
        } else {
            self.pieces.len()
        }
    }

    /// The record at this place, counted from 0, read from its bytes.
    pub fn get(&self, alloc: Global, index: usize) -> Result<Option<Record>, NoMemory>
        ensures { IfOk result (λ found. found ≡ slice_get self.now index) }
    {
        match self.pieces.get(index) {
            Some(bytes) => Ok(Some(spelled_record(alloc, bytes)?)),
            None => Ok(base_at(self.base, index.saturating_sub(self.pieces.len()))),
        }
    }

    /// Whether there is a base, which is the last one then.
    pub fn has_base(&self) -> bool
        ensures { result ≡ has_base self.now }
    {
        self.base.is_some()
    }

    /// The bytes of the records, one behind the other.
    pub fn bytes(&self) -> &[u8]
        ensures spelled { result.now ≡ spelled self.now }
        ensures run { IsRun self.now }
        ensures small { length result.now < 2 ^ 32 }
    {
        self.pieces.bytes()
    }

    /// Adds a record at the end, with its bytes. Answers `NoMemory`, and changes nothing, also where one of its
    /// numbers is out of its range and where the bytes of all records together would be 2^32 or more.
    pub fn push(&mut self, record: &Record) -> Result<(), NoMemory>
        requires { has_base self.old ≡ false }
        ensures ok { OnOk result (self.new ≡ self.old ++ «record».now ∷ []) }
        ensures err { OnErr result (self.new ≡ self.old) }
    {
        match base_of(record) {
            Some(base) => self.end_with(base),
            None => self.push_with_bytes(record),
        }
    }

    /// Adds the record of an entry at the end. Answers `NoMemory`, and changes nothing, also where the bytes of all
    /// records together would be 2^32 or more.
    pub fn push_entry(&mut self, entry: &Entry) -> Result<(), NoMemory>
        requires { has_base self.old ≡ false }
        ensures ok { OnOk result (self.new ≡ self.old ++ record_.Append entry.now ∷ []) }
        ensures err { OnErr result (self.new ≡ self.old) }
    {
        let mut bytes = Vec::new(self.alloc);
        put_entry(&mut bytes, entry)?;
        self.add(&[APPEND], &bytes)
    }

    /// Adds the record that these bytes spell at the end, by copying them. Answers `NoMemory`, and changes nothing, also
    /// where the bytes of all records together would be 2^32 or more.
    pub fn push_spelled(&mut self, bytes: &[u8]) -> Result<(), NoMemory>
        requires none { has_base self.old ≡ false }
        requires spelled { IsRecordBytes bytes.now }
        ensures ok { OnOk result (self.new ≡ self.old ++ record_of bytes.now ∷ []) }
        ensures err { OnErr result (self.new ≡ self.old) }
    {
        self.add(&[], bytes)
    }

    /// Adds the records of the entries from the place `first` on and before `until` at the end, by copying their bytes.
    /// Answers `NoMemory`, and changes nothing, also where the bytes of all records together would be 2^32 or more.
    pub fn push_entries(
        &mut self,
        from: &Entries,
        first: usize,
        until: usize,
    ) -> Result<(), NoMemory>
        requires none { has_base self.old ≡ false }
        requires from { first ≤ until }
        requires to { until ≤ length from.now }
        ensures ok { OnOk result (self.new ≡ self.old ++ appended (part_of first until from.now)) }
        ensures err { OnErr result (self.new ≡ self.old) }
    {
        let len = self.len();
        for index in first..until {
            if self.append_at(from, index).is_err() {
                self.keep(len);
                return Err(NoMemory);
            }
        }
        Ok(())
    }

    /// Keeps the first `count` records, or all where there are fewer. Takes no memory.
    pub fn keep(&mut self, count: usize)
        ensures { self.new ≡ take count self.old }
    {
        if count <= self.pieces.len() {
            self.pieces.truncate(count);
            self.base = None;
        }
    }

    /// Adds copies of the records at the end. Answers `NoMemory`, and changes nothing, also where the bytes of all
    /// records together would be 2^32 or more.
    pub fn join(&mut self, more: &Records) -> Result<(), NoMemory>
        requires here { has_base self.old ≡ false }
        requires there { has_base more.now ≡ false }
        ensures ok { OnOk result (self.new ≡ self.old ++ more.now) }
        ensures err { OnErr result (self.new ≡ self.old) }
    {
        let len = self.len();
        let count = more.len();
        for index in 0..count {
            if self.copy_at(more, index).is_err() {
                self.keep(len);
                return Err(NoMemory);
            }
        }
        Ok(())
    }

    /// An equal list with memory of its own.
    pub fn copy(&self) -> Result<Records, NoMemory>
        ensures { IfOk result (λ made. made ≡ self.now) }
    {
        let pieces = self.pieces.copy(self.alloc)?;
        Ok(Records {
            alloc: self.alloc,
            pieces,
            base: self.base,
        })
    }
}

// One record more.
impl Records {
    // Adds the record whose bytes are given in two parts.
    fn add(&mut self, head: &[u8], tail: &[u8]) -> Result<(), NoMemory>
        requires none { has_base self.old ≡ false }
        requires spelled { IsRecordBytes (head.now ++ tail.now) }
        ensures ok { OnOk result (self.new ≡ self.old ++ record_of (head.now ++ tail.now) ∷ []) }
        ensures err { OnErr result (self.new ≡ self.old) }
    {
        if head.len() + tail.len() > LONGEST_FIELD - self.pieces.bytes().len() {
            return Err(NoMemory);
        }
        self.pieces.push(head, tail)
    }

    fn push_with_bytes(&mut self, record: &Record) -> Result<(), NoMemory>
        requires none { has_base self.old ≡ false }
        requires no_base { Rattle.kp_entry.specs.Records.is_base «record».now ≡ false }
        ensures ok { OnOk result (self.new ≡ self.old ++ «record».now ∷ []) }
        ensures err { OnErr result (self.new ≡ self.old) }
    {
        let mut bytes = Vec::new(self.alloc);
        put_record(&mut bytes, record)?;
        self.add(&[], &bytes)
    }

    fn end_with(&mut self, base: Base) -> Result<(), NoMemory>
        requires { has_base self.old ≡ false }
        ensures ok { OnOk result (self.new ≡ self.old ++ record_.Base base.index base.term ∷ []) }
        ensures err { OnErr result (self.new ≡ self.old) }
    {
        if base.index > LAST_NUMBER || base.term > LAST_NUMBER {
            return Err(NoMemory);
        }
        self.base = Some(base);
        Ok(())
    }

    // Adds the record of the entry at this place.
    fn append_at(&mut self, from: &Entries, index: usize) -> Result<(), NoMemory>
        requires none { has_base self.old ≡ false }
        requires there { index < length from.now }
        ensures ok { OnOk result (self.new ≡ self.old ++ appended (take 1 (Rattle.std.specs.Prelude.drop index from.now))) }
        ensures err { OnErr result (self.new ≡ self.old) }
    {
        match from.bytes_at(index) {
            None => Ok(()),
            Some(bytes) => self.add(&[APPEND], bytes),
        }
    }

    // Adds the record at this place of another list.
    fn copy_at(&mut self, more: &Records, index: usize) -> Result<(), NoMemory>
        requires none { has_base self.old ≡ false }
        requires there { has_base more.now ≡ false }
        requires within { index < length more.now }
        ensures ok { OnOk result (self.new ≡ self.old ++ take 1 (Rattle.std.specs.Prelude.drop index more.now)) }
        ensures err { OnErr result (self.new ≡ self.old) }
    {
        match more.pieces.get(index) {
            None => Ok(()),
            Some(bytes) => self.add(&[], bytes),
        }
    }
}

// The base that the record is.
fn base_of(record: &Record) -> Option<Base>
    ensures { IsBaseOf «record».now result }
{
    match record {
        Record::Base { index, term } => Some(Base {
            index: *index,
            term: *term,
        }),
        Record::Vote { .. }
        | Record::Boot { .. }
        | Record::Append { .. }
        | Record::Truncate { .. } => None,
    }
}

// The base as the record that is the first of what follows the ones with bytes.
fn base_at(base: Option<Base>, index: usize) -> Option<Record>
    ensures { result ≡ slice_get (listed [] base) index }
{
    match base {
        Some(base) if index == 0 => Some(Record::Base {
            index: base.index,
            term: base.term,
        }),
        _ => None,
    }
}

// The record that these bytes spell.
fn spelled_record(alloc: Global, bytes: &[u8]) -> Result<Record, NoMemory>
    requires { IsRecordBytes bytes.now }
    ensures { IfOk result (λ found. found ≡ record_of bytes.now) }
{
    match read_record(alloc, &mut Reader::new(bytes)) {
        Ok(found) => Ok(found),
        Err(_) => Err(NoMemory),
    }
}
