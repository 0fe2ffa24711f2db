//! Records: what a server must keep of one step.

ghost use Rattle.std.specs.Prelude.{◌≡◌, IfOk, OnOk};
ghost use Rattle.kp_jute.specs.Form.{Gives, Wrote};
ghost use Rattle.kp_entry.specs.declared.kinds.RecordKind.TheVariants as record_tag;
ghost use Rattle.kp_entry.specs.Fields.{kinds, kind_in};
ghost use Rattle.kp_entry.specs.Records.{votes, ballots, record_kinds, record_number, record_in, records, is_base, Added};

use crate::body::read_entry;
use crate::fields::{read_byte, read_number};
use crate::kinds::RecordKind;
use crate::limits::LAST_VOTE;
use crate::put_body::put_entry;
use crate::put_fields::{put_byte, put_number};
use kp_jute::{JuteFail, Reader};
use kp_model::limits::LAST_NUMBER;
use kp_model::{Duplicate, Entry, NoMemory};
use std::alloc::Global;

/// The first byte of a record of a vote.
pub(crate) const VOTE: u8 = 1;

/// The first byte of a record of an entry.
pub(crate) const APPEND: u8 = 3;

/// The first byte of a record of a truncation.
pub(crate) const TRUNCATE: u8 = 4;

/// What a server must keep of one step, so that it is there after a stop.
#[derive(Drop)]
pub enum Record {
    /// The term is this one, and the vote in it went to this server, or to none where it is 0.
    Vote { term: u64, vote: u8 },
    /// How often the server was started.
    Boot { boot: u64 },
    /// The log has one more entry.
    Append { entry: Entry },
    /// The log ends at this index.
    Truncate { last: u64 },
    /// An image stands for the log up to this index, whose entry has this term.
    Base { index: u64, term: u64 },
}

impl Record {
    /// An equal value with memory of its own.
    pub fn copy(&self, alloc: Global) -> Result<Record, NoMemory>
        ensures { IfOk result (λ made. made ≡ self.now) }
    {
        match self {
            Record::Vote { term, vote } => Ok(Record::Vote {
                term: *term,
                vote: *vote,
            }),
            Record::Boot { boot } => Ok(Record::Boot { boot: *boot }),
            Record::Append { entry } => Ok(Record::Append {
                entry: entry.copy(alloc)?,
            }),
            Record::Truncate { last } => Ok(Record::Truncate { last: *last }),
            Record::Base { index, term } => Ok(Record::Base {
                index: *index,
                term: *term,
            }),
        }
    }

    /// Whether it is a base.
    pub fn is_base(&self) -> bool
        ensures { result ≡ is_base self.now }
    {
        matches!(self, Record::Base { .. })
    }
}

impl Duplicate for Record {
    fn duplicate(&self, alloc: Global) -> Result<Record, NoMemory> {
        self.copy(alloc)
    }
}

/// Reads a record: its kind and the fields of the kind. A reader of which one is refused is to be dropped: it may stand
/// behind some of its fields.
#[tactic(auto, unfolding(crate::specs::Records::record_in))]
pub fn read_record(alloc: Global, reader: &mut Reader<'_>) -> Result<Record, JuteFail>
    ensures { Gives (λ r. r) result reader.new (records.read reader.old) }
{
    let kind = record_kind(reader)?;
    record_of_kind(alloc, reader, kind)
}

fn record_kind(reader: &mut Reader<'_>) -> Result<RecordKind, JuteFail>
    ensures { Gives (λ k. k) result reader.new ((kinds record_kinds record_number).read reader.old) }
{
    let at = reader.place();
    let number = read_byte(reader)?;
    match record_kind_of(number) {
        Some(kind) => Ok(kind),
        None => Err(JuteFail::BadByte { at }),
    }
}

// The kind of a record of this number.
fn record_kind_of(number: u8) -> Option<RecordKind>
    ensures { result ≡ kind_in record_kinds record_number number }
{
    match number {
        1 => Some(RecordKind::Vote),
        2 => Some(RecordKind::Boot),
        3 => Some(RecordKind::Append),
        4 => Some(RecordKind::Truncate),
        _ => None,
    }
}

// Reads the fields of a record of this kind.
fn record_of_kind(
    alloc: Global,
    reader: &mut Reader<'_>,
    kind: RecordKind,
) -> Result<Record, JuteFail>
    ensures { Gives (λ r. r) result reader.new (record_in kind reader.old) }
{
    match kind {
        RecordKind::Vote => vote(reader),
        RecordKind::Boot => boot(reader),
        RecordKind::Append => append(alloc, reader),
        RecordKind::Truncate => truncate(reader),
    }
}

#[tactic(auto, unfolding(crate::specs::Records::record_in))]
fn vote(reader: &mut Reader<'_>) -> Result<Record, JuteFail>
    ensures { Gives (λ r. r) result reader.new (record_in record_tag.Vote reader.old) }
{
    let term = read_number(reader)?;
    let vote = ballot(reader)?;
    Ok(Record::Vote { term, vote })
}

fn ballot(reader: &mut Reader<'_>) -> Result<u8, JuteFail>
    ensures { Gives (λ n. n) result reader.new (votes.read reader.old) }
{
    let at = reader.place();
    let vote = read_byte(reader)?;
    if vote > LAST_VOTE {
        return Err(JuteFail::BadByte { at });
    }
    Ok(vote)
}

#[tactic(auto, unfolding(crate::specs::Records::record_in))]
fn boot(reader: &mut Reader<'_>) -> Result<Record, JuteFail>
    ensures { Gives (λ r. r) result reader.new (record_in record_tag.Boot reader.old) }
{
    let boot = read_number(reader)?;
    Ok(Record::Boot { boot })
}

#[tactic(auto, unfolding(crate::specs::Records::record_in))]
fn append(alloc: Global, reader: &mut Reader<'_>) -> Result<Record, JuteFail>
    ensures { Gives (λ r. r) result reader.new (record_in record_tag.Append reader.old) }
{
    let entry = read_entry(alloc, reader)?;
    Ok(Record::Append { entry })
}

#[tactic(auto, unfolding(crate::specs::Records::record_in))]
fn truncate(reader: &mut Reader<'_>) -> Result<Record, JuteFail>
    ensures { Gives (λ r. r) result reader.new (record_in record_tag.Truncate reader.old) }
{
    let last = read_number(reader)?;
    Ok(Record::Truncate { last })
}

/// Writes a record, of which a base has no bytes. A record with a number that is out of its range is refused.
pub fn put_record(out: &mut Vec<u8>, record: &Record) -> Result<(), NoMemory>
    ensures { OnOk result (Added «record».now out.old.items out.new.items) }
{
    match record {
        Record::Vote { term, vote } => {
            put_byte(out, 1)?;
            put_ballot(out, *term, *vote)
        }
        Record::Boot { boot } => {
            put_byte(out, 2)?;
            put_number(out, *boot)
        }
        Record::Append { entry } => {
            put_byte(out, 3)?;
            put_entry(out, entry)
        }
        Record::Truncate { last } => {
            put_byte(out, 4)?;
            put_number(out, *last)
        }
        Record::Base { index, term } => {
            if *index > LAST_NUMBER || *term > LAST_NUMBER {
                return Err(NoMemory);
            }
            Ok(())
        }
    }
}

fn put_ballot(out: &mut Vec<u8>, term: u64, vote: u8) -> Result<(), NoMemory>
    ensures { OnOk result (Wrote ballots (term, vote) out.old.items out.new.items) }
{
    if vote > LAST_VOTE {
        return Err(NoMemory);
    }
    put_number(out, term)?;
    put_byte(out, vote)
}
