//! Entries as bytes.

ghost use Rattle.std.specs.Prelude.{◌≡◌, ◌++◌, List, ℕ, length, IfOk};
ghost use Rattle.kp_jute.specs.Form.{front};
ghost use Rattle.kp_model.specs.LogEntry.{LogEntry};
ghost use Rattle.kp_entry.specs.Entries.{entries};
ghost use Rattle.kp_entry.specs.Decoding.{BeginsWith, Decodes, IsEntryOf};

use crate::body::read_entry;
use crate::fail::EntryFail;
use crate::put_body::put_entry;
use kp_jute::Reader;
use kp_model::{Bytes, Entry, NoMemory};
use std::alloc::Global;

/// The bytes that spell the entry. Each entry has one spelling, and none is the beginning of another's.
pub fn encode(alloc: Global, entry: &Entry) -> Result<Bytes, NoMemory>
    ensures fits { IfOk result (λ _. entries.Fits entry.now) }
    ensures spelled { IfOk result (λ bytes. bytes ≡ entries.spell entry.now) }
{
    let mut out = Vec::new(alloc);
    put_entry(&mut out, entry)?;
    Ok(Bytes::from_vec(out))
}

/// The entry that the bytes begin with, and how many bytes it takes. More may stand behind it.
/// Memory is taken for what is there, whatever the lengths and counts say.
pub fn decode(alloc: Global, bytes: &[u8]) -> Result<(Entry, usize), EntryFail>
    // What is read is spelled so at the beginning.
    ensures found { IfOk result (λ d. BeginsWith entries bytes.now d.0 d.1) }
    // What is spelled so is read, unless memory runs out.
    ensures only { (e : LogEntry) (more : List ℕ) → entries.Fits e → bytes.now ≡ entries.spell e ++ more → IsEntryOf e (length (entries.spell e)) result }
    // And else the answer tells which field is refused.
    ensures exact { Decodes result (entries.read (front 0 bytes.now)) }
{
    decoded(alloc, bytes)
}

// What reading from the first byte on gives.
fn decoded(alloc: Global, bytes: &[u8]) -> Result<(Entry, usize), EntryFail>
    ensures { Decodes result (entries.read (front 0 bytes.now)) }
{
    let mut reader = Reader::new(bytes);
    match read_entry(alloc, &mut reader) {
        Ok(entry) => Ok((entry, reader.place())),
        Err(fail) => Err(EntryFail::from(fail)),
    }
}
