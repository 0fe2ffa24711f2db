//! Writing the fields that the log's formats have in common. Each call that answers Ok was given a value that the
//! format has, and added exactly its spelling. Where one answers `NoMemory`, the bytes are to be dropped.

ghost use Rattle.std.specs.Prelude.{◌≡◌, ◌<◌, ◌^◌, length, true, OnOk};
ghost use Rattle.std.specs.Str.{is_utf8};
ghost use Rattle.kp_jute.specs.Form.{Wrote};
ghost use Rattle.kp_jute.specs.Jute.{booleans};
ghost use Rattle.kp_entry.specs.Fields.{u8s, u32s, u64s, numbers, timeouts, blobs, strings, passwords, origins};

use crate::limits::{GREATEST_TIMEOUT, LEAST_TIMEOUT};
use kp_model::limits::{LAST_NUMBER, LONGEST_FIELD};
use kp_model::{NoMemory, Origin, Text};

/// Writes a byte.
#[tactic(auto, unfolding(kp_jute::specs::Jute::unsigned))]
pub fn put_byte(out: &mut Vec<u8>, value: u8) -> Result<(), NoMemory>
    ensures { OnOk result (Wrote u8s value out.old.items out.new.items) }
{
    out.push(value)?;
    Ok(())
}

/// Writes a number of 4 bytes.
#[tactic(auto, unfolding(kp_jute::specs::Jute::unsigned))]
pub fn put_word(out: &mut Vec<u8>, value: u32) -> Result<(), NoMemory>
    ensures { OnOk result (Wrote u32s value out.old.items out.new.items) }
{
    out.extend_from_slice(&value.to_be_bytes())?;
    Ok(())
}

// Writes a number of 8 bytes.
#[tactic(auto, unfolding(kp_jute::specs::Jute::unsigned))]
fn put_long_word(out: &mut Vec<u8>, value: u64) -> Result<(), NoMemory>
    ensures { OnOk result (Wrote u64s value out.old.items out.new.items) }
{
    out.extend_from_slice(&value.to_be_bytes())?;
    Ok(())
}

/// Writes an index, a term, a time, a session, an epoch or a running number, which are at most 2^62.
pub fn put_number(out: &mut Vec<u8>, value: u64) -> Result<(), NoMemory>
    ensures { OnOk result (Wrote numbers value out.old.items out.new.items) }
{
    if value > LAST_NUMBER {
        return Err(NoMemory);
    }
    put_long_word(out, value)
}

/// Writes a session's timeout, which is 10,000 to 100,000 milliseconds.
pub fn put_timeout(out: &mut Vec<u8>, value: u32) -> Result<(), NoMemory>
    ensures { OnOk result (Wrote timeouts value out.old.items out.new.items) }
{
    if value < LEAST_TIMEOUT || value > GREATEST_TIMEOUT {
        return Err(NoMemory);
    }
    put_word(out, value)
}

/// Writes a byte of 0 or 1.
pub fn put_flag(out: &mut Vec<u8>, value: bool) -> Result<(), NoMemory>
    ensures { OnOk result (Wrote booleans value out.old.items out.new.items) }
{
    out.push(if value { 1 } else { 0 })?;
    Ok(())
}

/// Writes bytes behind their length.
pub fn put_bytes(out: &mut Vec<u8>, value: &[u8]) -> Result<(), NoMemory>
    ensures { OnOk result (Wrote blobs value.now out.old.items out.new.items) }
{
    if value.len() > LONGEST_FIELD {
        return Err(NoMemory);
    }
    put_word(out, value.len() as u32)?;
    out.extend_from_slice(value)?;
    Ok(())
}

/// Writes a text behind its length.
pub fn put_text(out: &mut Vec<u8>, value: &Text) -> Result<(), NoMemory>
    ensures { OnOk result (Wrote strings value.now out.old.items out.new.items) }
{
    put_bytes(out, bytes_of(value.as_str()))
}

/// Writes a session's password.
pub fn put_password(out: &mut Vec<u8>, value: &[u8]) -> Result<(), NoMemory>
    requires { length value.now ≡ 16 }
    ensures { OnOk result (Wrote passwords value.now out.old.items out.new.items) }
{
    out.extend_from_slice(value)?;
    Ok(())
}

/// Writes an origin.
pub fn put_origin(out: &mut Vec<u8>, value: Origin) -> Result<(), NoMemory>
    ensures { OnOk result (Wrote origins value out.old.items out.new.items) }
{
    put_byte(out, value.node)?;
    put_number(out, value.boot)?;
    put_number(out, value.conn)
}

#[tactic(auto, using(kp_jute::proofs::Utf8::is_valid))]
fn bytes_of(text: &str) -> &[u8]
    ensures same { result.now ≡ text.now }
    ensures valid { is_utf8 text.now ≡ true }
{
    text.as_bytes()
}
