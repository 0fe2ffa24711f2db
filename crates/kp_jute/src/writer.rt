//! Writing at the end.

ghost use Rattle.std.specs.Prelude.{◌≡◌, ◌++◌, ◌^◌, ◌<◌, ℕ, List, [], true, Some, IfOk, IfErr, OnOk, OnErr, Option, option_map, length, drop, ◌≤◌};
ghost use Rattle.std.specs.Str.{is_utf8};
ghost use Rattle.kp_jute.specs.Form.{Wrote};
ghost use Rattle.kp_jute.specs.Jute.{ints, longs, unsigned_ints, unsigned_longs, booleans, counts, buffer, buffers, texts, gap};

use crate::memory::NoMemory;
use std::alloc::{AllocError, Global};
use std::marker::Model;

/// The greatest length or count that its int can hold.
const MOST: u32 = 0x7fff_ffff;

/// The bytes for which a packet begins with room: those of most replies, so that most take memory once.
const FIRST_ROOM: usize = 256;

/// The bytes that were written. A call that answers `NoMemory` leaves them as they were.
#[derive(Drop)]
pub struct Writer {
    bytes: Vec<u8>,
}

impl Model for Writer {
    ghost use Rattle.std.specs.Prelude.{List, ℕ};

    ghost Value = { List ℕ };

    ghost view = { λ w. w.bytes.items };
}

impl Writer {
    /// A writer that has written nothing.
    pub fn new(alloc: Global) -> Writer
        ensures { result ≡ [] }
    {
        Writer {
            bytes: Vec::new(alloc),
        }
    }

    /// A writer for a packet, with 4 bytes of 0 where its length will stand.
    pub fn for_packet(alloc: Global) -> Result<Writer, NoMemory>
        ensures { IfOk result (λ w. w ≡ gap) }
    {
        let mut writer = Writer {
            bytes: Vec::with_capacity(alloc, FIRST_ROOM)?,
        };
        writer.raw(&[0, 0, 0, 0])?;
        Ok(writer)
    }

    /// The packet of what was written behind the gap for its length, with the length in it. Takes no memory:
    /// answers `NoMemory` exactly where more than 2^31 - 1 bytes stand behind the gap.
    #[tactic(auto, unfolding(crate::specs::Jute::number))]
    pub fn finish_packet(self) -> Result<Vec<u8>, NoMemory>
        requires begun { (body : List ℕ) × (self ≡ gap ++ body) }
        ensures ok { (body : List ℕ) → self ≡ gap ++ body → IfOk result (λ v. (length body < 2 ^ 31) × (v.items ≡ buffer (Some body))) }
        ensures err { (body : List ℕ) → self ≡ gap ++ body → IfErr result (λ _. 2 ^ 31 ≤ length body) }
    {
        let mut bytes = self.bytes;
        if bytes.len() - 4 > MOST as usize {
            return Err(AllocError);
        }
        let length = (bytes.len() - 4) as i32;
        fill(&mut bytes, length.to_be_bytes());
        Ok(bytes)
    }

    /// What was written. Takes no memory.
    pub fn finish(self) -> Vec<u8>
        ensures { result.items ≡ self }
    {
        self.bytes
    }

    /// Writes the bytes as they are.
    pub fn raw(&mut self, bytes: &[u8]) -> Result<(), NoMemory>
        ensures ok { OnOk result (self.new ≡ self.old ++ bytes.now) }
        ensures err { OnErr result (self.new ≡ self.old) }
    {
        self.bytes.extend_from_slice(bytes)?;
        Ok(())
    }

    /// Writes the 4 bytes of a number without a sign.
    #[tactic(auto, unfolding(crate::specs::Jute::unsigned))]
    pub fn unsigned_int(&mut self, value: u32) -> Result<(), NoMemory>
        ensures ok { OnOk result (Wrote unsigned_ints value self.old self.new) }
        ensures err { OnErr result (self.new ≡ self.old) }
    {
        self.bytes.extend_from_slice(&value.to_be_bytes())?;
        Ok(())
    }

    /// Writes the 8 bytes of a number without a sign.
    #[tactic(auto, unfolding(crate::specs::Jute::unsigned))]
    pub fn unsigned_long(&mut self, value: u64) -> Result<(), NoMemory>
        ensures ok { OnOk result (Wrote unsigned_longs value self.old self.new) }
        ensures err { OnErr result (self.new ≡ self.old) }
    {
        self.bytes.extend_from_slice(&value.to_be_bytes())?;
        Ok(())
    }

    /// Writes an int: 4 bytes, big-endian, in two's complement.
    #[tactic(auto, unfolding(crate::specs::Jute::number))]
    pub fn int(&mut self, value: i32) -> Result<(), NoMemory>
        ensures ok { OnOk result (Wrote ints value self.old self.new) }
        ensures err { OnErr result (self.new ≡ self.old) }
    {
        self.bytes.extend_from_slice(&value.to_be_bytes())?;
        Ok(())
    }

    /// Writes a long: 8 bytes, big-endian, in two's complement.
    #[tactic(auto, unfolding(crate::specs::Jute::number))]
    pub fn long(&mut self, value: i64) -> Result<(), NoMemory>
        ensures ok { OnOk result (Wrote longs value self.old self.new) }
        ensures err { OnErr result (self.new ≡ self.old) }
    {
        self.bytes.extend_from_slice(&value.to_be_bytes())?;
        Ok(())
    }

    /// Writes a boolean: one byte, 0 or 1.
    pub fn boolean(&mut self, value: bool) -> Result<(), NoMemory>
        ensures ok { OnOk result (Wrote booleans value self.old self.new) }
        ensures err { OnErr result (self.new ≡ self.old) }
    {
        self.bytes.extend_from_slice(&[if value { 1 } else { 0 }])?;
        Ok(())
    }

    /// Writes a count: an int, -1 for None. Answers `NoMemory` also where the count is above 2^31 - 1.
    pub fn count(&mut self, value: Option<u32>) -> Result<(), NoMemory>
        ensures ok { OnOk result (Wrote counts value self.old self.new) }
        ensures err { OnErr result (self.new ≡ self.old) }
    {
        match value {
            None => self.int(-1),
            Some(n) => {
                if n > MOST {
                    return Err(AllocError);
                }
                self.int(n as i32)
            }
        }
    }

    /// Writes a buffer: its length and its bytes, or the length -1 for None. Answers `NoMemory` also
    /// where there are more than 2^31 - 1 bytes.
    pub fn buffer(&mut self, value: Option<&[u8]>) -> Result<(), NoMemory>
        ensures ok { OnOk result (Wrote buffers (option_map (λ b. b.now) value.entry) self.old self.new) }
        ensures err { OnErr result (self.new ≡ self.old) }
    {
        match value {
            None => self.count(None),
            Some(bytes) => {
                if bytes.len() > MOST as usize {
                    return Err(AllocError);
                }
                add_field(&mut self.bytes, bytes)
            }
        }
    }

    /// Writes a text: its length in bytes and its bytes, or the length -1 for None. Answers `NoMemory`
    /// also where there are more than 2^31 - 1 bytes.
    pub fn ustring(&mut self, value: Option<&str>) -> Result<(), NoMemory>
        ensures ok { OnOk result (Wrote texts (option_map (λ b. b.now) value.entry) self.old self.new) }
        ensures err { OnErr result (self.new ≡ self.old) }
    {
        match value {
            None => self.count(None),
            Some(text) => {
                if text.len() > MOST as usize {
                    return Err(AllocError);
                }
                add_field(&mut self.bytes, bytes_of(text))
            }
        }
    }
}

// Writes the length over the first four bytes.
#[tactic(auto, using(crate::proofs::Packets::filled))]
fn fill(bytes: &mut Vec<u8>, start: [u8; 4])
    requires { 4 ≤ length bytes.old.items }
    ensures { bytes.new.items ≡ start ++ drop 4 bytes.old.items }
{
    bytes[0] = start[0];
    bytes[1] = start[1];
    bytes[2] = start[2];
    bytes[3] = start[3];
}

// Adds the length of the field and the field, or nothing.
#[tactic(auto, unfolding(crate::specs::Jute::number))]
fn add_field(bytes: &mut Vec<u8>, field: &[u8]) -> Result<(), NoMemory>
    requires { length field.now < 2 ^ 31 }
    ensures ok { OnOk result (bytes.new.items ≡ bytes.old.items ++ buffer (Some field.now)) }
    ensures err { OnErr result (bytes.new.items ≡ bytes.old.items) }
{
    let len = bytes.len();
    bytes.extend_from_slice(&(field.len() as i32).to_be_bytes())?;
    if bytes.extend_from_slice(field).is_err() {
        bytes.truncate(len);
        return Err(AllocError);
    }
    Ok(())
}

#[tactic(auto, using(crate::proofs::Utf8::is_valid))]
fn bytes_of(text: &str) -> &[u8]
    ensures same { result.now ≡ text.now }
    ensures valid { is_utf8 text.now ≡ true }
{
    text.as_bytes()
}
