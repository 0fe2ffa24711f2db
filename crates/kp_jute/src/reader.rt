//! Reading from left to right.

ghost use Rattle.std.specs.Prelude.{◌≡◌, ◌≤◌, ◌<◌, ◌^◌, ◌==◌, length, drop, take, Ok, OnErr, IfErr, IfOk, option_map, string_bytes};
ghost use Rattle.std.specs.Int.{w32, w64};
ghost use Rattle.kp_jute.specs.Form.{Gives, Answers, IsOfBytes, Place, ended, remains};
ghost use Rattle.kp_jute.specs.Jute.{number_of, raw_at, raws, unsigned_of, unsigned_ints, unsigned_longs, packet_at, present_length, ints, longs, booleans, counts, buffers, texts, count_of, bytes_in, valid_text};

use crate::fault::JuteFail;
use std::alloc::Global;
use std::marker::Model;

/// Bytes, and how many of them were read. A call that answers an error leaves the reader where it was.
#[derive(Drop)]
pub struct Reader<'a> {
    bytes: &'a [u8],
    place: usize,
}

impl<'a> Model for Reader<'a> {
    ghost use Rattle.std.specs.Prelude.{◌≡◌, ◌≤◌, length, drop};
    ghost use Rattle.kp_jute.specs.Form.{Place};

    ghost Value = { Place };

    ghost view = { λ r. record { at = r.place; rest = drop r.place r.bytes.now } };

    ghost invariant = { λ r. r.place ≤ length r.bytes.now };
}

impl<'a> Reader<'a> {
    /// A reader of the bytes, at place 0.
    pub fn new(bytes: &'a [u8]) -> Reader<'a>
        ensures { result ≡ record { at = 0; rest = bytes.now } }
    {
        Reader { bytes, place: 0 }
    }

    /// How many bytes were read.
    pub fn place(&self) -> usize
        ensures { result ≡ self.now.at }
    {
        self.place
    }

    /// Whether all bytes were read.
    pub fn is_at_end(&self) -> bool
        ensures { result ≡ (length self.now.rest == 0) }
    {
        self.place == self.bytes.len()
    }

    /// How many bytes are left: fewer than 2^63, as of any slice.
    pub fn remaining(&self) -> usize
        ensures all { result ≡ length self.now.rest }
        ensures bound { result < 2 ^ 63 }
    {
        self.bytes.len() - self.place
    }

    /// Lends the bytes that are left.
    pub fn rest(&self) -> &'a [u8]
        ensures { result.now ≡ self.now.rest }
    {
        let bytes = self.bytes;
        &bytes[self.place..]
    }

    /// Reads all bytes that are left and lends them.
    #[tactic(auto, using(crate::proofs::Packets::none_left))]
    pub fn take_rest(&mut self) -> &'a [u8]
        ensures { Ok (result.now, self.new) ≡ remains.read self.old }
    {
        let rest = self.rest();
        self.place = self.bytes.len();
        rest
    }

    /// Looks whether all bytes were read; the first that is left is refused.
    pub fn end(&self) -> Result<(), JuteFail>
        ensures read { Answers (λ u. u) result (ended (Ok (tt, self.now))) }
        ensures of_bytes { IfErr result (λ e. IsOfBytes e) }
    {
        if !self.is_at_end() {
            return Err(JuteFail::BadByte { at: self.place() });
        }
        Ok(())
    }

    /// Reads the next `len` bytes and lends them.
    pub fn take(&mut self, len: usize) -> Result<&'a [u8], JuteFail>
        ensures read { Gives (λ s. s.now) result self.new ((raws len).read self.old) }
        ensures of_bytes { IfErr result (λ e. IsOfBytes e) }
        ensures err { OnErr result (self.new ≡ self.old) }
    {
        let at = self.place();
        self.field(at, len)
    }

    /// Reads the length of a packet and steps over the packet; answers a reader of its bytes alone, which
    /// tells the same places.
    #[tactic(auto, unfolding(crate::specs::Jute::packet_at))]
    pub fn packet(&mut self) -> Result<Reader<'a>, JuteFail>
        ensures read { Gives (λ r. r) result self.new (packet_at self.old) }
        ensures of_bytes { IfErr result (λ e. IsOfBytes e) }
        ensures err { OnErr result (self.new ≡ self.old) }
    {
        let at = self.place();
        let mut next = self.copy();
        let count = next.count()?;
        let len = length_from(at, count)?;
        let inner = next.copy();
        let taken = next.field(at, len as usize)?;
        let inner = inner.within(taken.len());
        *self = next;
        Ok(inner)
    }

    /// Reads an int: 4 bytes, big-endian, in two's complement.
    #[tactic(auto, unfolding(crate::specs::Jute::number_at))]
    pub fn int(&mut self) -> Result<i32, JuteFail>
        ensures read { Gives (λ x. x) result self.new (ints.read self.old) }
        ensures of_bytes { IfErr result (λ e. IsOfBytes e) }
        ensures err { OnErr result (self.new ≡ self.old) }
    {
        let at = self.place();
        let mut next = self.copy();
        let front = next.field(at, 4)?;
        let value = int_from(front);
        *self = next;
        Ok(value)
    }

    /// Reads a long: 8 bytes, big-endian, in two's complement.
    #[tactic(auto, unfolding(crate::specs::Jute::number_at))]
    pub fn long(&mut self) -> Result<i64, JuteFail>
        ensures read { Gives (λ x. x) result self.new (longs.read self.old) }
        ensures of_bytes { IfErr result (λ e. IsOfBytes e) }
        ensures err { OnErr result (self.new ≡ self.old) }
    {
        let at = self.place();
        let mut next = self.copy();
        let front = next.field(at, 8)?;
        let value = long_from(front);
        *self = next;
        Ok(value)
    }

    /// Reads the 4 bytes of an int as a number without a sign.
    #[tactic(auto, unfolding(crate::specs::Jute::unsigned_at))]
    pub fn unsigned_int(&mut self) -> Result<u32, JuteFail>
        ensures read { Gives (λ x. x) result self.new (unsigned_ints.read self.old) }
        ensures of_bytes { IfErr result (λ e. IsOfBytes e) }
        ensures err { OnErr result (self.new ≡ self.old) }
    {
        let at = self.place();
        let mut next = self.copy();
        let front = next.field(at, 4)?;
        let value = unsigned_int_from(front);
        *self = next;
        Ok(value)
    }

    /// Reads the 8 bytes of a long as a number without a sign.
    #[tactic(auto, unfolding(crate::specs::Jute::unsigned_at))]
    pub fn unsigned_long(&mut self) -> Result<u64, JuteFail>
        ensures read { Gives (λ x. x) result self.new (unsigned_longs.read self.old) }
        ensures of_bytes { IfErr result (λ e. IsOfBytes e) }
        ensures err { OnErr result (self.new ≡ self.old) }
    {
        let at = self.place();
        let mut next = self.copy();
        let front = next.field(at, 8)?;
        let value = unsigned_long_from(front);
        *self = next;
        Ok(value)
    }

    /// Reads a boolean: one byte, 0 or 1.
    #[tactic(auto, unfolding(crate::specs::Jute::boolean_at))]
    pub fn boolean(&mut self) -> Result<bool, JuteFail>
        ensures read { Gives (λ x. x) result self.new (booleans.read self.old) }
        ensures of_bytes { IfErr result (λ e. IsOfBytes e) }
        ensures err { OnErr result (self.new ≡ self.old) }
    {
        let at = self.place;
        match &self.bytes[at..] {
            [] => Err(JuteFail::Short { at }),
            [0, ..] => {
                self.place = at + 1;
                Ok(false)
            }
            [1, ..] => {
                self.place = at + 1;
                Ok(true)
            }
            [_, ..] => Err(JuteFail::BadByte { at }),
        }
    }

    /// Reads a count: an int, of which -1 means null and is answered as None.
    #[tactic(auto, unfolding(crate::specs::Jute::count_at))]
    pub fn count(&mut self) -> Result<Option<u32>, JuteFail>
        ensures read { Gives (λ x. x) result self.new (counts.read self.old) }
        ensures of_bytes { IfErr result (λ e. IsOfBytes e) }
        ensures err { OnErr result (self.new ≡ self.old) }
    {
        let at = self.place();
        let mut next = self.copy();
        let number = next.int()?;
        let count = count_from(at, number)?;
        *self = next;
        Ok(count)
    }

    /// Reads a buffer: a length and that many bytes; the length -1 means null and is answered as None.
    /// The bytes are copied once, and only where they are all there.
    pub fn buffer(&mut self, alloc: Global) -> Result<Option<Vec<u8>>, JuteFail>
        ensures read { Gives (λ o. option_map (λ v. v.items) o) result self.new (buffers.read self.old) }
        ensures err { OnErr result (self.new ≡ self.old) }
    {
        let mut next = self.copy();
        match next.slice()? {
            None => {
                *self = next;
                Ok(None)
            }
            Some(bytes) => {
                let bytes = Vec::from_slice(alloc, bytes)?;
                *self = next;
                Ok(Some(bytes))
            }
        }
    }

    /// Reads a text: a buffer in UTF-8. The bytes are copied once, and only where they are text.
    #[tactic(auto, unfolding(crate::specs::Jute::text_at))]
    pub fn ustring(&mut self, alloc: Global) -> Result<Option<String>, JuteFail>
        ensures read { Gives (λ o. option_map (λ s. string_bytes s) o) result self.new (texts.read self.old) }
        ensures err { OnErr result (self.new ≡ self.old) }
    {
        let at = self.place();
        let mut next = self.copy();
        match next.slice()? {
            None => {
                *self = next;
                Ok(None)
            }
            Some(bytes) => {
                let text = text_from(at, bytes)?;
                let text = String::from_str(alloc, text)?;
                *self = next;
                Ok(Some(text))
            }
        }
    }

    // Reads a buffer and lends its bytes.
    #[tactic(auto, unfolding(crate::specs::Jute::buffer_at))]
    fn slice(&mut self) -> Result<Option<&'a [u8]>, JuteFail>
        ensures read { Gives (λ o. option_map (λ s. s.now) o) result self.new (buffers.read self.old) }
        ensures err { OnErr result (self.new ≡ self.old) }
    {
        let at = self.place();
        let mut next = self.copy();
        match next.count()? {
            None => {
                *self = next;
                Ok(None)
            }
            Some(len) => {
                let bytes = next.field(at, len as usize)?;
                *self = next;
                Ok(Some(bytes))
            }
        }
    }

    // Lends the next `len` bytes, which belong to the field that begins at `from`.
    #[tactic(auto, unfolding(crate::specs::Jute::raw_at))]
    fn field(&mut self, from: usize, len: usize) -> Result<&'a [u8], JuteFail>
        ensures read { Gives (λ s. s.now) result self.new (raw_at from len self.old) }
        ensures len { IfOk result (λ s. length s.now ≡ len) }
        ensures enough { IfOk result (λ _. len ≤ length self.old.rest) }
        ensures first { IfOk result (λ s. s.now ≡ take len self.old.rest) }
        ensures of_bytes { IfErr result (λ e. IsOfBytes e) }
        ensures err { OnErr result (self.new ≡ self.old) }
    {
        let at = self.place;
        if self.bytes.len() - at < len {
            return Err(JuteFail::Short { at: from });
        }
        let bytes = self.bytes;
        let taken = &bytes[at..at + len];
        self.place = at + len;
        Ok(taken)
    }

    // A reader of the next `len` bytes alone.
    #[tactic(auto, using(crate::proofs::Packets::part_of))]
    fn within(&self, len: usize) -> Reader<'a>
        requires { len ≤ length self.now.rest }
        ensures { result ≡ record { at = self.now.at; rest = take len self.now.rest } }
    {
        let bytes = self.bytes;
        Reader {
            bytes: &bytes[..self.place + len],
            place: self.place,
        }
    }

    /// A reader that stands at the same place of the same bytes.
    pub fn copy(&self) -> Reader<'a>
        ensures { result ≡ self.now }
    {
        Reader {
            bytes: self.bytes,
            place: self.place,
        }
    }
}

fn count_from(at: usize, number: i32) -> Result<Option<u32>, JuteFail>
    ensures answer { Answers (λ x. x) result (count_of at number) }
    ensures of_bytes { IfErr result (λ e. IsOfBytes e) }
{
    if number < -1 {
        return Err(JuteFail::BadLength { at });
    }
    if number == -1 {
        return Ok(None);
    }
    Ok(Some(number as u32))
}

fn length_from(at: usize, count: Option<u32>) -> Result<u32, JuteFail>
    ensures answer { Answers (λ x. x) result (present_length at count) }
    ensures of_bytes { IfErr result (λ e. IsOfBytes e) }
{
    match count {
        None => Err(JuteFail::BadLength { at }),
        Some(len) => Ok(len),
    }
}

#[tactic(auto, unfolding(crate::specs::Jute::number_of))]
fn int_from(front: &[u8]) -> i32
    requires { length front.now ≡ 4 }
    ensures { result ≡ number_of w32 front.now }
{
    i32::from_be_bytes([front[0], front[1], front[2], front[3]])
}

#[tactic(auto, unfolding(crate::specs::Jute::number_of))]
fn long_from(front: &[u8]) -> i64
    requires { length front.now ≡ 8 }
    ensures { result ≡ number_of w64 front.now }
{
    i64::from_be_bytes([
        front[0], front[1], front[2], front[3], front[4], front[5], front[6], front[7],
    ])
}

#[tactic(auto, unfolding(crate::specs::Jute::unsigned_of))]
fn unsigned_int_from(front: &[u8]) -> u32
    requires { length front.now ≡ 4 }
    ensures { result ≡ unsigned_of w32 front.now }
{
    u32::from_be_bytes([front[0], front[1], front[2], front[3]])
}

#[tactic(auto, unfolding(crate::specs::Jute::unsigned_of))]
fn unsigned_long_from(front: &[u8]) -> u64
    requires { length front.now ≡ 8 }
    ensures { result ≡ unsigned_of w64 front.now }
{
    u64::from_be_bytes([
        front[0], front[1], front[2], front[3], front[4], front[5], front[6], front[7],
    ])
}

/// The text that bytes spell. Bytes that aren't UTF-8 are refused at `at`, the place where they began.
#[tactic(auto, using(crate::proofs::Utf8::is_valid, crate::proofs::Utf8::is_invalid))]
pub fn text_from(at: usize, bytes: &[u8]) -> Result<&str, JuteFail>
    ensures { Answers (λ s. s.now) result (valid_text at bytes.now) }
{
    match std::str::from_utf8(bytes) {
        Err(_) => Err(JuteFail::BadByte { at }),
        Ok(text) => Ok(text),
    }
}
