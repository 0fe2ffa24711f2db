//! Reading the fields that the log's formats have in common.

ghost use Rattle.std.specs.Prelude.{◌≡◌, length, IfErr, IfOk, IsTrue, OnErr};
ghost use Rattle.std.specs.Int.{w8};
ghost use Rattle.kp_jute.specs.Form.{Gives, IsOfBytes};
ghost use Rattle.kp_jute.specs.Jute.{unsigned_of};
ghost use Rattle.kp_model.specs.Grammar.{is_number, is_timeout, is_origin};
ghost use Rattle.kp_entry.specs.Fields.{u8s, u32s, numbers, timeouts, blobs, strings, passwords, origins};

use crate::limits::{GREATEST_TIMEOUT, LEAST_TIMEOUT};
use crate::list::Item;
use crate::put_fields::{put_text, put_word};
use kp_jute::{JuteFail, Reader, text_from};
use kp_model::limits::LAST_NUMBER;
use kp_model::{Acl, Bytes, NoMemory, Origin, Text};
use std::alloc::Global;

/// Reads a byte. Where there is none the reader stays.
#[tactic(auto, using(crate::proofs::Raws::raw_len), unfolding(kp_jute::specs::Jute::unsigned_at))]
pub fn read_byte(reader: &mut Reader<'_>) -> Result<u8, JuteFail>
    ensures read { Gives (λ n. n) result reader.new (u8s.read reader.old) }
    ensures of_bytes { IfErr result (λ e. IsOfBytes e) }
    ensures err { OnErr result (reader.new ≡ reader.old) }
{
    let bytes = reader.take(1)?;
    Ok(byte_from(bytes))
}

/// Reads a number of 4 bytes. Where there are fewer the reader stays.
pub fn read_word(reader: &mut Reader<'_>) -> Result<u32, JuteFail>
    ensures read { Gives (λ n. n) result reader.new (u32s.read reader.old) }
    ensures of_bytes { IfErr result (λ e. IsOfBytes e) }
    ensures err { OnErr result (reader.new ≡ reader.old) }
{
    reader.unsigned_int()
}

/// Reads an index, a term, a time, a session, an epoch or a running number: 8 bytes, at most 2^62. A reader of which one
/// is refused is to be dropped: it may stand behind it.
pub fn read_number(reader: &mut Reader<'_>) -> Result<u64, JuteFail>
    ensures read { Gives (λ n. n) result reader.new (numbers.read reader.old) }
    ensures of_bytes { IfErr result (λ e. IsOfBytes e) }
    ensures range { IfOk result (λ n. IsTrue (is_number n)) }
{
    let at = reader.place();
    let number = reader.unsigned_long()?;
    if number > LAST_NUMBER {
        return Err(JuteFail::BadByte { at });
    }
    Ok(number)
}

/// Reads a session's timeout: 4 bytes, 10,000 to 100,000 milliseconds. A reader of which one is refused is to be
/// dropped: it may stand behind it.
pub fn read_timeout(reader: &mut Reader<'_>) -> Result<u32, JuteFail>
    ensures read { Gives (λ n. n) result reader.new (timeouts.read reader.old) }
    ensures of_bytes { IfErr result (λ e. IsOfBytes e) }
    ensures range { IfOk result (λ n. IsTrue (is_timeout n)) }
{
    let at = reader.place();
    let timeout = reader.unsigned_int()?;
    if timeout < LEAST_TIMEOUT || timeout > GREATEST_TIMEOUT {
        return Err(JuteFail::BadByte { at });
    }
    Ok(timeout)
}

/// Lends bytes behind their length. A reader of which they are refused is to be dropped: it may stand behind
/// their length.
#[tactic(auto, unfolding(crate::specs::Fields::blob_at, kp_jute::specs::Jute::raw_at))]
pub fn lend_bytes<'a>(reader: &mut Reader<'a>) -> Result<&'a [u8], JuteFail>
    ensures { Gives (λ s. s.now) result reader.new (blobs.read reader.old) }
{
    let at = reader.place();
    let len = reader.unsigned_int()? as usize;
    if reader.remaining() < len {
        return Err(JuteFail::Short { at });
    }
    reader.take(len)
}

/// Lends a text behind its length. A reader of which it is refused is to be dropped: it may stand behind it.
pub fn lend_text<'a>(reader: &mut Reader<'a>) -> Result<&'a str, JuteFail>
    ensures { Gives (λ s. s.now) result reader.new (strings.read reader.old) }
{
    let at = reader.place();
    let bytes = lend_bytes(reader)?;
    text_from(at, bytes)
}

/// Reads bytes behind their length. They are copied once, and only where they are all there. A reader of
/// which they are refused is to be dropped: it may stand behind their length.
pub fn read_bytes(alloc: Global, reader: &mut Reader<'_>) -> Result<Bytes, JuteFail>
    ensures { Gives (λ b. b) result reader.new (blobs.read reader.old) }
{
    let bytes = lend_bytes(reader)?;
    let bytes = Vec::from_slice(alloc, bytes)?;
    Ok(Bytes::from_vec(bytes))
}

/// Reads a text behind its length. Its bytes are copied once, and only where they are text. A reader of which
/// it is refused is to be dropped: it may stand behind it.
pub fn read_text(alloc: Global, reader: &mut Reader<'_>) -> Result<Text, JuteFail>
    ensures { Gives (λ t. t) result reader.new (strings.read reader.old) }
{
    let text = lend_text(reader)?;
    let text = String::from_str(alloc, text)?;
    Ok(Text::from_string(text))
}

/// Reads a session's password: 16 bytes. Where there are fewer the reader stays.
#[tactic(auto, using(crate::proofs::Raws::raw_len))]
pub fn read_password(reader: &mut Reader<'_>) -> Result<[u8; 16], JuteFail>
    ensures read { Gives (λ b. b) result reader.new (passwords.read reader.old) }
    ensures of_bytes { IfErr result (λ e. IsOfBytes e) }
    ensures err { OnErr result (reader.new ≡ reader.old) }
{
    let bytes = reader.take(16)?;
    let mut passwd = [0; 16];
    passwd.copy_from_slice(bytes);
    Ok(passwd)
}

/// Reads an origin: the server's number, and its boot and connection numbers. A reader of which one is
/// refused is to be dropped: it may stand behind some of its fields.
pub fn read_origin(reader: &mut Reader<'_>) -> Result<Origin, JuteFail>
    ensures read { Gives (λ o. o) result reader.new (origins.read reader.old) }
    ensures of_bytes { IfErr result (λ e. IsOfBytes e) }
    ensures range { IfOk result (λ o. IsTrue (is_origin o)) }
{
    let node = read_byte(reader)?;
    let boot = read_number(reader)?;
    let conn = read_number(reader)?;
    Ok(Origin { node, boot, conn })
}

impl Item for Acl {
    ghost use Rattle.kp_entry.specs.Fields.{acls};

    ghost form = { acls };

    fn read(alloc: Global, reader: &mut Reader<'_>) -> Result<Acl, JuteFail> {
        let perms = reader.unsigned_int()?;
        let scheme = read_text(alloc, reader)?;
        let id = read_text(alloc, reader)?;
        Ok(Acl { perms, scheme, id })
    }

    fn write(&self, out: &mut Vec<u8>) -> Result<(), NoMemory> {
        put_word(out, self.perms)?;
        put_text(out, &self.scheme)?;
        put_text(out, &self.id)
    }
}

impl Item for Text {
    ghost use Rattle.kp_entry.specs.Fields.{strings};

    ghost form = { strings };

    fn read(alloc: Global, reader: &mut Reader<'_>) -> Result<Text, JuteFail> {
        read_text(alloc, reader)
    }

    fn write(&self, out: &mut Vec<u8>) -> Result<(), NoMemory> {
        put_text(out, self)
    }
}

#[tactic(auto, unfolding(kp_jute::specs::Jute::unsigned_of))]
fn byte_from(bytes: &[u8]) -> u8
    requires { length bytes.now ≡ 1 }
    ensures { result ≡ unsigned_of w8 bytes.now }
{
    bytes[0]
}
