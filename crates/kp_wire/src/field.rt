//! Texts, buffers and vectors that may not be null: null is refused where it begins.

ghost use Rattle.std.specs.Prelude.{◌≡◌, ◌++◌, ◌<◌, ◌^◌, ℕ, List, length, Some, IfOk, OnOk};
ghost use Rattle.kp_jute.specs.Form.{Gives, Wrote, present};
ghost use Rattle.kp_jute.specs.Jute.{texts, buffers, vectors, gap, buffer};

use crate::list::{Element, read_vector, write_list};
use kp_jute::{JuteFail, NoMemory, Reader, Writer};
use kp_model::{Acl, Bytes, Items, Text};
use std::alloc::Global;

impl Element for Text {
    ghost use Rattle.kp_jute.specs.Form.{present};
    ghost use Rattle.kp_jute.specs.Jute.{texts};

    ghost form = { present texts };

    fn read(alloc: Global, reader: &mut Reader<'_>) -> Result<Text, JuteFail> {
        read_some_text(alloc, reader)
    }

    fn write(&self, writer: &mut Writer) -> Result<(), NoMemory> {
        write_some_text(writer, self)
    }
}

impl Element for Acl {
    ghost use Rattle.kp_wire.specs.Replies.{granted};

    ghost form = { granted };

    fn read(alloc: Global, reader: &mut Reader<'_>) -> Result<Acl, JuteFail> {
        let perms = reader.unsigned_int()?;
        let scheme = read_some_text(alloc, reader)?;
        let id = read_some_text(alloc, reader)?;
        Ok(Acl { perms, scheme, id })
    }

    fn write(&self, writer: &mut Writer) -> Result<(), NoMemory> {
        writer.unsigned_int(self.perms)?;
        write_some_text(writer, &self.scheme)?;
        write_some_text(writer, &self.id)?;
        Ok(())
    }
}

/// Reads a text that may not be null.
pub(crate) fn read_some_text(alloc: Global, reader: &mut Reader<'_>) -> Result<Text, JuteFail>
    ensures { Gives (λ x. x) result reader.new ((present texts).read reader.old) }
{
    let at = reader.place();
    match reader.ustring(alloc)? {
        None => Err(JuteFail::BadByte { at }),
        Some(text) => Ok(Text::from_string(text)),
    }
}

/// Reads a buffer that may not be null.
pub(crate) fn read_some_bytes(alloc: Global, reader: &mut Reader<'_>) -> Result<Bytes, JuteFail>
    ensures { Gives (λ x. x) result reader.new ((present buffers).read reader.old) }
{
    let at = reader.place();
    match reader.buffer(alloc)? {
        None => Err(JuteFail::BadByte { at }),
        Some(bytes) => Ok(Bytes::from_vec(bytes)),
    }
}

/// Reads a vector that may not be null.
pub(crate) fn read_some_list<T: Element + Drop>(
    alloc: Global,
    reader: &mut Reader<'_>,
) -> Result<Items<T>, JuteFail>
    ensures { Gives (λ x. x) result reader.new ((present (vectors T.form)).read reader.old) }
{
    let at = reader.place();
    match read_vector(alloc, reader)? {
        None => Err(JuteFail::BadByte { at }),
        Some(list) => Ok(list),
    }
}

/// Writes a text.
pub(crate) fn write_some_text(writer: &mut Writer, text: &Text) -> Result<(), NoMemory>
    ensures { OnOk result (Wrote (present texts) text.now writer.old writer.new) }
{
    writer.ustring(Some(text.as_str()))
}

/// Writes a buffer.
pub(crate) fn write_some_bytes(writer: &mut Writer, bytes: &Bytes) -> Result<(), NoMemory>
    ensures { OnOk result (Wrote (present buffers) bytes.now writer.old writer.new) }
{
    writer.buffer(Some(bytes.as_slice()))
}

/// Writes a vector.
pub(crate) fn write_some_list<T: Element>(
    writer: &mut Writer,
    list: &Items<T>,
) -> Result<(), NoMemory>
    ensures { OnOk result (Wrote (present (vectors T.form)) list.now writer.old writer.new) }
{
    write_list(writer, list)
}

/// The packet of the record that was written, with its length.
pub(crate) fn packet_of(writer: Writer) -> Result<Bytes, NoMemory>
    requires { (body : List ℕ) × (writer ≡ gap ++ body) }
    ensures { (body : List ℕ) → writer ≡ gap ++ body → IfOk result (λ b. (length body < 2 ^ 31) × (b ≡ buffer (Some body))) }
{
    Ok(Bytes::from_vec(writer.finish_packet()?))
}
