//! Texts and buffers, which may be null.

ghost use Rattle.std.specs.Prelude.{◌≡◌, OnOk};
ghost use Rattle.kp_jute.specs.Form.{Gives, Wrote};
ghost use Rattle.kp_jute.specs.Jute.{texts, buffers};

use kp_jute::{JuteFail, NoMemory, Reader, Writer};
use kp_model::{Bytes, Text};
use std::alloc::Global;

/// Reads a text.
pub(crate) fn read_text(alloc: Global, reader: &mut Reader<'_>) -> Result<Option<Text>, JuteFail>
    ensures { Gives (λ t. t) result reader.new (texts.read reader.old) }
{
    match reader.ustring(alloc)? {
        None => Ok(None),
        Some(text) => Ok(Some(Text::from_string(text))),
    }
}

/// Reads a buffer.
pub(crate) fn read_bytes(alloc: Global, reader: &mut Reader<'_>) -> Result<Option<Bytes>, JuteFail>
    ensures { Gives (λ b. b) result reader.new (buffers.read reader.old) }
{
    match reader.buffer(alloc)? {
        None => Ok(None),
        Some(bytes) => Ok(Some(Bytes::from_vec(bytes))),
    }
}

/// Writes a text.
pub(crate) fn write_text(writer: &mut Writer, text: &Option<Text>) -> Result<(), NoMemory>
    ensures { OnOk result (Wrote texts text.now writer.old writer.new) }
{
    match text {
        None => writer.ustring(None),
        Some(text) => writer.ustring(Some(text.as_str())),
    }
}

/// Writes a buffer.
pub(crate) fn write_bytes(writer: &mut Writer, bytes: &Option<Bytes>) -> Result<(), NoMemory>
    ensures { OnOk result (Wrote buffers bytes.now writer.old writer.new) }
{
    match bytes {
        None => writer.buffer(None),
        Some(bytes) => writer.buffer(Some(bytes.as_slice())),
    }
}
