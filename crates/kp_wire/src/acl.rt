//! Lines of access lists, as a request gives them.

ghost use Rattle.std.specs.Prelude.{◌≡◌, OnOk};
ghost use Rattle.kp_jute.specs.Form.{Gives, Wrote};
ghost use Rattle.kp_wire.specs.Common.{wire_acls};

use crate::list::Element;
use crate::value::{read_text, write_text};
use kp_jute::{JuteFail, NoMemory, Reader, Writer};
use kp_model::{Items, Text};
use std::alloc::Global;

/// The access list of a request.
pub type WireAcls = Items<WireAcl>;

/// One line of it. `perms` stands for an int in two's complement.
#[derive(Drop)]
pub struct WireAcl {
    pub perms: u32,
    pub scheme: Option<Text>,
    pub id: Option<Text>,
}

impl Element for WireAcl {
    ghost use Rattle.kp_wire.specs.Common.{wire_acls};

    ghost form = { wire_acls };

    fn read(alloc: Global, reader: &mut Reader<'_>) -> Result<WireAcl, JuteFail> {
        let perms = reader.unsigned_int()?;
        let scheme = read_text(alloc, reader)?;
        let id = read_text(alloc, reader)?;
        Ok(WireAcl { perms, scheme, id })
    }

    fn write(&self, writer: &mut Writer) -> Result<(), NoMemory> {
        writer.unsigned_int(self.perms)?;
        write_text(writer, &self.scheme)?;
        write_text(writer, &self.id)?;
        Ok(())
    }
}
