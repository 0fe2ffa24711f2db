//! The operations of a multi.

ghost use Rattle.std.specs.Prelude.{◌≡◌, Some, OnOk};
ghost use Rattle.kp_jute.specs.Form.{Gives, Wrote};
ghost use Rattle.kp_jute.specs.Jute.{fixed_ints, fixed_booleans};
ghost use Rattle.kp_wire.specs.declared.request.WireOp.TheVariants as ops;
ghost use Rattle.kp_wire.specs.OpKinds.{op_number as op_number_of};
ghost use Rattle.kp_wire.specs.Request.{op_at, op_kind, step_kinds, step_number, marks, WroteOp};

use crate::fields::{
    Creation, Setting, Versioned, read_creation, read_setting, read_versioned, write_creation,
    write_setting, write_versioned,
};
use crate::marked::Marked;
use crate::op_kind::{OpKind, op_kind_from, op_number};
use crate::request::WireOp;
use kp_jute::{JuteFail, NoMemory, Reader, Writer};
use std::alloc::Global;

/// The type of the end mark, and the error of every mark.
const END: i32 = -1;

impl Marked for WireOp {
    ghost use Rattle.kp_wire.specs.Request.{steps};

    ghost form = { steps };

    fn read_step(alloc: Global, reader: &mut Reader<'_>) -> Result<Option<WireOp>, JuteFail> {
        let kind = read_step_kind(reader)?;
        read_mark(reader, kind.is_none())?;
        match kind {
            None => Ok(None),
            Some(kind) => Ok(Some(read_op(alloc, reader, kind)?)),
        }
    }

    fn write_step(&self, writer: &mut Writer) -> Result<(), NoMemory> {
        write_step_kind(writer, Some(kind_of_op(self)))?;
        write_mark(writer, false)?;
        write_op(writer, self)?;
        Ok(())
    }

    fn write_end(writer: &mut Writer) -> Result<(), NoMemory> {
        write_step_kind(writer, None)?;
        write_mark(writer, true)?;
        Ok(())
    }
}

// Reads the type of an operation, or None for the end; any other is refused.
#[tactic(auto, using(crate::proofs::Differ::differ))]
fn read_step_kind(reader: &mut Reader<'_>) -> Result<Option<OpKind>, JuteFail>
    ensures { Gives (λ k. k) result reader.new (step_kinds.read reader.old) }
{
    let at = reader.place();
    let number = reader.int()?;
    if number == END {
        return Ok(None);
    }
    match op_kind_from(number) {
        None => Err(JuteFail::BadByte { at }),
        Some(kind) => Ok(Some(kind)),
    }
}

// Reads what follows the type: whether it is the end, and the error -1.
fn read_mark(reader: &mut Reader<'_>, last: bool) -> Result<(), JuteFail>
    ensures { Gives (λ u. u) result reader.new ((marks last).read reader.old) }
{
    fixed_boolean(reader, last)?;
    fixed_int(reader, END)?;
    Ok(())
}

/// Reads an int that has only one value.
#[tactic(auto, using(crate::proofs::Differ::differ))]
pub(crate) fn fixed_int(reader: &mut Reader<'_>, value: i32) -> Result<(), JuteFail>
    ensures { Gives (λ u. u) result reader.new ((fixed_ints value).read reader.old) }
{
    let at = reader.place();
    if reader.int()? != value {
        return Err(JuteFail::BadByte { at });
    }
    Ok(())
}

/// Reads a boolean that has only one value.
pub(crate) fn fixed_boolean(reader: &mut Reader<'_>, value: bool) -> Result<(), JuteFail>
    ensures { Gives (λ u. u) result reader.new ((fixed_booleans value).read reader.old) }
{
    let at = reader.place();
    if reader.boolean()? != value {
        return Err(JuteFail::BadByte { at });
    }
    Ok(())
}

/// Reads the fields of an operation of that type.
pub(crate) fn read_op(
    alloc: Global,
    reader: &mut Reader<'_>,
    kind: OpKind,
) -> Result<WireOp, JuteFail>
    ensures { Gives (λ o. o) result reader.new (op_at kind reader.old) }
{
    match kind {
        OpKind::Create => Ok(create(read_creation(alloc, reader)?)),
        OpKind::Create2 => Ok(create2(read_creation(alloc, reader)?)),
        OpKind::Delete => {
            let Versioned { path, version } = read_versioned(alloc, reader)?;
            Ok(WireOp::Delete { path, version })
        }
        OpKind::SetData => Ok(set_data(read_setting(alloc, reader)?)),
        OpKind::Check => {
            let Versioned { path, version } = read_versioned(alloc, reader)?;
            Ok(WireOp::Check { path, version })
        }
    }
}

fn create(fields: Creation) -> WireOp
    ensures { result ≡ ops.Create fields.path fields.bytes fields.acl fields.flags }
{
    let Creation {
        path,
        bytes,
        acl,
        flags,
    } = fields;
    WireOp::Create {
        path,
        bytes,
        acl,
        flags,
    }
}

fn create2(fields: Creation) -> WireOp
    ensures { result ≡ ops.Create2 fields.path fields.bytes fields.acl fields.flags }
{
    let Creation {
        path,
        bytes,
        acl,
        flags,
    } = fields;
    WireOp::Create2 {
        path,
        bytes,
        acl,
        flags,
    }
}

fn set_data(fields: Setting) -> WireOp
    ensures { result ≡ ops.SetData fields.path fields.bytes fields.version }
{
    let Setting {
        path,
        bytes,
        version,
    } = fields;
    WireOp::SetData {
        path,
        bytes,
        version,
    }
}

// Writes the type of an operation, or that of the end.
#[tactic(auto, using(crate::proofs::KindLaws::step_there))]
fn write_step_kind(writer: &mut Writer, kind: Option<OpKind>) -> Result<(), NoMemory>
    ensures { OnOk result (Wrote step_kinds kind writer.old writer.new) }
{
    writer.int(step_number_of(kind))
}

fn step_number_of(kind: Option<OpKind>) -> i32
    ensures { result ≡ step_number kind }
{
    match kind {
        None => END,
        Some(kind) => op_number(kind),
    }
}

// Writes what follows the type.
fn write_mark(writer: &mut Writer, last: bool) -> Result<(), NoMemory>
    ensures { OnOk result (Wrote (marks last) tt writer.old writer.new) }
{
    writer.boolean(last)?;
    writer.int(END)?;
    Ok(())
}

impl WireOp {
    /// The number of the operation's type.
    pub fn number(&self) -> i32
        ensures { result ≡ op_number_of (op_kind self.now) }
    {
        op_number(kind_of_op(self))
    }
}

fn kind_of_op(op: &WireOp) -> OpKind
    ensures { result ≡ op_kind op.now }
{
    match op {
        WireOp::Create { .. } => OpKind::Create,
        WireOp::Create2 { .. } => OpKind::Create2,
        WireOp::Delete { .. } => OpKind::Delete,
        WireOp::SetData { .. } => OpKind::SetData,
        WireOp::Check { .. } => OpKind::Check,
    }
}

// Writes the fields of an operation.
fn write_op(writer: &mut Writer, op: &WireOp) -> Result<(), NoMemory>
    ensures { OnOk result (WroteOp op.now writer.old writer.new) }
{
    match op {
        WireOp::Create {
            path,
            bytes,
            acl,
            flags,
        } => write_creation(writer, path, bytes, acl, *flags),
        WireOp::Create2 {
            path,
            bytes,
            acl,
            flags,
        } => write_creation(writer, path, bytes, acl, *flags),
        WireOp::Delete { path, version } => write_versioned(writer, path, *version),
        WireOp::SetData {
            path,
            bytes,
            version,
        } => write_setting(writer, path, bytes, *version),
        WireOp::Check { path, version } => write_versioned(writer, path, *version),
    }
}
