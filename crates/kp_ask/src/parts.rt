//! The operations of a multi.

ghost use Rattle.std.specs.Prelude.{◌≡◌, map, IfOk};
ghost use Rattle.kp_model.specs.declared.command.Op.TheVariants as kinds;
ghost use Rattle.kp_ask.specs.Given.{given, given_acls as given_lines};
ghost use Rattle.kp_ask.specs.Asks.{op_of as op_in};

use crate::given::{given_acls, given_bytes, given_text};
use kp_model::{Bytes, NoMemory, Op, Ops, Text};
use kp_wire::{WireAcls, WireOp};
use std::alloc::Global;

/// What the parts of a multi ask for.
pub(crate) fn each_op(alloc: Global, parts: &[WireOp]) -> Result<Ops, NoMemory>
    ensures { IfOk result (λ ops. ops ≡ map op_in parts.now) }
{
    let mut ops = Ops::new(alloc);
    for part in parts {
        ops.push(op_of(alloc, part)?)?;
    }
    Ok(ops)
}

// The operation that a part of a multi asks for.
fn op_of(alloc: Global, op: &WireOp) -> Result<Op, NoMemory>
    ensures { IfOk result (λ made. made ≡ op_in op.now) }
{
    match op {
        WireOp::Create {
            path,
            bytes,
            acl,
            flags,
        } => create_op(alloc, path, bytes, acl, *flags, false),
        WireOp::Create2 {
            path,
            bytes,
            acl,
            flags,
        } => create_op(alloc, path, bytes, acl, *flags, true),
        WireOp::Delete { path, version } => Ok(Op::Delete {
            path: given_text(alloc, path)?,
            version: *version,
        }),
        WireOp::SetData {
            path,
            bytes,
            version,
        } => set_data_op(alloc, path, bytes, *version),
        WireOp::Check { path, version } => Ok(Op::Check {
            path: given_text(alloc, path)?,
            version: *version,
        }),
    }
}

fn create_op(
    alloc: Global,
    path: &Option<Text>,
    bytes: &Option<Bytes>,
    acl: &Option<WireAcls>,
    flags: u32,
    stat: bool,
) -> Result<Op, NoMemory>
    ensures { IfOk result (λ made. made ≡ kinds.Create (given path.now) (given bytes.now) (given_lines acl.now) flags stat) }
{
    Ok(Op::Create {
        path: given_text(alloc, path)?,
        bytes: given_bytes(alloc, bytes)?,
        acl: given_acls(alloc, acl)?,
        flags,
        stat,
    })
}

fn set_data_op(
    alloc: Global,
    path: &Option<Text>,
    bytes: &Option<Bytes>,
    version: u32,
) -> Result<Op, NoMemory>
    ensures { IfOk result (λ made. made ≡ kinds.SetData (given path.now) (given bytes.now) version) }
{
    Ok(Op::SetData {
        path: given_text(alloc, path)?,
        bytes: given_bytes(alloc, bytes)?,
        version,
    })
}
