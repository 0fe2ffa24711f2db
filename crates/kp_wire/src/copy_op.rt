//! Equal operations of a multi with memory of their own.

ghost use Rattle.std.specs.Prelude.{◌≡◌, IfOk};
ghost use Rattle.kp_wire.specs.declared.request.WireOp.TheVariants as ops;

use crate::acl::WireAcls;
use crate::copy::copy_bytes;
use crate::copy_field::{copy_acl, copy_text};
use crate::request::WireOp;
use kp_model::{Bytes, Duplicate, NoMemory, Text};
use std::alloc::Global;

impl WireOp {
    /// An equal value with memory of its own.
    pub fn copy(&self, alloc: Global) -> Result<WireOp, NoMemory>
        ensures { IfOk result (λ made. made ≡ self.now) }
    {
        match self {
            WireOp::Create {
                path,
                bytes,
                acl,
                flags,
            } => copy_create(alloc, path, bytes, acl, *flags),
            WireOp::Create2 {
                path,
                bytes,
                acl,
                flags,
            } => copy_create2(alloc, path, bytes, acl, *flags),
            WireOp::Delete { path, version } => copy_delete(alloc, path, *version),
            WireOp::SetData {
                path,
                bytes,
                version,
            } => copy_set_data(alloc, path, bytes, *version),
            WireOp::Check { path, version } => copy_check(alloc, path, *version),
        }
    }
}

impl Duplicate for WireOp {
    fn duplicate(&self, alloc: Global) -> Result<WireOp, NoMemory> {
        self.copy(alloc)
    }
}

/// An equal creation with memory of its own.
pub(crate) fn copy_create(
    alloc: Global,
    path: &Option<Text>,
    bytes: &Option<Bytes>,
    acl: &Option<WireAcls>,
    flags: u32,
) -> Result<WireOp, NoMemory>
    ensures { IfOk result (λ made. made ≡ ops.Create path.now bytes.now acl.now flags) }
{
    Ok(WireOp::Create {
        path: copy_text(alloc, path)?,
        bytes: copy_bytes(alloc, bytes)?,
        acl: copy_acl(alloc, acl)?,
        flags,
    })
}

/// An equal creation that asks for the numbers of the node, with memory of its own.
pub(crate) fn copy_create2(
    alloc: Global,
    path: &Option<Text>,
    bytes: &Option<Bytes>,
    acl: &Option<WireAcls>,
    flags: u32,
) -> Result<WireOp, NoMemory>
    ensures { IfOk result (λ made. made ≡ ops.Create2 path.now bytes.now acl.now flags) }
{
    Ok(WireOp::Create2 {
        path: copy_text(alloc, path)?,
        bytes: copy_bytes(alloc, bytes)?,
        acl: copy_acl(alloc, acl)?,
        flags,
    })
}

/// An equal removal with memory of its own.
pub(crate) fn copy_delete(
    alloc: Global,
    path: &Option<Text>,
    version: u32,
) -> Result<WireOp, NoMemory>
    ensures { IfOk result (λ made. made ≡ ops.Delete path.now version) }
{
    Ok(WireOp::Delete {
        path: copy_text(alloc, path)?,
        version,
    })
}

/// An equal setting of data with memory of its own.
pub(crate) fn copy_set_data(
    alloc: Global,
    path: &Option<Text>,
    bytes: &Option<Bytes>,
    version: u32,
) -> Result<WireOp, NoMemory>
    ensures { IfOk result (λ made. made ≡ ops.SetData path.now bytes.now version) }
{
    Ok(WireOp::SetData {
        path: copy_text(alloc, path)?,
        bytes: copy_bytes(alloc, bytes)?,
        version,
    })
}

/// An equal look at a version with memory of its own.
pub(crate) fn copy_check(
    alloc: Global,
    path: &Option<Text>,
    version: u32,
) -> Result<WireOp, NoMemory>
    ensures { IfOk result (λ made. made ≡ ops.Check path.now version) }
{
    Ok(WireOp::Check {
        path: copy_text(alloc, path)?,
        version,
    })
}
