//! Equal requests with memory of their own.

ghost use Rattle.std.specs.Prelude.{◌≡◌, IfOk};
ghost use Rattle.kp_wire.specs.declared.request.WireAsk.TheVariants as asks;
ghost use Rattle.kp_wire.specs.Request.{look_of};

use crate::acl::WireAcls;
use crate::copy::copy_bytes;
use crate::copy_field::{copy_acl, copy_text, copy_texts};
use crate::copy_op::{copy_check, copy_create, copy_create2, copy_delete, copy_set_data};
use crate::fields::Watched;
use crate::kind::LookKind;
use crate::read::{ask_of_op, look};
use crate::request::{Request, WireAsk, WireTexts};
use kp_model::{Bytes, NoMemory, Text};
use std::alloc::Global;

impl Request {
    /// An equal value with memory of its own.
    pub fn copy(&self, alloc: Global) -> Result<Request, NoMemory>
        ensures { IfOk result (λ made. made ≡ self.now) }
    {
        Ok(Request {
            xid: self.xid,
            ask: self.ask.copy(alloc)?,
        })
    }
}

impl WireAsk {
    /// An equal value with memory of its own.
    pub fn copy(&self, alloc: Global) -> Result<WireAsk, NoMemory>
        ensures { IfOk result (λ made. made ≡ self.now) }
    {
        match self {
            WireAsk::Create {
                path,
                bytes,
                acl,
                flags,
            } => Ok(ask_of_op(copy_create(alloc, path, bytes, acl, *flags)?)),
            WireAsk::Create2 {
                path,
                bytes,
                acl,
                flags,
            } => Ok(ask_of_op(copy_create2(alloc, path, bytes, acl, *flags)?)),
            WireAsk::Delete { path, version } => {
                Ok(ask_of_op(copy_delete(alloc, path, *version)?))
            }
            WireAsk::Exists { path, watch } => copy_look(alloc, LookKind::Exists, path, *watch),
            WireAsk::GetData { path, watch } => copy_look(alloc, LookKind::GetData, path, *watch),
            WireAsk::SetData {
                path,
                bytes,
                version,
            } => Ok(ask_of_op(copy_set_data(alloc, path, bytes, *version)?)),
            WireAsk::GetAcl { path } => Ok(WireAsk::GetAcl {
                path: copy_text(alloc, path)?,
            }),
            WireAsk::SetAcl { path, acl, version } => copy_set_acl(alloc, path, acl, *version),
            WireAsk::GetChildren { path, watch } => {
                copy_look(alloc, LookKind::GetChildren, path, *watch)
            }
            WireAsk::GetChildren2 { path, watch } => {
                copy_look(alloc, LookKind::GetChildren2, path, *watch)
            }
            WireAsk::Sync { path } => Ok(WireAsk::Sync {
                path: copy_text(alloc, path)?,
            }),
            WireAsk::Ping => Ok(WireAsk::Ping),
            WireAsk::Check { path, version } => Ok(ask_of_op(copy_check(alloc, path, *version)?)),
            WireAsk::Multi { ops } => Ok(WireAsk::Multi {
                ops: ops.copy(alloc)?,
            }),
            WireAsk::Auth { kind, scheme, auth } => copy_auth(alloc, *kind, scheme, auth),
            WireAsk::SetWatches {
                zxid,
                contents,
                exist,
                child,
            } => copy_set_watches(alloc, *zxid, contents, exist, child),
            WireAsk::CloseSession => Ok(WireAsk::CloseSession),
            WireAsk::Other { kind, rest } => Ok(WireAsk::Other {
                kind: *kind,
                rest: rest.copy(alloc)?,
            }),
        }
    }
}

fn copy_look(
    alloc: Global,
    kind: LookKind,
    path: &Option<Text>,
    watch: bool,
) -> Result<WireAsk, NoMemory>
    ensures { IfOk result (λ made. made ≡ look_of kind (record { path = path.now; watch = watch })) }
{
    let path = copy_text(alloc, path)?;
    Ok(look(kind, Watched { path, watch }))
}

fn copy_set_acl(
    alloc: Global,
    path: &Option<Text>,
    acl: &Option<WireAcls>,
    version: u32,
) -> Result<WireAsk, NoMemory>
    ensures { IfOk result (λ made. made ≡ asks.SetAcl path.now acl.now version) }
{
    Ok(WireAsk::SetAcl {
        path: copy_text(alloc, path)?,
        acl: copy_acl(alloc, acl)?,
        version,
    })
}

fn copy_auth(
    alloc: Global,
    kind: i32,
    scheme: &Option<Text>,
    auth: &Option<Bytes>,
) -> Result<WireAsk, NoMemory>
    ensures { IfOk result (λ made. made ≡ asks.Auth kind scheme.now auth.now) }
{
    Ok(WireAsk::Auth {
        kind,
        scheme: copy_text(alloc, scheme)?,
        auth: copy_bytes(alloc, auth)?,
    })
}

fn copy_set_watches(
    alloc: Global,
    zxid: i64,
    contents: &Option<WireTexts>,
    exist: &Option<WireTexts>,
    child: &Option<WireTexts>,
) -> Result<WireAsk, NoMemory>
    ensures { IfOk result (λ made. made ≡ asks.SetWatches zxid contents.now exist.now child.now) }
{
    Ok(WireAsk::SetWatches {
        zxid,
        contents: copy_texts(alloc, contents)?,
        exist: copy_texts(alloc, exist)?,
        child: copy_texts(alloc, child)?,
    })
}
