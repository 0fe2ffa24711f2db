//! Reading requests.

ghost use Rattle.std.specs.Prelude.{◌≡◌, IfOk, Ok};
ghost use Rattle.kp_jute.specs.Form.{Gives, Answers, remains, whole};
ghost use Rattle.kp_jute.specs.Jute.{packets};
ghost use Rattle.kp_wire.specs.declared.request.Request.{Request};
ghost use Rattle.kp_wire.specs.declared.request.WireAsk.TheVariants as asks;
ghost use Rattle.kp_wire.specs.Common.{Tells};
ghost use Rattle.kp_wire.specs.Request.{requests, ask_at, look_of};
ghost use Rattle.kp_wire.specs.Request as form;

use crate::fail::{WireFail, told};
use crate::fields::{
    AclSetting, Showing, Watched, Watches, read_acl_setting, read_showing, read_watched,
    read_watches,
};
use crate::kind::{Kind, LookKind, read_kind};
use crate::marked::read_marked;
use crate::multi::read_op;
use crate::request::{Request, WireAsk, WireOp};
use crate::value::read_text;
use kp_jute::{JuteFail, Reader};
use kp_model::{Bytes, Items};
use std::alloc::Global;

/// Reads a request: a packet, so its length stands in front, which holds an int xid, an int type and the fields of
/// that type. Answers `BadRecord` exactly where the frame is no such packet.
pub fn read_request(alloc: Global, frame: &[u8]) -> Result<Request, WireFail>
    // What is read is spelled so.
    ensures found { IfOk result (λ r. (packets requests).Fits r × (frame.now ≡ (packets requests).spell r)) }
    // What is spelled so is read, unless memory runs out.
    ensures only { (r : Request) → (packets requests).Fits r → frame.now ≡ (packets requests).spell r → Tells result (Ok r) }
    // Which refusal it is, and where.
    ensures exact { Tells result (whole (packets requests) frame.now) }
{
    told(whole_request(alloc, frame))
}

fn whole_request(alloc: Global, frame: &[u8]) -> Result<Request, JuteFail>
    ensures { Answers (λ r. r) result (whole (packets requests) frame.now) }
{
    let mut reader = Reader::new(frame);
    let mut packet = reader.packet()?;
    let request = read_record(alloc, &mut packet)?;
    packet.end()?;
    reader.end()?;
    Ok(request)
}

fn read_record(alloc: Global, reader: &mut Reader<'_>) -> Result<Request, JuteFail>
    ensures { Gives (λ r. r) result reader.new (requests.read reader.old) }
{
    let xid = reader.int()?;
    let kind = read_kind(reader)?;
    let ask = read_ask(alloc, reader, kind)?;
    Ok(Request { xid, ask })
}

// Reads the fields of a request of that type.
fn read_ask(alloc: Global, reader: &mut Reader<'_>, kind: Kind) -> Result<WireAsk, JuteFail>
    ensures { Gives (λ a. a) result reader.new (ask_at kind reader.old) }
{
    match kind {
        Kind::Op(kind) => Ok(ask_of_op(read_op(alloc, reader, kind)?)),
        Kind::Look(kind) => Ok(look(kind, read_watched(alloc, reader)?)),
        Kind::GetAcl => Ok(WireAsk::GetAcl {
            path: read_text(alloc, reader)?,
        }),
        Kind::SetAcl => Ok(set_acl(read_acl_setting(alloc, reader)?)),
        Kind::Sync => Ok(WireAsk::Sync {
            path: read_text(alloc, reader)?,
        }),
        Kind::Ping => Ok(WireAsk::Ping),
        Kind::Multi => Ok(WireAsk::Multi {
            ops: Items::from_vec(read_marked(alloc, reader)?),
        }),
        Kind::Auth => Ok(auth(read_showing(alloc, reader)?)),
        Kind::SetWatches => Ok(set_watches(read_watches(alloc, reader)?)),
        Kind::CloseSession => Ok(WireAsk::CloseSession),
        Kind::Other(kind) => Ok(WireAsk::Other {
            kind,
            rest: read_rest(alloc, reader)?,
        }),
    }
}

// Reads all bytes that are left.
fn read_rest(alloc: Global, reader: &mut Reader<'_>) -> Result<Bytes, JuteFail>
    ensures { Gives (λ b. b) result reader.new (remains.read reader.old) }
{
    let rest = reader.take_rest();
    Ok(Bytes::from_vec(Vec::from_slice(alloc, rest)?))
}

/// The request of an operation that stands by itself.
pub(crate) fn ask_of_op(op: WireOp) -> WireAsk
    ensures { result ≡ form.ask_of_op op }
{
    match op {
        WireOp::Create {
            path,
            bytes,
            acl,
            flags,
        } => WireAsk::Create {
            path,
            bytes,
            acl,
            flags,
        },
        WireOp::Create2 {
            path,
            bytes,
            acl,
            flags,
        } => WireAsk::Create2 {
            path,
            bytes,
            acl,
            flags,
        },
        WireOp::Delete { path, version } => WireAsk::Delete { path, version },
        WireOp::SetData {
            path,
            bytes,
            version,
        } => WireAsk::SetData {
            path,
            bytes,
            version,
        },
        WireOp::Check { path, version } => WireAsk::Check { path, version },
    }
}

/// The request of a look at a node.
pub(crate) fn look(kind: LookKind, fields: Watched) -> WireAsk
    ensures { result ≡ look_of kind fields }
{
    let Watched { path, watch } = fields;
    match kind {
        LookKind::Exists => WireAsk::Exists { path, watch },
        LookKind::GetData => WireAsk::GetData { path, watch },
        LookKind::GetChildren => WireAsk::GetChildren { path, watch },
        LookKind::GetChildren2 => WireAsk::GetChildren2 { path, watch },
    }
}

fn set_acl(fields: AclSetting) -> WireAsk
    ensures { result ≡ asks.SetAcl fields.path fields.acl fields.version }
{
    let AclSetting { path, acl, version } = fields;
    WireAsk::SetAcl { path, acl, version }
}

fn auth(fields: Showing) -> WireAsk
    ensures { result ≡ asks.Auth fields.kind fields.scheme fields.auth }
{
    let Showing { kind, scheme, auth } = fields;
    WireAsk::Auth { kind, scheme, auth }
}

fn set_watches(fields: Watches) -> WireAsk
    ensures { result ≡ asks.SetWatches fields.zxid fields.contents fields.exist fields.child }
{
    let Watches {
        zxid,
        contents,
        exist,
        child,
    } = fields;
    WireAsk::SetWatches {
        zxid,
        contents,
        exist,
        child,
    }
}
