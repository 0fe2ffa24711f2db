//! Writing requests.

ghost use Rattle.std.specs.Prelude.{◌≡◌, IfOk, OnOk};
ghost use Rattle.kp_jute.specs.Form.{Wrote};
ghost use Rattle.kp_wire.specs.Common.{Sends};
ghost use Rattle.kp_wire.specs.Request.{requests, asks, ask_kind, WroteAsk};

use crate::fields::{
    write_acl_setting, write_creation, write_setting, write_showing, write_versioned,
    write_watched, write_watches,
};
use crate::kind::{Kind, LookKind, write_kind};
use crate::marked::write_marked;
use crate::op_kind::OpKind;
use crate::request::{Request, WireAsk};
use crate::value::write_text;
use kp_jute::{NoMemory as Unwritten, Writer};
use kp_model::{Bytes, NoMemory};
use std::alloc::Global;

/// Writes a request as the packet that `read_request` reads. Answers `NoMemory` also for what has no spelling: a
/// text, a buffer, a vector or a packet that doesn't fit its length, and an `Other` whose type has a row.
pub fn write_request(alloc: Global, request: &Request) -> Result<Bytes, NoMemory>
    ensures { IfOk result (λ bytes. Sends requests request.now bytes) }
{
    match write_packet(alloc, request) {
        Ok(bytes) => Ok(Bytes::from_vec(bytes)),
        Err(_) => Err(NoMemory),
    }
}

fn write_packet(alloc: Global, request: &Request) -> Result<Vec<u8>, Unwritten>
    ensures { IfOk result (λ bytes. Sends requests request.now bytes.items) }
{
    let mut writer = Writer::for_packet(alloc)?;
    write_record(&mut writer, request)?;
    let packet = writer.finish_packet()?;
    Ok(packet)
}

fn write_record(writer: &mut Writer, request: &Request) -> Result<(), Unwritten>
    ensures { OnOk result (Wrote requests request.now writer.old writer.new) }
{
    writer.int(request.xid)?;
    write_ask(writer, &request.ask)?;
    Ok(())
}

fn write_ask(writer: &mut Writer, ask: &WireAsk) -> Result<(), Unwritten>
    ensures { OnOk result (Wrote asks ask.now writer.old writer.new) }
{
    write_kind(writer, kind_of_ask(ask))?;
    write_fields(writer, ask)?;
    Ok(())
}

fn kind_of_ask(ask: &WireAsk) -> Kind
    ensures { result ≡ ask_kind ask.now }
{
    match ask {
        WireAsk::Create { .. } => Kind::Op(OpKind::Create),
        WireAsk::Create2 { .. } => Kind::Op(OpKind::Create2),
        WireAsk::Delete { .. } => Kind::Op(OpKind::Delete),
        WireAsk::Exists { .. } => Kind::Look(LookKind::Exists),
        WireAsk::GetData { .. } => Kind::Look(LookKind::GetData),
        WireAsk::SetData { .. } => Kind::Op(OpKind::SetData),
        WireAsk::GetAcl { .. } => Kind::GetAcl,
        WireAsk::SetAcl { .. } => Kind::SetAcl,
        WireAsk::GetChildren { .. } => Kind::Look(LookKind::GetChildren),
        WireAsk::GetChildren2 { .. } => Kind::Look(LookKind::GetChildren2),
        WireAsk::Sync { .. } => Kind::Sync,
        WireAsk::Ping => Kind::Ping,
        WireAsk::Check { .. } => Kind::Op(OpKind::Check),
        WireAsk::Multi { .. } => Kind::Multi,
        WireAsk::Auth { .. } => Kind::Auth,
        WireAsk::SetWatches { .. } => Kind::SetWatches,
        WireAsk::CloseSession => Kind::CloseSession,
        WireAsk::Other { kind, .. } => Kind::Other(*kind),
    }
}

// Writes the fields of a request.
fn write_fields(writer: &mut Writer, ask: &WireAsk) -> Result<(), Unwritten>
    ensures { OnOk result (WroteAsk ask.now writer.old writer.new) }
{
    match ask {
        WireAsk::Create {
            path,
            bytes,
            acl,
            flags,
        } => write_creation(writer, path, bytes, acl, *flags),
        WireAsk::Create2 {
            path,
            bytes,
            acl,
            flags,
        } => write_creation(writer, path, bytes, acl, *flags),
        WireAsk::Delete { path, version } => write_versioned(writer, path, *version),
        WireAsk::Exists { path, watch } => write_watched(writer, path, *watch),
        WireAsk::GetData { path, watch } => write_watched(writer, path, *watch),
        WireAsk::SetData {
            path,
            bytes,
            version,
        } => write_setting(writer, path, bytes, *version),
        WireAsk::GetAcl { path } => write_text(writer, path),
        WireAsk::SetAcl { path, acl, version } => write_acl_setting(writer, path, acl, *version),
        WireAsk::GetChildren { path, watch } => write_watched(writer, path, *watch),
        WireAsk::GetChildren2 { path, watch } => write_watched(writer, path, *watch),
        WireAsk::Sync { path } => write_text(writer, path),
        WireAsk::Ping => Ok(()),
        WireAsk::Check { path, version } => write_versioned(writer, path, *version),
        WireAsk::Multi { ops } => write_marked(writer, ops.as_slice()),
        WireAsk::Auth { kind, scheme, auth } => write_showing(writer, *kind, scheme, auth),
        WireAsk::SetWatches {
            zxid,
            contents,
            exist,
            child,
        } => write_watches(writer, *zxid, contents, exist, child),
        WireAsk::CloseSession => Ok(()),
        WireAsk::Other { rest, .. } => writer.raw(rest.as_slice()),
    }
}
