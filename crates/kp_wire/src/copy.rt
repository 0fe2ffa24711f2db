//! Equal values with memory of their own.

ghost use Rattle.std.specs.Prelude.{◌≡◌, IfOk};

use crate::connect::ConnectRequest;
use crate::packet::Packet;
use crate::reply::WireReply;
use crate::result::OpResult;
use kp_model::{Bytes, Duplicate, Items, NoMemory};
use std::alloc::Global;

impl OpResult {
    /// An equal value with memory of its own.
    pub fn copy(&self, alloc: Global) -> Result<OpResult, NoMemory>
        ensures { IfOk result (λ made. made ≡ self.now) }
    {
        match self {
            OpResult::Empty => Ok(OpResult::Empty),
            OpResult::Path(path) => Ok(OpResult::Path(path.copy(alloc)?)),
            OpResult::PathStat(path, stat) => Ok(OpResult::PathStat(path.copy(alloc)?, *stat)),
            OpResult::Stat(stat) => Ok(OpResult::Stat(*stat)),
        }
    }
}

impl WireReply {
    /// An equal value with memory of its own.
    pub fn copy(&self, alloc: Global) -> Result<WireReply, NoMemory>
        ensures { IfOk result (λ made. made ≡ self.now) }
    {
        match self {
            WireReply::Err(code) => Ok(WireReply::Err(*code)),
            WireReply::Empty => Ok(WireReply::Empty),
            WireReply::Path(path) => Ok(WireReply::Path(path.copy(alloc)?)),
            WireReply::PathStat(path, stat) => Ok(WireReply::PathStat(path.copy(alloc)?, *stat)),
            WireReply::Stat(stat) => Ok(WireReply::Stat(*stat)),
            WireReply::Data(bytes, stat) => Ok(WireReply::Data(bytes.copy(alloc)?, *stat)),
            WireReply::Acl(acl, stat) => Ok(WireReply::Acl(acl.copy(alloc)?, *stat)),
            WireReply::Names(names) => Ok(WireReply::Names(names.copy(alloc)?)),
            WireReply::NamesStat(names, stat) => Ok(WireReply::NamesStat(
                names.copy(alloc)?,
                *stat,
            )),
            WireReply::Multi(results) => Ok(WireReply::Multi(copy_results(alloc, results)?)),
            WireReply::Failed(codes) => Ok(WireReply::Failed(codes.copy(alloc)?)),
        }
    }
}

impl Packet {
    /// An equal value with memory of its own.
    pub fn copy(&self, alloc: Global) -> Result<Packet, NoMemory>
        ensures { IfOk result (λ made. made ≡ self.now) }
    {
        match self {
            Packet::Reply { xid, zxid, reply } => Ok(Packet::Reply {
                xid: *xid,
                zxid: *zxid,
                reply: reply.copy(alloc)?,
            }),
            Packet::Event(event) => Ok(Packet::Event(event.copy(alloc)?)),
        }
    }
}

impl ConnectRequest {
    /// An equal value with memory of its own.
    pub fn copy(&self, alloc: Global) -> Result<ConnectRequest, NoMemory>
        ensures { IfOk result (λ made. made ≡ self.now) }
    {
        Ok(ConnectRequest {
            protocol: self.protocol,
            zxid: self.zxid,
            timeout: self.timeout,
            session: self.session,
            passwd: copy_bytes(alloc, &self.passwd)?,
            read_only: self.read_only,
        })
    }
}

/// An equal buffer with memory of its own.
pub(crate) fn copy_bytes(alloc: Global, bytes: &Option<Bytes>) -> Result<Option<Bytes>, NoMemory>
    ensures { IfOk result (λ made. made ≡ bytes.now) }
{
    match bytes {
        None => Ok(None),
        Some(bytes) => Ok(Some(bytes.copy(alloc)?)),
    }
}

fn copy_results(
    alloc: Global,
    results: &Items<(i32, OpResult)>,
) -> Result<Items<(i32, OpResult)>, NoMemory>
    ensures { IfOk result (λ made. made ≡ results.now) }
{
    Ok(Items::from_vec(copies(alloc, results.as_slice())?))
}

// Copies of the results, in their order.
fn copies(alloc: Global, from: &[(i32, OpResult)]) -> Result<Vec<(i32, OpResult)>, NoMemory>
    ensures { IfOk result (λ made. made.items ≡ from.now) }
{
    let mut items = Vec::new(alloc);
    for answer in from {
        items.push(copy_answer(alloc, answer)?)?;
    }
    Ok(items)
}

fn copy_answer(alloc: Global, answer: &(i32, OpResult)) -> Result<(i32, OpResult), NoMemory>
    ensures { IfOk result (λ made. made ≡ answer.now) }
{
    let number = answer.0.duplicate(alloc)?;
    let result = answer.1.copy(alloc)?;
    Ok((number, result))
}
