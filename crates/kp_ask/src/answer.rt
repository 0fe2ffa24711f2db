//! How an answer is sent: that of an entry to the request that made it, and that of a question.

ghost use Rattle.std.specs.Prelude.{◌≡◌, IfOk};
ghost use Rattle.kp_wire.specs.Stats.{stat_of};
ghost use Rattle.kp_ask.specs.Answers.{result_of as result_in, results_of as results_in, ops_in, answer_to as sent_to, names_to as names_in, told_to as told_in};

use kp_model::{Items, Meta, NoMemory, OpReply, Paths, ReadReply, Reply};
use kp_wire::{OpResult, Stat, WireAsk, WireOp, WireReply};
use std::alloc::Global;

/// The results of a multi, each behind the number of its operation's type.
type Results = Items<(i32, OpResult)>;

/// What the request that made an entry is answered, where this is the entry's reply.
#[tactic(auto, unfolding(crate::specs::Answers::answer_to))]
pub fn answer_to(alloc: Global, ask: &WireAsk, reply: &Reply) -> Result<WireReply, NoMemory>
    ensures { IfOk result (λ sent. sent ≡ sent_to ask.now reply.now) }
{
    match reply {
        Reply::Err(code) => Ok(WireReply::Err(*code)),
        Reply::Path(path) => Ok(WireReply::Path(path.copy(alloc)?)),
        Reply::PathStat(path, meta) => Ok(WireReply::PathStat(path.copy(alloc)?, Stat::of(meta))),
        Reply::Stat(meta) => Ok(WireReply::Stat(Stat::of(meta))),
        Reply::Multi(replies) => Ok(WireReply::Multi(multi_results(alloc, ask, replies)?)),
        Reply::Failed(codes) => Ok(WireReply::Failed(codes.copy(alloc)?)),
        Reply::Done | Reply::Stale | Reply::Session(_) | Reply::Epoch(_) => Ok(WireReply::Empty),
    }
}

/// What a request that asked a question is answered, where this is the answer. Takes no memory.
#[tactic(auto, unfolding(crate::specs::Answers::told_to))]
pub fn told_to(ask: &WireAsk, reply: ReadReply) -> WireReply
    ensures { result ≡ told_in ask.now reply }
{
    match reply {
        ReadReply::Err(code) => WireReply::Err(code),
        ReadReply::Stat(meta) => WireReply::Stat(Stat::of(&meta)),
        ReadReply::Data(bytes, meta) => WireReply::Data(bytes, Stat::of(&meta)),
        ReadReply::Acl(acl, meta) => WireReply::Acl(acl, Stat::of(&meta)),
        ReadReply::Names(names, meta) => names_to(ask, names, &meta),
    }
}

// Names of children, with the node's numbers where they are wanted.
fn names_to(ask: &WireAsk, names: Paths, meta: &Meta) -> WireReply
    ensures { result ≡ names_in ask.now names meta.now }
{
    match ask {
        WireAsk::GetChildren2 { .. } => WireReply::NamesStat(names, Stat::of(meta)),
        _ => WireReply::Names(names),
    }
}

// What the operations of a multi are answered; a request that is none has no operation.
#[tactic(auto, unfolding(crate::specs::Answers::results_of))]
fn multi_results(
    alloc: Global,
    ask: &WireAsk,
    replies: &Items<OpReply>,
) -> Result<Results, NoMemory>
    ensures { IfOk result (λ made. made ≡ results_in (ops_in ask.now) replies.now) }
{
    match ask {
        WireAsk::Multi { ops } => results_of(alloc, ops.as_slice(), replies.as_slice()),
        _ => Ok(Items::new(alloc)),
    }
}

fn results_of(alloc: Global, ops: &[WireOp], replies: &[OpReply]) -> Result<Results, NoMemory>
    ensures { IfOk result (λ made. made ≡ results_in ops.now replies.now) }
{
    let mut results = Items::new(alloc);
    for (op, reply) in ops.iter().zip(replies) {
        results.push((op.number(), result_of(alloc, reply)?))?;
    }
    Ok(results)
}

// What an operation is answered.
fn result_of(alloc: Global, reply: &OpReply) -> Result<OpResult, NoMemory>
    ensures { IfOk result (λ made. made ≡ result_in reply.now) }
{
    match reply {
        OpReply::Done => Ok(OpResult::Empty),
        OpReply::Path(path) => Ok(OpResult::Path(path.copy(alloc)?)),
        OpReply::PathStat(path, meta) => Ok(OpResult::PathStat(path.copy(alloc)?, Stat::of(meta))),
        OpReply::Stat(meta) => Ok(OpResult::Stat(Stat::of(meta))),
    }
}
