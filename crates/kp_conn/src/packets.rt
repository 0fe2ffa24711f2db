//! Packets that go out.

ghost use Rattle.std.specs.Prelude.{◌≡◌, [], ◌∷◌, ◌++◌, IfOk, OnOk, OnErr};
ghost use Rattle.kp_conn.specs.Packets.{reply_packet, event_packet, connect_packet};

use kp_model::{Bytes, Event, NoMemory};
use kp_region::Region;
use kp_wire::{ConnectReply, WireReply, write_connect, write_event, write_reply};
use std::alloc::Global;

/// Writes the packet that tells an event. It is the same for each connection that hears of the event, so it can be
/// written once and put into each outbox. Answers `NoMemory` also where the path doesn't fit its length.
pub fn write_event_packet(alloc: Global, event: &Event) -> Result<Bytes, NoMemory>
    ensures { IfOk result (λ b. b ≡ event_packet event.now) }
{
    write_event(alloc, event)
}

// Writes the packet of a reply.
pub fn write_reply_packet(
    alloc: Global,
    xid: i32,
    zxid: u64,
    reply: &WireReply,
) -> Result<Bytes, NoMemory>
    ensures { IfOk result (λ b. b ≡ reply_packet xid zxid reply.now) }
{
    write_reply(alloc, xid, zxid, reply)
}

/// Writes the packet of a connect reply.
#[tactic(auto, unfolding(crate::specs::Packets::connect_packet))]
pub fn write_connect_packet(alloc: Global, reply: &ConnectReply) -> Result<Bytes, NoMemory>
    ensures { IfOk result (λ b. b ≡ connect_packet reply.now) }
{
    write_connect(alloc, reply)
}

// Puts a packet behind the others.
pub fn put_packet(outbox: &mut Region, packet: &[u8]) -> Result<(), NoMemory>
    ensures ok { OnOk result (outbox.new.strings ≡ outbox.old.strings ++ packet.now ∷ []) }
    ensures err { OnErr result (outbox.new.strings ≡ outbox.old.strings) }
{
    outbox.reserve(1, packet.len())?;
    outbox.push(packet);
    Ok(())
}
