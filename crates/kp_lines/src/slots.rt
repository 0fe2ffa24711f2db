// A map from a connection's number to the connection.
ghost use Rattle.std.specs.Prelude.{◌≡◌, ◌≤◌, ◌+◌, ◌∷◌, [], ℕ, true, false, Some, None, nat_eq};
ghost use Rattle.std.specs.HashMap.{get, spare};
ghost use Rattle.kp_worker.specs.declared.heard.Heard.TheVariants.{End};
ghost use Rattle.kp_worker.specs.declared.heard.LineState.TheVariants.{Over};
ghost use Rattle.kp_worker.specs.Outside.{HeardWithin, is_there};
ghost use Rattle.kp_lines.specs.Ports.{Flows};
ghost use Rattle.kp_lines.specs.Tables.{OthersStay, SlotFlows, slot_ended, slot_freed, slot_ready, state_at};

use crate::port::Port;
use kp_worker::Heard;
use std::collections::HashMap;

/// A connection, and whether nothing more is taken of it.
#[derive(Drop)]
pub struct Slot<P> {
    pub port: P,
    pub over: bool,
}

/// Puts a connection under a number. There is room for it. The answer is the one that had the number before.
pub(crate) fn put_slot<P: Port>(
    slots: &mut HashMap<u64, Slot<P>>,
    conn: u64,
    port: P,
) -> Option<Slot<P>>
    requires { 1 ≤ spare slots.old }
    ensures old { result ≡ get nat_eq slots.old conn }
    ensures at { get nat_eq slots.new conn ≡ Some record { port = port; over = false } }
    ensures others { OthersStay slots.old slots.new conn }
    ensures spare { spare slots.old ≤ spare slots.new + 1 }
{
    match slots.insert(conn, Slot { port, over: false }) {
        Ok(old) => old,
        Err(_) => unreachable!(),
    }
}

/// Lets a connection go.
pub(crate) fn remove_slot<P: Port>(slots: &mut HashMap<u64, Slot<P>>, conn: u64) -> Option<Slot<P>>
    ensures old { result ≡ get nat_eq slots.old conn }
    ensures at { get nat_eq slots.new conn ≡ None }
    ensures others { OthersStay slots.old slots.new conn }
    ensures spare { spare slots.old ≤ spare slots.new }
{
    slots.remove(&conn)
}

/// From now on nothing more is taken of a connection.
pub(crate) fn end_slot<P: Port>(slots: &mut HashMap<u64, Slot<P>>, conn: u64)
    ensures at { get nat_eq slots.new conn ≡ slot_ended (get nat_eq slots.old conn) }
    ensures others { OthersStay slots.old slots.new conn }
    ensures spare { spare slots.old ≤ spare slots.new }
{
    if let Some(slot) = slots.get_mut(&conn) {
        slot.over = true;
    }
}

// Takes a piece of a connection, or its end where nothing more is taken of it.
fn take_of<P: Port>(slot: &mut Slot<P>) -> Heard
    ensures same { slot.new.over ≡ slot.old.over }
    ensures bound { HeardWithin result }
    ensures over { slot.old.over ≡ true → result ≡ End }
    ensures flows { Flows P.tells (P.told slot.old.port) (P.told slot.new.port) (P.handed slot.old.port) (P.handed slot.new.port) (result ∷ []) [] }
{
    if slot.over {
        slot.port.answer_end();
        Heard::End
    } else {
        slot.port.take()
    }
}

/// Takes a piece of a connection of the table.
pub(crate) fn take_slot<P: Port>(slots: &mut HashMap<u64, Slot<P>>, conn: u64) -> Heard
    requires { is_there (state_at slots.old conn) ≡ true }
    ensures at { SlotFlows P.tells P.told P.handed (get nat_eq slots.old conn) (get nat_eq slots.new conn) (result ∷ []) [] }
    ensures others { OthersStay slots.old slots.new conn }
    ensures bound { HeardWithin result }
    ensures over { state_at slots.old conn ≡ Over → result ≡ End }
    ensures spare { spare slots.old ≤ spare slots.new }
{
    match slots.get_mut(&conn) {
        Some(slot) => take_of(slot),
        None => Heard::End,
    }
}

/// Hands bytes out to a connection of the table.
pub(crate) fn hand_slot<P: Port>(slots: &mut HashMap<u64, Slot<P>>, conn: u64, bytes: &[u8])
    requires { is_there (state_at slots.old conn) ≡ true }
    ensures at { SlotFlows P.tells P.told P.handed (get nat_eq slots.old conn) (get nat_eq slots.new conn) [] bytes.now }
    ensures others { OthersStay slots.old slots.new conn }
    ensures spare { spare slots.old ≤ spare slots.new }
{
    if let Some(slot) = slots.get_mut(&conn) {
        slot.port.hand(bytes);
    }
}

/// Lets go out what is kept for a connection. The answer is whether something was kept, and nothing is any more.
pub(crate) fn flow_slot<P: Port>(slots: &mut HashMap<u64, Slot<P>>, conn: u64) -> bool
    ensures at { SlotFlows P.tells P.told P.handed (get nat_eq slots.old conn) (get nat_eq slots.new conn) [] [] }
    ensures others { OthersStay slots.old slots.new conn }
    ensures free { result ≡ slot_freed P.free (get nat_eq slots.old conn) (get nat_eq slots.new conn) }
    ensures spare { spare slots.old ≤ spare slots.new }
{
    match slots.get_mut(&conn) {
        Some(slot) => slot.port.flow(),
        None => false,
    }
}

/// Whether a piece may be taken of a connection, and bytes be handed to it.
pub(crate) fn is_slot_ready<P: Port>(slots: &HashMap<u64, Slot<P>>, conn: u64) -> bool
    ensures { result ≡ slot_ready P.free (get nat_eq slots.now conn) }
{
    match slots.get(&conn) {
        Some(slot) => slot.over || slot.port.is_free(),
        None => false,
    }
}
