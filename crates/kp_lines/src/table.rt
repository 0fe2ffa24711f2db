ghost use Rattle.std.specs.Prelude.{◌≡◌, ◌≤◌, ◌<◌, ◌+◌, ◌++◌, ◌∷◌, [], ℕ, true, false, None, nat_eq, length};
ghost use Rattle.std.specs.HashMap.{get, spare};
ghost use Rattle.std.specs.Option.{option_copied};
ghost use Rattle.kp_worker.specs.declared.heard.Heard.TheVariants.{End};
ghost use Rattle.kp_worker.specs.declared.heard.LineState.TheVariants.{Over};
ghost use Rattle.kp_worker.specs.Outside.{HeardWithin, Tells, is_there};
ghost use Rattle.kp_lines.specs.Ports.{IsBlank, all_of};
ghost use Rattle.kp_lines.specs.Tables.{Admits, OthersStay, SlotFlows, SlotLeaves, outside_of, slot_ended, slot_freed, slot_port, slot_ready, state_at};

use crate::past::Past;
use crate::port::Port;
use crate::slots::{
    Slot, end_slot, flow_slot, hand_slot, is_slot_ready, put_slot, remove_slot, take_slot,
};
use kp_worker::Heard;
use std::alloc::Global;
use std::collections::{HashMap, VecDeque};

/// The connections of a node: those that have a number, the new ones that have none yet, and what is left of those that were let
/// go. There is always room to give each new one a number, and the new ones have told and taken nothing.
#[derive(Drop)]
pub struct Table<P: Port, Q> {
    slots: HashMap<u64, Slot<P>>,
    fresh: VecDeque<P>,
    past: Q,
    ghost room: { length fresh.items ≤ spare slots },
    ghost untold: { length (all_of P.tells P.told fresh.items) ≡ 0 },
    ghost unhanded: { length (all_of P.tells P.handed fresh.items) ≡ 0 },
}

impl<P: Port, Q: Past<P>> Table<P, Q> {
    /// No connections.
    pub fn new(alloc: Global, past: Q) -> Table<P, Q>
        ensures slots { (c : ℕ) → get nat_eq result.slots c ≡ None }
        ensures none { result.fresh.items ≡ [] }
        ensures past { result.past ≡ past }
    {
        Table {
            slots: HashMap::new(alloc),
            fresh: VecDeque::new(alloc),
            past,
        }
    }

    /// How many new connections have no number yet.
    pub fn waiting(&self) -> usize
        ensures { result ≡ length self.now.fresh.items }
    {
        self.fresh.len()
    }

    /// Lends a connection of the table.
    pub fn port(&self, conn: u64) -> Option<&P>
        ensures { option_copied result ≡ slot_port (get nat_eq self.now.slots conn) }
    {
        match self.slots.get(&conn) {
            Some(slot) => Some(&slot.port),
            None => None,
        }
    }

    /// Lends what is left of those that were let go.
    pub fn past(&self) -> &Q
        ensures { result.now ≡ self.now.past }
    {
        &self.past
    }

    /// Takes in a new connection, which has told and taken nothing. Where memory runs out it is let go, and the answer is false.
    pub fn accept(&mut self, port: P) -> bool
        requires { IsBlank P.tells (P.told port) (P.handed port) }
        ensures yes { result ≡ true → self.new.fresh.items ≡ self.old.fresh.items ++ port ∷ [] }
        ensures no { result ≡ false → self.new.fresh.items ≡ self.old.fresh.items }
        ensures slots { (c : ℕ) → get nat_eq self.new.slots c ≡ get nat_eq self.old.slots c }
        ensures past { self.new.past ≡ self.old.past }
        ensures tells { Tells (outside_of P.tells P.told P.handed Q.told Q.handed self.old.slots self.old.past 0 0) (outside_of P.tells P.told P.handed Q.told Q.handed self.new.slots self.new.past 0 0) [] [] }
        ensures state { (c : ℕ) → state_at self.new.slots c ≡ state_at self.old.slots c }
    {
        let Some(more) = self.fresh.len().checked_add(1) else {
            drop(port);
            return false;
        };
        if self.slots.reserve(more).is_err() {
            drop(port);
            return false;
        }
        self.fresh.push_back(port).is_ok()
    }

    /// Gives the oldest new connection this number. One that had it before is let go.
    pub fn admit(&mut self, conn: u64)
        requires { 0 < length self.old.fresh.items }
        ensures oldest { Admits P.tells P.told P.handed self.old.fresh.items self.new.fresh.items (get nat_eq self.new.slots conn) }
        ensures others { OthersStay self.old.slots self.new.slots conn }
        ensures past { SlotLeaves P.tells P.told P.handed Q.told Q.handed conn (get nat_eq self.old.slots conn) self.old.past self.new.past }
    {
        match self.fresh.pop_front() {
            Some(port) => match put_slot(&mut self.slots, conn, port) {
                Some(Slot { port: old, .. }) => self.past.keep(conn, old),
                None => {}
            },
            None => unreachable!(),
        }
    }

    /// Whether a piece may be taken of the connection and bytes be handed to it now.
    pub fn is_ready(&self, conn: u64) -> bool
        ensures { result ≡ slot_ready P.free (get nat_eq self.now.slots conn) }
    {
        is_slot_ready(&self.slots, conn)
    }

    /// Takes a piece of a connection of the table.
    pub fn take(&mut self, conn: u64) -> Heard
        requires { is_there (state_at self.old.slots conn) ≡ true }
        ensures at { SlotFlows P.tells P.told P.handed (get nat_eq self.old.slots conn) (get nat_eq self.new.slots conn) (result ∷ []) [] }
        ensures others { OthersStay self.old.slots self.new.slots conn }
        ensures bound { HeardWithin result }
        ensures over { state_at self.old.slots conn ≡ Over → result ≡ End }
        ensures fresh { self.new.fresh ≡ self.old.fresh }
        ensures past { self.new.past ≡ self.old.past }
    {
        take_slot(&mut self.slots, conn)
    }

    /// Hands bytes out to a connection of the table.
    pub fn hand(&mut self, conn: u64, bytes: &[u8])
        requires { is_there (state_at self.old.slots conn) ≡ true }
        ensures at { SlotFlows P.tells P.told P.handed (get nat_eq self.old.slots conn) (get nat_eq self.new.slots conn) [] bytes.now }
        ensures others { OthersStay self.old.slots self.new.slots conn }
        ensures fresh { self.new.fresh ≡ self.old.fresh }
        ensures past { self.new.past ≡ self.old.past }
    {
        hand_slot(&mut self.slots, conn, bytes);
    }

    /// Lets go out what is kept for a connection. The answer is whether something was kept, and nothing is any more.
    pub fn flow(&mut self, conn: u64) -> bool
        ensures at { SlotFlows P.tells P.told P.handed (get nat_eq self.old.slots conn) (get nat_eq self.new.slots conn) [] [] }
        ensures others { OthersStay self.old.slots self.new.slots conn }
        ensures free { result ≡ slot_freed P.free (get nat_eq self.old.slots conn) (get nat_eq self.new.slots conn) }
        ensures fresh { self.new.fresh ≡ self.old.fresh }
        ensures past { self.new.past ≡ self.old.past }
        ensures tells { Tells (outside_of P.tells P.told P.handed Q.told Q.handed self.old.slots self.old.past 0 0) (outside_of P.tells P.told P.handed Q.told Q.handed self.new.slots self.new.past 0 0) [] [] }
        ensures state { (c : ℕ) → state_at self.new.slots c ≡ state_at self.old.slots c }
    {
        flow_slot(&mut self.slots, conn)
    }

    /// From now on nothing more is taken of a connection.
    pub fn end(&mut self, conn: u64)
        ensures at { get nat_eq self.new.slots conn ≡ slot_ended (get nat_eq self.old.slots conn) }
        ensures others { OthersStay self.old.slots self.new.slots conn }
        ensures fresh { self.new.fresh ≡ self.old.fresh }
        ensures past { self.new.past ≡ self.old.past }
    {
        end_slot(&mut self.slots, conn);
    }

    /// Lets a connection go.
    pub fn close(&mut self, conn: u64)
        ensures at { get nat_eq self.new.slots conn ≡ None }
        ensures others { OthersStay self.old.slots self.new.slots conn }
        ensures fresh { self.new.fresh ≡ self.old.fresh }
        ensures past { SlotLeaves P.tells P.told P.handed Q.told Q.handed conn (get nat_eq self.old.slots conn) self.old.past self.new.past }
    {
        match remove_slot(&mut self.slots, conn) {
            Some(Slot { port, .. }) => self.past.keep(conn, port),
            None => {}
        }
    }
}
