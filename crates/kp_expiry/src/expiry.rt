//! The deadlines of sessions.
ghost use Rattle.std.specs.Prelude.{◌≡◌, ℕ, ◌<◌, nat_eq, cond, length, option_map, OnOk, OnErr, IfOk, IsOk, true, Some, None};
ghost use Rattle.std.specs.HashMap.{get};
ghost use Rattle.std.specs.FinMap as map;
ghost use Rattle.kp_expiry.specs.Due.{ListsDue, due};
ghost use Rattle.kp_expiry.specs.Nodes.{tags};
ghost use Rattle.kp_expiry.specs.Index.{IsIndex, heard_at, heard_again, heard_in, known_again, known_at, moved_to, node_in};

use crate::NoMemory;
use crate::heard::Heard;
use crate::listing::{find_due, in_order, sessions};
use crate::tree::{Slot, add, mend_all, put, take_out};
use std::alloc::Global;
use std::collections::HashMap;
use std::marker::Model;

/// What is known of one session: when it was heard, and its node in the tree of deadlines.
#[derive(Clone, Copy)]
struct Known {
    heard: Heard,
    node: usize,
}

/// The sessions, each with the time when it was last heard and its timeout. Those whose deadline
/// has come are found at their own cost, times a logarithm, however many others there are.
#[derive(Drop)]
pub struct Expiry {
    known: HashMap<u64, Known>,
    slots: Vec<Slot>,
}

impl Model for Expiry {
    ghost use Rattle.std.specs.Ordering.{nat_cmp};
    ghost use Rattle.std.specs.Coded.{coded_ℕ};
    ghost use Rattle.std.specs.FinMap as map;
    ghost use Rattle.std.specs.FinMap.{FinMap};
    ghost use Rattle.kp_expiry.specs.declared.heard.Heard.{Heard};
    ghost use Rattle.kp_expiry.specs.contracts.heard.Heard as heard;

    ghost Value = { FinMap nat_cmp Heard };

    ghost coded = { map.code coded_ℕ heard.the_row.coded };

    ghost use Rattle.kp_expiry.specs.Index.{base_of, IsIndex};
    ghost use Rattle.kp_expiry.specs.Nodes.{tags, AreRight};

    ghost view = { λ e. base_of e.known.entries };

    ghost invariant = { λ e. IsIndex e.known.entries (tags e.slots.items) × AreRight e.slots.items };
}

// Sets when the session was heard, if it is known, and answers its node.
fn hear(known: &mut HashMap<u64, Known>, session: u64, heard: Heard) -> Option<usize>
    ensures node { result ≡ node_in (get nat_eq known.old session) }
    ensures change { (k : ℕ) → get nat_eq known.new k ≡ cond (nat_eq session k) (heard_at heard (get nat_eq known.old k)) (get nat_eq known.old k) }
{
    match known.get_mut(&session) {
        Some(entry) => {
            entry.heard = heard;
            Some(entry.node)
        }
        None => None,
    }
}

// Sets the node of the session, if it is known.
fn set_node(known: &mut HashMap<u64, Known>, session: u64, node: usize)
    ensures { (k : ℕ) → get nat_eq known.new k ≡ cond (nat_eq session k) (moved_to node (get nat_eq known.old k)) (get nat_eq known.old k) }
{
    if let Some(entry) = known.get_mut(&session) {
        entry.node = node;
    }
}

// Makes a session known.
fn enter(known: &mut HashMap<u64, Known>, session: u64, entry: Known) -> Result<(), NoMemory>
    ensures ok { OnOk result ((k : ℕ) → get nat_eq known.new k ≡ cond (nat_eq session k) (Some entry) (get nat_eq known.old k)) }
    ensures err { OnErr result ((k : ℕ) → get nat_eq known.new k ≡ get nat_eq known.old k) }
{
    let _ = known.insert(session, entry)?;
    Ok(())
}

// Forgets the session, if it is known, and answers its node.
fn forget(known: &mut HashMap<u64, Known>, session: u64) -> Option<usize>
    ensures node { result ≡ node_in (get nat_eq known.old session) }
    ensures change { (k : ℕ) → get nat_eq known.new k ≡ cond (nat_eq session k) None (get nat_eq known.old k) }
{
    match known.remove(&session) {
        Some(entry) => Some(entry.node),
        None => None,
    }
}

// Sets when the session was heard, if it is known, and answers when that was and its timeout.
fn hear_again(known: &mut HashMap<u64, Known>, session: u64, now: u64) -> Option<Heard>
    ensures heard { result ≡ option_map (heard_again now) (heard_in (get nat_eq known.old session)) }
    ensures change { (k : ℕ) → get nat_eq known.new k ≡ cond (nat_eq session k) (option_map (known_again now) (get nat_eq known.old k)) (get nat_eq known.old k) }
{
    match known.get_mut(&session) {
        Some(entry) => {
            entry.heard.heard = now;
            Some(entry.heard)
        }
        None => None,
    }
}

// The node's session was heard at the time: it is known so, and its deadline is put into the node.
fn hear_node(known: &mut HashMap<u64, Known>, slots: &mut [Slot], node: usize, now: u64)
    requires inside { node < length slots.old }
    requires index { IsIndex known.old.entries (tags slots.old) }
    ensures known { (k : ℕ) → get nat_eq known.new k ≡ option_map (known_at node now) (get nat_eq known.old k) }
    ensures index { IsIndex known.new.entries (tags slots.new) }
{
    let slot = &mut slots[node];
    if let Some(heard) = hear_again(known, slot.session, now) {
        slot.deadline = heard.deadline();
    }
}

// All sessions were heard at the time: they are known so, and their deadlines are put into the nodes.
fn hear_all(known: &mut HashMap<u64, Known>, slots: &mut [Slot], now: u64)
    requires { IsIndex known.old.entries (tags slots.old) }
    ensures known { (k : ℕ) → get nat_eq known.new k ≡ option_map (known_again now) (get nat_eq known.old k) }
    ensures index { IsIndex known.new.entries (tags slots.new) }
{
    for node in 0..slots.len() {
        hear_node(known, slots, node, now);
    }
}

impl Expiry {
    /// No sessions. The growth takes memory from `alloc`.
    pub fn new(alloc: Global) -> Self
        ensures { result ≡ map.empty }
    {
        Expiry {
            known: HashMap::new(alloc),
            slots: Vec::new(alloc),
        }
    }

    /// How many sessions there are.
    pub fn len(&self) -> usize
        ensures { result ≡ map.len self.now }
    {
        self.known.len()
    }

    /// When the session was last heard, and its timeout, if it is there.
    pub fn heard(&self, session: u64) -> Option<Heard>
        ensures { result ≡ map.get self.now session }
    {
        match self.known.get(&session) {
            Some(known) => Some(known.heard),
            None => None,
        }
    }

    // Adds a session that isn't there.
    fn add_new(&mut self, session: u64, heard: Heard) -> Result<(), NoMemory>
        requires { map.get self.old session ≡ None }
        ensures ok { OnOk result (self.new ≡ map.insert self.old session heard) }
        ensures err { OnErr result (self.new ≡ self.old) }
    {
        let node = self.slots.len();
        self.slots.reserve(1)?;
        enter(&mut self.known, session, Known { heard, node })?;
        add(&mut self.slots, session, heard.deadline());
        Ok(())
    }

    /// The session was heard at `now`, in milliseconds, and may then be silent for `timeout`
    /// milliseconds. For a session that is there it takes no memory and is Ok. After an error
    /// nothing has changed.
    pub fn touch(&mut self, session: u64, timeout: u32, now: u64) -> Result<(), NoMemory>
        ensures ok { OnOk result (self.new ≡ map.insert self.old session (record { heard = now; timeout = timeout })) }
        ensures err { OnErr result (self.new ≡ self.old) }
        ensures there { map.contains_key self.old session ≡ true → IsOk result }
    {
        let heard = Heard {
            heard: now,
            timeout,
        };
        match hear(&mut self.known, session, heard) {
            Some(node) => {
                put(&mut self.slots, node, session, heard.deadline());
                Ok(())
            }
            None => self.add_new(session, heard),
        }
    }

    /// Every session that is there was heard at `now`, in milliseconds. Each keeps its timeout. It
    /// takes no memory, and costs as much as there are sessions.
    pub fn touch_all(&mut self, now: u64)
        ensures { (s : ℕ) → map.get self.new s ≡ option_map (heard_again now) (map.get self.old s) }
    {
        hear_all(&mut self.known, &mut self.slots, now);
        mend_all(&mut self.slots);
    }

    /// Takes the session away, if it is there. It takes no memory.
    pub fn remove(&mut self, session: u64)
        ensures { self.new ≡ map.remove self.old session }
    {
        if let Some(node) = forget(&mut self.known, session) {
            if let Some(moved) = take_out(&mut self.slots, node) {
                set_node(&mut self.known, moved, node);
            }
        }
    }

    /// Exactly the sessions with a deadline of at most `now`, in milliseconds, in the order of
    /// (deadline, session). It costs the sessions that it answers, times a logarithm.
    pub fn due(&self, alloc: Global, now: u64) -> Result<Vec<u64>, NoMemory>
        ensures listed { IfOk result (λ sessions. ListsDue self.now now sessions.items) }
        ensures exact { IfOk result (λ sessions. sessions.items ≡ due self.now now) }
    {
        let found = find_due(&self.slots, alloc, now)?;
        let sorted = in_order(found);
        sessions(&sorted, alloc)
    }
}
