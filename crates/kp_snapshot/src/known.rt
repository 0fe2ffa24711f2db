//! What is known of the sessions of an image so far.

ghost use Rattle.std.specs.Prelude.{◌≡◌, ◌==◌, ◌++◌, [], ◌∷◌, nat_lt, OnOk, IsTrue};
ghost use Rattle.std.specs.List.{list_all, list_any};
ghost use Rattle.kp_snapshot.specs.Rules.{may_be_number, is_new_holder};
ghost use Rattle.kp_snapshot.specs.Ups.{AreRising};
ghost use Rattle.kp_snapshot.specs.Knowing.{knowing, holder_of};

use kp_model::{NoMemory, Origin};
use std::alloc::Global;
use std::collections::HashSet;
use std::marker::Model;

#[derive(Clone, Copy, PartialEq, Eq, Hash)]
struct Holder {
    node: u8,
    boot: u64,
    conn: u64,
}

/// The numbers and the holders of the sessions so far, and the number that the next session of the state gets.
#[derive(Drop)]
pub(crate) struct Known {
    next: u64,
    ids: Vec<u64>,
    holders: Vec<Origin>,
    held: HashSet<Holder>,
}

impl Model for Known {
    ghost use Rattle.kp_snapshot.specs.Knowing.{Sessions, HasEach};
    ghost use Rattle.kp_snapshot.specs.Ups.{AreRising};

    ghost Value = { Sessions };

    ghost view = { λ k. record { next = k.next; ids = k.ids.items; holders = k.holders.items } };

    ghost invariant = { λ k. AreRising k.ids.items × HasEach k.held k.holders.items };
}

impl Known {
    /// No sessions. Takes no memory.
    pub(crate) fn new(alloc: Global, next: u64) -> Known
        ensures { result ≡ knowing next [] }
    {
        Known {
            next,
            ids: Vec::new(alloc),
            holders: Vec::new(alloc),
            held: HashSet::new(alloc),
        }
    }

    /// The numbers, ascending.
    pub(crate) fn ids(&self) -> &[u64]
        ensures ids { result.now ≡ self.now.ids }
        ensures rising { AreRising result.now }
    {
        self.ids.as_slice()
    }

    /// Whether the next session may have this number.
    pub(crate) fn may_be_number(&self, id: u64) -> bool
        ensures { result ≡ may_be_number self.now.next self.now.ids id }
    {
        1 <= id && id < self.next && is_above(&self.ids, id)
    }

    /// Whether no session has this holder.
    pub(crate) fn is_new(&self, holder: &Origin) -> bool
        ensures { result ≡ is_new_holder self.now.holders holder.now }
    {
        !self.held.contains(&name_of(holder))
    }

    /// Adds a session. Without memory it is to be dropped.
    pub(crate) fn add(&mut self, id: u64, holder: Origin) -> Result<(), NoMemory>
        requires { IsTrue (may_be_number self.old.next self.old.ids id) }
        ensures { OnOk result (self.new ≡ record self.old { ids = self.old.ids ++ id ∷ []; holders = self.old.holders ++ holder ∷ [] }) }
    {
        self.ids.reserve(1)?;
        self.holders.reserve(1)?;
        self.held.insert(name_of(&holder))?;
        self.ids.push_reserved(id);
        self.holders.push_reserved(holder);
        Ok(())
    }
}

fn name_of(origin: &Origin) -> Holder
    ensures { result ≡ holder_of origin.now }
{
    Holder {
        node: origin.node,
        boot: origin.boot,
        conn: origin.conn,
    }
}

// Whether the number is above all of these.
fn is_above(ids: &[u64], id: u64) -> bool
    requires { AreRising ids.now }
    ensures { result ≡ list_all (λ b. nat_lt b id) ids.now }
{
    match ids.last() {
        None => true,
        Some(last) => *last < id,
    }
}

/// Whether the number is one of these.
pub(crate) fn is_among(ids: &[u64], id: u64) -> bool
    requires { AreRising ids.now }
    ensures { result ≡ list_any (λ b. b == id) ids.now }
{
    match ids.binary_search(&id) {
        Ok(_) => true,
        Err(_) => false,
    }
}
