//! A map under a list of sealed layers of writes, and at most one open layer.
ghost use Rattle.std.specs.Prelude.{◌≡◌, ℕ, ◌<◌, ◌↔◌, length, OnOk, OnErr, IfOk, IsTrue, IsSome, None};
ghost use Rattle.std.specs.FinMap as map;
ghost use Rattle.std.specs.Option.{option_copied};
ghost use Rattle.kp_layers.specs.Layering.{latest_of, staged_of, empty_layering, begun, written, undone, sealed, abandoned, front_committed, back_dropped};
ghost use Rattle.kp_layers.specs.Used.{is_used};
ghost use Rattle.std.specs.List.{filter, list_any};
ghost use Rattle.kp_layers.specs.Grouped.{is_in};

use crate::NoMemory;
use crate::grouping::{Grouping, Ungrouped};
use crate::history::{History, Level};
use std::alloc::{AllocError, Global};
use std::collections::VecDeque;
use std::marker::Model;

/// A map from numbers to values (the base) under layers of writes, each of which gives a key a
/// value or takes it away. Sealed layers stand in the order of their sealing; at most one more is
/// open, and writes go into that one. `V` is any type.
///
/// A look-up costs the same whatever the number of layers. `undo_to`, `seal`, `abandon`,
/// `commit_front` and `drop_back` take no memory, and cost the writes that they move or take back.
/// A key that has neither a value in the base nor a write in a layer takes no room.
///
/// The values stand in the groups of `S`, and the keys of a group are listed at their own cost,
/// whatever else the map holds.
#[derive(Drop)]
pub struct GroupedLayers<V, S: Grouping<V>> {
    // the writes of the sealed layers and then those of the open one
    history: History<V, S>,
    // how many writes each sealed layer has
    sealed: VecDeque<usize>,
    // how many the open layer has
    pending: Option<usize>,
}

/// Layers of values that stand in no groups.
pub type Layers<V> = GroupedLayers<V, Ungrouped>;

impl<V, S: Grouping<V>> Model for GroupedLayers<V, S> {
    ghost use Rattle.std.specs.Ordering.{nat_cmp};
    ghost use Rattle.std.specs.Coded.{coded_ℕ};
    ghost use Rattle.kp_layers.specs.Layering.{Layering, layering_code};

    ghost Value = { Layering nat_cmp V };

    ghost coded = { layering_code coded_ℕ V.code };

    ghost use Rattle.std.specs.Prelude.{◌-◌};
    ghost use Rattle.std.specs.VecDeque.{deque_len, deque_capacity};
    ghost use Rattle.kp_layers.specs.Layering.{layering, IsCut};

    ghost view = { λ l. layering l.history.base l.sealed.items l.pending l.history.writes };

    ghost invariant = { λ l. IsCut l.sealed.items l.pending l.history.writes (deque_capacity l.sealed - deque_len l.sealed) };
}

impl<V, S: Grouping<V>> GroupedLayers<V, S> {
    /// An empty map with no layers. Its later growth takes memory from `alloc`.
    pub fn new(alloc: Global) -> Self
        ensures { result ≡ empty_layering }
    {
        GroupedLayers {
            history: History::new(alloc),
            sealed: VecDeque::new(alloc),
            pending: None,
        }
    }

    /// Opens a layer with no writes, and makes the room for its sealing. After an error nothing
    /// has changed.
    pub fn begin(&mut self) -> Result<(), NoMemory>
        requires { self.old.staged ≡ None }
        ensures ok { OnOk result (self.new ≡ begun self.old) }
        ensures err { OnErr result (self.new ≡ self.old) }
    {
        if self.sealed.reserve(1).is_err() {
            return Err(AllocError);
        }
        self.pending = Some(0);
        Ok(())
    }

    /// How many writes the open layer has: the mark to which `undo_to` comes back.
    pub fn mark(&self) -> usize
        requires { IsSome self.now.staged }
        ensures { result ≡ length (staged_of self.now) }
    {
        self.pending.unwrap()
    }

    /// Whether the key has a value in the base map or a write in a layer, the open one included.
    /// Which keys that are, the laws of this crate say after each change.
    pub fn is_used(&self, key: u64) -> bool
        ensures { result ≡ is_used self.now key }
    {
        self.history.is_known(key)
    }

    /// How many keys have a value in the base. Costs the same however many there are.
    pub fn committed_len(&self) -> u64
        ensures { result ≡ map.len self.now.base }
    {
        self.history.filled()
    }

    /// The value of the key in the base map, below all layers.
    pub fn committed(&self, key: u64) -> Option<&V>
        ensures { option_copied result ≡ map.get self.now.base key }
    {
        self.history.committed(key)
    }

    /// The value of the key under all layers, the open one last.
    pub fn latest(&self, key: u64) -> Option<&V>
        ensures { option_copied result ≡ map.get (latest_of self.now) key }
    {
        self.history.latest(key)
    }

    /// The keys of the base map, ascending. Costs the keys in use and their sorting.
    pub fn committed_keys(&self, alloc: Global) -> Result<Vec<u64>, NoMemory>
        ensures { IfOk result (λ ks. ks.items ≡ map.keys self.now.base) }
    {
        self.history.keys(alloc, Level::Committed)
    }

    /// The keys that have a value under all layers, ascending. Costs the keys in use and their
    /// sorting.
    pub fn latest_keys(&self, alloc: Global) -> Result<Vec<u64>, NoMemory>
        ensures { IfOk result (λ ks. ks.items ≡ map.keys (latest_of self.now)) }
    {
        self.history.keys(alloc, Level::Latest)
    }

    /// The keys whose value in the base map is of the group, ascending. Costs the keys with a value
    /// or a write of the group.
    pub fn committed_in(&self, alloc: Global, group: S::Group) -> Result<Vec<u64>, NoMemory>
        ensures { IfOk result (λ ks. ks.items ≡ filter (is_in S.Group.eq S.group_of self.now.base group) (map.keys self.now.base)) }
    {
        self.history.keys_in(alloc, Level::Committed, group)
    }

    /// The keys whose value under all layers is of the group, ascending. Costs the keys with a value
    /// or a write of the group.
    pub fn latest_in(&self, alloc: Global, group: S::Group) -> Result<Vec<u64>, NoMemory>
        ensures { IfOk result (λ ks. ks.items ≡ filter (is_in S.Group.eq S.group_of (latest_of self.now) group) (map.keys (latest_of self.now))) }
    {
        self.history.keys_in(alloc, Level::Latest, group)
    }

    /// Whether a key has a value of the group in the base map. Costs at most the keys with a value or
    /// a write of the group.
    pub fn any_committed_in(&self, group: S::Group) -> bool
        ensures { result ≡ list_any (is_in S.Group.eq S.group_of self.now.base group) (map.keys self.now.base) }
    {
        self.history.any_in(Level::Committed, group)
    }

    /// Whether a key has a value of the group under all layers. Costs at most the keys with a value
    /// or a write of the group.
    pub fn any_latest_in(&self, group: S::Group) -> bool
        ensures { result ≡ list_any (is_in S.Group.eq S.group_of (latest_of self.now) group) (map.keys (latest_of self.now)) }
    {
        self.history.any_in(Level::Latest, group)
    }
}

impl<V: Drop, S: Grouping<V>> GroupedLayers<V, S> {
    /// Adds a write to the open layer: the key gets the value, or with None goes. After an error
    /// nothing has changed.
    pub fn stage(&mut self, key: u64, value: Option<V>) -> Result<(), NoMemory>
        requires { IsSome self.old.staged }
        ensures ok { OnOk result (self.new ≡ written self.old key value) }
        ensures err { OnErr result (self.new ≡ self.old) }
    {
        let count = self.pending.unwrap();
        self.history.push(key, value)?;
        self.pending = Some(count + 1);
        Ok(())
    }

    /// Keeps the first `mark` writes of the open layer; all of them where it has no more.
    pub fn undo_to(&mut self, mark: usize)
        requires { IsSome self.old.staged }
        ensures { self.new ≡ undone self.old mark }
    {
        let count = self.pending.unwrap();
        if mark < count {
            self.history.truncate(self.history.len() - (count - mark));
            self.pending = Some(mark);
        }
    }

    /// Closes the open layer behind the sealed ones.
    pub fn seal(&mut self)
        requires { IsSome self.old.staged }
        ensures { self.new ≡ sealed self.old }
    {
        let count = self.pending.unwrap();
        self.pending = None;
        self.sealed.push_back_reserved(count);
    }

    /// Takes the open layer away with its writes.
    pub fn abandon(&mut self)
        requires { IsSome self.old.staged }
        ensures { self.new ≡ abandoned self.old }
    {
        let count = self.pending.unwrap();
        self.pending = None;
        self.history.truncate(self.history.len() - count);
    }

    /// Makes the writes of the first sealed layer on the base, in their order. Answers false
    /// exactly where no layer is sealed, and then nothing changes.
    pub fn commit_front(&mut self) -> bool
        requires { self.old.staged ≡ None }
        ensures there { IsTrue result ↔ (0 < length self.old.layers) }
        ensures changed { self.new ≡ front_committed self.old }
    {
        match self.sealed.pop_front() {
            Some(count) => {
                self.history.commit(count);
                true
            }
            None => false,
        }
    }

    /// Takes the last sealed layer away with its writes. Answers false exactly where no layer is
    /// sealed, and then nothing changes.
    pub fn drop_back(&mut self) -> bool
        requires { self.old.staged ≡ None }
        ensures there { IsTrue result ↔ (0 < length self.old.layers) }
        ensures changed { self.new ≡ back_dropped self.old }
    {
        match self.sealed.pop_back() {
            Some(count) => {
                self.history.truncate(self.history.len() - count);
                true
            }
            None => false,
        }
    }
}

impl<V: Drop> GroupedLayers<V, Ungrouped> {
    /// Gives a key that has a value in the base map another one. Takes no memory.
    pub fn replace_base(&mut self, key: u64, value: V)
        requires { IsSome (map.get self.old.base key) }
        ensures { self.new ≡ record self.old { base = map.insert self.old.base key value } }
    {
        self.history.replace(key, value);
    }
}
