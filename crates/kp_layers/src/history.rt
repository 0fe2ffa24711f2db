//! A map, and the writes over it in one log, the oldest first.
ghost use Rattle.std.specs.Prelude.{Option, true, ◌≡◌, ℕ, ◌+◌, ◌-◌, ◌≤◌, ◌<◌, ◌++◌, ◌∷◌, [], length, OnOk, OnErr, IfOk, nat_eq, ◌^◌, Some, None, IsSome, take, drop};
ghost use Rattle.std.specs.FinMap as map;
ghost use Rattle.std.specs.Option.{option_copied};
ghost use Rattle.kp_layers.specs.Overlay.{put, overlay, newest_of, commit_first, empty_past};
ghost use Rattle.std.specs.List.{IsDistinct, filter, list_any};
ghost use Rattle.std.specs.Ordering.{nat_cmp};
ghost use Rattle.kp_layers.specs.Listed.{Lists, at_level};
ghost use Rattle.kp_layers.specs.Used.{is_known};
ghost use Rattle.kp_layers.specs.Chains.{recounted};
ghost use Rattle.std.specs.BTreeMap as tree;
ghost use Rattle.kp_layers.specs.Grouped.{is_in};

use crate::NoMemory;
use crate::cells::{Cell, commit_cell, number_cell, renumber_cell};
use crate::grouping::{Grouping, Ungrouped, group_of};
use crate::index::Index;
use std::alloc::{AllocError, Global};
use std::collections::{BTreeMap, HashMap, VecDeque};
use std::marker::Model;

/// Which of its writes a map is seen under.
#[derive(Clone, Copy, PartialEq, Eq, Debug)]
pub(crate) enum Level {
    /// None: the base map.
    Committed,
    /// All of them.
    Latest,
}

/// A write, and the number of the write of the same key before it.
#[derive(Drop)]
pub(crate) struct Write<V> {
    key: u64,
    value: Option<V>,
    previous: u64,
}

/// A base map and the writes over it. Each key that has a value in the base map or a write has a
/// cell, and no other key has one. The writes have the numbers from `first + 1` on; a number of at
/// most `first` names no write. The writes of one key are a chain: its cell names the newest one,
/// and each write the one before it.
///
/// Of the groups of `S`, the index has the keys whose value in the base map or one of whose writes
/// is of the group.
#[derive(Drop)]
pub(crate) struct History<V, S: Grouping<V>> {
    cells: HashMap<u64, Cell<V>>,
    log: VecDeque<Write<V>>,
    first: u64,
    index: Index<S::Group>,
    // how many keys have a value in the base map
    filled: u64,
}

impl<V, S: Grouping<V>> Model for History<V, S> {
    ghost use Rattle.kp_layers.specs.Overlay.{Past, past_code};

    ghost Value = { Past V };

    ghost coded = { past_code V.code };

    ghost use Rattle.kp_layers.specs.Chains.{base_of, shown, IsCounted};
    ghost use Rattle.kp_layers.specs.Grouped.{IsSound};

    ghost view = { λ h. record { base = base_of h.cells.entries; writes = shown h.log.items } };

    ghost invariant = { λ h. IsSound S.Group.eq S.group_of h.index.groups.entries h.cells.entries h.log.items h.first × IsCounted h.cells.entries h.first h.filled };
}

// How many keys have a value, once one of them has one or has none, where before it had one or had
// none.
fn recounted(count: u64, before: bool, after: bool) -> u64
    requires room { count < 2 ^ 64 - 1 }
    requires there { before ≡ true → 1 ≤ count }
    ensures { result ≡ recounted before after count }
{
    match (before, after) {
        (false, true) => count + 1,
        (true, false) => count - 1,
        _ => count,
    }
}

// The keys in their order.
fn in_order(mut keys: Vec<u64>) -> Vec<u64>
    ensures { IsDistinct nat_eq keys.items → Lists nat_cmp (λ q. list_any (nat_eq q) keys.items) result.items }
{
    keys.sort_unstable();
    keys
}

impl<V, S: Grouping<V>> History<V, S> {
    /// An empty map with no writes.
    pub(crate) fn new(alloc: Global) -> Self
        ensures { result ≡ empty_past }
    {
        History {
            cells: HashMap::new(alloc),
            log: VecDeque::new(alloc),
            first: 0,
            index: Index::new(alloc),
            filled: 0,
        }
    }

    /// How many writes there are.
    pub(crate) fn len(&self) -> usize
        ensures { result ≡ length self.now.writes }
    {
        self.log.len()
    }

    /// How many keys have a value in the base map.
    pub(crate) fn filled(&self) -> u64
        ensures { result ≡ map.len self.now.base }
    {
        self.filled
    }

    /// Whether the key has a value in the base map or a write.
    pub(crate) fn is_known(&self, key: u64) -> bool
        ensures { result ≡ is_known self.now key }
    {
        self.cells.contains_key(&key)
    }

    /// The value of the key in the base map.
    pub(crate) fn committed(&self, key: u64) -> Option<&V>
        ensures { option_copied result ≡ map.get self.now.base key }
    {
        match self.cells.get(&key) {
            Some(cell) => cell.committed.as_ref(),
            None => None,
        }
    }

    /// The value of the key under all writes.
    pub(crate) fn latest(&self, key: u64) -> Option<&V>
        ensures { option_copied result ≡ map.get (newest_of self.now) key }
    {
        match self.cells.get(&key) {
            Some(cell) => {
                if self.first < cell.newest {
                    let write = &self.log[(cell.newest - self.first - 1) as usize];
                    write.value.as_ref()
                } else {
                    cell.committed.as_ref()
                }
            }
            None => None,
        }
    }

    // The value of the key at the level.
    fn value(&self, level: Level, key: u64) -> Option<&V>
        ensures { option_copied result ≡ map.get (at_level level self.now) key }
    {
        match level {
            Level::Committed => self.committed(key),
            Level::Latest => self.latest(key),
        }
    }

    // Whether the key has a value at the level.
    fn has(&self, level: Level, key: u64) -> bool
        ensures { result ≡ map.contains_key (at_level level self.now) key }
    {
        self.value(level, key).is_some()
    }

    /// The keys that have a value at the level, ascending. Costs the cells and the sorting of the
    /// keys.
    pub(crate) fn keys(&self, alloc: Global, level: Level) -> Result<Vec<u64>, NoMemory>
        ensures { IfOk result (λ ks. ks.items ≡ map.keys (at_level level self.now)) }
    {
        let mut keys = Vec::new(alloc);
        for key in self.cells.keys() {
            if self.has(level, *key) {
                keys.push(*key)?;
            }
        }
        Ok(in_order(keys))
    }

    // Whether the key has a value of the group at the level.
    fn is_in(&self, level: Level, group: S::Group, key: u64) -> bool
        ensures { result ≡ is_in S.Group.eq S.group_of (at_level level self.now) group key }
    {
        match self.value(level, key) {
            Some(value) => match S::group(value) {
                Some(own) => own == group,
                None => false,
            },
            None => false,
        }
    }

    // Those of the counted keys that have a value of the group at the level.
    fn those_in(
        &self,
        alloc: Global,
        level: Level,
        group: S::Group,
        counts: &BTreeMap<u64, u64>,
    ) -> Result<Vec<u64>, NoMemory>
        ensures items { IfOk result (λ ks. ks.items ≡ filter (is_in S.Group.eq S.group_of (at_level level self.now) group) (tree.keys counts.now)) }
        ensures ordered { tree.IsOrdered nat_cmp counts.now }
    {
        let mut keys = Vec::new(alloc);
        for key in counts.keys() {
            if self.is_in(level, group, *key) {
                keys.push(*key)?;
            }
        }
        Ok(keys)
    }

    /// The keys that have a value of the group at the level, ascending. Costs the keys that the
    /// index has of the group.
    pub(crate) fn keys_in(
        &self,
        alloc: Global,
        level: Level,
        group: S::Group,
    ) -> Result<Vec<u64>, NoMemory>
        ensures { IfOk result (λ ks. ks.items ≡ filter (is_in S.Group.eq S.group_of (at_level level self.now) group) (map.keys (at_level level self.now))) }
    {
        match self.index.counts(group) {
            Some(counts) => self.those_in(alloc, level, group, counts),
            None => Ok(Vec::new(alloc)),
        }
    }

    // Whether one of the counted keys has a value of the group at the level.
    fn any_of(&self, level: Level, group: S::Group, counts: &BTreeMap<u64, u64>) -> bool
        ensures value { result ≡ list_any (is_in S.Group.eq S.group_of (at_level level self.now) group) (tree.keys counts.now) }
        ensures ordered { tree.IsOrdered nat_cmp counts.now }
    {
        for key in counts.keys() {
            if self.is_in(level, group, *key) {
                return true;
            }
        }
        false
    }

    /// Whether a key has a value of the group at the level. Costs at most the keys that the index
    /// has of the group.
    pub(crate) fn any_in(&self, level: Level, group: S::Group) -> bool
        ensures { result ≡ list_any (is_in S.Group.eq S.group_of (at_level level self.now) group) (map.keys (at_level level self.now)) }
    {
        match self.index.counts(group) {
            Some(counts) => self.any_of(level, group, counts),
            None => false,
        }
    }
}

impl<V: Drop, S: Grouping<V>> History<V, S> {
    /// Adds a write behind the others. After an error nothing has changed.
    pub(crate) fn push(&mut self, key: u64, value: Option<V>) -> Result<(), NoMemory>
        ensures ok { OnOk result (self.new ≡ record self.old { writes = self.old.writes ++ (key, value) ∷ [] }) }
        ensures err { OnErr result (self.new ≡ self.old) }
        ensures small { OnOk result (length self.new.writes < 2 ^ 64) }
    {
        let len = self.log.len() as u64;
        if u64::MAX - self.first <= len {
            return Err(AllocError);
        }
        if self.log.reserve(1).is_err() {
            return Err(AllocError);
        }
        let group = group_of::<V, S>(&value);
        self.index.add(group, key)?;
        let Ok(previous) = number_cell(&mut self.cells, key, self.first + len + 1) else {
            self.index.take(group, key);
            return Err(AllocError);
        };
        self.log.push_back_reserved(Write {
            key,
            value,
            previous,
        });
        Ok(())
    }

    /// Takes back the last write.
    pub(crate) fn undo_one(&mut self)
        requires { 0 < length self.old.writes }
        ensures { self.new ≡ record self.old { writes = take (length self.old.writes - 1) self.old.writes } }
    {
        if let Some(write) = self.log.pop_back() {
            let Write {
                key,
                value,
                previous,
            } = write;
            let group = group_of::<V, S>(&value);
            drop(value);
            self.index.take(group, key);
            renumber_cell(&mut self.cells, key, previous, self.first);
        }
    }

    /// Makes the first write on the base.
    pub(crate) fn commit_one(&mut self)
        requires { 0 < length self.old.writes }
        ensures { self.new ≡ commit_first self.old.base self.old.writes }
    {
        if let Some(write) = self.log.pop_front() {
            let Write {
                key,
                value,
                previous: _,
            } = write;
            self.first += 1;
            let given = value.is_some();
            let replaced = commit_cell(&mut self.cells, key, value, self.first);
            let had = replaced.is_some();
            self.filled = recounted(self.filled, had, given);
            let group = group_of::<V, S>(&replaced);
            drop(replaced);
            self.index.take(group, key);
        }
    }

    /// Makes the first `count` writes on the base, in their order.
    pub(crate) fn commit(&mut self, count: usize)
        requires { count ≤ length self.old.writes }
        ensures { self.new ≡ record { base = overlay self.old.base (take count self.old.writes); writes = drop count self.old.writes } }
    {
        'writes: for _i in 0..count {
            self.commit_one();
        }
    }

    /// Keeps the first `keep` writes.
    pub(crate) fn truncate(&mut self, keep: usize)
        ensures { self.new ≡ record self.old { writes = take keep self.old.writes } }
    {
        let extra = self.len().saturating_sub(keep);
        'writes: for _i in 0..extra {
            self.undo_one();
        }
    }
}

impl<V: Drop> History<V, Ungrouped> {
    /// Gives a key that has a value in the base map another one.
    pub(crate) fn replace(&mut self, key: u64, value: V)
        requires { IsSome (map.get self.old.base key) }
        ensures { self.new ≡ record self.old { base = map.insert self.old.base key value } }
    {
        let replaced = commit_cell(&mut self.cells, key, Some(value), self.first);
        drop(replaced);
    }
}
