//! The keys of each group.
ghost use Rattle.std.specs.Prelude.{◌≡◌, ℕ, ◌+◌, ◌-◌, ◌<◌, Bool, true, false, cond, nat_eq, nat_lt, ◌&&◌, Option, Some, None, IsTrue, OnOk, OnErr, IfOk, length};
ghost use Rattle.std.specs.Option.{option_copied};
ghost use Rattle.std.specs.Ordering.{nat_cmp};
ghost use Rattle.std.specs.HashMap as hash;
ghost use Rattle.std.specs.BTreeMap as tree;
ghost use Rattle.kp_layers.specs.Grouped.{number, positive, read, has_keys, count_at, IsFilled, Adds, Takes, Keeps};

use crate::NoMemory;
use std::alloc::{AllocError, Global};
use std::collections::{BTreeMap, HashMap};
use std::hash::Hash;

/// The keys of each group, each with how many values it has there. A key without a value in the
/// group isn't among them, and a group without a key has no entry.
#[derive(Drop)]
pub(crate) struct Index<G: Copy + Eq + Hash> {
    groups: HashMap<G, BTreeMap<u64, u64>>,
    alloc: Global,
}

// Makes the count of the key one more.
fn raise(counts: &mut BTreeMap<u64, u64>, key: u64) -> Result<(), NoMemory>
    ensures ok { OnOk result ((k : ℕ) → tree.get nat_cmp counts.new k ≡ cond (nat_eq key k) (Some (number (tree.get nat_cmp counts.old k) + 1)) (tree.get nat_cmp counts.old k)) }
    ensures err { OnErr result (tree.IsUnchanged counts.old counts.new) }
{
    let count = counts.get(&key).copied().unwrap_or(0);
    let Some(more) = count.checked_add(1) else {
        return Err(AllocError);
    };
    let _ = counts.insert(key, more)?;
    Ok(())
}

// Makes the count of the key one less where it stays above 0, and tells whether it does.
fn lessen(counts: &mut BTreeMap<u64, u64>, key: u64) -> bool
    ensures stays { result ≡ nat_lt 1 (number (tree.get nat_cmp counts.old key)) }
    ensures change { (k : ℕ) → tree.get nat_cmp counts.new k ≡ cond (nat_eq key k && result) (Some (number (tree.get nat_cmp counts.old k) - 1)) (tree.get nat_cmp counts.old k) }
{
    match counts.get_mut(&key) {
        Some(count) => {
            let stays = 1 < *count;
            if stays {
                *count -= 1;
            }
            stays
        }
        None => false,
    }
}

// Makes the count of the key one less. A key without a count goes.
fn lower(counts: &mut BTreeMap<u64, u64>, key: u64)
    ensures { (k : ℕ) → tree.get nat_cmp counts.new k ≡ cond (nat_eq key k) (positive (number (tree.get nat_cmp counts.old k) - 1)) (tree.get nat_cmp counts.old k) }
{
    let stays = lessen(counts, key);
    if !stays {
        let _ = counts.remove(&key);
    }
}

// The counts of a group that has none yet, with one value of the key.
fn first_count(alloc: Global, key: u64) -> Result<BTreeMap<u64, u64>, NoMemory>
    ensures { IfOk result (λ counts. (k : ℕ) → tree.get nat_cmp counts k ≡ cond (nat_eq key k) (Some 1) None) }
{
    let mut counts = BTreeMap::new(alloc);
    raise(&mut counts, key)?;
    Ok(counts)
}

// Gives the group, which has no entry, the first key.
fn put_first<G: Copy + Eq + Hash>(
    alloc: Global,
    groups: &mut HashMap<G, BTreeMap<u64, u64>>,
    group: G,
    key: u64,
) -> Result<(), NoMemory>
    requires { hash.get G.eq groups.old group ≡ None }
    ensures ok { OnOk result (Adds G.eq groups.old.entries groups.new.entries (Some group) key) }
    ensures err { OnErr result (Keeps G.eq groups.old.entries groups.new.entries) }
{
    let counts = first_count(alloc, key)?;
    let _ = groups.insert(group, counts)?;
    Ok(())
}

// Makes the count of the key in the group one more.
fn raise_in<G: Copy + Eq + Hash>(
    alloc: Global,
    groups: &mut HashMap<G, BTreeMap<u64, u64>>,
    group: G,
    key: u64,
) -> Result<(), NoMemory>
    ensures ok { OnOk result (Adds G.eq groups.old.entries groups.new.entries (Some group) key) }
    ensures err { OnErr result (Keeps G.eq groups.old.entries groups.new.entries) }
{
    match groups.get_mut(&group) {
        Some(counts) => {
            raise(counts, key)?;
            Ok(())
        }
        None => put_first(alloc, groups, group, key),
    }
}

// Makes the count of the key in the group one less, and tells whether the group then has an entry
// without a key.
fn lower_in<G: Copy + Eq + Hash>(
    groups: &mut HashMap<G, BTreeMap<u64, u64>>,
    group: G,
    key: u64,
) -> bool
    ensures counts { (g : G) (k : ℕ) → count_at G.eq groups.new.entries g k ≡ cond (G.eq group g && nat_eq key k) (positive (number (count_at G.eq groups.old.entries g k) - 1)) (count_at G.eq groups.old.entries g k) }
    ensures others { (g : G) → G.eq group g ≡ false → hash.get G.eq groups.new g ≡ hash.get G.eq groups.old g }
    ensures emptied { result ≡ true → (k : ℕ) → count_at G.eq groups.new.entries group k ≡ None }
    ensures filled { result ≡ false → has_keys (hash.get G.eq groups.new group) ≡ true }
{
    match groups.get_mut(&group) {
        Some(counts) => {
            lower(counts, key);
            counts.is_empty()
        }
        None => false,
    }
}

impl<G: Copy + Eq + Hash> Index<G> {
    /// The index of no values. Its growth takes memory from `alloc`.
    pub(crate) fn new(alloc: Global) -> Self
        ensures none { (g : G) (k : ℕ) → count_at G.eq result.groups.entries g k ≡ None }
        ensures filled { IsFilled G.eq result.groups.entries }
    {
        Index {
            groups: HashMap::new(alloc),
            alloc,
        }
    }

    /// Adds a value of the key to the group, if there is a group. After an error nothing has
    /// changed.
    pub(crate) fn add(&mut self, group: Option<G>, key: u64) -> Result<(), NoMemory>
        ensures ok { OnOk result (Adds G.eq self.old.groups.entries self.new.groups.entries group key) }
        ensures err { OnErr result (Keeps G.eq self.old.groups.entries self.new.groups.entries) }
    {
        match group {
            Some(group) => raise_in(self.alloc, &mut self.groups, group, key),
            None => Ok(()),
        }
    }

    /// Takes a value of the key from the group, if there is a group.
    pub(crate) fn take(&mut self, group: Option<G>, key: u64)
        ensures { Takes G.eq self.old.groups.entries self.new.groups.entries group key }
    {
        if let Some(group) = group {
            let emptied = lower_in(&mut self.groups, group, key);
            if emptied {
                let _ = self.groups.remove(&group);
            }
        }
    }

    /// The keys of the group, with their counts.
    pub(crate) fn counts(&self, group: G) -> Option<&BTreeMap<u64, u64>>
        ensures { option_copied result ≡ hash.get G.eq self.now.groups group }
    {
        self.groups.get(&group)
    }
}
