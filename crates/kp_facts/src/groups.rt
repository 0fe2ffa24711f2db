//! Values in groups, by keys.
ghost use Rattle.std.specs.Prelude.{◌≡◌, ◌||◌, ◌&&◌, false, map, IfOk, OnOk};
ghost use Rattle.std.specs.List.{AllByRecursion};
ghost use Rattle.std.specs.Ordering.{eq_by_cmp};
ghost use Rattle.std.specs.BTreeSet.{contains};
ghost use Rattle.kp_layers.specs.Listed.{Lists};
ghost use Rattle.kp_facts.specs.Groups.{has_group, is_in};

use kp_model::NoMemory;
use std::alloc::Global;
use std::collections::{BTreeMap, BTreeSet};

/// The values of each key that has some.
pub(crate) type Groups<K, V> = BTreeMap<K, BTreeSet<V>>;

// Gives the key, which has no values, this one.
fn first<K: Ord + Drop, V: Ord + Drop>(
    groups: &mut Groups<K, V>,
    alloc: Global,
    key: K,
    value: V,
) -> Result<(), NoMemory>
    requires { has_group K.cmp groups.old.entries key ≡ false }
    ensures groups { OnOk result ((k : K) → has_group K.cmp groups.new.entries k ≡ (eq_by_cmp K.cmp key k || has_group K.cmp groups.old.entries k)) }
    ensures values { OnOk result ((k : K) (v : V) → is_in K.cmp V.cmp groups.new.entries k v ≡ ((eq_by_cmp K.cmp key k && eq_by_cmp V.cmp value v) || is_in K.cmp V.cmp groups.old.entries k v)) }
{
    let mut set = BTreeSet::new(alloc);
    let _ = set.insert(value)?;
    let _ = groups.insert(key, set)?;
    Ok(())
}

/// Puts the value among those of the key.
pub(crate) fn enter<K: Ord + Drop, V: Ord + Drop>(
    groups: &mut Groups<K, V>,
    alloc: Global,
    key: K,
    value: V,
) -> Result<(), NoMemory>
    ensures groups { OnOk result ((k : K) → has_group K.cmp groups.new.entries k ≡ (eq_by_cmp K.cmp key k || has_group K.cmp groups.old.entries k)) }
    ensures values { OnOk result ((k : K) (v : V) → is_in K.cmp V.cmp groups.new.entries k v ≡ ((eq_by_cmp K.cmp key k && eq_by_cmp V.cmp value v) || is_in K.cmp V.cmp groups.old.entries k v)) }
{
    match groups.get_mut(&key) {
        Some(set) => {
            drop(key);
            let _ = set.insert(value)?;
            Ok(())
        }
        None => first(groups, alloc, key, value),
    }
}

/// The values of the set, ascending.
pub(crate) fn in_order<V: Ord + Drop>(
    alloc: Global,
    mut set: BTreeSet<V>,
) -> Result<Vec<V>, NoMemory>
    ensures { IfOk result (λ list. Lists V.cmp (contains V.cmp set) list.items) }
{
    let mut list = Vec::with_capacity(alloc, set.len())?;
    'drain: while let Some(value) = set.pop_first() {
        list.push(value)?;
    }
    Ok(list)
}

/// The keys, ascending, each with its values, ascending.
pub(crate) fn listed<K: Ord + Drop, V: Ord + Drop>(
    alloc: Global,
    mut groups: Groups<K, V>,
) -> Result<Vec<(K, Vec<V>)>, NoMemory>
    ensures keys { IfOk result (λ list. Lists K.cmp (has_group K.cmp groups.entries) (map (λ e. e.0) list.items)) }
    ensures values { IfOk result (λ list. AllByRecursion (λ e. Lists V.cmp (is_in K.cmp V.cmp groups.entries e.0) e.1.items) list.items) }
{
    let mut list = Vec::with_capacity(alloc, groups.len())?;
    'drain: while let Some((key, set)) = groups.pop_first() {
        let values = in_order(alloc, set)?;
        list.push((key, values))?;
    }
    Ok(list)
}
