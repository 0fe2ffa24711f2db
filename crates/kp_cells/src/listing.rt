//! Lists of paths and of session numbers.
ghost use Rattle.std.specs.Prelude.{◌≡◌, ℕ, List, ◌||◌, map, option_copied, IfOk, OnOk};
ghost use Rattle.std.specs.BTreeSet.{contains};
ghost use Rattle.std.specs.FinMap as fin;
ghost use Rattle.std.specs.Str.{bytes_eq};
ghost use Rattle.std.specs.List.{filter, list_any};
ghost use Rattle.kp_model.specs.Path as paths;
ghost use Rattle.kp_model.specs.State.{path_cmp};
ghost use Rattle.kp_cells.specs.Naming.{IsNaming};
ghost use Rattle.kp_cells.specs.Listed.{side_of, taken as taken_of, takes, is_the, AreAmong};
ghost use Rattle.kp_layers.specs.Listed.{Lists};
ghost use Rattle.kp_layers.specs.Grouped.{is_in};

use crate::names::Names;
use crate::pick::Pick;
use kp_layers::{GroupedLayers, Grouping, Layers};
use kp_model::{Meta, NoMemory, Paths, Text};
use std::alloc::Global;
use std::collections::BTreeSet;

/// What the layers have at the key: under all layers, or below them.
pub fn look<V>(layers: &Layers<V>, latest: bool, key: u64) -> Option<&V>
    ensures { option_copied result ≡ fin.get (side_of latest layers.now) key }
{
    if latest {
        layers.latest(key)
    } else {
        layers.committed(key)
    }
}

// The path of the number, where there is a node that is picked.
fn taken<'a, P: Pick>(
    names: &'a Names,
    metas: &Layers<Meta>,
    latest: bool,
    pick: &P,
    number: u64,
) -> Option<&'a str>
    ensures { option_copied result ≡ taken_of (P.test pick.now) names.now (side_of latest metas.now) number }
{
    let path = names.text(number)?;
    let meta = look(metas, latest, number)?;
    if pick.takes(path, meta) {
        Some(path)
    } else {
        None
    }
}

// Adds the path to the set.
fn add(alloc: Global, path: &str, found: &mut BTreeSet<Text>) -> Result<(), NoMemory>
    ensures { OnOk result ((q : List ℕ) → contains path_cmp found.new q ≡ (contains path_cmp found.old q || bytes_eq q path.now)) }
{
    let _ = found.insert(Text::from_str(alloc, path)?)?;
    Ok(())
}

// Adds the path of the number, where there is a node that is picked.
fn visit<P: Pick>(
    alloc: Global,
    names: &Names,
    metas: &Layers<Meta>,
    latest: bool,
    pick: &P,
    number: u64,
    found: &mut BTreeSet<Text>,
) -> Result<(), NoMemory>
    ensures { OnOk result ((q : List ℕ) → contains path_cmp found.new q ≡ (contains path_cmp found.old q || is_the q (taken_of (P.test pick.now) names.now (side_of latest metas.now) number))) }
{
    match taken(names, metas, latest, pick, number) {
        Some(path) => add(alloc, path, found),
        None => Ok(()),
    }
}

// The paths that are picked, in a set. The numbers of all of them are among these.
fn gather<P: Pick>(
    alloc: Global,
    names: &Names,
    metas: &Layers<Meta>,
    latest: bool,
    pick: &P,
    numbers: &[u64],
) -> Result<BTreeSet<Text>, NoMemory>
    requires naming { IsNaming names.now }
    requires all { AreAmong (P.test pick.now) names.now (side_of latest metas.now) numbers.now }
    ensures { IfOk result (λ found. (q : List ℕ) → contains path_cmp found q ≡ takes (P.test pick.now) names.now (side_of latest metas.now) q) }
{
    let mut found = BTreeSet::new(alloc);
    for number in numbers {
        visit(alloc, names, metas, latest, pick, *number, &mut found)?;
    }
    Ok(found)
}

// The paths of the set, ascending.
fn in_order(alloc: Global, mut found: BTreeSet<Text>) -> Result<Paths, NoMemory>
    ensures { IfOk result (Lists path_cmp (contains path_cmp found)) }
{
    let mut paths = Vec::with_capacity(alloc, found.len())?;
    'drain: while let Some(path) = found.pop_first() {
        paths.push(path)?;
    }
    Ok(Paths::from_vec(paths))
}

/// The paths that are picked, ascending. The numbers of all of them are among these. Costs the
/// numbers, and the sorting of what is picked.
pub fn list<P: Pick>(
    alloc: Global,
    names: &Names,
    metas: &Layers<Meta>,
    latest: bool,
    pick: &P,
    numbers: &[u64],
) -> Result<Paths, NoMemory>
    requires naming { IsNaming names.now }
    requires all { AreAmong (P.test pick.now) names.now (side_of latest metas.now) numbers.now }
    ensures { IfOk result (Lists path_cmp (takes (P.test pick.now) names.now (side_of latest metas.now))) }
{
    let found = gather(alloc, names, metas, latest, pick, numbers)?;
    in_order(alloc, found)
}

/// The keys that the layers have, ascending: under all layers, or below them. Costs the keys in use.
pub fn keys<V, S: Grouping<V>>(
    alloc: Global,
    layers: &GroupedLayers<V, S>,
    latest: bool,
) -> Result<Vec<u64>, NoMemory>
    ensures { IfOk result (λ ks. ks.items ≡ fin.keys (side_of latest layers.now)) }
{
    if latest {
        Ok(layers.latest_keys(alloc)?)
    } else {
        Ok(layers.committed_keys(alloc)?)
    }
}

/// The name of each path.
pub fn names_of(alloc: Global, list: &Paths) -> Result<Paths, NoMemory>
    ensures { IfOk result (λ names. names ≡ map paths.name list.now) }
{
    let mut names = Paths::new(alloc);
    for path in list.as_slice() {
        names.push(Text::from_str(alloc, kp_path::name(path.as_str()))?)?;
    }
    Ok(names)
}

/// The keys whose values are of the group, ascending: under all layers, or below them. Costs the keys
/// of the group alone.
pub fn keys_in<V, S: Grouping<V>>(
    alloc: Global,
    layers: &GroupedLayers<V, S>,
    latest: bool,
    group: S::Group,
) -> Result<Vec<u64>, NoMemory>
    ensures { IfOk result (λ ks. ks.items ≡ filter (is_in S.Group.eq S.group_of (side_of latest layers.now) group) (fin.keys (side_of latest layers.now))) }
{
    if latest {
        Ok(layers.latest_in(alloc, group)?)
    } else {
        Ok(layers.committed_in(alloc, group)?)
    }
}

/// Whether a key has a value of the group: under all layers, or below them. Costs at most the keys
/// of the group.
pub fn any_in<V, S: Grouping<V>>(
    layers: &GroupedLayers<V, S>,
    latest: bool,
    group: S::Group,
) -> bool
    ensures { result ≡ list_any (is_in S.Group.eq S.group_of (side_of latest layers.now) group) (fin.keys (side_of latest layers.now)) }
{
    if latest {
        layers.any_latest_in(group)
    } else {
        layers.any_committed_in(group)
    }
}
