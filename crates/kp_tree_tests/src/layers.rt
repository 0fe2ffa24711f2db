//! Layers of writes, and layers whose values stand in groups.
ghost use Rattle.std.specs.Prelude.{◌≡◌, OnOk, ◌%◌, Some, None};

use kp_layers::{GroupedLayers, Grouping, Layers, NoMemory};
use std::alloc::Global;
use std::test::Fail;

// Two layers are sealed, and a third is abandoned.
fn fill(layers: &mut Layers<u64>) -> Result<(), NoMemory>
    requires { layers.old.staged ≡ None }
    ensures { OnOk result (layers.new.staged ≡ None) }
{
    layers.begin()?;
    layers.stage(7, Some(70))?;
    layers.stage(9, Some(90))?;
    layers.seal();
    layers.begin()?;
    layers.stage(7, None)?;
    layers.stage(8, Some(80))?;
    let mark = layers.mark();
    layers.stage(8, Some(81))?;
    layers.undo_to(mark);
    layers.seal();
    layers.begin()?;
    layers.stage(9, None)?;
    layers.abandon();
    Ok(())
}

// Whether the latest values are these.
fn shows(layers: &Layers<u64>, seven: Option<u64>, eight: Option<u64>, nine: Option<u64>) -> bool {
    layers.latest(7).copied() == seven
        && layers.latest(8).copied() == eight
        && layers.latest(9).copied() == nine
}

// Whether the keys of the base are these.
fn has_committed(alloc: Global, layers: &Layers<u64>, keys: &[u64]) -> Result<bool, NoMemory> {
    let found = layers.committed_keys(alloc)?;
    Ok(found.as_slice() == keys)
}

// Whether the keys under all layers are these.
fn has_latest(alloc: Global, layers: &Layers<u64>, keys: &[u64]) -> Result<bool, NoMemory> {
    let found = layers.latest_keys(alloc)?;
    Ok(found.as_slice() == keys)
}

// Whether the two layers tell what they have.
fn tells_of_both(alloc: Global, layers: &Layers<u64>) -> Result<bool, NoMemory> {
    let listed = has_latest(alloc, layers, &[8, 9])? && has_committed(alloc, layers, &[])?;
    Ok(listed && shows(layers, None, Some(80), Some(90)) && layers.committed(9).is_none())
}

// Whether one is committed and the other goes.
fn comes_and_goes(alloc: Global, layers: &mut Layers<u64>) -> Result<bool, NoMemory>
    requires { layers.old.staged ≡ None }
{
    let committed = layers.commit_front() && layers.committed(7).copied() == Some(70);
    let listed = has_committed(alloc, layers, &[7, 9])? && layers.committed_len() == 2;
    let used = layers.is_used(8) && shows(layers, None, Some(80), Some(90));
    let dropped = layers.drop_back() && shows(layers, Some(70), None, Some(90));
    let unused = !layers.is_used(8);
    let none = !layers.drop_back() && !layers.commit_front();
    Ok(committed && listed && used && dropped && unused && none)
}

// Whether another value stands in the base for a key that is there.
fn is_replaced(layers: &mut Layers<u64>) -> bool {
    let there = layers.committed(7).is_some();
    if there {
        layers.replace_base(7, 71);
    }
    there && shows(layers, Some(71), None, Some(90))
}

fn two_layers(alloc: Global, layers: &mut Layers<u64>) -> Result<bool, NoMemory>
    requires { layers.old.staged ≡ None }
{
    fill(layers)?;
    let told = tells_of_both(alloc, layers)?;
    let went = comes_and_goes(alloc, layers)?;
    Ok(told && went && is_replaced(layers))
}

fn run_two_layers(alloc: Global) -> Result<bool, NoMemory> {
    let mut layers = Layers::new(alloc);
    let told = two_layers(alloc, &mut layers);
    drop(layers);
    told
}

#[test]
fn two_layers_come_and_go(rt: HostRuntime) -> Result<(), Fail> {
    let told = run_two_layers(rt.alloc())?;
    assert!(rt; told);
    Ok(())
}

// Each number in the group of its last digit.
struct ByDigit;

impl Grouping<u64> for ByDigit {
    type Group = u64;

    ghost group_of = { λ v. Some (v % 10) };

    fn group(value: &u64) -> Option<u64> {
        Some(*value % 10)
    }
}

// Two layers whose values change their groups.
fn group(layers: &mut GroupedLayers<u64, ByDigit>) -> Result<(), NoMemory>
    requires { layers.old.staged ≡ None }
    ensures { OnOk result (layers.new.staged ≡ None) }
{
    layers.begin()?;
    layers.stage(5, Some(11))?;
    layers.stage(3, Some(21))?;
    layers.stage(4, Some(12))?;
    layers.seal();
    layers.begin()?;
    layers.stage(3, Some(32))?;
    layers.stage(5, None)?;
    layers.seal();
    Ok(())
}

// Whether the keys of the group under all layers are these.
fn has_group(
    alloc: Global,
    layers: &GroupedLayers<u64, ByDigit>,
    group: u64,
    keys: &[u64],
) -> Result<bool, NoMemory> {
    let found = layers.latest_in(alloc, group)?;
    Ok(found.as_slice() == keys && layers.any_latest_in(group) != keys.is_empty())
}

// Whether the keys of the group in the base are these.
fn has_committed_group(
    alloc: Global,
    layers: &GroupedLayers<u64, ByDigit>,
    group: u64,
    keys: &[u64],
) -> Result<bool, NoMemory> {
    let found = layers.committed_in(alloc, group)?;
    Ok(found.as_slice() == keys && layers.any_committed_in(group) != keys.is_empty())
}

fn groups(alloc: Global, layers: &mut GroupedLayers<u64, ByDigit>) -> Result<bool, NoMemory>
    requires { layers.old.staged ≡ None }
{
    group(layers)?;
    let first = has_group(alloc, layers, 1, &[])?;
    let second = has_group(alloc, layers, 2, &[3, 4])?;
    let none = has_committed_group(alloc, layers, 1, &[])?;
    let committed = layers.commit_front();
    let some = has_committed_group(alloc, layers, 1, &[3, 5])?;
    let dropped = layers.drop_back();
    let again = has_group(alloc, layers, 1, &[3, 5])?;
    Ok(first && second && none && committed && some && dropped && again)
}

fn run_groups(alloc: Global) -> Result<bool, NoMemory> {
    let mut layers = GroupedLayers::new(alloc);
    let told = groups(alloc, &mut layers);
    drop(layers);
    told
}

#[test]
fn groups_follow_the_values(rt: HostRuntime) -> Result<(), Fail> {
    let told = run_groups(rt.alloc())?;
    assert!(rt; told);
    Ok(())
}
