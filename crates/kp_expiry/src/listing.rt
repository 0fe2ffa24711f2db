//! The sessions whose deadline has come.
ghost use Rattle.std.specs.Prelude.{◌≡◌, ℕ, ◌+◌, ◌*◌, ◌<◌, ◌++◌, ◌∷◌, [], length, map, cond, OnOk, IfOk};
ghost use Rattle.std.specs.List.{filter, slice_get};
ghost use Rattle.std.specs.List.Sorted.{IsPermutation, IsSorted};
ghost use Rattle.kp_expiry.specs.Nodes.{tags, AreRight};
ghost use Rattle.kp_expiry.specs.Walk.{is_warm, warm_at, has_come, come_at};
ghost use Rattle.kp_expiry.specs.Due.{pair_cmp};

use crate::NoMemory;
use crate::tree::Slot;
use std::alloc::Global;

// Whether the deadline of the node or of one below it has come.
fn is_warm(slots: &[Slot], node: usize, now: u64) -> bool
    ensures { result ≡ is_warm slots.now now node }
{
    match slots.get(node) {
        Some(slot) => slot.least <= now as u128,
        None => false,
    }
}

// Puts the node behind the others if its deadline or one below it has come.
fn push_warm(slots: &[Slot], node: usize, now: u64, nodes: &mut Vec<usize>) -> Result<(), NoMemory>
    ensures { OnOk result (nodes.new.items ≡ nodes.old.items ++ warm_at slots.now now node) }
{
    if is_warm(slots, node, now) {
        nodes.push(node)?;
    }
    Ok(())
}

// Puts the node's deadline and session behind the others if the deadline has come.
fn push_found(
    slots: &[Slot],
    node: usize,
    now: u64,
    found: &mut Vec<(u128, u64)>,
) -> Result<(), NoMemory>
    requires { node < length slots.now }
    ensures { OnOk result (found.new.items ≡ found.old.items ++ come_at slots.now now node) }
{
    let slot = slots[node];
    if slot.deadline <= now as u128 {
        found.push((slot.deadline, slot.session))?;
    }
    Ok(())
}

// Puts those children of the node behind the others whose deadline or one below it has come.
fn push_children(
    slots: &[Slot],
    node: usize,
    now: u64,
    nodes: &mut Vec<usize>,
) -> Result<(), NoMemory>
    requires { node < length slots.now }
    ensures { OnOk result (nodes.new.items ≡ (nodes.old.items ++ warm_at slots.now now (2 * node + 1)) ++ warm_at slots.now now (2 * node + 2)) }
{
    push_warm(slots, 2 * node + 1, now, nodes)?;
    push_warm(slots, 2 * node + 2, now, nodes)?;
    Ok(())
}

// The node at the place, if there are so many.
fn node_at(nodes: &[usize], at: usize) -> Option<usize>
    ensures { result ≡ slice_get nodes.now at }
{
    nodes.get(at).copied()
}

/// The deadlines that have come, each with its session, in the order of the nodes. It goes down only
/// to nodes that have such a deadline at or below them.
pub(crate) fn find_due(
    slots: &[Slot],
    alloc: Global,
    now: u64,
) -> Result<Vec<(u128, u64)>, NoMemory>
    requires { AreRight slots.now }
    ensures { IfOk result (λ found. found.items ≡ filter (has_come now) (tags slots.now)) }
{
    let mut found = Vec::new(alloc);
    let mut nodes = Vec::new(alloc);
    push_warm(slots, 0, now, &mut nodes)?;
    for at in 0..slots.len() {
        let Some(node) = node_at(&nodes, at) else {
            break;
        };
        push_found(slots, node, now, &mut found)?;
        push_children(slots, node, now, &mut nodes)?;
    }
    Ok(found)
}

/// The pairs in their order.
pub(crate) fn in_order(mut found: Vec<(u128, u64)>) -> Vec<(u128, u64)>
    ensures moved { IsPermutation found.items result.items }
    ensures sorted { IsSorted pair_cmp result.items }
{
    found.sort_unstable();
    found
}

/// The sessions of the pairs.
pub(crate) fn sessions(found: &[(u128, u64)], alloc: Global) -> Result<Vec<u64>, NoMemory>
    ensures { IfOk result (λ sessions. sessions.items ≡ map (λ (p : ℕ × ℕ). p.1) found.now) }
{
    let mut sessions = Vec::new(alloc);
    for pair in found {
        sessions.push(pair.1)?;
    }
    Ok(sessions)
}
