//! The numbers of the children that each path has.
ghost use Rattle.std.specs.Prelude.{◌≡◌, ℕ, List, None, false, OnOk, OnErr, IfOk, ◌&&◌, ◌||◌, not, nat_eq};
ghost use Rattle.std.specs.List.{list_any};
ghost use Rattle.std.specs.Str.{bytes_eq};
ghost use Rattle.kp_model.specs.State.{is_child};
ghost use Rattle.kp_cells.specs.Kin.{set_at, is_kid, filled_in, AreFilled};

use kp_model::NoMemory;
use std::alloc::Global;
use std::collections::{BTreeSet, HashMap};

/// The numbers of the children of each path, by its text. A path that has none has no set.
pub type Kin = HashMap<String, BTreeSet<u64>>;

// Gives the path, which has no children, one of this number.
fn first_child(kin: &mut Kin, alloc: Global, parent: &str, number: u64) -> Result<(), NoMemory>
    requires { set_at kin.old.entries parent.now ≡ None }
    ensures ok { OnOk result ((p : List ℕ) (n : ℕ) → is_kid kin.new.entries p n ≡ (is_kid kin.old.entries p n || (bytes_eq parent.now p && nat_eq number n))) }
    ensures err { OnErr result ((p : List ℕ) (n : ℕ) → is_kid kin.new.entries p n ≡ is_kid kin.old.entries p n) }
    ensures filled { AreFilled kin.old.entries → AreFilled kin.new.entries }
{
    let key = String::from_str(alloc, parent)?;
    let mut set = BTreeSet::new(alloc);
    let _ = set.insert(number)?;
    kin.insert(key, set)?;
    Ok(())
}

// Gives the path a child of this number.
fn add_child(kin: &mut Kin, alloc: Global, parent: &str, number: u64) -> Result<(), NoMemory>
    ensures ok { OnOk result ((p : List ℕ) (n : ℕ) → is_kid kin.new.entries p n ≡ (is_kid kin.old.entries p n || (bytes_eq parent.now p && nat_eq number n))) }
    ensures err { OnErr result ((p : List ℕ) (n : ℕ) → is_kid kin.new.entries p n ≡ is_kid kin.old.entries p n) }
    ensures filled { AreFilled kin.old.entries → AreFilled kin.new.entries }
{
    match kin.get_mut(parent) {
        Some(set) => {
            let _ = set.insert(number)?;
            Ok(())
        }
        None => first_child(kin, alloc, parent, number),
    }
}

// Takes the child of this number from the path, and tells whether the path then has children, if
// it had a set.
fn take_child(kin: &mut Kin, parent: &str, number: u64) -> bool
    ensures kids { (p : List ℕ) (n : ℕ) → is_kid kin.new.entries p n ≡ (is_kid kin.old.entries p n && not (bytes_eq parent.now p && nat_eq number n)) }
    ensures filled { result ≡ filled_in (set_at kin.new.entries parent.now) }
    ensures others { (p : List ℕ) → bytes_eq parent.now p ≡ false → filled_in (set_at kin.new.entries p) ≡ filled_in (set_at kin.old.entries p) }
{
    match kin.get_mut(parent) {
        Some(set) => {
            let _ = set.remove(&number);
            !set.is_empty()
        }
        None => true,
    }
}

// Takes the set of the path away, which is empty.
fn remove_set(kin: &mut Kin, parent: &str)
    requires { filled_in (set_at kin.old.entries parent.now) ≡ false }
    ensures kids { (p : List ℕ) (n : ℕ) → is_kid kin.new.entries p n ≡ is_kid kin.old.entries p n }
    ensures filled { (p : List ℕ) → filled_in (set_at kin.new.entries p) ≡ (bytes_eq parent.now p || filled_in (set_at kin.old.entries p)) }
{
    let _ = kin.remove(parent);
}

// Takes the child of this number from the path. A path that then has none has no set.
fn remove_child(kin: &mut Kin, parent: &str, number: u64)
    ensures kids { (p : List ℕ) (n : ℕ) → is_kid kin.new.entries p n ≡ (is_kid kin.old.entries p n && not (bytes_eq parent.now p && nat_eq number n)) }
    ensures filled { AreFilled kin.old.entries → AreFilled kin.new.entries }
{
    if !take_child(kin, parent, number) {
        remove_set(kin, parent);
    }
}

/// Puts the number among those of the children of the path's parent. The root has no parent. After
/// an error nothing has changed.
#[tactic(auto, unfolding(kp_model::specs::State::is_child))]
pub fn join_parent(kin: &mut Kin, alloc: Global, path: &str, number: u64) -> Result<(), NoMemory>
    ensures ok { OnOk result ((p : List ℕ) (n : ℕ) → is_kid kin.new.entries p n ≡ (is_kid kin.old.entries p n || (is_child p path.now && nat_eq number n))) }
    ensures err { OnErr result ((p : List ℕ) (n : ℕ) → is_kid kin.new.entries p n ≡ is_kid kin.old.entries p n) }
    ensures filled { AreFilled kin.old.entries → AreFilled kin.new.entries }
{
    match kp_path::parent(path) {
        Some(parent) => add_child(kin, alloc, parent, number),
        None => Ok(()),
    }
}

/// Takes the number from those of the children of the path's parent.
#[tactic(auto, unfolding(kp_model::specs::State::is_child))]
pub fn leave_parent(kin: &mut Kin, path: &str, number: u64)
    ensures kids { (p : List ℕ) (n : ℕ) → is_kid kin.new.entries p n ≡ (is_kid kin.old.entries p n && not (is_child p path.now && nat_eq number n)) }
    ensures filled { AreFilled kin.old.entries → AreFilled kin.new.entries }
{
    if let Some(parent) = kp_path::parent(path) {
        remove_child(kin, parent, number);
    }
}

// The numbers of the set, ascending.
fn numbers_of(set: &BTreeSet<u64>, alloc: Global) -> Result<Vec<u64>, NoMemory>
    ensures { IfOk result (λ ids. ids.items ≡ set.now.keys) }
{
    let mut ids = Vec::with_capacity(alloc, set.len())?;
    for number in set {
        ids.push(*number)?;
    }
    Ok(ids)
}

/// The numbers of the children of the path. Costs as many as there are.
pub fn children(kin: &Kin, alloc: Global, path: &str) -> Result<Vec<u64>, NoMemory>
    ensures { IfOk result (λ ids. (n : ℕ) → list_any (nat_eq n) ids.items ≡ is_kid kin.now.entries path.now n) }
{
    match kin.get(path) {
        Some(set) => numbers_of(set, alloc),
        None => Ok(Vec::new(alloc)),
    }
}
