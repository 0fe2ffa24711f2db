//! Changes as they are told, and the nodes behind them, known without a tree of their own.

ghost use Rattle.std.specs.Prelude.{◌≡◌, ◌++◌, [], ◌∷◌, List, ℕ, Some, cond, slice_get, string_bytes, OnOk, option_copied};
ghost use Rattle.std.specs.Str.{bytes_eq};
ghost use Rattle.kp_model.specs.State.{State, bytes_at, acl_at};
ghost use Rattle.kp_cells.specs.declared.change.Change.TheVariants as change;
ghost use Rattle.kp_prep.specs.Ledgers.{IsLedger, nodes_behind, place_of, value_in};

use kp_cells::{Change, Changes, NodeValue};
use kp_model::{Acl, NoMemory, Text, View};
use std::alloc::Global;
use std::collections::HashMap;

/// Where the last change of each path is.
type Places = HashMap<String, usize>;

/// Changes in the order in which they are set, with the place of the last change of each path: a look at a node
/// behind them costs what a look at the view does.
#[derive(Drop)]
pub struct Ledger {
    pub changes: Changes,
    pub places: HashMap<String, usize>,
}

/// Changes that change no node.
pub(crate) fn begin(alloc: Global, changes: Changes) -> Ledger
    ensures changes { result.changes ≡ changes }
    ensures ledger { (s : State) → nodes_behind s changes ≡ s.nodes → IsLedger s result.changes result.places.entries }
{
    Ledger {
        changes,
        places: HashMap::new(alloc),
    }
}

/// The changes of a ledger.
pub(crate) fn end(ledger: Ledger) -> Changes
    ensures { result ≡ ledger.changes }
{
    let Ledger { changes, places } = ledger;
    drop(places);
    changes
}

/// The node at a path is set, or goes.
pub(crate) fn change(
    alloc: Global,
    ledger: &mut Ledger,
    path: Text,
    node: Option<NodeValue>,
) -> Result<(), NoMemory>
    ensures changes { OnOk result (ledger.new.changes ≡ ledger.old.changes ++ change.Node path node ∷ []) }
    ensures ledger { OnOk result ((s : State) → IsLedger s ledger.old.changes ledger.old.places.entries → IsLedger s ledger.new.changes ledger.new.places.entries) }
{
    let place = ledger.changes.len();
    note(alloc, &mut ledger.places, path.as_str(), place)?;
    ledger.changes.push(Change::Node(path, node))
}

// Keeps the place of a path's last change.
fn note(alloc: Global, places: &mut Places, path: &str, place: usize) -> Result<(), NoMemory>
    ensures { OnOk result ((p : List ℕ) → place_of places.new.entries p ≡ cond (bytes_eq path.now p) (Some place) (place_of places.old.entries p)) }
{
    let path = String::from_str(alloc, path)?;
    insert(places, path, place)
}

// The same of a path with memory of its own.
fn insert(places: &mut Places, path: String, place: usize) -> Result<(), NoMemory>
    ensures { OnOk result ((p : List ℕ) → place_of places.new.entries p ≡ cond (bytes_eq (string_bytes path) p) (Some place) (place_of places.old.entries p)) }
{
    places.insert(path, place)?;
    Ok(())
}

/// The data of a node behind the changes; None exactly where there is no such node.
pub(crate) fn content<'a, V: View>(view: &'a V, ledger: &'a Ledger, path: &str) -> Option<&'a [u8]>
    requires { IsLedger (V.state view.now) ledger.now.changes ledger.now.places.entries }
    ensures { option_copied result ≡ bytes_at (nodes_behind (V.state view.now) ledger.now.changes) path.now }
{
    match ledger.places.get(path) {
        None => view.content(path),
        Some(place) => match value_at(ledger.changes.as_slice(), *place) {
            None => None,
            Some(node) => Some(node.bytes.as_slice()),
        },
    }
}

/// The access list of a node behind the changes; None exactly where there is no such node.
pub(crate) fn acl<'a, V: View>(view: &'a V, ledger: &'a Ledger, path: &str) -> Option<&'a [Acl]>
    requires { IsLedger (V.state view.now) ledger.now.changes ledger.now.places.entries }
    ensures { option_copied result ≡ acl_at (nodes_behind (V.state view.now) ledger.now.changes) path.now }
{
    match ledger.places.get(path) {
        None => view.acl(path),
        Some(place) => match value_at(ledger.changes.as_slice(), *place) {
            None => None,
            Some(node) => Some(node.acl.as_slice()),
        },
    }
}

// The node that the change at a place sets, where it sets one.
fn value_at(changes: &[Change], place: usize) -> Option<&NodeValue>
    ensures { option_copied result ≡ value_in (slice_get changes.now place) }
{
    match changes.get(place) {
        None => None,
        Some(change) => match change {
            Change::Node(_, node) => node.as_ref(),
            Change::Session(_, _) => None,
            Change::NextSession(_) => None,
        },
    }
}
