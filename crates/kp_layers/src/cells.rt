//! What is known of each key.
ghost use Rattle.std.specs.Prelude.{◌≡◌, ℕ, OnOk, OnErr, IfOk, nat_eq, Some, IsSome};
ghost use Rattle.std.specs.HashMap.{get, IsUnchanged};
ghost use Rattle.kp_layers.specs.Chains.{committed_in, newest_in, holds, ChangesNewest, ChangesCommitted, Removes, Renumbers, Commits};

use crate::NoMemory;
use std::alloc::AllocError;
use std::collections::HashMap;
use std::mem;

/// What is known of one key: its value in the base map, and the number of its newest write.
#[derive(Drop)]
pub(crate) struct Cell<V> {
    /// The value in the base map.
    pub(crate) committed: Option<V>,
    /// The number of the newest write.
    pub(crate) newest: u64,
}

impl<V> Cell<V> {
    // Whether there is a committed value, or a write numbered above `first`.
    fn holds(&self, first: u64) -> bool
        ensures { result ≡ holds first (Some self.now) }
    {
        self.committed.is_some() || first < self.newest
    }
}

/// Gives the key a cell if it has none, and the number to the cell. Answers the number that it had.
pub(crate) fn number_cell<V: Drop>(
    cells: &mut HashMap<u64, Cell<V>>,
    key: u64,
    number: u64,
) -> Result<u64, NoMemory>
    ensures previous { IfOk result (λ n. n ≡ newest_in (get nat_eq cells.old key)) }
    ensures ok { OnOk result (ChangesNewest cells.old.entries cells.new.entries key number) }
    ensures err { OnErr result (IsUnchanged cells.old cells.new) }
{
    match cells.entry(key) {
        Ok(entry) => {
            let cell = entry.or_insert(Cell {
                committed: None,
                newest: 0,
            });
            let previous = cell.newest;
            cell.newest = number;
            Ok(previous)
        }
        Err(_) => Err(AllocError),
    }
}

// Gives the cell of the key the number, and tells whether the cell then holds something.
fn set_newest<V>(cells: &mut HashMap<u64, Cell<V>>, key: u64, number: u64, first: u64) -> bool
    requires { IsSome (get nat_eq cells.old key) }
    ensures change { ChangesNewest cells.old.entries cells.new.entries key number }
    ensures filled { result ≡ holds first (get nat_eq cells.new key) }
{
    match cells.get_mut(&key) {
        Some(cell) => {
            cell.newest = number;
            cell.holds(first)
        }
        None => true,
    }
}

// Makes the value the committed one of the key. Answers the one before, and whether the cell then
// holds something.
fn set_committed<V: Drop>(
    cells: &mut HashMap<u64, Cell<V>>,
    key: u64,
    value: Option<V>,
    first: u64,
) -> (Option<V>, bool)
    requires { IsSome (get nat_eq cells.old key) }
    ensures change { ChangesCommitted cells.old.entries cells.new.entries key value }
    ensures before { result.0 ≡ committed_in (get nat_eq cells.old key) }
    ensures filled { result.1 ≡ holds first (get nat_eq cells.new key) }
{
    match cells.get_mut(&key) {
        Some(cell) => {
            let before = mem::replace(&mut cell.committed, value);
            (before, cell.holds(first))
        }
        None => (None, true),
    }
}

// Takes the cell of the key away.
fn remove_cell<V: Drop>(cells: &mut HashMap<u64, Cell<V>>, key: u64)
    ensures { Removes cells.old.entries cells.new.entries key }
{
    let _ = cells.remove(&key);
}

/// Gives the cell of the key the number. A cell that then holds nothing goes.
pub(crate) fn renumber_cell<V: Drop>(
    cells: &mut HashMap<u64, Cell<V>>,
    key: u64,
    number: u64,
    first: u64,
)
    requires { IsSome (get nat_eq cells.old key) }
    ensures { Renumbers first cells.old.entries cells.new.entries key number }
{
    let filled = set_newest(cells, key, number, first);
    if !filled {
        remove_cell(cells, key);
    }
}

/// Makes the value the committed one of the key, and answers the one before. A cell that then holds
/// nothing goes.
pub(crate) fn commit_cell<V: Drop>(
    cells: &mut HashMap<u64, Cell<V>>,
    key: u64,
    value: Option<V>,
    first: u64,
) -> Option<V>
    requires { IsSome (get nat_eq cells.old key) }
    ensures change { Commits first cells.old.entries cells.new.entries key value }
    ensures before { result ≡ committed_in (get nat_eq cells.old key) }
{
    let (before, filled) = set_committed(cells, key, value, first);
    if !filled {
        remove_cell(cells, key);
    }
    before
}
