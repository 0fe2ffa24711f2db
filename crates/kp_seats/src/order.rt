//! Numbers in their order.
ghost use Rattle.std.specs.Prelude.{◌≡◌, ℕ, nat_eq, nat_lt, cond, false, Some, slice_get, OnOk, OnErr, ◌||◌};
ghost use Rattle.std.specs.List.{filter};
ghost use Rattle.std.specs.List.Sorted.{IsStrictlySortedBy};
ghost use Rattle.std.specs.Ordering.{nat_cmp};
ghost use Rattle.std.specs.BTreeSet.{contains};
ghost use Rattle.kp_seats.specs.Index.{at};

use crate::NoMemory;
use crate::numbered::put;
use std::alloc::AllocError;
use std::collections::{BTreeSet, HashMap};
use std::ops::Bound;

/// The least number above `n`.
pub fn next_above(numbers: &BTreeSet<u64>, n: u64) -> Option<u64>
    ensures next { result ≡ slice_get (filter (nat_lt n) numbers.now.keys) 0 }
    ensures ordered { IsStrictlySortedBy nat_cmp numbers.now.keys }
{
    let mut range = numbers.range((Bound::Excluded(n), Bound::Unbounded));
    range.next().copied()
}

/// Gives a number that isn't there a value, and puts it among the numbers. After an error nothing has changed.
pub fn enter<S: Drop>(
    seats: &mut HashMap<u64, S>,
    numbers: &mut BTreeSet<u64>,
    n: u64,
    seat: S,
) -> Result<(), NoMemory>
    requires { contains nat_cmp numbers.old n ≡ false }
    ensures seats { OnOk result ((q : ℕ) → at seats.new.entries q ≡ cond (nat_eq n q) (Some seat) (at seats.old.entries q)) }
    ensures numbers { OnOk result ((q : ℕ) → contains nat_cmp numbers.new q ≡ (nat_eq n q || contains nat_cmp numbers.old q)) }
    ensures seats_err { OnErr result ((q : ℕ) → at seats.new.entries q ≡ at seats.old.entries q) }
    ensures numbers_err { OnErr result ((q : ℕ) → contains nat_cmp numbers.new q ≡ contains nat_cmp numbers.old q) }
{
    let _ = numbers.insert(n)?;
    if put(seats, n, seat).is_err() {
        numbers.remove(&n);
        return Err(AllocError);
    }
    Ok(())
}
