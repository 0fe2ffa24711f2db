//! Values by number, in a hash map.
ghost use Rattle.std.specs.Prelude.{◌≡◌, ℕ, ◌<◌, ◌≤◌, ◌+◌, nat_eq, cond, Some, None, OnOk, OnErr};
ghost use Rattle.std.specs.HashMap.{spare};
ghost use Rattle.kp_seats.specs.Index.{at};

use crate::NoMemory;
use std::alloc::Global;
use std::collections::HashMap;

/// Gives the number a value. After an error nothing has changed.
pub fn put<X: Drop>(map: &mut HashMap<u64, X>, n: u64, value: X) -> Result<(), NoMemory>
    ensures ok { OnOk result ((q : ℕ) → at map.new.entries q ≡ cond (nat_eq n q) (Some value) (at map.old.entries q)) }
    ensures err { OnErr result ((q : ℕ) → at map.new.entries q ≡ at map.old.entries q) }
{
    let _ = map.insert(n, value)?;
    Ok(())
}

/// Gives the number a value, for which there is room.
pub fn put_reserved(map: &mut HashMap<u64, u64>, n: u64, value: u64)
    requires { 0 < spare map.old }
    ensures { (q : ℕ) → at map.new.entries q ≡ cond (nat_eq n q) (Some value) (at map.old.entries q) }
{
    let _ = map.insert(n, value);
}

/// Takes the value of the number away, and answers it.
pub fn take<X>(map: &mut HashMap<u64, X>, n: u64) -> Option<X>
    ensures value { result ≡ at map.old.entries n }
    ensures change { (q : ℕ) → at map.new.entries q ≡ cond (nat_eq n q) None (at map.old.entries q) }
    ensures room { spare map.old ≤ spare map.new }
{
    map.remove(&n)
}

/// Makes room for one number more. After an error nothing has changed.
pub fn make_room(map: &mut HashMap<u64, u64>) -> Result<(), NoMemory>
    ensures same { (q : ℕ) → at map.new.entries q ≡ at map.old.entries q }
    ensures ok { OnOk result (0 < spare map.new) }
    ensures room { spare map.old ≤ spare map.new }
{
    map.reserve(1)
}
