//! The numbers of the watches that each connection has.
ghost use Rattle.std.specs.Prelude.{◌≡◌, ℕ, true, false, None, nat_eq, ◌&&◌, ◌||◌, not, OnOk, OnErr};
ghost use Rattle.kp_watch.specs.Owners.{set_of, is_within, is_own};

use kp_model::NoMemory;
use std::alloc::Global;
use std::collections::{BTreeSet, HashMap};

/// The numbers of the watches of each connection. A connection without a watch has no set.
pub type Owners = HashMap<u64, BTreeSet<u64>>;

// Gives the connection, which has no set, one of this number.
fn join_first(own: &mut Owners, alloc: Global, conn: u64, number: u64) -> Result<(), NoMemory>
    requires { set_of own.old.entries conn ≡ None }
    ensures ok { OnOk result ((c : ℕ) (n : ℕ) → is_own own.new.entries c n ≡ (is_own own.old.entries c n || (nat_eq conn c && nat_eq number n))) }
    ensures err { OnErr result ((c : ℕ) (n : ℕ) → is_own own.new.entries c n ≡ is_own own.old.entries c n) }
{
    let mut set = BTreeSet::new(alloc);
    let _ = set.insert(number)?;
    let _ = own.insert(conn, set)?;
    Ok(())
}

/// Gives the connection the number. After an error nothing has changed.
pub fn join(own: &mut Owners, alloc: Global, conn: u64, number: u64) -> Result<(), NoMemory>
    ensures ok { OnOk result ((c : ℕ) (n : ℕ) → is_own own.new.entries c n ≡ (is_own own.old.entries c n || (nat_eq conn c && nat_eq number n))) }
    ensures err { OnErr result ((c : ℕ) (n : ℕ) → is_own own.new.entries c n ≡ is_own own.old.entries c n) }
{
    match own.get_mut(&conn) {
        Some(set) => {
            let _ = set.insert(number)?;
            Ok(())
        }
        None => join_first(own, alloc, conn, number),
    }
}

// Takes the number from the connection, and tells whether its set is then empty.
fn leave_set(own: &mut Owners, conn: u64, number: u64) -> bool
    ensures change { (c : ℕ) (n : ℕ) → is_own own.new.entries c n ≡ (is_own own.old.entries c n && not (nat_eq conn c && nat_eq number n)) }
    ensures emptied { result ≡ true → (n : ℕ) → is_own own.new.entries conn n ≡ false }
{
    match own.get_mut(&conn) {
        Some(set) => {
            let _ = set.remove(&number);
            set.is_empty()
        }
        None => false,
    }
}

/// Takes the set of the connection away, if it has one.
pub fn take_set(own: &mut Owners, conn: u64) -> Option<BTreeSet<u64>>
    ensures set { result ≡ set_of own.old.entries conn }
    ensures change { (c : ℕ) (n : ℕ) → is_own own.new.entries c n ≡ (is_own own.old.entries c n && not (nat_eq conn c)) }
{
    own.remove(&conn)
}

/// Takes the number from the connection. A set that is then empty goes.
pub fn leave(own: &mut Owners, conn: u64, number: u64)
    ensures { (c : ℕ) (n : ℕ) → is_own own.new.entries c n ≡ (is_own own.old.entries c n && not (nat_eq conn c && nat_eq number n)) }
{
    if leave_set(own, conn, number) {
        let _ = take_set(own, conn);
    }
}
