//! The watches of each path.
ghost use Rattle.std.specs.Prelude.{◌≡◌, ℕ, List, Option, Some, None, true, map, cond, nat_eq, ◌&&◌, OnOk, OnErr, IfOk};
ghost use Rattle.std.specs.Option.{option_copied};
ghost use Rattle.std.specs.Str.{bytes_eq};
ghost use Rattle.kp_watch.specs.Spots.{spot_at, number_in, number_at, pairs_in, AreApart};

use indexmap::IndexMap;
use kp_model::NoMemory;
use std::alloc::Global;
use std::collections::HashMap;

/// The connections that watch one path, each with the number of its watch.
pub type Spot = IndexMap<u64, u64>;

/// The spots by their paths. A path that nobody watches has none.
pub type Spots = HashMap<String, Spot>;

// Sets the number of the connection's watch in the spot.
fn note(spot: &mut Spot, conn: u64, number: u64) -> Result<(), NoMemory>
    ensures ok { OnOk result ((c : ℕ) → number_in (Some spot.new) c ≡ cond (nat_eq conn c) (Some number) (number_in (Some spot.old) c)) }
    ensures err { OnErr result ((c : ℕ) → number_in (Some spot.new) c ≡ number_in (Some spot.old) c) }
{
    let _ = spot.insert(conn, number)?;
    Ok(())
}

// Gives the path, which has none, a spot with one watch.
fn put_first(
    spots: &mut Spots,
    alloc: Global,
    path: &str,
    conn: u64,
    number: u64,
) -> Result<(), NoMemory>
    requires { spot_at spots.old.entries path.now ≡ None }
    ensures ok { OnOk result ((p : List ℕ) (c : ℕ) → number_at spots.new.entries p c ≡ cond (bytes_eq path.now p && nat_eq conn c) (Some number) (number_at spots.old.entries p c)) }
    ensures err { OnErr result ((p : List ℕ) (c : ℕ) → number_at spots.new.entries p c ≡ number_at spots.old.entries p c) }
{
    let key = String::from_str(alloc, path)?;
    let mut spot = IndexMap::new(alloc);
    note(&mut spot, conn, number)?;
    let _ = spots.insert(key, spot)?;
    Ok(())
}

/// Sets the number of the connection's watch of the path. After an error nothing has changed.
pub fn put(
    spots: &mut Spots,
    alloc: Global,
    path: &str,
    conn: u64,
    number: u64,
) -> Result<(), NoMemory>
    ensures ok { OnOk result ((p : List ℕ) (c : ℕ) → number_at spots.new.entries p c ≡ cond (bytes_eq path.now p && nat_eq conn c) (Some number) (number_at spots.old.entries p c)) }
    ensures err { OnErr result ((p : List ℕ) (c : ℕ) → number_at spots.new.entries p c ≡ number_at spots.old.entries p c) }
{
    match spots.get_mut(path) {
        Some(spot) => note(spot, conn, number),
        None => put_first(spots, alloc, path, conn, number),
    }
}

// Takes the connection's watch out of the spot, and tells whether the spot is then empty.
fn forget(spot: &mut Spot, conn: u64) -> bool
    ensures change { (c : ℕ) → number_in (Some spot.new) c ≡ cond (nat_eq conn c) None (number_in (Some spot.old) c) }
    ensures emptied { result ≡ true → (c : ℕ) → number_in (Some spot.new) c ≡ None }
{
    let _ = spot.swap_remove(&conn);
    spot.is_empty()
}

// Takes the connection's watch of the path, if it has one, and tells whether the path's spot is then
// empty.
fn take_one(spots: &mut Spots, path: &str, conn: u64) -> bool
    ensures change { (p : List ℕ) (c : ℕ) → number_at spots.new.entries p c ≡ cond (bytes_eq path.now p && nat_eq conn c) None (number_at spots.old.entries p c) }
    ensures emptied { result ≡ true → (c : ℕ) → number_at spots.new.entries path.now c ≡ None }
{
    match spots.get_mut(path) {
        Some(spot) => forget(spot, conn),
        None => false,
    }
}

/// Takes the whole spot of the path away, if it has one.
pub fn take_spot(spots: &mut Spots, path: &str) -> Option<Spot>
    ensures spot { result ≡ spot_at spots.old.entries path.now }
    ensures change { (p : List ℕ) (c : ℕ) → number_at spots.new.entries p c ≡ cond (bytes_eq path.now p) None (number_at spots.old.entries p c) }
{
    spots.remove(path)
}

/// Takes the connection's watch of the path, if it has one. A spot that is then empty goes.
pub fn take(spots: &mut Spots, path: &str, conn: u64)
    ensures { (p : List ℕ) (c : ℕ) → number_at spots.new.entries p c ≡ cond (bytes_eq path.now p && nat_eq conn c) None (number_at spots.old.entries p c) }
{
    if take_one(spots, path, conn) {
        let _ = take_spot(spots, path);
    }
}

/// The number of the connection's watch of the path, if it has one.
pub fn find(spots: &Spots, path: &str, conn: u64) -> Option<u64>
    ensures { result ≡ number_at spots.now.entries path.now conn }
{
    match spots.get(path) {
        Some(spot) => spot.get(&conn).copied(),
        None => None,
    }
}

// The numbers of the watches in the spot.
fn numbers_of(spot: &Spot, alloc: Global) -> Result<Vec<u64>, NoMemory>
    ensures numbers { IfOk result (λ ids. ids.items ≡ map (λ (e : ℕ × ℕ). e.1) spot.now.entries) }
    ensures apart { AreApart spot.now.entries }
{
    let mut ids = Vec::with_capacity(alloc, spot.len())?;
    for number in spot.values() {
        ids.push(*number)?;
    }
    Ok(ids)
}

/// The numbers of the watches of the path, in no order.
pub fn numbers(spots: &Spots, alloc: Global, path: &str) -> Result<Vec<u64>, NoMemory>
    ensures numbers { IfOk result (λ ids. ids.items ≡ map (λ (e : ℕ × ℕ). e.1) (pairs_in (spot_at spots.now.entries path.now))) }
    ensures apart { AreApart (pairs_in (spot_at spots.now.entries path.now)) }
{
    match spots.get(path) {
        Some(spot) => numbers_of(spot, alloc),
        None => Ok(Vec::new(alloc)),
    }
}
