//! The watches by their numbers, and the changes that keep the indexes in step with them.
ghost use Rattle.std.specs.Prelude.{◌≡◌, ℕ, ◌+◌, ◌<◌, length, List, Option, Some, None, false, cond, nat_eq, ◌&&◌, ◌||◌, not, [], ◌∷◌, ◌++◌, OnOk, OnErr, IfOk};
ghost use Rattle.std.specs.List.{filter, list_any, flat_map, IsDistinct};
ghost use Rattle.std.specs.Ordering.{nat_cmp};
ghost use Rattle.std.specs.BTreeMap.{insert_entry};
ghost use Rattle.kp_watch.specs.declared.kind.Kind.{Kind};
ghost use Rattle.kp_watch.specs.declared.watch.Watch.{Watch};
ghost use Rattle.kp_watch.specs.Watching.{same_watch, is_at, dropped, watching};
ghost use Rattle.kp_watch.specs.Spots.{number_of, AreApart};
ghost use Rattle.kp_watch.specs.Owners.{is_own};
ghost use Rattle.kp_watch.specs.Numbered.{watches_of, watch_at, conn_at, AreOrdered, Lists};
ghost use Rattle.kp_watch.specs.Indexed.{AreBeside, AreIndexed, AreBelow};

use crate::kind::Kind;
use crate::owners::{Owners, join, leave, take_set};
use crate::sides::{Sides, find_watch, numbers_at, put_watch, take_side, take_watch};
use crate::spots::Spot;
use crate::watch::Watch;
use kp_model::{NoMemory, Text};
use std::alloc::Global;
use std::collections::{BTreeMap, BTreeSet};

/// The watches by their numbers.
pub type Book = BTreeMap<u64, Watch>;

/// Puts a watch, which isn't there, into both indexes. After an error nothing has changed.
pub fn enter(
    sides: &mut Sides,
    own: &mut Owners,
    alloc: Global,
    path: &str,
    kind: Kind,
    conn: u64,
    number: u64,
) -> Result<(), NoMemory>
    requires { number_of sides.old kind path.now conn ≡ None }
    ensures sides { OnOk result ((k : Kind) (p : List ℕ) (c : ℕ) → number_of sides.new k p c ≡ cond (same_watch (record { path = p; kind = k; conn = c }) (record { path = path.now; kind = kind; conn = conn })) (Some number) (number_of sides.old k p c)) }
    ensures own { OnOk result ((c : ℕ) (n : ℕ) → is_own own.new.entries c n ≡ (is_own own.old.entries c n || (nat_eq conn c && nat_eq number n))) }
    ensures sides_err { OnErr result ((k : Kind) (p : List ℕ) (c : ℕ) → number_of sides.new k p c ≡ number_of sides.old k p c) }
    ensures own_err { OnErr result ((c : ℕ) (n : ℕ) → is_own own.new.entries c n ≡ is_own own.old.entries c n) }
{
    put_watch(sides, alloc, path, kind, conn, number)?;
    if join(own, alloc, conn, number).is_err() {
        take_watch(sides, path, kind, conn);
        return Err(NoMemory);
    }
    Ok(())
}

// Takes the watch of the number out of the book and its path's spot.
fn drop_number(book: &mut Book, sides: &mut Sides, number: u64)
    requires ordered { AreOrdered book.old.entries }
    requires beside { AreBeside sides.old (watch_at book.old.entries) }
    ensures ordered { AreOrdered book.new.entries }
    ensures beside { AreBeside sides.new (watch_at book.new.entries) }
    ensures book { (n : ℕ) → watch_at book.new.entries n ≡ cond (nat_eq number n) None (watch_at book.old.entries n) }
{
    if let Some(watch) = book.remove(&number) {
        take_watch(sides, watch.path.as_str(), watch.kind, watch.conn);
        drop(watch);
    }
}

/// Takes the watches of the numbers out of the book and their paths' spots.
pub fn drop_numbers(book: &mut Book, sides: &mut Sides, numbers: &BTreeSet<u64>)
    requires ordered { AreOrdered book.old.entries }
    requires beside { AreBeside sides.old (watch_at book.old.entries) }
    ensures ordered { AreOrdered book.new.entries }
    ensures beside { AreBeside sides.new (watch_at book.new.entries) }
    ensures book { (n : ℕ) → watch_at book.new.entries n ≡ cond (list_any (nat_eq n) numbers.now.keys) None (watch_at book.old.entries n) }
{
    for number in numbers {
        drop_number(book, sides, *number);
    }
}

// Takes the number out of the book and from its connection.
fn drop_pair(book: &mut Book, own: &mut Owners, conn: u64, number: u64)
    ensures ordered { AreOrdered book.new.entries }
    ensures book { (n : ℕ) → watch_at book.new.entries n ≡ cond (nat_eq number n) None (watch_at book.old.entries n) }
    ensures own { (c : ℕ) (n : ℕ) → is_own own.new.entries c n ≡ (is_own own.old.entries c n && not (nat_eq conn c && nat_eq number n)) }
{
    let _ = book.remove(&number);
    leave(own, conn, number);
}

/// Takes the watches of a spot out of the book and from their connections.
pub fn drop_spot(book: &mut Book, own: &mut Owners, spot: &Spot)
    requires { AreOrdered book.old.entries }
    ensures apart { AreApart spot.now.entries }
    ensures ordered { AreOrdered book.new.entries }
    ensures book { (n : ℕ) → watch_at book.new.entries n ≡ cond (list_any (λ (e : ℕ × ℕ). nat_eq e.1 n) spot.now.entries) None (watch_at book.old.entries n) }
    ensures own { (c : ℕ) (n : ℕ) → is_own own.new.entries c n ≡ (is_own own.old.entries c n && not (list_any (λ (e : ℕ × ℕ). nat_eq e.0 c && nat_eq e.1 n) spot.now.entries)) }
{
    for (conn, number) in spot {
        drop_pair(book, own, *conn, *number);
    }
}

/// The numbers in their order.
pub fn in_order(mut numbers: Vec<u64>) -> Vec<u64>
    ensures { IsDistinct nat_eq numbers.items → Lists numbers.items result.items }
{
    numbers.sort_unstable();
    numbers
}

// Puts the connection of the number's watch behind the others, if there is such a watch.
#[tactic(auto, unfolding(crate::specs::Numbered::conn_at))]
fn push_conn(book: &Book, conns: &mut Vec<u64>, number: u64) -> Result<(), NoMemory>
    ensures { OnOk result (conns.new.items ≡ conns.old.items ++ conn_at (watch_at book.now.entries) number) }
{
    if let Some(watch) = book.get(&number) {
        conns.push(watch.conn)?;
    }
    Ok(())
}

/// The connections of the watches of the numbers, in the same order.
pub fn conns_of(book: &Book, alloc: Global, numbers: &[u64]) -> Result<Vec<u64>, NoMemory>
    ensures { IfOk result (λ conns. conns.items ≡ flat_map (conn_at (watch_at book.now.entries)) numbers.now) }
{
    let mut conns = Vec::with_capacity(alloc, numbers.len())?;
    for number in numbers {
        push_conn(book, &mut conns, *number)?;
    }
    Ok(conns)
}

/// Takes the watches of the path and the kind away.
pub fn clear_spot(book: &mut Book, sides: &mut Sides, own: &mut Owners, path: &str, kind: Kind)
    requires { AreIndexed book.old.entries sides.old own.old.entries }
    ensures indexed { AreIndexed book.new.entries sides.new own.new.entries }
    ensures below { (next : ℕ) → AreBelow next book.old.entries → AreBelow next book.new.entries }
    ensures watches { watches_of book.new.entries ≡ filter (λ w. not (is_at path.now kind w)) (watches_of book.old.entries) }
{
    if let Some(spot) = take_side(sides, path, kind) {
        drop_spot(book, own, &spot);
        drop(spot);
    }
}

/// Takes the watches of the connection away.
pub fn clear_conn(book: &mut Book, sides: &mut Sides, own: &mut Owners, conn: u64)
    requires { AreIndexed book.old.entries sides.old own.old.entries }
    ensures indexed { AreIndexed book.new.entries sides.new own.new.entries }
    ensures below { (next : ℕ) → AreBelow next book.old.entries → AreBelow next book.new.entries }
    ensures watches { watches_of book.new.entries ≡ dropped (watches_of book.old.entries) conn }
{
    if let Some(numbers) = take_set(own, conn) {
        drop_numbers(book, sides, &numbers);
        drop(numbers);
    }
}

// Puts the watch into the book, under a number that has none. After an error nothing has changed.
fn put_in(book: &mut Book, number: u64, watch: Watch) -> Result<(), NoMemory>
    ensures book { OnOk result ((n : ℕ) → watch_at book.new.entries n ≡ cond (nat_eq number n) (Some watch) (watch_at book.old.entries n)) }
    ensures entries { OnOk result (book.new.entries ≡ insert_entry nat_cmp book.old.entries number watch) }
    ensures err { OnErr result (book.new.entries ≡ book.old.entries) }
    ensures ordered { AreOrdered book.new.entries }
{
    let _ = book.insert(number, watch)?;
    Ok(())
}

/// Adds a watch, which isn't there, with a number above all others. After an error nothing has
/// changed.
pub fn enter_watch(
    book: &mut Book,
    sides: &mut Sides,
    own: &mut Owners,
    alloc: Global,
    path: &str,
    kind: Kind,
    conn: u64,
    number: u64,
) -> Result<(), NoMemory>
    requires indexed { AreIndexed book.old.entries sides.old own.old.entries }
    requires below { AreBelow number book.old.entries }
    requires fresh { list_any (same_watch (record { path = path.now; kind = kind; conn = conn })) (watches_of book.old.entries) ≡ false }
    ensures indexed { AreIndexed book.new.entries sides.new own.new.entries }
    ensures below { AreBelow (number + 1) book.new.entries }
    ensures ok { OnOk result (book.new.entries ≡ book.old.entries ++ (number, record { path = path.now; kind = kind; conn = conn }) ∷ []) }
    ensures err { OnErr result (book.new.entries ≡ book.old.entries) }
{
    let text = Text::from_str(alloc, path)?;
    enter(sides, own, alloc, path, kind, conn, number)?;
    let watch = Watch {
        path: text,
        kind,
        conn,
    };
    if put_in(book, number, watch).is_err() {
        take_watch(sides, path, kind, conn);
        leave(own, conn, number);
        return Err(NoMemory);
    }
    Ok(())
}

/// Whether the watch is there.
pub fn is_there(book: &Book, sides: &Sides, path: &str, kind: Kind, conn: u64) -> bool
    requires ordered { AreOrdered book.now.entries }
    requires beside { AreBeside sides.now (watch_at book.now.entries) }
    ensures { result ≡ list_any (same_watch (record { path = path.now; kind = kind; conn = conn })) (watches_of book.now.entries) }
{
    find_watch(sides, path, kind, conn).is_some()
}

/// The connections that watch the path so, in order of registration.
pub fn conns_at(
    book: &Book,
    sides: &Sides,
    alloc: Global,
    path: &str,
    kind: Kind,
) -> Result<Vec<u64>, NoMemory>
    requires ordered { AreOrdered book.now.entries }
    requires beside { AreBeside sides.now (watch_at book.now.entries) }
    ensures { IfOk result (λ conns. conns.items ≡ watching (watches_of book.now.entries) path.now kind) }
{
    let numbers = in_order(numbers_at(sides, alloc, path, kind)?);
    conns_of(book, alloc, &numbers)
}

/// Takes the last watch away, if there is one.
pub fn clear_last(book: &mut Book, sides: &mut Sides, own: &mut Owners)
    requires { AreIndexed book.old.entries sides.old own.old.entries }
    ensures indexed { AreIndexed book.new.entries sides.new own.new.entries }
    ensures below { (next : ℕ) → AreBelow next book.old.entries → AreBelow next book.new.entries }
    ensures last { 0 < length book.old.entries → (e : ℕ × Watch) × (book.old.entries ≡ book.new.entries ++ e ∷ []) }
{
    if let Some((number, watch)) = book.pop_last() {
        take_watch(sides, watch.path.as_str(), watch.kind, watch.conn);
        leave(own, watch.conn, number);
        drop(watch);
    }
}
