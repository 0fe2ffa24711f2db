//! The watches of each path and kind.
ghost use Rattle.std.specs.Prelude.{◌≡◌, ℕ, List, map, Option, Some, None, cond, OnOk, OnErr, IfOk};
ghost use Rattle.kp_watch.specs.declared.kind.Kind.{Kind};
ghost use Rattle.kp_watch.specs.declared.watch.Watch.{Watch};
ghost use Rattle.kp_watch.specs.Watching.{same_watch, is_at};
ghost use Rattle.kp_watch.specs.Spots.{number_of, pairs_in, pairs_of, AreApart};

use crate::kind::Kind;
use crate::spots::{Spot, Spots, find, numbers, put, take, take_spot};
use kp_model::NoMemory;
use std::alloc::Global;

/// The data watches and the child watches of each path.
#[derive(Drop)]
pub struct Sides {
    pub data: Spots,
    pub child: Spots,
}

/// Sets the number of the connection's watch. After an error nothing has changed.
pub fn put_watch(
    sides: &mut Sides,
    alloc: Global,
    path: &str,
    kind: Kind,
    conn: u64,
    number: u64,
) -> Result<(), NoMemory>
    ensures ok { OnOk result ((k : Kind) (p : List ℕ) (c : ℕ) → number_of sides.new k p c ≡ cond (same_watch (record { path = p; kind = k; conn = c }) (record { path = path.now; kind = kind; conn = conn })) (Some number) (number_of sides.old k p c)) }
    ensures err { OnErr result ((k : Kind) (p : List ℕ) (c : ℕ) → number_of sides.new k p c ≡ number_of sides.old k p c) }
{
    match kind {
        Kind::Data => put(&mut sides.data, alloc, path, conn, number),
        Kind::Child => put(&mut sides.child, alloc, path, conn, number),
    }
}

/// Takes the connection's watch, if it is there.
pub fn take_watch(sides: &mut Sides, path: &str, kind: Kind, conn: u64)
    ensures { (k : Kind) (p : List ℕ) (c : ℕ) → number_of sides.new k p c ≡ cond (same_watch (record { path = p; kind = k; conn = c }) (record { path = path.now; kind = kind; conn = conn })) None (number_of sides.old k p c) }
{
    match kind {
        Kind::Data => take(&mut sides.data, path, conn),
        Kind::Child => take(&mut sides.child, path, conn),
    }
}

/// Takes the whole spot of the path and the kind away, if there is one.
pub fn take_side(sides: &mut Sides, path: &str, kind: Kind) -> Option<Spot>
    ensures pairs { pairs_in result ≡ pairs_of sides.old kind path.now }
    ensures change { (k : Kind) (p : List ℕ) (c : ℕ) → number_of sides.new k p c ≡ cond (is_at p k (record { path = path.now; kind = kind; conn = c })) None (number_of sides.old k p c) }
{
    match kind {
        Kind::Data => take_spot(&mut sides.data, path),
        Kind::Child => take_spot(&mut sides.child, path),
    }
}

/// The number of the connection's watch, if it is there.
pub fn find_watch(sides: &Sides, path: &str, kind: Kind, conn: u64) -> Option<u64>
    ensures { result ≡ number_of sides.now kind path.now conn }
{
    match kind {
        Kind::Data => find(&sides.data, path, conn),
        Kind::Child => find(&sides.child, path, conn),
    }
}

/// The numbers of the watches of the path and the kind, in no order.
pub fn numbers_at(
    sides: &Sides,
    alloc: Global,
    path: &str,
    kind: Kind,
) -> Result<Vec<u64>, NoMemory>
    ensures numbers { IfOk result (λ ids. ids.items ≡ map (λ (e : ℕ × ℕ). e.1) (pairs_of sides.now kind path.now)) }
    ensures apart { AreApart (pairs_of sides.now kind path.now) }
{
    match kind {
        Kind::Data => numbers(&sides.data, alloc, path),
        Kind::Child => numbers(&sides.child, alloc, path),
    }
}
