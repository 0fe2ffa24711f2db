//! Which connections an applied entry may change.

ghost use Rattle.std.specs.Prelude.{◌≡◌, ◌||◌, ℕ, nat_eq, false, IfOk, OnOk};
ghost use Rattle.std.specs.List.Sorted.{IsStrictlySortedBy};
ghost use Rattle.std.specs.Ordering.{nat_cmp};
ghost use Rattle.std.specs.BTreeSet.{contains};
ghost use Rattle.kp_seats.specs.Serving.{IsServer};
ghost use Rattle.kp_node.specs.Concerned.{hearers, HasAll, HasOne, HasConcerned, subject as subject_of, IsSubject, InformedChange};

use kp_model::{Body, NoMemory};
use kp_seats::Seats;
use kp_step::Seat;
use kp_watch::Fired;
use std::alloc::Global;
use std::collections::BTreeSet;

/// Connections that were told of an entry changed at those that hear and the one of its session alone.
pub fn informed_changes()
    ensures { InformedChange }
{}

// The session of an entry whose connection it may answer or end.
fn subject(body: &Body) -> Option<u64>
    ensures { result ≡ subject_of body.now }
{
    match body {
        Body::Noop => None,
        Body::OpenSession { .. } => None,
        Body::Attach { session, .. } => Some(*session),
        Body::Expire { session } => Some(*session),
        Body::Write { session, .. } => Some(*session),
    }
}

/// The connection of the session of an entry.
pub(crate) fn server_of(seats: &Seats<Seat>, body: &Body) -> Option<u64>
    ensures { IsSubject seats.now (subject_of body.now) result }
{
    match subject(body) {
        None => None,
        Some(session) => seats.find(session),
    }
}

// One number more.
fn enter(set: &mut BTreeSet<u64>, conn: u64) -> Result<(), NoMemory>
    ensures { OnOk result ((q : ℕ) → contains nat_cmp set.new q ≡ (nat_eq conn q || contains nat_cmp set.old q)) }
{
    let _ = set.insert(conn)?;
    Ok(())
}

// One number more, if there is one.
fn enter_some(set: &mut BTreeSet<u64>, conn: Option<u64>) -> Result<(), NoMemory>
    ensures one { OnOk result (HasOne conn set.new) }
    ensures others { OnOk result ((q : ℕ) → contains nat_cmp set.new q ≡ false → contains nat_cmp set.old q ≡ false) }
{
    match conn {
        None => Ok(()),
        Some(number) => enter(set, number),
    }
}

// The connections that hear.
fn hearers_of(alloc: Global, fired: &[Fired]) -> Result<BTreeSet<u64>, NoMemory>
    ensures { IfOk result (λ set. HasAll (hearers fired.now) set) }
{
    let mut set = BTreeSet::new(alloc);
    for one in fired {
        enter(&mut set, one.conn)?;
    }
    Ok(set)
}

// All of them.
fn set_of(
    alloc: Global,
    fired: &[Fired],
    server: Option<u64>,
    newcomer: Option<u64>,
) -> Result<BTreeSet<u64>, NoMemory>
    ensures hearers { IfOk result (λ set. HasAll (hearers fired.now) set) }
    ensures server { IfOk result (λ set. HasOne server set) }
    ensures newcomer { IfOk result (λ set. HasOne newcomer set) }
{
    let mut set = hearers_of(alloc, fired)?;
    enter_some(&mut set, server)?;
    enter_some(&mut set, newcomer)?;
    Ok(set)
}

// The numbers of a set, in their order.
fn listed(alloc: Global, set: &BTreeSet<u64>) -> Result<Vec<u64>, NoMemory>
    ensures listed { IfOk result (λ list. list.items ≡ set.now.keys) }
    ensures sorted { IsStrictlySortedBy nat_cmp set.now.keys }
{
    let mut list = Vec::new(alloc);
    for number in set {
        list.push(*number)?;
    }
    Ok(list)
}

/// The connections that an entry may change, ascending, each once: those that hear, the one of its session, and the
/// newcomer.
pub(crate) fn concerned(
    alloc: Global,
    fired: &[Fired],
    server: Option<u64>,
    newcomer: Option<u64>,
) -> Result<Vec<u64>, NoMemory>
    ensures sorted { IfOk result (λ conns. IsStrictlySortedBy nat_cmp conns.items) }
    ensures all { IfOk result (λ conns. HasConcerned fired.now server newcomer conns.items) }
{
    let set = set_of(alloc, fired, server, newcomer)?;
    let list = listed(alloc, &set);
    drop(set);
    list
}
