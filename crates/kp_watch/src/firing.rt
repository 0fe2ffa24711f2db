//! Who hears of a list of events.
ghost use Rattle.std.specs.Prelude.{◌≡◌, ℕ, List, [], ◌∷◌, ◌++◌, map, nat_eq, not, true, false, IfOk, OnOk, OnErr};
ghost use Rattle.std.specs.List.{filter, list_any};
ghost use Rattle.std.specs.HashSet.{contains};
ghost use Rattle.kp_model.specs.declared.reply.Event.TheVariants as event;
ghost use Rattle.kp_watch.specs.declared.kind.Kind.{Kind};
ghost use Rattle.kp_watch.specs.declared.watch.Watch.{Watch};
ghost use Rattle.kp_watch.specs.declared.watch.Fired.{Fired};
ghost use Rattle.kp_watch.specs.Watching.{is_at, watching, others, hearing, unfired, fired, heard_at, shown, somes};
ghost use Rattle.kp_watch.specs.Gone.{has_gone, Leaves};

use crate::gone::{Gone, mark, none_gone};
use crate::kind::Kind;
use crate::watch::Fired;
use crate::watches::Watches;
use kp_model::{Event, NoMemory};
use std::alloc::Global;
use std::collections::HashSet;

// The connections as a set.
fn set_of(alloc: Global, conns: &[u64]) -> Result<HashSet<u64>, NoMemory>
    ensures { IfOk result (λ set. (n : ℕ) → contains nat_eq set n ≡ list_any (nat_eq n) conns.now) }
{
    let mut set = HashSet::new(alloc);
    for conn in conns {
        let _ = set.insert(*conn)?;
    }
    Ok(set)
}

// Puts the connection behind the others unless it is in the set.
fn push_other(found: &mut Vec<u64>, set: &HashSet<u64>, conn: u64) -> Result<(), NoMemory>
    ensures { OnOk result (found.new.items ≡ found.old.items ++ filter (λ c. not (contains nat_eq set.now c)) (conn ∷ [])) }
{
    if !set.contains(&conn) {
        found.push(conn)?;
    }
    Ok(())
}

// Those that aren't in the set.
fn outside(alloc: Global, set: &HashSet<u64>, second: &[u64]) -> Result<Vec<u64>, NoMemory>
    ensures { IfOk result (λ found. found.items ≡ filter (λ c. not (contains nat_eq set.now c)) second.now) }
{
    let mut found = Vec::new(alloc);
    for conn in second {
        push_other(&mut found, set, *conn)?;
    }
    Ok(found)
}

// Those of the second list that aren't in the first.
fn others(alloc: Global, first: &[u64], second: &[u64]) -> Result<Vec<u64>, NoMemory>
    ensures { IfOk result (λ found. found.items ≡ others first.now second.now) }
{
    if second.is_empty() {
        return Ok(Vec::new(alloc));
    }
    let set = set_of(alloc, first)?;
    let found = outside(alloc, &set, second);
    drop(set);
    found
}

// Whether there are none.
fn is_none(conns: &[u64]) -> bool
    ensures { result ≡ true → conns.now ≡ [] }
{
    conns.is_empty()
}

#[tactic(auto, unfolding(crate::specs::Watching::heard_at))]
fn heard_at(at: usize, conn: u64) -> Fired
    ensures { result ≡ heard_at at conn }
{
    Fired { conn, at }
}

// Adds that the connections hear of the event at the place.
fn push_all(fired: &mut Vec<Fired>, conns: &[u64], at: usize) -> Result<(), NoMemory>
    ensures { OnOk result (fired.new.items ≡ fired.old.items ++ map (heard_at at) conns.now) }
{
    for conn in conns {
        fired.push(heard_at(at, *conn))?;
    }
    Ok(())
}

impl Watches {
    // The connections that hear of the path, where the watches at the paths that are gone have
    // fired. The path is then gone.
    fn hears(&self, gone: &mut Gone, path: &str, kind: Kind) -> Result<Vec<u64>, NoMemory>
        ensures { IfOk result (λ conns. (left : List Watch) → Leaves self.now gone.old left → (conns.items ≡ watching left path.now kind) × Leaves self.now gone.new (filter (λ w. not (is_at path.now kind w)) left)) }
    {
        let conns = self.conns(path, kind)?;
        if is_none(&conns) {
            return Ok(conns);
        }
        if mark(gone, self.allocator(), path, kind)? {
            return Ok(conns);
        }
        Ok(Vec::new(self.allocator()))
    }

    // The connections that hear that a node is gone: those that watch it, and then those that watch
    // its children alone.
    fn hears_deleted(&self, gone: &mut Gone, path: &str) -> Result<Vec<u64>, NoMemory>
        ensures { IfOk result (λ conns. (left : List Watch) → Leaves self.now gone.old left → (conns.items ≡ hearing left (event.Deleted path.now)) × Leaves self.now gone.new (unfired left (event.Deleted path.now))) }
    {
        let mut first = self.hears(gone, path, Kind::Data)?;
        let second = self.hears(gone, path, Kind::Child)?;
        let rest = others(self.allocator(), &first, &second)?;
        first.extend_from_slice(&rest)?;
        Ok(first)
    }

    // The connections that hear of the event, where the watches at the paths that are gone have
    // fired. Its watches are then gone.
    fn heard(&self, gone: &mut Gone, event: &Event) -> Result<Vec<u64>, NoMemory>
        ensures { IfOk result (λ conns. (left : List Watch) → Leaves self.now gone.old left → (conns.items ≡ hearing left event.now) × Leaves self.now gone.new (unfired left event.now)) }
    {
        match event {
            Event::Created(path) => self.hears(gone, path.as_str(), Kind::Data),
            Event::DataChanged(path) => self.hears(gone, path.as_str(), Kind::Data),
            Event::ChildrenChanged(path) => self.hears(gone, path.as_str(), Kind::Child),
            Event::Deleted(path) => self.hears_deleted(gone, path.as_str()),
        }
    }

    // Who hears of the events, where none has fired so far.
    fn plan_with(&self, gone: &mut Gone, events: &[Event]) -> Result<Vec<Fired>, NoMemory>
        requires { (k : Kind) (p : List ℕ) → has_gone gone.old k p ≡ false }
        ensures { IfOk result (λ fs. shown events.now fs.items ≡ somes (fired self.now events.now).pairs) }
    {
        let mut fired = Vec::new(self.allocator());
        for at in 0..events.len() {
            let conns = self.heard(gone, &events[at])?;
            push_all(&mut fired, &conns, at)?;
        }
        Ok(fired)
    }

    /// Who hears of the events, if they fire now one after another, by the events' places: what `fire` answers, before a
    /// watch is taken away. It costs the events and the watches at their paths, times a logarithm.
    pub fn plan(&self, events: &[Event]) -> Result<Vec<Fired>, NoMemory>
        ensures { IfOk result (λ fs. shown events.now fs.items ≡ somes (fired self.now events.now).pairs) }
    {
        let mut gone = none_gone(self.allocator());
        let fired = self.plan_with(&mut gone, events);
        drop(gone);
        fired
    }

    // Takes the watches away that hear of the event.
    fn take_event(&mut self, event: &Event)
        ensures { self.new ≡ unfired self.old event.now }
    {
        match event {
            Event::Created(path) => self.clear(path.as_str(), Kind::Data),
            Event::DataChanged(path) => self.clear(path.as_str(), Kind::Data),
            Event::ChildrenChanged(path) => self.clear(path.as_str(), Kind::Child),
            Event::Deleted(path) => {
                self.clear(path.as_str(), Kind::Data);
                self.clear(path.as_str(), Kind::Child);
            }
        }
    }

    /// Takes the watches away that hear of the events: what `fire` does behind its `plan`. Takes no memory.
    pub fn take_all(&mut self, events: &[Event])
        ensures { self.new ≡ (fired self.old events.now).left }
    {
        for event in events {
            self.take_event(event);
        }
    }

    /// Fires the events one after another: answers who hears of which, by the events' places, and
    /// takes the watches away. A watch fires once. That a node is gone is heard by the watches of
    /// the node and then by those of its children whose connection didn't just hear it; both go.
    /// It costs the events and the watches at their paths, times a logarithm. After an error
    /// nothing has changed.
    pub fn fire(&mut self, events: &[Event]) -> Result<Vec<Fired>, NoMemory>
        ensures told { IfOk result (λ fs. shown events.now fs.items ≡ somes (fired self.old events.now).pairs) }
        ensures left { OnOk result (self.new ≡ (fired self.old events.now).left) }
        ensures err { OnErr result (self.new ≡ self.old) }
    {
        let fired = self.plan(events)?;
        self.take_all(events);
        Ok(fired)
    }
}
