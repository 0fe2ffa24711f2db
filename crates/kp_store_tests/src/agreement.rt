//! The storage over layers answers as the store that replays its entries: the same entries, commits and truncations,
//! drawn by a small generator, go through both, and every text that either prints is compared.
ghost use Rattle.std.specs.Prelude.{◌≤◌, IsTrue};
ghost use Rattle.kp_model.specs.Good.{IsSound};
ghost use Rattle.kp_model.specs.Grammar.{is_body};

mod bodies;
mod drawn;
mod printed;

use crate::agreement::bodies::read_body;
use crate::agreement::drawn::{Dice, PLACES, Place, below, line, path, session};
use crate::agreement::printed::{done_text, kept_text, kids_text, seen_text, who_text};
use kp_model::{Body, Entry, NoMemory, Paths, Seen, Text, View};
use kp_plain::PlainStore;
use kp_storage::Storage;
use std::alloc::Global;
use std::test::Fail;

/// Above each index and time of these runs.
const MANY: u64 = 100000;

/// The two stores.
#[derive(Drop)]
struct Both {
    layered: Storage,
    plain: PlainStore,
}

/// Adds an entry to both.
fn put(both: &mut Both, entry: &Entry) -> Result<(), NoMemory>
    requires sound { IsSound both.old.plain.state }
    ensures sound { IsSound both.new.plain.state }
{
    if both.layered.last() < MANY && both.plain.last() < MANY {
        both.layered.preprocess(entry)?;
        both.plain.preprocess(entry)?;
    }
    Ok(())
}

/// Adds an entry of this body to both.
fn enter(both: &mut Both, n: u64, body: Body) -> Result<(), NoMemory>
    requires number { n ≤ 100000 }
    requires numbers { IsTrue (is_body body) }
    requires sound { IsSound both.old.plain.state }
    ensures sound { IsSound both.new.plain.state }
{
    let entry = Entry::new(0, n, body)?;
    let added = put(both, &entry);
    drop(entry);
    added
}

/// What the plain store kept for its last entry.
fn plain_kept(alloc: Global, plain: &PlainStore) -> Result<Vec<u8>, NoMemory>
    requires sound { IsSound plain.now.state }
{
    let reply = plain.kept(plain.last())?;
    let text = kept_text(alloc, reply.as_ref());
    drop(reply);
    text
}

/// Whether both print the same of their last entry.
fn same_kept(alloc: Global, both: &Both) -> Result<bool, NoMemory>
    requires sound { IsSound both.now.plain.state }
{
    let layered = kept_text(alloc, both.layered.kept(both.layered.last()))?;
    let plain = plain_kept(alloc, &both.plain)?;
    Ok(layered.as_slice() == plain.as_slice())
}

/// Adds the entry of a drawn line. Whether it is a line, and both print the same.
fn add(alloc: Global, dice: &mut Dice, both: &mut Both, n: u64) -> Result<bool, NoMemory>
    requires number { n ≤ 100000 }
    requires sound { IsSound both.old.plain.state }
    ensures sound { IsSound both.new.plain.state }
{
    let text = line(alloc, dice, &both.layered)?;
    match read_body(alloc, n, text.as_slice())? {
        None => Ok(false),
        Some(body) => {
            enter(both, n, body)?;
            same_kept(alloc, both)
        }
    }
}

fn add_noop(alloc: Global, both: &mut Both, n: u64) -> Result<bool, NoMemory>
    requires number { n ≤ 100000 }
    requires sound { IsSound both.old.plain.state }
    ensures sound { IsSound both.new.plain.state }
{
    enter(both, n, Body::Noop)?;
    same_kept(alloc, both)
}

/// What is printed of a commit of the storage.
fn layered_done(alloc: Global, layered: &mut Storage) -> Result<Vec<u8>, NoMemory> {
    let done = layered.commit();
    let text = done_text(alloc, done.as_ref());
    drop(done);
    text
}

/// What is printed of a commit of the plain store.
fn plain_done(alloc: Global, plain: &mut PlainStore) -> Result<Vec<u8>, NoMemory>
    requires sound { IsSound plain.old.state }
    ensures sound { IsSound plain.new.state }
{
    let done = plain.commit()?;
    let text = done_text(alloc, done.as_ref());
    drop(done);
    text
}

/// Whether both print the same of a commit, and the layered one the same beforehand.
fn commit(alloc: Global, both: &mut Both) -> Result<bool, NoMemory>
    requires sound { IsSound both.old.plain.state }
    ensures sound { IsSound both.new.plain.state }
{
    let upcoming = done_text(alloc, both.layered.upcoming())?;
    let layered = layered_done(alloc, &mut both.layered)?;
    let plain = plain_done(alloc, &mut both.plain)?;
    Ok(layered.as_slice() == plain.as_slice() && upcoming.as_slice() == plain.as_slice())
}

/// Cuts both at one index. Whether they end there.
fn truncate(dice: &mut Dice, both: &mut Both) -> bool
    requires sound { IsSound both.old.plain.state }
    ensures sound { IsSound both.new.plain.state }
{
    let (applied, last) = (both.layered.applied(), both.layered.last());
    let at = applied + dice.roll(last - applied + 1);
    both.layered.truncate(at);
    if both.plain.applied() <= at && at <= both.plain.last() {
        both.plain.truncate(at);
    }
    both.layered.last() == at && both.plain.last() == at && both.plain.applied() == applied
}

/// The n-th step. Whether both print the same.
fn step(alloc: Global, dice: &mut Dice, both: &mut Both, n: u64) -> Result<bool, NoMemory>
    requires number { n ≤ 100000 }
    requires sound { IsSound both.old.plain.state }
    ensures sound { IsSound both.new.plain.state }
{
    match dice.roll(16) {
        0 => add_noop(alloc, both, n),
        1 | 2 | 3 | 4 | 5 => commit(alloc, both),
        6 => Ok(truncate(dice, both)),
        _ => add(alloc, dice, both, n),
    }
}

/// What is printed of what the plain store shows.
fn plain_seen(alloc: Global, seen: Option<Seen>) -> Result<Vec<u8>, NoMemory> {
    let text = match &seen {
        None => seen_text(alloc, None, None),
        Some(seen) => seen_text(alloc, Some(seen.bytes.as_slice()), Some(&seen.meta)),
    };
    drop(seen);
    text
}

fn same_peek(alloc: Global, both: &Both, at: &str) -> Result<bool, NoMemory>
    requires sound { IsSound both.now.plain.state }
{
    let store = &both.layered;
    let layered = seen_text(alloc, store.latest_data(at), store.latest_meta(at))?;
    let plain = plain_seen(alloc, both.plain.peek(at)?)?;
    Ok(layered.as_slice() == plain.as_slice())
}

fn same_see(alloc: Global, both: &Both, at: &str) -> Result<bool, NoMemory>
    requires sound { IsSound both.now.plain.state }
{
    let store = &both.layered;
    let layered = seen_text(alloc, store.committed_data(at), store.committed_meta(at))?;
    let plain = plain_seen(alloc, both.plain.see(at)?)?;
    Ok(layered.as_slice() == plain.as_slice())
}

/// Whether the plain store has this node, in its committed or its uncommitted state.
fn has(plain: &PlainStore, path: &str, committed: bool) -> Result<bool, NoMemory>
    requires sound { IsSound plain.now.state }
{
    let seen = if committed {
        plain.see(path)?
    } else {
        plain.peek(path)?
    };
    let there = seen.is_some();
    drop(seen);
    Ok(there)
}

/// The number of children that the plain store tells of a node; None where it has none.
fn plain_count(plain: &PlainStore, path: &str, committed: bool) -> Result<Option<u32>, NoMemory>
    requires sound { IsSound plain.now.state }
{
    let seen = if committed {
        plain.see(path)?
    } else {
        plain.peek(path)?
    };
    let count = match &seen {
        None => None,
        Some(seen) => Some(seen.meta.kids),
    };
    drop(seen);
    Ok(count)
}

/// Those of the names below a path that the plain store has there.
fn names_there(
    alloc: Global,
    plain: &PlainStore,
    at: &str,
    names: &Paths,
    committed: bool,
) -> Result<Paths, NoMemory>
    requires sound { IsSound plain.now.state }
{
    let mut there = Paths::new(alloc);
    for name in names.as_slice() {
        let child = below(alloc, at, name.as_str())?;
        if has(plain, child.as_str(), committed)? {
            there.push(name.copy(alloc)?)?;
        }
    }
    Ok(there)
}

/// Whether each name is above the one before it.
fn are_ascending(names: &[Text]) -> bool {
    let mut before = "";
    for name in names {
        if name.as_str() <= before {
            return false;
        }
        before = name.as_str();
    }
    true
}

fn is_among(names: &[Text], name: &str) -> bool {
    names.iter().any(|other| other.as_str() == name)
}

/// Whether the name of a place is among those below its parent exactly where the plain store has the place.
fn is_told(
    plain: &PlainStore,
    place: &Place,
    names: &Paths,
    committed: bool,
) -> Result<bool, NoMemory>
    requires sound { IsSound plain.now.state }
{
    Ok(is_among(names.as_slice(), place.name) == has(plain, place.path, committed)?)
}

/// Whether the names below a path tell of the places there as the plain store does.
fn are_places_told(
    plain: &PlainStore,
    at: &str,
    names: &Paths,
    committed: bool,
) -> Result<bool, NoMemory>
    requires sound { IsSound plain.now.state }
{
    let mut told = true;
    for place in &PLACES {
        if place.parent == at && !is_told(plain, place, names, committed)? {
            told = false;
        }
    }
    Ok(told)
}

/// What the plain store prints of the children, of which it is asked for each name.
fn plain_kids(
    alloc: Global,
    plain: &PlainStore,
    at: &str,
    names: &Paths,
    committed: bool,
) -> Result<Vec<u8>, NoMemory>
    requires sound { IsSound plain.now.state }
{
    if !has(plain, at, committed)? {
        return kids_text(alloc, None);
    }
    let there = names_there(alloc, plain, at, names, committed)?;
    let text = kids_text(alloc, Some(&there));
    drop(there);
    text
}

/// What is printed of the children that a view of the storage lists.
fn listed<V: View>(alloc: Global, view: &V, at: &str, names: &Paths) -> Result<Vec<u8>, NoMemory> {
    kids_text(alloc, view.meta(at).map(|_| names))
}

/// Whether these are the names of all children that the plain store has: ascending, as many as it tells, and with
/// those of the places.
fn are_all(plain: &PlainStore, at: &str, names: &Paths, committed: bool) -> Result<bool, NoMemory>
    requires sound { IsSound plain.now.state }
{
    let count = plain_count(plain, at, committed)?;
    let counted = count.unwrap_or(0) as usize == names.len();
    Ok(counted && are_ascending(names.as_slice()) && are_places_told(plain, at, names, committed)?)
}

/// Whether both have the same number of children in the uncommitted state, and the same of the places among them; where
/// each child is asked for, also whether both print the same of them.
fn same_kids(alloc: Global, both: &Both, at: &str, each: bool) -> Result<bool, NoMemory>
    requires sound { IsSound both.now.plain.state }
{
    let view = both.layered.latest();
    let names = view.kids(alloc, at)?;
    let all = are_all(&both.plain, at, &names, false)?;
    if !each {
        return Ok(all);
    }
    let layered = listed(alloc, &view, at, &names)?;
    let plain = plain_kids(alloc, &both.plain, at, &names, false)?;
    Ok(all && layered.as_slice() == plain.as_slice())
}

/// The same of the committed state, where each child is asked for.
fn same_ls(alloc: Global, both: &Both, at: &str) -> Result<bool, NoMemory>
    requires sound { IsSound both.now.plain.state }
{
    let view = both.layered.committed();
    let names = view.kids(alloc, at)?;
    let all = are_all(&both.plain, at, &names, true)?;
    let layered = listed(alloc, &view, at, &names)?;
    let plain = plain_kids(alloc, &both.plain, at, &names, true)?;
    Ok(all && layered.as_slice() == plain.as_slice())
}

fn plain_who(alloc: Global, plain: &PlainStore, session: u64) -> Result<Vec<u8>, NoMemory>
    requires sound { IsSound plain.now.state }
{
    let found = plain.who(session)?;
    let text = who_text(alloc, found.as_ref());
    drop(found);
    text
}

fn same_who(alloc: Global, both: &Both, session: u64) -> Result<bool, NoMemory>
    requires sound { IsSound both.now.plain.state }
{
    let layered = who_text(alloc, both.layered.latest_session(session))?;
    let plain = plain_who(alloc, &both.plain, session)?;
    Ok(layered.as_slice() == plain.as_slice())
}

/// Whether both print the same of a drawn node, in both states. In the uncommitted state each of its children is asked
/// for in every fourth look only, as the plain store replays its entries at each.
fn look(alloc: Global, dice: &mut Dice, both: &Both) -> Result<bool, NoMemory>
    requires sound { IsSound both.now.plain.state }
{
    let at = path(alloc, dice, &both.layered)?;
    let each = dice.roll(4) == 0;
    let seen = same_peek(alloc, both, at.as_str())? && same_see(alloc, both, at.as_str())?;
    let listed = same_kids(alloc, both, at.as_str(), each)? && same_ls(alloc, both, at.as_str())?;
    Ok(seen && listed)
}

/// Whether both print the same of a drawn session.
fn look_at_session(alloc: Global, dice: &mut Dice, both: &Both) -> Result<bool, NoMemory>
    requires sound { IsSound both.now.plain.state }
{
    let id = session(alloc, dice, &both.layered)?;
    same_who(alloc, both, id)
}

/// Whether both print the same of each session of these runs.
fn same_sessions(alloc: Global, both: &Both) -> Result<bool, NoMemory>
    requires sound { IsSound both.now.plain.state }
{
    let mut same = true;
    for id in 0..both.layered.latest().next_session().min(MANY) {
        if !same_who(alloc, both, id)? {
            same = false;
        }
    }
    Ok(same)
}

/// How many of the steps, and of the looks behind them, give the same in both.
fn agreeing(alloc: Global, dice: &mut Dice, both: &mut Both, steps: u64) -> Result<u64, NoMemory>
    requires steps { steps ≤ 100000 }
    requires sound { IsSound both.old.plain.state }
    ensures sound { IsSound both.new.plain.state }
{
    let mut same: u64 = 0;
    for n in 0..steps {
        let stepped = step(alloc, dice, both, n)?;
        let looked = look(alloc, dice, both)? && look_at_session(alloc, dice, both)?;
        if stepped && looked {
            same = same.saturating_add(1);
        }
    }
    Ok(same)
}

/// Those of a run on these stores; none where the sessions behind it differ.
fn agreeing_of(alloc: Global, both: &mut Both) -> Result<u64, NoMemory>
    requires sound { IsSound both.old.plain.state }
    ensures sound { IsSound both.new.plain.state }
{
    let mut dice = Dice { state: 2026 };
    let same = agreeing(alloc, &mut dice, both, 600)?;
    if same_sessions(alloc, both)? {
        Ok(same)
    } else {
        Ok(0)
    }
}

/// Those of a run on empty stores.
fn run(alloc: Global) -> Result<u64, NoMemory> {
    run_beside(alloc, PlainStore::new(alloc)?)
}

fn run_beside(alloc: Global, plain: PlainStore) -> Result<u64, NoMemory>
    requires sound { IsSound plain.state }
{
    match Storage::new(alloc) {
        Ok(layered) => {
            let mut both = Both { layered, plain };
            let same = agreeing_of(alloc, &mut both);
            drop(both);
            same
        }
        Err(none) => {
            drop(plain);
            Err(none)
        }
    }
}

#[test]
fn both_stores_answer_the_same(rt: HostRuntime) -> Result<(), Fail> {
    let same = run(rt.alloc())?;
    assert!(rt; same == 600);
    Ok(())
}
