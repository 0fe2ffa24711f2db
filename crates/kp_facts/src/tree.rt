//! What the committed tree has: what each session owns, and how large it is.
ghost use Rattle.std.specs.Prelude.{◌≡◌, ◌++◌, ◌∷◌, [], map, sum, IfOk, IfSome, OnOk};
ghost use Rattle.std.specs.List.{filter};
ghost use Rattle.std.specs.FinMap as fin;
ghost use Rattle.kp_facts.specs.Tree.{owner_facts, is_owner, size_at, size_in};

use kp_model::{Items, NoMemory, Text, View};
use kp_words::SessionPaths;
use std::alloc::Global;

// Puts what the session owns behind the others, where it owns something.
#[tactic(auto, unfolding(kp_model::specs::State::owned))]
fn push_owner<V: View>(
    alloc: Global,
    view: &V,
    session: u64,
    owners: &mut Vec<SessionPaths>,
) -> Result<(), NoMemory>
    ensures { OnOk result (owners.new.items ≡ owners.old.items ++ map (owner_facts (V.state view.now)) (filter (is_owner (V.state view.now)) (session ∷ []))) }
{
    let paths = view.owned(alloc, session)?;
    if paths.len() == 0 {
        drop(paths);
        return Ok(());
    }
    owners.push(SessionPaths { session, paths })?;
    Ok(())
}

/// What each session that owns nodes owns, in the order of the sessions.
pub fn owners<V: View>(alloc: Global, view: &V) -> Result<Items<SessionPaths>, NoMemory>
    ensures { IfOk result (λ list. list ≡ map (owner_facts (V.state view.now)) (filter (is_owner (V.state view.now)) (fin.keys (V.state view.now).sessions))) }
{
    let sessions = view.sessions(alloc)?;
    let mut owners = Vec::new(alloc);
    for session in &sessions {
        push_owner(alloc, view, *session, &mut owners)?;
    }
    Ok(Items::from_vec(owners))
}

// The lengths of the path and of the data of its node, unless that is beyond 64 bits.
fn size_of<V: View>(view: &V, path: &str) -> Option<u64>
    ensures { IfSome result (λ n. n ≡ size_at (V.state view.now).nodes path.now) }
{
    match view.content(path) {
        None => Some(path.len() as u64),
        Some(data) => (path.len() as u64).checked_add(data.len() as u64),
    }
}

/// The lengths of all paths and data, in bytes. A sum beyond 64 bits counts as want of memory.
#[tactic(auto, using(crate::proofs::Sizes::all_sizes))]
pub fn size<V: View>(alloc: Global, view: &V) -> Result<u64, NoMemory>
    ensures { IfOk result (λ n. n ≡ size_in (V.state view.now)) }
{
    let paths = view.paths(alloc)?;
    let size = size_all(view, paths.as_slice());
    drop(paths);
    match size {
        None => Err(NoMemory),
        Some(size) => Ok(size),
    }
}

// The same of these paths.
fn size_all<V: View>(view: &V, paths: &[Text]) -> Option<u64>
    ensures { IfSome result (λ n. n ≡ sum (map (size_at (V.state view.now).nodes) paths.now)) }
{
    let mut size: u64 = 0;
    for path in paths {
        size = size.checked_add(size_of(view, path.as_str())?)?;
    }
    Some(size)
}
