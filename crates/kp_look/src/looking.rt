ghost use Rattle.std.specs.Prelude.{◌≡◌, IfOk, codes};
ghost use Rattle.std.specs.FinMap as map;
ghost use Rattle.kp_model.specs.State.{seen, acl_at};
ghost use Rattle.kp_model.specs.Store.{latest};
ghost use Rattle.kp_look.specs.Texts.{seen_text as seen_bytes, kids_text as kids_bytes, acl_text as acl_bytes, who_text as who_bytes, kids_at};

use crate::print::{acl_text, kids_text, no_kids_text, seen_text, who_text};
use kp_model::{NoMemory, Text, View};
use kp_storage::Storage;
use std::alloc::Global;

/// What is seen of a node of the uncommitted state.
#[tactic(auto, using(crate::proofs::Looks::shown_seen))]
pub fn peek(alloc: Global, store: &Storage, path: &Text) -> Result<Vec<u8>, NoMemory>
    ensures { IfOk result (λ v. v.items ≡ seen_bytes (codes "peek") (seen (latest store.now).nodes path.now)) }
{
    let path = path.as_str();
    let (data, meta) = (store.latest_data(path), store.latest_meta(path));
    seen_text(alloc, "peek", data, meta)
}

/// What is seen of a node of the committed state.
#[tactic(auto, using(crate::proofs::Looks::shown_seen))]
pub fn see(alloc: Global, store: &Storage, path: &Text) -> Result<Vec<u8>, NoMemory>
    ensures { IfOk result (λ v. v.items ≡ seen_bytes (codes "see") (seen store.now.state.nodes path.now)) }
{
    let path = path.as_str();
    let (data, meta) = (store.committed_data(path), store.committed_meta(path));
    seen_text(alloc, "see", data, meta)
}

/// The names of the children of a node of this state, behind the word that asked for them.
#[tactic(auto, using(crate::proofs::Looks::kids_there, crate::proofs::Looks::kids_nowhere))]
pub fn children<V: View>(
    alloc: Global,
    word: &str,
    view: &V,
    path: &Text,
) -> Result<Vec<u8>, NoMemory>
    ensures { IfOk result (λ v. v.items ≡ kids_bytes word.now (kids_at (V.state view.now).nodes path.now)) }
{
    let path = path.as_str();
    if view.meta(path).is_none() {
        return no_kids_text(alloc, word);
    }
    let names = view.kids(alloc, path)?;
    kids_text(alloc, word, &names)
}

/// The access list of a node of the uncommitted state.
pub fn acl(alloc: Global, store: &Storage, path: &Text) -> Result<Vec<u8>, NoMemory>
    ensures { IfOk result (λ v. v.items ≡ acl_bytes (acl_at (latest store.now).nodes path.now)) }
{
    acl_text(alloc, store.latest().acl(path.as_str()))
}

/// A session of the uncommitted state.
pub fn who(alloc: Global, store: &Storage, session: u64) -> Result<Vec<u8>, NoMemory>
    ensures { IfOk result (λ v. v.items ≡ who_bytes (map.get (latest store.now).sessions session)) }
{
    who_text(alloc, store.latest_session(session))
}
