//! What a session is answered that looks at a node, found on any view of a state.
#![tactic(auto)]

ghost use Rattle.std.specs.Prelude.{◌≡◌, IfOk};
ghost use Rattle.kp_model.specs.Rights.{is_allowed};
ghost use Rattle.kp_model.specs.Touched.{ids_of};
ghost use Rattle.kp_model.specs.Reads.{read_answer};
ghost use Rattle.kp_model.specs.declared.read.ReadCmd.TheVariants as ask;

use kp_acl::allows;
use kp_model::errors::{BAD_ARGUMENTS, NO_AUTH, NO_NODE};
use kp_model::{Acl, Acls, Bytes, Meta, NoMemory, Paths, ReadCmd, ReadReply, View};
use kp_path::check;
use std::alloc::Global;

/// The right to see a node's data and children.
const READ: u32 = 1;

/// The right to set a node's access list.
const ADMIN: u32 = 16;

/// What a session is answered on the state that the view shows, by the ids that it has shown: the first check that
/// fails, in the order -8 (the path is malformed), -101 (no such node), -102 (the right is missing), or what is asked
/// for. Whether a node is there is told to everyone; data and children want READ, an access list READ or ADMIN.
pub fn answer<V: View>(
    alloc: Global,
    view: &V,
    session: u64,
    cmd: &ReadCmd,
) -> Result<ReadReply, NoMemory>
    ensures { IfOk result (λ r. r ≡ read_answer (V.state view.now) session cmd.now) }
{
    match cmd {
        ReadCmd::Exists { path } => Ok(exists(view, session, path.as_str())),
        ReadCmd::GetData { path } => data(alloc, view, session, path.as_str()),
        ReadCmd::GetAcl { path } => acl(alloc, view, session, path.as_str()),
        ReadCmd::GetChildren { path } => children(alloc, view, session, path.as_str()),
    }
}

// Whether a session may do this to a node with this list.
fn may<V: View>(alloc: Global, view: &V, session: u64, acl: &[Acl], right: u32) -> bool
    ensures { result ≡ is_allowed (ids_of (V.state view.now) session) acl.now right }
{
    match view.session(session) {
        Some(found) => allows(&found.ids, acl, right),
        None => {
            let none = Paths::new(alloc);
            let allowed = allows(&none, acl, right);
            drop(none);
            allowed
        }
    }
}

// Whether a node is there.
#[tactic(auto, unfolding(kp_model::specs::Reads::read_answer, kp_model::specs::State::meta_at))]
fn exists<V: View>(view: &V, session: u64, path: &str) -> ReadReply
    ensures { result ≡ read_answer (V.state view.now) session (ask.Exists path.now) }
{
    if check(path).is_err() {
        return ReadReply::Err(BAD_ARGUMENTS);
    }
    match view.meta(path) {
        None => ReadReply::Err(NO_NODE),
        Some(meta) => ReadReply::Stat(*meta),
    }
}

// A node's data and numbers.
#[tactic(auto, unfolding(kp_model::specs::Reads::read_answer, kp_model::specs::State::acl_at, kp_model::specs::State::meta_at, kp_model::specs::State::bytes_at))]
fn data<V: View>(alloc: Global, view: &V, session: u64, path: &str) -> Result<ReadReply, NoMemory>
    ensures { IfOk result (λ r. r ≡ read_answer (V.state view.now) session (ask.GetData path.now)) }
{
    if check(path).is_err() {
        return Ok(ReadReply::Err(BAD_ARGUMENTS));
    }
    let (Some(list), Some(meta), Some(content)) = (
        view.acl(path),
        view.meta(path),
        view.content(path),
    ) else {
        return Ok(ReadReply::Err(NO_NODE));
    };
    if !may(alloc, view, session, list, READ) {
        return Ok(ReadReply::Err(NO_AUTH));
    }
    let bytes = Bytes::from_vec(Vec::from_slice(alloc, content)?);
    Ok(ReadReply::Data(bytes, *meta))
}

// A node's access list and numbers.
#[tactic(auto, unfolding(kp_model::specs::Reads::read_answer, kp_model::specs::State::acl_at, kp_model::specs::State::meta_at))]
fn acl<V: View>(alloc: Global, view: &V, session: u64, path: &str) -> Result<ReadReply, NoMemory>
    ensures { IfOk result (λ r. r ≡ read_answer (V.state view.now) session (ask.GetAcl path.now)) }
{
    if check(path).is_err() {
        return Ok(ReadReply::Err(BAD_ARGUMENTS));
    }
    let Some(list) = view.acl(path) else {
        return Ok(ReadReply::Err(NO_NODE));
    };
    let Some(meta) = view.meta(path) else {
        return Ok(ReadReply::Err(NO_NODE));
    };
    if !may(alloc, view, session, list, READ) && !may(alloc, view, session, list, ADMIN) {
        return Ok(ReadReply::Err(NO_AUTH));
    }
    let lines = Acls::from_vec(copies(alloc, list)?);
    Ok(ReadReply::Acl(lines, *meta))
}

// Copies of the lines of an access list, in their order.
fn copies(alloc: Global, list: &[Acl]) -> Result<Vec<Acl>, NoMemory>
    ensures { IfOk result (λ made. made.items ≡ list.now) }
{
    let mut lines = Vec::new(alloc);
    for line in list {
        lines.push(line.copy(alloc)?)?;
    }
    Ok(lines)
}

// The names of a node's children, and its numbers.
#[tactic(auto, unfolding(kp_model::specs::Reads::read_answer, kp_model::specs::State::acl_at, kp_model::specs::State::meta_at))]
fn children<V: View>(
    alloc: Global,
    view: &V,
    session: u64,
    path: &str,
) -> Result<ReadReply, NoMemory>
    ensures { IfOk result (λ r. r ≡ read_answer (V.state view.now) session (ask.GetChildren path.now)) }
{
    if check(path).is_err() {
        return Ok(ReadReply::Err(BAD_ARGUMENTS));
    }
    let Some(list) = view.acl(path) else {
        return Ok(ReadReply::Err(NO_NODE));
    };
    let Some(meta) = view.meta(path) else {
        return Ok(ReadReply::Err(NO_NODE));
    };
    if !may(alloc, view, session, list, READ) {
        return Ok(ReadReply::Err(NO_AUTH));
    }
    Ok(ReadReply::Names(view.kids(alloc, path)?, *meta))
}
