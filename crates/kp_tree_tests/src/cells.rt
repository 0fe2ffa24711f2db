//! Layers of writes of all parts. The views are looked at by the tests of the stores.
ghost use Rattle.std.specs.Prelude.{OnOk};
ghost use Rattle.kp_cells.specs.Overlays.{IsOpen, IsClosed};

use kp_cells::Cells;
use kp_model::{Acl, Acls, Bytes, Meta, NoMemory, Origin, Paths, Session};
use std::alloc::Global;
use std::test::Fail;

// A connection.
fn origin() -> Origin {
    Origin {
        node: 1,
        boot: 2,
        conn: 3,
    }
}

// A session that was opened from there.
fn session(alloc: Global) -> Session {
    Session {
        timeout: 30000,
        passwd: [7; 16],
        epoch: 1,
        seq: 0,
        ids: Paths::new(alloc),
        holder: origin(),
    }
}

// The data of one byte.
fn data(alloc: Global) -> Result<Bytes, NoMemory> {
    let mut bytes = Vec::new(alloc);
    bytes.push(5)?;
    Ok(Bytes::from_vec(bytes))
}

// What is shown of a node with such an owner, so many bytes and so many children; all else is 0.
fn meta(owner: u64, len: u32, kids: u32) -> Meta {
    Meta {
        czxid: 0,
        mzxid: 0,
        pzxid: 0,
        ctime: 0,
        mtime: 0,
        version: 0,
        cversion: 0,
        aversion: 0,
        owner,
        created: 0,
        len,
        kids,
    }
}

// Stages that a session owns the child of the root, or gives it up.
#[tactic(auto, unfolding(kp_model::specs::Path::is_well_formed), using(crate::proofs::Owned::owned_open))]
fn stage_owned(cells: &mut Cells, there: bool) -> Result<(), NoMemory>
    requires { IsOpen cells.old }
    ensures { OnOk result (IsOpen cells.new) }
{
    cells.stage_owned("/a", 7, there)
}

// Stages the data and the list of the child.
#[tactic(auto, unfolding(kp_model::specs::Path::is_well_formed))]
fn stage_contents(alloc: Global, cells: &mut Cells) -> Result<(), NoMemory>
    requires { IsOpen cells.old }
    ensures { OnOk result (IsOpen cells.new) }
{
    cells.stage_content("/a", Some(data(alloc)?))?;
    cells.stage_acl("/a", Some(Acls::everyone(alloc)?))
}

// Stages the session 7 and a child of the root that it owns.
#[tactic(auto, unfolding(kp_model::specs::Path::is_well_formed))]
fn stage_child(alloc: Global, cells: &mut Cells) -> Result<(), NoMemory>
    requires { IsOpen cells.old }
    ensures { OnOk result (IsOpen cells.new) }
{
    cells.stage_meta("/", Some(meta(0, 0, 1)))?;
    cells.stage_meta("/a", Some(meta(7, 1, 0)))?;
    stage_contents(alloc, cells)?;
    cells.stage_child("/a", true)?;
    stage_owned(cells, true)?;
    cells.stage_session(7, Some(session(alloc)))?;
    cells.stage_next(8)
}

// Whether the access list is the one that gives every right to everyone.
fn is_open(acl: Option<&[Acl]>) -> bool {
    match acl {
        Some([line]) => {
            line.perms == 31 && line.scheme.as_str() == "world" && line.id.as_str() == "anyone"
        }
        _ => false,
    }
}

// Whether the session is the one that was opened.
fn is_opened(session: Option<&Session>) -> bool {
    match session {
        Some(session) => session.timeout == 30000 && session.holder == origin(),
        None => false,
    }
}

// Whether the child and its session are there under all layers.
fn has_child(cells: &Cells) -> bool {
    let node = cells.latest_meta("/a").copied() == Some(meta(7, 1, 0))
        && cells.latest_content("/a") == Some([5].as_slice())
        && is_open(cells.latest_acl("/a"));
    node && is_opened(cells.latest_session(7)) && cells.latest_next() == 8
}

// The same of the committed parts.
fn has_committed_child(cells: &Cells) -> bool {
    let node = cells.committed_meta("/a").copied() == Some(meta(7, 1, 0))
        && cells.committed_content("/a") == Some([5].as_slice())
        && is_open(cells.committed_acl("/a"));
    node && is_opened(cells.committed_session(7)) && cells.committed_next() == 8
}

// Whether a child of the root is there under all layers, and behind the commit below them.
fn child_comes(alloc: Global, cells: &mut Cells) -> Result<bool, NoMemory>
    requires { IsClosed cells.old }
    ensures { OnOk result (IsClosed cells.new) }
{
    cells.begin()?;
    stage_child(alloc, cells)?;
    let latest = has_child(cells) && cells.committed_meta("/a").is_none();
    cells.seal();
    let there = cells.commit_front() && cells.applied() == 1;
    Ok(latest && there && has_committed_child(cells))
}

// Whether a write behind the mark is undone, and no other.
#[tactic(auto, unfolding(kp_model::specs::Path::is_well_formed))]
fn goes_back(alloc: Global, cells: &mut Cells) -> Result<bool, NoMemory>
    requires { IsClosed cells.old }
    ensures { OnOk result (IsClosed cells.new) }
{
    cells.begin()?;
    cells.stage_content("/b", Some(data(alloc)?))?;
    let mark = cells.mark();
    cells.stage_meta("/b", Some(meta(0, 1, 0)))?;
    let staged = cells.latest_meta("/b").is_some();
    cells.undo_to(mark);
    let undone = cells.latest_meta("/b").is_none();
    cells.seal();
    Ok(staged && undone && cells.latest_content("/b") == Some([5].as_slice()))
}

// Whether an abandoned layer leaves nothing.
fn gives_up(alloc: Global, cells: &mut Cells) -> Result<bool, NoMemory>
    requires { IsClosed cells.old }
    ensures { OnOk result (IsClosed cells.new) }
{
    cells.begin()?;
    cells.stage_session(9, Some(session(alloc)))?;
    cells.stage_next(10)?;
    let staged = is_opened(cells.latest_session(9)) && cells.latest_next() == 10;
    cells.abandon();
    Ok(staged && cells.latest_session(9).is_none() && cells.latest_next() == 8)
}

// Stages that the child of the root is removed with its session.
#[tactic(auto, unfolding(kp_model::specs::Path::is_well_formed))]
fn stage_removal(cells: &mut Cells) -> Result<(), NoMemory>
    requires { IsClosed cells.old }
    ensures { OnOk result (IsClosed cells.new) }
{
    cells.begin()?;
    cells.stage_meta("/a", None)?;
    cells.stage_content("/a", None)?;
    cells.stage_acl("/a", None)?;
    cells.stage_child("/a", false)?;
    stage_owned(cells, false)?;
    cells.stage_session(7, None)?;
    cells.seal();
    Ok(())
}

// Whether the last layer goes, and then the first is committed.
fn ends(cells: &mut Cells) -> Result<bool, NoMemory>
    requires { IsClosed cells.old }
{
    stage_removal(cells)?;
    let gone = !has_child(cells);
    let dropped = cells.drop_back() && has_child(cells) && cells.committed_content("/b").is_none();
    let committed = cells.commit_front() && cells.applied() == 2;
    let data = cells.committed_content("/b") == Some([5].as_slice());
    let none = cells.committed_meta("/b").is_none() && cells.latest_meta("/b").is_none();
    let over = !cells.drop_back() && !cells.commit_front() && cells.applied() == 2;
    Ok(gone && dropped && committed && data && none && over && has_committed_child(cells))
}

// Whether each layer does what it is told.
fn layers_come_and_go(alloc: Global, cells: &mut Cells) -> Result<bool, NoMemory>
    requires { IsClosed cells.old }
{
    let comes = child_comes(alloc, cells)?;
    let back = goes_back(alloc, cells)?;
    let given_up = gives_up(alloc, cells)?;
    Ok(ends(cells)? && comes && back && given_up)
}

fn run_layers(alloc: Global) -> Result<bool, NoMemory> {
    let mut cells = Cells::new(alloc)?;
    let told = layers_come_and_go(alloc, &mut cells);
    drop(cells);
    told
}

#[test]
fn layers_of_writes_come_and_go(rt: HostRuntime) -> Result<(), Fail> {
    assert!(rt; run_layers(rt.alloc())?);
    Ok(())
}
