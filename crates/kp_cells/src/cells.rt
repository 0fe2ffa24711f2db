//! The parts of the tree and the sessions, each under layers of writes.
ghost use Rattle.std.specs.Prelude.{◌≡◌, [], IfOk, ◌+◌, ◌<◌, ◌↔◌, ◌==◌, min, if◌then◌else◌, false, Some, None, OnOk, OnErr, IsTrue};
ghost use Rattle.std.specs.FinMap as map;
ghost use Rattle.std.specs.Option.{option_map_or};
ghost use Rattle.std.specs.Str.{bytes_eq};
ghost use Rattle.kp_layers.specs.Layering.{latest_of, written};
ghost use Rattle.kp_model.specs.Path.{is_well_formed, root};
ghost use Rattle.kp_cells.specs.Overlays.{IsOpen, IsClosed, depth, all_begun, all_sealed, all_abandoned, all_undone, marks_of, all_committed, all_dropped, with_meta, with_content, with_acl, with_child, with_owned, with_owner, with_session, with_next, IsSettled, committed_state, settled, root_parts, blank_overlays};
ghost use Rattle.kp_model.specs.State.{meta_of, blank_node, open_acl, empty};

use crate::groups::ByHolder;
use crate::names::Names;
use crate::nodes::{Nodes, release};
use crate::pair::{abandon_both, begin_four};
use crate::trail::{Trail, begin_rest};
use kp_layers::{GroupedLayers, Layers};
use kp_model::{Acls, Bytes, Meta, NoMemory, Session};
use std::alloc::Global;
use std::marker::Model;

/// The nodes of the tree and the sessions under layers of writes. What is below all layers is the
/// committed state; each sealed layer has the changes of one log entry that isn't committed, and
/// an open layer those of an entry that is being taken in.
///
/// Look-ups take no memory, and cost the same whatever the number of layers. `undo_to`, `seal`,
/// `abandon`, `commit_front` and `drop_back` take no memory, and cost the writes of that layer. A
/// path takes room only while it has a value in the committed state or a write in a layer.
#[derive(Drop)]
pub struct Cells {
    pub(crate) alloc: Global,
    pub(crate) names: Names,
    // the numbers of the paths that each layer wrote
    pub(crate) trail: Trail,
    pub(crate) nodes: Nodes,
    pub(crate) sessions: GroupedLayers<Session, ByHolder>,
    pub(crate) next: Layers<u64>,
    // the index of the last entry that is made part of the committed state
    pub(crate) applied: u64,
}

/// How many writes the open layer of each part had at some moment.
#[derive(Clone, Copy)]
pub struct CellsMark {
    metas: usize,
    contents: usize,
    acls: usize,
    children: usize,
    owners: usize,
    sessions: usize,
    next: usize,
}

impl Model for Cells {
    ghost use Rattle.kp_cells.specs.Overlays.{Overlays};
    ghost use Rattle.kp_cells.specs.Held.{overlays_code};

    ghost Value = { Overlays };

    ghost coded = { overlays_code };

    ghost use Rattle.kp_cells.specs.Held.{overlays};
    ghost use Rattle.kp_cells.specs.Traced.{AreKept};

    ghost view = { λ c. overlays c.names c.nodes.metas c.nodes.contents c.nodes.acls c.nodes.children c.nodes.owners c.sessions c.next c.applied };

    ghost invariant = { λ c. AreKept c.names c.trail c.nodes.metas c.nodes.contents c.nodes.acls c.nodes.children c.nodes.owners c.sessions c.next };
}

// The index of the last committed entry, where one more may have been committed. It stands still at
// its type's end.
fn raised(applied: u64, more: bool) -> u64
    ensures { result ≡ min (applied + (if more then 1 else 0)) 18446744073709551615 }
{
    if more {
        applied.saturating_add(1)
    } else {
        applied
    }
}

// What is shown of a node that no entry made.
fn blank_meta() -> Meta
    ensures { result ≡ meta_of 0 blank_node }
{
    Meta {
        czxid: 0,
        mzxid: 0,
        pzxid: 0,
        ctime: 0,
        mtime: 0,
        version: 0,
        cversion: 0,
        aversion: 0,
        owner: 0,
        created: 0,
        len: 0,
        kids: 0,
    }
}

impl Cells {
    /// The root alone, and no session: the empty state, into which another may be poured. Later growth takes
    /// memory from `alloc`.
    #[tactic(auto, using(crate::proofs::Settled::root_settled, crate::proofs::Settled::root_empty))]
    pub fn new(alloc: Global) -> Result<Cells, NoMemory>
        ensures value { IfOk result (λ cells. cells ≡ settled 0 root_parts) }
        ensures may { IfOk result IsSettled }
        ensures empty { IfOk result (λ cells. committed_state cells ≡ empty) }
    {
        let mut cells = Cells::blank(alloc);
        match cells.settle(alloc) {
            Ok(()) => Ok(cells),
            Err(none) => {
                drop(cells);
                Err(none)
            }
        }
    }

    // Makes the root, and takes it in.
    fn settle(&mut self, alloc: Global) -> Result<(), NoMemory>
        requires { self.old ≡ blank_overlays }
        ensures { OnOk result (self.new ≡ settled 0 root_parts) }
    {
        self.begin()?;
        self.stage_root(alloc)?;
        self.take_in();
        Ok(())
    }

    // No nodes and no sessions.
    fn blank(alloc: Global) -> Cells
        ensures { result ≡ blank_overlays }
    {
        let metas = Layers::new(alloc);
        let contents = Layers::new(alloc);
        let acls = Layers::new(alloc);
        let children = Layers::new(alloc);
        let owners = GroupedLayers::new(alloc);
        let sessions = GroupedLayers::new(alloc);
        let next = Layers::new(alloc);
        Cells {
            alloc,
            names: Names::new(alloc),
            trail: Trail::new(alloc),
            nodes: Nodes {
                metas,
                contents,
                acls,
                children,
                owners,
            },
            sessions,
            next,
            applied: 0,
        }
    }

    // Stages the root and the first session number.
    #[tactic(auto, unfolding(kp_model::specs::Path::is_well_formed))]
    fn stage_root(&mut self, alloc: Global) -> Result<(), NoMemory>
        requires { IsOpen self.old }
        ensures { OnOk result (self.new ≡ with_next (with_acl (with_content (with_meta self.old root (Some (meta_of 0 blank_node))) root (Some [])) root (Some open_acl)) 1) }
    {
        self.stage_meta("/", Some(blank_meta()))?;
        self.stage_content("/", Some(Bytes::new(alloc)))?;
        let acl = Acls::everyone(alloc)?;
        self.stage_acl("/", Some(acl))?;
        self.stage_next(1)
    }

    /// Opens a layer with no writes in each part. After an error nothing has changed.
    pub fn begin(&mut self) -> Result<(), NoMemory>
        requires { IsClosed self.old }
        ensures ok { OnOk result (self.new ≡ all_begun self.old) }
        ensures err { OnErr result (self.new ≡ self.old) }
    {
        begin_four(
            &mut self.nodes.metas,
            &mut self.nodes.contents,
            &mut self.nodes.acls,
            &mut self.nodes.children,
        )?;
        if begin_rest(
            &mut self.nodes.owners,
            &mut self.sessions,
            &mut self.next,
            &mut self.trail,
        )
        .is_err()
        {
            abandon_both(&mut self.nodes.metas, &mut self.nodes.contents);
            abandon_both(&mut self.nodes.acls, &mut self.nodes.children);
            return Err(NoMemory);
        }
        Ok(())
    }

    /// How many writes the open layer of each part has: the mark to which `undo_to` comes back.
    pub fn mark(&self) -> CellsMark
        requires { IsOpen self.now }
        ensures { result ≡ marks_of self.now }
    {
        CellsMark {
            metas: self.nodes.metas.mark(),
            contents: self.nodes.contents.mark(),
            acls: self.nodes.acls.mark(),
            children: self.nodes.children.mark(),
            owners: self.nodes.owners.mark(),
            sessions: self.sessions.mark(),
            next: self.next.mark(),
        }
    }

    /// Keeps the writes of the open layer that were there at the mark.
    pub fn undo_to(&mut self, mark: CellsMark)
        requires { IsOpen self.old }
        ensures { self.new ≡ all_undone self.old mark }
    {
        self.nodes.metas.undo_to(mark.metas);
        self.nodes.contents.undo_to(mark.contents);
        self.nodes.acls.undo_to(mark.acls);
        self.nodes.children.undo_to(mark.children);
        self.nodes.owners.undo_to(mark.owners);
        self.sessions.undo_to(mark.sessions);
        self.next.undo_to(mark.next);
        release(&mut self.names, &self.nodes, self.trail.staged());
    }

    /// Closes the open layer behind the sealed ones.
    pub fn seal(&mut self)
        requires { IsOpen self.old }
        ensures { self.new ≡ all_sealed self.old }
    {
        self.nodes.metas.seal();
        self.nodes.contents.seal();
        self.nodes.acls.seal();
        self.nodes.children.seal();
        self.nodes.owners.seal();
        self.sessions.seal();
        self.next.seal();
        self.trail.seal();
    }

    /// Takes the open layer away with its writes.
    pub fn abandon(&mut self)
        requires { IsOpen self.old }
        ensures { self.new ≡ all_abandoned self.old }
    {
        self.nodes.metas.abandon();
        self.nodes.contents.abandon();
        self.nodes.acls.abandon();
        self.nodes.children.abandon();
        self.nodes.owners.abandon();
        self.sessions.abandon();
        self.next.abandon();
        let opened = self.trail.take_staged();
        release(&mut self.names, &self.nodes, opened.as_slice());
    }

    /// Makes the first sealed layer part of the committed state. Answers false exactly where no
    /// layer is sealed, and then nothing changes.
    pub fn commit_front(&mut self) -> bool
        requires { IsClosed self.old }
        ensures there { IsTrue result ↔ (0 < depth self.old) }
        ensures changed { self.new ≡ all_committed self.old }
    {
        let there = self.nodes.metas.commit_front();
        let _ = self.nodes.contents.commit_front();
        let _ = self.nodes.acls.commit_front();
        let _ = self.nodes.children.commit_front();
        let _ = self.nodes.owners.commit_front();
        let _ = self.sessions.commit_front();
        let _ = self.next.commit_front();
        let first = self.trail.take_front();
        release(&mut self.names, &self.nodes, first.as_slice());
        self.applied = raised(self.applied, there);
        there
    }

    /// Takes the last sealed layer away with its writes. Answers false exactly where no layer is
    /// sealed, and then nothing changes.
    pub fn drop_back(&mut self) -> bool
        requires { IsClosed self.old }
        ensures there { IsTrue result ↔ (0 < depth self.old) }
        ensures changed { self.new ≡ all_dropped self.old }
    {
        let there = self.nodes.metas.drop_back();
        let _ = self.nodes.contents.drop_back();
        let _ = self.nodes.acls.drop_back();
        let _ = self.nodes.children.drop_back();
        let _ = self.nodes.owners.drop_back();
        let _ = self.sessions.drop_back();
        let _ = self.next.drop_back();
        let last = self.trail.take_back();
        release(&mut self.names, &self.nodes, last.as_slice());
        there
    }
}
