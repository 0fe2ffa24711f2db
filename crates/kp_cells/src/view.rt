//! The two views of the tree and its sessions.
ghost use Rattle.std.specs.Prelude.{◌≡◌, ◌==◌, false, IfOk, option_copied};
ghost use Rattle.std.specs.FinMap as map;
ghost use Rattle.std.specs.List.{filter};
ghost use Rattle.kp_model.specs.State.{is_child, is_held};
ghost use Rattle.kp_cells.specs.Listed.{side_of, passes};
ghost use Rattle.kp_cells.specs.Overlays.{latest_parts, latest_state, committed_parts, committed_state};
ghost use Rattle.kp_cells.specs.Parts.{FitTogether};
ghost use Rattle.kp_cells.specs.Sides.{parts_at};

use crate::cells::Cells;
use crate::groups::Holder;
use crate::listing::{any_in, keys, keys_in, list, names_of};
use crate::pick::{ChildOf, Every, OwnedBy, Pick};
use kp_model::{Acl, Meta, NoMemory, Origin, Paths, Session, View};
use std::alloc::Global;
use std::marker::Model;

impl Cells {
    /// The state under all layers, the open one last.
    pub fn latest(&self) -> LatestView<'_>
        requires fits { FitTogether (latest_parts self.now) }
        ensures { result ≡ latest_state self.now }
    {
        SideView {
            cells: self,
            latest: true,
        }
    }

    /// The state below all layers.
    pub fn committed(&self) -> CommittedView<'_>
        requires fits { FitTogether (committed_parts self.now) }
        ensures { result ≡ committed_state self.now }
    {
        SideView {
            cells: self,
            latest: false,
        }
    }

    // What is shown of the node at the path, on either side.
    fn meta_at(&self, latest: bool, path: &str) -> Option<&Meta>
        ensures { option_copied result ≡ map.get (side_of latest self.now.metas) path.now }
    {
        if latest {
            self.latest_meta(path)
        } else {
            self.committed_meta(path)
        }
    }

    // The data of the node at the path, on either side.
    fn content_at(&self, latest: bool, path: &str) -> Option<&[u8]>
        ensures { option_copied result ≡ map.get (side_of latest self.now.contents) path.now }
    {
        if latest {
            self.latest_content(path)
        } else {
            self.committed_content(path)
        }
    }

    // The access list of the node at the path, on either side.
    fn acl_at(&self, latest: bool, path: &str) -> Option<&[Acl]>
        ensures { option_copied result ≡ map.get (side_of latest self.now.acls) path.now }
    {
        if latest {
            self.latest_acl(path)
        } else {
            self.committed_acl(path)
        }
    }

    // The session of the number, on either side.
    fn session_at(&self, latest: bool, id: u64) -> Option<&Session>
        ensures { option_copied result ≡ map.get (side_of latest self.now.sessions) id }
    {
        if latest {
            self.latest_session(id)
        } else {
            self.committed_session(id)
        }
    }

    // The next session number, on either side.
    fn next_at(&self, latest: bool) -> u64
        ensures { result ≡ (parts_at latest self.now).next }
    {
        if latest {
            self.latest_next()
        } else {
            self.committed_next()
        }
    }

    // The paths of the nodes that are picked, ascending. Costs as much as there are nodes.
    pub(crate) fn picked<P: Pick>(
        &self,
        alloc: Global,
        latest: bool,
        pick: &P,
    ) -> Result<Paths, NoMemory>
        ensures { IfOk result (λ paths. paths ≡ filter (passes (P.test pick.now) (side_of latest self.now.metas)) (map.keys (side_of latest self.now.metas))) }
    {
        let numbers = keys(alloc, &self.nodes.metas, latest)?;
        list(
            alloc,
            &self.names,
            &self.nodes.metas,
            latest,
            pick,
            numbers.as_slice(),
        )
    }

    // The paths of the children of the path, ascending.
    pub(crate) fn children(
        &self,
        alloc: Global,
        latest: bool,
        path: &str,
    ) -> Result<Paths, NoMemory>
        ensures { IfOk result (λ paths. paths ≡ filter (passes (λ q m. is_child path.now q) (side_of latest self.now.metas)) (map.keys (side_of latest self.now.metas))) }
    {
        let numbers = self.names.children(alloc, path)?;
        list(
            alloc,
            &self.names,
            &self.nodes.metas,
            latest,
            &ChildOf { parent: path },
            numbers.as_slice(),
        )
    }

    // The paths of the nodes of a session, ascending.
    fn owned_by(&self, alloc: Global, latest: bool, session: u64) -> Result<Paths, NoMemory>
        requires fits { FitTogether (parts_at latest self.now) }
        requires session { (session == 0) ≡ false }
        ensures { IfOk result (λ paths. paths ≡ filter (passes (λ q m. m.owner == session) (side_of latest self.now.metas)) (map.keys (side_of latest self.now.metas))) }
    {
        let numbers = keys_in(alloc, &self.nodes.owners, latest, session)?;
        list(
            alloc,
            &self.names,
            &self.nodes.metas,
            latest,
            &OwnedBy { session },
            numbers.as_slice(),
        )
    }

    // The paths of the nodes of a session, ascending; those without an owner at the number 0.
    fn owned(&self, alloc: Global, latest: bool, session: u64) -> Result<Paths, NoMemory>
        requires { FitTogether (parts_at latest self.now) }
        ensures { IfOk result (λ paths. paths ≡ filter (passes (λ q m. m.owner == session) (side_of latest self.now.metas)) (map.keys (side_of latest self.now.metas))) }
    {
        if session == 0 {
            self.picked(alloc, latest, &OwnedBy { session })
        } else {
            self.owned_by(alloc, latest, session)
        }
    }

    // The numbers of the sessions, ascending.
    pub(crate) fn session_ids(&self, alloc: Global, latest: bool) -> Result<Vec<u64>, NoMemory>
        ensures { IfOk result (λ ids. ids.items ≡ map.keys (side_of latest self.now.sessions)) }
    {
        keys(alloc, &self.sessions, latest)
    }

    // Whether a session is held by this origin.
    fn holds(&self, latest: bool, origin: &Origin) -> bool
        ensures { result ≡ is_held (side_of latest self.now.sessions) origin.now }
    {
        any_in(&self.sessions, latest, Holder::of(origin))
    }
}

/// The state under all layers, the open one last, or the one below them.
///
/// The look-ups that lend take no memory, and so does `holds`. `kids` costs the children of the path
/// and `owned` the nodes of the session, in either view and in the layers; `holds` at most the
/// sessions of the holder; `sessions` and `paths` the sessions and the paths in use, and so does
/// `owned` of no session.
#[derive(Drop)]
pub struct SideView<'a> {
    cells: &'a Cells,
    // whether the layers count
    latest: bool,
}

/// The state under all layers, the open one last.
pub type LatestView<'a> = SideView<'a>;

/// The state below all layers.
pub type CommittedView<'a> = SideView<'a>;

impl<'a> Model for SideView<'a> {
    ghost use Rattle.kp_model.specs.State.{State};
    ghost use Rattle.kp_model.specs.Codes.{state_code};
    ghost use Rattle.kp_cells.specs.Parts.{FitTogether};
    ghost use Rattle.kp_cells.specs.Sides.{parts_at, state_at};

    ghost Value = { State };

    ghost coded = { state_code };

    ghost view = { λ v. state_at v.latest v.cells.now };

    ghost invariant = { λ v. FitTogether (parts_at v.latest v.cells.now) };
}

impl View for SideView<'_> {
    ghost state = { λ v. v };

    #[tactic(auto, using(crate::proofs::Shown::meta_on))]
    fn meta(&self, path: &str) -> Option<&Meta> {
        self.cells.meta_at(self.latest, path)
    }

    #[tactic(auto, using(crate::proofs::Shown::content_on))]
    fn content(&self, path: &str) -> Option<&[u8]> {
        self.cells.content_at(self.latest, path)
    }

    #[tactic(auto, using(crate::proofs::Shown::acl_on))]
    fn acl(&self, path: &str) -> Option<&[Acl]> {
        self.cells.acl_at(self.latest, path)
    }

    #[tactic(auto, using(crate::proofs::Shown::sessions_on))]
    fn session(&self, id: u64) -> Option<&Session> {
        self.cells.session_at(self.latest, id)
    }

    #[tactic(auto, using(crate::proofs::Shown::sessions_on))]
    fn holds(&self, origin: &Origin) -> bool {
        self.cells.holds(self.latest, origin)
    }

    #[tactic(auto, using(crate::proofs::Shown::next_on))]
    fn next_session(&self) -> u64 {
        self.cells.next_at(self.latest)
    }

    #[tactic(auto, using(crate::proofs::Shown::kids_on))]
    fn kids(&self, alloc: Global, path: &str) -> Result<Paths, NoMemory> {
        names_of(alloc, &self.cells.children(alloc, self.latest, path)?)
    }

    #[tactic(auto, using(crate::proofs::Shown::owned_on))]
    fn owned(&self, alloc: Global, session: u64) -> Result<Paths, NoMemory> {
        self.cells.owned(alloc, self.latest, session)
    }

    #[tactic(auto, using(crate::proofs::Shown::sessions_on))]
    fn sessions(&self, alloc: Global) -> Result<Vec<u64>, NoMemory> {
        self.cells.session_ids(alloc, self.latest)
    }

    #[tactic(auto, using(crate::proofs::Shown::paths_on))]
    fn paths(&self, alloc: Global) -> Result<Paths, NoMemory> {
        self.cells.picked(alloc, self.latest, &Every {})
    }
}
