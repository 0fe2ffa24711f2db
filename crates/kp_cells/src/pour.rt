//! A state that is poured into the cells, part by part.
ghost use Rattle.std.specs.Prelude.{◌≡◌, min, length, false, [], None, Some, IfOk, OnOk, OnErr, IsSome};
ghost use Rattle.std.specs.FinMap as map;
ghost use Rattle.std.specs.Option.{option_map};
ghost use Rattle.std.specs.Str.{bytes_eq};
ghost use Rattle.kp_model.specs.Limits.{last_count};
ghost use Rattle.kp_model.specs.Path.{root, parent};
ghost use Rattle.kp_model.specs.State.{State, children, meta_of};
ghost use Rattle.kp_model.specs.Poured.{node_of};
ghost use Rattle.kp_cells.specs.Overlays.{IsOpen, IsClosed, IsSettled, all_begun, all_abandoned, taken_in, committed_parts, committed_state, with_session};
ghost use Rattle.kp_cells.specs.Parts.{FitTogether};
ghost use Rattle.kp_cells.specs.Staging.{with_part};
ghost use Rattle.kp_cells.specs.Pouring.{one_more, grown, with_shown, with_place, owner_of as owner_in, with_parts};

use crate::cells::Cells;
use crate::change::copied_acl;
use crate::nodes::Part;
use kp_model::limits::{LAST_COUNT, LONGEST_FIELD};
use kp_model::{Acl, Acls, Bytes, Fill, Meta, NoMemory, Session};

// The count that is shown of so many children.
fn held(count: usize) -> u32
    ensures { result ≡ min count last_count }
{
    if count < LAST_COUNT as usize {
        count as u32
    } else {
        LAST_COUNT
    }
}

// What is shown of a node with one child more.
fn with_one_more(meta: &Meta) -> Meta
    ensures { result ≡ one_more meta.now }
{
    let mut more = *meta;
    if more.kids < LAST_COUNT {
        more.kids += 1;
    } else {
        more.kids = LAST_COUNT;
    }
    more
}

// What is shown of a node of this length with so many children.
fn measured(meta: &Meta, len: u32, kids: u32) -> Meta
    ensures { result ≡ record meta.now { len = len; kids = kids } }
{
    let mut shown = *meta;
    shown.len = len;
    shown.kids = kids;
    shown
}

// The session that owns the node, if there is one.
fn owner_of(meta: &Meta) -> Option<u64>
    ensures { result ≡ owner_in meta.now }
{
    if meta.owner == 0 {
        None
    } else {
        Some(meta.owner)
    }
}

// The length of data, where a field of 32 bits holds it.
fn length_of(content: &[u8]) -> Result<u32, NoMemory>
    ensures { IfOk result (λ len. len ≡ length content.now) }
{
    let len = content.len();
    if len > LONGEST_FIELD {
        return Err(NoMemory);
    }
    Ok(len as u32)
}

impl Cells {
    // Makes the open layer part of the committed state. The applied index stays.
    pub(crate) fn take_in(&mut self)
        requires { IsOpen self.old }
        ensures { self.new ≡ taken_in self.old }
    {
        let applied = self.applied;
        self.seal();
        let _ = self.commit_front();
        self.applied = applied;
    }

    // How many children are shown of the path, whether it has a node or not. Costs the listing of its children where
    // it has none.
    fn kids_of(&self, path: &str) -> Result<u32, NoMemory>
        requires { FitTogether (committed_parts self.now) }
        ensures { IfOk result (λ kids. kids ≡ min (length (children (committed_state self.now).nodes path.now)) last_count) }
    {
        match self.committed_meta(path) {
            Some(meta) => Ok(meta.kids),
            None => self.count_kids(path),
        }
    }

    // How many children of the path are shown.
    fn count_kids(&self, path: &str) -> Result<u32, NoMemory>
        ensures { IfOk result (λ kids. kids ≡ min (length (children (committed_state self.now).nodes path.now)) last_count) }
    {
        let list = self.children(self.alloc, false, path)?;
        let count = held(list.len());
        drop(list);
        Ok(count)
    }

    // What is shown of a node with one child more, where there is one.
    fn one_more_at(&self, path: &str) -> Option<Meta>
        ensures { result ≡ option_map one_more (map.get self.now.metas.base path.now) }
    {
        match self.committed_meta(path) {
            Some(meta) => Some(with_one_more(meta)),
            None => None,
        }
    }

    // What is shown of the parent behind the pouring of a node, where its path is new and has a parent.
    fn grown_parent(&self, path: &str) -> Option<Meta>
        ensures { result ≡ grown self.now.metas.base path.now }
    {
        if self.committed_meta(path).is_some() {
            return None;
        }
        match kp_path::parent(path) {
            Some(above) => self.one_more_at(above),
            None => None,
        }
    }

    // Stages what is shown of the parent, where that is told.
    fn stage_parent(&mut self, path: &str, up: Option<Meta>) -> Result<(), NoMemory>
        requires open { IsOpen self.old }
        requires inner { IsSome up → bytes_eq path.now root ≡ false }
        ensures staged { OnOk result (self.new ≡ with_shown self.old (parent path.now) up) }
        ensures beneath { all_begun self.new ≡ all_begun self.old }
        ensures open { IsOpen self.new }
    {
        match (kp_path::parent(path), up) {
            (Some(above), Some(meta)) => self.stage_part(above, Part::Meta(Some(meta))),
            _ => Ok(()),
        }
    }

    // Stages that the path is among its parent's children, unless it is the root.
    fn stage_place(&mut self, path: &str) -> Result<(), NoMemory>
        requires open { IsOpen self.old }
        ensures staged { OnOk result (self.new ≡ with_place self.old path.now) }
        ensures beneath { all_begun self.new ≡ all_begun self.old }
        ensures open { IsOpen self.new }
    {
        if path == "/" {
            Ok(())
        } else {
            self.stage_part(path, Part::Child(Some(())))
        }
    }

    // Stages one part.
    fn stage_one(&mut self, path: &str, part: Part) -> Result<(), NoMemory>
        requires open { IsOpen self.old }
        ensures staged { OnOk result (self.new ≡ with_part self.old path.now part) }
        ensures beneath { all_begun self.new ≡ all_begun self.old }
        ensures open { IsOpen self.new }
    {
        self.stage_part(path, part)
    }

    // Stages all parts of a node, and what is shown of its parent, where that is told. Without memory a part of the
    // writes is staged.
    fn stage_node(
        &mut self,
        path: &str,
        up: Option<Meta>,
        meta: Meta,
        content: Bytes,
        acl: Acls,
    ) -> Result<(), NoMemory>
        requires open { IsOpen self.old }
        requires inner { IsSome up → bytes_eq path.now root ≡ false }
        ensures staged { OnOk result (self.new ≡ with_parts self.old path.now up meta content acl) }
        ensures beneath { all_begun self.new ≡ all_begun self.old }
        ensures open { IsOpen self.new }
    {
        self.stage_parent(path, up)?;
        self.stage_one(path, Part::Meta(Some(meta)))?;
        self.stage_one(path, Part::Content(Some(content)))?;
        self.stage_one(path, Part::Acl(Some(acl)))?;
        self.stage_place(path)?;
        self.stage_one(path, Part::Owner(owner_of(&meta)))
    }

    // Makes all parts of a node part of the committed state, and what is shown of its parent.
    fn put_node(
        &mut self,
        path: &str,
        up: Option<Meta>,
        meta: Meta,
        content: Bytes,
        acl: Acls,
    ) -> Result<(), NoMemory>
        requires bare { all_abandoned self.old ≡ self.old }
        requires inner { IsSome up → bytes_eq path.now root ≡ false }
        ensures ok { OnOk result (self.new ≡ taken_in (with_parts (all_begun self.old) path.now up meta content acl)) }
        ensures err { OnErr result (self.new ≡ self.old) }
    {
        self.begin()?;
        if self.stage_node(path, up, meta, content, acl).is_err() {
            self.abandon();
            return Err(NoMemory);
        }
        self.take_in();
        Ok(())
    }

    // Makes a session part of the committed state.
    fn put_session(&mut self, id: u64, session: Session) -> Result<(), NoMemory>
        requires bare { all_abandoned self.old ≡ self.old }
        ensures ok { OnOk result (self.new ≡ taken_in (with_session (all_begun self.old) id (Some session))) }
        ensures err { OnErr result (self.new ≡ self.old) }
    {
        self.begin()?;
        if self.stage_session(id, Some(session)).is_err() {
            self.abandon();
            return Err(NoMemory);
        }
        self.take_in();
        Ok(())
    }

    // Gives the committed state another index and another next session number. Takes no memory.
    fn put_numbers(&mut self, applied: u64, next: u64)
        requires { IsSome (map.get self.old.next.base 0) }
        ensures { self.new ≡ record self.old { next = record self.old.next { base = map.insert self.old.next.base 0 next }; applied = applied } }
    {
        self.next.replace_base(0, next);
        self.applied = applied;
    }

    // What is shown of a node that is poured in: its length, and the children that it has by then.
    fn shown_of(&self, path: &str, content: &[u8], meta: &Meta) -> Result<Meta, NoMemory>
        requires { FitTogether (committed_parts self.now) }
        ensures { IfOk result (λ shown. shown ≡ meta_of (length (children (committed_state self.now).nodes path.now)) (node_of content.now [] meta.now)) }
    {
        let len = length_of(content)?;
        let kids = self.kids_of(path)?;
        Ok(measured(meta, len, kids))
    }

    // Makes a node part of the committed state.
    fn pour_node(
        &mut self,
        path: &str,
        content: &[u8],
        acl: &[Acl],
        meta: &Meta,
    ) -> Result<(), NoMemory>
        requires { IsSettled self.old }
        ensures ok { OnOk result (self.new ≡ taken_in (with_parts (all_begun self.old) path.now (grown self.old.metas.base path.now) (meta_of (length (children (committed_state self.old).nodes path.now)) (node_of content.now acl.now meta.now)) content.now acl.now)) }
        ensures err { OnErr result (self.new ≡ self.old) }
    {
        let shown = self.shown_of(path, content, meta)?;
        let up = self.grown_parent(path);
        let bytes = Bytes::from_vec(Vec::from_slice(self.alloc, content)?);
        let list = copied_acl(self.alloc, acl)?;
        self.put_node(path, up, shown, bytes, list)
    }
}

impl Fill for Cells {
    ghost state = { committed_state };

    ghost takes = { IsSettled };

    fn start(&mut self, applied: u64, next_session: u64) {
        self.put_numbers(applied, next_session);
    }

    fn session(&mut self, id: u64, session: &Session) -> Result<(), NoMemory> {
        let copy = session.copy(self.alloc)?;
        self.put_session(id, copy)
    }

    fn node(
        &mut self,
        path: &str,
        content: &[u8],
        acl: &[Acl],
        meta: &Meta,
    ) -> Result<(), NoMemory> {
        self.pour_node(path, content, acl, meta)
    }
}
