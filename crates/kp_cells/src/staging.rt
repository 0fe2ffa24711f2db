//! Writes of the open layer.
ghost use Rattle.std.specs.Prelude.{◌≡◌, ◌==◌, false, None, OnOk, OnErr, IsTrue};
ghost use Rattle.std.specs.FinMap as map;
ghost use Rattle.std.specs.Option.{option_map_or};
ghost use Rattle.std.specs.Str.{bytes_eq};
ghost use Rattle.kp_layers.specs.Layering.{latest_of};
ghost use Rattle.kp_model.specs.Path.{is_well_formed, root};
ghost use Rattle.kp_cells.specs.Overlays.{IsOpen, with_meta, with_content, with_acl, with_child, with_owned, with_owner, with_session, with_next};
ghost use Rattle.kp_cells.specs.Staging.{with_part};

use crate::cells::Cells;
use crate::looks::latest_at;
use crate::nodes::{Part, release_one};
use kp_model::{Acls, Bytes, Meta, NoMemory, Session};

impl Cells {
    // Adds the write of a part to the open layer. After an error nothing has changed, here and in the other
    // staging calls.
    pub(crate) fn stage_part(&mut self, path: &str, part: Part) -> Result<(), NoMemory>
        requires open { IsOpen self.old }
        ensures ok { OnOk result (self.new ≡ with_part self.old path.now part) }
        ensures err { OnErr result (self.new ≡ self.old) }
    {
        self.trail.make_room()?;
        let number = self.names.give(path)?;
        if self.nodes.stage(number, part).is_err() {
            release_one(&mut self.names, &self.nodes, number);
            return Err(NoMemory);
        }
        self.trail.push(number);
        Ok(())
    }

    /// Sets what is shown of the node at the path, or with None takes it away. After an error
    /// nothing has changed, here and in the other staging calls.
    pub fn stage_meta(&mut self, path: &str, meta: Option<Meta>) -> Result<(), NoMemory>
        requires open { IsOpen self.old }
        requires path { IsTrue (is_well_formed path.now) }
        ensures ok { OnOk result (self.new ≡ with_meta self.old path.now meta) }
        ensures err { OnErr result (self.new ≡ self.old) }
    {
        self.stage_part(path, Part::Meta(meta))
    }

    /// Sets the data of the node at the path, or with None takes it away.
    pub fn stage_content(&mut self, path: &str, content: Option<Bytes>) -> Result<(), NoMemory>
        requires open { IsOpen self.old }
        requires path { IsTrue (is_well_formed path.now) }
        ensures ok { OnOk result (self.new ≡ with_content self.old path.now content) }
        ensures err { OnErr result (self.new ≡ self.old) }
    {
        self.stage_part(path, Part::Content(content))
    }

    /// Sets the access list of the node at the path, or with None takes it away.
    pub fn stage_acl(&mut self, path: &str, acl: Option<Acls>) -> Result<(), NoMemory>
        requires open { IsOpen self.old }
        requires path { IsTrue (is_well_formed path.now) }
        ensures ok { OnOk result (self.new ≡ with_acl self.old path.now acl) }
        ensures err { OnErr result (self.new ≡ self.old) }
    {
        self.stage_part(path, Part::Acl(acl))
    }

    /// Sets whether the path is among its parent's children.
    pub fn stage_child(&mut self, path: &str, there: bool) -> Result<(), NoMemory>
        requires open { IsOpen self.old }
        requires path { IsTrue (is_well_formed path.now) }
        requires inner { bytes_eq path.now root ≡ false }
        ensures ok { OnOk result (self.new ≡ with_child self.old path.now there) }
        ensures err { OnErr result (self.new ≡ self.old) }
    {
        if there {
            self.stage_part(path, Part::Child(Some(())))
        } else {
            self.stage_part(path, Part::Child(None))
        }
    }

    // Whether the session owns the path under all layers.
    fn is_owner(&self, path: &str, session: u64) -> bool
        ensures { result ≡ option_map_or (λ n. n == session) (map.get (latest_of self.now.owners) path.now) false }
    {
        match latest_at(&self.names, &self.nodes.owners, path) {
            Some(owner) => *owner == session,
            None => false,
        }
    }

    /// Sets whether the session owns the path. A session that comes to own it takes the place of
    /// another owner; one that gives up what it doesn't own changes nothing.
    #[tactic(auto, unfolding(crate::specs::Overlays::with_owned))]
    pub fn stage_owned(&mut self, path: &str, session: u64, there: bool) -> Result<(), NoMemory>
        requires open { IsOpen self.old }
        requires path { IsTrue (is_well_formed path.now) }
        ensures ok { OnOk result (self.new ≡ with_owned self.old path.now session there) }
        ensures err { OnErr result (self.new ≡ self.old) }
    {
        if there {
            self.stage_part(path, Part::Owner(Some(session)))
        } else if self.is_owner(path, session) {
            self.stage_part(path, Part::Owner(None))
        } else {
            Ok(())
        }
    }

    /// Sets the session of the number, or with None takes it away.
    pub fn stage_session(&mut self, id: u64, session: Option<Session>) -> Result<(), NoMemory>
        requires { IsOpen self.old }
        ensures ok { OnOk result (self.new ≡ with_session self.old id session) }
        ensures err { OnErr result (self.new ≡ self.old) }
    {
        self.sessions.stage(id, session)?;
        Ok(())
    }

    /// Sets the number that the next session gets.
    pub fn stage_next(&mut self, next: u64) -> Result<(), NoMemory>
        requires { IsOpen self.old }
        ensures ok { OnOk result (self.new ≡ with_next self.old next) }
        ensures err { OnErr result (self.new ≡ self.old) }
    {
        self.next.stage(0, Some(next))?;
        Ok(())
    }
}
