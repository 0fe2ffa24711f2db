//! The parts that are kept by path, and the paths that none of them uses any more.
ghost use Rattle.std.specs.Prelude.{◌≡◌, ℕ, List, [], ◌∷◌, IsSome, OnOk, OnErr};
ghost use Rattle.std.specs.FinMap as map;
ghost use Rattle.kp_cells.specs.Naming.{IsNaming};
ghost use Rattle.kp_cells.specs.Staging.{AreOpen, staged_part};
ghost use Rattle.kp_cells.specs.Traced.{left, uses};

use crate::groups::ByOwner;
use crate::names::Names;
use kp_layers::{GroupedLayers, Layers};
use kp_model::{Acls, Bytes, Meta, NoMemory};

/// What is known of the nodes, part by part, under the numbers of their paths.
#[derive(Drop)]
pub struct Nodes {
    pub metas: Layers<Meta>,
    pub contents: Layers<Bytes>,
    pub acls: Layers<Acls>,
    pub children: Layers<()>,
    pub owners: GroupedLayers<u64, ByOwner>,
}

/// A write of one part: the value that it gets, or None where it loses it.
#[derive(Drop)]
pub enum Part {
    Meta(Option<Meta>),
    Content(Option<Bytes>),
    Acl(Option<Acls>),
    Child(Option<()>),
    Owner(Option<u64>),
}

impl Nodes {
    /// Adds the write of a part at the number. After an error nothing has changed.
    pub fn stage(&mut self, number: u64, part: Part) -> Result<(), NoMemory>
        requires { AreOpen self.old }
        ensures ok { OnOk result (self.new ≡ staged_part self.old number part) }
        ensures err { OnErr result (self.new ≡ self.old) }
    {
        match part {
            Part::Meta(value) => self.metas.stage(number, value)?,
            Part::Content(value) => self.contents.stage(number, value)?,
            Part::Acl(value) => self.acls.stage(number, value)?,
            Part::Child(value) => self.children.stage(number, value)?,
            Part::Owner(value) => self.owners.stage(number, value)?,
        }
        Ok(())
    }

    /// Whether a part has a value or a write at the number.
    fn uses(&self, number: u64) -> bool
        ensures { result ≡ uses self.now.metas self.now.contents self.now.acls self.now.children self.now.owners number }
    {
        self.metas.is_used(number)
            || self.contents.is_used(number)
            || self.acls.is_used(number)
            || self.children.is_used(number)
            || self.owners.is_used(number)
    }
}

/// Takes the number from its path, unless a part uses it.
pub fn release_one(names: &mut Names, nodes: &Nodes, number: u64)
    requires { IsNaming names.old }
    ensures numbers { (p : List ℕ) → map.get names.new.numbers p ≡ left (uses nodes.now.metas nodes.now.contents nodes.now.acls nodes.now.children nodes.now.owners) (number ∷ []) (map.get names.old.numbers p) }
    ensures naming { IsNaming names.new }
{
    if !nodes.uses(number) {
        names.forget(number);
    }
}

/// Takes each of the numbers from its path, unless a part uses it.
pub fn release(names: &mut Names, nodes: &Nodes, numbers: &[u64])
    requires { IsNaming names.old }
    ensures numbers { (p : List ℕ) → map.get names.new.numbers p ≡ left (uses nodes.now.metas nodes.now.contents nodes.now.acls nodes.now.children nodes.now.owners) numbers.now (map.get names.old.numbers p) }
    ensures naming { IsNaming names.new }
{
    for number in numbers {
        release_one(names, nodes, *number);
    }
}
