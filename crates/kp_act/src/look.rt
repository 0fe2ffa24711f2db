//! What the checks of the commands look at.

ghost use Rattle.std.specs.Prelude.{◌≡◌, IfOk, length, option_copied};
ghost use Rattle.kp_model.specs.State.{Nodes, meta_at, acl_at, children};

use kp_model::{Acl, Meta, NoMemory, View};
use std::alloc::Global;

/// Nodes that are looked at. The calls that lend take no memory.
pub trait Look {
    /// The nodes that the value stands for.
    ghost nodes: { Self → Nodes };

    /// The numbers of a node; None exactly where there is no such node.
    fn meta(&self, path: &str) -> Option<&Meta>
        ensures { option_copied result ≡ meta_at (nodes self.now) path.now };

    /// The access list of a node; None exactly where there is no such node.
    fn acl(&self, path: &str) -> Option<&[Acl]>
        ensures { option_copied result ≡ acl_at (nodes self.now) path.now };

    /// How many children a path has, also where they are more than are shown.
    fn brood(&self, alloc: Global, path: &str) -> Result<u64, NoMemory>
        ensures { IfOk result (λ count. count ≡ length (children (nodes self.now) path.now)) };
}

/// The nodes of a view.
#[derive(Drop)]
pub struct OfView<'a, V: View> {
    pub view: &'a V,
}

impl<V: View> Look for OfView<'_, V> {
    ghost nodes = { λ v. (V.state v.view.now).nodes };

    fn meta(&self, path: &str) -> Option<&Meta> {
        self.view.meta(path)
    }

    fn acl(&self, path: &str) -> Option<&[Acl]> {
        self.view.acl(path)
    }

    #[tactic(auto, using(crate::proofs::Acts::kids_counted))]
    fn brood(&self, alloc: Global, path: &str) -> Result<u64, NoMemory> {
        let names = self.view.kids(alloc, path)?;
        Ok(names.len() as u64)
    }
}
