//! Which nodes a listing takes.
ghost use Rattle.std.specs.Prelude.{◌≡◌, ℕ, Bool, List, true, ◌==◌};
ghost use Rattle.kp_model.specs.State.{is_child};
ghost use Rattle.kp_cells.specs.Listed.{Test};

use kp_model::Meta;

/// A test of nodes by their paths and what is shown of them.
pub trait Pick {
    /// The test.
    ghost test: { Self → Test };

    /// Whether the node passes.
    fn takes(&self, path: &str, meta: &Meta) -> bool
        ensures { result ≡ test self.now path.now meta.now };
}

/// Every node.
#[derive(Drop)]
pub struct Every {}

impl Pick for Every {
    ghost test = { λ p q m. true };

    fn takes(&self, _path: &str, _meta: &Meta) -> bool {
        true
    }
}

/// The children of a path.
#[derive(Drop)]
pub struct ChildOf<'a> {
    pub parent: &'a str,
}

impl Pick for ChildOf<'_> {
    ghost test = { λ p q m. is_child p.parent.now q };

    #[tactic(auto, unfolding(kp_model::specs::State::is_child))]
    fn takes(&self, path: &str, _meta: &Meta) -> bool {
        match kp_path::parent(path) {
            Some(parent) => parent == self.parent,
            None => false,
        }
    }
}

/// The nodes of an owner.
#[derive(Drop)]
pub struct OwnedBy {
    pub session: u64,
}

impl Pick for OwnedBy {
    ghost test = { λ p q m. m.owner == p.session };

    fn takes(&self, _path: &str, meta: &Meta) -> bool {
        meta.owner == self.session
    }
}
