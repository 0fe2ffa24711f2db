ghost use Rattle.std.specs.Prelude.{ℕ, List, Option};
ghost use Rattle.kp_worker.specs.Outside.{Receives, arrived};

use std::sync::Wait;

/// A message, and the node that it came from.
#[derive(Drop)]
pub struct Arrived<M> {
    pub from: u64,
    pub mail: M,
}

/// The links to a node.
pub trait Inbox<M> {
    /// What was taken of the link from each node so far, where it tells.
    ghost taken: { Self → ℕ → Option (List M) };

    /// Takes the first message of a link, or None where none was found.
    fn take<R: Wait>(&mut self, rt: &R) -> Option<Arrived<M>>
        ensures { Receives (taken self.old) (taken self.new) (arrived result) };
}
