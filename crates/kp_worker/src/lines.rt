ghost use Rattle.std.specs.Prelude.{ℕ, Bool, ◌≡◌, ◌<◌, ◌≤◌, ◌+◌, [], ◌∷◌, length, IfOk, true};
ghost use Rattle.kp_io.specs.Faults.{HasCause};
ghost use Rattle.kp_worker.specs.declared.heard.Heard.TheVariants.{End};
ghost use Rattle.kp_worker.specs.declared.heard.LineState.TheVariants.{Over};
ghost use Rattle.kp_worker.specs.Outside.{HeardWithin, Outside, Stays, Tells, ended, is_there, opened, shut};

use crate::heard::{Heard, Woken};
use kp_io::Failed;
use std::sync::Wait;

/// All connections of a node, each under the number that the node gave it.
pub trait Lines {
    /// What each connection told, took and is.
    ghost sees: { Self → Outside };

    /// Waits until something is ready, at most this many milliseconds.
    ///
    /// `Failed` comes exactly where it raises the count of faults.
    fn wait<R: Wait>(&mut self, rt: &R, most: u64) -> Result<Woken, Failed>
        ensures tells { Tells (sees self.old) (sees self.new) [] [] }
        ensures state { (c : ℕ) → (sees self.new).state c ≡ (sees self.old).state c }
        ensures waits { IfOk result (λ woken. length woken.draws.items ≤ (sees self.new).waits) }
        ensures cause { HasCause (sees self.old).faults (sees self.new).faults result };

    /// Whether a piece may be taken of the connection and bytes be handed to it now. The node has it then.
    fn is_ready(&self, conn: u64) -> bool
        ensures { result ≡ true → is_there ((sees self.now).state conn) ≡ true };

    /// Takes a piece of a connection that the node has.
    fn take(&mut self, conn: u64) -> Heard
        requires { is_there ((sees self.old).state conn) ≡ true }
        ensures bound { HeardWithin result }
        ensures tells { Tells (sees self.old) (sees self.new) ((conn, result) ∷ []) [] }
        ensures over { (sees self.old).state conn ≡ Over → result ≡ End }
        ensures stays { Stays (sees self.old) (sees self.new) };

    /// Hands bytes out to a connection that the node has. What its sink doesn't take now is kept for it.
    fn hand(&mut self, conn: u64, bytes: &[u8])
        requires { is_there ((sees self.old).state conn) ≡ true }
        ensures tells { Tells (sees self.old) (sees self.new) [] ((conn, bytes.now) ∷ []) }
        ensures stays { Stays (sees self.old) (sees self.new) };

    /// Gives the oldest new connection this number.
    fn admit(&mut self, conn: u64)
        requires { 0 < (sees self.old).waits }
        ensures tells { Tells (sees self.old) (sees self.new) [] [] }
        ensures state { (c : ℕ) → (sees self.new).state c ≡ opened c ((sees self.old).state c) conn }
        ensures waits { (sees self.new).waits + 1 ≡ (sees self.old).waits }
        ensures faults { (sees self.new).faults ≡ (sees self.old).faults };

    /// From now on the stream of this connection answers End.
    fn end(&mut self, conn: u64)
        ensures tells { Tells (sees self.old) (sees self.new) [] [] }
        ensures state { (c : ℕ) → (sees self.new).state c ≡ ended c ((sees self.old).state c) conn }
        ensures waits { (sees self.new).waits ≡ (sees self.old).waits }
        ensures faults { (sees self.new).faults ≡ (sees self.old).faults };

    /// Lets a connection go.
    fn close(&mut self, conn: u64)
        ensures tells { Tells (sees self.old) (sees self.new) [] [] }
        ensures state { (c : ℕ) → (sees self.new).state c ≡ shut c ((sees self.old).state c) conn }
        ensures waits { (sees self.new).waits ≡ (sees self.old).waits }
        ensures faults { (sees self.new).faults ≡ (sees self.old).faults };
}
