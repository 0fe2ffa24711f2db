ghost use Rattle.std.specs.Prelude.{ℕ, List};
ghost use Rattle.kp_worker.specs.declared.heard.Heard.{Heard};
ghost use Rattle.kp_lines.specs.Ports.{Leaves};

use crate::port::Port;

/// What is left of connections that were let go. For connections that tell nothing it is nothing.
pub trait Past<P: Port>: Drop {
    /// What those answered that had this number.
    ghost told: { Self → ℕ → List Heard };

    /// All bytes that were handed to those that had this number.
    ghost handed: { Self → ℕ → List ℕ };

    /// Takes a connection of this number, which is let go.
    fn keep(&mut self, conn: u64, port: P)
        ensures { Leaves P.tells (told self.old) (told self.new) (handed self.old) (handed self.new) conn (P.told port) (P.handed port) };
}
