// The connections of a table as a worker of a node sees them.
ghost use Rattle.std.specs.Prelude.{◌≡◌, ◌≤◌, ℕ, [], IfOk, length};
ghost use Rattle.kp_io.specs.Faults.{HasCause};
ghost use Rattle.kp_worker.specs.Outside.{Tells};
ghost use Rattle.kp_lines.specs.Tables.{outside_of, state_at};

use crate::past::Past;
use crate::port::Port;
use crate::table::Table;
use kp_io::Failed;
use kp_worker::{Heard, Lines, Woken};
use std::sync::Wait;

/// What waits until a connection of a table is ready, and takes new ones in.
pub trait Wakes<P: Port, Q: Past<P>> {
    /// How often waiting has failed. It never falls, and stands still at the end of a `u64`.
    ghost faults: { Self → ℕ };

    /// Waits until something is ready, at most this many milliseconds. It may take in new connections, and let go out what is kept.
    ///
    /// `Failed` comes exactly where it raises the count of faults.
    fn wait<R: Wait>(&mut self, rt: &R, table: &mut Table<P, Q>, most: u64) -> Result<Woken, Failed>
        ensures tells { Tells (outside_of P.tells P.told P.handed Q.told Q.handed table.old.slots table.old.past 0 0) (outside_of P.tells P.told P.handed Q.told Q.handed table.new.slots table.new.past 0 0) [] [] }
        ensures state { (c : ℕ) → state_at table.new.slots c ≡ state_at table.old.slots c }
        ensures waits { IfOk result (λ woken. length woken.draws.items ≤ length table.new.fresh.items) }
        ensures cause { HasCause (faults self.old) (faults self.new) result };
}

/// A table, and what waits for its connections.
#[derive(Drop)]
pub struct Tended<P: Port, Q, W> {
    pub table: Table<P, Q>,
    pub wakes: W,
}

impl<P: Port, Q: Past<P>, W: Wakes<P, Q>> Lines for Tended<P, Q, W> {
    ghost sees = { λ t. outside_of P.tells P.told P.handed Q.told Q.handed t.table.slots t.table.past (length t.table.fresh.items) (W.faults t.wakes) };

    fn wait<R: Wait>(&mut self, rt: &R, most: u64) -> Result<Woken, Failed> {
        self.wakes.wait(rt, &mut self.table, most)
    }

    fn is_ready(&self, conn: u64) -> bool {
        self.table.is_ready(conn)
    }

    fn take(&mut self, conn: u64) -> Heard {
        self.table.take(conn)
    }

    fn hand(&mut self, conn: u64, bytes: &[u8]) {
        self.table.hand(conn, bytes);
    }

    fn admit(&mut self, conn: u64) {
        self.table.admit(conn);
    }

    fn end(&mut self, conn: u64) {
        self.table.end(conn);
    }

    fn close(&mut self, conn: u64) {
        self.table.close(conn);
    }
}
