// The connections of a node over sockets.
ghost use Rattle.kp_lines.specs.Tables.{outside_of};
ghost use Rattle.std.specs.Prelude.{◌≡◌, [], length, false};

use crate::port::{Nothing, SocketPort};
use crate::waking::{SocketTable, Waking};
use kp_io::{Draw, Failed};
use kp_lines::{Table, Tended};
use kp_reactor::Reactor;
use kp_worker::{Heard, Lines, Woken};
use std::alloc::Global;
use std::sync::Wait;

/// The connections of a node over sockets, at one reactor. A connection of which a piece was taken is told of again where more has
/// come; one that is over is told of once nothing is kept for it. The socket of one to which nothing
/// goes out any more is shut down, and it is told of.
#[derive(Drop)]
pub struct Sockets<D> {
    tended: Tended<SocketPort, Nothing, Waking<D>>,
}

impl<D: Draw> Sockets<D> {
    /// No connections, and those that will come at this reactor.
    pub fn new(alloc: Global, reactor: Reactor, draw: D) -> Sockets<D> {
        Sockets {
            tended: Tended {
                table: Table::new(alloc, Nothing),
                wakes: Waking::new(alloc, reactor, draw),
            },
        }
    }

    /// Lends the reactor.
    pub fn reactor(&self) -> &Reactor
        ensures { result.now ≡ self.now.tended.wakes.reactor }
    {
        self.tended.wakes.reactor()
    }
}

// Has a connection be told of again where it is ready.
fn tell_again<D: Draw>(table: &SocketTable, wakes: &mut Waking<D>, conn: u64)
    ensures { wakes.new.faults ≡ wakes.old.faults }
{
    if let Some(port) = table.port(conn) {
        wakes.again(port);
    }
}

// Shuts the socket of a connection down to which nothing goes out any more, so that the connection is told of.
fn shut_where_ended<D: Draw>(table: &SocketTable, wakes: &mut Waking<D>, conn: u64)
    ensures { wakes.new.faults ≡ wakes.old.faults }
{
    if let Some(port) = table.port(conn) {
        if port.has_end() {
            wakes.shut(port);
        }
    }
}

// A connection has this number from now on.
fn name<D: Draw>(table: &SocketTable, wakes: &mut Waking<D>, conn: u64)
    ensures { wakes.new.faults ≡ wakes.old.faults }
{
    if let Some(port) = table.port(conn) {
        wakes.name(port, conn);
    }
}

// The connection of this number is let go.
fn forget<D: Draw>(table: &SocketTable, wakes: &mut Waking<D>, conn: u64)
    ensures { wakes.new.faults ≡ wakes.old.faults }
{
    if let Some(port) = table.port(conn) {
        wakes.forget(port);
    }
}

impl<D: Draw> Lines for Sockets<D> {
    ghost sees = { λ s. outside_of false (λ p. []) (λ p. []) (λ n c. []) (λ n c. []) s.tended.table.slots s.tended.table.past (length s.tended.table.fresh.items) s.tended.wakes.faults };

    fn wait<R: Wait>(&mut self, rt: &R, most: u64) -> Result<Woken, Failed> {
        self.tended.wait(rt, most)
    }

    fn is_ready(&self, conn: u64) -> bool {
        self.tended.is_ready(conn)
    }

    fn take(&mut self, conn: u64) -> Heard {
        let heard = self.tended.take(conn);
        if let Heard::Bytes(_) = &heard {
            tell_again(&self.tended.table, &mut self.tended.wakes, conn);
        }
        heard
    }

    fn hand(&mut self, conn: u64, bytes: &[u8]) {
        self.tended.hand(conn, bytes);
        shut_where_ended(&self.tended.table, &mut self.tended.wakes, conn);
    }

    fn admit(&mut self, conn: u64) {
        forget(&self.tended.table, &mut self.tended.wakes, conn);
        self.tended.admit(conn);
        name(&self.tended.table, &mut self.tended.wakes, conn);
    }

    fn end(&mut self, conn: u64) {
        self.tended.end(conn);
        tell_again(&self.tended.table, &mut self.tended.wakes, conn);
    }

    fn close(&mut self, conn: u64) {
        forget(&self.tended.table, &mut self.tended.wakes, conn);
        self.tended.close(conn);
    }
}
