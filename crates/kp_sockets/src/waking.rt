// What waits for the connections of a node.
ghost use Rattle.std.specs.Prelude.{◌≡◌, ◌≤◌, ◌+◌, [], ℕ, None, false, nat_eq, length};
ghost use Rattle.std.specs.HashMap.{get};
ghost use Rattle.kp_io.specs.Faults.{HasCause};
ghost use Rattle.kp_lines.specs.Tables.{state_at};
ghost use Rattle.kp_reactor.specs.Naming.{OthersStay, renamed};
ghost use Rattle.kp_sockets.specs.Pieces.{one_where};

use crate::port::{Nothing, SocketPort};
use kp_io::{Draw, Failed};
use kp_lines::{Port, Table, Wakes};
use kp_reactor::{Arrival, Reactor, WaitFail};
use kp_worker::Woken;
use std::alloc::Global;
use std::sync::Wait;

/// The most new connections that a wait takes in.
const MOST_NEW: usize = 256;

/// The most connections that a wait tells of.
const MOST_TOLD: usize = 1_024;

/// The connections of a node over sockets.
pub type SocketTable = Table<SocketPort, Nothing>;

/// A reactor, and where the draws of new connections come from.
#[derive(Drop)]
pub struct Waking<D> {
    alloc: Global,
    reactor: Reactor,
    draw: D,
    faults: u64,
}

// Nobody is ready.
fn nobody(alloc: Global) -> Woken
    ensures { result.draws.items ≡ [] }
{
    Woken {
        ready: Vec::new(alloc),
        free: Vec::new(alloc),
        draws: Vec::new(alloc),
    }
}

// Lets go out what is kept for a connection, and lists it where nothing is kept any more.
fn flow_one(table: &mut SocketTable, conn: u64, free: &mut Vec<u64>)
    ensures state { (c : ℕ) → state_at table.new.slots c ≡ state_at table.old.slots c }
    ensures fresh { table.new.fresh ≡ table.old.fresh }
{
    if table.flow(conn) {
        let _ = free.push(conn);
    }
}

// The same of each of these connections.
fn flow_all(table: &mut SocketTable, told: &[u64], free: &mut Vec<u64>)
    ensures state { (c : ℕ) → state_at table.new.slots c ≡ state_at table.old.slots c }
    ensures fresh { table.new.fresh ≡ table.old.fresh }
{
    for conn in told {
        flow_one(table, *conn, free);
    }
}

// Whether nothing is kept for a connection.
fn is_free(table: &SocketTable, conn: u64) -> bool {
    match table.port(conn) {
        Some(port) => port.is_free(),
        None => false,
    }
}

// Keeps in a list those connections for which nothing is kept.
fn keep_free(table: &SocketTable, told: &mut Vec<u64>) {
    told.retain(|conn| is_free(table, *conn));
}

impl<D: Draw> Waking<D> {
    /// What waits for the connections of a node at this reactor.
    pub fn new(alloc: Global, reactor: Reactor, draw: D) -> Waking<D>
        ensures reactor { result.reactor ≡ reactor }
        ensures faults { result.faults ≡ 0 }
    {
        Waking {
            alloc,
            reactor,
            draw,
            faults: 0,
        }
    }

    /// Lends the reactor.
    pub fn reactor(&self) -> &Reactor
        ensures { result.now ≡ self.now.reactor }
    {
        &self.reactor
    }

    // Takes a connection that came into the table. The answer is whether it did.
    fn seat(&mut self, table: &mut SocketTable, arrival: Arrival) -> bool
        ensures faults { self.new.faults ≡ self.old.faults }
        ensures state { (c : ℕ) → state_at table.new.slots c ≡ state_at table.old.slots c }
        ensures more { length table.old.fresh.items + one_where result ≤ length table.new.fresh.items }
        ensures gone { result ≡ false → get nat_eq self.new.reactor.tokens.names arrival.token ≡ None }
        ensures others { OthersStay self.old.reactor.tokens.names self.new.reactor.tokens.names arrival.token }
    {
        let token = arrival.token;
        if let Ok(port) = SocketPort::new(self.alloc, arrival) {
            if table.accept(port) {
                return true;
            }
        }
        self.reactor.close(token);
        false
    }

    // Takes in the oldest connection that waits at the listener, with a draw for it. The answer is whether more may wait.
    fn take_one(&mut self, table: &mut SocketTable, draws: &mut Vec<[u8; 16]>) -> bool
        requires { length draws.old.items ≤ length table.old.fresh.items }
        ensures faults { self.new.faults ≡ self.old.faults }
        ensures state { (c : ℕ) → state_at table.new.slots c ≡ state_at table.old.slots c }
        ensures waits { length draws.new.items ≤ length table.new.fresh.items }
    {
        if draws.reserve(1).is_err() {
            return false;
        }
        match self.reactor.accept() {
            Ok(Some(arrival)) => {
                let came = self.seat(table, arrival);
                if came {
                    draws.push_reserved(self.draw.draw());
                }
                came
            }
            Ok(None) | Err(_) => false,
        }
    }

    // Takes in those that wait at the listener, with a draw for each.
    fn take_in(&mut self, table: &mut SocketTable) -> Vec<[u8; 16]>
        ensures faults { self.new.faults ≡ self.old.faults }
        ensures state { (c : ℕ) → state_at table.new.slots c ≡ state_at table.old.slots c }
        ensures waits { length result.items ≤ length table.new.fresh.items }
    {
        let mut draws = Vec::new(self.alloc);
        for _ in 0..MOST_NEW {
            if !self.take_one(table, &mut draws) {
                return draws;
            }
        }
        draws
    }

    // Waits at the reactor. Where there was no memory nothing is told of, and the system keeps what is ready.
    fn told_of(&mut self, most: u64) -> Result<Vec<u64>, Failed>
        ensures cause { HasCause self.old.faults self.new.faults result }
    {
        match self.reactor.wait(most) {
            Ok(told) => Ok(told),
            Err(WaitFail::NoMemory) => Ok(Vec::new(self.alloc)),
            Err(WaitFail::Fault) => {
                self.faults = self.faults.saturating_add(1);
                Err(Failed)
            }
        }
    }

    /// Tells of this connection again where it is ready.
    pub fn again(&mut self, port: &SocketPort)
        ensures faults { self.new.faults ≡ self.old.faults }
        ensures tokens { self.new.reactor.tokens ≡ self.old.reactor.tokens }
    {
        let _ = self.reactor.again(port.token(), port.socket());
    }

    /// Shuts the socket of a connection down, so that it is told of.
    pub fn shut(&mut self, port: &SocketPort)
        ensures faults { self.new.faults ≡ self.old.faults }
        ensures tokens { self.new.reactor.tokens ≡ self.old.reactor.tokens }
    {
        let _ = self.reactor.shut(port.token(), port.socket());
    }

    /// The connection has this number from now on.
    pub fn name(&mut self, port: &SocketPort, conn: u64)
        ensures faults { self.new.faults ≡ self.old.faults }
        ensures at { get nat_eq self.new.reactor.tokens.names port.now.token ≡ renamed (get nat_eq self.old.reactor.tokens.names port.now.token) conn }
        ensures others { OthersStay self.old.reactor.tokens.names self.new.reactor.tokens.names port.now.token }
    {
        self.reactor.name(port.token(), conn);
        self.again(port);
    }

    /// The connection is let go.
    pub fn forget(&mut self, port: &SocketPort)
        ensures faults { self.new.faults ≡ self.old.faults }
        ensures at { get nat_eq self.new.reactor.tokens.names port.now.token ≡ None }
        ensures others { OthersStay self.old.reactor.tokens.names self.new.reactor.tokens.names port.now.token }
    {
        self.reactor.close(port.token());
    }
}

impl<D: Draw> Wakes<SocketPort, Nothing> for Waking<D> {
    ghost faults = { λ w. w.faults };

    fn wait<R: Wait>(
        &mut self,
        _rt: &R,
        table: &mut SocketTable,
        most: u64,
    ) -> Result<Woken, Failed> {
        let Ok(mut free) = Vec::with_capacity(self.alloc, MOST_TOLD) else {
            return Ok(nobody(self.alloc));
        };
        let mut ready = self.told_of(most)?;
        flow_all(table, ready.as_slice(), &mut free);
        keep_free(table, &mut ready);
        let draws = self.take_in(table);
        Ok(Woken { ready, free, draws })
    }
}
