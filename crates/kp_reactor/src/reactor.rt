// The poll of a worker: its listener, its waker, and its lines.
ghost use Rattle.std.specs.Prelude.{◌≡◌, ◌≤◌, ◌<◌, ◌+◌, ◌++◌, [], ℕ, None, nat_eq, length, IfOk, vec_capacity};
ghost use Rattle.std.specs.HashMap.{get};
ghost use Rattle.mio.specs.Events.{items};
ghost use Rattle.kp_io.specs.Faults.{HasCause, one_more};
ghost use Rattle.kp_reactor.specs.declared.reactor.AcceptFail.TheVariants.{Fault};
ghost use Rattle.kp_reactor.specs.Naming.{HasRoom, OthersStay, is_among, listed, name_in, numbers_of, of_listener, renamed, tokens_of};
ghost use Rattle.kp_reactor.specs.Polls.{Accepts, Enters, Waits};

use crate::tokens::Tokens;
use kp_io::Failed;
use mio::net::{TcpListener, TcpStream};
use mio::unix::SourceFd;
use mio::{Events, Interest, Poll, Registry, Token, Waker};
use std::alloc::Global;
use std::io::{self, ErrorKind};
use std::net::{Net, Shutdown};
use std::os::fd::AsRawFd;
use std::time::Duration;

/// The token of the waker. No line has it.
const WAKER: usize = 0;

/// The token of the listener. No line has it, since tokens are counted up from 1 and end before it.
const LISTENER: usize = usize::MAX;

/// The most lines that are told of by one wait.
const MOST: usize = 1_024;

/// Whether connections wait at the listener.
#[derive(Clone, Copy, Drop)]
pub enum Door {
    /// None did when it was asked last, and it has not been told of since.
    Shut,

    /// There may be more: a wait does not sleep.
    Open,

    /// One could not be taken in. It is tried again behind the next wait, which may sleep.
    Stuck,
}

/// Why no reactor was made.
#[derive(Clone, Copy, Drop)]
pub enum ReactorFail {
    NoMemory,

    /// The system refused.
    Fault,
}

/// Why nothing was told of.
#[derive(Clone, Copy, Drop)]
pub enum WaitFail {
    /// There was no memory for a list. Nothing was asked of the system, and what is ready is told of later.
    NoMemory,

    /// The system refused, which was counted.
    Fault,
}

/// Why a connection that waits was not taken in.
#[derive(Clone, Copy, Drop)]
pub enum AcceptFail {
    /// There was no memory. The connection waits on.
    NoMemory,

    /// The system refused, which was counted. The connection waits on, or is closed.
    Fault,
}

/// A connection that was taken in, and the token of its line.
#[derive(Drop)]
pub struct Arrival {
    pub token: usize,
    pub socket: TcpStream,
}

/// The poll of a worker, with its listener and the tokens of its lines.
#[derive(Drop)]
pub struct Reactor {
    alloc: Global,
    poll: Poll,
    events: Events,
    listener: TcpListener,
    door: Door,
    tokens: Tokens,
    faults: u64,
}

// What a line is watched for: it is told of when it becomes ready for either.
fn both_ways() -> Interest {
    Interest::READABLE | Interest::WRITABLE
}

// Puts a listener and a waker under a poll.
fn watch(registry: &Registry, listener: &mut TcpListener) -> io::Result<Waker> {
    registry.register(listener, Token(LISTENER), Interest::READABLE)?;
    Waker::new(registry, Token(WAKER))
}

// Lists the number of the line of this token, where there is one.
fn list_number(tokens: &Tokens, token: usize, told: &mut Vec<u64>)
    requires room { length told.old.items < vec_capacity told.old }
    ensures told { told.new.items ≡ told.old.items ++ listed (name_in (get nat_eq tokens.now.names token)) }
    ensures few { length told.new.items ≤ length told.old.items + 1 }
    ensures capacity { vec_capacity told.new ≡ vec_capacity told.old }
{
    if let Some(number) = tokens.number(token) {
        told.push_reserved(number);
    }
}

// Lists the numbers of the lines of these events, in order. The answer is whether the listener is among them.
fn list_numbers(events: &Events, tokens: &Tokens, told: &mut Vec<u64>) -> bool
    requires empty { told.old.items ≡ [] }
    requires room { length (items events.now) ≤ vec_capacity told.old }
    ensures told { told.new.items ≡ numbers_of tokens.now.names (tokens_of (items events.now)) }
    ensures knocked { result ≡ is_among of_listener (tokens_of (items events.now)) }
{
    let mut knocked = false;
    for event in events.iter() {
        let Token(token) = event.token();
        knocked = knocked || token == LISTENER;
        list_number(tokens, token, told);
    }
    knocked
}

impl Reactor {
    /// A reactor over a listener, with what wakes it from another thread.
    pub fn new<N: Net>(
        net: &N,
        alloc: Global,
        listener: TcpListener,
    ) -> Result<(Reactor, Waker), ReactorFail>
        ensures none { IfOk result (λ p. (t : ℕ) → get nat_eq p.0.tokens.names t ≡ None) }
    {
        let Ok(events) = Events::with_capacity(alloc, MOST) else {
            return Err(ReactorFail::NoMemory);
        };
        let Ok(poll) = Poll::new(net) else {
            return Err(ReactorFail::Fault);
        };
        let mut listener = listener;
        let Ok(waker) = watch(poll.registry(), &mut listener) else {
            return Err(ReactorFail::Fault);
        };
        let reactor = Reactor {
            alloc,
            poll,
            events,
            listener,
            door: Door::Open,
            tokens: Tokens::new(alloc, 1),
            faults: 0,
        };
        Ok((reactor, waker))
    }

    /// Lends the listener.
    pub fn listener(&self) -> &TcpListener
        ensures { result.now ≡ self.now.listener }
    {
        &self.listener
    }

    /// Waits until a line, the listener or the waker is ready, at most this many milliseconds, and not at all where connections wait
    /// at the listener. The answer is the numbers of the lines that the system told of, in the order in which it did. A line without
    /// a number is left out: it is told of once it was named. A line that was told of is told of again where it becomes ready anew,
    /// or behind `again`.
    pub fn wait(&mut self, most: u64) -> Result<Vec<u64>, WaitFail>
        ensures waits { Waits self.old self.new result }
    {
        let Ok(mut told) = Vec::with_capacity(self.alloc, self.events.capacity()) else {
            return Err(WaitFail::NoMemory);
        };
        let most = match self.door {
            Door::Open => 0,
            Door::Shut | Door::Stuck => most,
        };
        let most = Some(Duration::from_millis(most));
        if self.poll.poll(&mut self.events, most).is_err() {
            self.faults = self.faults.saturating_add(1);
            return Err(WaitFail::Fault);
        }
        if list_numbers(&self.events, &self.tokens, &mut told) {
            self.door = Door::Open;
        }
        Ok(told)
    }

    /// Takes in the oldest connection that waits at the listener, or None where none does. Its token was never given before, and its
    /// line has no number yet. It is watched for both ways from now on.
    pub fn accept(&mut self) -> Result<Option<Arrival>, AcceptFail>
        ensures accepts { Accepts self.old self.new result }
    {
        if let Door::Shut = self.door {
            return Ok(None);
        }
        if self.tokens.make_room().is_err() {
            self.door = Door::Stuck;
            return Err(AcceptFail::NoMemory);
        }
        match self.listener.accept() {
            Ok((socket, _)) => self.enter(socket),
            Err(error) => {
                if let ErrorKind::WouldBlock = error.kind() {
                    self.door = Door::Shut;
                    return Ok(None);
                }
                Err(self.fail())
            }
        }
    }

    // Watches a new connection, under a new token. There is room for it.
    fn enter(&mut self, socket: TcpStream) -> Result<Option<Arrival>, AcceptFail>
        requires { HasRoom self.old.tokens.names self.old.tokens.next }
        ensures enters { Enters self.old self.new result }
    {
        let mut socket = socket;
        let token = self.tokens.open();
        let registry = self.poll.registry();
        match registry.register(&mut socket, Token(token), both_ways()) {
            Ok(()) => {
                self.door = Door::Open;
                Ok(Some(Arrival { token, socket }))
            }
            Err(_) => {
                self.tokens.close(token);
                Err(self.fail())
            }
        }
    }

    // Counts a fault of the listener, which is tried again behind the next wait.
    fn fail(&mut self) -> AcceptFail
        ensures result { result ≡ Fault }
        ensures tokens { self.new.tokens ≡ self.old.tokens }
        ensures faults { self.new.faults ≡ one_more self.old.faults }
    {
        self.door = Door::Stuck;
        self.faults = self.faults.saturating_add(1);
        AcceptFail::Fault
    }

    /// The line of this token has this number from now on. Where the token is of no line nothing changes.
    pub fn name(&mut self, token: usize, number: u64)
        ensures at { get nat_eq self.new.tokens.names token ≡ renamed (get nat_eq self.old.tokens.names token) number }
        ensures others { OthersStay self.old.tokens.names self.new.tokens.names token }
        ensures next { self.new.tokens.next ≡ self.old.tokens.next }
        ensures faults { self.new.faults ≡ self.old.faults }
    {
        self.tokens.name(token, number);
    }

    /// The token is of no line from now on: what is told of it is told of nobody.
    pub fn close(&mut self, token: usize)
        ensures at { get nat_eq self.new.tokens.names token ≡ None }
        ensures others { OthersStay self.old.tokens.names self.new.tokens.names token }
        ensures next { self.new.tokens.next ≡ self.old.tokens.next }
        ensures faults { self.new.faults ≡ self.old.faults }
    {
        self.tokens.close(token);
    }

    /// Has a line be told of again, where it is ready for either way now or becomes so. Where the system refuses that the socket is
    /// shut down, so that its line ends, and the fault is counted.
    pub fn again(&mut self, token: usize, socket: &TcpStream) -> Result<(), Failed>
        ensures tokens { self.new.tokens ≡ self.old.tokens }
        ensures cause { HasCause self.old.faults self.new.faults result }
    {
        let descriptor = socket.as_raw_fd();
        let mut source = SourceFd(&descriptor);
        let registry = self.poll.registry();
        if registry
            .reregister(&mut source, Token(token), both_ways())
            .is_ok()
        {
            return Ok(());
        }
        let _ = socket.shutdown(Shutdown::Both);
        self.faults = self.faults.saturating_add(1);
        Err(Failed)
    }

    /// Shuts the socket of a line down, so that it is told of, also where it is ready for neither way.
    pub fn shut(&mut self, token: usize, socket: &TcpStream) -> Result<(), Failed>
        ensures tokens { self.new.tokens ≡ self.old.tokens }
        ensures cause { HasCause self.old.faults self.new.faults result }
    {
        let _ = socket.shutdown(Shutdown::Both);
        self.again(token, socket)
    }
}
