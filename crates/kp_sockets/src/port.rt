// A connection of a node over a socket.
ghost use Rattle.std.specs.Prelude.{◌≡◌, [], None, false, not, ◌||◌, is_some, IfOk};
ghost use Rattle.std.specs.Arc.{arc_value};
ghost use Rattle.kp_outlet.specs.Outlets.{has_rest, kept};

use crate::piece::take_piece;
use kp_lines::{Past, Port};
use kp_reactor::{Arrival, Line, SocketIn, SocketOut, halves};
use kp_worker::Heard;
use mio::net::TcpStream;
use std::alloc::{AllocError, Global};

/// A connection of a node over a socket, with the token that its reactor knows it by. It is free where nothing is kept for it, and
/// where nothing goes out to it any more: then a piece is taken of it, which is a Fault.
#[derive(Drop)]
pub struct SocketPort {
    alloc: Global,
    token: usize,
    line: Line<SocketIn, SocketOut>,
}

/// What is left of sockets that were let go, which is nothing.
#[derive(Drop)]
pub struct Nothing;

impl SocketPort {
    /// A connection that a reactor took in.
    pub fn new(alloc: Global, arrival: Arrival) -> Result<SocketPort, AllocError>
        ensures port { IfOk result (λ p. (p.token ≡ arrival.token) × (arc_value p.line.stream.socket ≡ arrival.socket)) }
        ensures new { IfOk result (λ p. (p.line.outlet.end ≡ None) × (kept p.line.outlet ≡ [])) }
    {
        let Arrival { token, socket } = arrival;
        let (stream, sink) = halves(alloc, socket)?;
        Ok(SocketPort {
            alloc,
            token,
            line: Line::new(alloc, stream, sink),
        })
    }

    /// The token that its reactor knows it by.
    pub fn token(&self) -> usize
        ensures { result ≡ self.now.token }
    {
        self.token
    }

    /// Lends the socket.
    pub fn socket(&self) -> &TcpStream
        ensures { result.now ≡ arc_value self.now.line.stream.socket }
    {
        self.line.stream().socket()
    }

    /// Whether nothing goes out to it any more.
    pub fn has_end(&self) -> bool
        ensures { result ≡ is_some self.now.line.outlet.end }
    {
        self.line.end().is_some()
    }
}

impl Port for SocketPort {
    ghost tells = { false };

    ghost told = { λ p. [] };

    ghost handed = { λ p. [] };

    ghost free = { λ p. is_some p.line.outlet.end || not (has_rest p.line.outlet) };

    fn take(&mut self) -> Heard {
        take_piece(self.alloc, &mut self.line)
    }

    fn answer_end(&mut self) {}

    fn hand(&mut self, bytes: &[u8]) {
        self.line.hand(bytes);
    }

    fn is_free(&self) -> bool {
        self.has_end() || !self.line.has_rest()
    }

    fn flow(&mut self) -> bool {
        let kept = !self.is_free();
        self.line.flow();
        kept && self.is_free()
    }
}

impl Past<SocketPort> for Nothing {
    ghost told = { λ n c. [] };

    ghost handed = { λ n c. [] };

    fn keep(&mut self, _conn: u64, port: SocketPort) {
        drop(port);
    }
}
