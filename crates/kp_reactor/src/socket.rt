// The two halves of a socket: what comes of it, and what goes out to it.
ghost use Rattle.std.specs.Prelude.{◌≡◌, None, false, IfOk};
ghost use Rattle.std.specs.Arc.{arc_value};

use crate::reading::read_now;
use crate::writing::write_now;
use kp_io::{Failed, Stream, Took};
use kp_outlet::ReadySink;
use mio::net::TcpStream;
use std::alloc::{AllocError, Global};
use std::sync::Arc;

/// The half of a socket from which bytes come.
#[derive(Drop)]
pub struct SocketIn {
    socket: Arc<TcpStream>,
    ended: bool,
    faults: u64,
}

/// The half of a socket to which bytes go.
#[derive(Drop)]
pub struct SocketOut {
    socket: Arc<TcpStream>,
    faults: u64,
}

/// Both halves of a socket. It is closed once both were let go.
pub fn halves(alloc: Global, socket: TcpStream) -> Result<(SocketIn, SocketOut), AllocError>
    ensures both { IfOk result (λ p. (arc_value p.0.socket ≡ socket) × (arc_value p.1.socket ≡ socket)) }
    ensures new { IfOk result (λ p. (p.0.ended ≡ false) × (p.0.faults ≡ 0) × (p.1.faults ≡ 0)) }
{
    let socket = Arc::new(alloc, socket)?;
    let other = socket.clone()?;
    Ok((
        SocketIn {
            socket,
            ended: false,
            faults: 0,
        },
        SocketOut {
            socket: other,
            faults: 0,
        },
    ))
}

impl SocketIn {
    /// Lends the socket.
    pub fn socket(&self) -> &TcpStream
        ensures { result.now ≡ arc_value self.now.socket }
    {
        &self.socket
    }
}

impl Stream for SocketIn {
    ghost told = { λ s. None };

    ghost ended = { λ s. s.ended };

    ghost faults = { λ s. s.faults };

    fn take(&mut self, into: &mut [u8]) -> Result<Took, Failed> {
        let mut socket: &TcpStream = &self.socket;
        match read_now(&mut socket, into) {
            Ok(took) => {
                self.ended = self.ended || matches!(took, Took::End);
                Ok(took)
            }
            Err(_) => {
                self.faults = self.faults.saturating_add(1);
                Err(Failed)
            }
        }
    }
}

impl ReadySink for SocketOut {
    ghost held = { λ s. None };

    ghost faults = { λ s. s.faults };

    fn offer(&mut self, bytes: &[u8]) -> Result<usize, Failed> {
        let mut socket: &TcpStream = &self.socket;
        match write_now(&mut socket, bytes) {
            Ok(count) => Ok(count),
            Err(_) => {
                self.faults = self.faults.saturating_add(1);
                Err(Failed)
            }
        }
    }
}
