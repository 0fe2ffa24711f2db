//! What is read in a piece of bytes, and what goes out.

ghost use Rattle.std.specs.Prelude.{◌≡◌, [], Some, None};
ghost use Rattle.kp_conn.specs.Fed.{ended, connecting, end_if};

use crate::frames::Found;
use kp_model::{Bytes, Items};
use kp_wire::{ConnectRequest, Request};
use std::alloc::Global;

/// How the reading of a piece ended.
#[derive(Clone, Copy)]
pub enum FedEnd {
    /// All whole frames were read.
    Ok,
    /// What begins at this place of the stream is no frame. Nothing behind it was read or kept.
    Bad { at: u64 },
    /// The first four bytes of the connection are this word.
    Word([u8; 4]),
}

/// What was read in a piece.
#[derive(Drop)]
pub struct Fed {
    /// The connect request, in the piece that ends the connection's first frame.
    pub connect: Option<ConnectRequest>,
    pub requests: Items<Request>,
    pub end: FedEnd,
}

// No request was read.
pub fn read_end(alloc: Global, end: FedEnd) -> Fed
    ensures { result ≡ ended end }
{
    Fed {
        connect: None,
        requests: Items::new(alloc),
        end,
    }
}

// The connect request was read.
pub fn read_connect(alloc: Global, request: ConnectRequest) -> Fed
    ensures { result ≡ connecting request }
{
    Fed {
        connect: Some(request),
        requests: Items::new(alloc),
        end: FedEnd::Ok,
    }
}

// Requests were read. The place is the one behind them.
pub fn read_requests(found: Found, place: u64) -> Fed
    ensures { result ≡ record { connect = None; requests = found.requests; end = end_if found.bad place } }
{
    let Found { requests, bad, .. } = found;
    let end = if bad {
        FedEnd::Bad { at: place }
    } else {
        FedEnd::Ok
    };
    Fed {
        connect: None,
        requests,
        end,
    }
}

/// What goes out at a time.
#[derive(Drop)]
pub struct OutPiece {
    /// Whole packets, one behind the other.
    pub bytes: Bytes,
    /// Whether the connection is over, so that nothing follows.
    pub over: bool,
    /// Whether it was given up for want of memory.
    pub lost: bool,
}
