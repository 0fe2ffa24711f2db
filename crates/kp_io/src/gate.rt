use std::sync::Wait;

/// Where a worker passes before each of its turns. Only tests hold it there.
pub trait Gate {
    /// Waits, or doesn't. `turn` is the number of turns that the worker of this connection has had.
    fn pass<R: Wait>(&self, rt: &R, conn: u64, turn: u64);
}

/// A gate that lets everyone pass at once.
#[derive(Drop)]
pub struct OpenGate;

impl Gate for OpenGate {
    fn pass<R: Wait>(&self, _rt: &R, _conn: u64, _turn: u64) {}
}
