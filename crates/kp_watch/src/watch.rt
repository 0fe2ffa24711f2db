//! A watch, and who hears of an event.

use crate::kind::Kind;
use kp_model::Text;

/// A watch: the connection hears once of what is done at the path.
#[derive(Drop)]
pub struct Watch {
    /// The path, which need not be a node's.
    pub path: Text,
    /// What it hears of.
    pub kind: Kind,
    /// The number of the connection.
    pub conn: u64,
}

/// One connection hears of one event.
#[derive(Clone, Copy)]
pub struct Fired {
    /// The number of the connection.
    pub conn: u64,
    /// The place of the event in the list that was fired.
    pub at: usize,
}
