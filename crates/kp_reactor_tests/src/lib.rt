//! Tests of a reactor over sockets of this machine.
#![tactic(auto)]

mod desk;
#[cfg(test)]
mod tests;

pub use desk::{Desk, Manner};
