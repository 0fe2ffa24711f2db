//! Tests of a node with its home under its workers: what a client is answered, byte for byte, and what of it leaves where a disk
//! fails. There is nothing else in this crate.
#![tactic(auto)]

#[cfg(test)]
mod serving;
#[cfg(test)]
mod waiting;
