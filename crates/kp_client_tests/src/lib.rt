//! Tests of the crates on a client's side of a node, by their public calls: what no clause of theirs says, and that each
//! call succeeds with ample memory; and the frames of those clients, for the tests above. There is nothing else in this crate.
#![tactic(auto)]

#[cfg(test)]
mod again;
#[cfg(test)]
mod connection;
#[cfg(test)]
mod cutting;
pub mod frames;
#[cfg(test)]
mod watches;
#[cfg(test)]
mod words;
