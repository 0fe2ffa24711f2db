//! Tests of the crates of the log, by their public calls: what no clause of theirs says, and that each call succeeds with
//! ample memory. There is nothing else in this crate.
#![tactic(auto)]

#[cfg(test)]
mod entries;
#[cfg(test)]
mod lists;
#[cfg(test)]
mod log;
#[cfg(test)]
mod raft;
