//! Tests of what a node keeps on its disks, by public calls: what no clause says, and that each call succeeds with ample
//! memory. There is nothing else in this crate.
#![tactic(auto)]

#[cfg(test)]
mod audits;
#[cfg(test)]
mod homes;
#[cfg(test)]
mod journal;
