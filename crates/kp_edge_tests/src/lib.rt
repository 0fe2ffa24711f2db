//! Tests of the crates at the edges, by their public calls: what no clause of theirs says, and that each call succeeds
//! with ample memory. There is nothing else in this crate.
#![tactic(auto)]

#[cfg(test)]
mod expiry;
#[cfg(test)]
mod io;
#[cfg(test)]
mod lines;
#[cfg(test)]
mod load;
#[cfg(test)]
mod region;
#[cfg(test)]
mod script;
#[cfg(test)]
mod seats;
#[cfg(test)]
mod texts;
#[cfg(test)]
mod turn;
