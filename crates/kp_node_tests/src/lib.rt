//! Tests of a node by its public calls: stories of clients, as documents of the wire protocol print them. There is nothing
//! else in this crate.
#![tactic(auto)]

#[cfg(test)]
mod stories;
#[cfg(test)]
mod story;
