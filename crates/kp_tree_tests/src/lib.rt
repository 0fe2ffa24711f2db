//! Tests of the tree's crates, by their public calls: that each call succeeds with ample memory, and each generic type
//! once at a concrete one. There is nothing else in this crate.
#![tactic(auto)]

#[cfg(test)]
mod cells;
#[cfg(test)]
mod copies;
#[cfg(test)]
mod layers;
