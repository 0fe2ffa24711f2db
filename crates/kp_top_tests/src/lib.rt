//! Tests of the top calls: what whole runs print, and in which status they end. There is nothing else in this crate.
#![tactic(auto)]

#[cfg(test)]
mod audits;
#[cfg(test)]
mod loads;
#[cfg(test)]
mod long_multi;
#[cfg(test)]
mod rows;
#[cfg(test)]
mod runs;
