//! Tests of links, and of streams, clocks, draws and gates in memory.
#![tactic(auto)]

mod probes;
#[cfg(test)]
mod tests;
