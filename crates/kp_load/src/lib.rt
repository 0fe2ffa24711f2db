//! A load for a store: lines of the store language, made from a number.
#![tactic(auto)]

mod draw;
mod lines;

pub use lines::LoadLines;
