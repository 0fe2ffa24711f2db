//! Tests of the formats' crates, by their public calls: frames as clients and servers send them, and where others are
//! refused; paths, rights and the values of the model. There is nothing else in this crate.
#![tactic(auto)]

#[cfg(test)]
mod access;
#[cfg(test)]
mod answers;
#[cfg(test)]
mod asks;
#[cfg(test)]
mod clients;
#[cfg(test)]
mod connects;
#[cfg(test)]
mod images;
#[cfg(test)]
mod jute;
#[cfg(test)]
mod model;
#[cfg(test)]
mod paths;
#[cfg(test)]
mod refusals;
#[cfg(test)]
mod requests;
