//! Tests of the two stores, by their public calls: stories with ample memory, and that both answer the same. There is
//! nothing else in this crate.
#![tactic(auto)]

#[cfg(test)]
mod agreement;
#[cfg(test)]
mod ends;
#[cfg(test)]
mod ids;
#[cfg(test)]
mod images;
#[cfg(test)]
mod nodes;
#[cfg(test)]
mod plain;
#[cfg(test)]
mod reads;
#[cfg(test)]
mod stories;
