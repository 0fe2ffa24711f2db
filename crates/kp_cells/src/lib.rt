//! The tree and the sessions, part by part, under layers of writes, and its two views: the
//! committed one and the latest one.
#![tactic(auto)]

mod cells;
mod change;
mod groups;
mod kin;
mod listing;
mod looks;
mod names;
mod nodes;
mod pair;
mod pick;
mod pour;
mod staging;
mod trail;
mod view;

pub use cells::{Cells, CellsMark};
pub use change::{Change, Changes, NodeValue, copied_acl};
pub use view::{CommittedView, LatestView, SideView};
