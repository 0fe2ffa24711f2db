//! Images of states: a tree with its sessions as one string of bytes.
#![tactic(auto)]

mod check;
mod fail;
mod figures;
mod image;
mod known;
mod lines;
mod nodes;
mod pour_nodes;
mod pour_sessions;
mod pouring;
mod promises;
mod put_figures;
mod put_lines;
mod put_nodes;
mod put_sessions;
mod reading;
mod sessions;
mod trail;
mod writing;

pub use fail::ImageFail;
pub use image::Image;
pub use pouring::pour;
pub use promises::laws;
pub use reading::read;
pub use writing::write;
