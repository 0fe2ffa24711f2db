//! Disks over files of the system, and disks in memory that fail, or stop, where they are told to.
#![tactic(auto)]

mod counts;
mod faulty;
mod file;
mod homes;

pub use faulty::FaultyDisk;
pub use file::FileDisk;
pub use homes::{file_home, file_homes};
