//! A node with its home.

ghost use Rattle.std.specs.Prelude.{◌≡◌, None, true, false};
ghost use Rattle.kp_entry.specs.Records.{has_base};
ghost use Rattle.kp_kept.specs.Ahead.{all_records, all_want};
ghost use Rattle.kp_kept.specs.Ready.{MayTake};

use kp_entry::Records;
use kp_event::Why;
use kp_homes::Home;
use kp_io::Disk;
use kp_node::Node;
use kp_snapshot::Image;
use std::alloc::Global;

/// A node with the home that it is kept in. It takes events in memory, and keeps what they want kept later, so that one
/// batch serves many of them. What is said and sent of an event may leave once it is kept.
#[derive(Drop)]
pub struct Kept<H: Disk> {
    pub(crate) alloc: Global,
    pub(crate) node: Node,
    pub(crate) home: Home<H>,
    // the records of the events that wait, each event's by itself
    pub(crate) waiting: Vec<Records>,
    // the image of the last base among what waits. Behind it stands the node's own log
    pub(crate) image: Option<Image>,
    // why it takes nothing any more, where it doesn't
    pub(crate) death: Option<Why>,
    // the number that the last flush answered
    pub(crate) kept: u64,
    ghost ready: { death ≡ None → MayTake home.second (H.held home.disks.j0) (H.held home.disks.j1) home.journal.head.node home.journal.gate },
    ghost plain: { has_base (all_records waiting.items) ≡ false },
    ghost wanted: { all_want waiting.items ≡ true },
}
