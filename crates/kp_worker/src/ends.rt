// How a node's worker ends.
ghost use Rattle.std.specs.Prelude.{◌≡◌};
ghost use Rattle.kp_worker.specs.Ends.{end_for};

use kp_event::{KeptFail, Why};
use kp_shared::Refusal;

/// How serving a node ended.
#[derive(Clone, Copy, Drop)]
pub enum NodeEnd {
    /// The stop word was found set. No connection is hung up.
    Stopped,

    /// A disk of the node's home failed, now or before.
    DiskFault,

    /// A journal or an image of the node's home would have had this length, now or before.
    Full { slot: u8, len: u64 },

    /// The history of the node is full.
    Worn,

    /// Waiting for the connections failed.
    NetFault,

    /// Memory ran out.
    NoMemory,
}

// How the worker ends whose node answered so.
fn end_of_fail(fail: KeptFail) -> NodeEnd
    ensures { result ≡ Rattle.kp_worker.specs.Ends.end_of_fail fail }
{
    match fail {
        KeptFail::NoMemory => NodeEnd::NoMemory,
        KeptFail::DiskFault => NodeEnd::DiskFault,
        KeptFail::Full { slot, len } => NodeEnd::Full { slot, len },
        KeptFail::Dead(Why::Disk { .. }) => NodeEnd::DiskFault,
        KeptFail::Dead(Why::Full { slot, len }) => NodeEnd::Full { slot, len },
        KeptFail::Dead(Why::Torn) => NodeEnd::NoMemory,
    }
}

/// How the worker ends whose turn was cut so.
pub(crate) fn end_of(refusal: Refusal) -> NodeEnd
    ensures { result ≡ end_for refusal }
{
    match refusal {
        Refusal::Failed(fail) => end_of_fail(fail),
        Refusal::Worn => NodeEnd::Worn,
    }
}
