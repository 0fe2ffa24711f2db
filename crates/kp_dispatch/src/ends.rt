// How the calls of this crate end.
ghost use Rattle.std.specs.Prelude.{◌≡◌};
ghost use Rattle.kp_dispatch.specs.Ends.{IsUntornRefusal, end_for, turned_for};

use kp_event::{KeptFail, Why};
use kp_shared::Refusal;

/// How serving a connection ended.
#[derive(Clone, Copy, Drop)]
pub enum ConnEnd {
    /// The input ended, or the node said that the connection is over or that there is none.
    Ended,

    /// The frame that begins at this place of the input is outside the grammar.
    BadFrame { at: u64 },

    /// The input failed.
    ReadFault,

    /// The output failed.
    WriteFault,

    /// The stop word was found set.
    Stopped,

    /// A disk of the node's home failed, now or before.
    DiskFault,

    /// A journal or an image of the node's home would have had this length, now or before.
    Full { slot: u8, len: u64 },

    /// The history of the node is full.
    Worn,

    /// Memory ran out.
    NoMemory,
}

/// How a call of a ticker, of a link worker or of who accepts connections ended.
#[derive(Clone, Copy, Drop)]
pub enum Turned {
    /// All was done. True exactly where an Append or an Install was taken of a link.
    Done(bool),

    /// The link was empty.
    Empty,

    /// A task was refused so, or memory ran out.
    Failed(KeptFail),

    /// The history of the node is full.
    Worn,
}

/// How a connection ends whose turn was cut short so.
pub(crate) fn end_of(refusal: Refusal) -> ConnEnd
    requires { IsUntornRefusal refusal }
    ensures { result ≡ end_for refusal }
{
    match refusal {
        Refusal::Worn => ConnEnd::Worn,
        Refusal::Failed(KeptFail::NoMemory) => ConnEnd::NoMemory,
        Refusal::Failed(KeptFail::DiskFault) => ConnEnd::DiskFault,
        Refusal::Failed(KeptFail::Full { slot, len }) => ConnEnd::Full { slot, len },
        Refusal::Failed(KeptFail::Dead(Why::Disk { count: _ })) => ConnEnd::DiskFault,
        Refusal::Failed(KeptFail::Dead(Why::Full { slot, len })) => ConnEnd::Full { slot, len },
        Refusal::Failed(KeptFail::Dead(Why::Torn)) => unreachable!(),
    }
}

/// How a call of a ticker ends whose turn was cut short so.
pub(crate) fn turned_of(refusal: Refusal) -> Turned
    ensures { result ≡ turned_for refusal }
{
    match refusal {
        Refusal::Worn => Turned::Worn,
        Refusal::Failed(fail) => Turned::Failed(fail),
    }
}
