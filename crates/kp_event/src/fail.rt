/// Why a node takes nothing any more.
#[derive(Clone, Copy, Drop)]
pub enum Why {
    /// A disk of its home failed. The count is that of the home's faults after it.
    Disk { count: u128 },

    /// A journal (slots 0 and 1) or an image (2 and 3) would have had this length, which passes 2^40 bytes.
    Full { slot: u8, len: u64 },

    /// Only some records of an event were kept.
    Torn,
}

/// Why a node took no event, or kept none.
#[derive(Clone, Copy, Drop)]
pub enum KeptFail {
    /// Memory ran out. The node and its home are as they were.
    NoMemory,

    /// A disk of its home failed. From now on the node is dead.
    DiskFault,

    /// A journal (slots 0 and 1) or an image (2 and 3) would have had this length, which passes 2^40 bytes. From now on the node
    /// is dead.
    Full { slot: u8, len: u64 },

    /// The node is dead, for this cause.
    Dead(Why),
}
