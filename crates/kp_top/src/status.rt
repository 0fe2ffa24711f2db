ghost use Rattle.std.specs.Prelude.{◌≡◌};

/// How a command ended. The program ends with the number that `code` tells.
#[derive(Debug, Drop)]
pub enum Status {
    /// The whole transcript was written.
    Done,
    /// The words are no command.
    Usage,
    /// Line n, counted from 1, is the first outside the grammar. The lines before it were done and printed.
    BadLine { n: u64 },
    /// The input failed. Nothing was written.
    ReadFault,
    /// The output failed. A beginning of the transcript was written.
    WriteFault,
    /// Memory ran out. A beginning of the transcript was written.
    NoMemory,
    /// A disk failed.
    DiskFault,
    /// A home's slot leaves the grammar at a byte.
    Damaged { slot: u64, at: u64 },
    /// The net failed.
    NetFault,
    /// The input has more than 67,108,864 bytes. Nothing was written.
    TooLong,
    /// A journal or an image would have this length in bytes, which is too much.
    Full { slot: u64, len: u64 },
}

impl Status {
    ghost use Rattle.kp_top.specs.Run.{code_of};

    /// The number that the program ends with.
    pub fn code(&self) -> u8
        ensures { result ≡ code_of self.now }
    {
        match self {
            Status::Done => 0,
            Status::Usage => 2,
            Status::BadLine { .. } => 3,
            Status::ReadFault => 4,
            Status::WriteFault => 5,
            Status::NoMemory => 6,
            Status::DiskFault => 7,
            Status::Damaged { .. } => 8,
            Status::NetFault => 9,
            Status::TooLong => 10,
            Status::Full { .. } => 11,
        }
    }
}
