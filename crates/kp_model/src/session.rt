ghost use Rattle.std.specs.Prelude.{◌≡◌, IfOk};

use crate::memory::NoMemory;
use crate::text::Paths;
use std::alloc::Global;

/// Where a session was opened or taken over: a connection of one run of one server. It is never used twice.
#[derive(Clone, Copy, PartialEq, Eq)]
pub struct Origin {
    /// The server's number.
    pub node: u8,
    /// How often that server was started.
    pub boot: u64,
    /// The number of the connection within that run.
    pub conn: u64,
}

/// A client's session.
#[derive(Drop)]
pub struct Session {
    /// How long it lives unheard, in milliseconds.
    pub timeout: u32,
    /// What a client must show to take it over.
    pub passwd: [u8; 16],
    /// How often it was opened or taken over.
    pub epoch: u64,
    /// The number of its last write in this epoch, 0 before the first.
    pub seq: u64,
    /// The digest ids that it has shown, in order.
    pub ids: Paths,
    /// Who opened it or took it over last.
    pub holder: Origin,
}

impl Session {
    /// An equal value with memory of its own.
    pub fn copy(&self, alloc: Global) -> Result<Session, NoMemory>
        ensures { IfOk result (λ made. made ≡ self.now) }
    {
        Ok(Session {
            timeout: self.timeout,
            passwd: self.passwd,
            epoch: self.epoch,
            seq: self.seq,
            ids: self.ids.copy(alloc)?,
            holder: self.holder,
        })
    }
}
