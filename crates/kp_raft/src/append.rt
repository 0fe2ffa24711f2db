//! The message that carries entries, and what a member does with it.

ghost use Rattle.std.specs.Prelude.{◌≡◌, IfOk};

use kp_entry::Entries;
use kp_model::{Duplicate, NoMemory};
use std::alloc::Global;

/// A leader's entries behind the one of index `prev`.
#[derive(Drop)]
pub struct AppendMail {
    /// The leader's term.
    pub term: u64,
    /// The leader.
    pub from: u8,
    /// The index behind which the entries stand.
    pub prev: u64,
    /// The term of the leader's entry of that index.
    pub prev_term: u64,
    /// The leader's commit index.
    pub commit: u64,
    /// The entries, fewer than 2^32.
    pub entries: Entries,
}

impl AppendMail {
    /// An equal value with memory of its own.
    pub fn copy(&self, alloc: Global) -> Result<AppendMail, NoMemory>
        ensures { IfOk result (λ made. made ≡ self.now) }
    {
        Ok(AppendMail {
            term: self.term,
            from: self.from,
            prev: self.prev,
            prev_term: self.prev_term,
            commit: self.commit,
            entries: self.entries.copy(alloc)?,
        })
    }
}

impl Duplicate for AppendMail {
    fn duplicate(&self, alloc: Global) -> Result<AppendMail, NoMemory> {
        self.copy(alloc)
    }
}

/// What a member does with an append.
#[derive(Clone, Copy, PartialEq, Eq)]
pub enum Weigh {
    /// Nothing, and it gives no answer.
    Dropped,
    /// It answers no.
    Refused,
    /// It takes it.
    Taken,
}

/// What a member would do with an append.
#[derive(Clone, Copy)]
pub struct Weighed {
    pub kind: Weigh,
    /// How many of the first entries the log has already; 0 where the append isn't taken.
    pub matched: u32,
    /// The last index that stays, where an entry conflicts; None where none does, and where the append isn't taken.
    pub keep: Option<u64>,
}
