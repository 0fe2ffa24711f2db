ghost use Rattle.std.specs.Prelude.{◌≡◌, IfOk, IsTrue, is_ok};
ghost use Rattle.kp_model.specs.Grammar.{has_numbers, is_entry, is_fitting};

use crate::command::{Cmd, Op};
use crate::items::Items;
use crate::memory::{Duplicate, NoMemory};
use crate::node::Acl;
use crate::session::Origin;
use crate::text::Text;
use std::alloc::Global;
use std::marker::Model;

/// What a log entry asks for.
#[derive(Drop)]
pub enum Body {
    /// Changes nothing but the applied index, as every entry does.
    Noop,
    /// Gives out a session number.
    OpenSession {
        timeout: u32,
        passwd: [u8; 16],
        origin: Origin,
    },
    /// Takes a session over, by its password.
    Attach {
        session: u64,
        passwd: [u8; 16],
        origin: Origin,
    },
    /// Ends a session that wasn't heard.
    Expire {
        session: u64,
    },
    /// A command of a session in its epoch, with its running number.
    Write {
        session: u64,
        epoch: u64,
        seq: u64,
        cmd: Cmd,
    },
}

/// An element of the log. Its index, which is its zxid, is its place in the log, counted from 1.
/// Its numbers are within their limits, and its texts, data and lists fit length fields of 32 bits.
#[derive(Drop)]
pub struct Entry {
    /// The term of the leader that appended it.
    pub term: u64,
    /// The time at which it was appended, in milliseconds.
    pub time: u64,
    pub body: Body,
}

impl Model for Entry {
    ghost use Rattle.std.specs.Prelude.{IsTrue};
    ghost use Rattle.kp_model.specs.LogEntry.{LogEntry};

    ghost Value = { LogEntry };

    ghost use Rattle.kp_model.specs.Grammar.{is_entry};

    ghost view = { λ e. record { term = e.term; time = e.time; body = e.body } };

    ghost invariant = { λ e. IsTrue (is_entry (record { term = e.term; time = e.time; body = e.body })) };
}

impl Body {
    /// An equal value with memory of its own.
    pub fn copy(&self, alloc: Global) -> Result<Body, NoMemory>
        ensures { IfOk result (λ made. made ≡ self.now) }
    {
        match self {
            Body::Noop => Ok(Body::Noop),
            Body::OpenSession {
                timeout,
                passwd,
                origin,
            } => Ok(Body::OpenSession {
                timeout: *timeout,
                passwd: *passwd,
                origin: *origin,
            }),
            Body::Attach {
                session,
                passwd,
                origin,
            } => Ok(Body::Attach {
                session: *session,
                passwd: *passwd,
                origin: *origin,
            }),
            Body::Expire { session } => Ok(Body::Expire { session: *session }),
            Body::Write {
                session,
                epoch,
                seq,
                cmd,
            } => Ok(Body::Write {
                session: *session,
                epoch: *epoch,
                seq: *seq,
                cmd: cmd.copy(alloc)?,
            }),
        }
    }
}

impl Entry {
    /// An entry of this body. A body with a text, data or a list that is too long for its length field is none,
    /// and the answer is that of want of memory, as for every other call that would write it down.
    pub fn new(term: u64, time: u64, body: Body) -> Result<Entry, NoMemory>
        requires { IsTrue (has_numbers term time body) }
        ensures made { IfOk result (λ e. e ≡ record { term = term; time = time; body = body }) }
        ensures ok { is_ok result ≡ is_fitting body }
    {
        if !body.fits() {
            return Err(NoMemory);
        }
        Ok(Entry { term, time, body })
    }

    /// An equal value with memory of its own. Every entry has the grammar of entries.
    pub fn copy(&self, alloc: Global) -> Result<Entry, NoMemory>
        ensures same { IfOk result (λ made. made ≡ self.now) }
        ensures grammar { IsTrue (is_entry self.now) }
    {
        Ok(Entry {
            term: self.term,
            time: self.time,
            body: self.body.copy(alloc)?,
        })
    }
}

impl Duplicate for Entry {
    fn duplicate(&self, alloc: Global) -> Result<Entry, NoMemory> {
        self.copy(alloc)
    }
}
