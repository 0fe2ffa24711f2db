//! Messages between members.

ghost use Rattle.std.specs.Prelude.{◌≡◌, IfOk};

use crate::append::AppendMail;
use kp_model::{Body, Duplicate, Items, NoMemory};
use std::alloc::Global;

/// Messages with their receivers.
pub type Mails<I> = Items<(u8, Mail<I>)>;

/// A message from one member to another, with an image of the tree of type `I`.
#[derive(Drop)]
pub enum Mail<I> {
    /// Asks for a vote, with the index and the term of the last entry.
    VoteReq {
        term: u64,
        from: u8,
        last: u64,
        last_term: u64,
    },
    /// Gives the vote, or doesn't.
    VoteRep {
        term: u64,
        from: u8,
        yes: bool,
    },
    /// Brings entries.
    Append(AppendMail),
    /// Tells up to where the log is the leader's, or where it ends. `heard` are the sessions that the sender heard.
    AppendRep {
        term: u64,
        from: u8,
        ok: bool,
        last: u64,
        heard: Items<u64>,
    },
    /// Brings an image in place of the entries up to its index.
    Install {
        term: u64,
        from: u8,
        index: u64,
        index_term: u64,
        image: I,
    },
    /// Tells that the log is the leader's up to the index.
    InstallRep {
        term: u64,
        from: u8,
        index: u64,
    },
    /// Brings a body for the leader to append.
    Forward {
        term: u64,
        from: u8,
        body: Body,
    },
}

impl<I: Drop + Duplicate> Mail<I> {
    /// An equal value with memory of its own.
    pub fn copy(&self, alloc: Global) -> Result<Mail<I>, NoMemory>
        ensures { IfOk result (λ made. made ≡ self.now) }
    {
        match self {
            Mail::VoteReq {
                term,
                from,
                last,
                last_term,
            } => Ok(Mail::VoteReq {
                term: *term,
                from: *from,
                last: *last,
                last_term: *last_term,
            }),
            Mail::VoteRep { term, from, yes } => Ok(Mail::VoteRep {
                term: *term,
                from: *from,
                yes: *yes,
            }),
            Mail::Append(mail) => Ok(Mail::Append(mail.copy(alloc)?)),
            Mail::AppendRep {
                term,
                from,
                ok,
                last,
                heard,
            } => Ok(Mail::AppendRep {
                term: *term,
                from: *from,
                ok: *ok,
                last: *last,
                heard: numbers(alloc, heard)?,
            }),
            Mail::Install {
                term,
                from,
                index,
                index_term,
                image,
            } => Ok(Mail::Install {
                term: *term,
                from: *from,
                index: *index,
                index_term: *index_term,
                image: image.duplicate(alloc)?,
            }),
            Mail::InstallRep { term, from, index } => Ok(Mail::InstallRep {
                term: *term,
                from: *from,
                index: *index,
            }),
            Mail::Forward { term, from, body } => Ok(Mail::Forward {
                term: *term,
                from: *from,
                body: body.copy(alloc)?,
            }),
        }
    }
}

impl<I: Drop + Duplicate> Duplicate for Mail<I> {
    fn duplicate(&self, alloc: Global) -> Result<Mail<I>, NoMemory> {
        self.copy(alloc)
    }
}

// The same numbers.
fn numbers(alloc: Global, from: &Items<u64>) -> Result<Items<u64>, NoMemory>
    ensures { IfOk result (λ made. made ≡ from.now) }
{
    Ok(Items::from_vec(Vec::from_slice(alloc, from.as_slice())?))
}
