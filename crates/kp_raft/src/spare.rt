//! Room for a step that appends nothing and sends at most one answer.

ghost use Rattle.std.specs.Prelude.{◌≡◌, ◌≤◌, ◌^◌, [], ◌∷◌, ◌++◌, IfSome};
ghost use Rattle.std.specs.Vec.{vec_capacity};
ghost use Rattle.kp_entry.specs.Heads.{voted, cut_off};
ghost use Rattle.kp_raft.specs.Parts.{listed};

use crate::mail::{Mail, Mails};
use kp_entry::{Record, Records, Room};
use kp_model::{Items, NoMemory};
use std::alloc::Global;

/// Room for the records of a vote and a truncation, or of a vote and a base, and for one answer.
#[derive(Drop)]
pub(crate) struct Spare<I> {
    records: Room,
    mail: Vec<(u8, Mail<I>)>,
    ghost none: { mail.items ≡ [] },
    ghost room: { 1 ≤ vec_capacity mail },
}

impl<I: Drop> Spare<I> {
    /// Makes the room.
    pub(crate) fn new(alloc: Global) -> Result<Spare<I>, NoMemory> {
        let records = Room::new(alloc)?;
        let mut mail = Vec::new(alloc);
        mail.reserve_exact(1)?;
        Ok(Spare { records, mail })
    }

    /// The records of a vote and a truncation, and the answer.
    pub(crate) fn give(
        self,
        ballot: Option<(u64, u8)>,
        keep: Option<u64>,
        answer: Option<(u8, Mail<I>)>,
    ) -> (Records, Mails<I>)
        requires ballot { IfSome ballot (λ v. (v.0 ≤ 2 ^ 62) × (v.1 ≤ 7)) }
        requires keep { IfSome keep (λ last. last ≤ 2 ^ 62) }
        ensures records { result.0 ≡ voted ballot ++ cut_off keep }
        ensures mail { result.1 ≡ listed answer }
    {
        let Spare { records, mut mail } = self;
        if let Some(answer) = answer {
            mail.push_reserved(answer);
        }
        (records.records(ballot, keep), Items::from_vec(mail))
    }

    /// The records of a vote and a base, and the answer.
    pub(crate) fn give_base(
        self,
        ballot: Option<(u64, u8)>,
        index: u64,
        term: u64,
        answer: Option<(u8, Mail<I>)>,
    ) -> (Records, Mails<I>)
        requires ballot { IfSome ballot (λ v. (v.0 ≤ 2 ^ 62) × (v.1 ≤ 7)) }
        requires index { index ≤ 2 ^ 62 }
        requires term { term ≤ 2 ^ 62 }
        ensures records { result.0 ≡ voted ballot ++ Record.Base index term ∷ [] }
        ensures mail { result.1 ≡ listed answer }
    {
        let Spare { records, mut mail } = self;
        if let Some(answer) = answer {
            mail.push_reserved(answer);
        }
        (records.based(ballot, index, term), Items::from_vec(mail))
    }
}
