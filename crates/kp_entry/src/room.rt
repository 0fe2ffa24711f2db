//! Room for the first records of a step.

ghost use Rattle.std.specs.Prelude.{◌≡◌, ◌-◌, ◌≤◌, ◌^◌, [], ◌∷◌, ◌++◌, length, map, IfSome};
ghost use Rattle.std.specs.List.{concat};
ghost use Rattle.std.specs.Int.{w8, w64};
ghost use Rattle.kp_jute.specs.Jute.{unsigned};
ghost use Rattle.kp_entry.specs.declared.record.Record.TheVariants as record_;
ghost use Rattle.kp_entry.specs.Records.{records};
ghost use Rattle.kp_entry.specs.Heads.{voted, cut_off};

use crate::pieces::Pieces;
use crate::record::{TRUNCATE, VOTE};
use crate::records::{Base, Records};
use kp_model::NoMemory;
use std::alloc::Global;

/// Room for the records of a vote and of a truncation or a base, so that making them can't fail.
#[derive(Drop)]
pub struct Room {
    alloc: Global,
    pieces: Pieces,
    ghost empty: { pieces.strings ≡ [] },
    ghost strings: { 2 ≤ pieces.string_room },
    ghost bytes: { 19 ≤ pieces.byte_room },
}

impl Room {
    /// Makes the room.
    pub fn new(alloc: Global) -> Result<Room, NoMemory> {
        let mut pieces = Pieces::new(alloc);
        pieces.reserve(2, 19)?;
        Ok(Room { alloc, pieces })
    }

    /// The records of a term with the vote in it and of a truncation to an index, where there are these. Takes no memory.
    pub fn records(self, vote: Option<(u64, u8)>, cut: Option<u64>) -> Records
        requires vote { IfSome vote (λ v. (v.0 ≤ 2 ^ 62) × (v.1 ≤ 7)) }
        requires cut { IfSome cut (λ last. last ≤ 2 ^ 62) }
        ensures { result ≡ voted vote ++ cut_off cut }
    {
        let Room { alloc, mut pieces } = self;
        add_vote(&mut pieces, vote);
        add_cut(&mut pieces, cut);
        Records::from_parts(alloc, pieces, None)
    }

    /// The records of a term with the vote in it, where there is one, and of a base behind it. Takes no memory.
    pub fn based(self, vote: Option<(u64, u8)>, index: u64, term: u64) -> Records
        requires vote { IfSome vote (λ v. (v.0 ≤ 2 ^ 62) × (v.1 ≤ 7)) }
        requires index { index ≤ 2 ^ 62 }
        requires term { term ≤ 2 ^ 62 }
        ensures { result ≡ voted vote ++ record_.Base index term ∷ [] }
    {
        let Room { alloc, mut pieces } = self;
        add_vote(&mut pieces, vote);
        Records::from_parts(alloc, pieces, Some(Base { index, term }))
    }
}

// Adds the record of a vote, where there is one.
fn add_vote(pieces: &mut Pieces, vote: Option<(u64, u8)>)
    requires string { 1 ≤ pieces.old.string_room }
    requires bytes { 10 ≤ pieces.old.byte_room }
    ensures added { pieces.new.strings ≡ pieces.old.strings ++ map records.spell (voted vote) }
    ensures strings { pieces.old.string_room - 1 ≤ pieces.new.string_room }
    ensures bytes { pieces.old.byte_room - 10 ≤ pieces.new.byte_room }
    ensures len { length (concat (map records.spell (voted vote))) ≤ 10 }
{
    if let Some((term, vote)) = vote {
        push_vote(pieces, term, vote);
    }
}

fn push_vote(pieces: &mut Pieces, term: u64, vote: u8)
    requires string { 1 ≤ pieces.old.string_room }
    requires bytes { 10 ≤ pieces.old.byte_room }
    ensures added { pieces.new.strings ≡ pieces.old.strings ++ records.spell (record_.Vote term vote) ∷ [] }
    ensures strings { pieces.old.string_room - 1 ≤ pieces.new.string_room }
    ensures bytes { pieces.old.byte_room - 10 ≤ pieces.new.byte_room }
    ensures len { length (records.spell (record_.Vote term vote)) ≡ 10 }
{
    pieces.push_reserved(&head_of(VOTE, term), &[vote]);
}

// Adds the record of a truncation, where there is one.
fn add_cut(pieces: &mut Pieces, cut: Option<u64>)
    requires string { 1 ≤ pieces.old.string_room }
    requires bytes { 9 ≤ pieces.old.byte_room }
    ensures added { pieces.new.strings ≡ pieces.old.strings ++ map records.spell (cut_off cut) }
    ensures len { length (concat (map records.spell (cut_off cut))) ≤ 9 }
{
    if let Some(last) = cut {
        pieces.push_reserved(&head_of(TRUNCATE, last), &[]);
    }
}

// A tag and a number of 8 bytes.
#[tactic(auto, using(crate::proofs::Runs::append_none), unfolding(kp_jute::specs::Jute::unsigned))]
fn head_of(tag: u8, number: u64) -> [u8; 9]
    ensures bytes { result ≡ unsigned w8 tag ++ unsigned w64 number }
    ensures len { length result ≡ 9 }
{
    let mut head = [tag; 9];
    head[1..].copy_from_slice(&number.to_be_bytes());
    head
}
