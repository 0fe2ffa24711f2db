//! A member of a Raft cluster: what it has, and what is asked of it.

ghost use Rattle.std.specs.Prelude.{◌≡◌, ◌+◌, ◌-◌, ◌^◌, ◌<◌, ◌≤◌, true, false, cond, [], ◌∷◌, length, option_map, Some, None, IfOk, IfSome, IsOk, IsTrue, OnErr};
ghost use Rattle.kp_entry.specs.Entries.{entries};
ghost use Rattle.kp_entry.specs.Log.{last_index, term_at, entry_at};
ghost use Rattle.kp_raft.specs.Numbers.{is_peer};
ghost use Rattle.kp_raft.specs.Parts.{vote_at, is_candidate};
ghost use Rattle.kp_raft.specs.Appends.{refusal};
ghost use Rattle.kp_raft.specs.Variables.{IsLow};
ghost use Rattle.kp_raft.specs.Members.{running_of, is_cluster, Begins};

use crate::mail::Mail;
use crate::spare::Spare;
use crate::vars::Vars;
use kp_model::{Entry, Items, NoMemory, Role};
use kp_raftlog::RaftLog;
use std::alloc::Global;
use std::marker::Model;

/// A member of a cluster, whose images are of type `I`.
#[derive(Drop)]
pub struct Raft<I> {
    pub(crate) alloc: Global,
    pub(crate) node: u8,
    pub(crate) members: u8,
    pub(crate) term: u64,
    pub(crate) vote: u8,
    pub(crate) log: RaftLog,
    pub(crate) vars: Vars,
    pub(crate) spare: Option<Spare<I>>,
}

impl<I> Model for Raft<I> {
    ghost use Rattle.std.specs.Prelude.{is_some};
    ghost use Rattle.kp_raft.specs.Members.{Member, member_code};

    ghost Value = { Member };

    ghost coded = { member_code };

    ghost use Rattle.kp_raft.specs.Members.{shown, HoldsTogether};

    ghost view = { λ r. shown r.node r.members r.term r.vote r.log r.vars (is_some r.spare) };

    ghost invariant = { λ r. HoldsTogether r.node r.members r.term r.vote r.log r.vars };
}

impl<I: Drop> Raft<I> {
    /// The member of this number of a cluster of so many, with what it kept over a stop: its term, its vote, the index
    /// and term of its base, and the entries behind.
    pub fn new(
        alloc: Global,
        node: u8,
        members: u8,
        term: u64,
        vote: u8,
        base: (u64, u64),
        entries: &[Entry],
    ) -> Result<Raft<I>, NoMemory>
        requires members { IsTrue (is_cluster members) }
        requires node { (1 ≤ node) × (node ≤ members) }
        requires vote { vote ≤ 7 }
        requires term { term ≤ 2 ^ 62 }
        requires base { (base.0 ≤ 2 ^ 62) × (base.1 ≤ 2 ^ 62) }
        requires last { base.0 + length entries.now ≤ 2 ^ 62 }
        ensures { IfOk result (λ r. Begins r node members (record { term = term; vote = vote; log = record { base = base.0; base_term = base.1; entries = entries.now } })) }
    {
        let log = log_of(alloc, base, entries)?;
        Ok(Raft {
            alloc,
            node,
            members,
            term,
            vote,
            log,
            vars: Vars::at_start(base.0),
            spare: None,
        })
    }

    /// The current term.
    pub fn term(&self) -> u64
        ensures term { result ≡ self.now.held.term }
        ensures range { result ≤ 2 ^ 62 }
    {
        self.term
    }

    /// For whom it voted in its term, or 0.
    pub fn vote(&self) -> u8
        ensures vote { result ≡ self.now.held.vote }
        ensures range { result ≤ 7 }
    {
        self.vote
    }

    /// What it is at the moment.
    pub fn role(&self) -> Role
        ensures { result ≡ self.now.vars.role }
    {
        self.vars.role
    }

    /// The leader that it knows, or 0.
    pub fn leader(&self) -> u8
        ensures { result ≡ self.now.vars.leader }
    {
        self.vars.leader
    }

    /// Its number in its cluster.
    pub fn node(&self) -> u8
        ensures { result ≡ self.now.node }
    {
        self.node
    }

    /// How many members the cluster has.
    pub fn members(&self) -> u8
        ensures { result ≡ self.now.members }
    {
        self.members
    }

    /// The commit index.
    pub fn commit(&self) -> u64
        ensures index { result ≡ self.now.vars.commit }
        ensures from { self.now.held.log.base ≤ result }
        ensures to { result ≤ last_index self.now.held.log }
    {
        self.vars.commit
    }

    /// The index of the last entry, or that of the base where there is none.
    pub fn last(&self) -> u64
        ensures index { result ≡ last_index self.now.held.log }
        ensures range { result ≤ 2 ^ 62 }
    {
        self.log.last()
    }

    /// The index and the term of the base.
    pub fn base(&self) -> (u64, u64)
        ensures { result ≡ (self.now.held.log.base, self.now.held.log.base_term) }
    {
        self.log.base()
    }

    /// The term at this index. None exactly where it is neither that of the base nor of an entry.
    pub fn term_at(&self, index: u64) -> Option<u64>
        ensures term { result ≡ term_at self.now.held.log index }
        ensures range { IfSome result (λ t. t ≤ 2 ^ 62) }
    {
        self.log.term_at(index)
    }

    /// Lends the bytes of the entry of this index. None exactly where there is no such entry.
    pub fn bytes_at(&self, index: u64) -> Option<&[u8]>
        ensures bytes { option_map (λ s. s.now) result ≡ option_map entries.spell (entry_at self.now.held.log index) }
        ensures fits { IfSome (entry_at self.now.held.log index) entries.Fits }
    {
        self.log.bytes_at(index)
    }

    /// Whether the member of this number has voted for this one as a candidate.
    pub fn has_vote_of(&self, node: u8) -> bool
        ensures { result ≡ (running_of self.now).votes node }
    {
        match self.vars.votes.get(node as usize) {
            Some(voted) => *voted,
            None => false,
        }
    }

    /// Up to where the log of a peer is known to be a leader's own. None exactly where it is no peer.
    pub fn match_of(&self, peer: u8) -> Option<u64>
        ensures { result ≡ cond (is_peer self.now.members self.now.node peer) (Some ((running_of self.now).matches peer)) None }
    {
        if !self.is_peer(peer) {
            return None;
        }
        Some(self.vars.matches[peer as usize])
    }

    /// From where on a leader sends entries to a peer. None exactly where it is no peer.
    pub fn next_of(&self, peer: u8) -> Option<u64>
        ensures { result ≡ cond (is_peer self.now.members self.now.node peer) (Some ((running_of self.now).nexts peer)) None }
    {
        if !self.is_peer(peer) {
            return None;
        }
        Some(self.vars.nexts[peer as usize])
    }

    /// Makes room for a step that appends nothing and sends at most one answer.
    pub fn ready(&mut self) -> Result<(), NoMemory>
        ensures ok { IfOk result (λ _. self.new ≡ record self.old { ready = true }) }
        ensures err { OnErr result (self.new ≡ self.old) }
    {
        if self.spare.is_none() {
            self.spare = Some(Spare::new(self.alloc)?);
        }
        Ok(())
    }
}

// What the steps ask.
impl<I: Drop> Raft<I> {
    // Whether this is another member.
    pub(crate) fn is_peer(&self, node: u8) -> bool
        ensures peer { result ≡ is_peer self.now.members self.now.node node }
        ensures range { result ≡ true → (1 ≤ node) × (node ≤ 7) }
    {
        1 <= node && node <= self.members && node != self.node
    }

    // The variables that are not kept.
    pub(crate) fn variables(&self) -> Vars
        ensures vars { result ≡ self.now.vars }
        ensures from { self.now.held.log.base ≤ result.commit }
        ensures to { result.commit ≤ last_index self.now.held.log }
        ensures fits { last_index self.now.held.log ≤ 2 ^ 62 }
        ensures low { IsLow result.matches }
        ensures stands { is_candidate result.role ≡ true → last_index self.now.held.log < 2 ^ 62 - 1 }
    {
        let _end = self.log.last();
        self.vars
    }

    // Its number and that of the members.
    pub(crate) fn numbers(&self) -> (u8, u8)
        ensures numbers { result ≡ (self.now.node, self.now.members) }
        ensures range { (1 ≤ self.now.node) × (self.now.node ≤ self.now.members) × (self.now.members ≤ 7) }
    {
        (self.node, self.members)
    }

    // Where its memory comes from.
    pub(crate) fn allocator(&self) -> Global {
        self.alloc
    }

    // Lends the log.
    pub(crate) fn log(&self) -> &RaftLog
        ensures { result.now ≡ self.now.held.log }
    {
        &self.log
    }

    // The vote at a message of this term, which is not below the own.
    pub(crate) fn vote_at(&self, term: u64) -> u8
        ensures vote { result ≡ vote_at self.now.held term }
        ensures range { result ≤ 7 }
    {
        if self.term < term { 0 } else { self.vote }
    }

    // The answer to an append or an image that is refused.
    pub(crate) fn refusal(&self, to: u8, term: u64) -> (u8, Mail<I>)
        ensures { result ∷ [] ≡ refusal self.now.node to term self.now.held.log }
    {
        let answer = Mail::AppendRep {
            term,
            from: self.node,
            ok: false,
            last: self.log.last(),
            heard: Items::new(self.alloc),
        };
        (to, answer)
    }
}

// The log behind this base with these entries.
fn log_of(alloc: Global, base: (u64, u64), list: &[Entry]) -> Result<RaftLog, NoMemory>
    requires base { (base.0 ≤ 2 ^ 62) × (base.1 ≤ 2 ^ 62) }
    requires last { base.0 + length list.now ≤ 2 ^ 62 }
    ensures { IfOk result (λ l. l ≡ record { base = base.0; base_term = base.1; entries = list.now }) }
{
    let mut log = RaftLog::based_at(alloc, base.0, base.1);
    for entry in list {
        log.append(entry)?;
    }
    Ok(log)
}
