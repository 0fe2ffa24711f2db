//! What ends a step: the records that it makes, and the member after them.

ghost use Rattle.std.specs.Prelude.{◌≡◌, ◌+◌, ◌-◌, ◌^◌, ◌<◌, ◌≤◌, true, false, [], ◌∷◌, ◌++◌, length, None, IfOk, IfSome, IsOk, IsTrue, OnErr};
ghost use Rattle.kp_entry.specs.Heads.{voted, cut_off, appended, part_of};
ghost use Rattle.kp_entry.specs.Log.{last_index, with_entries, rebased};
ghost use Rattle.kp_raft.specs.Parts.{vote_records, with_cut, changes, cut_log, kept_to, listed, is_candidate};
ghost use Rattle.kp_raft.specs.Rules.{committed};
ghost use Rattle.kp_raft.specs.Variables.{vars_of, IsLow};
ghost use Rattle.kp_raft.specs.Members.{Steps};

use crate::event::RaftOut;
use crate::mail::{Mail, Mails};
use crate::raft::Raft;
use crate::spare::Spare;
use crate::vars::Vars;
use crate::weigh::has_term;
use kp_entry::{Entries, Record, Records, Room};
use kp_model::NoMemory;
use kp_raftlog::RaftLog;
use std::alloc::Global;

impl<I: Drop> Raft<I> {
    // The record of term and vote, where one of them changes.
    fn ballot(&self, term: u64, vote: u8) -> Option<(u64, u8)>
        ensures record { voted result ≡ vote_records self.now.held term vote }
        ensures range { IfSome result (λ v. (v.0 ≡ term) × (v.1 ≡ vote)) }
    {
        if self.term == term && self.vote == vote {
            None
        } else {
            Some((term, vote))
        }
    }

    // Takes the room away, or makes it where there is none.
    fn take_spare(&mut self) -> Result<Spare<I>, NoMemory>
        ensures ok { IfOk result (λ _. self.new ≡ record self.old { ready = false }) }
        ensures err { OnErr result (self.new ≡ self.old) }
        ensures free { IsTrue self.old.ready → IsOk result }
    {
        match self.spare.take() {
            Some(spare) => Ok(spare),
            None => Spare::new(self.alloc),
        }
    }

    // A step that appends nothing and sends at most one answer.
    pub(crate) fn still(
        &mut self,
        term: u64,
        vote: u8,
        keep: Option<u64>,
        vars: Vars,
        answer: Option<(u8, Mail<I>)>,
    ) -> Result<RaftOut<I>, NoMemory>
        requires term { term ≤ 2 ^ 62 }
        requires vote { vote ≤ 7 }
        requires keep { IfSome keep (λ k. (self.old.held.log.base ≤ k) × (k ≤ last_index self.old.held.log)) }
        requires from { self.old.held.log.base ≤ vars.commit }
        requires to { vars.commit ≤ kept_to self.old.held.log keep }
        requires low { IsLow vars.matches }
        requires stands { is_candidate vars.role ≡ true → last_index self.old.held.log < 2 ^ 62 - 1 }
        ensures ok { IfOk result (λ out. Steps self.old (record { records = with_cut (vote_records self.old.held term vote) keep; running = vars_of vars; mail = listed answer }) out self.new) }
        ensures image { IfOk result (λ out. out.image ≡ None) }
        ensures err { OnErr result (self.new ≡ self.old) }
        ensures free { IsTrue self.old.ready → IsOk result }
    {
        let ballot = self.ballot(term, vote);
        let spare = self.take_spare()?;
        cut(&mut self.log, keep);
        self.term = term;
        self.vote = vote;
        self.vars = vars;
        let (records, mail) = spare.give(ballot, keep, answer);
        Ok(RaftOut {
            added: 0,
            truncated: keep,
            image: None,
            records,
            mail,
        })
    }

    // A step that keeps nothing new.
    pub(crate) fn same(
        &mut self,
        vars: Vars,
        answer: Option<(u8, Mail<I>)>,
    ) -> Result<RaftOut<I>, NoMemory>
        requires from { self.old.held.log.base ≤ vars.commit }
        requires to { vars.commit ≤ last_index self.old.held.log }
        requires low { IsLow vars.matches }
        requires stands { is_candidate vars.role ≡ true → last_index self.old.held.log < 2 ^ 62 - 1 }
        ensures ok { IfOk result (λ out. Steps self.old (record { records = []; running = vars_of vars; mail = listed answer }) out self.new) }
        ensures image { IfOk result (λ out. out.image ≡ None) }
        ensures err { OnErr result (self.new ≡ self.old) }
        ensures free { IsTrue self.old.ready → IsOk result }
    {
        let term = self.term();
        let vote = self.vote();
        self.still(term, vote, None, vars, answer)
    }

    // A step that keeps nothing new and sends this.
    pub(crate) fn send(&mut self, vars: Vars, mail: Mails<I>) -> Result<RaftOut<I>, NoMemory>
        requires from { self.old.held.log.base ≤ vars.commit }
        requires to { vars.commit ≤ last_index self.old.held.log }
        requires low { IsLow vars.matches }
        requires stands { is_candidate vars.role ≡ true → last_index self.old.held.log < 2 ^ 62 - 1 }
        ensures ok { IfOk result (λ out. Steps self.old (record { records = []; running = vars_of vars; mail = mail }) out self.new) }
        ensures image { IfOk result (λ out. out.image ≡ None) }
        ensures err { OnErr result (self.new ≡ self.old) }
    {
        match self.same(vars, None) {
            Ok(out) => Ok(with_mail(out, mail)),
            Err(none) => {
                drop(mail);
                Err(none)
            }
        }
    }

    // A step that makes an image the base and sends at most one answer.
    pub(crate) fn settle(
        &mut self,
        term: u64,
        vote: u8,
        index: u64,
        index_term: u64,
        vars: Vars,
        answer: Option<(u8, Mail<I>)>,
    ) -> Result<RaftOut<I>, NoMemory>
        requires term { term ≤ 2 ^ 62 }
        requires vote { vote ≤ 7 }
        requires index { index ≤ 2 ^ 62 }
        requires index_term { index_term ≤ 2 ^ 62 }
        requires from { index ≤ vars.commit }
        requires to { vars.commit ≤ last_index (rebased self.old.held.log index index_term) }
        requires low { IsLow vars.matches }
        requires stands { is_candidate vars.role ≡ true → last_index (rebased self.old.held.log index index_term) < 2 ^ 62 - 1 }
        ensures ok { IfOk result (λ out. Steps self.old (record { records = vote_records self.old.held term vote ++ Record.Base index index_term ∷ []; running = vars_of vars; mail = listed answer }) out self.new) }
        ensures image { IfOk result (λ out. out.image ≡ None) }
        ensures err { OnErr result (self.new ≡ self.old) }
        ensures free { IsTrue self.old.ready → IsOk result }
    {
        let ballot = self.ballot(term, vote);
        let spare = self.take_spare()?;
        rebase(&mut self.log, index, index_term);
        self.term = term;
        self.vote = vote;
        self.vars = vars;
        let (records, mail) = spare.give_base(ballot, index, index_term, answer);
        Ok(RaftOut {
            added: 0,
            truncated: None,
            image: None,
            records,
            mail,
        })
    }

    // A step that appends the entries from place `first` to before `until`.
    pub(crate) fn change(
        &mut self,
        term: u64,
        vote: u8,
        keep: Option<u64>,
        entries: &Entries,
        part: (u32, u32),
        vars: Vars,
        mail: Mails<I>,
    ) -> Result<RaftOut<I>, NoMemory>
        requires term { term ≤ 2 ^ 62 }
        requires vote { vote ≤ 7 }
        requires keep { IfSome keep (λ k. (self.old.held.log.base ≤ k) × (k ≤ last_index self.old.held.log)) }
        requires first { part.0 ≤ part.1 }
        requires until { part.1 ≤ length entries.now }
        requires fits { kept_to self.old.held.log keep + (part.1 - part.0) ≤ 2 ^ 62 }
        requires from { self.old.held.log.base ≤ vars.commit }
        requires to { vars.commit ≤ kept_to self.old.held.log keep + (part.1 - part.0) }
        requires low { IsLow vars.matches }
        requires stands { is_candidate vars.role ≡ true → kept_to self.old.held.log keep + (part.1 - part.0) < 2 ^ 62 - 1 }
        ensures ok { IfOk result (λ out. Steps self.old (record { records = changes self.old.held term vote keep (part_of part.0 part.1 entries.now); running = vars_of vars; mail = mail }) out self.new) }
        ensures image { IfOk result (λ out. out.image ≡ None) }
        ensures err { OnErr result (self.new ≡ self.old) }
    {
        let (first, until) = part;
        let ballot = self.ballot(term, vote);
        let from = kept_to(&self.log, keep);
        let records = records_of(self.alloc, ballot, keep, entries, part)?;
        self.log
            .replace(from, entries, first as usize, until as usize)?;
        self.term = term;
        self.vote = vote;
        self.vars = vars;
        self.spare = None;
        Ok(RaftOut {
            added: until - first,
            truncated: keep,
            image: None,
            records,
            mail,
        })
    }

    // A step of a leader that appends these entries: its commit index rises by its new log.
    pub(crate) fn append_own(
        &mut self,
        term: u64,
        vote: u8,
        entries: &Entries,
        vars: Vars,
    ) -> Result<RaftOut<I>, NoMemory>
        requires term { term ≤ 2 ^ 62 }
        requires vote { vote ≤ 7 }
        requires fits { last_index self.old.held.log + length entries.now ≤ 2 ^ 62 }
        requires from { self.old.held.log.base ≤ vars.commit }
        requires to { vars.commit ≤ last_index self.old.held.log }
        requires low { IsLow vars.matches }
        requires stands { is_candidate vars.role ≡ false }
        ensures ok { IfOk result (λ out. Steps self.old (record { records = changes self.old.held term vote None entries.now; running = committed self.old.members self.old.node term (with_entries self.old.held.log entries.now) (vars_of vars); mail = [] }) out self.new) }
        ensures image { IfOk result (λ out. out.image ≡ None) }
        ensures err { OnErr result (self.new ≡ self.old) }
    {
        let ballot = self.ballot(term, vote);
        let last = self.log.last();
        let count = entries.len() as u32;
        let records = records_of(self.alloc, ballot, None, entries, (0, count))?;
        self.log.replace(last, entries, 0, count as usize)?;
        self.term = term;
        self.vote = vote;
        self.vars = vars.committed(self.members, self.node, term, &self.log);
        self.spare = None;
        Ok(RaftOut {
            added: count,
            truncated: None,
            image: None,
            records,
            mail: Mails::new(self.alloc),
        })
    }
}

// The records of a step that appends.
fn records_of(
    alloc: Global,
    ballot: Option<(u64, u8)>,
    keep: Option<u64>,
    entries: &Entries,
    part: (u32, u32),
) -> Result<Records, NoMemory>
    requires ballot { IfSome ballot (λ v. (v.0 ≤ 2 ^ 62) × (v.1 ≤ 7)) }
    requires keep { IfSome keep (λ last. last ≤ 2 ^ 62) }
    requires first { part.0 ≤ part.1 }
    requires until { part.1 ≤ length entries.now }
    ensures { IfOk result (λ records. records ≡ (voted ballot ++ cut_off keep) ++ appended (part_of part.0 part.1 entries.now)) }
{
    let (first, until) = part;
    let mut records = Room::new(alloc)?.records(ballot, keep);
    records.push_entries(entries, first as usize, until as usize)?;
    Ok(records)
}

// Cuts the log off where it is to be.
fn cut(log: &mut RaftLog, keep: Option<u64>)
    requires { IfSome keep (λ k. (log.old.base ≤ k) × (k ≤ last_index log.old)) }
    ensures after { log.new ≡ cut_log log.old keep }
    ensures last { last_index log.new ≡ kept_to log.old keep }
    ensures range { IfSome keep (λ k. k ≤ 2 ^ 62) }
{
    if let Some(last) = keep {
        let _end = log.last();
        log.truncate(last);
    }
}

// The last index that stays.
fn kept_to(log: &RaftLog, keep: Option<u64>) -> u64
    requires { IfSome keep (λ k. (log.now.base ≤ k) × (k ≤ last_index log.now)) }
    ensures index { result ≡ kept_to log.now keep }
    ensures from { log.now.base ≤ result }
    ensures to { result ≤ last_index log.now }
    ensures range { IfSome keep (λ k. k ≤ 2 ^ 62) }
{
    let last = log.last();
    match keep {
        None => last,
        Some(kept) => kept,
    }
}

// Makes this the base: the entries behind it stay where the entry of its index has its term.
fn rebase(log: &mut RaftLog, index: u64, term: u64)
    requires index { index ≤ 2 ^ 62 }
    requires term { term ≤ 2 ^ 62 }
    ensures { log.new ≡ rebased log.old index term }
{
    if has_term(log, index, term) {
        log.compact(index);
    } else {
        log.rebase(index, term);
    }
}

// The same with this mail.
fn with_mail<I: Drop>(out: RaftOut<I>, mail: Mails<I>) -> RaftOut<I>
    ensures { result ≡ record out { mail = mail } }
{
    RaftOut { mail, ..out }
}
