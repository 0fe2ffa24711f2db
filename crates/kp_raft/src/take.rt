//! What a member does with an append.

ghost use Rattle.std.specs.Prelude.{◌≡◌, ◌+◌, ◌-◌, ◌^◌, ◌<◌, ◌≤◌, true, false, ◌∷◌, [], length, min, max, None, IfOk, IfSome, IsOk, IsTrue, OnErr};
ghost use Rattle.kp_entry.specs.Log.{last_index};
ghost use Rattle.kp_raft.specs.Parts.{kept_to};
ghost use Rattle.kp_raft.specs.Appends.{fits, acceptance, fitted};
ghost use Rattle.kp_raft.specs.Steps.{added, fitting, weighed, take, IsTaken};
ghost use Rattle.kp_raft.specs.Members.{running_of, Steps};

use crate::append::{AppendMail, Weigh, Weighed};
use crate::event::RaftOut;
use crate::mail::{Mail, Mails};
use crate::raft::Raft;
use crate::vars::MAX;
use crate::weigh::{fits, matched_of};
use kp_model::{Items, NoMemory};

impl<I: Drop> Raft<I> {
    /// What the rules do with an append. Takes no memory.
    pub fn weigh(&self, mail: &AppendMail) -> Weighed
        ensures { result ≡ weighed self.now.members self.now.node self.now.held (running_of self.now) mail.now }
    {
        if !self.passes_append(mail) {
            return Weighed {
                kind: Weigh::Dropped,
                matched: 0,
                keep: None,
            };
        }
        if mail.term < self.term() || !self.fits(mail.prev, mail.prev_term) {
            return Weighed {
                kind: Weigh::Refused,
                matched: 0,
                keep: None,
            };
        }
        self.weigh_fitting(mail)
    }

    /// Takes an append with its first `j` entries, of which there are as many as `weigh` says that the log has already,
    /// or more. On a member that is ready it takes no memory where it adds no entry.
    pub fn take_append(&mut self, mail: &AppendMail, j: u32) -> Result<RaftOut<I>, NoMemory>
        requires matched { (weighed self.old.members self.old.node self.old.held (running_of self.old) mail.now).matched ≤ j }
        requires within { j ≤ length mail.now.entries }
        ensures ok { IfOk result (λ out. Steps self.old (take self.old.members self.old.node self.old.held (running_of self.old) mail.now j) out self.new) }
        ensures image { IfOk result (λ out. out.image ≡ None) }
        ensures err { OnErr result (self.new ≡ self.old) }
        ensures free { IsTrue self.old.ready → added (take {I = I} self.old.members self.old.node self.old.held (running_of self.old) mail.now j).records ≡ 0 → IsOk result }
    {
        if !self.passes_append(mail) {
            let vars = self.variables();
            return self.same(vars, None);
        }
        if mail.term < self.term() {
            let vars = self.variables();
            let answer = self.refusal(mail.from, self.term());
            return self.same(vars, Some(answer));
        }
        let vote = self.vote_at(mail.term);
        let vars = self.variables().following(mail.from);
        if !self.fits(mail.prev, mail.prev_term) {
            let answer = self.refusal(mail.from, mail.term);
            return self.still(mail.term, vote, None, vars, Some(answer));
        }
        let weighed = self.weigh_fitting(mail);
        if weighed.kind == Weigh::Dropped {
            return self.still(mail.term, vote, None, vars, None);
        }
        self.take_weighed(mail, j, weighed)
    }

    // Whether the sender is another member, and the numbers are those of a run.
    fn passes_append(&self, mail: &AppendMail) -> bool
        ensures { result ≡ Rattle.kp_raft.specs.Steps.passes_append self.now.members self.now.node mail.now }
    {
        self.is_peer(mail.from)
            && mail.term <= MAX
            && mail.prev_term <= MAX
            && mail.commit <= MAX
            && mail.prev <= MAX
            && mail.entries.len() as u64 <= MAX - mail.prev
    }

    // Whether the entry of index `prev` counts as the sender's.
    fn fits(&self, prev: u64, prev_term: u64) -> bool
        ensures { result ≡ fits self.now.held.log prev prev_term }
    {
        fits(self.log(), prev, prev_term)
    }

    // What the rules do with an append that fits behind its index.
    fn weigh_fitting(&self, mail: &AppendMail) -> Weighed
        requires range { mail.now.prev + length mail.now.entries ≤ 2 ^ 62 }
        ensures { result ≡ fitting self.now.held.log (running_of self.now).commit mail.now }
    {
        let matched = matched_of(&self.log, mail.prev, &mail.entries);
        let from = mail.prev + matched as u64;
        if matched == mail.entries.len() || self.log.last() <= from {
            return Weighed {
                kind: Weigh::Taken,
                matched: matched as u32,
                keep: None,
            };
        }
        if from < self.vars.commit {
            return Weighed {
                kind: Weigh::Dropped,
                matched: 0,
                keep: None,
            };
        }
        Weighed {
            kind: Weigh::Taken,
            matched: matched as u32,
            keep: Some(from),
        }
    }

    // Takes an append that was weighed.
    fn take_weighed(
        &mut self,
        mail: &AppendMail,
        j: u32,
        weighed: Weighed,
    ) -> Result<RaftOut<I>, NoMemory>
        requires weighed { weighed ≡ fitting self.old.held.log (running_of self.old).commit mail.now }
        requires taken { IsTaken weighed }
        requires fits { IsTrue (fits self.old.held.log mail.now.prev mail.now.prev_term) }
        requires matched { weighed.matched ≤ j }
        requires within { j ≤ length mail.now.entries }
        requires term { (self.old.held.term ≤ mail.now.term) × (mail.now.term ≤ 2 ^ 62) }
        requires range { mail.now.prev + length mail.now.entries ≤ 2 ^ 62 }
        ensures ok { IfOk result (λ out. Steps self.old (fitted self.old.node self.old.held (running_of self.old) mail.now j) out self.new) }
        ensures image { IfOk result (λ out. out.image ≡ None) }
        ensures err { OnErr result (self.new ≡ self.old) }
        ensures free { IsTrue self.old.ready → added (fitted {I = I} self.old.node self.old.held (running_of self.old) mail.now j).records ≡ 0 → IsOk result }
    {
        self.take_fitting(mail, j, weighed)
    }

    // The same: it takes no memory where all of these entries were matched.
    fn take_fitting(
        &mut self,
        mail: &AppendMail,
        j: u32,
        weighed: Weighed,
    ) -> Result<RaftOut<I>, NoMemory>
        requires weighed { weighed ≡ fitting self.old.held.log (running_of self.old).commit mail.now }
        requires taken { IsTaken weighed }
        requires fits { IsTrue (fits self.old.held.log mail.now.prev mail.now.prev_term) }
        requires matched { weighed.matched ≤ j }
        requires within { j ≤ length mail.now.entries }
        requires term { (self.old.held.term ≤ mail.now.term) × (mail.now.term ≤ 2 ^ 62) }
        requires range { mail.now.prev + length mail.now.entries ≤ 2 ^ 62 }
        ensures ok { IfOk result (λ out. Steps self.old (fitted self.old.node self.old.held (running_of self.old) mail.now j) out self.new) }
        ensures image { IfOk result (λ out. out.image ≡ None) }
        ensures err { OnErr result (self.new ≡ self.old) }
        ensures free { IsTrue self.old.ready → weighed.matched ≡ j → IsOk result }
    {
        let end = mail.prev + j as u64;
        let vote = self.vote_at(mail.term);
        let vars = self.variables().committing(mail.from, mail.commit.min(end));
        let answer = self.acceptance(mail.from, mail.term, end);
        if weighed.matched == j {
            return self.still(mail.term, vote, weighed.keep, vars, Some(answer));
        }
        let part = (weighed.matched, j);
        let mails = self.one(answer)?;
        self.change(
            mail.term,
            vote,
            weighed.keep,
            &mail.entries,
            part,
            vars,
            mails,
        )
    }

    // The answer to an append that is taken up to this index.
    fn acceptance(&self, to: u8, term: u64, last: u64) -> (u8, Mail<I>)
        ensures { result ∷ [] ≡ acceptance self.now.node to term last }
    {
        let answer = Mail::AppendRep {
            term,
            from: self.node,
            ok: true,
            last,
            heard: Items::new(self.alloc),
        };
        (to, answer)
    }

    // One message.
    fn one(&self, mail: (u8, Mail<I>)) -> Result<Mails<I>, NoMemory>
        ensures { IfOk result (λ mails. mails ≡ mail ∷ []) }
    {
        let mut mails = Items::new(self.alloc);
        mails.push(mail)?;
        Ok(mails)
    }
}
