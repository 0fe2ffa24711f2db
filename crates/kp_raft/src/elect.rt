//! Elections: a member stands, gives its vote, counts votes, and leads.

ghost use Rattle.std.specs.Prelude.{◌≡◌, ◌+◌, ◌-◌, ◌^◌, ◌<◌, ◌≤◌, true, false, [], ◌∷◌, None, IfOk, IsOk, IsTrue, OnErr};
ghost use Rattle.kp_entry.specs.Log.{last_index};
ghost use Rattle.kp_raft.specs.Numbers.{for_peers};
ghost use Rattle.kp_raft.specs.Parts.{is_candidate, vote_records};
ghost use Rattle.kp_raft.specs.Rules.{candidate, may_stand, vote_request, on_timeout, on_term, on_vote_req, counts, on_vote, on_vote_rep, noop, leads};
ghost use Rattle.kp_raft.specs.Steps.{added};
ghost use Rattle.kp_raft.specs.Variables.{vars_of, IsLow};
ghost use Rattle.kp_raft.specs.Members.{running_of, Steps};

use crate::event::RaftOut;
use crate::mail::{Mail, Mails};
use crate::raft::Raft;
use crate::rules::{is_candidate, is_elected, is_leader, is_up_to_date, term_of};
use crate::vars::{MAX, Vars};
use kp_entry::Entries;
use kp_model::{Body, Entry, Items, NoMemory};
use std::alloc::Global;

impl<I: Drop> Raft<I> {
    // It heard of no leader for too long.
    pub(crate) fn on_timeout(&mut self) -> Result<RaftOut<I>, NoMemory>
        ensures ok { IfOk result (λ out. Steps self.old (on_timeout self.old.members self.old.node self.old.held (running_of self.old)) out self.new) }
        ensures image { IfOk result (λ out. out.image ≡ None) }
        ensures err { OnErr result (self.new ≡ self.old) }
    {
        let vars = self.variables();
        if !self.may_stand() {
            return self.same(vars, None);
        }
        let (node, members) = self.numbers();
        let vars = vars.standing(node);
        if is_elected(members, &vars.votes) {
            return self.lead(self.term() + 1, node, vars);
        }
        self.stand(vars)
    }

    // Whether its role, its term and its log let it stand.
    fn may_stand(&self) -> bool
        ensures { result ≡ may_stand self.now.held (running_of self.now) }
    {
        !is_leader(self.role()) && self.term() < MAX && self.last() < MAX - 1
    }

    // It asks for votes.
    fn stand(&mut self, vars: Vars) -> Result<RaftOut<I>, NoMemory>
        requires term { self.old.held.term < 2 ^ 62 }
        requires room { last_index self.old.held.log < 2 ^ 62 - 1 }
        requires from { self.old.held.log.base ≤ vars.commit }
        requires to { vars.commit ≤ last_index self.old.held.log }
        requires low { IsLow vars.matches }
        ensures ok { IfOk result (λ out. Steps self.old (record { records = vote_records self.old.held (self.old.held.term + 1) self.old.node; running = vars_of vars; mail = for_peers self.old.members self.old.node (vote_request self.old.node self.old.held) }) out self.new) }
        ensures image { IfOk result (λ out. out.image ≡ None) }
        ensures err { OnErr result (self.new ≡ self.old) }
    {
        let (node, members) = self.numbers();
        let none = Entries::new(self.allocator());
        let mails = self.vote_requests(members, node)?;
        self.change(self.term() + 1, node, None, &none, (0, 0), vars, mails)
    }

    // The requests for votes.
    fn vote_requests(&self, members: u8, node: u8) -> Result<Mails<I>, NoMemory>
        requires term { self.now.held.term < 2 ^ 62 }
        requires members { members ≤ 7 }
        ensures { IfOk result (λ mails. mails ≡ for_peers members node (vote_request node self.now.held)) }
    {
        let last = self.last();
        let last_term = term_of(self.log(), last);
        let mut mails = Items::new(self.allocator());
        for k in 0..members {
            if k + 1 != node {
                mails.push((
                    k + 1,
                    Mail::VoteReq {
                        term: self.term() + 1,
                        from: node,
                        last,
                        last_term,
                    },
                ))?;
            }
        }
        Ok(mails)
    }

    // A message that tells nothing but its term.
    pub(crate) fn on_term(&mut self, term: u64) -> Result<RaftOut<I>, NoMemory>
        requires { term ≤ 2 ^ 62 }
        ensures ok { IfOk result (λ out. Steps self.old (on_term self.old.held (running_of self.old) term) out self.new) }
        ensures image { IfOk result (λ out. out.image ≡ None) }
        ensures err { OnErr result (self.new ≡ self.old) }
        ensures free { IsTrue self.old.ready → IsOk result }
    {
        let vars = self.variables();
        if self.term() < term {
            return self.still(term, 0, None, vars.following(0), None);
        }
        self.same(vars, None)
    }

    // A candidate asks for a vote.
    pub(crate) fn on_vote_req(
        &mut self,
        term: u64,
        from: u8,
        last: u64,
        last_term: u64,
    ) -> Result<RaftOut<I>, NoMemory>
        requires term { term ≤ 2 ^ 62 }
        requires from { from ≤ 7 }
        ensures ok { IfOk result (λ out. Steps self.old (on_vote_req self.old.node self.old.held (running_of self.old) term from last last_term) out self.new) }
        ensures image { IfOk result (λ out. out.image ≡ None) }
        ensures err { OnErr result (self.new ≡ self.old) }
        ensures free { IsTrue self.old.ready → IsOk result }
    {
        if term < self.term() {
            let vars = self.variables();
            let answer = self.vote_answer(from, self.term(), false);
            return self.same(vars, Some(answer));
        }
        let vote = self.vote_at(term);
        let vars = self.variables_at(term);
        let granted = (vote == 0 || vote == from) && is_up_to_date(self.log(), last_term, last);
        let answer = self.vote_answer(from, term, granted);
        if granted {
            return self.still(term, from, None, vars, Some(answer));
        }
        self.still(term, vote, None, vars, Some(answer))
    }

    // The variables at a message of this term, which is not below the own.
    fn variables_at(&self, term: u64) -> Vars
        ensures vars { vars_of result ≡ Rattle.kp_raft.specs.Parts.running_at self.now.held (running_of self.now) term }
        ensures from { self.now.held.log.base ≤ result.commit }
        ensures to { result.commit ≤ last_index self.now.held.log }
        ensures low { IsLow result.matches }
        ensures stands { is_candidate result.role ≡ true → last_index self.now.held.log < 2 ^ 62 - 1 }
    {
        let vars = self.variables();
        if self.term() < term {
            vars.following(0)
        } else {
            vars
        }
    }

    // The answer to a candidate.
    fn vote_answer(&self, to: u8, term: u64, yes: bool) -> (u8, Mail<I>)
        ensures { result ≡ (to, Mail.VoteRep term self.now.node yes) }
    {
        let (node, _) = self.numbers();
        let answer = Mail::VoteRep {
            term,
            from: node,
            yes,
        };
        (to, answer)
    }

    // A member gives its vote or doesn't.
    pub(crate) fn on_vote_rep(
        &mut self,
        term: u64,
        from: u8,
        yes: bool,
    ) -> Result<RaftOut<I>, NoMemory>
        requires term { term ≤ 2 ^ 62 }
        requires from { from ≤ 7 }
        ensures ok { IfOk result (λ out. Steps self.old (on_vote_rep self.old.members self.old.node self.old.held (running_of self.old) term from yes) out self.new) }
        ensures image { IfOk result (λ out. out.image ≡ None) }
        ensures err { OnErr result (self.new ≡ self.old) }
        ensures free { IsTrue self.old.ready → added (on_vote_rep {I = I} self.old.members self.old.node self.old.held (running_of self.old) term from yes).records ≡ 0 → IsOk result }
    {
        if !self.counts(term, yes) {
            return self.on_term(term);
        }
        self.on_vote(from)
    }

    // Whether this is a vote of its own term for a candidate.
    fn counts(&self, term: u64, yes: bool) -> bool
        ensures counts { result ≡ counts term self.now.held (running_of self.now) yes }
        ensures candidate { result ≡ true → is_candidate self.now.vars.role ≡ true }
    {
        term == self.term() && is_candidate(self.role()) && yes
    }

    // A vote for a candidate.
    fn on_vote(&mut self, from: u8) -> Result<RaftOut<I>, NoMemory>
        requires from { from ≤ 7 }
        requires candidate { is_candidate self.old.vars.role ≡ true }
        ensures ok { IfOk result (λ out. Steps self.old (on_vote self.old.members self.old.node self.old.held (running_of self.old) from) out self.new) }
        ensures image { IfOk result (λ out. out.image ≡ None) }
        ensures err { OnErr result (self.new ≡ self.old) }
        ensures free { IsTrue self.old.ready → added (on_vote {I = I} self.old.members self.old.node self.old.held (running_of self.old) from).records ≡ 0 → IsOk result }
    {
        let vars = self.variables().with_vote(from);
        let (_, members) = self.numbers();
        if !is_elected(members, &vars.votes) {
            return self.same(vars, None);
        }
        self.lead_on(vars)
    }

    // It becomes leader of its term.
    fn lead_on(&mut self, vars: Vars) -> Result<RaftOut<I>, NoMemory>
        requires room { last_index self.old.held.log < 2 ^ 62 }
        requires from { self.old.held.log.base ≤ vars.commit }
        requires to { vars.commit ≤ last_index self.old.held.log }
        ensures ok { IfOk result (λ out. Steps self.old (leads self.old.members self.old.node self.old.held.term self.old.held.log (vars_of vars) []) out self.new) }
        ensures image { IfOk result (λ out. out.image ≡ None) }
        ensures err { OnErr result (self.new ≡ self.old) }
    {
        let term = self.term();
        let vote = self.vote();
        self.lead(term, vote, vars)
    }

    // It becomes leader of this term, in which it voted for itself, and appends a no-op.
    fn lead(&mut self, term: u64, vote: u8, vars: Vars) -> Result<RaftOut<I>, NoMemory>
        requires term { term ≤ 2 ^ 62 }
        requires vote { vote ≤ 7 }
        requires room { last_index self.old.held.log < 2 ^ 62 }
        requires from { self.old.held.log.base ≤ vars.commit }
        requires to { vars.commit ≤ last_index self.old.held.log }
        ensures ok { IfOk result (λ out. Steps self.old (leads self.old.members self.old.node term self.old.held.log (vars_of vars) (vote_records self.old.held term vote)) out self.new) }
        ensures image { IfOk result (λ out. out.image ≡ None) }
        ensures err { OnErr result (self.new ≡ self.old) }
    {
        let (node, _) = self.numbers();
        let entries = noop_of(self.allocator(), term)?;
        let vars = vars.leading(node, self.last());
        self.append_own(term, vote, &entries, vars)
    }
}

// The no-op of this term.
fn noop_of(alloc: Global, term: u64) -> Result<Entries, NoMemory>
    requires { term ≤ 2 ^ 62 }
    ensures { IfOk result (λ es. es ≡ noop term ∷ []) }
{
    let entry = Entry::new(term, 0, Body::Noop)?;
    let mut entries = Entries::new(alloc);
    entries.push(&entry)?;
    Ok(entries)
}
