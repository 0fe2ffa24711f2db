//! The step of a member.

ghost use Rattle.std.specs.Prelude.{◌≡◌, ◌+◌, ◌-◌, ◌^◌, ◌<◌, ◌≤◌, cond, true, None, IfOk, IsOk, IsTrue, OnErr};
ghost use Rattle.kp_entry.specs.Log.{last_index};
ghost use Rattle.kp_raft.specs.Steps.{added, passes, on_mail, on_delivery, all_of, image_in, image_of, react};
ghost use Rattle.kp_raft.specs.Members.{running_of, IsDelivery, IsNoAppend, MayTake, Steps};

use crate::event::{RaftEvent, RaftOut};
use crate::mail::Mail;
use crate::raft::Raft;
use crate::vars::MAX;
use kp_model::NoMemory;

impl<I: Drop> Raft<I> {
    /// The step at an event. A message is taken by the rules of its kind; one whose sender is no peer, or whose numbers
    /// are out of their ranges, changes nothing. On a member that is ready a message takes no memory where the step
    /// adds no entry.
    pub fn step(&mut self, event: RaftEvent<I>) -> Result<RaftOut<I>, NoMemory>
        requires { MayTake self.old event }
        ensures ok { IfOk result (λ out. Steps self.old (react self.old.members self.old.node self.old.held (running_of self.old) event) out self.new) }
        ensures image { IfOk result (λ out. out.image ≡ image_of self.old.members self.old.node self.old.held (running_of self.old) event) }
        ensures err { OnErr result (self.new ≡ self.old) }
        ensures free { IsTrue self.old.ready → IsDelivery event → added (react self.old.members self.old.node self.old.held (running_of self.old) event).records ≡ 0 → IsOk result }
    {
        match event {
            RaftEvent::Timeout => self.on_timeout(),
            RaftEvent::Beat { index, images } => self.on_beat(index, images),
            RaftEvent::Deliver(mail) => self.on_delivery(mail),
            RaftEvent::Propose { time, bodies } => self.on_propose(time, bodies),
            RaftEvent::Compact { index } => self.on_compact(index),
        }
    }

    // A message other than an append.
    fn on_delivery(&mut self, mail: Mail<I>) -> Result<RaftOut<I>, NoMemory>
        requires { IsNoAppend mail }
        ensures ok { IfOk result (λ out. Steps self.old (on_delivery self.old.members self.old.node self.old.held (running_of self.old) (all_of mail) mail) out self.new) }
        ensures image { IfOk result (λ out. out.image ≡ cond (passes self.old.members self.old.node (last_index self.old.held.log) mail) (image_in self.old.held (running_of self.old) mail) None) }
        ensures err { OnErr result (self.new ≡ self.old) }
        ensures free { IsTrue self.old.ready → added (on_delivery self.old.members self.old.node self.old.held (running_of self.old) (all_of mail) mail).records ≡ 0 → IsOk result }
    {
        if !self.passes(&mail) {
            drop(mail);
            let vars = self.variables();
            return self.same(vars, None);
        }
        self.on_mail(mail)
    }

    // Whether the sender is another member, and the numbers are those of a run.
    fn passes(&self, mail: &Mail<I>) -> bool
        requires { IsNoAppend mail.now }
        ensures { result ≡ passes self.now.members self.now.node (last_index self.now.held.log) mail.now }
    {
        match mail {
            Mail::VoteReq {
                term,
                from,
                last,
                last_term,
            } => self.is_peer(*from) && *term <= MAX && *last <= MAX && *last_term <= MAX,
            Mail::VoteRep { term, from, .. } | Mail::Forward { term, from, .. } => {
                self.is_peer(*from) && *term <= MAX
            }
            Mail::Append(_) => false,
            Mail::AppendRep {
                term,
                from,
                ok,
                last,
                ..
            } => {
                let most = if *ok { self.last() } else { MAX };
                self.is_peer(*from) && *term <= MAX && *last <= most
            }
            Mail::Install {
                term,
                from,
                index,
                index_term,
                ..
            } => self.is_peer(*from) && *term <= MAX && *index <= MAX && *index_term <= MAX,
            Mail::InstallRep { term, from, index } => {
                self.is_peer(*from) && *term <= MAX && *index <= self.last()
            }
        }
    }

    // A message that passes.
    fn on_mail(&mut self, mail: Mail<I>) -> Result<RaftOut<I>, NoMemory>
        requires other { IsNoAppend mail }
        requires passes { IsTrue (passes self.old.members self.old.node (last_index self.old.held.log) mail) }
        ensures ok { IfOk result (λ out. Steps self.old (on_mail self.old.members self.old.node self.old.held (running_of self.old) (all_of mail) mail) out self.new) }
        ensures image { IfOk result (λ out. out.image ≡ image_in self.old.held (running_of self.old) mail) }
        ensures err { OnErr result (self.new ≡ self.old) }
        ensures free { IsTrue self.old.ready → added (on_mail self.old.members self.old.node self.old.held (running_of self.old) (all_of mail) mail).records ≡ 0 → IsOk result }
    {
        let _vars = self.variables();
        let _numbers = self.numbers();
        match mail {
            Mail::VoteReq {
                term,
                from,
                last,
                last_term,
            } => self.on_vote_req(term, from, last, last_term),
            Mail::VoteRep { term, from, yes } => self.on_vote_rep(term, from, yes),
            Mail::Append(mail) => {
                drop(mail);
                self.on_term(0)
            }
            Mail::AppendRep {
                term,
                from,
                ok,
                last,
                heard,
            } => {
                drop(heard);
                self.on_append_rep(term, from, ok, last)
            }
            Mail::Install {
                term,
                from,
                index,
                index_term,
                image,
            } => self.on_install(term, from, index, index_term, image),
            Mail::InstallRep { term, from, index } => self.on_append_rep(term, from, true, index),
            Mail::Forward { term, from, body } => {
                drop(body);
                self.on_term(term)
            }
        }
    }
}
