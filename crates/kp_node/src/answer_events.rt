//! A follower answers an append, and names the sessions that it heard.

ghost use Rattle.std.specs.Prelude.{◌≡◌, ◌^◌, ◌<◌, IfOk, OnErr};
ghost use Rattle.kp_event.specs.declared.event.NodeEventKind.TheVariants as kind;
ghost use Rattle.kp_raft.specs.declared.event.RaftEvent.TheVariants as asked;
ghost use Rattle.kp_step.specs.Choices.{Choices};
ghost use Rattle.kp_step.specs.Committing.{hear_all};
ghost use Rattle.kp_node.specs.Foreseen.{reaction};
ghost use Rattle.kp_node.specs.Named.{AreKnown, IsAdmitted, forgotten};
ghost use Rattle.kp_node.specs.Naming.{IsAnswered, mail_of, named_by, with_heard};
ghost use Rattle.kp_node.specs.Parts.{node_of};
ghost use Rattle.kp_node.specs.Reactions.{raft_step};
ghost use Rattle.kp_node.specs.Steps.{Steps};

use crate::named::{Answer, admit, bare, forget, hear_known, named};
use crate::node::Node;
use crate::outcome::Outcome;
use crate::raft_events::Reaction;
use kp_model::NoMemory;

impl Node {
    // A follower answers an append. After an error nothing has changed.
    pub(crate) fn answered(&mut self, now: u64, answer: &Answer) -> Result<Outcome, NoMemory>
        requires { self.old.events < 2 ^ 62 }
        ensures ok { IfOk result (λ o. (ch : Choices) × Steps (raft_step ch (node_of self.old) now (kind.Deliver (mail_of answer.now)) (reaction self.old.member (asked.Deliver (mail_of answer.now)))) self.old self.new o) }
        ensures err { OnErr result (self.new ≡ self.old) }
    {
        // To lend a field opens what the type says of the node.
        let _raft = &self.raft;
        let reaction = self.take_answer(now, answer)?;
        Ok(self.give(reaction))
    }

    // Raft takes an answer, and the sessions that it names are heard, where this member leads in its term. What hearing
    // needs is made before. After an error nothing has changed.
    fn take_answer(&mut self, now: u64, answer: &Answer) -> Result<Reaction, NoMemory>
        requires { self.old.events < 2 ^ 62 }
        ensures ok { IfOk result (λ r. IsAnswered now answer.now (named_by self.old.member answer.now) self.old r self.new) }
        ensures err { OnErr result (self.new ≡ self.old) }
    {
        let sessions = named(&self.raft, answer);
        let admitted = self.admit_named(now, sessions)?;
        let mail = bare(self.alloc, answer);
        match self.take_mail(now, mail) {
            Ok(reaction) => {
                self.hear_named(now, sessions);
                drop(admitted);
                Ok(reaction)
            }
            Err(none) => {
                self.forget_named(&admitted);
                drop(admitted);
                Err(none)
            }
        }
    }

    // Those of the sessions that the state has are known from here on, so that they can be heard without memory. Answers
    // those that were not known before. After an error nothing has changed.
    fn admit_named(&mut self, now: u64, sessions: &[u64]) -> Result<Vec<u64>, NoMemory>
        ensures ok { IfOk result (λ list. IsAdmitted self.old.store.state.sessions sessions.now self.old.heard list.items self.new.heard) }
        ensures rest { self.new ≡ with_heard self.old self.new.heard }
        ensures err { OnErr result (self.new ≡ self.old) }
    {
        admit(
            self.alloc,
            &mut self.expiry,
            &self.storage.committed(),
            now,
            sessions,
        )
    }

    // Those of the sessions that the state has, and which are known, are heard.
    fn hear_named(&mut self, now: u64, sessions: &[u64])
        requires { AreKnown self.old.store.state.sessions sessions.now self.old.heard }
        ensures { self.new ≡ with_heard self.old (hear_all now self.old.store.state self.old.heard sessions.now) }
    {
        hear_known(&mut self.expiry, &self.storage.committed(), now, sessions);
    }

    // Nothing is known of these sessions any more.
    fn forget_named(&mut self, sessions: &[u64])
        ensures { self.new ≡ with_heard self.old (forgotten self.old.heard sessions.now) }
    {
        forget(&mut self.expiry, sessions);
    }
}
