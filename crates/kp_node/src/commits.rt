//! The next committed entry is applied.

ghost use Rattle.std.specs.Prelude.{◌≡◌, ◌^◌, ◌<◌, ◌∷◌, List, is_some, true, IfOk, OnErr};
ghost use Rattle.kp_model.specs.LogEntry.{LogEntry};
ghost use Rattle.kp_step.specs.Applying.{upcoming};
ghost use Rattle.kp_step.specs.Choices.{Choices};
ghost use Rattle.kp_step.specs.Step.{standing_of};
ghost use Rattle.kp_node.specs.Commits.{commit_step, ground_of, IsCommitted, given_applied};
ghost use Rattle.kp_node.specs.Parts.{node_of};
ghost use Rattle.kp_node.specs.Steps.{Steps};

use crate::applying::{Applied, apply_next};
use crate::joining::Ground;
use crate::node::Node;
use crate::outcome::Outcome;
use crate::serving::Handed;
use kp_event::Said;
use kp_model::{NoMemory, Role};

impl Node {
    // The next entry is applied, if it is committed. After an error nothing has changed.
    pub(crate) fn commit_one(&mut self, now: u64) -> Result<Outcome, NoMemory>
        requires { self.old.events < 2 ^ 62 }
        ensures ok { IfOk result (λ o. (ch : Choices) × Steps (commit_step ch (node_of self.old) now) self.old self.new o) }
        ensures err { OnErr result (self.new ≡ self.old) }
    {
        // To lend a field opens what the type says of the node.
        let _raft = &self.raft;
        let _commit = self.raft.commit();
        if !self.has_upcoming() {
            self.events += 1;
            return Ok(self.quiet(Said::Done(None)));
        }
        let applied = self.apply_one(now)?;
        Ok(self.give_applied(applied))
    }

    // Whether there is a committed entry that isn't applied.
    fn has_upcoming(&self) -> bool
        ensures { result ≡ is_some (upcoming (node_of self.now)) }
    {
        self.storage.applied() < self.raft.commit() && self.storage.next_entry().is_some()
    }

    // What stays the same throughout an event.
    fn ground_now(&self, now: u64) -> Ground
        ensures { result ≡ ground_of self.now now }
    {
        Ground {
            me: self.raft.node(),
            boot: self.boot,
            term: self.raft.term(),
            leader: self.raft.leader(),
            leads: matches!(self.raft.role(), Role::Leader),
            now,
        }
    }

    // That entry is applied. After an error nothing has changed.
    fn apply_one(&mut self, now: u64) -> Result<Applied, NoMemory>
        requires events { self.old.events < 2 ^ 62 }
        requires there { is_some (upcoming (node_of self.old)) ≡ true }
        ensures ok { IfOk result (λ a. (e : LogEntry) (es : List LogEntry) → self.old.store.unapplied ≡ e ∷ es → IsCommitted now e es self.old a self.new) }
        ensures err { OnErr result (self.new ≡ self.old) }
    {
        let ground = self.ground_now(now);
        let _commit = self.raft.commit();
        let applied = apply_next(
            self.alloc,
            ground,
            &mut self.raft,
            &mut self.storage,
            &mut self.seats,
            &mut self.watches,
            &mut self.expiry,
        )?;
        self.events += 1;
        Ok(applied)
    }

    // What is given of it.
    fn give_applied(&self, applied: Applied) -> Outcome
        ensures { result ≡ given_applied applied (standing_of (node_of self.now)) }
    {
        let Applied {
            index,
            handed,
            ready,
            lost,
        } = applied;
        let Handed { records, mail } = handed;
        Outcome {
            said: Said::Done(Some(index)),
            records,
            image: None,
            mail,
            cut: None,
            lost,
            standing: self.standing(),
            ready,
        }
    }
}
