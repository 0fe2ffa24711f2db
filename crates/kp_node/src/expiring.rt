//! The ends of sessions that were not heard in time.

ghost use Rattle.std.specs.Prelude.{◌≡◌, ◌^◌, ◌<◌, map, IfOk, OnErr};
ghost use Rattle.kp_model.specs.declared.entry.Body.TheVariants as body;
ghost use Rattle.kp_expiry.specs.Due.{due};
ghost use Rattle.kp_step.specs.Asking.{taken_by, expiries};
ghost use Rattle.kp_step.specs.Choices.{Choices};
ghost use Rattle.kp_node.specs.Parts.{node_of};
ghost use Rattle.kp_node.specs.Steps.{Steps};
ghost use Rattle.kp_node.specs.Proposing.{expire_step};

use crate::node::Node;
use crate::outcome::Outcome;
use crate::proposing::leads;
use kp_event::Said;
use kp_expiry::Expiry;
use kp_model::{Body, NoMemory};
use std::alloc::Global;

impl Node {
    // The end of each session that was not heard in time, in milliseconds, is proposed. After an error nothing has changed.
    pub(crate) fn expire_due(&mut self, now: u64) -> Result<Outcome, NoMemory>
        requires { self.old.events < 2 ^ 62 }
        ensures ok { IfOk result (λ o. (ch : Choices) → Steps (expire_step ch (node_of self.old) now) self.old self.new o) }
        ensures err { OnErr result (self.new ≡ self.old) }
    {
        let ends = self.ends(now)?;
        let (out, count) = self.propose(now, ends)?;
        Ok(self.behind(Said::Expired(count), out, None))
    }

    // The ends that a leader proposes at this time, in milliseconds; another member looks for none.
    fn ends(&self, now: u64) -> Result<Vec<Body>, NoMemory>
        ensures { IfOk result (λ ends. taken_by (node_of self.now) now ends.items ≡ taken_by (node_of self.now) now (expiries (node_of self.now) now)) }
    {
        if !leads(&self.raft) {
            return Ok(Vec::new(self.alloc));
        }
        ends_of(self.alloc, &self.expiry, now)
    }
}

// The ends of the sessions whose deadline has come, in their order.
fn ends_of(alloc: Global, expiry: &Expiry, now: u64) -> Result<Vec<Body>, NoMemory>
    ensures { IfOk result (λ ends. ends.items ≡ map (λ id. body.Expire id) (due expiry.now now)) }
{
    let Ok(sessions) = expiry.due(alloc, now) else {
        return Err(NoMemory);
    };
    let mut ends = Vec::new(alloc);
    for session in &sessions {
        ends.push(Body::Expire { session: *session })?;
    }
    Ok(ends)
}
