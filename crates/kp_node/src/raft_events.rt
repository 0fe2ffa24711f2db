//! Events that Raft takes as they are.

ghost use Rattle.std.specs.Prelude.{◌≡◌, ◌^◌, ◌<◌, ◌≤◌, IfOk, OnErr};
ghost use Rattle.kp_step.specs.Step.{standing_of};
ghost use Rattle.kp_node.specs.Parts.{node_of};
ghost use Rattle.kp_step.specs.Choices.{Choices};
ghost use Rattle.kp_event.specs.declared.event.NodeEventKind.TheVariants as kind;
ghost use Rattle.kp_raft.specs.declared.event.RaftEvent.TheVariants as asked;
ghost use Rattle.kp_node.specs.Steps.{Steps};
ghost use Rattle.kp_node.specs.Foreseen.{IsForeseen, IsUsual, NamesNone, becomes_leader, reaction};
ghost use Rattle.kp_node.specs.Reactions.{IsDelivered, IsReaction, given_by, heard_if, raft_step};

use crate::ahead::{hear_if, look_ahead, rise_if};
use crate::foreseen::{foresee_mail, foresee_timeout, step_raft};
use crate::node::Node;
use crate::outcome::Outcome;
use crate::walking::Turned;
use kp_entry::Records;
use kp_event::Said;
use kp_model::{Items, NoMemory};
use kp_raft::{Mail, Mails, RaftEvent, RaftOut};
use kp_snapshot::Image;

/// What an event of Raft gives.
#[derive(Drop)]
pub(crate) struct Reaction {
    pub(crate) records: Records,
    pub(crate) mail: Mails<Image>,
    pub(crate) ready: Items<u64>,
    pub(crate) lost: u32,
}

impl Node {
    // The node heard of no leader for too long. After an error nothing has changed.
    pub(crate) fn timeout(&mut self, now: u64) -> Result<Outcome, NoMemory>
        requires { self.old.events < 2 ^ 62 }
        ensures ok { IfOk result (λ o. (ch : Choices) × Steps (raft_step ch (node_of self.old) now kind.Timeout (reaction self.old.member asked.Timeout)) self.old self.new o) }
        ensures err { OnErr result (self.new ≡ self.old) }
    {
        let forecast = foresee_timeout(&self.raft);
        let reaction = self.react(now, RaftEvent::Timeout, forecast.may_rise, forecast.lead)?;
        Ok(self.give(reaction))
    }

    // A message comes that is no append, no image, and no answer to an append. After an error nothing has changed.
    pub(crate) fn deliver_plain(&mut self, now: u64, mail: Mail<Image>) -> Result<Outcome, NoMemory>
        requires events { self.old.events < 2 ^ 62 }
        requires plain { NamesNone mail }
        ensures ok { IfOk result (λ o. (ch : Choices) × Steps (raft_step ch (node_of self.old) now (kind.Deliver mail) (reaction self.old.member (asked.Deliver mail))) self.old self.new o) }
        ensures err { OnErr result (self.new ≡ self.old) }
    {
        // To lend a field opens what the type says of the node.
        let _raft = &self.raft;
        let reaction = self.take_mail(now, mail)?;
        Ok(self.give(reaction))
    }

    // Raft takes a message by which at most a no-op is appended, and what follows of it is done. After an error nothing
    // has changed.
    pub(crate) fn take_mail(&mut self, now: u64, mail: Mail<Image>) -> Result<Reaction, NoMemory>
        requires events { self.old.events < 2 ^ 62 }
        requires usual { IsUsual mail }
        ensures ok { IfOk result (λ r. IsDelivered now mail self.old r self.new) }
        ensures err { OnErr result (self.new ≡ self.old) }
    {
        let forecast = match foresee_mail(&self.raft, &mail) {
            Ok(forecast) => forecast,
            Err(none) => {
                drop(mail);
                return Err(none);
            }
        };
        self.react(
            now,
            RaftEvent::Deliver(mail),
            forecast.may_rise,
            forecast.lead,
        )
    }

    // Raft takes an event, and what follows of it is done. `may_rise` says whether the term may rise by it, and `lead`
    // of which term the member may become leader. After an error nothing has changed.
    fn react(
        &mut self,
        now: u64,
        event: RaftEvent<Image>,
        may_rise: bool,
        lead: Option<u64>,
    ) -> Result<Reaction, NoMemory>
        requires events { self.old.events < 2 ^ 62 }
        requires foreseen { IsForeseen self.old.member event may_rise lead }
        ensures ok { IfOk result (λ r. IsReaction event lead self.old r self.new) }
        ensures heard { IfOk result (λ r. self.new.heard ≡ heard_if (becomes_leader self.old.member event) now self.old.store.state.sessions self.old.heard) }
        ensures err { OnErr result (self.new ≡ self.old) }
    {
        let ahead = match look_ahead(
            self.alloc,
            &self.seats,
            &self.storage,
            now,
            may_rise,
            lead.is_some(),
        ) {
            Ok(ahead) => ahead,
            Err(none) => {
                drop(event);
                return Err(none);
            }
        };
        let _commit = self.raft.commit();
        let term = self.raft.term();
        let stepped = match step_raft(&mut self.raft, &mut self.storage, event, lead) {
            Ok(stepped) => stepped,
            Err(none) => {
                drop(ahead);
                return Err(none);
            }
        };
        let rose = term < self.raft.term();
        let zxid = self.storage.applied();
        let turned = rise_if(
            self.alloc,
            rose,
            &mut self.seats,
            &mut self.watches,
            zxid,
            ahead.before,
        );
        hear_if(
            stepped.led,
            &mut self.expiry,
            now,
            &self.storage,
            ahead.heard,
        );
        self.events += 1;
        Ok(gather(stepped.out, turned))
    }

    // What is given of it.
    pub(crate) fn give(&self, reaction: Reaction) -> Outcome
        ensures { result ≡ given_by reaction (standing_of (node_of self.now)) }
    {
        Outcome {
            said: Said::Raft,
            records: reaction.records,
            image: None,
            mail: reaction.mail,
            cut: None,
            lost: reaction.lost,
            standing: self.standing(),
            ready: reaction.ready,
        }
    }
}

// What Raft gave, and what came of the connections.
fn gather(out: RaftOut<Image>, turned: Turned) -> Reaction
    ensures { result ≡ record { records = out.records; mail = out.mail; ready = turned.ready; lost = turned.lost } }
{
    let RaftOut {
        image,
        records,
        mail,
        ..
    } = out;
    drop(image);
    Reaction {
        records,
        mail,
        ready: turned.ready,
        lost: turned.lost,
    }
}
