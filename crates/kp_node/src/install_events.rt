//! A leader sends an image.

ghost use Rattle.std.specs.Prelude.{◌≡◌, ◌||◌, nat_lt, ℕ, ◌^◌, ◌<◌, ◌≤◌, [], length, map, None, true, IfOk, OnErr, if◌then◌else◌};
ghost use Rattle.kp_raft.specs.Parts.{nothing};
ghost use Rattle.kp_raft.specs.Members.{running_of};
ghost use Rattle.kp_step.specs.Asking.{is_whole as whole_so};
ghost use Rattle.kp_step.specs.Choices.{Choices};
ghost use Rattle.kp_step.specs.Step.{filled, standing_of};
ghost use Rattle.kp_node.specs.Filling.{answers};
ghost use Rattle.kp_node.specs.Installing.{mail_of, reaction_to, image_by};
ghost use Rattle.kp_node.specs.Parts.{node_of};
ghost use Rattle.kp_node.specs.Replacing.{IsMoved, install_step, given_behind_it};
ghost use Rattle.kp_node.specs.Steps.{images, Steps};

use crate::ahead::look_if;
use crate::filling::fill;
use crate::installs::{Sending, install};
use crate::leaving::leave_if;
use crate::node::Node;
use crate::outcome::Outcome;
use crate::spoken::Spoken;
use crate::walking::Turned;
use kp_entry::Records;
use kp_event::Said;
use kp_model::{Items, NoMemory};
use kp_raft::{Mails, Raft, RaftOut};
use kp_snapshot::Image;
use std::alloc::Global;

/// What an image gives that a leader sends.
#[derive(Drop)]
pub(crate) struct Moved {
    pub(crate) records: Records,
    pub(crate) mail: Mails<Image>,
    // the image, where it was taken
    pub(crate) image: Option<Image>,
    pub(crate) ready: Items<u64>,
    pub(crate) lost: u32,
}

impl Node {
    // A leader sends an image. After an error nothing has changed.
    pub(crate) fn install(&mut self, now: u64, sending: Sending) -> Result<Outcome, NoMemory>
        requires { self.old.events < 2 ^ 62 }
        ensures ok { IfOk result (λ o. (ch : Choices) × Steps (install_step ch (node_of self.old) now sending) self.old self.new o) }
        ensures err { OnErr result (self.new ≡ self.old) }
    {
        // To lend a field opens what the type says of the node.
        let _raft = &self.raft;
        if !is_whole(&sending) {
            drop(sending);
            let moved = self.pass_over();
            return Ok(self.give_moved(moved));
        }
        let moved = self.take_image(now, sending)?;
        Ok(self.give_moved(moved))
    }

    // Nothing is done with what isn't whole.
    fn pass_over(&mut self) -> Moved
        requires { self.old.events < 2 ^ 62 }
        ensures { (now : ℕ) → IsMoved now (nothing (running_of self.old.member)) None self.old result self.new }
    {
        self.events += 1;
        Moved {
            records: Records::new(self.alloc),
            mail: Items::new(self.alloc),
            image: None,
            ready: Items::new(self.alloc),
            lost: 0,
        }
    }

    // Raft, the storage and the deadlines take it, and what follows of it is done. After an error nothing has changed.
    fn take_image(&mut self, now: u64, sending: Sending) -> Result<Moved, NoMemory>
        requires events { self.old.events < 2 ^ 62 }
        requires whole { whole_so images sending.index sending.index_term sending.image ≡ true }
        ensures ok { IfOk result (λ r. IsMoved now (reaction_to self.old.member (mail_of sending)) (image_by self.old.member (mail_of sending)) self.old r self.new) }
        ensures err { OnErr result (self.new ≡ self.old) }
    {
        let term = self.raft.term();
        let may_leave = may_leave(&self.raft, &sending);
        let before = match look_if(self.alloc, &self.seats, may_leave) {
            Ok(before) => before,
            Err(none) => {
                drop(sending);
                return Err(none);
            }
        };
        let zxid = self.storage.applied();
        let out = match install(
            self.alloc,
            &mut self.raft,
            &mut self.storage,
            &mut self.expiry,
            now,
            sending,
        ) {
            Ok(out) => out,
            Err(none) => {
                drop(before);
                return Err(none);
            }
        };
        let rose = term < self.raft.term();
        let taken = out.image.is_some();
        let turned = leave_if(
            self.alloc,
            taken,
            rose,
            &mut self.seats,
            &mut self.watches,
            zxid,
            before,
        );
        self.events += 1;
        Ok(gather(self.alloc, out, turned, &mut self.spoken))
    }

    // What is given of it.
    fn give_moved(&self, moved: Moved) -> Outcome
        ensures { result ≡ given_behind_it moved (standing_of (node_of self.now)) }
    {
        Outcome {
            said: Said::Raft,
            records: moved.records,
            image: moved.image,
            mail: moved.mail,
            cut: None,
            lost: moved.lost,
            standing: self.standing(),
            ready: moved.ready,
        }
    }
}

// Whether the image is of the index and the term that the message names.
fn is_whole(sending: &Sending) -> bool
    ensures { result ≡ whole_so images sending.now.index sending.now.index_term sending.now.image }
{
    sending.image.index() == sending.index && sending.image.term() == sending.index_term
}

// Whether the image may be taken, or the term may rise.
fn may_leave(raft: &Raft<Image>, sending: &Sending) -> bool
    ensures { result ≡ (nat_lt raft.now.vars.commit sending.now.index || nat_lt raft.now.held.term sending.now.term) }
{
    raft.commit() < sending.index || raft.term() < sending.term
}

// What Raft gave, with the sessions that were heard in its answer, and what came of the connections.
fn gather(alloc: Global, out: RaftOut<Image>, turned: Turned, spoken: &mut Spoken) -> Moved
    requires { length out.mail ≤ 1 }
    ensures moved { result ≡ record { records = out.records; mail = map (filled spoken.old) out.mail; image = out.image; ready = turned.ready; lost = turned.lost } }
    ensures spoken { spoken.new ≡ (if answers out.mail then [] else spoken.old) }
{
    let RaftOut {
        image,
        records,
        mail,
        ..
    } = out;
    Moved {
        records,
        mail: fill(alloc, mail, spoken),
        image,
        ready: turned.ready,
        lost: turned.lost,
    }
}
