//! An append comes.

ghost use Rattle.std.specs.Prelude.{◌≡◌, ◌^◌, ◌<◌, ◌≤◌, [], length, map, IfOk, OnErr, if◌then◌else◌};
ghost use Rattle.kp_step.specs.Asking.{cut_at as cut_so};
ghost use Rattle.kp_step.specs.Choices.{Choices};
ghost use Rattle.kp_step.specs.Step.{filled, standing_of};
ghost use Rattle.kp_node.specs.Filling.{answers};
ghost use Rattle.kp_node.specs.Parts.{node_of};
ghost use Rattle.kp_node.specs.Steps.{Steps};
ghost use Rattle.kp_node.specs.Taking.{IsTaken, append_step, given_of};

use crate::ahead::{look_if, rise_if};
use crate::appends::append;
use crate::filling::fill;
use crate::node::Node;
use crate::outcome::Outcome;
use crate::spoken::Spoken;
use crate::walking::Turned;
use kp_entry::Records;
use kp_event::Said;
use kp_model::{Items, NoMemory};
use kp_raft::{AppendMail, Mails, RaftOut};
use kp_snapshot::Image;
use std::alloc::Global;

/// What an append gives.
#[derive(Drop)]
pub(crate) struct Taken {
    pub(crate) records: Records,
    pub(crate) mail: Mails<Image>,
    pub(crate) ready: Items<u64>,
    pub(crate) lost: u32,
    // how many entries were taken, where there were more
    pub(crate) cut: Option<u32>,
}

impl Node {
    // An append comes. After an error nothing has changed.
    pub(crate) fn append(&mut self, now: u64, mail: &AppendMail) -> Result<Outcome, NoMemory>
        requires { self.old.events < 2 ^ 62 }
        ensures ok { IfOk result (λ o. (ch : Choices) × Steps (append_step ch (node_of self.old) now mail.now) self.old self.new o) }
        ensures err { OnErr result (self.new ≡ self.old) }
    {
        // To lend a field opens what the type says of the node.
        let _raft = &self.raft;
        let taken = self.take_entries(mail)?;
        Ok(self.give_taken(taken))
    }

    // Raft and the storage take its entries, and what follows of it is done. After an error nothing has changed.
    fn take_entries(&mut self, mail: &AppendMail) -> Result<Taken, NoMemory>
        requires { self.old.events < 2 ^ 62 }
        ensures ok { IfOk result (λ r. IsTaken mail.now self.old r self.new) }
        ensures err { OnErr result (self.new ≡ self.old) }
    {
        let term = self.raft.term();
        let before = look_if(self.alloc, &self.seats, term < mail.term)?;
        let (out, count) = match append(self.alloc, &mut self.raft, &mut self.storage, mail) {
            Ok(taken) => taken,
            Err(none) => {
                drop(before);
                return Err(none);
            }
        };
        let rose = term < self.raft.term();
        let zxid = self.storage.applied();
        let turned = rise_if(
            self.alloc,
            rose,
            &mut self.seats,
            &mut self.watches,
            zxid,
            before,
        );
        let cut = cut_at(count, mail);
        self.events += 1;
        Ok(gather(self.alloc, out, turned, &mut self.spoken, cut))
    }

    // What is given of it.
    fn give_taken(&self, taken: Taken) -> Outcome
        ensures { result ≡ given_of taken (standing_of (node_of self.now)) }
    {
        Outcome {
            said: Said::Raft,
            records: taken.records,
            image: None,
            mail: taken.mail,
            cut: taken.cut,
            lost: taken.lost,
            standing: self.standing(),
            ready: taken.ready,
        }
    }
}

// The number of entries that were taken, where there were more.
fn cut_at(count: u32, mail: &AppendMail) -> Option<u32>
    ensures { result ≡ cut_so count (length mail.now.entries) }
{
    if (count as usize) < mail.entries.len() {
        Some(count)
    } else {
        None
    }
}

// What Raft gave, with the sessions that were heard in its answer, and what came of the connections.
fn gather(
    alloc: Global,
    out: RaftOut<Image>,
    turned: Turned,
    spoken: &mut Spoken,
    cut: Option<u32>,
) -> Taken
    requires { length out.mail ≤ 1 }
    ensures taken { result ≡ record { records = out.records; mail = map (filled spoken.old) out.mail; ready = turned.ready; lost = turned.lost; cut = cut } }
    ensures spoken { spoken.new ≡ (if answers out.mail then [] else spoken.old) }
{
    let RaftOut {
        image,
        records,
        mail,
        ..
    } = out;
    drop(image);
    Taken {
        records,
        mail: fill(alloc, mail, spoken),
        ready: turned.ready,
        lost: turned.lost,
        cut,
    }
}
