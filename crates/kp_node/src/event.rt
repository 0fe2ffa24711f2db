//! A node takes an event.

ghost use Rattle.std.specs.Prelude.{◌≡◌, ◌^◌, ◌<◌, IfOk, OnErr};
ghost use Rattle.kp_event.specs.declared.event.NodeEvent.{NodeEvent as Event};
ghost use Rattle.kp_raft.specs.declared.mail.Mail.{Mail as Message};
ghost use Rattle.kp_snapshot.specs.Snapshots.{Snapshot};
ghost use Rattle.kp_step.specs.Choices.{Choices};
ghost use Rattle.kp_step.specs.Step.{step};
ghost use Rattle.kp_node.specs.Clients.{client_step};
ghost use Rattle.kp_node.specs.Facts.{words};
ghost use Rattle.kp_node.specs.Parts.{node_of};
ghost use Rattle.kp_node.specs.Sure.{IsSure};
ghost use Rattle.kp_node.specs.Steps.{Steps, images};

use crate::node::Node;
use crate::outcome::Outcome;
use kp_event::{NodeEvent, NodeEventKind};
use kp_model::{Bytes, NoMemory};
use kp_raft::Mail;
use kp_snapshot::Image;

impl Node {
    /// Takes an event, with its time in milliseconds. What comes of it is the step of the definition, under some choices:
    /// for want of memory an append may be cut and connections may be given up, and the outcome says so. After an error
    /// nothing has changed. A Hangup and a Drain take no memory.
    pub fn event(&mut self, event: NodeEvent<Mail<Image>>) -> Result<Outcome, NoMemory>
        requires { self.old.events < 2 ^ 62 }
        ensures ok { IfOk result (λ o. (ch : Choices) × Steps (step words images ch (node_of self.old) event) self.old self.new o) }
        ensures err { OnErr result (self.new ≡ self.old) }
        ensures sure { IsSure event.kind result }
    {
        let NodeEvent { now, kind } = event;
        match kind {
            NodeEventKind::Accept { draw } => self.accept(draw),
            NodeEventKind::Client { conn, bytes } => self.take_piece(now, conn, bytes),
            NodeEventKind::Hangup { conn } => Ok(self.hangup(conn)),
            NodeEventKind::Drain { conn } => Ok(self.drain(conn)),
            NodeEventKind::Deliver(mail) => self.deliver(now, mail),
            NodeEventKind::Timeout => self.timeout(now),
            NodeEventKind::Beat => self.beat(),
            NodeEventKind::CommitOne => self.commit_one(now),
            NodeEventKind::ExpireDue => self.expire_due(now),
            NodeEventKind::Snapshot => self.snapshot(),
        }
    }

    // A connection takes a piece of bytes, which are given up behind it. After an error nothing has changed.
    fn take_piece(&mut self, now: u64, conn: u64, bytes: Bytes) -> Result<Outcome, NoMemory>
        requires { self.old.events < 2 ^ 62 }
        ensures ok { IfOk result (λ o. (ch : Choices) × Steps (client_step words ch (node_of self.old) now conn bytes) self.old self.new o) }
        ensures err { OnErr result (self.new ≡ self.old) }
    {
        let taken = self.client(now, conn, bytes.as_slice());
        drop(bytes);
        taken
    }
}
