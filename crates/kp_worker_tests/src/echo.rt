// A small node that says back what it is told, and a gate that holds a connection.
ghost use Rattle.std.specs.Prelude.{◌≡◌, ◌<◌, ◌^◌, IfOk};
ghost use Rattle.kp_event.specs.Kinds.{row_of_kind, row_of_said};
ghost use Rattle.kp_shared.specs.TaskSteps.{Flushes, Thinks};
ghost use Rattle.kp_worker_tests.specs.Echoes.{any_move, any_stay, life_of};

use crate::message::Message;
use kp_event::{FedWord, KeptFail, NodeEvent, NodeEventKind, OutPiece, Said, Standing, Thought};
use kp_io::Gate;
use kp_model::{Bytes, Items};
use kp_shared::Kept;
use std::alloc::{AllocError, Global};
use std::sync::Wait;
use std::sync::atomic::{AtomicBool, Ordering};
use std::thread;

/// A node that keeps what its two connections say, and gives it back when they are drained. Each Beat sends one message to the
/// node 2.
#[derive(Drop)]
pub struct Echo {
    alloc: Global,
    pub thought: u64,
    pub kept: u64,
    one: Vec<u8>,
    two: Vec<u8>,
}

impl Echo {
    /// A node that was told nothing.
    pub fn new(alloc: Global) -> Echo
        ensures { (result.thought ≡ 0) × (result.kept ≡ 0) }
    {
        Echo {
            alloc,
            thought: 0,
            kept: 0,
            one: Vec::new(alloc),
            two: Vec::new(alloc),
        }
    }
}

// Takes what waits in a buffer.
fn drained(alloc: Global, buffer: &mut Vec<u8>) -> Result<OutPiece, AllocError> {
    let bytes = Bytes::from_vec(Vec::from_slice(alloc, buffer.as_slice())?);
    buffer.clear();
    Ok(OutPiece {
        bytes,
        over: false,
        lost: false,
    })
}

// What is said for an event.
fn say(
    alloc: Global,
    one: &mut Vec<u8>,
    two: &mut Vec<u8>,
    kind: NodeEventKind<Message>,
) -> Result<Said, AllocError>
    ensures { IfOk result (λ said. row_of_said said ≡ row_of_kind kind) }
{
    match kind {
        NodeEventKind::Accept { draw: _ } => Ok(Said::Conn(7)),
        NodeEventKind::Client { conn, bytes } => {
            let buffer = if conn == 1 { one } else { two };
            buffer.extend_from_slice(bytes.as_slice())?;
            Ok(Said::Fed(FedWord::Taken))
        }
        NodeEventKind::Hangup { .. } => Ok(Said::Hung(true)),
        NodeEventKind::Drain { conn } => {
            let buffer = if conn == 1 { one } else { two };
            Ok(Said::Out(Some(drained(alloc, buffer)?)))
        }
        NodeEventKind::Deliver(_) | NodeEventKind::Timeout => Ok(Said::Raft),
        NodeEventKind::Beat => Ok(Said::Beat(1)),
        NodeEventKind::CommitOne => Ok(Said::Done(None)),
        NodeEventKind::ExpireDue => Ok(Said::Expired(0)),
        NodeEventKind::Snapshot => Ok(Said::Snapped(0)),
    }
}

// The messages of an event.
fn mail_of(alloc: Global, beat: bool) -> Result<Items<(u8, Message)>, AllocError> {
    let mut mail = Vec::new(alloc);
    if beat {
        if mail.push((2, Message { feeds: true })).is_err() {
            return Err(AllocError);
        }
    }
    Ok(Items::from_vec(mail))
}

impl Kept for Echo {
    type Mail = Message;

    ghost life = { life_of };

    ghost moves = { any_move };

    ghost stays = { any_stay };

    ghost keeps = { any_stay };

    ghost number = { λ x. 1 };

    ghost members = { λ x. 3 };

    ghost feeds = { λ message. message.feeds };

    fn think(&mut self, event: NodeEvent<Message>) -> Result<Thought<(u8, Message)>, KeptFail>
        requires { self.old.thought < 2 ^ 62 }
        ensures { Thinks any_move any_stay life_of self.old event result self.new }
    {
        let NodeEvent { now: _, kind } = event;
        let beat = matches!(&kind, NodeEventKind::Beat);
        let Ok(mail) = mail_of(self.alloc, beat) else {
            return Err(KeptFail::NoMemory);
        };
        match say(self.alloc, &mut self.one, &mut self.two, kind) {
            Ok(said) => {
                self.thought += 1;
                Ok(Thought {
                    said,
                    mail,
                    cut: None,
                    lost: 0,
                    standing: Standing {
                        leader: true,
                        last: self.thought,
                        commit: 0,
                    },
                    ready: Items::new(self.alloc),
                    number: self.thought,
                })
            }
            Err(_) => Err(KeptFail::NoMemory),
        }
    }

    fn flush(&mut self) -> Result<u64, KeptFail>
        ensures { Flushes any_stay any_stay life_of self.old result self.new }
    {
        self.kept = self.thought;
        Ok(self.kept)
    }

    fn number(&self) -> u8 {
        1
    }

    fn members(&self) -> u8 {
        3
    }

    fn feeds_log(message: &Message) -> bool {
        message.feeds
    }
}

/// A gate that holds the first connection until the second was answered once.
#[derive(Drop)]
pub struct Holds {
    answered: AtomicBool,
}

impl Holds {
    /// A gate that holds the first connection.
    pub fn new() -> Holds {
        Holds {
            answered: AtomicBool::new(false),
        }
    }
}

impl Gate for Holds {
    fn pass<R: Wait>(&self, rt: &R, conn: u64, turn: u64) {
        if conn == 2 {
            if turn > 0 {
                self.answered.store(true, Ordering::SeqCst);
            }
            return;
        }
        for _ in rt.forever() {
            if self.answered.load(Ordering::SeqCst) {
                return;
            }
            thread::yield_now();
        }
    }
}
