// A small node of any number of connections, which says back what it is told.
ghost use Rattle.std.specs.Prelude.{◌≡◌, ◌<◌, ◌^◌, IfOk, None};
ghost use Rattle.kp_event.specs.Kinds.{row_of_kind, row_of_said};
ghost use Rattle.kp_shared.specs.TaskSteps.{Flushes, Thinks};
ghost use Rattle.kp_worker_tests.specs.Parrots.{any_move, any_stay, life_of};

use crate::message::Message;
use kp_event::{
    FedWord, KeptFail, NodeEvent, NodeEventKind, OutPiece, Said, Standing, Thought, Why,
};
use kp_model::{Bytes, Items};
use kp_shared::Kept;
use std::alloc::{AllocError, Global};

/// A node that numbers its connections from 1, and gives back what each says when it is drained. A `!` is a bad frame, and a
/// connection that said `q` is over. Its disk fails at the flush behind so many others.
#[derive(Drop)]
pub struct Parrot {
    alloc: Global,
    pub thought: u64,
    pub kept: u64,
    pub faults: u128,
    pub death: Option<Why>,
    flushes: u64,
    buffers: Vec<Vec<u8>>,
}

impl Parrot {
    /// A node that was told nothing.
    pub fn new(alloc: Global, flushes: u64) -> Parrot
        ensures { (result.thought ≡ 0) × (result.kept ≡ 0) × (result.death ≡ None) }
    {
        Parrot {
            alloc,
            thought: 0,
            kept: 0,
            faults: 0,
            death: None,
            flushes,
            buffers: Vec::new(alloc),
        }
    }
}

// Takes what a connection says.
fn feed(buffers: &mut Vec<Vec<u8>>, conn: u64, bytes: &[u8]) -> Result<FedWord, AllocError> {
    let at = conn.wrapping_sub(1) as usize;
    match buffers.get_mut(at) {
        Some(buffer) => {
            if bytes.contains(&b'!') {
                return Ok(FedWord::Bad { at: 0 });
            }
            match buffer.extend_from_slice(bytes) {
                Ok(()) => Ok(FedWord::Taken),
                Err(_) => Err(AllocError),
            }
        }
        None => Ok(FedWord::Unknown),
    }
}

// Takes what waits for a connection.
fn drain(
    alloc: Global,
    buffers: &mut Vec<Vec<u8>>,
    conn: u64,
) -> Result<Option<OutPiece>, AllocError> {
    let at = conn.wrapping_sub(1) as usize;
    match buffers.get_mut(at) {
        Some(buffer) => {
            let over = buffer.as_slice().contains(&b'q');
            let copy = Vec::from_slice(alloc, buffer.as_slice())?;
            buffer.clear();
            Ok(Some(OutPiece {
                bytes: Bytes::from_vec(copy),
                over,
                lost: false,
            }))
        }
        None => Ok(None),
    }
}

// What is said for an event.
fn say(
    alloc: Global,
    buffers: &mut Vec<Vec<u8>>,
    kind: NodeEventKind<Message>,
) -> Result<Said, AllocError>
    ensures { IfOk result (λ said. row_of_said said ≡ row_of_kind kind) }
{
    match kind {
        NodeEventKind::Accept { draw: _ } => {
            if buffers.push(Vec::new(alloc)).is_err() {
                return Err(AllocError);
            }
            Ok(Said::Conn(buffers.len() as u64))
        }
        NodeEventKind::Client { conn, bytes } => {
            Ok(Said::Fed(feed(buffers, conn, bytes.as_slice())?))
        }
        NodeEventKind::Hangup { .. } => Ok(Said::Hung(true)),
        NodeEventKind::Drain { conn } => Ok(Said::Out(drain(alloc, buffers, conn)?)),
        NodeEventKind::Deliver(_) | NodeEventKind::Timeout => Ok(Said::Raft),
        NodeEventKind::Beat => Ok(Said::Beat(0)),
        NodeEventKind::CommitOne => Ok(Said::Done(None)),
        NodeEventKind::ExpireDue => Ok(Said::Expired(0)),
        NodeEventKind::Snapshot => Ok(Said::Snapped(0)),
    }
}

// The connection for which an event makes something ready.
fn named(kind: &NodeEventKind<Message>) -> Option<u64> {
    match kind {
        NodeEventKind::Client { conn, .. } => Some(*conn),
        _ => None,
    }
}

// The list of that connection.
fn ready_of(alloc: Global, conn: Option<u64>) -> Result<Items<u64>, AllocError> {
    let mut ready = Vec::new(alloc);
    if let Some(conn) = conn {
        ready.push(conn)?;
    }
    Ok(Items::from_vec(ready))
}

impl Kept for Parrot {
    type Mail = Message;

    ghost life = { life_of };

    ghost moves = { any_move };

    ghost stays = { any_stay };

    ghost keeps = { any_stay };

    ghost number = { λ x. 1 };

    ghost members = { λ x. 1 };

    ghost feeds = { λ message. message.feeds };

    fn think(&mut self, event: NodeEvent<Message>) -> Result<Thought<(u8, Message)>, KeptFail>
        requires { self.old.thought < 2 ^ 62 }
        ensures { Thinks any_move any_stay life_of self.old event result self.new }
    {
        let NodeEvent { now: _, kind } = event;
        if let Some(why) = self.death {
            drop(kind);
            return Err(KeptFail::Dead(why));
        }
        let Ok(ready) = ready_of(self.alloc, named(&kind)) else {
            return Err(KeptFail::NoMemory);
        };
        match say(self.alloc, &mut self.buffers, kind) {
            Ok(said) => {
                self.thought += 1;
                Ok(Thought {
                    said,
                    mail: Items::new(self.alloc),
                    cut: None,
                    lost: 0,
                    standing: Standing {
                        leader: false,
                        last: 0,
                        commit: 0,
                    },
                    ready,
                    number: self.thought,
                })
            }
            Err(_) => Err(KeptFail::NoMemory),
        }
    }

    fn flush(&mut self) -> Result<u64, KeptFail>
        ensures { Flushes any_stay any_stay life_of self.old result self.new }
    {
        if let Some(why) = self.death {
            return Err(KeptFail::Dead(why));
        }
        if self.flushes == 0 {
            let Some(count) = self.faults.checked_add(1) else {
                return Err(KeptFail::NoMemory);
            };
            self.faults = count;
            self.death = Some(Why::Disk { count });
            return Err(KeptFail::DiskFault);
        }
        self.flushes -= 1;
        self.kept = self.thought;
        Ok(self.kept)
    }

    fn number(&self) -> u8 {
        1
    }

    fn members(&self) -> u8 {
        1
    }

    fn feeds_log(message: &Message) -> bool {
        message.feeds
    }
}
