// A node with its home, as a value that takes tasks.
ghost use Rattle.std.specs.Prelude.{◌≡◌, ℕ, Bool, ◌+◌, ◌<◌, ◌≤◌, ◌^◌};
ghost use Rattle.kp_event.specs.declared.event.NodeEvent.{NodeEvent};
ghost use Rattle.kp_event.specs.declared.thought.Thought.{Thought};
ghost use Rattle.kp_shared.specs.declared.kept.Life.{Life};
ghost use Rattle.kp_shared.specs.Letters.{Letter};
ghost use Rattle.kp_shared.specs.TaskLaws.{DiesOnce, Histories, KeepsAll};
ghost use Rattle.kp_shared.specs.TaskSteps.{Flushes, IsTaskStep, Thinks};

use crate::task::{Answer, Task};
use kp_event::{KeptFail, NodeEvent, Thought, Why};
use kp_turn::Storied;

/// How far a node is and why it died, for contracts alone: no value of it is ever made.
pub struct Life {
    /// Why it takes nothing any more, where it doesn't.
    pub death: Option<Why>,

    /// The count of its home's faults.
    pub faults: u128,

    /// How many events it has thought.
    pub thought: u64,

    /// The number that its last Flush answered.
    pub kept: u64,
}

/// A node with its home: it thinks events, and keeps the records of what it thought. What it sends are pairs of the number of the
/// node that a message is for, and the message.
pub trait Kept {
    /// A message of one node, as another takes it.
    type Mail: Drop;

    /// How far it is.
    ghost life: { Self → Life };

    /// The node takes the event, and says, sends and names what the thought has.
    ghost moves: { Self → NodeEvent Self.Mail → Thought (Letter Self.Mail) → Self → Type 0 };

    /// The node is as it was, whatever its home holds.
    ghost stays: { Self → Self → Type 0 };

    /// The home holds all that was thought up to the first.
    ghost keeps: { Self → Self → Type 0 };

    /// The number of the node, from 1 to the number of members.
    ghost number: { Self → ℕ };

    /// How many members its cluster has.
    ghost members: { Self → ℕ };

    /// Whether the message is one by which a leader feeds a follower's log: an Append or an Install.
    ghost feeds: { Self.Mail → Bool };

    /// Takes an event in memory.
    fn think(&mut self, event: NodeEvent<Self::Mail>) -> Result<Thought<(u8, Self::Mail)>, KeptFail>
        requires { (life self.old).thought < 2 ^ 62 }
        ensures { Thinks moves stays life self.old event result self.new };

    /// Keeps the records of all that was thought, and answers the number of the last thought.
    fn flush(&mut self) -> Result<u64, KeptFail>
        ensures { Flushes stays keeps life self.old result self.new };

    /// The number of the node.
    fn number(&self) -> u8
        ensures { result ≡ number self.now };

    /// How many members its cluster has.
    fn members(&self) -> u8
        ensures { result ≡ members self.now };

    /// Whether the message is an Append or an Install.
    fn feeds_log(mail: &Self::Mail) -> bool
        ensures { result ≡ feeds mail.now };
}

/// A node with its home, under a turn, and how many tasks it was given.
#[derive(Drop)]
pub struct Served<K: Kept> {
    pub kept: K,
    pub tasks: u64,
    ghost few: { (K.life kept).thought ≤ tasks },
}

impl<K: Kept> Storied for Served<K> {
    type Event = Task<K::Mail>;

    type Said = Result<Answer<K::Mail>, KeptFail>;

    ghost events = { λ s. s.tasks };

    ghost steps = { λ x task said y. IsTaskStep K.moves K.stays K.keeps K.life x.kept task said y.kept };

    fn step(&mut self, task: Task<K::Mail>) -> Result<Answer<K::Mail>, KeptFail> {
        self.tasks += 1;
        match task {
            Task::Think(event) => match self.kept.think(event) {
                Ok(thought) => Ok(Answer::Thought(thought)),
                Err(fail) => Err(fail),
            },
            Task::Flush => match self.kept.flush() {
                Ok(number) => Ok(Answer::Kept(number)),
                Err(fail) => Err(fail),
            },
        }
    }
}

/// In every history of a node, from the first task that is answered DiskFault or Full on each task is answered Dead with that
/// cause, and no other task is answered Dead.
pub fn dies_once<K: Kept>()
    ensures { Histories K.moves K.stays K.keeps K.life (λ x ts. DiesOnce K.life (K.life x).death ts) }
{}

/// In every history of a node, each Flush that is Ok answers at least the number of each thought before it.
pub fn keeps_all<K: Kept>()
    ensures { Histories K.moves K.stays K.keeps K.life (λ x ts. KeepsAll (K.life x).thought ts) }
{}
