ghost use Rattle.std.specs.Prelude.{◌≡◌, IfOk};

use crate::items::Items;
use crate::memory::{Duplicate, NoMemory};
use crate::node::Meta;
use crate::text::Text;
use std::alloc::Global;

/// Events in the order in which they fire.
pub type Events = Items<Event>;

/// What an entry is answered.
#[derive(Drop)]
pub enum Reply {
    /// The entry came too late or twice, and changed nothing.
    Stale,
    /// The error of the first check that failed, as one of the codes in `errors`.
    Err(i32),
    /// It was done, and there is nothing to tell.
    Done,
    /// The number of a new session.
    Session(u64),
    /// The epoch of a session that was taken over.
    Epoch(u64),
    /// The whole path of a new node, or that of a sync.
    Path(Text),
    /// The whole path of a new node and its numbers.
    PathStat(Text, Meta),
    /// The numbers of a node that was changed.
    Stat(Meta),
    /// The replies of a multi's operations.
    Multi(Items<OpReply>),
    /// The codes of a multi of which one operation failed.
    Failed(Items<i32>),
}

/// What an operation of a multi is answered.
#[derive(Drop)]
pub enum OpReply {
    Done,
    Path(Text),
    PathStat(Text, Meta),
    Stat(Meta),
}

/// What watches fire on.
#[derive(Drop)]
pub enum Event {
    Created(Text),
    Deleted(Text),
    DataChanged(Text),
    ChildrenChanged(Text),
}

/// An entry that was taken into the committed tree: its index, its reply and its events.
#[derive(Drop)]
pub struct Committed {
    pub index: u64,
    pub reply: Reply,
    pub events: Events,
}

impl OpReply {
    /// An equal value with memory of its own.
    pub fn copy(&self, alloc: Global) -> Result<OpReply, NoMemory>
        ensures { IfOk result (λ made. made ≡ self.now) }
    {
        match self {
            OpReply::Done => Ok(OpReply::Done),
            OpReply::Path(path) => Ok(OpReply::Path(path.copy(alloc)?)),
            OpReply::PathStat(path, meta) => Ok(OpReply::PathStat(path.copy(alloc)?, *meta)),
            OpReply::Stat(meta) => Ok(OpReply::Stat(*meta)),
        }
    }
}

impl Duplicate for OpReply {
    fn duplicate(&self, alloc: Global) -> Result<OpReply, NoMemory> {
        self.copy(alloc)
    }
}

impl Duplicate for i32 {
    fn duplicate(&self, _alloc: Global) -> Result<i32, NoMemory> {
        Ok(*self)
    }
}

impl Reply {
    /// An equal value with memory of its own.
    pub fn copy(&self, alloc: Global) -> Result<Reply, NoMemory>
        ensures { IfOk result (λ made. made ≡ self.now) }
    {
        match self {
            Reply::Stale => Ok(Reply::Stale),
            Reply::Err(code) => Ok(Reply::Err(*code)),
            Reply::Done => Ok(Reply::Done),
            Reply::Session(id) => Ok(Reply::Session(*id)),
            Reply::Epoch(epoch) => Ok(Reply::Epoch(*epoch)),
            Reply::Path(path) => Ok(Reply::Path(path.copy(alloc)?)),
            Reply::PathStat(path, meta) => Ok(Reply::PathStat(path.copy(alloc)?, *meta)),
            Reply::Stat(meta) => Ok(Reply::Stat(*meta)),
            Reply::Multi(replies) => Ok(Reply::Multi(replies.copy(alloc)?)),
            Reply::Failed(codes) => Ok(Reply::Failed(codes.copy(alloc)?)),
        }
    }
}

impl Event {
    /// An equal value with memory of its own.
    pub fn copy(&self, alloc: Global) -> Result<Event, NoMemory>
        ensures { IfOk result (λ made. made ≡ self.now) }
    {
        match self {
            Event::Created(path) => Ok(Event::Created(path.copy(alloc)?)),
            Event::Deleted(path) => Ok(Event::Deleted(path.copy(alloc)?)),
            Event::DataChanged(path) => Ok(Event::DataChanged(path.copy(alloc)?)),
            Event::ChildrenChanged(path) => Ok(Event::ChildrenChanged(path.copy(alloc)?)),
        }
    }
}

impl Duplicate for Event {
    fn duplicate(&self, alloc: Global) -> Result<Event, NoMemory> {
        self.copy(alloc)
    }
}

impl Committed {
    /// An equal value with memory of its own.
    pub fn copy(&self, alloc: Global) -> Result<Committed, NoMemory>
        ensures { IfOk result (λ made. made ≡ self.now) }
    {
        Ok(Committed {
            index: self.index,
            reply: self.reply.copy(alloc)?,
            events: self.events.copy(alloc)?,
        })
    }
}
