// A link: a queue under a rule, and its seats.
ghost use Rattle.std.specs.Prelude.{◌≡◌, ◌^◌, ◌≤◌, IfOk, MatchOption, MatchResult};
ghost use Rattle.crossbeam_queue.specs.Fifo.{Held};
ghost use Rattle.kp_links.specs.LinkView.{Allowing, Sends, Takes, no_mail, with_split};

use crate::NoMemory;
use crate::view::{LinkRule, LinkView, Send, SplitOff, Take};
use crossbeam_queue::{Pass, RuledArrayQueue};
use std::alloc::Global;
use std::sync::Wait;

/// How many messages a link holds at most.
const ROOM: usize = 1024;

/// The most that a seat's count of lost messages shows: 2^62.
const MOST_REFUSED: u64 = 1 << 62;

/// The link held 1,024 messages, and this one is lost.
#[derive(Drop)]
pub struct Full;

/// A link with room for 1,024 messages. Threads share it by reference.
#[derive(Drop)]
pub struct Links<M: Drop> {
    queue: RuledArrayQueue<M, LinkView<M>, LinkRule>,
    ghost room: { queue.cap ≡ 1024 },
}

/// What a thread calls its link with: what it knows of the link, and how many of its messages found no room. A thread that
/// shares a link gets a seat of its own by `split`.
#[derive(Drop)]
pub struct LinkSeat<M> {
    pass: Pass<M, LinkView<M>>,
    refused: u64,
}

impl<M: Drop> Links<M> {
    ghost use Rattle.kp_links.specs.LinkSeats.{IsLinkSeatOf, refused_after, link_view, refused_of};

    /// Makes a link that holds no message, and its first seat.
    pub fn new(alloc: Global) -> Result<(Links<M>, LinkSeat<M>), NoMemory>
        ensures { IfOk result (λ t. IsLinkSeatOf t.0 t.1 × (link_view t.1 ≡ no_mail) × (refused_of t.1 ≡ 0)) }
    {
        let (queue, pass) = RuledArrayQueue::ruled(alloc, ROOM)?;
        Ok((Links { queue }, LinkSeat { pass, refused: 0 }))
    }

    /// Sends a message behind all others. It is `Full` only where the queue held 1,024 messages at a step of this call; then the
    /// message is lost, and the seat's count of lost messages rises by one. It may wait for a thread that is inside a call.
    pub fn send<R: Wait>(&self, rt: &R, seat: &mut LinkSeat<M>, message: M) -> Result<(), Full>
        requires seat { IsLinkSeatOf self.now seat.old }
        ensures seat { IsLinkSeatOf self.now seat.new }
        ensures sends { MatchResult result (λ _. Sends (link_view seat.old) message (link_view seat.new)) (λ _. (link_view seat.new ≡ link_view seat.old) × Held 1024 (Allowing (link_view seat.old))) }
        ensures refused { refused_of seat.new ≡ refused_after result (refused_of seat.old) }
    {
        match self.queue.push_as::<Send, R>(rt, &mut seat.pass, message) {
            Ok(()) => Ok(()),
            Err(message) => {
                drop(message);
                seat.refused = (seat.refused + 1).min(MOST_REFUSED);
                Err(Full)
            }
        }
    }

    /// Takes the first message. It is `None` only where the queue was empty at a step of this call. It may wait for a thread that
    /// is inside a call.
    pub fn take<R: Wait>(&self, rt: &R, seat: &mut LinkSeat<M>) -> Option<M>
        requires seat { IsLinkSeatOf self.now seat.old }
        ensures seat { IsLinkSeatOf self.now seat.new }
        ensures takes { MatchOption result ((link_view seat.new ≡ link_view seat.old) × Held 0 (Allowing (link_view seat.old))) (λ message. Takes (link_view seat.old) message (link_view seat.new)) }
        ensures refused { refused_of seat.new ≡ refused_of seat.old }
    {
        self.queue.pop_as::<Take, R>(rt, &mut seat.pass)
    }

    /// A seat for another thread, which has sent and taken nothing. It takes no memory.
    pub fn split(&self, seat: &mut LinkSeat<M>) -> LinkSeat<M>
        requires seat { IsLinkSeatOf self.now seat.old }
        ensures old { IsLinkSeatOf self.now seat.new × (link_view seat.new ≡ with_split (link_view seat.old)) × (refused_of seat.new ≡ refused_of seat.old) }
        ensures new { IsLinkSeatOf self.now result × (link_view result ≡ no_mail) × (refused_of result ≡ 0) }
    {
        LinkSeat {
            pass: self.queue.another::<SplitOff>(&mut seat.pass),
            refused: 0,
        }
    }
}

impl<M> LinkSeat<M> {
    ghost use Rattle.kp_links.specs.LinkSeats.{refused_of};

    /// How many messages of this seat were lost, since they found no room: up to 2^62.
    pub fn refused(&self) -> u64
        ensures { result ≡ refused_of self.now }
    {
        self.refused
    }
}
