// What a seat knows of its link, and the rule of the link's queue.
ghost use Rattle.kp_links.specs.LinkRule.{IsLink};
ghost use Rattle.kp_links.specs.LinkView.{Allowing, Sends, Takes, no_mail, with_split};

use crossbeam_queue::protocol::{Lesson, Outcome, Protocol, Split};
use std::collections::LinkedList;

/// What a seat knows of its link, for contracts alone: no value of it is ever made.
pub struct LinkView<M> {
    /// How the messages that were sent begin, as far as the seat knows.
    pub all_sent: LinkedList<M>,

    /// How the messages that were taken begin, as far as the seat knows.
    pub all_taken: LinkedList<M>,

    /// What this seat sent, in order.
    pub sent: LinkedList<M>,

    /// What this seat took, in order.
    pub taken: LinkedList<M>,

    /// How many seats were split off this one.
    pub splits: u64,
}

/// The rule of a link: what was sent is what was taken and then what the queue holds.
pub struct LinkRule;

impl<M> Protocol<M, LinkView<M>> for LinkRule {
    ghost holds = { IsLink };

    ghost first = { no_mail };
}

/// Sends one message.
pub struct Send;

impl<M> Outcome<M, LinkView<M>> for Send {
    ghost then = { Sends };
}

impl<M> Lesson<M, LinkView<M>> for Send {
    ghost fact = { Allowing };
}

/// Takes one message.
pub struct Take;

impl<M> Outcome<M, LinkView<M>> for Take {
    ghost then = { Takes };
}

impl<M> Lesson<M, LinkView<M>> for Take {
    ghost fact = { Allowing };
}

/// Splits a seat off.
pub struct SplitOff;

impl<M> Split<LinkView<M>> for SplitOff {
    ghost left = { with_split };

    ghost right = { λ view. no_mail };
}
