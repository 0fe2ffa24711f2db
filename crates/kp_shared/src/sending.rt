// Sending the mail of thoughts that were kept.
ghost use Rattle.std.specs.Prelude.{◌≡◌, [], ◌∷◌};
ghost use Rattle.kp_shared.specs.Posts.{HasSeat, HasSeats, Posts, SentTo};
ghost use Rattle.kp_shared.specs.Tasks.{mails_of};

use crate::peers::Peers;
use kp_event::{Said, Thought};
use kp_links::{LinkSeat, Links};
use kp_model::Items;
use std::sync::Wait;

// Sends a message where there is a link. Where the link is full the message is lost.
fn send_to<R: Wait, M: Drop>(
    rt: &R,
    link: &Option<Links<M>>,
    seat: &mut Option<LinkSeat<M>>,
    mail: M,
)
    requires seat { HasSeat link.now seat.old }
    ensures seat { HasSeat link.now seat.new }
    ensures sent { SentTo (mail ∷ []) seat.old seat.new }
{
    let Some(link) = link else {
        return;
    };
    let Some(seat) = seat else {
        return;
    };
    let _ = link.send(rt, seat, mail);
}

// Sends a message on the link to its receiver.
fn send_one<R: Wait, M: Drop>(
    rt: &R,
    links: &Peers<Links<M>>,
    seats: &mut Peers<LinkSeat<M>>,
    to: u8,
    mail: M,
)
    requires seats { HasSeats links.now seats.old }
    ensures seats { HasSeats links.now seats.new }
    ensures posts { Posts ((to, mail) ∷ []) seats.old seats.new }
{
    match to {
        1 => send_to(rt, &links.one, &mut seats.one, mail),
        2 => send_to(rt, &links.two, &mut seats.two, mail),
        3 => send_to(rt, &links.three, &mut seats.three, mail),
        4 => send_to(rt, &links.four, &mut seats.four, mail),
        5 => send_to(rt, &links.five, &mut seats.five, mail),
        6 => send_to(rt, &links.six, &mut seats.six, mail),
        7 => send_to(rt, &links.seven, &mut seats.seven, mail),
        _ => {}
    }
}

// Sends messages, each on the link to its receiver.
fn send_mails<R: Wait, M: Drop>(
    rt: &R,
    links: &Peers<Links<M>>,
    seats: &mut Peers<LinkSeat<M>>,
    mails: Items<(u8, M)>,
)
    requires seats { HasSeats links.now seats.old }
    ensures seats { HasSeats links.now seats.new }
    ensures posts { Posts mails seats.old seats.new }
{
    for letter in mails.into_vec() {
        let (to, mail) = letter;
        send_one(rt, links, seats, to, mail);
    }
}

/// Sends the messages of a thought, each on the link to its receiver. The answer is what the thought said.
pub fn post_thought<R: Wait, M: Drop>(
    rt: &R,
    links: &Peers<Links<M>>,
    seats: &mut Peers<LinkSeat<M>>,
    thought: Thought<(u8, M)>,
) -> Said
    requires seats { HasSeats links.now seats.old }
    ensures seats { HasSeats links.now seats.new }
    ensures posts { Posts thought.mail seats.old seats.new }
    ensures said { result ≡ thought.said }
{
    let Thought { said, mail, .. } = thought;
    send_mails(rt, links, seats, mail);
    said
}

/// Sends the messages of thoughts, each on the link to its receiver.
pub fn post_all<R: Wait, M: Drop>(
    rt: &R,
    links: &Peers<Links<M>>,
    seats: &mut Peers<LinkSeat<M>>,
    thoughts: Vec<Thought<(u8, M)>>,
)
    requires seats { HasSeats links.now seats.old }
    ensures seats { HasSeats links.now seats.new }
    ensures posts { Posts (mails_of thoughts.items) seats.old seats.new }
{
    for thought in thoughts {
        drop(post_thought(rt, links, seats, thought));
    }
}
