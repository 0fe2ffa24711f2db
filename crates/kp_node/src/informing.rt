//! An entry is applied: its events go out, and then the connection of its session learns what it means.

ghost use Rattle.std.specs.Prelude.{◌≡◌, ℕ, List};
ghost use Rattle.kp_model.specs.declared.reply.Event.{Event};
ghost use Rattle.kp_seats.specs.Walked.{SameBeside};
ghost use Rattle.kp_watch.specs.Watching.{shown, somes};
ghost use Rattle.kp_node.specs.Informing.{IsAnswerIn, AreInformed, InformedIsDefined};
ghost use Rattle.kp_node.specs.Meaning.{IsIndexed};

use crate::firing::tell;
use crate::meaning::mean;
use kp_model::{Body, Event, Reply};
use kp_seats::Seats;
use kp_step::Seat;
use kp_watch::Fired;
use kp_wire::WireReply;

/// What each connection makes by its own luck is what the definition makes of all of them by these choices.
pub fn informed_is_defined()
    ensures { InformedIsDefined }
{}

/// The connections hear of the events as they were fired, and then the one of the session of the entry learns what it
/// means. The answer is the one that was made for the write. It costs the connections that hear and the one of the
/// session, and takes no memory but for what goes out.
pub(crate) fn inform(
    seats: &mut Seats<Seat>,
    node: u8,
    boot: u64,
    zxid: u64,
    body: &Body,
    reply: &Reply,
    answer: Option<WireReply>,
    events: &[Event],
    fired: &[Fired],
)
    requires indexed { IsIndexed seats.old }
    requires answer { IsAnswerIn body.now reply.now answer seats.old.seats }
    requires fired { (pairs : List (ℕ × Event)) × (shown events.now fired.now ≡ somes pairs) }
    ensures informed { (pairs : List (ℕ × Event)) → shown events.now fired.now ≡ somes pairs → AreInformed node boot zxid body.now reply.now pairs seats.old.seats seats.new.seats }
    ensures indexed { IsIndexed seats.new }
    ensures beside { SameBeside seats.old seats.new }
{
    tell(seats, events, fired);
    mean(seats, node, boot, zxid, body, reply, answer);
}
