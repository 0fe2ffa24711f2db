//! What becomes of the connections where the term rises, or an image is taken.

ghost use Rattle.std.specs.Prelude.{◌≡◌, ℕ, Option, nat_lt, length};
ghost use Rattle.kp_step.specs.Answers.{by_term};
ghost use Rattle.kp_step.specs.Settling.{refused_if};
ghost use Rattle.kp_step.specs.Step.{ended};
ghost use Rattle.kp_node.specs.Rising.{IsRisen, IsSeatRisen, IsSeatEnded};

use crate::answering::CONNECTION_LOSS;
use crate::refusing::refuse;
use kp_conn::{Conn, Phase};
use kp_seats::Change;
use kp_step::Seat;
use kp_wire::WireReply;

/// The term rose: a connection that waits for the reply to its connect request ends, and so does one with requests that
/// wait, which are refused.
#[derive(Drop)]
pub(crate) struct Rising {
    // the index of the last applied entry, which the refusals show
    pub(crate) zxid: u64,
}

impl Change<Seat> for Rising {
    ghost changes = { λ r. IsSeatRisen r.zxid };

    fn change(&self, conn: u64, seat: &mut Seat) {
        rise(&mut seat.connection, self.zxid);
    }
}

// A connection behind a risen term.
fn rise(conn: &mut Conn, zxid: u64)
    ensures { IsRisen zxid conn.old conn.new }
{
    match conn.phase() {
        Phase::Fresh | Phase::Closing { .. } => {}
        Phase::Connecting { .. } => conn.close(false),
        Phase::Live { .. } => refuse_some(conn, zxid),
    }
}

// A live connection ends where requests wait, which are refused.
fn refuse_some(conn: &mut Conn, zxid: u64)
    ensures { (n : Option ℕ) × (conn.new ≡ (refused_if (nat_lt 0 (length conn.old.queue)) n zxid by_term conn.old).connection) }
{
    if conn.waiting() > 0 {
        refuse(conn, zxid, &WireReply::Err(CONNECTION_LOSS));
    }
}

/// An image was taken: every connection that isn't over ends.
#[derive(Drop)]
pub(crate) struct Ending {}

impl Change<Seat> for Ending {
    ghost changes = { λ r. IsSeatEnded };

    fn change(&self, conn: u64, seat: &mut Seat) {
        end(&mut seat.connection, conn);
    }
}

// A connection that isn't over ends.
fn end(conn: &mut Conn, number: u64)
    ensures { conn.new ≡ (ended number conn.old).connection }
{
    if !conn.phase().is_over() {
        conn.close(false);
    }
}
