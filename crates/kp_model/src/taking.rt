//! Which bodies a leader takes into its log.
ghost use Rattle.std.specs.Prelude.{◌≡◌, ◌==◌, ◌+◌, Some};
ghost use Rattle.std.specs.Str.{bytes_eq};
ghost use Rattle.kp_model.specs.Taken.{may_open, may_join, may_attach, is_next, would_take as is_taken};

use crate::entry::Body;
use crate::limits::LAST_NUMBER;
use crate::session::{Origin, Session};
use crate::view::View;

/// Whether a leader takes this body into its log, where the view is of its uncommitted state: a write that is the
/// next one of a live session, an opening, an attach that isn't too late, or the end of a live session.
#[tactic(auto, unfolding(crate::specs::Taken::would_take))]
pub fn would_take<V: View>(view: &V, body: &Body) -> bool
    ensures { result ≡ is_taken (V.state view.now) body.now }
{
    match body {
        Body::Noop => false,
        Body::OpenSession { origin, .. } => opens(view, origin),
        Body::Attach {
            session,
            passwd,
            origin,
        } => match view.session(*session) {
            None => true,
            Some(found) => attaches(view, found, passwd, origin),
        },
        Body::Expire { session } => view.session(*session).is_some(),
        Body::Write {
            session,
            epoch,
            seq,
            ..
        } => match view.session(*session) {
            None => false,
            Some(found) => comes_next(found, *epoch, *seq),
        },
    }
}

// Whether an origin may open a session.
fn opens<V: View>(view: &V, origin: &Origin) -> bool
    ensures { result ≡ may_open (V.state view.now) origin.now }
{
    !view.holds(origin) && view.next_session() < LAST_NUMBER
}

// Whether an attach takes its session over, or is told that it can't.
fn attaches<V: View>(view: &V, session: &Session, passwd: &[u8; 16], origin: &Origin) -> bool
    ensures { result ≡ may_attach (V.state view.now) passwd.now origin.now (Some session.now) }
{
    !is_known(session, passwd) || joins(view, session, origin)
}

// Whether the password is the session's.
fn is_known(session: &Session, passwd: &[u8; 16]) -> bool
    ensures { result ≡ bytes_eq session.now.passwd passwd.now }
{
    session.passwd.as_slice() == passwd.as_slice()
}

// Whether an origin may take a session over.
fn joins<V: View>(view: &V, session: &Session, origin: &Origin) -> bool
    ensures { result ≡ may_join (V.state view.now) origin.now session.now }
{
    !view.holds(origin) && session.epoch < LAST_NUMBER
}

// Whether a write is the next one of its session.
fn comes_next(session: &Session, epoch: u64, seq: u64) -> bool
    ensures { result ≡ is_next epoch seq (Some session.now) }
{
    epoch == session.epoch && follows(session.seq, seq)
}

// Whether the second number is the one behind the first.
fn follows(before: u64, number: u64) -> bool
    ensures { result ≡ (number == before + 1) }
{
    0 < number && number - 1 == before
}
