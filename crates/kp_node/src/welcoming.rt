//! The session that an entry opens or gives over, found before the entry is applied.

ghost use Rattle.std.specs.Prelude.{◌≡◌, option_copied};
ghost use Rattle.kp_node.specs.Welcoming.{taken_over as taken_over_by, welcome_by, WelcomeIsBehind, HeardIsBehind};

use kp_model::{Body, Reply, Session};
use kp_storage::Storage;

/// A session as it will stand behind an entry that opens it or gives it over.
#[derive(Clone, Copy)]
pub struct Welcome {
    /// Its number.
    pub id: u64,

    /// Its timeout, in milliseconds.
    pub timeout: u32,

    /// Its password.
    pub passwd: [u8; 16],

    /// Its epoch.
    pub epoch: u64,
}

/// What is found of a session before its entry is applied is what stands behind it. `session`: its numbers and its
/// password. `heard`: the timeout with which it is heard.
pub fn welcome_is_behind()
    ensures session { WelcomeIsBehind }
    ensures heard { HeardIsBehind }
{}

// The session, which was taken over in this epoch.
fn taken_over(id: u64, epoch: u64, session: Option<&Session>) -> Option<Welcome>
    ensures { result ≡ taken_over_by id epoch (option_copied session.entry) }
{
    match session {
        None => None,
        Some(found) => Some(Welcome {
            id,
            timeout: found.timeout,
            passwd: found.passwd,
            epoch,
        }),
    }
}

/// The session that an entry of this body opens or gives over, where it is the next one and this is its reply. None where
/// it does neither.
pub(crate) fn welcome_for(storage: &Storage, body: &Body, reply: &Reply) -> Option<Welcome>
    ensures { result ≡ welcome_by storage.now.state.sessions body.now reply.now }
{
    match body {
        Body::OpenSession {
            timeout,
            passwd,
            ..
        } => match reply {
            Reply::Session(id) => Some(Welcome {
                id: *id,
                timeout: *timeout,
                passwd: *passwd,
                epoch: 1,
            }),
            _ => None,
        },
        Body::Attach { session, .. } => match reply {
            Reply::Epoch(epoch) => {
                taken_over(*session, *epoch, storage.committed_session(*session))
            }
            _ => None,
        },
        _ => None,
    }
}
