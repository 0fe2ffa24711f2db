//! What an entry of the log means for the connection that waits for it.

ghost use Rattle.std.specs.Prelude.{◌≡◌};
ghost use Rattle.kp_step.specs.Committing.{newcomer as newcomer_of, conn_of as number_of, session_of as session_in};

use kp_model::{Body, Origin, Reply};

/// The number of the connection that waits for this entry, where it was handed in by a connection of this run of the
/// node.
pub fn newcomer(node: u8, boot: u64, body: &Body) -> Option<u64>
    ensures { result ≡ newcomer_of node boot body.now }
{
    match body {
        Body::OpenSession { origin, .. } | Body::Attach { origin, .. } => {
            conn_of(node, boot, origin)
        }
        Body::Noop | Body::Expire { .. } | Body::Write { .. } => None,
    }
}

// The connection's number, where the origin is one of this run of the node.
fn conn_of(node: u8, boot: u64, origin: &Origin) -> Option<u64>
    ensures { result ≡ number_of node boot origin.now }
{
    if origin.node == node && origin.boot == boot {
        Some(origin.conn)
    } else {
        None
    }
}

/// The session that an entry with this reply opened or gave over.
pub fn session_of(body: &Body, reply: &Reply) -> Option<u64>
    ensures { result ≡ session_in body.now reply.now }
{
    match reply {
        Reply::Session(id) => Some(*id),
        Reply::Epoch(_) => match body {
            Body::Attach { session, .. } => Some(*session),
            _ => None,
        },
        _ => None,
    }
}
