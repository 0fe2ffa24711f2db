//! How the owners of nodes and the sessions are grouped.
ghost use Rattle.std.specs.Prelude.{◌≡◌, Some};

use kp_layers::Grouping;
use kp_model::{Origin, Session};

/// The nodes of each owner.
pub struct ByOwner;

impl Grouping<u64> for ByOwner {
    type Group = u64;

    ghost group_of = { λ owner. Some owner };

    fn group(value: &u64) -> Option<u64> {
        Some(*value)
    }
}

/// Where a session is held, as the name of a group.
#[derive(Clone, Copy, PartialEq, Eq, Hash)]
pub struct Holder {
    node: u8,
    boot: u64,
    conn: u64,
}

impl Holder {
    /// The group of what is held by this origin.
    pub fn of(origin: &Origin) -> Holder
        ensures { result ≡ record { node = origin.now.node; boot = origin.now.boot; conn = origin.now.conn } }
    {
        Holder {
            node: origin.node,
            boot: origin.boot,
            conn: origin.conn,
        }
    }
}

/// The sessions of each holder.
pub struct ByHolder;

impl Grouping<Session> for ByHolder {
    type Group = Holder;

    ghost group_of = { λ s. Some (record { node = s.holder.node; boot = s.holder.boot; conn = s.holder.conn }) };

    fn group(value: &Session) -> Option<Holder> {
        Some(Holder::of(&value.holder))
    }
}
