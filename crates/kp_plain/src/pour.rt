//! A state that is poured into the store, part by part.
ghost use Rattle.std.specs.Prelude.{◌≡◌, ◌≤◌, [], length, IfOk};
ghost use Rattle.kp_model.specs.Limits.{longest_field};
ghost use Rattle.kp_model.specs.Poured.{node_of as node_in};

use crate::store::PlainStore;
use kp_cells::copied_acl;
use kp_model::limits::LONGEST_FIELD;
use kp_model::{Acl, Bytes, Fill, Meta, NoMemory, Node, Session};
use std::alloc::Global;

/// The node of these parts, with memory of its own. Data that doesn't fit its length field is NoMemory.
pub(crate) fn node_of(
    alloc: Global,
    content: &[u8],
    acl: &[Acl],
    meta: &Meta,
) -> Result<Node, NoMemory>
    ensures value { IfOk result (λ node. node ≡ node_in content.now acl.now meta.now) }
    ensures fits { IfOk result (λ node. length node.bytes ≤ longest_field) }
{
    if content.len() > LONGEST_FIELD {
        return Err(NoMemory);
    }
    Ok(Node {
        bytes: Bytes::from_vec(Vec::from_slice(alloc, content)?),
        acl: copied_acl(alloc, acl)?,
        czxid: meta.czxid,
        mzxid: meta.mzxid,
        pzxid: meta.pzxid,
        ctime: meta.ctime,
        mtime: meta.mtime,
        version: meta.version,
        cversion: meta.cversion,
        aversion: meta.aversion,
        owner: meta.owner,
        created: meta.created,
    })
}

impl Fill for PlainStore {
    ghost state = { λ x. x.state };

    ghost takes = { λ x. x.unapplied ≡ [] };

    fn start(&mut self, applied: u64, next_session: u64) {
        self.state.start(applied, next_session);
    }

    fn session(&mut self, id: u64, session: &Session) -> Result<(), NoMemory> {
        self.state.put_session(self.alloc, id, session)
    }

    fn node(
        &mut self,
        path: &str,
        content: &[u8],
        acl: &[Acl],
        meta: &Meta,
    ) -> Result<(), NoMemory> {
        let node = node_of(self.alloc, content, acl, meta)?;
        self.state.put_node(self.alloc, path, node)
    }
}
