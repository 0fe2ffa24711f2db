ghost use Rattle.std.specs.Prelude.{◌≡◌, IfOk};
ghost use Rattle.kp_node.specs.Parts.{node_of};
ghost use Rattle.kp_play.specs.Texts.{look_text as look_bytes};

use kp_look::{acl, children, peek, see, who};
use kp_model::NoMemory;
use kp_node::Node;
use kp_script::LookLine;
use std::alloc::Global;

/// What a look at a node's tree prints.
#[tactic(auto, unfolding(kp_play::specs::Texts::look_text))]
pub fn look_text(alloc: Global, node: &Node, look: &LookLine) -> Result<Vec<u8>, NoMemory>
    ensures { IfOk result (λ v. v.items ≡ look_bytes (node_of node.now) look.now) }
{
    let store = node.storage();
    match look {
        LookLine::Peek { path } => peek(alloc, store, path),
        LookLine::See { path } => see(alloc, store, path),
        LookLine::Kids { path } => children(alloc, "kids", &store.latest(), path),
        LookLine::Ls { path } => children(alloc, "ls", &store.committed(), path),
        LookLine::Acl { path } => acl(alloc, store, path),
        LookLine::Who { session } => who(alloc, store, *session),
    }
}
