ghost use Rattle.std.specs.Prelude.{◌≡◌, IfOk};
ghost use Rattle.kp_node.specs.Parts.{node_of};
ghost use Rattle.kp_play.specs.Texts.{role_text as role_bytes, state_text as state_bytes, up_text as up_bytes};

use kp_model::{NoMemory, Role};
use kp_node::Node;
use std::alloc::Global;

fn role_text(role: Role) -> &'static str
    ensures { result.now ≡ role_bytes role }
{
    match role {
        Role::Follower => "follower",
        Role::Candidate => "candidate",
        Role::Leader => "leader",
    }
}

/// A node's role, its term, its last index and its commit index.
#[tactic(auto, unfolding(kp_play::specs::Texts::state_text))]
pub fn state_text(alloc: Global, node: &Node) -> Result<Vec<u8>, NoMemory>
    ensures { IfOk result (λ v. v.items ≡ state_bytes (node_of node.now)) }
{
    let role = role_text(node.role());
    let (term, last, commit) = (node.term(), node.last(), node.commit());
    let text = format!(in alloc; "state {role} t={term} last={last} commit={commit}")?;
    Ok(text.into_bytes())
}

/// That member `number` started: how often by now, its term and its last index.
#[tactic(auto, unfolding(kp_play::specs::Texts::up_text))]
pub fn up_text(alloc: Global, number: u8, node: &Node) -> Result<Vec<u8>, NoMemory>
    ensures { IfOk result (λ v. v.items ≡ up_bytes number (node_of node.now)) }
{
    let (boot, term, last) = (node.boot(), node.term(), node.last());
    let text = format!(in alloc; "up {number} boot={boot} term={term} last={last}")?;
    Ok(text.into_bytes())
}
