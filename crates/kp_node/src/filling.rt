//! The answer to an append names the sessions that were heard.

ghost use Rattle.std.specs.Prelude.{◌≡◌, ◌≤◌, [], length, map, if◌then◌else◌};
ghost use Rattle.kp_step.specs.Step.{heard_filled, filled, is_append_rep};
ghost use Rattle.kp_node.specs.Filling.{answers};

use crate::spoken::Spoken;
use kp_model::Items;
use kp_raft::{Mail, Mails};
use kp_snapshot::Image;
use std::alloc::Global;

/// Puts the sessions that were heard into the message, where it answers an append; then none are left. Takes no memory.
pub(crate) fn fill(alloc: Global, mail: Mails<Image>, spoken: &mut Spoken) -> Mails<Image>
    requires { length mail ≤ 1 }
    ensures mail { result ≡ map (filled spoken.old) mail }
    ensures spoken { spoken.new ≡ (if answers mail then [] else spoken.old) }
{
    let mut list = mail.into_vec();
    match list.pop() {
        None => {}
        Some((to, message)) => {
            let message = fill_one(alloc, message, spoken);
            list.push_reserved((to, message));
        }
    }
    Items::from_vec(list)
}

// The same of one message.
fn fill_one(alloc: Global, message: Mail<Image>, spoken: &mut Spoken) -> Mail<Image>
    ensures mail { result ≡ heard_filled spoken.old message }
    ensures spoken { spoken.new ≡ (if is_append_rep message then [] else spoken.old) }
{
    match message {
        Mail::AppendRep {
            term,
            from,
            ok,
            last,
            heard,
        } => {
            drop(heard);
            let ids = spoken.take(alloc);
            Mail::AppendRep {
                term,
                from,
                ok,
                last,
                heard: Items::from_vec(ids),
            }
        }
        other => other,
    }
}
