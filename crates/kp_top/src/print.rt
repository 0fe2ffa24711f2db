ghost use Rattle.std.specs.Prelude.{◌≡◌, ◌++◌, IfOk, codes};
ghost use Rattle.std.specs.Fmt.{decimal};
ghost use Rattle.std.specs.Option.{option_copied};
ghost use Rattle.kp_top.specs.Texts.{pre_text as pre_bytes, done_text as done_bytes, time_text as time_bytes, cut_text as cut_bytes};

use kp_look::text_of;
use kp_model::{Committed, NoMemory, Reply};
use kp_text::{print_reply, print_text};
use std::alloc::Global;

fn pre_of(alloc: Global, index: u64) -> Result<Vec<u8>, NoMemory>
    ensures { IfOk result (λ v. v.items ≡ codes "pre " ++ (decimal index ++ codes " ")) }
{
    let text = format!(in alloc; "pre {index} ")?;
    Ok(text.into_bytes())
}

/// An entry's index and its kept reply.
#[tactic(auto, unfolding(crate::specs::Texts::pre_text))]
pub fn pre_text(alloc: Global, index: u64, reply: Option<&Reply>) -> Result<Vec<u8>, NoMemory>
    ensures { IfOk result (λ v. v.items ≡ pre_bytes index (option_copied reply.entry)) }
{
    let mut out = pre_of(alloc, index)?;
    match reply {
        None => print_text("stale", &mut out)?,
        Some(reply) => print_reply(reply, &mut out)?,
    }
    Ok(out)
}

fn done_of(alloc: Global, index: u64) -> Result<Vec<u8>, NoMemory>
    ensures { IfOk result (λ v. v.items ≡ codes "done " ++ (decimal index ++ codes " ")) }
{
    let text = format!(in alloc; "done {index} ")?;
    Ok(text.into_bytes())
}

/// What a commit answered.
#[tactic(auto, unfolding(crate::specs::Texts::done_text))]
pub fn done_text(alloc: Global, done: Option<&Committed>) -> Result<Vec<u8>, NoMemory>
    ensures { IfOk result (λ v. v.items ≡ done_bytes (option_copied done.entry)) }
{
    match done {
        None => text_of(alloc, "done none"),
        Some(done) => {
            let mut out = done_of(alloc, done.index)?;
            print_reply(&done.reply, &mut out)?;
            Ok(out)
        }
    }
}

/// The text of a `time` line.
#[tactic(auto, unfolding(crate::specs::Texts::time_text))]
pub fn time_text(alloc: Global, time: u64) -> Result<Vec<u8>, NoMemory>
    ensures { IfOk result (λ v. v.items ≡ time_bytes time) }
{
    let text = format!(in alloc; "time {time}")?;
    Ok(text.into_bytes())
}

/// The text of a truncation that was done.
#[tactic(auto, unfolding(crate::specs::Texts::cut_text))]
pub fn cut_text(alloc: Global, last: u64) -> Result<Vec<u8>, NoMemory>
    ensures { IfOk result (λ v. v.items ≡ cut_bytes last) }
{
    let text = format!(in alloc; "cut {last}")?;
    Ok(text.into_bytes())
}
