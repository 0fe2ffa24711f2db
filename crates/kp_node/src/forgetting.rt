//! When sessions were heard, behind an entry.

ghost use Rattle.std.specs.Prelude.{◌≡◌, ℕ, OnOk, OnErr};
ghost use Rattle.std.specs.Ordering.{nat_cmp};
ghost use Rattle.std.specs.FinMap.{FinMap, insert, get};
ghost use Rattle.kp_expiry.specs.declared.heard.Heard.{Heard};
ghost use Rattle.kp_node.specs.Forgetting.{heard_before, closes as close_of, ended_by as end_in, forgotten, EndIsForgotten};
ghost use Rattle.kp_node.specs.Welcoming.{heard_of};

use crate::welcoming::Welcome;
use kp_expiry::{Expiry, Heard};
use kp_model::{Body, Cmd, NoMemory, Reply};

/// Behind an entry that opens no session and takes none over, the one that it ended is forgotten, and no other.
pub fn end_is_forgotten()
    ensures { EndIsForgotten }
{}

/// When the session was heard before, if it was.
pub(crate) fn heard_so_far(expiry: &Expiry, welcome: &Option<Welcome>) -> Option<Heard>
    ensures { result ≡ heard_before welcome.now expiry.now }
{
    match welcome {
        None => None,
        Some(found) => expiry.heard(found.id),
    }
}

/// The session is heard at this time, in milliseconds. Without memory nothing has changed.
pub(crate) fn hear_welcome(
    expiry: &mut Expiry,
    now: u64,
    welcome: &Option<Welcome>,
) -> Result<(), NoMemory>
    ensures ok { OnOk result (expiry.new ≡ heard_of now welcome.now expiry.old) }
    ensures err { OnErr result (expiry.new ≡ expiry.old) }
{
    match welcome {
        None => Ok(()),
        Some(found) => {
            if expiry.touch(found.id, found.timeout, now).is_err() {
                return Err(NoMemory);
            }
            Ok(())
        }
    }
}

/// The session was heard so before. Takes no memory.
pub(crate) fn put_back(expiry: &mut Expiry, session: u64, before: Option<Heard>)
    ensures { (m : FinMap nat_cmp Heard) (h : Heard) → expiry.old ≡ insert m session h → before ≡ get m session → expiry.new ≡ m }
{
    match before {
        None => expiry.remove(session),
        Some(heard) => {
            let _ = expiry.touch(session, heard.timeout, heard.heard);
        }
    }
}

/// Takes `hear_welcome` back. Takes no memory.
pub(crate) fn unhear_welcome(expiry: &mut Expiry, welcome: &Option<Welcome>, before: Option<Heard>)
    ensures { (m : FinMap nat_cmp Heard) (now : ℕ) → expiry.old ≡ heard_of now welcome.now m → before ≡ heard_before welcome.now m → expiry.new ≡ m }
{
    if let Some(found) = welcome {
        put_back(expiry, found.id, before);
    }
}

// The session that a command ends, where it is this one's.
fn closes(session: u64, cmd: &Cmd) -> Option<u64>
    ensures { result ≡ close_of session cmd.now }
{
    match cmd {
        Cmd::CloseSession => Some(session),
        _ => None,
    }
}

// The session that an entry with this reply ends.
fn ended_by(body: &Body, reply: &Reply) -> Option<u64>
    ensures { result ≡ end_in body.now reply.now }
{
    if !matches!(reply, Reply::Done) {
        return None;
    }
    match body {
        Body::Expire { session } => Some(*session),
        Body::Write { session, cmd, .. } => closes(*session, cmd),
        _ => None,
    }
}

/// The session that an entry with this reply ends is forgotten. Takes no memory.
pub(crate) fn forget_ended(expiry: &mut Expiry, body: &Body, reply: &Reply)
    ensures { expiry.new ≡ forgotten (end_in body.now reply.now) expiry.old }
{
    if let Some(session) = ended_by(body, reply) {
        expiry.remove(session);
    }
}
