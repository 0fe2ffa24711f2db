//! Access lists: whether a list gives a right to one who has shown some ids, which lists may be given, and the
//! ids of those who show a user and a password.
#![tactic(auto)]

ghost use Rattle.std.specs.Prelude.{◌≡◌};
ghost use Rattle.std.specs.List.{list_any};
ghost use Rattle.std.specs.Str.{bytes_eq};
ghost use Rattle.kp_model.specs.Rights as rights;

mod digest;
mod errors;
mod given;

pub use digest::digest_id;
pub use errors::AclFail;
pub use given::fix;
use kp_model::{Acl, Paths};

/// Whether some line of the list gives one of the rights `perm` to one who has shown these ids. A line is
/// for everyone, as `world:anyone`, or for one id, with the scheme `digest`; every other line is for nobody.
#[tactic(auto, unfolding(kp_model::specs::Rights::is_allowed))]
pub fn allows(ids: &Paths, acl: &[Acl], perm: u32) -> bool
    ensures { result ≡ rights.is_allowed ids.now acl.now perm }
{
    acl.iter().any(|line| gives(ids, perm, line))
}

// Whether a line gives the right to one who has these ids.
#[tactic(auto, unfolding(kp_model::specs::Rights::gives))]
fn gives(ids: &Paths, perm: u32, line: &Acl) -> bool
    ensures { result ≡ rights.gives ids.now perm line.now }
{
    line.perms & perm != 0 && is_for(ids, line)
}

// Whether a line is for one who has these ids.
fn is_for(ids: &Paths, line: &Acl) -> bool
    ensures { result ≡ rights.is_for ids.now line.now }
{
    match line.scheme.as_str() {
        "world" => line.id.as_str() == "anyone",
        "digest" => has(ids, line.id.as_str()),
        _ => false,
    }
}

// Whether the id is among these.
fn has(ids: &Paths, id: &str) -> bool
    ensures { result ≡ list_any (bytes_eq id.now) ids.now }
{
    ids.as_slice().iter().any(|one| id == one.as_str())
}
