ghost use Rattle.std.specs.Prelude.{◌≡◌, ◌≢◌, ◌↔◌, ◌∷◌, ◌++◌, Some, None, IfOk, IfErr, IsErrOf, option_copied, if◌then◌else◌};
ghost use Rattle.std.specs.List.{position};
ghost use Rattle.std.specs.Str.{is_utf8};
ghost use Rattle.kp_model.specs.Colon.{is_colon};
ghost use Rattle.kp_model.specs.Digest as digest;

use crate::errors::AclFail;
use base64::engine::general_purpose::STANDARD;
use kp_model::{NoMemory, Text};
use sha1::Sha1;
use std::alloc::Global;

/// The id under which a session is known that has shown these bytes, which are `user:password`: the user, a
/// colon, and the SHA-1 of all the bytes in base64. The user ends before the first colon, so a password may
/// have colons, and it may be any bytes. (ZooKeeper's digest scheme.)
///
/// AuthFailed comes exactly where there is no colon, or where the user is no text in UTF-8.
#[tactic(auto, unfolding(kp_model::specs::Digest::digest_id))]
pub fn digest_id(alloc: Global, auth: &[u8]) -> Result<Text, AclFail>
    ensures ok { IfOk result (λ id. digest.digest_id auth.now ≡ Some id) }
    ensures failed { IsErrOf result AclFail.AuthFailed ↔ (digest.digest_id auth.now ≡ None) }
    ensures never { IfErr result (λ fail. fail ≢ AclFail.InvalidAcl) }
{
    match user_of(auth) {
        None => Err(AclFail::AuthFailed),
        Some(user) => Ok(id_of(alloc, user, auth)?),
    }
}

// What stands before the first colon, where there is one and that is text.
#[tactic(auto, unfolding(kp_model::specs::Digest::user_of))]
fn user_of(auth: &[u8]) -> Option<&str>
    ensures { option_copied result ≡ digest.user_of auth.now }
{
    match first_colon(auth) {
        None => None,
        Some(at) => text_of(&auth[..at]),
    }
}

// The place of the first colon.
fn first_colon(bytes: &[u8]) -> Option<usize>
    ensures { result ≡ position is_colon bytes.now }
{
    bytes.iter().position(|byte| *byte == b':')
}

// The bytes as text, where they are UTF-8.
#[tactic(auto, using(crate::proofs::Utf8::passes, crate::proofs::Utf8::fails))]
fn text_of(bytes: &[u8]) -> Option<&str>
    ensures { option_copied result ≡ (if is_utf8 bytes.now then Some bytes.now else None) }
{
    match std::str::from_utf8(bytes) {
        Err(_) => None,
        Ok(text) => Some(text),
    }
}

// The user, a colon and the hash.
#[tactic(auto, unfolding(kp_model::specs::Digest::hash_text))]
fn id_of(alloc: Global, user: &str, auth: &[u8]) -> Result<Text, NoMemory>
    ensures { IfOk result (λ id. id ≡ user.now ++ 58 ∷ digest.hash_text auth.now) }
{
    let mut id = String::from_str(alloc, user)?;
    id.push(':')?;
    STANDARD.encode_string(&Sha1::digest(auth), &mut id)?;
    Ok(Text::from_string(id))
}
