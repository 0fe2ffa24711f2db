ghost use Rattle.std.specs.Prelude.{◌≡◌, map, IfOk};
ghost use Rattle.std.specs.Option.{option_map};
ghost use Rattle.kp_text.specs.AclWords.{cut_at_colon as cut_in, acl_of as acl_in, acls_of as acls_in, acl_list_of as acl_list_in, acl_given_by as acl_given_in};

use crate::words::number_of;
use kp_model::limits::LAST_COUNT;
use kp_model::{Acl, Acls, NoMemory, Text};
use std::alloc::Global;

/// What stands before the first colon of a word and behind it.
fn cut_at_colon(word: &str) -> Option<(&str, &str)>
    ensures { option_map (λ x. (x.0.now, x.1.now)) result ≡ cut_in word.now }
{
    word.split_once(':')
}

/// The line of an access list that a word is: `PERMS:SCHEME:ID`, where the id may have colons.
#[tactic(auto, unfolding(crate::specs::AclWords::acl_of))]
fn acl_of(alloc: Global, word: &str) -> Result<Option<Acl>, NoMemory>
    ensures { IfOk result (λ o. o ≡ acl_in word.now) }
{
    let Some((perms, rest)) = cut_at_colon(word) else {
        return Ok(None);
    };
    let Some((scheme, id)) = cut_at_colon(rest) else {
        return Ok(None);
    };
    match number_of(LAST_COUNT as u64, perms) {
        None => Ok(None),
        Some(perms) => Ok(Some(Acl {
            perms: perms as u32,
            scheme: Text::from_str(alloc, scheme)?,
            id: Text::from_str(alloc, id)?,
        })),
    }
}

/// The access list that words are, one for each of its lines.
fn acls_of(alloc: Global, words: &[&str]) -> Result<Option<Acls>, NoMemory>
    ensures { IfOk result (λ o. o ≡ acls_in (map (λ x. x.now) words.now)) }
{
    let mut acls = Acls::new(alloc);
    for word in words {
        match acl_of(alloc, word)? {
            None => return Ok(None),
            Some(acl) => acls.push(acl)?,
        }
    }
    Ok(Some(acls))
}

/// The same of one word or more, where the single word `noacl` is the empty list.
pub fn acl_list_of(alloc: Global, words: &[&str]) -> Result<Option<Acls>, NoMemory>
    ensures { IfOk result (λ o. o ≡ acl_list_in (map (λ x. x.now) words.now)) }
{
    match words {
        [] => Ok(None),
        [word] if *word == "noacl" => Ok(Some(Acls::new(alloc))),
        _ => acls_of(alloc, words),
    }
}

/// The same, where there is a word.
pub fn acl_given_by(alloc: Global, words: &[&str]) -> Result<Option<Option<Acls>>, NoMemory>
    ensures { IfOk result (λ o. o ≡ acl_given_in (map (λ x. x.now) words.now)) }
{
    if words.is_empty() {
        return Ok(Some(None));
    }
    match acl_list_of(alloc, words)? {
        None => Ok(None),
        Some(acls) => Ok(Some(Some(acls))),
    }
}
