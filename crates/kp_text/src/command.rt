ghost use Rattle.std.specs.Prelude.{◌≡◌, ◌<◌, ◌+◌, ◌∷◌, length, map, IfOk};
ghost use Rattle.std.specs.List.{position, slice_split};
ghost use Rattle.kp_text.specs.WordParts.{parts_left, left_len};
ghost use Rattle.kp_text.specs.Commands.{create_of as creation, delete_of as deletion, set_of as setting, check_of as checking, operation_of as operation_named, setacl_of as acl_setting, auth_of as authentication, sync_of as syncing, close_of as closing, is_separator, operation_in as operation_at, operations_of as operations_in, multi_of as multi_in, single_of as single_in, command_of as command_in};

use crate::acl::{acl_given_by, acl_list_of};
use crate::words::{data_of, number_of, path_of, version_of};
use kp_model::limits::LAST_COUNT;
use kp_model::{Acls, Bytes, Items, NoMemory, Text};
use std::alloc::Global;

/// A command that a multi may hold, with the words that spell it. Version 4,294,967,295 is -1 and matches every version.
#[derive(Drop)]
pub enum Operation {
    /// `create PATH FLAGS DATA ACL..`: makes a node. Without an ACL word there is no list, and every right is
    /// everyone's; `noacl` is the empty list.
    Create {
        path: Text,
        flags: u32,
        bytes: Bytes,
        acl: Option<Acls>,
    },
    /// `delete PATH VERSION`: removes a node of this version.
    Delete {
        path: Text,
        version: u32,
    },
    /// `set PATH DATA VERSION`: sets the data of a node of this version.
    Set {
        path: Text,
        bytes: Bytes,
        version: u32,
    },
    /// `check PATH VERSION`: looks, as a write, whether a node has this version.
    Check {
        path: Text,
        version: u32,
    },
}

/// The operations of a multi.
pub type Operations = Items<Operation>;

/// A command of a session, with the words that spell it.
#[derive(Drop)]
pub enum Command {
    /// One that a multi may hold too.
    Operation(Operation),
    /// `setacl PATH VERSION ACL..`: sets the access list of a node; the version is compared with its aversion.
    SetAcl { path: Text, version: u32, acl: Acls },
    /// `auth SCHEME HEX`: adds a digest id to those of the session.
    Auth { scheme: Text, auth: Bytes },
    /// `multi OP ; OP`: takes all operations or none.
    Multi { operations: Operations },
    /// `sync PATH`: changes nothing and answers the path.
    Sync { path: Text },
    /// `close`: ends the session.
    Close,
}

/// The words of a creation behind its name.
#[tactic(auto, unfolding(crate::specs::Commands::create_of))]
fn create_of(alloc: Global, words: &[&str]) -> Result<Option<Operation>, NoMemory>
    ensures { IfOk result (λ o. o ≡ creation (map (λ x. x.now) words.now)) }
{
    match words {
        [path, flags, bytes, acl @ ..] => {
            let Some(path) = path_of(alloc, path)? else {
                return Ok(None);
            };
            let Some(flags) = number_of(LAST_COUNT as u64, flags) else {
                return Ok(None);
            };
            let Some(bytes) = data_of(alloc, bytes)? else {
                return Ok(None);
            };
            match acl_given_by(alloc, acl)? {
                None => Ok(None),
                Some(acl) => Ok(Some(Operation::Create {
                    path,
                    flags: flags as u32,
                    bytes: Bytes::from_vec(bytes),
                    acl,
                })),
            }
        }
        _ => Ok(None),
    }
}

#[tactic(auto, unfolding(crate::specs::Commands::delete_of))]
fn delete_of(alloc: Global, words: &[&str]) -> Result<Option<Operation>, NoMemory>
    ensures { IfOk result (λ o. o ≡ deletion (map (λ x. x.now) words.now)) }
{
    match words {
        [path, version] => {
            let Some(path) = path_of(alloc, path)? else {
                return Ok(None);
            };
            match version_of(version) {
                None => Ok(None),
                Some(version) => Ok(Some(Operation::Delete { path, version })),
            }
        }
        _ => Ok(None),
    }
}

#[tactic(auto, unfolding(crate::specs::Commands::set_of))]
fn set_of(alloc: Global, words: &[&str]) -> Result<Option<Operation>, NoMemory>
    ensures { IfOk result (λ o. o ≡ setting (map (λ x. x.now) words.now)) }
{
    match words {
        [path, bytes, version] => {
            let Some(path) = path_of(alloc, path)? else {
                return Ok(None);
            };
            let Some(bytes) = data_of(alloc, bytes)? else {
                return Ok(None);
            };
            match version_of(version) {
                None => Ok(None),
                Some(version) => Ok(Some(Operation::Set {
                    path,
                    bytes: Bytes::from_vec(bytes),
                    version,
                })),
            }
        }
        _ => Ok(None),
    }
}

#[tactic(auto, unfolding(crate::specs::Commands::check_of))]
fn check_of(alloc: Global, words: &[&str]) -> Result<Option<Operation>, NoMemory>
    ensures { IfOk result (λ o. o ≡ checking (map (λ x. x.now) words.now)) }
{
    match words {
        [path, version] => {
            let Some(path) = path_of(alloc, path)? else {
                return Ok(None);
            };
            match version_of(version) {
                None => Ok(None),
                Some(version) => Ok(Some(Operation::Check { path, version })),
            }
        }
        _ => Ok(None),
    }
}

/// The operation that a name and the words behind it are.
#[tactic(auto, unfolding(crate::specs::Commands::operation_of))]
fn operation_of(alloc: Global, name: &str, words: &[&str]) -> Result<Option<Operation>, NoMemory>
    ensures { IfOk result (λ o. o ≡ operation_named name.now (map (λ x. x.now) words.now)) }
{
    if name == "create" {
        create_of(alloc, words)
    } else if name == "delete" {
        delete_of(alloc, words)
    } else if name == "set" {
        set_of(alloc, words)
    } else if name == "check" {
        check_of(alloc, words)
    } else {
        Ok(None)
    }
}

#[tactic(auto, unfolding(crate::specs::Commands::setacl_of))]
fn setacl_of(alloc: Global, words: &[&str]) -> Result<Option<Command>, NoMemory>
    ensures { IfOk result (λ o. o ≡ acl_setting (map (λ x. x.now) words.now)) }
{
    match words {
        [path, version, acl @ ..] => {
            let Some(path) = path_of(alloc, path)? else {
                return Ok(None);
            };
            let Some(version) = version_of(version) else {
                return Ok(None);
            };
            match acl_list_of(alloc, acl)? {
                None => Ok(None),
                Some(acl) => Ok(Some(Command::SetAcl { path, version, acl })),
            }
        }
        _ => Ok(None),
    }
}

#[tactic(auto, unfolding(crate::specs::Commands::auth_of))]
fn auth_of(alloc: Global, words: &[&str]) -> Result<Option<Command>, NoMemory>
    ensures { IfOk result (λ o. o ≡ authentication (map (λ x. x.now) words.now)) }
{
    match words {
        [scheme, auth] => {
            let Some(scheme) = path_of(alloc, scheme)? else {
                return Ok(None);
            };
            match data_of(alloc, auth)? {
                None => Ok(None),
                Some(auth) => Ok(Some(Command::Auth {
                    scheme,
                    auth: Bytes::from_vec(auth),
                })),
            }
        }
        _ => Ok(None),
    }
}

/// The operation that words are, its name first.
fn operation_in(alloc: Global, words: &[&str]) -> Result<Option<Operation>, NoMemory>
    ensures { IfOk result (λ o. o ≡ operation_at (map (λ x. x.now) words.now)) }
{
    match words {
        [] => Ok(None),
        [name, others @ ..] => operation_of(alloc, name, others),
    }
}

fn first_separator(words: &[&str]) -> Option<usize>
    ensures { result ≡ position (λ x. is_separator x.now) words.now }
{
    words.iter().position(|word| *word == ";")
}

/// The words before the first `;`, and those behind it where there is one.
fn first_part<'a, 'b>(words: &'a [&'b str]) -> (&'a [&'b str], Option<&'a [&'b str]>)
    ensures parts { slice_split is_separator (map (λ x. x.now) words.now) ≡ map (λ x. x.now) result.0.now ∷ parts_left result.1 }
    ensures shorter { left_len result.1 < length words.now + 1 }
{
    match first_separator(words) {
        None => (words, None),
        Some(at) => (&words[..at], Some(&words[at + 1..])),
    }
}

/// The operations that words are, where each word `;` parts two.
fn operations_of(alloc: Global, words: &[&str]) -> Result<Option<Operations>, NoMemory>
    ensures { IfOk result (λ o. o ≡ operations_in (slice_split is_separator (map (λ x. x.now) words.now))) }
{
    let mut operations = Operations::new(alloc);
    let mut rest = Some(words);
    while let Some(left) = rest {
        let (part, after) = first_part(left);
        match operation_in(alloc, part)? {
            None => return Ok(None),
            Some(operation) => operations.push(operation)?,
        }
        rest = after;
    }
    Ok(Some(operations))
}

#[tactic(auto, unfolding(crate::specs::Commands::multi_of))]
fn multi_of(alloc: Global, words: &[&str]) -> Result<Option<Command>, NoMemory>
    ensures { IfOk result (λ o. o ≡ multi_in (map (λ x. x.now) words.now)) }
{
    match words {
        [] => Ok(Some(Command::Multi {
            operations: Operations::new(alloc),
        })),
        _ => match operations_of(alloc, words)? {
            None => Ok(None),
            Some(operations) => Ok(Some(Command::Multi { operations })),
        },
    }
}

#[tactic(auto, unfolding(crate::specs::Commands::sync_of))]
fn sync_of(alloc: Global, words: &[&str]) -> Result<Option<Command>, NoMemory>
    ensures { IfOk result (λ o. o ≡ syncing (map (λ x. x.now) words.now)) }
{
    match words {
        [path] => match path_of(alloc, path)? {
            None => Ok(None),
            Some(path) => Ok(Some(Command::Sync { path })),
        },
        _ => Ok(None),
    }
}

#[tactic(auto, unfolding(crate::specs::Commands::close_of))]
fn close_of(words: &[&str]) -> Option<Command>
    ensures { result ≡ closing (map (λ x. x.now) words.now) }
{
    match words {
        [] => Some(Command::Close),
        _ => None,
    }
}

#[tactic(auto, unfolding(crate::specs::Commands::single_of))]
fn single_of(alloc: Global, name: &str, words: &[&str]) -> Result<Option<Command>, NoMemory>
    ensures { IfOk result (λ o. o ≡ single_in name.now (map (λ x. x.now) words.now)) }
{
    match operation_of(alloc, name, words)? {
        None => Ok(None),
        Some(operation) => Ok(Some(Command::Operation(operation))),
    }
}

/// The command that a name and the words behind it are.
#[tactic(auto, unfolding(crate::specs::Commands::command_of))]
pub fn command_of(alloc: Global, name: &str, words: &[&str]) -> Result<Option<Command>, NoMemory>
    ensures { IfOk result (λ o. o ≡ command_in name.now (map (λ x. x.now) words.now)) }
{
    if name == "setacl" {
        setacl_of(alloc, words)
    } else if name == "auth" {
        auth_of(alloc, words)
    } else if name == "multi" {
        multi_of(alloc, words)
    } else if name == "sync" {
        sync_of(alloc, words)
    } else if name == "close" {
        Ok(close_of(words))
    } else {
        single_of(alloc, name, words)
    }
}
