//! What a field of a request gives. Null counts as empty, within a multi too.

ghost use Rattle.std.specs.Prelude.{◌≡◌, map, IfOk};
ghost use Rattle.kp_ask.specs.Given.{given as given_in, given_acl as acl_in, given_acls as acls_in, given_paths as paths_in, given_index as index_in};

use kp_model::{Acl, Acls, Bytes, NoMemory, Paths, Text};
use kp_wire::{WireAcl, WireAcls, WireTexts};
use std::alloc::Global;

/// The text of a field.
pub(crate) fn given_text(alloc: Global, text: &Option<Text>) -> Result<Text, NoMemory>
    ensures { IfOk result (λ t. t ≡ given_in text.now) }
{
    match text {
        None => Text::from_str(alloc, ""),
        Some(text) => text.copy(alloc),
    }
}

/// The bytes of a field.
pub(crate) fn given_bytes(alloc: Global, bytes: &Option<Bytes>) -> Result<Bytes, NoMemory>
    ensures { IfOk result (λ b. b ≡ given_in bytes.now) }
{
    match bytes {
        None => Ok(Bytes::new(alloc)),
        Some(bytes) => bytes.copy(alloc),
    }
}

/// The access list of a field.
pub(crate) fn given_acls(alloc: Global, acl: &Option<WireAcls>) -> Result<Acls, NoMemory>
    ensures { IfOk result (λ made. made ≡ acls_in acl.now) }
{
    match acl {
        None => Ok(Acls::new(alloc)),
        Some(lines) => each_acl(alloc, lines.as_slice()),
    }
}

/// The paths of a list of a setWatches; a null path counts as empty, and so does a null list.
pub fn given_paths(alloc: Global, paths: &Option<WireTexts>) -> Result<Paths, NoMemory>
    ensures { IfOk result (λ made. made ≡ paths_in paths.now) }
{
    match paths {
        None => Ok(Paths::new(alloc)),
        Some(paths) => each_path(alloc, paths.as_slice()),
    }
}

/// The index of a setWatches; a negative one counts as 0.
pub fn given_index(index: i64) -> u64
    ensures { result ≡ index_in index }
{
    if index < 0 { 0 } else { index as u64 }
}

// A line of an access list.
fn given_acl(alloc: Global, line: &WireAcl) -> Result<Acl, NoMemory>
    ensures { IfOk result (λ made. made ≡ acl_in line.now) }
{
    Ok(Acl {
        perms: line.perms,
        scheme: given_text(alloc, &line.scheme)?,
        id: given_text(alloc, &line.id)?,
    })
}

fn each_acl(alloc: Global, lines: &[WireAcl]) -> Result<Acls, NoMemory>
    ensures { IfOk result (λ made. made ≡ map acl_in lines.now) }
{
    let mut acl = Acls::new(alloc);
    for line in lines {
        acl.push(given_acl(alloc, line)?)?;
    }
    Ok(acl)
}

fn each_path(alloc: Global, texts: &[Option<Text>]) -> Result<Paths, NoMemory>
    ensures { IfOk result (λ made. made ≡ map given_in texts.now) }
{
    let mut paths = Paths::new(alloc);
    for text in texts {
        paths.push(given_text(alloc, text)?)?;
    }
    Ok(paths)
}
