ghost use Rattle.std.specs.Prelude.{◌≡◌, ◌≢◌, ◌==◌, ◌&&◌, ◌↔◌, ◌∷◌, ◌++◌, length, map, nat_lt, Some, None, IfOk, IfErr, OnOk, IsErrOf};
ghost use Rattle.std.specs.List.{list_all, flat_map, count_by};
ghost use Rattle.kp_model.specs.Colon.{is_colon};
ghost use Rattle.kp_model.specs.Fixed as list;

use crate::errors::AclFail;
use kp_model::{Acl, Acls, Items, NoMemory, Paths, Text};
use std::alloc::Global;

// The sum of the five rights.
const ALL_RIGHTS: u32 = 31;

/// The list that is kept for a node where one who has shown these ids gives this list. A line is `world` with
/// the id `anyone`, `digest` with an id that has exactly one colon, or `auth`, which stands for a digest line
/// with the same rights for each of the ids, in their order; its own id is not looked at. Each other line, also
/// one that is there twice, stays as it is, and the lines keep their order.
///
/// InvalidAcl comes exactly where the list is empty, a line has another scheme or id, a line says `auth` and no
/// id was shown, or a line's rights are more than 31, the sum of the five.
#[tactic(auto, unfolding(kp_model::specs::Fixed::fixed))]
pub fn fix(alloc: Global, ids: &Paths, acl: &Acls) -> Result<Acls, AclFail>
    ensures ok { IfOk result (λ kept. list.fixed ids.now acl.now ≡ Some kept) }
    ensures invalid { IsErrOf result AclFail.InvalidAcl ↔ (list.fixed ids.now acl.now ≡ None) }
    ensures never { IfErr result (λ fail. fail ≢ AclFail.AuthFailed) }
{
    if acl.as_slice().is_empty() || !may_all_be_given(ids.as_slice(), acl.as_slice()) {
        return Err(AclFail::InvalidAcl);
    }
    Ok(all_meant(alloc, ids.as_slice(), acl.as_slice())?)
}

// Whether one who has shown these ids may give each of the lines.
fn may_all_be_given(ids: &[Text], acl: &[Acl]) -> bool
    ensures { result ≡ list_all (list.may_be_given ids.now) acl.now }
{
    acl.iter().all(|line| may_be_given(ids, line))
}

// Whether one who has shown these ids may give the line.
#[tactic(auto, unfolding(kp_model::specs::Fixed::may_be_given))]
fn may_be_given(ids: &[Text], line: &Acl) -> bool
    ensures { result ≡ list.may_be_given ids.now line.now }
{
    line.perms <= ALL_RIGHTS && names_somebody(ids, line)
}

// Whether there is somebody whom the line is for.
fn names_somebody(ids: &[Text], line: &Acl) -> bool
    ensures { result ≡ list.names_somebody ids.now line.now }
{
    match line.scheme.as_str() {
        "world" => line.id.as_str() == "anyone",
        "digest" => has_one_colon(line.id.as_str().as_bytes()),
        "auth" => !ids.is_empty(),
        _ => false,
    }
}

// Whether exactly one of the bytes is a colon.
fn has_one_colon(id: &[u8]) -> bool
    ensures { result ≡ (count_by is_colon id.now == 1) }
{
    colons(id) == 1
}

// How many of the bytes are colons.
fn colons(id: &[u8]) -> usize
    ensures { result ≡ count_by is_colon id.now }
{
    id.iter().filter(|byte| **byte == b':').count()
}

// What all lines stand for, in their order.
fn all_meant(alloc: Global, ids: &[Text], acl: &[Acl]) -> Result<Acls, NoMemory>
    ensures { IfOk result (λ kept. kept ≡ flat_map (list.meant_by ids.now) acl.now) }
{
    let mut kept = Items::new(alloc);
    for line in acl {
        add_meant(alloc, &mut kept, ids, line)?;
    }
    Ok(kept)
}

// Adds what one line stands for.
#[tactic(auto, unfolding(kp_model::specs::Fixed::meant_by))]
fn add_meant(alloc: Global, kept: &mut Acls, ids: &[Text], line: &Acl) -> Result<(), NoMemory>
    ensures { OnOk result (kept.new ≡ kept.old ++ list.meant_by ids.now line.now) }
{
    if line.scheme.as_str() == "auth" {
        add_digests(alloc, kept, line.perms, ids)
    } else {
        kept.push(line.copy(alloc)?)
    }
}

// Adds a digest line with these rights for each of the ids.
fn add_digests(alloc: Global, kept: &mut Acls, perms: u32, ids: &[Text]) -> Result<(), NoMemory>
    ensures { OnOk result (kept.new ≡ kept.old ++ map (list.digest_line perms) ids.now) }
{
    for id in ids {
        kept.push(digest_line(alloc, perms, id)?)?;
    }
    Ok(())
}

// The line for one id.
fn digest_line(alloc: Global, perms: u32, id: &Text) -> Result<Acl, NoMemory>
    ensures { IfOk result (λ line. line ≡ list.digest_line perms id.now) }
{
    Ok(Acl {
        perms,
        scheme: Text::from_str(alloc, "digest")?,
        id: id.copy(alloc)?,
    })
}
