//! Rights, ids and access lists.

use kp_acl::{AclFail, allows, digest_id, fix};
use kp_model::{Acl, Acls, NoMemory, Paths, Text};
use std::alloc::Global;
use std::test::Fail;

// A line's rights, scheme and id.
type Line = (u32, &'static str, &'static str);

const WORLD: Line = (31, "world", "anyone");

fn line(alloc: Global, perms: u32, scheme: &str, id: &str) -> Result<Acl, NoMemory> {
    Ok(Acl {
        perms,
        scheme: Text::from_str(alloc, scheme)?,
        id: Text::from_str(alloc, id)?,
    })
}

fn ids(alloc: Global, texts: &[&str]) -> Result<Paths, NoMemory> {
    let mut ids = Paths::new(alloc);
    for id in texts {
        ids.push(Text::from_str(alloc, id)?)?;
    }
    Ok(ids)
}

fn list(alloc: Global, lines: &[Line]) -> Result<Acls, NoMemory> {
    let mut acl = Acls::new(alloc);
    for (perms, scheme, id) in lines {
        acl.push(line(alloc, *perms, scheme, id)?)?;
    }
    Ok(acl)
}

fn has_lines(acl: &Acls, lines: &[Line]) -> bool {
    acl.len() == lines.len()
        && acl.as_slice().iter().zip(lines.iter()).all(|(line, (perms, scheme, id))| {
            line.perms == *perms && line.scheme.as_str() == *scheme && line.id.as_str() == *id
        })
}

// Whether a list of these lines gives the right to one who has shown the ids.
fn gives(alloc: Global, shown: &[&str], lines: &[Line], right: u32) -> Result<bool, NoMemory> {
    let shown = ids(alloc, shown)?;
    let acl = list(alloc, lines)?;
    let given = allows(&shown, acl.as_slice(), right);
    drop(acl);
    drop(shown);
    Ok(given)
}

const OTHERS: [Line; 2] = [(31, "ip", "u:x"), (1, "digest", "u:x")];

// Ids that were shown, a list, a right, and whether it is given.
const GIVES: [(&[&str], &[Line], u32, bool); 4] = [
    (&[], &[WORLD], 16, true),
    (&["v:y", "u:x"], &OTHERS, 1, true),
    (&["v:y", "u:x"], &OTHERS, 2, false),
    (&[], &OTHERS, 1, false),
];

#[test]
fn a_line_gives_rights_to_everyone_or_to_an_id(rt: HostRuntime) -> Result<(), Fail> {
    let mut same = true;
    for (shown, lines, right, given) in GIVES {
        same = same && gives(rt.alloc(), shown, lines, right)? == given;
    }
    assert!(rt; same);
    Ok(())
}

const SHOWN: [(&[u8], &str); 6] = [
    (b"super:admin", "super:xQJmxLMiHGwaqBvst5y6rkB6HQs="),
    (b":", ":BaefBs8/Z/cm2uaNGKIpD2yaUMk="),
    (b"a b: c d", "a b:YdxBTVVkYRxV14BvMULMncSprKc="),
    (b"u:p:q", "u:VIgTKUjc2iscZoJn2UUrdGNNgW4="),
    (b"\xc3\xa9:x", "é:vJQ1uRvLi+QDvTkAPJk5WaYa798="),
    (b"u:\xff\x00", "u:Qzm79ST8+m0CeKmI60rhpNIuLVg="),
];

const WITHOUT_USER: [&[u8]; 5] = [
    b"",
    b"super admin",
    b"\xffu:p",
    b"\xc3:p",
    b"\xed\xa0\x80:p",
];

// Whether the bytes make this id, or none.
fn makes(alloc: Global, auth: &[u8], wanted: Option<&str>) -> bool {
    match digest_id(alloc, auth) {
        Err(fail) => wanted.is_none() && matches!(fail, AclFail::AuthFailed),
        Ok(made) => {
            let same = wanted == Some(made.as_str());
            drop(made);
            same
        }
    }
}

#[test]
fn an_id_is_the_user_and_the_hash_of_the_whole(rt: HostRuntime) {
    let alloc = rt.alloc();
    assert!(rt; SHOWN.iter().all(|(auth, id)| makes(alloc, auth, Some(id))));
    assert!(rt; WITHOUT_USER.iter().all(|auth| makes(alloc, auth, None)));
}

// Whether the list is kept as these lines by one who has shown the ids, or refused.
fn keeps(alloc: Global, shown: &Paths, given: &Acls, wanted: Option<&[Line]>) -> bool {
    match fix(alloc, shown, given) {
        Err(fail) => wanted.is_none() && matches!(fail, AclFail::InvalidAcl),
        Ok(kept) => {
            let same = match wanted {
                None => false,
                Some(lines) => has_lines(&kept, lines),
            };
            drop(kept);
            same
        }
    }
}

fn is_kept(
    alloc: Global,
    shown: &[&str],
    lines: &[Line],
    wanted: Option<&[Line]>,
) -> Result<bool, NoMemory> {
    let shown = ids(alloc, shown)?;
    let given = list(alloc, lines)?;
    let kept = keeps(alloc, &shown, &given, wanted);
    drop(given);
    drop(shown);
    Ok(kept)
}

const GIVEN: [Line; 5] = [
    (1, "auth", "a b"),
    WORLD,
    WORLD,
    (0, "digest", ":"),
    (31, "auth", ""),
];

const KEPT: [Line; 7] = [
    (1, "digest", "u:x"),
    (1, "digest", "super:xQJmxLMiHGwaqBvst5y6rkB6HQs="),
    WORLD,
    WORLD,
    (0, "digest", ":"),
    (31, "digest", "u:x"),
    (31, "digest", "super:xQJmxLMiHGwaqBvst5y6rkB6HQs="),
];

// Lists with a line for nobody.
const REFUSED: [&[Line]; 10] = [
    &[],
    &[WORLD, (32, "world", "anyone")],
    &[(31, "world", "anyone ")],
    &[(31, "World", "anyone")],
    &[(31, "digest", "u")],
    &[(31, "digest", "u:x:y")],
    &[(31, "digest ", "u:x")],
    &[(31, "ip", "127.0.0.1")],
    &[(31, "", "")],
    &[WORLD, (1, "auth", "u:x")],
];

#[test]
fn lists_are_fixed_from_left_to_right(rt: HostRuntime) -> Result<(), Fail> {
    let shown = ["u:x", "super:xQJmxLMiHGwaqBvst5y6rkB6HQs="];
    assert!(rt; is_kept(rt.alloc(), &shown, &GIVEN, Some(&KEPT))?);
    Ok(())
}

#[test]
fn lists_with_a_line_for_nobody_are_refused(rt: HostRuntime) -> Result<(), Fail> {
    let mut refused = true;
    for lines in REFUSED {
        refused = refused && is_kept(rt.alloc(), &[], lines, None)?;
    }
    assert!(rt; refused);
    Ok(())
}
