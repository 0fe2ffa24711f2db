ghost use Rattle.std.specs.Prelude.{◌≡◌, ◌++◌, Some, None, IfOk, codes};
ghost use Rattle.std.specs.Fmt.{decimal};
ghost use Rattle.std.specs.Option.{option_copied};
ghost use Rattle.kp_look.specs.Texts.{seen_text as seen_bytes, kids_text as kids_bytes, acl_text as acl_bytes, who_text as who_bytes, shown};

use kp_model::{Acl, Meta, NoMemory, Paths, Session};
use kp_text::{print_acls, print_data, print_names, print_session, print_stat, print_text};
use std::alloc::Global;

/// The bytes of a text.
pub fn text_of(alloc: Global, text: &str) -> Result<Vec<u8>, NoMemory>
    ensures { IfOk result (λ v. v.items ≡ text.now) }
{
    Ok(Vec::from_slice(alloc, text.as_bytes())?)
}

/// What is seen of a node, its data and its numbers, behind the word that asked for it.
#[tactic(auto, unfolding(crate::specs::Texts::seen_text))]
pub fn seen_text(
    alloc: Global,
    word: &str,
    bytes: Option<&[u8]>,
    meta: Option<&Meta>,
) -> Result<Vec<u8>, NoMemory>
    ensures { IfOk result (λ v. v.items ≡ seen_bytes word.now (shown (option_copied bytes.entry) (option_copied meta.entry))) }
{
    let mut out = text_of(alloc, word)?;
    let (Some(bytes), Some(meta)) = (bytes, meta) else {
        print_text(" none", &mut out)?;
        return Ok(out);
    };
    print_text(" ", &mut out)?;
    print_data(bytes, &mut out)?;
    print_text(" ", &mut out)?;
    print_stat(meta, &mut out)?;
    Ok(out)
}

/// That there is no such node, behind the word that asked for its children.
#[tactic(auto, unfolding(crate::specs::Texts::kids_text))]
pub fn no_kids_text(alloc: Global, word: &str) -> Result<Vec<u8>, NoMemory>
    ensures { IfOk result (λ v. v.items ≡ kids_bytes word.now None) }
{
    let mut out = text_of(alloc, word)?;
    print_text(" none", &mut out)?;
    Ok(out)
}

fn counted(alloc: Global, word: &str, count: usize) -> Result<Vec<u8>, NoMemory>
    ensures { IfOk result (λ v. v.items ≡ word.now ++ (codes " " ++ decimal count)) }
{
    let text = format!(in alloc; "{word} {count}")?;
    Ok(text.into_bytes())
}

/// The names of a node's children behind their number and the word that asked for them.
#[tactic(auto, unfolding(crate::specs::Texts::kids_text))]
pub fn kids_text(alloc: Global, word: &str, names: &Paths) -> Result<Vec<u8>, NoMemory>
    ensures { IfOk result (λ v. v.items ≡ kids_bytes word.now (Some names.now)) }
{
    let mut out = counted(alloc, word, names.len())?;
    print_names(names.as_slice(), &mut out)?;
    Ok(out)
}

/// The access list of a node, or that there is no such node.
#[tactic(auto, unfolding(crate::specs::Texts::acl_text))]
pub fn acl_text(alloc: Global, acl: Option<&[Acl]>) -> Result<Vec<u8>, NoMemory>
    ensures { IfOk result (λ v. v.items ≡ acl_bytes (option_copied acl.entry)) }
{
    match acl {
        None => text_of(alloc, "acl none"),
        Some(acl) => {
            let mut out = counted(alloc, "acl", acl.len())?;
            print_acls(acl, &mut out)?;
            Ok(out)
        }
    }
}

/// The numbers of a session, or that there is no such session.
#[tactic(auto, unfolding(crate::specs::Texts::who_text))]
pub fn who_text(alloc: Global, session: Option<&Session>) -> Result<Vec<u8>, NoMemory>
    ensures { IfOk result (λ v. v.items ≡ who_bytes (option_copied session.entry)) }
{
    match session {
        None => text_of(alloc, "who none"),
        Some(session) => {
            let mut out = text_of(alloc, "who ")?;
            print_session(session, &mut out)?;
            Ok(out)
        }
    }
}
