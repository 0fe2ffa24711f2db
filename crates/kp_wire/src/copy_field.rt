//! Equal fields of requests with memory of their own. Where a field is null, so is its copy.

ghost use Rattle.std.specs.Prelude.{◌≡◌, IfOk};

use crate::acl::{WireAcl, WireAcls};
use crate::request::WireTexts;
use kp_model::{Duplicate, Items, NoMemory, Text};
use std::alloc::Global;

impl WireAcl {
    /// An equal value with memory of its own.
    pub fn copy(&self, alloc: Global) -> Result<WireAcl, NoMemory>
        ensures { IfOk result (λ made. made ≡ self.now) }
    {
        Ok(WireAcl {
            perms: self.perms,
            scheme: copy_text(alloc, &self.scheme)?,
            id: copy_text(alloc, &self.id)?,
        })
    }
}

impl Duplicate for WireAcl {
    fn duplicate(&self, alloc: Global) -> Result<WireAcl, NoMemory> {
        self.copy(alloc)
    }
}

/// An equal text with memory of its own.
pub(crate) fn copy_text(alloc: Global, text: &Option<Text>) -> Result<Option<Text>, NoMemory>
    ensures { IfOk result (λ made. made ≡ text.now) }
{
    match text {
        None => Ok(None),
        Some(text) => Ok(Some(text.copy(alloc)?)),
    }
}

/// An equal access list with memory of its own.
pub(crate) fn copy_acl(alloc: Global, acl: &Option<WireAcls>) -> Result<Option<WireAcls>, NoMemory>
    ensures { IfOk result (λ made. made ≡ acl.now) }
{
    match acl {
        None => Ok(None),
        Some(acl) => Ok(Some(acl.copy(alloc)?)),
    }
}

/// An equal list of texts with memory of its own.
pub(crate) fn copy_texts(
    alloc: Global,
    texts: &Option<WireTexts>,
) -> Result<Option<WireTexts>, NoMemory>
    ensures { IfOk result (λ made. made ≡ texts.now) }
{
    match texts {
        None => Ok(None),
        Some(texts) => Ok(Some(Items::from_vec(copies(alloc, texts.as_slice())?))),
    }
}

// Copies of the texts, in their order.
fn copies(alloc: Global, from: &[Option<Text>]) -> Result<Vec<Option<Text>>, NoMemory>
    ensures { IfOk result (λ made. made.items ≡ from.now) }
{
    let mut items = Vec::new(alloc);
    for text in from {
        items.push(copy_text(alloc, text)?)?;
    }
    Ok(items)
}
