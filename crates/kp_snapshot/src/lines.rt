//! Reading the access list of a node.

ghost use Rattle.std.specs.Prelude.{◌≡◌};
ghost use Rattle.kp_jute.specs.Form.{Gives};
ghost use Rattle.kp_jute.specs.Jute.{items_at};
ghost use Rattle.kp_entry.specs.Fields.{lists, limited, u32s};
ghost use Rattle.kp_snapshot.specs.Images.{lines, is_right};

use kp_entry::{read_text, read_word};
use kp_jute::{JuteFail, Reader};
use kp_model::{Acl, Acls, Items};
use std::alloc::Global;

/// The greatest sum of rights.
pub(crate) const ALL_RIGHTS: u32 = 31;

/// Reads an access list. A reader of which one is refused is to be dropped.
#[tactic(auto, unfolding(kp_entry::specs::Fields::list_at))]
pub(crate) fn read_lines(alloc: Global, reader: &mut Reader<'_>) -> Result<Acls, JuteFail>
    ensures { Gives (λ l. l) result reader.new ((lists lines).read reader.old) }
{
    let count = reader.unsigned_int()?;
    let lines = each_line(alloc, reader, count)?;
    Ok(Items::from_vec(lines))
}

fn each_line(alloc: Global, reader: &mut Reader<'_>, count: u32) -> Result<Vec<Acl>, JuteFail>
    ensures { Gives (λ v. v.items) result reader.new (items_at lines.read count reader.old) }
{
    let mut lines = Vec::new(alloc);
    for _ in 0..count {
        let line = read_line(alloc, reader)?;
        lines.push(line)?;
    }
    Ok(lines)
}

fn read_line(alloc: Global, reader: &mut Reader<'_>) -> Result<Acl, JuteFail>
    ensures { Gives (λ a. a) result reader.new (lines.read reader.old) }
{
    let perms = read_perms(reader)?;
    let scheme = read_text(alloc, reader)?;
    let id = read_text(alloc, reader)?;
    Ok(Acl { perms, scheme, id })
}

fn read_perms(reader: &mut Reader<'_>) -> Result<u32, JuteFail>
    ensures { Gives (λ n. n) result reader.new ((limited is_right u32s).read reader.old) }
{
    let at = reader.place();
    let perms = read_word(reader)?;
    if perms > ALL_RIGHTS {
        return Err(JuteFail::BadByte { at });
    }
    Ok(perms)
}
