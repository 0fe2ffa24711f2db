//! Writing the access list of a node.

ghost use Rattle.std.specs.Prelude.{◌≡◌, OnOk};
ghost use Rattle.kp_jute.specs.Form.{Wrote, WroteAll};
ghost use Rattle.kp_entry.specs.Fields.{lists};
ghost use Rattle.kp_snapshot.specs.Images.{lines};

use crate::lines::ALL_RIGHTS;
use kp_entry::{put_text, put_word};
use kp_model::limits::LONGEST_FIELD;
use kp_model::{Acl, NoMemory};

/// Writes an access list. Bytes to which one could not be written are to be dropped.
pub(crate) fn put_lines(out: &mut Vec<u8>, acl: &[Acl]) -> Result<(), NoMemory>
    ensures { OnOk result (Wrote (lists lines) acl.now out.old.items out.new.items) }
{
    if acl.len() > LONGEST_FIELD {
        return Err(NoMemory);
    }
    put_word(out, acl.len() as u32)?;
    put_each(out, acl)
}

// Writes lines one behind the other, without their count.
#[tactic(auto, using(kp_entry::proofs::Writes::all_written, kp_entry::proofs::Writes::none_written))]
fn put_each(out: &mut Vec<u8>, acl: &[Acl]) -> Result<(), NoMemory>
    ensures { OnOk result (WroteAll lines acl.now out.old.items out.new.items) }
{
    for line in acl {
        put_line(out, line)?;
    }
    Ok(())
}

fn put_line(out: &mut Vec<u8>, line: &Acl) -> Result<(), NoMemory>
    ensures { OnOk result (Wrote lines line.now out.old.items out.new.items) }
{
    if line.perms > ALL_RIGHTS {
        return Err(NoMemory);
    }
    put_word(out, line.perms)?;
    put_text(out, &line.scheme)?;
    put_text(out, &line.id)
}
