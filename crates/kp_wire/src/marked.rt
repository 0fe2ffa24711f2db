//! Lists up to an end mark.

ghost use Rattle.std.specs.Prelude.{◌≡◌, Option, Some, None, OnOk};
ghost use Rattle.kp_jute.specs.Form.{Form, Gives, Wrote, WroteAll};
ghost use Rattle.kp_jute.specs.Jute.{until_at, untils};
ghost use Rattle.kp_wire.specs.Common.{listed, behind_all};

use kp_jute::{JuteFail, NoMemory, Reader, Writer};
use std::alloc::Global;

// What stands in such a list; None is the end mark.
pub trait Marked: Sized {
    ghost form: { Form (Option Self) };

    // Reads one, or the end mark.
    fn read_step(alloc: Global, reader: &mut Reader<'_>) -> Result<Option<Self>, JuteFail>
        ensures { Gives (λ x. x) result reader.new (form.read reader.old) };

    // Writes one.
    fn write_step(&self, writer: &mut Writer) -> Result<(), NoMemory>
        ensures { OnOk result (Wrote form (Some self.now) writer.old writer.new) };

    // Writes the end mark.
    fn write_end(writer: &mut Writer) -> Result<(), NoMemory>
        ensures { OnOk result (Wrote form None writer.old writer.new) };
}

/// Reads such a list with its end mark.
#[tactic(auto, using(crate::proofs::MarkedLists::behind_none))]
pub(crate) fn read_marked<T: Marked + Drop>(
    alloc: Global,
    reader: &mut Reader<'_>,
) -> Result<Vec<T>, JuteFail>
    ensures { Gives (λ v. v.items) result reader.new ((untils T.form).read reader.old) }
{
    read_marked_behind(alloc, reader, Vec::new(alloc))
}

/// Reads such a list with its end mark, and puts it behind what was read before.
pub(crate) fn read_marked_behind<T: Marked + Drop>(
    alloc: Global,
    reader: &mut Reader<'_>,
    before: Vec<T>,
) -> Result<Vec<T>, JuteFail>
    ensures { Gives (λ v. v.items) result reader.new (behind_all before.items ((untils T.form).read reader.old)) }
{
    let most = reader.remaining() + 1;
    read_steps(alloc, reader, before, most)
}

// The same in at most so many steps.
fn read_steps<T: Marked + Drop>(
    alloc: Global,
    reader: &mut Reader<'_>,
    before: Vec<T>,
    most: usize,
) -> Result<Vec<T>, JuteFail>
    ensures { Gives (λ v. v.items) result reader.new (behind_all before.items (until_at T.form.read most reader.old)) }
{
    let mut items = before;
    for _ in 0..most {
        match T::read_step(alloc, reader)? {
            None => return Ok(items),
            Some(item) => items.push(item)?,
        }
    }
    Err(JuteFail::Short { at: reader.place() })
}

/// Writes such a list with its end mark.
pub(crate) fn write_marked<T: Marked>(writer: &mut Writer, items: &[T]) -> Result<(), NoMemory>
    ensures { OnOk result (Wrote (untils T.form) items.now writer.old writer.new) }
{
    write_steps(writer, items)?;
    T::write_end(writer)?;
    Ok(())
}

fn write_steps<T: Marked>(writer: &mut Writer, items: &[T]) -> Result<(), NoMemory>
    ensures { OnOk result (WroteAll (listed T.form) items.now writer.old writer.new) }
{
    for item in items {
        item.write_step(writer)?;
    }
    Ok(())
}
