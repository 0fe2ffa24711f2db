//! Vectors: a count and that many elements, or null.

ghost use Rattle.std.specs.Prelude.{◌≡◌, Some, OnOk};
ghost use Rattle.kp_jute.specs.Form.{Form, Gives, Wrote, WroteAll};
ghost use Rattle.kp_jute.specs.Jute.{items_at, vectors, vector_at};

use crate::value::{read_text, write_text};
use kp_jute::{JuteFail, NoMemory, Reader, Writer};
use kp_model::{Items, Text};
use std::alloc::{AllocError, Global};

/// The greatest count that its int can hold.
const MOST: usize = 0x7fff_ffff;

// What a vector may hold.
pub trait Element: Sized {
    ghost form: { Form Self };

    // Reads one.
    fn read(alloc: Global, reader: &mut Reader<'_>) -> Result<Self, JuteFail>
        ensures { Gives (λ x. x) result reader.new (form.read reader.old) };

    // Writes one.
    fn write(&self, writer: &mut Writer) -> Result<(), NoMemory>
        ensures { OnOk result (Wrote form self.now writer.old writer.new) };
}

impl Element for Option<Text> {
    ghost use Rattle.kp_jute.specs.Jute.{texts};

    ghost form = { texts };

    fn read(alloc: Global, reader: &mut Reader<'_>) -> Result<Option<Text>, JuteFail> {
        read_text(alloc, reader)
    }

    fn write(&self, writer: &mut Writer) -> Result<(), NoMemory> {
        write_text(writer, self)
    }
}

/// Reads a vector. Its memory grows with the elements that are there, whatever the count says.
#[tactic(auto, unfolding(kp_jute::specs::Jute::vector_at))]
pub(crate) fn read_vector<T: Element + Drop>(
    alloc: Global,
    reader: &mut Reader<'_>,
) -> Result<Option<Items<T>>, JuteFail>
    ensures { Gives (λ x. x) result reader.new ((vectors T.form).read reader.old) }
{
    match reader.count()? {
        None => Ok(None),
        Some(count) => {
            let items = read_items(alloc, reader, count)?;
            Ok(Some(Items::from_vec(items)))
        }
    }
}

fn read_items<T: Element + Drop>(
    alloc: Global,
    reader: &mut Reader<'_>,
    count: u32,
) -> Result<Vec<T>, JuteFail>
    ensures { Gives (λ v. v.items) result reader.new (items_at T.form.read count reader.old) }
{
    let mut items = Vec::new(alloc);
    for _ in 0..count {
        let item = T::read(alloc, reader)?;
        items.push(item)?;
    }
    Ok(items)
}

/// Writes a vector.
pub(crate) fn write_vector<T: Element>(
    writer: &mut Writer,
    list: &Option<Items<T>>,
) -> Result<(), NoMemory>
    ensures { OnOk result (Wrote (vectors T.form) list.now writer.old writer.new) }
{
    match list {
        None => writer.count(None),
        Some(list) => write_list(writer, list),
    }
}

/// Writes a vector that is there.
pub(crate) fn write_list<T: Element>(writer: &mut Writer, list: &Items<T>) -> Result<(), NoMemory>
    ensures { OnOk result (Wrote (vectors T.form) (Some list.now) writer.old writer.new) }
{
    if list.len() > MOST {
        return Err(AllocError);
    }
    writer.count(Some(list.len() as u32))?;
    write_items(writer, list.as_slice())?;
    Ok(())
}

fn write_items<T: Element>(writer: &mut Writer, items: &[T]) -> Result<(), NoMemory>
    ensures { OnOk result (WroteAll T.form items.now writer.old writer.new) }
{
    for item in items {
        item.write(writer)?;
    }
    Ok(())
}
