//! Lists: a count of 4 bytes and that many items.

ghost use Rattle.std.specs.Prelude.{◌≡◌, OnOk};
ghost use Rattle.kp_jute.specs.Form.{Form, Gives, Wrote, WroteAll};
ghost use Rattle.kp_jute.specs.Jute.{items_at};
ghost use Rattle.kp_entry.specs.Fields.{lists};

use crate::put_fields::put_word;
use kp_jute::{JuteFail, Reader};
use kp_model::limits::LONGEST_FIELD;
use kp_model::{Items, NoMemory};
use std::alloc::Global;

/// What a list may hold.
pub trait Item: Sized {
    ghost form: { Form Self };

    /// Reads one. A reader of which one is refused is to be dropped.
    fn read(alloc: Global, reader: &mut Reader<'_>) -> Result<Self, JuteFail>
        ensures { Gives (λ x. x) result reader.new (form.read reader.old) };

    /// Writes one. Bytes to which one could not be written are to be dropped.
    fn write(&self, out: &mut Vec<u8>) -> Result<(), NoMemory>
        ensures { OnOk result (Wrote form self.now out.old.items out.new.items) };
}

/// Reads a list. Memory is taken item by item, as they are read, whatever the count says. A reader of which
/// a list is refused is to be dropped: it may stand behind some of its items.
#[tactic(auto, unfolding(crate::specs::Fields::list_at))]
pub fn read_list<T: Item + Drop>(
    alloc: Global,
    reader: &mut Reader<'_>,
) -> Result<Items<T>, JuteFail>
    ensures { Gives (λ l. l) result reader.new ((lists T.form).read reader.old) }
{
    let count = reader.unsigned_int()?;
    let items = items(alloc, reader, count)?;
    Ok(Items::from_vec(items))
}

fn items<T: Item + Drop>(
    alloc: Global,
    reader: &mut Reader<'_>,
    count: u32,
) -> Result<Vec<T>, JuteFail>
    ensures { Gives (λ v. v.items) result reader.new (items_at T.form.read count reader.old) }
{
    let mut items = Vec::new(alloc);
    for _ in 0..count {
        let item = T::read(alloc, reader)?;
        items.push(item)?;
    }
    Ok(items)
}

/// Writes a list: its count and its items.
pub fn put_list<T: Item>(out: &mut Vec<u8>, list: &Items<T>) -> Result<(), NoMemory>
    ensures { OnOk result (Wrote (lists T.form) list.now out.old.items out.new.items) }
{
    if list.len() > LONGEST_FIELD {
        return Err(NoMemory);
    }
    put_word(out, list.len() as u32)?;
    put_items(out, list.as_slice())
}

/// Writes items one behind the other, without their count.
#[tactic(auto, using(crate::proofs::Writes::all_written, crate::proofs::Writes::none_written))]
pub fn put_items<T: Item>(out: &mut Vec<u8>, items: &[T]) -> Result<(), NoMemory>
    ensures { OnOk result (WroteAll T.form items.now out.old.items out.new.items) }
{
    for item in items {
        item.write(out)?;
    }
    Ok(())
}
