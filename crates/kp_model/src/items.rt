ghost use Rattle.std.specs.Prelude.{◌≡◌, [], ◌∷◌, ◌++◌, length, IfOk, OnOk, OnErr};

use crate::memory::{Duplicate, NoMemory};
use std::alloc::Global;
use std::marker::Model;

/// A list that contracts see as the list of its items.
#[derive(Drop)]
pub struct Items<T> {
    items: Vec<T>,
}

impl<T> Model for Items<T> {
    ghost use Rattle.std.specs.Prelude.{List};
    ghost use Rattle.std.specs.Coded.{coded_list};

    ghost Value = { List T };

    ghost coded = { coded_list T.code };

    ghost view = { λ it. it.items.items };
}

impl<T> Items<T> {
    /// No items. Takes no memory.
    pub fn new(alloc: Global) -> Items<T>
        ensures { result ≡ [] }
    {
        Items {
            items: Vec::new(alloc),
        }
    }

    /// The items of the vector, with its memory.
    pub fn from_vec(items: Vec<T>) -> Items<T>
        ensures { result ≡ items.items }
    {
        Items { items }
    }

    /// Lends the items.
    pub fn as_slice(&self) -> &[T]
        ensures { result.now ≡ self.now }
    {
        self.items.as_slice()
    }

    /// Gives the vector back. Takes no memory.
    pub fn into_vec(self) -> Vec<T>
        ensures { result.items ≡ self }
    {
        let Items { items } = self;
        items
    }

    /// The number of items.
    pub fn len(&self) -> usize
        ensures { result ≡ length self.now }
    {
        self.items.len()
    }
}

impl<T: Drop> Items<T> {
    /// Adds an item at the end. Without memory the list stays as it was.
    pub fn push(&mut self, item: T) -> Result<(), NoMemory>
        ensures ok { OnOk result (self.new ≡ self.old ++ item ∷ []) }
        ensures err { OnErr result (self.new ≡ self.old) }
    {
        self.items.push(item)?;
        Ok(())
    }
}

impl<T: Drop + Duplicate> Items<T> {
    /// An equal list with memory of its own.
    pub fn copy(&self, alloc: Global) -> Result<Items<T>, NoMemory>
        ensures { IfOk result (λ r. r ≡ self.now) }
    {
        Ok(Items {
            items: copies(alloc, self.as_slice())?,
        })
    }
}

// Copies of the items, in their order.
fn copies<T: Drop + Duplicate>(alloc: Global, from: &[T]) -> Result<Vec<T>, NoMemory>
    ensures { IfOk result (λ r. r.items ≡ from.now) }
{
    let mut items = Vec::new(alloc);
    for item in from {
        items.push(item.duplicate(alloc)?)?;
    }
    Ok(items)
}

impl<T: Drop + Duplicate> Duplicate for Items<T> {
    fn duplicate(&self, alloc: Global) -> Result<Items<T>, NoMemory> {
        self.copy(alloc)
    }
}
