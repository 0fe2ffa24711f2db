//! The image of a storage, and the storage of an image.
ghost use Rattle.std.specs.Prelude.{◌≡◌, ◌≤◌, ◌+◌, ◌^◌, [], length, IfOk, OnOk, OnErr};
ghost use Rattle.kp_model.specs.Store.{last as last_of};
ghost use Rattle.kp_storage.specs.Kept.{with_all};

use crate::storage::Storage;
use kp_cells::Cells;
use kp_model::{Entry, NoMemory};
use kp_snapshot::{Image, pour, write};
use std::alloc::Global;

impl Storage {
    /// The image of the committed state, as of the last entry that is committed, whose term is given; 0 where there is none.
    /// Answers `NoMemory` too where the term is above 2^62, or a text, data, an access list, the ids of a session, the
    /// sessions or the nodes are more than a length of 32 bits can tell. Costs as much as the committed state has sessions,
    /// nodes and bytes, and for each session and each node a search that grows with the logarithm of their number.
    pub fn image(&self, term: u64) -> Result<Image, NoMemory>
        ensures { IfOk result (λ made. made ≡ record { state = self.now.state; term = term }) }
    {
        let alloc = self.alloc;
        write(alloc, &self.committed(), self.applied(), term)
    }

    /// Becomes the storage whose committed state is the image's, with these entries behind it, which aren't applied. The
    /// image's index and the number of entries are together at most 2^62. It is built beside this one, which is given up
    /// once all of it is there: with `NoMemory` this storage is as it was.
    pub fn adopt(&mut self, image: &Image, rest: &[Entry]) -> Result<(), NoMemory>
        requires room { image.now.state.applied + length rest.now ≤ 2 ^ 62 }
        ensures ok { OnOk result (self.new ≡ record { state = image.now.state; unapplied = rest.now }) }
        ensures err { OnErr result (self.new ≡ self.old) }
    {
        let made = Storage::of_parts(self.alloc, image, rest)?;
        let before = std::mem::replace(self, made);
        drop(before);
        Ok(())
    }

    // The storage of the image's state and these entries behind it.
    fn of_parts(alloc: Global, image: &Image, rest: &[Entry]) -> Result<Storage, NoMemory>
        requires room { image.now.state.applied + length rest.now ≤ 2 ^ 62 }
        ensures { IfOk result (λ made. made ≡ record { state = image.now.state; unapplied = rest.now }) }
    {
        let mut made = Storage::of_image(alloc, image)?;
        match made.add_all(rest) {
            Ok(()) => Ok(made),
            Err(_) => {
                drop(made);
                Err(NoMemory)
            }
        }
    }

    // The storage of the image's state, with no entry that isn't applied.
    fn of_image(alloc: Global, image: &Image) -> Result<Storage, NoMemory>
        ensures { IfOk result (λ made. made ≡ record { state = image.now.state; unapplied = [] }) }
    {
        let mut cells = Cells::new(alloc)?;
        match pour(alloc, image, &mut cells) {
            Ok(()) => {
                image.stays_sound();
                Ok(Storage::of_cells(alloc, cells))
            }
            Err(_) => {
                drop(cells);
                Err(NoMemory)
            }
        }
    }

    // Adds the entries behind the last one. Without memory some of them are added.
    fn add_all(&mut self, entries: &[Entry]) -> Result<(), NoMemory>
        requires room { last_of self.old + length entries.now ≤ 2 ^ 62 }
        ensures { OnOk result (self.new ≡ with_all self.old entries.now) }
    {
        for entry in entries {
            self.preprocess(entry)?;
        }
        Ok(())
    }
}
