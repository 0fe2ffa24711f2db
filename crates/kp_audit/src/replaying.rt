//! The plain store of what a home keeps.

ghost use Rattle.std.specs.Prelude.{◌≡◌, ◌≤◌, ◌+◌, ◌^◌, [], length, IfOk, OnOk};
ghost use Rattle.kp_model.specs.Good.{IsSound};
ghost use Rattle.kp_model.specs.Store.{empty, last as last_of};
ghost use Rattle.kp_homes.specs.Opening.{IsWithin};
ghost use Rattle.kp_audit.specs.Texts.{base_state, store_of, with_all};

use kp_model::{Entry, NoMemory};
use kp_plain::PlainStore;
use kp_snapshot::{Image, pour};
use std::alloc::Global;

// Adds the entries behind the last one. Without memory some of them are added.
fn add_all(store: &mut PlainStore, entries: &[Entry]) -> Result<(), NoMemory>
    requires room { last_of store.old + length entries.now ≤ 2 ^ 62 }
    ensures { OnOk result (store.new ≡ with_all store.old entries.now) }
{
    for entry in entries {
        store.preprocess(entry)?;
    }
    Ok(())
}

// Makes the image's state that of a new store. Without an image it stays the empty one.
fn take_base(alloc: Global, store: &mut PlainStore, image: &Option<Image>) -> Result<(), NoMemory>
    requires { store.old ≡ empty }
    ensures value { OnOk result (store.new ≡ record { state = base_state image.now; unapplied = [] }) }
    ensures sound { OnOk result (IsSound (base_state image.now)) }
{
    match image {
        None => Ok(()),
        Some(image) => {
            image.stays_sound();
            pour(alloc, image, store)
        }
    }
}

// Makes a new store the one of the image's state with these entries behind it.
fn fill(
    alloc: Global,
    store: &mut PlainStore,
    image: &Option<Image>,
    rest: &[Entry],
) -> Result<(), NoMemory>
    requires new { store.old ≡ empty }
    requires room { IsWithin image.now rest.now }
    ensures value { OnOk result (store.new ≡ store_of image.now rest.now) }
    ensures sound { OnOk result (IsSound (base_state image.now)) }
{
    take_base(alloc, store, image)?;
    add_all(store, rest)
}

/// The store of the image's state, or of the empty one without an image, with these entries behind it, which aren't applied.
pub(crate) fn replayed(
    alloc: Global,
    image: &Option<Image>,
    rest: &[Entry],
) -> Result<PlainStore, NoMemory>
    requires room { IsWithin image.now rest.now }
    ensures value { IfOk result (λ s. s ≡ store_of image.now rest.now) }
    ensures sound { IfOk result (λ s. IsSound s.state) }
{
    let mut store = PlainStore::new(alloc)?;
    match fill(alloc, &mut store, image, rest) {
        Ok(()) => Ok(store),
        Err(none) => {
            drop(store);
            Err(none)
        }
    }
}
