//! The image of a storage, read and adopted by another storage.

use crate::reads::{are_answered, fill};
use crate::stories::{ANY, MANY, create, data, open, write};
use kp_model::{Body, Cmd, Entry, NoMemory, Reply, Text};
use kp_snapshot::{Image, read};
use kp_storage::Storage;
use std::alloc::Global;
use std::test::Fail;

// 2^31 - 1 in four bytes.
const LAST_VERSION: &[u8] = &[127, 255, 255, 255];

// Makes a storage that of the image and these entries.
fn adopt(storage: &mut Storage, image: &Image, rest: &[Entry]) -> Result<(), NoMemory> {
    if image.index() < MANY && rest.len() < 10 {
        storage.adopt(image, rest)?;
    }
    Ok(())
}

// The entry that ends the first session.
fn ending(alloc: Global) -> Result<Vec<Entry>, NoMemory> {
    let mut entries = Vec::new(alloc);
    entries.push(Entry::new(1, 50, Body::Expire { session: 1 })?)?;
    Ok(entries)
}

// Adopts the image that the bytes are, with the end of the first session behind it.
fn take(alloc: Global, storage: &mut Storage, bytes: &[u8]) -> Result<(), NoMemory> {
    let rest = ending(alloc)?;
    let Ok(image) = read(alloc, bytes) else {
        drop(rest);
        return Err(NoMemory);
    };
    let adopted = adopt(storage, &image, rest.as_slice());
    drop(image);
    drop(rest);
    adopted
}

// Whether the session is there, and ends with the entry that isn't applied.
fn is_ending(storage: &Storage) -> bool {
    storage.last() == storage.applied().saturating_add(1)
        && storage.committed_session(1).is_some()
        && storage.latest_session(1).is_none()
}

// Whether the image of the committed state has these bytes.
fn is_spelled(storage: &Storage, bytes: &[u8]) -> Result<bool, NoMemory> {
    let image = storage.image(1)?;
    let same = image.as_slice() == bytes;
    drop(image);
    Ok(same)
}

fn answers(alloc: Global, storage: &mut Storage, bytes: &[u8]) -> Result<bool, NoMemory> {
    take(alloc, storage, bytes)?;
    let answered = are_answered(alloc, storage)?;
    Ok(answered && is_ending(storage) && is_spelled(storage, bytes)?)
}

// Whether another storage answers the same questions with this image.
fn is_copied(alloc: Global, image: &Image) -> Result<bool, NoMemory> {
    let mut other = Storage::new(alloc)?;
    let told = answers(alloc, &mut other, image.as_slice());
    drop(other);
    told
}

fn goes_over(alloc: Global, storage: &mut Storage) -> Result<bool, NoMemory> {
    fill(alloc, storage)?;
    let image = storage.image(1)?;
    let told = is_copied(alloc, &image);
    drop(image);
    told
}

// The image with 2^31 - 1 for the version of its last node, behind which 20 bytes stand.
fn with_last_version(alloc: Global, image: &Image) -> Result<Image, NoMemory> {
    let mut bytes = Vec::from_slice(alloc, image.as_slice())?;
    let from = bytes.len().saturating_sub(24);
    for (at, byte) in LAST_VERSION.iter().enumerate() {
        if let Some(place) = bytes.get_mut(from.saturating_add(at)) {
            *place = *byte;
        }
    }
    match Image::from_vec(alloc, bytes) {
        Ok(image) => Ok(image),
        Err(_) => Err(NoMemory),
    }
}

// Sets the data of `/a`, whatever its version.
fn set(alloc: Global, storage: &mut Storage) -> Result<(), NoMemory> {
    let cmd = Cmd::SetData {
        path: Text::from_str(alloc, "/a")?,
        bytes: data(alloc, b"new")?,
        version: ANY,
    };
    write(storage, 1, 2, cmd)
}

// The version that the last entry was answered.
fn version(storage: &Storage) -> Option<u32> {
    match storage.kept(storage.last()) {
        Some(Reply::Stat(meta)) => Some(meta.version),
        _ => None,
    }
}

// Adopts the image of a storage with a session and `/a`, whose version is the greatest, and sets its data.
fn begins_again(alloc: Global, storage: &mut Storage) -> Result<bool, NoMemory> {
    open(storage, 1)?;
    create(alloc, storage, 1, "/a", 0)?;
    drop(storage.commit());
    drop(storage.commit());
    let image = storage.image(1)?;
    let last = with_last_version(alloc, &image);
    drop(image);
    let last = last?;
    let adopted = adopt(storage, &last, &[]);
    drop(last);
    adopted?;
    let shown = match storage.committed_meta("/a") {
        Some(meta) => meta.version == 2_147_483_647,
        None => false,
    };
    set(alloc, storage)?;
    Ok(shown && version(storage) == Some(0))
}

// What is done with an empty storage.
#[derive(Clone, Copy)]
enum Story {
    Copy,
    LastVersion,
}

fn tell(alloc: Global, storage: &mut Storage, story: Story) -> Result<bool, NoMemory> {
    match story {
        Story::Copy => goes_over(alloc, storage),
        Story::LastVersion => begins_again(alloc, storage),
    }
}

fn goes(alloc: Global, story: Story) -> Result<bool, NoMemory> {
    let mut storage = Storage::new(alloc)?;
    let told = tell(alloc, &mut storage, story);
    drop(storage);
    told
}

#[test]
fn another_storage_answers_the_same_with_the_image(rt: HostRuntime) -> Result<(), Fail> {
    assert!(rt; goes(rt.alloc(), Story::Copy)?);
    Ok(())
}

#[test]
fn the_version_behind_the_greatest_is_0(rt: HostRuntime) -> Result<(), Fail> {
    assert!(rt; goes(rt.alloc(), Story::LastVersion)?);
    Ok(())
}
