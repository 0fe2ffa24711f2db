//! An image.

ghost use Rattle.std.specs.Prelude.{◌≡◌, IfOk, IsTrue};
ghost use Rattle.kp_model.specs.Good.{IsSound};
ghost use Rattle.kp_model.specs.Grammar.{is_number};
ghost use Rattle.kp_jute.specs.Form.{IsBytes, whole};
ghost use Rattle.kp_snapshot.specs.Snapshots.{Snapshot, images, snapshot_in, IsImage, Reads, IsImageOf};

use crate::check::check;
use crate::fail::ImageFail;
use kp_model::{Duplicate, NoMemory};
use std::alloc::Global;
use std::marker::Model;

/// The bytes of a state and of the term of the entry of its applied index. Contracts see it as that snapshot; its bytes are
/// its spelling.
#[derive(Drop)]
pub struct Image {
    bytes: Vec<u8>,
    index: u64,
    term: u64,
}

impl Model for Image {
    ghost use Rattle.std.specs.Prelude.{◌≡◌};
    ghost use Rattle.kp_snapshot.specs.Snapshots.{Snapshot, snapshot_code, snapshot_in, IsImage};

    ghost Value = { Snapshot };

    ghost coded = { snapshot_code };

    ghost view = { λ i. snapshot_in i.bytes.items };

    ghost invariant = { λ i. IsImage i.bytes.items i.index i.term };
}

impl Image {
    /// The bytes, to be kept or sent.
    pub fn as_slice(&self) -> &[u8]
        ensures spelled { result.now ≡ images.spell self.now }
        ensures fits { images.Fits self.now }
    {
        self.bytes.as_slice()
    }

    /// The applied index of the state.
    pub fn index(&self) -> u64
        ensures { result ≡ self.now.state.applied }
    {
        self.index
    }

    /// The term of the entry of that index, 0 where the index is 0.
    pub fn term(&self) -> u64
        ensures { result ≡ self.now.term }
    {
        self.term
    }

    /// The state is sound, and the term is a number. Does nothing: to lend a field opens what the type says of the image.
    pub fn stays_sound(&self)
        ensures sound { IsSound self.now.state }
        ensures term { IsTrue (is_number self.now.term) }
    {
        let _bytes = &self.bytes;
    }

    /// An equal value with memory of its own.
    pub fn copy(&self, alloc: Global) -> Result<Image, NoMemory>
        ensures { IfOk result (λ made. made ≡ self.now) }
    {
        Ok(Image {
            bytes: Vec::from_slice(alloc, self.bytes.as_slice())?,
            index: self.index,
            term: self.term,
        })
    }

    /// The image that the bytes, which spell one of this index and this term, are, with their memory.
    pub(crate) fn of_spelling(bytes: Vec<u8>, index: u64, term: u64) -> Image
        requires { IsImage bytes.items index term }
        ensures { result ≡ snapshot_in bytes.items }
    {
        Image { bytes, index, term }
    }

    /// The image that the bytes are, to their end, with their memory.
    pub fn from_vec(alloc: Global, bytes: Vec<u8>) -> Result<Image, ImageFail>
        // What is read is spelled so.
        ensures found { IfOk result (λ s. images.Fits s × (bytes.items ≡ images.spell s)) }
        // What is spelled so is read, unless memory runs out.
        ensures only { (s : Snapshot) → images.Fits s → bytes.items ≡ images.spell s → IsImageOf s result }
        // And else the answer tells the first field that is refused.
        ensures exact { Reads result (whole images bytes.items) }
    {
        Image::checked(alloc, bytes)
    }

    // The image that the bytes are, where reading them to their end says so.
    fn checked(alloc: Global, bytes: Vec<u8>) -> Result<Image, ImageFail>
        ensures read { Reads result (whole images bytes.items) }
        ensures bytes { IsBytes bytes.items }
    {
        match check(alloc, &bytes) {
            Ok(head) => Ok(Image {
                bytes,
                index: head.index,
                term: head.term,
            }),
            Err(fail) => {
                drop(bytes);
                Err(ImageFail::from(fail))
            }
        }
    }
}

impl Duplicate for Image {
    fn duplicate(&self, alloc: Global) -> Result<Image, NoMemory> {
        self.copy(alloc)
    }
}
