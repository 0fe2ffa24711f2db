//! Reading an image.

ghost use Rattle.std.specs.Prelude.{◌≡◌, IfOk};
ghost use Rattle.kp_jute.specs.Form.{whole};
ghost use Rattle.kp_snapshot.specs.Snapshots.{Snapshot, images, Reads, IsImageOf};

use crate::fail::ImageFail;
use crate::image::Image;
use std::alloc::Global;

/// The image that the bytes are, to their end. They are copied; `Image::from_vec` takes them as they are.
pub fn read(alloc: Global, bytes: &[u8]) -> Result<Image, ImageFail>
    // What is read is spelled so.
    ensures found { IfOk result (λ s. images.Fits s × (bytes.now ≡ images.spell s)) }
    // What is spelled so is read, unless memory runs out.
    ensures only { (s : Snapshot) → images.Fits s → bytes.now ≡ images.spell s → IsImageOf s result }
    // And else the answer tells the first field that is refused.
    ensures exact { Reads result (whole images bytes.now) }
{
    match Vec::from_slice(alloc, bytes) {
        Ok(bytes) => Image::from_vec(alloc, bytes),
        Err(_) => Err(ImageFail::NoMemory),
    }
}
