//! What a new slot is made of.

ghost use Rattle.std.specs.Prelude.{Ok, ◌≡◌};
ghost use Rattle.kp_homes.specs.Opening.{image_in};
ghost use Rattle.kp_homes.specs.Replays.{image_bytes};

use kp_entry::Records;
use kp_snapshot::Image;

/// What a home is made to stand for: an image, and the records behind it.
#[derive(Drop)]
pub struct Whole {
    /// What stands for the log up to the image's index, or None where all of it is in `rest`.
    pub image: Option<Image>,
    /// The vote, the number of the start, and the entries behind the image.
    pub rest: Records,
}

/// The bytes of an image; none without one.
pub(crate) fn image_bytes(image: &Option<Image>) -> &[u8]
    ensures bytes { result.now ≡ image_bytes image.now }
    ensures read { image_in 0 result.now ≡ Ok image.now }
{
    match image {
        None => &[],
        Some(image) => image.as_slice(),
    }
}
