//! Why bytes could not be read as an image.

ghost use Rattle.std.specs.Prelude.{◌≡◌};
ghost use Rattle.kp_snapshot.specs.Snapshots.{fail_of};

use kp_jute::JuteFail;

/// Why there is no image.
#[derive(Clone, Copy, Debug, PartialEq, Eq)]
pub enum ImageFail {
    /// The bytes spell no image. `at` is the place, in bytes from the start, where the first field begins that is cut off,
    /// out of its range or against a rule, or the place of the first byte behind the image; bytes and a text begin at their
    /// length.
    Damaged { at: usize },
    /// Memory ran out.
    NoMemory,
}

impl From<JuteFail> for ImageFail {
    ghost from_gives = { λ f e. e ≡ fail_of f };

    fn from(fail: JuteFail) -> ImageFail {
        match fail {
            JuteFail::Short { at } | JuteFail::BadLength { at } | JuteFail::BadByte { at } =>
                ImageFail::Damaged { at },
            JuteFail::NoMemory => ImageFail::NoMemory,
        }
    }
}
