//! Why bytes could not be read as an entry.

ghost use Rattle.std.specs.Prelude.{◌≡◌};
ghost use Rattle.kp_entry.specs.Decoding.{fail_of};

use kp_jute::JuteFail;

/// Why there is no entry.
#[derive(Clone, Copy, Debug, PartialEq, Eq)]
pub enum EntryFail {
    /// No beginning of the bytes spells an entry. `at` is the place, in bytes from the start, where the first
    /// field begins that is cut off or out of its range; bytes and a text begin at their length.
    BadEntry { at: usize },
    /// Memory ran out.
    NoMemory,
}

impl From<JuteFail> for EntryFail {
    ghost from_gives = { λ f e. e ≡ fail_of f };

    fn from(fail: JuteFail) -> EntryFail {
        match fail {
            JuteFail::Short { at } | JuteFail::BadLength { at } | JuteFail::BadByte { at } =>
                EntryFail::BadEntry { at },
            JuteFail::NoMemory => EntryFail::NoMemory,
        }
    }
}
