//! Values that stand in groups.
ghost use Rattle.std.specs.Prelude.{◌≡◌, Option, None, option_and_then};

use std::hash::Hash;

/// Tells the group of a value, if it is in one. The type that says so needs no values of its own:
/// so a crate can group values of a type that isn't its own.
pub trait Grouping<V> {
    /// What names a group.
    type Group: Copy + Eq + Hash;

    /// The group of a value.
    ghost group_of: { V → Option Self.Group };

    /// The group of the value; None where it is in no group.
    fn group(value: &V) -> Option<Self::Group>
        ensures { result ≡ group_of value.now };
}

/// No value is in a group.
pub struct Ungrouped;

impl<V> Grouping<V> for Ungrouped {
    type Group = u64;

    ghost group_of = { λ _. None };

    fn group(_value: &V) -> Option<u64> {
        None
    }
}

/// The group of the value, if there is a value and it is in a group.
pub(crate) fn group_of<V, S: Grouping<V>>(value: &Option<V>) -> Option<S::Group>
    ensures { result ≡ option_and_then S.group_of value.now }
{
    match value {
        Some(value) => S::group(value),
        None => None,
    }
}
