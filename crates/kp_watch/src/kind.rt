//! What a watch hears of.
ghost use Rattle.std.specs.Prelude.{◌≡◌};
ghost use Rattle.kp_watch.specs.Watching.{same_kind};

/// What a watch hears of.
#[derive(Clone, Copy)]
pub enum Kind {
    /// That the node comes or goes, or that its data is set.
    Data,
    /// That a child comes or goes, or the node itself goes.
    Child,
}

/// Whether both are the same.
pub fn same_kind(a: Kind, b: Kind) -> bool
    ensures { result ≡ same_kind a b }
{
    matches!(
        (a, b),
        (Kind::Data, Kind::Data) | (Kind::Child, Kind::Child)
    )
}
