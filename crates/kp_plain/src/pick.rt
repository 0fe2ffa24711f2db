use kp_model::Text;

/// Which paths are listed.
#[derive(Drop)]
pub enum Pick {
    Every,
    /// Those of the children of a path.
    ChildOf(Text),
    /// Those of the nodes that a session owns.
    OwnedBy(u64),
}
