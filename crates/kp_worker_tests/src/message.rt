/// A message from one node to another.
#[derive(Drop)]
pub struct Message {
    /// Whether it feeds a log.
    pub feeds: bool,
}
