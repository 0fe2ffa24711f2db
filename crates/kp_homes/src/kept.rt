use kp_model::Entry;
use kp_snapshot::Image;

/// What a server starts with.
#[derive(Drop)]
pub struct Kept0 {
    /// The term.
    pub term: u64,
    /// For whom it voted in that term, or 0.
    pub vote: u8,
    /// The number of this start.
    pub boot: u64,
    /// What stands for the log up to the image's index, or None where all entries are in `rest`.
    pub image: Option<Image>,
    /// The entries behind it.
    pub rest: Vec<Entry>,
}
