ghost use Rattle.std.specs.Prelude.{◌≡◌, ◌<◌, ◌^◌};
ghost use Rattle.std.specs.Option.{option_copied};
ghost use Rattle.kp_top.specs.Loading.{nothing, is_good, is_good_reply, with_entry_kept};

use kp_model::Reply;

/// What came of the lines of a load.
#[derive(Clone, Copy)]
pub struct Tally {
    /// Entries made.
    pub made: u64,
    /// Those whose kept reply is neither stale, nor an error, nor a multi that failed.
    pub good: u64,
    /// The other entries.
    pub bad: u64,
    /// Commits that took an entry.
    pub done: u64,
    /// Entries removed by truncations.
    pub cut: u64,
}

fn is_good_reply(reply: &Reply) -> bool
    ensures { result ≡ is_good_reply reply.now }
{
    match reply {
        Reply::Stale | Reply::Err(_) | Reply::Failed(_) => false,
        _ => true,
    }
}

fn is_good(reply: Option<&Reply>) -> bool
    ensures { result ≡ is_good (option_copied reply.entry) }
{
    match reply {
        None => false,
        Some(reply) => is_good_reply(reply),
    }
}

impl Tally {
    /// Of no line.
    pub fn nothing() -> Tally
        ensures { result ≡ nothing }
    {
        Tally {
            made: 0,
            good: 0,
            bad: 0,
            done: 0,
            cut: 0,
        }
    }

    /// With one entry more, of which this reply is kept.
    pub fn with_entry(self, kept: Option<&Reply>) -> Tally
        requires made { self.made < 2 ^ 63 }
        requires good { self.good < 2 ^ 63 }
        requires bad { self.bad < 2 ^ 63 }
        ensures { result ≡ with_entry_kept (option_copied kept.entry) self }
    {
        if is_good(kept) {
            Tally {
                made: self.made + 1,
                good: self.good + 1,
                ..self
            }
        } else {
            Tally {
                made: self.made + 1,
                bad: self.bad + 1,
                ..self
            }
        }
    }
}
