use kp_event::Standing;

/// What a worker has seen of its node's standing, and what it last had its followers told.
///
/// It decides alone when a worker makes a Beat or takes commits of its own, which it may do at any time, so no clause speaks of it.
#[derive(Clone, Copy, Drop)]
pub struct Told {
    now: Standing,
    applied: u64,
    commit: u64,
    last: u64,
}

impl Told {
    /// Nothing was seen yet, and nothing told.
    pub fn new() -> Told {
        Told {
            now: Standing {
                leader: false,
                last: 0,
                commit: 0,
            },
            applied: 0,
            commit: 0,
            last: 0,
        }
    }

    /// The node stands so after an event, which was a Beat or not.
    pub fn sees(&mut self, standing: Standing, beat: bool) {
        self.now = standing;
        if beat {
            self.commit = standing.commit;
            self.last = standing.last;
        }
    }

    /// All entries up to the commit index were applied.
    pub fn sees_applied(&mut self, standing: Standing) {
        self.now = standing;
        self.applied = standing.commit;
    }

    /// Whether entries were committed that this worker has not seen applied.
    pub fn wants_commits(&self) -> bool {
        self.now.commit > self.applied
    }

    /// Whether the followers lack something: a higher commit index; or entries, while none that were sent are outstanding.
    pub fn wants_beat(&self) -> bool {
        let commit = self.now.commit > self.commit;
        let entries = self.now.last > self.last && self.now.commit >= self.last;
        self.now.leader && (commit || entries)
    }
}
