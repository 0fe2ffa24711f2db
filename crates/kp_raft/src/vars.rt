//! What a member loses at a stop.

ghost use Rattle.std.specs.Prelude.{◌≡◌, ◌<◌, ◌≤◌, ◌^◌, max, true, false};
ghost use Rattle.kp_entry.specs.Log.{last_index};
ghost use Rattle.kp_raft.specs.Parts.{following, is_leader, is_candidate};
ghost use Rattle.kp_raft.specs.Rules.{with_vote, with_next, matched_by, committed, leading, candidate};
ghost use Rattle.kp_raft.specs.Appends.{committing};
ghost use Rattle.kp_raft.specs.Variables.{vars_of, IsLow};

use crate::rules::commit_of;
use kp_model::Role;
use kp_raftlog::RaftLog;

/// The greatest index, term and time: 2^62.
pub(crate) const MAX: u64 = 4_611_686_018_427_387_904;

/// The variables that are not kept. Votes, matches and nexts stand at the place of the member's number.
#[derive(Clone, Copy)]
pub(crate) struct Vars {
    pub(crate) role: Role,
    pub(crate) leader: u8,
    pub(crate) commit: u64,
    pub(crate) votes: [bool; 8],
    pub(crate) matches: [u64; 8],
    pub(crate) nexts: [u64; 8],
}

impl Vars {
    /// At a start.
    pub(crate) fn at_start(commit: u64) -> Vars
        ensures after { vars_of result ≡ Rattle.kp_raft.specs.Parts.started commit }
        ensures commit { result.commit ≡ commit }
        ensures role { is_candidate result.role ≡ false }
        ensures low { IsLow result.matches }
    {
        Vars {
            role: Role::Follower,
            leader: 0,
            commit,
            votes: [false; 8],
            matches: [0; 8],
            nexts: [0; 8],
        }
    }

    /// A follower of this leader, or of none where it is 0.
    pub(crate) fn following(self, leader: u8) -> Vars
        ensures after { vars_of result ≡ following (vars_of self) leader }
        ensures commit { result.commit ≡ self.commit }
        ensures role { is_candidate result.role ≡ false }
        ensures low { IsLow self.matches → IsLow result.matches }
    {
        Vars {
            role: Role::Follower,
            leader,
            ..self
        }
    }

    /// A follower of this leader whose commit index is at least this.
    pub(crate) fn committing(self, leader: u8, commit: u64) -> Vars
        ensures after { vars_of result ≡ committing (vars_of self) leader commit }
        ensures commit { result.commit ≡ max self.commit commit }
        ensures role { is_candidate result.role ≡ false }
        ensures low { IsLow self.matches → IsLow result.matches }
    {
        Vars {
            role: Role::Follower,
            leader,
            commit: self.commit.max(commit),
            ..self
        }
    }

    /// The vote of this member is in.
    pub(crate) fn with_vote(self, from: u8) -> Vars
        requires { from < 8 }
        ensures after { vars_of result ≡ with_vote (vars_of self) from }
        ensures commit { result.commit ≡ self.commit }
        ensures role { result.role ≡ self.role }
        ensures low { IsLow self.matches → IsLow result.matches }
    {
        let mut vars = self;
        vars.votes[from as usize] = true;
        vars
    }

    /// The log of this peer doesn't fit where it was tried.
    pub(crate) fn with_next(self, from: u8, last: u64) -> Vars
        requires member { from < 8 }
        requires last { last ≤ 2 ^ 62 }
        requires low { IsLow self.matches }
        ensures after { vars_of result ≡ with_next (vars_of self) from last }
        ensures commit { result.commit ≡ self.commit }
        ensures role { result.role ≡ self.role }
        ensures low { IsLow result.matches }
    {
        let from = from as usize;
        let mut vars = self;
        let tried = vars.nexts[from].saturating_sub(1).min(last + 1);
        vars.nexts[from] = (vars.matches[from] + 1).max(tried);
        vars
    }

    /// This peer has the leader's log up to `last`.
    pub(crate) fn with_match(
        self,
        me: u8,
        members: u8,
        term: u64,
        log: &RaftLog,
        from: u8,
        last: u64,
    ) -> Vars
        requires member { from < 8 }
        requires members { members < 8 }
        requires last { last ≤ 2 ^ 62 }
        requires low { IsLow self.matches }
        ensures after { vars_of result ≡ matched_by members me term log.now (vars_of self) from last }
        ensures grows { self.commit ≤ result.commit }
        ensures within { self.commit ≤ last_index log.now → result.commit ≤ last_index log.now }
        ensures role { result.role ≡ self.role }
        ensures low { IsLow result.matches }
    {
        let from = from as usize;
        let mut vars = self;
        let known = vars.matches[from].max(last);
        vars.matches[from] = known;
        vars.nexts[from] = known + 1;
        vars.commit = commit_of(members, me, term, log, &vars.matches, vars.commit);
        vars
    }

    /// With the commit index that this log gives a leader of this term.
    pub(crate) fn committed(self, members: u8, me: u8, term: u64, log: &RaftLog) -> Vars
        requires members { members < 8 }
        ensures after { vars_of result ≡ committed members me term log.now (vars_of self) }
        ensures grows { self.commit ≤ result.commit }
        ensures within { self.commit ≤ last_index log.now → result.commit ≤ last_index log.now }
        ensures role { result.role ≡ self.role }
        ensures low { IsLow self.matches → IsLow result.matches }
    {
        let mut vars = self;
        vars.commit = commit_of(members, me, term, log, &vars.matches, vars.commit);
        vars
    }

    /// Leader of its term, with a log that ends at `last`.
    pub(crate) fn leading(self, me: u8, last: u64) -> Vars
        requires { last ≤ 2 ^ 62 }
        ensures after { vars_of result ≡ leading me last (vars_of self) }
        ensures commit { result.commit ≡ self.commit }
        ensures role { is_candidate result.role ≡ false }
        ensures low { IsLow result.matches }
    {
        Vars {
            role: Role::Leader,
            leader: me,
            matches: [0; 8],
            nexts: [last + 1; 8],
            ..self
        }
    }

    /// A leader whose log ends at `last`: where that is the greatest index it leads no more.
    pub(crate) fn still_leading(self, last: u64) -> Vars
        requires { is_leader self.role ≡ true }
        ensures after { vars_of result ≡ Rattle.kp_raft.specs.Rules.still_leading last (vars_of self) }
        ensures commit { result.commit ≡ self.commit }
        ensures role { is_candidate result.role ≡ false }
        ensures low { IsLow self.matches → IsLow result.matches }
    {
        if last < MAX { self } else { self.following(0) }
    }

    /// A candidate, with its own vote alone.
    pub(crate) fn standing(self, me: u8) -> Vars
        requires { me < 8 }
        ensures after { vars_of result ≡ candidate me (vars_of self) }
        ensures commit { result.commit ≡ self.commit }
        ensures low { IsLow self.matches → IsLow result.matches }
    {
        let silent = Vars {
            role: Role::Candidate,
            leader: 0,
            votes: [false; 8],
            ..self
        };
        silent.with_vote(me)
    }
}
