//! Why a cluster has one committed log: the protocol under Raft, without programs, messages and disks.
//!
//! A cluster of members 1 to n is seen through a book of all terms, votes, elections, logs and
//! acknowledgements (`specs/Book.antt`), which seven moves change (`specs/Moves.antt`). A history is a
//! list of moves from the empty book, each allowed where its turn comes. The functions below have no
//! code: the contract of each is a law of every history of every number of members. The laws are the
//! five properties of Raft as Diego Ongaro's thesis "Consensus: Bridging Theory and Practice" lists
//! them in figure 3.2; `specs/Laws.antt` has them in full.
#![tactic(auto)]

mod acted;
mod network;

ghost use Rattle.kp_world.specs.Laws.{
  OneWinner,
  OneLeader,
  LeaderAppendsOnly,
  LeaderKeepsItsLog,
  LogsMatch,
  LaterLeadersHaveIt,
  EarlierLeadersHaveIt,
  CommittedBeginAlike,
  OneEntryAPlace,
  CommittedForGood,
};
ghost use Rattle.kp_world.specs.Runs.{
  ElectionHappens,
  WriteIsCommitted,
  MemberCatchesUp,
  WriteIsDropped,
};
ghost use Rattle.kp_world.specs.Broken.{
  VotersCompareLogs,
  VotersVoteOnce,
  FollowersKeepAgreement,
  OldEntriesAreNotCounted,
};

pub use acted::writes_act_once;
pub use network::{network_rules_are_needed, networks_of_three, one_list, one_log};

/// Election Safety (thesis, section 3.4): at most one leader is elected in a term.
///
/// `winner`: no two candidates ever get the votes of a majority in one term. `leader`: whoever is
/// leader has those votes, and is the leader of that term for ever.
pub fn election_safety()
    ensures winner { OneWinner }
    ensures leader { OneLeader }
{}

/// Leader Append-Only (thesis, section 3.5): a leader never overwrites or deletes entries of its log.
///
/// `written`: what the log of a term's leader ever had stays in it. `own`: a leader that has that whole
/// log itself goes on having it as long as it stays in its term.
pub fn leader_append_only()
    ensures written { LeaderAppendsOnly }
    ensures own { LeaderKeepsItsLog }
{}

/// Log Matching (thesis, section 3.5): two logs that have an entry of the same term at the same index
/// are identical up to that index.
pub fn log_matching()
    ensures { LogsMatch }
{}

/// Leader Completeness (thesis, section 3.6): what is committed in a term stands in the logs of the
/// leaders of all later terms.
///
/// `later`: of a leader that is there once it is committed. `earlier`: of a leader that was elected
/// before it was committed.
pub fn leader_completeness()
    ensures later { LaterLeadersHaveIt }
    ensures earlier { EarlierLeadersHaveIt }
{}

/// State Machine Safety (thesis, section 3.6.3): members that apply nothing but what is committed never
/// apply different entries at one index.
///
/// `lists`: of two lists that were committed at any two moments one begins the other. `entries`: so
/// they have the same entry at each index that both reach. `kept`: what is committed stays so.
pub fn state_machine_safety()
    ensures lists { CommittedBeginAlike }
    ensures entries { OneEntryAPlace }
    ensures kept { CommittedForGood }
{}

/// What the moves allow: histories of three members, so that the laws above are of something.
///
/// `elected`: a member is elected. `committed`: its write is committed while a member lags. `late`:
/// that member catches up. `dropped`: a leader is deposed, and its write, which nobody else has, is
/// dropped.
pub fn histories_of_three()
    ensures elected { ElectionHappens }
    ensures committed { WriteIsCommitted }
    ensures late { MemberCatchesUp }
    ensures dropped { WriteIsDropped }
{}

/// What the rules are for: in each of these runs of three members one move is refused, and had it been
/// made, all others would have been allowed and the protocol would not be safe.
///
/// `logs_compared` (thesis, section 3.6.1): a vote for a candidate with an older log loses a committed
/// entry. `one_vote` (section 3.4): a second vote in a term makes a second leader. `agreement_kept`
/// (section 3.5): cutting off entries that agree with the leader's loses a committed one. `own_term`
/// (section 3.6.2): here no move is refused; a list that ends in an entry of an earlier term is lost
/// although a majority has acknowledged it, so it doesn't count as committed.
pub fn rules_are_needed()
    ensures logs_compared { VotersCompareLogs }
    ensures one_vote { VotersVoteOnce }
    ensures agreement_kept { FollowersKeepAgreement }
    ensures own_term { OldEntriesAreNotCounted }
{}
