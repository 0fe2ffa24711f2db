//! Why the members of a cluster apply one list of entries: the rules of the Raft step on a network that
//! loses, repeats and reorders messages, with members that stop at any record of a step and start again.

ghost use Rattle.kp_world.specs.Net.{OneLog, OneList};
ghost use Rattle.kp_world.specs.NetworkRuns.{LeaderIsElected, EntriesAreApplied, EntriesAreDropped, StepIsTorn, ImageIsTaken};
ghost use Rattle.kp_world.specs.ChangedRuns.{ChangeAlone, LogsAreCompared, VotesAreSingle, VotesAreRecorded, TermsAreLookedAt, TailsAreDropped};

/// Whatever happens, of what any two members have applied, at one moment and at any later one, one
/// begins the other: of any number of members, of every list of events, with images of any type.
pub fn one_log<I>()
    ensures { OneLog I }
{}

/// There is one list of which all that any member has applied at any moment is a beginning.
pub fn one_list<I>()
    ensures { OneList I }
{}

/// What the rules allow: runs of three members, so that the laws above are of something.
///
/// `elected`: a member is elected. `applied`: its entries are applied while a member lags, and memory was
/// missing for a first delivery. `dropped`: a leader is deposed, and its entries, which nobody else has,
/// give way. `torn`: that step, stopped behind each of its records. `installed`: a member that lags takes
/// an image, stops and starts again.
pub fn networks_of_three()
    ensures elected { LeaderIsElected }
    ensures applied { EntriesAreApplied }
    ensures dropped { EntriesAreDropped }
    ensures torn { StepIsTorn }
    ensures installed { ImageIsTaken }
{}

/// What the rules are for: in each of these runs one rule is changed, and two members apply different
/// entries at one index.
///
/// `alone`: but for that rule the network is the one of the laws. `compared`: a vote without a look at the
/// logs. `single`: a second vote in a term. `recorded`: a vote that isn't recorded. `own_term`: an entry of
/// an older term that is committed by count. `dropped`: an image behind which a stale tail stays, with an
/// answer that counts it as the leader's.
pub fn network_rules_are_needed()
    ensures alone { ChangeAlone }
    ensures compared { LogsAreCompared }
    ensures single { VotesAreSingle }
    ensures recorded { VotesAreRecorded }
    ensures own_term { TermsAreLookedAt }
    ensures dropped { TailsAreDropped }
{}
