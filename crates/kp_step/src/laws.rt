//! The laws of a node's runs. The contract of each function is a law; the function does nothing.

ghost use Rattle.kp_step.specs.Runs.{RepliesAreInOrder, AnswersAreOfOneState, StatesAreReplays, ConnectionsRest};
ghost use Rattle.kp_step.specs.Causes.{RefusalsAreCaused};
ghost use Rattle.kp_step.specs.Unknown.{UnknownIsUnimplemented};
ghost use Rattle.kp_step.specs.Rows.{StepsSay, AnswersFit};

/// In every run, whatever its events are, and with images of any type: the answers of a connection go out in the order
/// of its requests, one for each; a request is left out only where its connection ends. The indexes that they show never
/// fall.
pub fn reply_order<I>()
    ensures { RepliesAreInOrder I }
{}

/// At every event of every run: what a connection is answered shows the index of one committed state, which is the one
/// behind the entry that the event applies, or else the one before the event; and a request that asks for no write is
/// answered what that state answers.
pub fn answers_show_one_state<I>()
    ensures { AnswersAreOfOneState I }
{}

/// In every run: the committed state is the replay of the entries that were applied since the start or since the last
/// image that was taken, in their order; and the uncommitted state is the replay of these and of the unapplied entries
/// of the log.
pub fn states_are_replays<I>()
    ensures { StatesAreReplays I }
{}

/// In every run: behind each event, of each connection nothing waits, or the first request that waits is a write whose
/// entry isn't applied.
pub fn connections_rest<I>()
    ensures { ConnectionsRest I }
{}

/// At every event of every node: what it says. `says`: that of bytes there is no such connection, or it is closing, or how
/// they were read; of a hangup whether there was such a connection; of a drain what was ready, or that there is none; of
/// a commit the index of the entry that is applied, or that there is none to apply. `fits`: it is an answer to an event
/// of that kind.
pub fn steps_say<I>()
    ensures says { StepsSay I }
    ensures fits { AnswersFit I }
{}

/// At every event of every node: what waits is answered -4 because of the term only where the term rises, -118 only where
/// the entry that is applied takes its session over for another connection, and -112 for an expiry only where that entry
/// is the expiry of its session.
pub fn refusals_have_causes<I>()
    ensures { RefusalsAreCaused I }
{}

/// On every state: a request that is no write is answered -6 exactly where its type is one that the protocol here doesn't
/// have.
pub fn unknown_requests()
    ensures { UnknownIsUnimplemented }
{}
