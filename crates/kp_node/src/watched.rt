//! The watch that a question sets.

ghost use Rattle.std.specs.Prelude.{◌≡◌};
ghost use Rattle.kp_step.specs.Answers.{kind_of as kind_in, lets_watch as may_watch};

use kp_model::ReadReply;
use kp_model::errors::NO_NODE;
use kp_watch::Kind;
use kp_wire::WireAsk;

/// The kind of watch that a question sets.
pub fn kind_of(ask: &WireAsk) -> Kind
    ensures { result ≡ kind_in ask.now }
{
    match ask {
        WireAsk::GetChildren { .. } | WireAsk::GetChildren2 { .. } => Kind::Child,
        _ => Kind::Data,
    }
}

/// Whether a question that is answered so sets its watch: where it is answered at all, and of `Exists` where there is no
/// node too.
pub fn lets_watch(ask: &WireAsk, reply: &ReadReply) -> bool
    ensures { result ≡ may_watch ask.now reply.now }
{
    match reply {
        ReadReply::Err(code) => matches!(ask, WireAsk::Exists { .. }) && *code == NO_NODE,
        _ => true,
    }
}
