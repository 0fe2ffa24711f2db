ghost use Rattle.std.specs.Prelude.{◌≡◌, ◌++◌, if◌then◌else◌, codes, string_bytes, IfOk, OnOk, OnErr};
ghost use Rattle.std.specs.Fmt.{decimal};
ghost use Rattle.kp_script.specs.Messages.{said_text, message_text};

use kp_model::NoMemory;
use kp_text::print_text;
use std::alloc::Global;

/// A message between nodes, with the numbers that are printed of it. An index stands with the term of the entry there.
#[derive(Clone, Copy)]
pub enum MessageLine {
    /// A candidate asks for a vote.
    VoteReq {
        term: u64,
        last: u64,
        last_term: u64,
    },
    /// The vote, or none.
    VoteRep {
        term: u64,
        yes: bool,
    },
    /// A leader's entries behind an index, and its commit index.
    Append {
        term: u64,
        prev: u64,
        prev_term: u64,
        count: u64,
        commit: u64,
    },
    /// Whether they fit, and the last index.
    AppendRep {
        term: u64,
        ok: bool,
        last: u64,
    },
    /// A leader's image.
    Install {
        term: u64,
        index: u64,
        index_term: u64,
    },
    /// It was taken.
    InstallRep {
        term: u64,
        index: u64,
    },
    /// The opening of a session, for the leader.
    ForwardOpen {
        term: u64,
    },
    /// The taking over of a session, for the leader.
    ForwardAttach {
        term: u64,
        session: u64,
    },
    /// A write of a session, for the leader.
    ForwardWrite {
        term: u64,
        session: u64,
        epoch: u64,
        seq: u64,
    },
}

fn yes_or_no(yes: bool) -> &'static str
    ensures { result.now ≡ (if yes then codes " yes" else codes " no") }
{
    if yes { " yes" } else { " no" }
}

fn ok_or_no(ok: bool) -> &'static str
    ensures { result.now ≡ (if ok then codes " ok last=" else codes " no last=") }
{
    if ok { " ok last=" } else { " no last=" }
}

// What a message says.
#[tactic(auto, unfolding(crate::specs::Messages::said_text))]
fn said(alloc: Global, message: MessageLine) -> Result<String, NoMemory>
    ensures { IfOk result (λ s. string_bytes s ≡ said_text message) }
{
    let text = match message {
        MessageLine::VoteReq {
            term,
            last,
            last_term,
        } => format!(in alloc; "votereq t={term} last={last}.{last_term}"),
        MessageLine::VoteRep { term, yes } => {
            let word = yes_or_no(yes);
            format!(in alloc; "voterep t={term}{word}")
        }
        MessageLine::Append {
            term,
            prev,
            prev_term,
            count,
            commit,
        } => format!(in alloc; "append t={term} prev={prev}.{prev_term} n={count} commit={commit}"),
        MessageLine::AppendRep { term, ok, last } => {
            let word = ok_or_no(ok);
            format!(in alloc; "appendrep t={term}{word}{last}")
        }
        MessageLine::Install {
            term,
            index,
            index_term,
        } => format!(in alloc; "install t={term} at={index}.{index_term}"),
        MessageLine::InstallRep { term, index } => format!(in alloc;
            "installrep t={term} at={index}"
        ),
        MessageLine::ForwardOpen { term } => format!(in alloc; "forward t={term} open"),
        MessageLine::ForwardAttach { term, session } => {
            format!(in alloc; "forward t={term} attach s={session}")
        }
        MessageLine::ForwardWrite {
            term,
            session,
            epoch,
            seq,
        } => format!(in alloc; "forward t={term} write s={session} e={epoch} q={seq}"),
    };
    Ok(text?)
}

/// Prints a message with its number, its sender and its receiver, without a line feed: all of it, or nothing where
/// memory runs out.
pub fn print_message(
    number: u64,
    from: u8,
    to: u8,
    message: &MessageLine,
    out: &mut Vec<u8>,
) -> Result<(), NoMemory>
    ensures ok { OnOk result (out.new.items ≡ out.old.items ++ message_text number from to message.now) }
    ensures err { OnErr result (out.new.items ≡ out.old.items) }
{
    let alloc = *out.allocator();
    let said = said(alloc, *message)?;
    let text = format!(in alloc; "msg {number} {from}>{to} {said}")?;
    print_text(&text, out)
}
