ghost use Rattle.std.specs.Prelude.{◌≡◌, ◌++◌, ◌+◌, ◌<◌, ◌^◌, length, OnOk};
ghost use Rattle.kp_play.specs.Texts.{forward_line as forward_of, line_of, letters_text};
ghost use Rattle.kp_play.specs.Playing.{bytes_of};
ghost use Rattle.kp_told.specs.Letters.{letter_line};

use kp_model::{Body, NoMemory};
use kp_raft::Mail;
use kp_script::{MessageLine, print_message};
use kp_text::print_text;

/// What is printed of a body that is sent on to the leader.
fn forward_line(term: u64, body: &Body) -> MessageLine
    ensures { result ≡ forward_of term body.now }
{
    match body {
        Body::Attach { session, .. } => MessageLine::ForwardAttach {
            term,
            session: *session,
        },
        Body::Write {
            session,
            epoch,
            seq,
            ..
        } => MessageLine::ForwardWrite {
            term,
            session: *session,
            epoch: *epoch,
            seq: *seq,
        },
        Body::Noop | Body::OpenSession { .. } | Body::Expire { .. } => {
            MessageLine::ForwardOpen { term }
        }
    }
}

/// What is printed of a message.
pub fn message_line<I>(mail: &Mail<I>) -> MessageLine
    ensures { result ≡ line_of mail.now }
{
    match mail {
        Mail::VoteReq {
            term,
            last,
            last_term,
            ..
        } => MessageLine::VoteReq {
            term: *term,
            last: *last,
            last_term: *last_term,
        },
        Mail::VoteRep { term, yes, .. } => MessageLine::VoteRep {
            term: *term,
            yes: *yes,
        },
        Mail::Append(append) => MessageLine::Append {
            term: append.term,
            prev: append.prev,
            prev_term: append.prev_term,
            count: append.entries.len() as u64,
            commit: append.commit,
        },
        Mail::AppendRep { term, ok, last, .. } => MessageLine::AppendRep {
            term: *term,
            ok: *ok,
            last: *last,
        },
        Mail::Install {
            term,
            index,
            index_term,
            ..
        } => MessageLine::Install {
            term: *term,
            index: *index,
            index_term: *index_term,
        },
        Mail::InstallRep { term, index, .. } => MessageLine::InstallRep {
            term: *term,
            index: *index,
        },
        Mail::Forward { term, body, .. } => forward_line(*term, body),
    }
}

// Prints a message of member `from` with this number, on a line of its own.
fn print_letter<I>(
    from: u8,
    number: u64,
    letter: &(u8, Mail<I>),
    out: &mut Vec<u8>,
) -> Result<(), NoMemory>
    ensures { OnOk result (out.new.items ≡ out.old.items ++ letter_line from number letter.now) }
{
    print_message(number, from, letter.0, &message_line(&letter.1), out)?;
    print_text("\n", out)
}

/// Prints messages of member `from`, the first of which has this number, each on a line of its own. Without memory some
/// of them are printed.
pub fn print_letters<I>(
    from: u8,
    number: u64,
    letters: &[(u8, Mail<I>)],
    out: &mut Vec<u8>,
) -> Result<(), NoMemory>
    requires { number + length letters.now < 2 ^ 64 }
    ensures { OnOk result (out.new.items ≡ out.old.items ++ bytes_of (letters_text from number letters.now)) }
{
    let mut next = number;
    for letter in letters {
        print_letter(from, next, letter, out)?;
        next += 1;
    }
    Ok(())
}
