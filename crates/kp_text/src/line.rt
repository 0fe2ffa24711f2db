ghost use Rattle.std.specs.Prelude.{◌≡◌, ◌↔◌, map, Err, Some, None, IfOk, IsTrue};
ghost use Rattle.kp_text.specs.Spelling.{is_line, spelled};
ghost use Rattle.kp_text.specs.Lines.{one_number as one_number_in, one_path as one_path_in, is_numbered as numbered_name, numbered as numbered_in, numbered_line as number_line_in, is_look as look_name, look_at as looks, look_line as look_line_in, bare as bare_in, open_line as opens, attach_line as attaches, raw_line as raws, write_line as writes, entry_line as enters, of_name as named, of_words as of, line_of};

use crate::command::{Command, command_of};
use crate::fail::LineFail;
use crate::shape::may_be_a_line;
use crate::words::{number_of, passwd_of, path_of, words_of};
use kp_model::limits::LAST_NUMBER;
use kp_model::{NoMemory, Text};
use std::alloc::Global;
use std::str;

/// A line of the store language, with its words. Times and timeouts are in milliseconds.
#[derive(Drop)]
pub enum StoreLine {
    /// `time T`: entries from here on have this time.
    Time {
        time: u64,
    },
    /// `open TIMEOUT PASS`: opens a session.
    Open {
        timeout: u32,
        passwd: [u8; 16],
    },
    /// `attach S PASS`: takes a session over.
    Attach {
        session: u64,
        passwd: [u8; 16],
    },
    /// `expire S`: ends a session that wasn't heard.
    Expire {
        session: u64,
    },
    /// `noop`
    Noop,
    /// A command of a session, as `create S PATH FLAGS DATA`, with the session's epoch and its next number.
    Write {
        session: u64,
        command: Command,
    },
    /// `raw S EPOCH SEQ CMD`: a command of a session with an epoch and a number of its own.
    Raw {
        session: u64,
        epoch: u64,
        seq: u64,
        command: Command,
    },
    /// `commit`: applies the first unapplied entry.
    Commit,
    /// `truncate K`: keeps the entries up to index K.
    Truncate {
        last: u64,
    },
    /// `peek PATH`: looks at a node in the uncommitted state.
    Peek {
        path: Text,
    },
    /// `see PATH`: looks at a node in the committed state.
    See {
        path: Text,
    },
    /// `kids PATH`: lists the children of a node in the uncommitted state.
    Kids {
        path: Text,
    },
    /// `ls PATH`: lists the children of a node in the committed state.
    Ls {
        path: Text,
    },
    /// `acl PATH`: looks at the access list of a node in the uncommitted state.
    Acl {
        path: Text,
    },
    /// `who S`: looks at a session in the uncommitted state.
    Who {
        session: u64,
    },
}

fn one_number(words: &[&str]) -> Option<u64>
    ensures { result ≡ one_number_in (map (λ x. x.now) words.now) }
{
    match words {
        [word] => number_of(LAST_NUMBER, word),
        _ => None,
    }
}

fn one_path(alloc: Global, words: &[&str]) -> Result<Option<Text>, NoMemory>
    ensures { IfOk result (λ o. o ≡ one_path_in (map (λ x. x.now) words.now)) }
{
    match words {
        [word] => path_of(alloc, word),
        _ => Ok(None),
    }
}

fn is_numbered(name: &str) -> bool
    ensures { result ≡ numbered_name name.now }
{
    (name == "time" || name == "truncate") || (name == "expire" || name == "who")
}

#[tactic(auto, unfolding(crate::specs::Lines::numbered))]
fn numbered(name: &str, n: u64) -> Option<StoreLine>
    ensures { result ≡ numbered_in name.now n }
{
    if name == "time" {
        Some(StoreLine::Time { time: n })
    } else if name == "truncate" {
        Some(StoreLine::Truncate { last: n })
    } else if name == "expire" {
        Some(StoreLine::Expire { session: n })
    } else if name == "who" {
        Some(StoreLine::Who { session: n })
    } else {
        None
    }
}

#[tactic(auto, unfolding(crate::specs::Lines::numbered_line))]
fn numbered_line(name: &str, words: &[&str]) -> Option<StoreLine>
    ensures { result ≡ number_line_in name.now (map (λ x. x.now) words.now) }
{
    match one_number(words) {
        None => None,
        Some(n) => numbered(name, n),
    }
}

fn is_look(name: &str) -> bool
    ensures { result ≡ look_name name.now }
{
    (name == "peek" || name == "see") || (name == "kids" || (name == "ls" || name == "acl"))
}

#[tactic(auto, unfolding(crate::specs::Lines::look_at))]
fn look_at(name: &str, path: Text) -> Option<StoreLine>
    ensures { result ≡ looks name.now path }
{
    if name == "peek" {
        Some(StoreLine::Peek { path })
    } else if name == "see" {
        Some(StoreLine::See { path })
    } else if name == "kids" {
        Some(StoreLine::Kids { path })
    } else if name == "ls" {
        Some(StoreLine::Ls { path })
    } else if name == "acl" {
        Some(StoreLine::Acl { path })
    } else {
        None
    }
}

#[tactic(auto, unfolding(crate::specs::Lines::look_line))]
fn look_line(alloc: Global, name: &str, words: &[&str]) -> Result<Option<StoreLine>, NoMemory>
    ensures { IfOk result (λ o. o ≡ look_line_in name.now (map (λ x. x.now) words.now)) }
{
    match one_path(alloc, words)? {
        None => Ok(None),
        Some(path) => Ok(look_at(name, path)),
    }
}

#[tactic(auto, unfolding(crate::specs::Lines::bare))]
fn bare(name: &str) -> Option<StoreLine>
    ensures { result ≡ bare_in name.now }
{
    if name == "commit" {
        Some(StoreLine::Commit)
    } else if name == "noop" {
        Some(StoreLine::Noop)
    } else {
        None
    }
}

#[tactic(auto, unfolding(crate::specs::Lines::open_line))]
fn open_line(alloc: Global, words: &[&str]) -> Result<Option<StoreLine>, NoMemory>
    ensures { IfOk result (λ o. o ≡ opens (map (λ x. x.now) words.now)) }
{
    match words {
        [timeout, passwd] => {
            let Some(timeout) = number_of(100000, timeout) else {
                return Ok(None);
            };
            if timeout < 10000 {
                return Ok(None);
            }
            match passwd_of(alloc, passwd)? {
                None => Ok(None),
                Some(passwd) => Ok(Some(StoreLine::Open {
                    timeout: timeout as u32,
                    passwd,
                })),
            }
        }
        _ => Ok(None),
    }
}

#[tactic(auto, unfolding(crate::specs::Lines::attach_line))]
fn attach_line(alloc: Global, words: &[&str]) -> Result<Option<StoreLine>, NoMemory>
    ensures { IfOk result (λ o. o ≡ attaches (map (λ x. x.now) words.now)) }
{
    match words {
        [session, passwd] => {
            let Some(session) = number_of(LAST_NUMBER, session) else {
                return Ok(None);
            };
            match passwd_of(alloc, passwd)? {
                None => Ok(None),
                Some(passwd) => Ok(Some(StoreLine::Attach { session, passwd })),
            }
        }
        _ => Ok(None),
    }
}

#[tactic(auto, unfolding(crate::specs::Lines::raw_line))]
fn raw_line(alloc: Global, words: &[&str]) -> Result<Option<StoreLine>, NoMemory>
    ensures { IfOk result (λ o. o ≡ raws (map (λ x. x.now) words.now)) }
{
    match words {
        [session, epoch, seq, name, others @ ..] => {
            let Some(session) = number_of(LAST_NUMBER, session) else {
                return Ok(None);
            };
            let Some(epoch) = number_of(LAST_NUMBER, epoch) else {
                return Ok(None);
            };
            let Some(seq) = number_of(LAST_NUMBER, seq) else {
                return Ok(None);
            };
            match command_of(alloc, name, others)? {
                None => Ok(None),
                Some(command) => Ok(Some(StoreLine::Raw {
                    session,
                    epoch,
                    seq,
                    command,
                })),
            }
        }
        _ => Ok(None),
    }
}

#[tactic(auto, unfolding(crate::specs::Lines::write_line))]
fn write_line(alloc: Global, name: &str, words: &[&str]) -> Result<Option<StoreLine>, NoMemory>
    ensures { IfOk result (λ o. o ≡ writes name.now (map (λ x. x.now) words.now)) }
{
    match words {
        [session, others @ ..] => {
            let Some(session) = number_of(LAST_NUMBER, session) else {
                return Ok(None);
            };
            match command_of(alloc, name, others)? {
                None => Ok(None),
                Some(command) => Ok(Some(StoreLine::Write { session, command })),
            }
        }
        [] => Ok(None),
    }
}

#[tactic(auto, unfolding(crate::specs::Lines::entry_line))]
fn entry_line(alloc: Global, name: &str, words: &[&str]) -> Result<Option<StoreLine>, NoMemory>
    ensures { IfOk result (λ o. o ≡ enters name.now (map (λ x. x.now) words.now)) }
{
    if name == "open" {
        open_line(alloc, words)
    } else if name == "attach" {
        attach_line(alloc, words)
    } else if name == "raw" {
        raw_line(alloc, words)
    } else {
        write_line(alloc, name, words)
    }
}

fn of_name(alloc: Global, name: &str, words: &[&str]) -> Result<Option<StoreLine>, NoMemory>
    ensures { IfOk result (λ o. o ≡ named name.now (map (λ x. x.now) words.now)) }
{
    match words {
        [] => Ok(bare(name)),
        _ => entry_line(alloc, name, words),
    }
}

#[tactic(auto, unfolding(crate::specs::Lines::of_words))]
fn of_words(alloc: Global, words: &[&str]) -> Result<Option<StoreLine>, NoMemory>
    ensures { IfOk result (λ o. o ≡ of (map (λ x. x.now) words.now)) }
{
    match words {
        [] => Ok(None),
        [name, others @ ..] => {
            if is_numbered(name) {
                Ok(numbered_line(name, others))
            } else if is_look(name) {
                look_line(alloc, name, others)
            } else {
                of_name(alloc, name, others)
            }
        }
    }
}

/// The line that a text is, where it is one.
#[tactic(auto, unfolding(crate::specs::Lines::line_of))]
fn line_in(alloc: Global, text: &[u8]) -> Result<Option<StoreLine>, NoMemory>
    ensures { IfOk result (λ o. o ≡ line_of text.now) }
{
    match str::from_utf8(text) {
        Err(_) => Ok(None),
        Ok(line) => {
            if !may_be_a_line(line) {
                return Ok(None);
            }
            let words = words_of(alloc, line)?;
            of_words(alloc, words.as_slice())
        }
    }
}

/// Reads a line of the store language; `line` has no line feed. Ok exactly with the line that the bytes spell,
/// `BadLine` exactly where they spell none, else `NoMemory`.
pub fn read_store_line(alloc: Global, line: &[u8]) -> Result<StoreLine, LineFail>
    ensures line { IfOk result (λ l. line_of line.now ≡ Some l) }
    ensures bad { result ≡ Err LineFail.BadLine → line_of line.now ≡ None }

    // A line is read exactly from its spelling. So each line has one spelling, and no bytes are read as two lines.
    ensures spelled { (l : StoreLine) → (line_of line.now ≡ Some l) ↔ (IsTrue (is_line l) × (line.now ≡ spelled l)) }
{
    match line_in(alloc, line) {
        Ok(Some(line)) => Ok(line),
        Ok(None) => Err(LineFail::BadLine),
        Err(NoMemory) => Err(LineFail::NoMemory),
    }
}
