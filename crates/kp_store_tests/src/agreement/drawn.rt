//! Lines that add entries, drawn by a small generator on what the storage shows: of every kind, and some of each that fail.
ghost use Rattle.std.specs.Prelude.{◌<◌, ◌≤◌, length};

use kp_model::{NoMemory, Text, View};
use kp_storage::Storage;
use kp_text::print_text;
use std::alloc::Global;

/// Above each index, session, epoch and running number of these runs.
const MANY: u64 = 100000;

/// Numbers that look drawn, by a linear congruence.
#[derive(Drop)]
pub struct Dice {
    pub state: u64,
}

impl Dice {
    /// A number below `sides`.
    pub fn roll(&mut self, sides: u64) -> u64
        requires { 0 < sides }
        ensures { result < sides }
    {
        self.state = self
            .state
            .wrapping_mul(6364136223846793005)
            .wrapping_add(1442695040888963407);
        (self.state >> 33) % sides
    }
}

/// A path, the path above it, and its name there.
pub struct Place {
    pub path: &'static str,
    pub parent: &'static str,
    pub name: &'static str,
}

/// The paths of the runs, ascending.
pub const PLACES: [Place; 9] = [
    Place {
        path: "/",
        parent: "",
        name: "",
    },
    Place {
        path: "/a",
        parent: "/",
        name: "a",
    },
    Place {
        path: "/a/b",
        parent: "/a",
        name: "b",
    },
    Place {
        path: "/a/b/c",
        parent: "/a/b",
        name: "c",
    },
    Place {
        path: "/a/b/d",
        parent: "/a/b",
        name: "d",
    },
    Place {
        path: "/a/e",
        parent: "/a",
        name: "e",
    },
    Place {
        path: "/f",
        parent: "/",
        name: "f",
    },
    Place {
        path: "/f/g",
        parent: "/f",
        name: "g",
    },
    Place {
        path: "/f/h",
        parent: "/f",
        name: "h",
    },
];

/// Further paths: without a parent, not well formed, or such that only a number behind them makes them so.
const STRAYS: [&str; 6] = ["/none/x", "/a/", "/", "a", "/a//b", "/f/"];

/// A word in capitals and the words that stand for it, parted by bars.
struct Choice {
    hole: &'static str,
    words: &'static str,
}

const CHOICES: [Choice; 7] = [
    Choice {
        hole: "TIMEOUT",
        words: "10000|30000|100000",
    },
    Choice {
        hole: "PASS",
        words: "00000000000000000000000000000000|000102030405060708090a0b0c0d0e0f",
    },
    Choice {
        hole: "FLAGS",
        words: "0|0|0|0|1|2|2|2|3|0|2|4",
    },
    Choice {
        hole: "DATA",
        words: "-|07|0007",
    },
    Choice {
        hole: "VERSION",
        words: "-1|-1|0|1",
    },
    Choice {
        hole: "ACL",
        words: "31:world:anyone|31:world:anyone|15:world:anyone|31:auth:|1:world:anyone 30:auth:me|31:digest:super:xQJmxLMiHGwaqBvst5y6rkB6HQs=|noacl|31:digest:nobody|31:ip:127.0.0.1|32:world:anyone",
    },
    Choice {
        hole: "CREDENTIALS",
        words: "digest 73757065723a61646d696e|digest 753a78|digest 7573|ip 753a78|digest -",
    },
];

/// The lines of sessions.
const OF_SESSIONS: [&str; 7] = [
    "open TIMEOUT PASS",
    "open TIMEOUT PASS",
    "open TIMEOUT PASS",
    "attach SESSION PASS",
    "attach SESSION PASS",
    "expire SESSION",
    "raw RUN close",
];

/// Commands that no multi holds.
const OTHERS: [&str; 5] = [
    "setacl PATH VERSION ACL",
    "setacl PATH VERSION 31:world:anyone",
    "auth CREDENTIALS",
    "auth CREDENTIALS",
    "sync PATH",
];

/// Operations, alone or of a multi.
const OPERATIONS: [&str; 14] = [
    "create PATH FLAGS DATA",
    "create BELOW FLAGS DATA",
    "create PATH 2 DATA",
    "create PATH FLAGS DATA ACL",
    "create PATH FLAGS DATA ACL",
    "create /a 0 DATA",
    "create /a FLAGS DATA",
    "create /a/b FLAGS DATA",
    "create /f FLAGS DATA",
    "delete PATH VERSION",
    "set PATH DATA VERSION",
    "set PATH DATA -1",
    "check PATH VERSION",
    "check PATH -1",
];

/// The path of a node, and a name below it.
pub fn below(alloc: Global, path: &str, name: &str) -> Result<Text, NoMemory> {
    let path = if path == "/" { "" } else { path };
    Ok(Text::from_string(format!(in alloc; "{path}/{name}")?))
}

/// The path of a drawn place.
fn path_of_place(dice: &mut Dice) -> &'static str {
    PLACES[dice.roll(9) as usize].path
}

/// A drawn one of the further paths.
fn stray(dice: &mut Dice) -> &'static str {
    STRAYS[dice.roll(6) as usize]
}

/// The path of one of these names below a place, or the place where there is none.
fn one_below(
    alloc: Global,
    dice: &mut Dice,
    place: &str,
    names: &[Text],
) -> Result<Text, NoMemory> {
    let count = names.len() as u64;
    if count == 0 {
        return Text::from_str(alloc, place);
    }
    let at = dice.roll(count) as usize;
    below(alloc, place, names[at].as_str())
}

/// The path of a drawn child of a drawn place, or the place where it has none.
fn child(alloc: Global, dice: &mut Dice, store: &Storage) -> Result<Text, NoMemory> {
    let place = path_of_place(dice);
    let names = store.latest().kids(alloc, place)?;
    one_below(alloc, dice, place, names.as_slice())
}

/// The path of a drawn place or of one of its children, or seldom another path.
pub fn path(alloc: Global, dice: &mut Dice, store: &Storage) -> Result<Text, NoMemory> {
    let kind = dice.roll(12);
    if kind < 4 {
        return child(alloc, dice, store);
    }
    if kind == 4 {
        return Text::from_str(alloc, stray(dice));
    }
    Text::from_str(alloc, path_of_place(dice))
}

/// A live session; seldom one of the latest numbers, whose session may have ended, or the next number.
pub fn session(alloc: Global, dice: &mut Dice, store: &Storage) -> Result<u64, NoMemory> {
    let live = store.latest().sessions(alloc)?;
    let count = live.len() as u64;
    if count == 0 || dice.roll(10) == 0 {
        let next = store.latest().next_session();
        return Ok(next.saturating_sub(dice.roll(5)));
    }
    let at = dice.roll(count) as usize;
    Ok(live[at])
}

/// The epoch of a session and its next number, which is sometimes one that was used; 0 and 0 where there is no session.
fn numbers(dice: &mut Dice, store: &Storage, session: u64) -> (u64, u64) {
    let late = if dice.roll(12) == 0 { 0 } else { 1 };
    match store.latest_session(session) {
        None => (0, 0),
        Some(found) => (found.epoch.min(MANY), found.seq.min(MANY) + late),
    }
}

/// Appends a drawn session.
fn add_session(
    alloc: Global,
    dice: &mut Dice,
    store: &Storage,
    out: &mut Vec<u8>,
) -> Result<(), NoMemory> {
    let session = session(alloc, dice, store)?;
    let text = format!(in alloc; "{session}")?;
    print_text(text.as_str(), out)
}

/// Appends a session, its epoch and its next number.
fn add_run(
    alloc: Global,
    dice: &mut Dice,
    store: &Storage,
    out: &mut Vec<u8>,
) -> Result<(), NoMemory> {
    let session = session(alloc, dice, store)?;
    let (epoch, seq) = numbers(dice, store, session);
    let text = format!(in *out.allocator(); "{session} {epoch} {seq}")?;
    print_text(text.as_str(), out)
}

/// Appends one of the words that a word stands for.
fn add_one_of(dice: &mut Dice, words: &str, out: &mut Vec<u8>) -> Result<(), NoMemory> {
    let words: Vec<&str> = words.split('|').collect(*out.allocator())?;
    let count = words.len() as u64;
    if count == 0 {
        return Ok(());
    }
    let at = dice.roll(count) as usize;
    print_text(words[at], out)
}

/// The words that a word stands for: itself where it is none of the table.
fn words_for(word: &str) -> &str {
    for choice in &CHOICES {
        if choice.hole == word {
            return choice.words;
        }
    }
    word
}

/// Appends a drawn path.
fn add_path(
    alloc: Global,
    dice: &mut Dice,
    store: &Storage,
    out: &mut Vec<u8>,
) -> Result<(), NoMemory> {
    let path = path(alloc, dice, store)?;
    print_text(path.as_str(), out)
}

/// Appends a drawn path with a further name.
fn add_path_below(
    alloc: Global,
    dice: &mut Dice,
    store: &Storage,
    out: &mut Vec<u8>,
) -> Result<(), NoMemory> {
    add_path(alloc, dice, store, out)?;
    print_text("/k", out)
}

/// Appends what a word stands for.
fn add_word(
    alloc: Global,
    dice: &mut Dice,
    store: &Storage,
    word: &str,
    out: &mut Vec<u8>,
) -> Result<(), NoMemory> {
    match word {
        "PATH" => add_path(alloc, dice, store, out),
        "BELOW" => add_path_below(alloc, dice, store, out),
        "SESSION" => add_session(alloc, dice, store, out),
        "RUN" => add_run(alloc, dice, store, out),
        _ => add_one_of(dice, words_for(word), out),
    }
}

/// Appends what the words stand for, parted by spaces, and from what stands there.
fn add_words(
    alloc: Global,
    dice: &mut Dice,
    store: &Storage,
    words: &str,
    out: &mut Vec<u8>,
) -> Result<(), NoMemory> {
    for word in words.split(' ') {
        if !out.is_empty() {
            print_text(" ", out)?;
        }
        add_word(alloc, dice, store, word, out)?;
    }
    Ok(())
}

/// Appends what the words of one of the lines stand for.
fn add_one(
    alloc: Global,
    dice: &mut Dice,
    store: &Storage,
    lines: &[&str],
    out: &mut Vec<u8>,
) -> Result<(), NoMemory>
    requires { 0 < length lines.now }
{
    let at = dice.roll(lines.len() as u64) as usize;
    add_words(alloc, dice, store, lines[at], out)
}

/// Appends a command of a session.
fn add_command(
    alloc: Global,
    dice: &mut Dice,
    store: &Storage,
    commands: &[&str],
    out: &mut Vec<u8>,
) -> Result<(), NoMemory>
    requires { 0 < length commands.now }
{
    add_words(alloc, dice, store, "raw RUN", out)?;
    add_one(alloc, dice, store, commands, out)
}

/// Appends a multi of up to five operations.
fn add_multi(
    alloc: Global,
    dice: &mut Dice,
    store: &Storage,
    out: &mut Vec<u8>,
) -> Result<(), NoMemory> {
    add_words(alloc, dice, store, "raw RUN multi", out)?;
    let count = dice.roll(6).min(dice.roll(6));
    for n in 0..count {
        if 0 < n {
            print_text(" ;", out)?;
        }
        add_one(alloc, dice, store, OPERATIONS.as_slice(), out)?;
    }
    Ok(())
}

/// A drawn number of a kind of line; that of sessions where none is live.
fn kind(alloc: Global, dice: &mut Dice, store: &Storage) -> Result<u64, NoMemory> {
    if store.latest().sessions(alloc)?.is_empty() {
        return Ok(0);
    }
    Ok(dice.roll(10))
}

/// Appends a line that adds an entry.
fn add_line(
    alloc: Global,
    dice: &mut Dice,
    store: &Storage,
    out: &mut Vec<u8>,
) -> Result<(), NoMemory> {
    match kind(alloc, dice, store)? {
        0 => add_one(alloc, dice, store, OF_SESSIONS.as_slice(), out),
        1 => add_command(alloc, dice, store, OTHERS.as_slice(), out),
        2 | 3 | 4 => add_multi(alloc, dice, store, out),
        _ => add_command(alloc, dice, store, OPERATIONS.as_slice(), out),
    }
}

/// A line of the store language that adds an entry.
pub fn line(alloc: Global, dice: &mut Dice, store: &Storage) -> Result<Vec<u8>, NoMemory> {
    let mut out = Vec::new(alloc);
    add_line(alloc, dice, store, &mut out)?;
    Ok(out)
}
