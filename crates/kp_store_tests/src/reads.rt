//! Questions to the committed state of a storage.
ghost use Rattle.std.specs.Prelude.{◌≤◌, length, IfOk, IsTrue};
ghost use Rattle.kp_model.specs.Grammar.{fits_acls, fits_cmd};

use kp_model::{Acl, Acls, Body, Bytes, Cmd, Entry, NoMemory, Origin, ReadCmd, ReadReply, Text};
use kp_storage::Storage;
use std::alloc::Global;
use std::test::Fail;

// Adds an entry to a storage that has room for it, and commits it.
fn commit(store: &mut Storage, entry: &Entry) -> Result<(), NoMemory> {
    if store.last() < 1 << 62 {
        store.preprocess(entry)?;
    }
    drop(store.commit());
    Ok(())
}

// Opens the first session.
fn open(store: &mut Storage) -> Result<(), NoMemory> {
    let entry = Entry {
        term: 0,
        time: 0,
        body: Body::OpenSession {
            timeout: 30000,
            passwd: [0; 16],
            origin: Origin {
                node: 1,
                boot: 1,
                conn: 1,
            },
        },
    };
    let done = commit(store, &entry);
    drop(entry);
    done
}

// A command of the first session.
fn enter(store: &mut Storage, seq: u64, cmd: Cmd) -> Result<(), NoMemory>
    requires number { seq ≤ 100 }
    requires fits { IsTrue (fits_cmd cmd) }
{
    let entry = Entry {
        term: 0,
        time: 0,
        body: Body::Write {
            session: 1,
            epoch: 1,
            seq,
            cmd,
        },
    };
    let done = commit(store, &entry);
    drop(entry);
    done
}

// A list of one line, for everyone.
fn for_everyone(alloc: Global, perms: u32) -> Result<Acls, NoMemory>
    ensures { IfOk result (λ lines. IsTrue (fits_acls lines)) }
{
    let mut lines = Vec::new(alloc);
    lines.push(Acl {
        perms,
        scheme: Text::from_str(alloc, "world")?,
        id: Text::from_str(alloc, "anyone")?,
    })?;
    Ok(Acls::from_vec(lines))
}

// Creates a node with these rights for everyone.
fn create(
    alloc: Global,
    store: &mut Storage,
    seq: u64,
    path: &str,
    perms: u32,
) -> Result<(), NoMemory>
    requires number { seq ≤ 100 }
    requires path { length path.now ≤ 100 }
{
    let cmd = Cmd::Create {
        path: Text::from_str(alloc, path)?,
        bytes: Bytes::from_vec(Vec::from_slice(alloc, b"hi")?),
        acl: for_everyone(alloc, perms)?,
        flags: 0,
        stat: false,
    };
    enter(store, seq, cmd)
}

// What each question is answered: the kind of question, the path, and the code of a refusal, or the kind of the answer
// with how much it shows. `/s` may only be set, and `/l` only have its list changed.
const ROWS: [(u8, &str, i32, usize); 13] = [
    (1, "/a", 1, 2),
    (2, "/a", 2, 2),
    (3, "/a", 3, 1),
    (4, "/", 4, 3),
    (4, "/a", 4, 0),
    (1, "a", -8, 0),
    (2, "/x", -101, 0),
    (1, "/s", 1, 2),
    (2, "/s", -102, 0),
    (3, "/s", -102, 0),
    (4, "/s", -102, 0),
    (2, "/l", -102, 0),
    (3, "/l", 3, 1),
];

fn question(alloc: Global, kind: u8, path: &str) -> Result<ReadCmd, NoMemory> {
    let path = Text::from_str(alloc, path)?;
    Ok(match kind {
        1 => ReadCmd::Exists { path },
        2 => ReadCmd::GetData { path },
        3 => ReadCmd::GetAcl { path },
        _ => ReadCmd::GetChildren { path },
    })
}

fn is_told(reply: &ReadReply, kind: i32, amount: usize) -> bool {
    match reply {
        ReadReply::Err(code) => *code == kind && amount == 0,
        ReadReply::Stat(meta) => kind == 1 && meta.len as usize == amount,
        ReadReply::Data(bytes, _) => kind == 2 && bytes.len() == amount,
        ReadReply::Acl(lines, _) => kind == 3 && lines.len() == amount,
        ReadReply::Names(names, _) => kind == 4 && names.len() == amount,
    }
}

fn is_answered(
    alloc: Global,
    store: &Storage,
    row: &(u8, &str, i32, usize),
) -> Result<bool, NoMemory> {
    let cmd = question(alloc, row.0, row.1)?;
    let reply = store.read(1, &cmd);
    drop(cmd);
    let reply = reply?;
    let told = is_told(&reply, row.2, row.3);
    drop(reply);
    Ok(told)
}

/// Whether each question is answered as it must be.
pub fn are_answered(alloc: Global, store: &Storage) -> Result<bool, NoMemory> {
    for row in &ROWS {
        if !is_answered(alloc, store, row)? {
            return Ok(false);
        }
    }
    Ok(true)
}

/// Opens a session and creates the nodes of the questions.
pub fn fill(alloc: Global, store: &mut Storage) -> Result<(), NoMemory> {
    open(store)?;
    create(alloc, store, 1, "/a", 31)?;
    create(alloc, store, 2, "/s", 2)?;
    create(alloc, store, 3, "/l", 16)
}

fn run(alloc: Global) -> Result<bool, NoMemory> {
    let mut store = Storage::new(alloc)?;
    let filled = fill(alloc, &mut store);
    let answered = are_answered(alloc, &store);
    drop(store);
    filled?;
    answered
}

#[test]
fn questions_are_answered(rt: HostRuntime) -> Result<(), Fail> {
    assert!(rt; run(rt.alloc())?);
    Ok(())
}
