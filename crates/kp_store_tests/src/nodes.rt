//! Nodes are made, committed and taken back.
ghost use Rattle.std.specs.Prelude.{◌≡◌, ◌≤◌};

use crate::stories::{
    EPHEMERAL, SEQUENTIAL, Said, commits, create, cut, delete, has_all, has_none, is_at, keeps,
    lists, open, origin, set,
};
use kp_model::errors::NOT_EMPTY;
use kp_model::{Meta, NoMemory, View};
use kp_storage::Storage;
use std::alloc::Global;

// A parent behind a child that is ephemeral, one with a number and the setting of its data.
const SET_PARENT: Meta = Meta {
    czxid: 2,
    mzxid: 5,
    pzxid: 4,
    ctime: 20,
    mtime: 50,
    version: 1,
    cversion: 2,
    aversion: 0,
    owner: 0,
    created: 2,
    len: 3,
    kids: 2,
};

// The parent before its data was set.
const FULL_PARENT: Meta = Meta {
    mzxid: 2,
    mtime: 20,
    version: 0,
    len: 2,
    ..SET_PARENT
};

// The parent with the ephemeral child alone.
const HALF_PARENT: Meta = Meta {
    pzxid: 3,
    cversion: 1,
    created: 1,
    kids: 1,
    ..FULL_PARENT
};

const EPHEMERAL_CHILD: Meta = Meta {
    czxid: 3,
    mzxid: 3,
    pzxid: 3,
    ctime: 30,
    mtime: 30,
    version: 0,
    cversion: 0,
    aversion: 0,
    owner: 1,
    created: 0,
    len: 2,
    kids: 0,
};

// A parent, an ephemeral child, one with a number, and data that is set.
fn make_nodes(alloc: Global, storage: &mut Storage) -> Result<(), NoMemory> {
    open(storage, 1)?;
    create(alloc, storage, 1, "/p", 0)?;
    create(alloc, storage, 2, "/p/e", EPHEMERAL)?;
    create(alloc, storage, 3, "/p/s-", SEQUENTIAL)?;
    set(alloc, storage, 4, "/p")
}

// Whether each entry was answered as it must be.
fn keeps_all(storage: &Storage) -> bool {
    keeps(storage, 1, Said::Session(1))
        && keeps(storage, 2, Said::Path("/p"))
        && keeps(storage, 3, Said::Path("/p/e"))
        && keeps(storage, 4, Said::Path("/p/s-0000000001"))
        && keeps(storage, 5, Said::Stat(SET_PARENT))
        && storage.kept(0).is_none()
        && storage.kept(6).is_none()
}

// Whether the nodes are in the uncommitted state.
fn shows_latest(alloc: Global, storage: &Storage) -> Result<bool, NoMemory> {
    let view = storage.latest();
    let listed = lists(alloc, &view, "/p", &["e", "s-0000000001"], &["/p/e"])?;
    let all = has_all(alloc, &view, &["/", "/p", "/p/e", "/p/s-0000000001"], &[1])?;
    Ok(listed && all && view.holds(&origin(1)) && view.next_session() == 2)
}

// Whether the committed state is the empty one.
fn shows_empty(alloc: Global, storage: &Storage) -> Result<bool, NoMemory> {
    let view = storage.committed();
    let listed = lists(alloc, &view, "/", &[], &[])?;
    let all = has_all(alloc, &view, &["/"], &[])?;
    Ok(listed && all && !view.holds(&origin(1)) && view.next_session() == 1)
}

// Whether the nodes are seen in the uncommitted state alone.
fn looks_up(storage: &Storage) -> bool {
    let meta = storage.latest_meta("/p").copied() == Some(SET_PARENT)
        && storage.latest_meta("/p/e").copied() == Some(EPHEMERAL_CHILD)
        && storage.latest_meta("/p/s-").is_none();
    let data = storage.latest_data("/p") == Some([1, 2, 3].as_slice())
        && storage.latest_data("/p/e") == Some(b"hi".as_slice())
        && storage.latest_data("/p/s-").is_none();
    let session = is_at(storage.latest_session(1), 1, 4, 1) && storage.latest_session(2).is_none();
    let committed = storage.committed_meta("/p").is_none()
        && storage.committed_data("/p").is_none()
        && storage.committed_session(1).is_none();
    meta && data && session && committed && storage.applied() == 0 && storage.last() == 5
}

// Whether three entries are committed, and seen then.
fn commits_three(storage: &mut Storage) -> bool {
    let first = commits(storage, 1, Said::Session(1), &[]);
    let second = commits(
        storage,
        2,
        Said::Path("/p"),
        &[("created", "/p"), ("children", "/")],
    );
    let third = commits(
        storage,
        3,
        Said::Path("/p/e"),
        &[("created", "/p/e"), ("children", "/p")],
    );
    first && second && third
}

// Whether the committed state is that behind three entries, and the uncommitted one stands still.
fn shows_three(alloc: Global, storage: &Storage) -> Result<bool, NoMemory> {
    let view = storage.committed();
    let listed = lists(alloc, &view, "/p", &["e"], &["/p/e"])?;
    let held = view.holds(&origin(1)) && view.next_session() == 2;
    let committed = storage.committed_meta("/p").copied() == Some(HALF_PARENT)
        && storage.committed_data("/p") == Some(b"hi".as_slice())
        && is_at(storage.committed_session(1), 1, 2, 1);
    let kept = storage.kept(3).is_none() && keeps(storage, 4, Said::Path("/p/s-0000000001"));
    let latest = storage.latest_meta("/p").copied() == Some(SET_PARENT)
        && is_at(storage.latest_session(1), 1, 4, 1);
    Ok(listed && held && committed && kept && latest && storage.last() == 5)
}

// Whether a look at the layers tells the same.
fn lends_cells(storage: &Storage) -> bool {
    storage.stays_sound();
    let cells = storage.cells();
    cells.applied() == 3
        && cells.committed_meta("/p").copied() == Some(HALF_PARENT)
        && cells.latest_meta("/p").copied() == Some(SET_PARENT)
        && cells.latest_content("/p") == Some([1, 2, 3].as_slice())
}

// Whether truncations take back data, children and numbers.
fn cuts_back(storage: &mut Storage) -> bool {
    let one = cut(storage, 4)
        && storage.kept(5).is_none()
        && storage.latest_meta("/p").copied() == Some(FULL_PARENT)
        && storage.latest_data("/p") == Some(b"hi".as_slice())
        && is_at(storage.latest_session(1), 1, 3, 1);
    let all = cut(storage, 3)
        && storage.kept(4).is_none()
        && storage.latest_meta("/p").copied() == Some(HALF_PARENT)
        && is_at(storage.latest_session(1), 1, 2, 1);
    one && all && storage.applied() == 3
}

// The parent whose data was set by the sixth entry.
const LATE_PARENT: Meta = Meta {
    mzxid: 6,
    mtime: 60,
    ..SET_PARENT
};

// Whether the entries behind the truncation are committed, the last with its data.
fn commits_rest(storage: &mut Storage) -> bool {
    let made = commits(
        storage,
        4,
        Said::Path("/p/t-0000000001"),
        &[("created", "/p/t-0000000001"), ("children", "/p")],
    );
    let full = commits(storage, 5, Said::Err(NOT_EMPTY), &[]);
    let set = commits(storage, 6, Said::Stat(LATE_PARENT), &[("data", "/p")]);
    let data = storage.committed_data("/p") == Some([1, 2, 3].as_slice());
    made && full && set && data && storage.committed_meta("/p").copied() == Some(LATE_PARENT)
}

// Whether a node gets the number that was taken back.
fn counts_again(alloc: Global, storage: &mut Storage) -> Result<bool, NoMemory> {
    let none = has_none(storage);
    create(alloc, storage, 3, "/p/t-", SEQUENTIAL)?;
    let kept = keeps(storage, 4, Said::Path("/p/t-0000000001"));
    delete(alloc, storage, 4, "/p")?;
    set(alloc, storage, 5, "/p")?;
    let done = commits_rest(storage);
    Ok(none && kept && done && has_none(storage))
}

pub fn nodes(alloc: Global, storage: &mut Storage) -> Result<bool, NoMemory> {
    make_nodes(alloc, storage)?;
    let kept = keeps_all(storage) && looks_up(storage);
    let shown = shows_latest(alloc, storage)? && shows_empty(alloc, storage)?;
    let committed = commits_three(storage) && lends_cells(storage);
    let seen = shows_three(alloc, storage)?;
    let cut = cuts_back(storage);
    Ok(counts_again(alloc, storage)? && kept && shown && committed && seen && cut)
}
