//! Whether a path may stand behind those before it, where paths come in ascending order of their bytes.

ghost use Rattle.std.specs.Prelude.{◌≡◌, ◌≤◌, ◌<◌, ◌==◌, ◌&&◌, ℕ, Bool, true, List, [], ◌∷◌, ◌++◌, length, take, IsTrue, OnOk, OnErr};
ghost use Rattle.std.specs.Ordering.{is_lt};
ghost use Rattle.kp_model.specs.declared.node.Node.{Node};
ghost use Rattle.kp_model.specs.Path as paths;
ghost use Rattle.kp_model.specs.Path.{is_well_formed};
ghost use Rattle.kp_model.specs.State.{path_cmp};
ghost use Rattle.kp_snapshot.specs.Rules.{Placed, is_open, may_be_path};
ghost use Rattle.kp_snapshot.specs.Ups.{common, AreRising, ArePartedAt, AreUps, NoneBehind, ChangedAt};
ghost use Rattle.kp_snapshot.specs.Knowing.{EndsAt, Tracks, Stand};

use kp_model::NoMemory;
use std::alloc::Global;

/// The last path, and the lengths, ascending, of those of its beginnings that are nodes without owner. It takes no memory
/// but for the lengths, and looks at no other path.
#[derive(Drop)]
pub(crate) struct Trail<'a> {
    pub(crate) last: &'a str,
    pub(crate) ups: Vec<usize>,
}

impl<'a> Trail<'a> {
    /// Before the first path. Takes no memory.
    pub(crate) fn new(alloc: Global) -> Trail<'a>
        ensures { Stand [] result.last.now result.ups.items }
    {
        Trail {
            last: "",
            ups: Vec::new(alloc),
        }
    }

    /// Whether the path may be the next one. The lengths become those for it.
    pub(crate) fn may_be_next(&mut self, path: &str) -> bool
        ensures answer { (before : List Placed) → Stand before self.old.last.now self.old.ups.items → result ≡ may_be_path before path.now }
        ensures ups { (before : List Placed) → Stand before self.old.last.now self.old.ups.items → IsTrue result → AreUps (is_open before) path.now self.new.ups.items }
        ensures last { self.new.last ≡ self.old.last }
        ensures formed { IsTrue result → IsTrue (is_well_formed path.now) }
    {
        let last = self.last;
        may_follow(&mut self.ups, last, path)
    }

    /// Makes the path, which may be the next one, the last one; `free` says whether its node has no owner. Without memory the
    /// trail is to be dropped.
    pub(crate) fn add(&mut self, path: &'a str, free: bool) -> Result<(), NoMemory>
        ensures { (before : List Placed) (n : Node) → Tracks before self.old.last.now → may_be_path before path.now ≡ true → AreUps (is_open before) path.now self.old.ups.items → free ≡ (n.owner == 0) → OnOk result (Stand (before ++ (path.now, n) ∷ []) self.new.last.now self.new.ups.items) }
    {
        add_len(&mut self.ups, path.len(), free)?;
        self.last = path;
        Ok(())
    }
}

// Whether the path may be the next one behind the last; an empty one stands for none.
fn may_follow(ups: &mut Vec<usize>, last: &str, path: &str) -> bool
    ensures answer { (before : List Placed) → Stand before last.now ups.old.items → result ≡ may_be_path before path.now }
    ensures ups { (before : List Placed) → Stand before last.now ups.old.items → IsTrue result → AreUps (is_open before) path.now ups.new.items }
    ensures formed { IsTrue result → IsTrue (is_well_formed path.now) }
{
    if last.is_empty() {
        return path == "/";
    }
    match kp_path::check(path) {
        Err(_) => false,
        Ok(_) => may_come(ups, last, path),
    }
}

// Whether a path that is well formed is behind the last one, and has its parent there without owner.
fn may_come(ups: &mut Vec<usize>, last: &str, path: &str) -> bool
    requires { IsTrue (is_well_formed path.now) }
    ensures answer { (before : List Placed) → EndsAt before last.now → AreUps (is_open before) last.now ups.old.items → result ≡ (is_lt (path_cmp last.now path.now) && is_open before (paths.parent path.now)) }
    ensures ups { (before : List Placed) → EndsAt before last.now → AreUps (is_open before) last.now ups.old.items → IsTrue result → AreUps (is_open before) path.now ups.new.items }
{
    if !follow(ups, last.as_bytes(), path.as_bytes()) {
        return false;
    }
    has(ups, parent_len(path))
}

// How many bytes of a path its parent has; the root is taken as its own.
fn parent_len(path: &str) -> usize
    requires { IsTrue (is_well_formed path.now) }
    ensures within { result ≤ length path.now }
    ensures begins { take result path.now ≡ paths.parent path.now }
{
    match kp_path::parent(path) {
        None => 1,
        Some(up) => up.len(),
    }
}

// How many bytes both begin with.
fn common(a: &[u8], b: &[u8]) -> usize
    ensures same { result ≡ common a.now b.now }
{
    let mut at = 0;
    while at < a.len() && at < b.len() && a[at] == b[at] {
        at += 1;
    }
    at
}

// Whether b is behind a; both begin with `at` bytes that are alike, and with no more.
fn rises(a: &[u8], b: &[u8], at: usize) -> bool
    requires { at ≡ common a.now b.now }
    ensures { result ≡ is_lt (path_cmp a.now b.now) }
{
    if at >= b.len() {
        return false;
    }
    if at >= a.len() {
        return true;
    }
    a[at] < b[at]
}

// How many of the lengths are at most this.
fn up_to(ups: &[usize], most: usize) -> usize
    ensures { AreRising ups.now → ArePartedAt most ups.now result }
{
    match ups.binary_search(&most) {
        Ok(at) => at + 1,
        Err(at) => at,
    }
}

// Keeps the lengths that are at most this.
fn cut(ups: &mut Vec<usize>, most: usize)
    ensures { (test : List ℕ → Bool) (last path : List ℕ) → AreUps test last ups.old.items → NoneBehind test last → most ≡ common last path → is_lt (path_cmp last path) ≡ true → AreUps test path ups.new.items }
{
    let keep = up_to(ups, most);
    ups.truncate(keep);
}

// Looks whether `path` is behind `last`, and makes of the lengths for `last` those for `path`.
fn follow(ups: &mut Vec<usize>, last: &[u8], path: &[u8]) -> bool
    ensures order { result ≡ is_lt (path_cmp last.now path.now) }
    ensures ups { (test : List ℕ → Bool) → AreUps test last.now ups.old.items → NoneBehind test last.now → result ≡ true → AreUps test path.now ups.new.items }
{
    let at = common(last, path);
    cut(ups, at);
    rises(last, path, at)
}

// Whether the first `len` bytes of the path pass the test.
fn has(ups: &[usize], len: usize) -> bool
    ensures { (test : List ℕ → Bool) (path : List ℕ) → AreUps test path ups.now → len ≤ length path → result ≡ test (take len path) }
{
    match ups.binary_search(&len) {
        Ok(_) => true,
        Err(_) => false,
    }
}

// Adds the length of the path itself, where it passes the test.
fn add_len(ups: &mut Vec<usize>, len: usize, there: bool) -> Result<(), NoMemory>
    ensures { (test new : List ℕ → Bool) (path : List ℕ) → AreUps test path ups.old.items → len ≡ length path → ChangedAt path there test new → OnOk result (AreUps new path ups.new.items) }
{
    if there {
        ups.push(len)?;
    }
    Ok(())
}
