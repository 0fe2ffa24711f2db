//! The paths whose watches have fired so far.
ghost use Rattle.std.specs.Prelude.{◌≡◌, ℕ, List, true, false, cond, not, ◌&&◌, OnOk, IfOk};
ghost use Rattle.std.specs.Str.{bytes_eq};
ghost use Rattle.kp_watch.specs.declared.kind.Kind.{Kind};
ghost use Rattle.kp_watch.specs.Watching.{same_kind};
ghost use Rattle.kp_watch.specs.Gone.{has_text, has_gone};

use crate::kind::Kind;
use kp_model::NoMemory;
use std::alloc::Global;
use std::collections::HashSet;

/// The paths whose data watches, and those whose child watches, have fired. A path that nobody
/// watched isn't among them.
#[derive(Drop)]
pub struct Gone {
    pub data: HashSet<String>,
    pub child: HashSet<String>,
}

/// None so far. Takes no memory.
pub fn none_gone(alloc: Global) -> Gone
    ensures { (k : Kind) (p : List ℕ) → has_gone result k p ≡ false }
{
    Gone {
        data: HashSet::new(alloc),
        child: HashSet::new(alloc),
    }
}

// Puts the path among them, and tells whether it is new.
fn mark_text(paths: &mut HashSet<String>, alloc: Global, path: &str) -> Result<bool, NoMemory>
    ensures new { IfOk result (λ added. added ≡ not (has_text paths.old path.now)) }
    ensures change { OnOk result ((p : List ℕ) → has_text paths.new p ≡ cond (bytes_eq path.now p) true (has_text paths.old p)) }
{
    let key = String::from_str(alloc, path)?;
    Ok(paths.insert(key)?)
}

/// Puts the path among those of the kind, and tells whether it is new.
pub fn mark(gone: &mut Gone, alloc: Global, path: &str, kind: Kind) -> Result<bool, NoMemory>
    ensures new { IfOk result (λ added. added ≡ not (has_gone gone.old kind path.now)) }
    ensures change { OnOk result ((k : Kind) (p : List ℕ) → has_gone gone.new k p ≡ cond (same_kind kind k && bytes_eq path.now p) true (has_gone gone.old k p)) }
{
    match kind {
        Kind::Data => mark_text(&mut gone.data, alloc, path),
        Kind::Child => mark_text(&mut gone.child, alloc, path),
    }
}
