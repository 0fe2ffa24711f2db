//! Paths of nodes: which texts are paths, the path of a node's parent, a node's own name, and the path of a node
//! that is made with a running number.
#![tactic(auto)]

ghost use Rattle.std.specs.Prelude.{◌≡◌, ℕ, ◌<◌, ◌^◌, ◌+◌, ◌==◌, ◌&&◌, not, false, IsTrue, IfOk, IfSome, MatchResult, option_copied, if◌then◌else◌, length};
ghost use Rattle.std.specs.Str.{bytes_eq};
ghost use Rattle.std.specs.List.{list_all, slice_split};
ghost use Rattle.kp_model.specs.Path as paths;
ghost use Rattle.kp_model.specs.Path.{is_well_formed};
ghost use Rattle.kp_path.specs.Slash.{IsSlashAt};
ghost use Rattle.kp_model.specs.Sequenced.{sequenced};

use kp_model::{NoMemory, Text};
use std::alloc::Global;

/// The text is no path of a node.
#[derive(Clone, Copy)]
pub struct BadPath;

/// Looks whether a text is a path: `/`, or parts that each follow a `/`, where no part is empty, `.` or
/// `..`, and no byte is 0.
pub fn check(path: &str) -> Result<(), BadPath>
    ensures { MatchResult result (λ _. IsTrue (is_well_formed path.now)) (λ _. is_well_formed path.now ≡ false) }
{
    if is_path(path.as_bytes()) {
        Ok(())
    } else {
        Err(BadPath)
    }
}

/// The path of the parent: what stands before the last `/`, or `/` where that is nothing. The root has none.
#[tactic(auto, unfolding(kp_model::specs::Path::parent))]
pub fn parent(path: &str) -> Option<&str>
    ensures { option_copied result ≡ (if bytes_eq path.now paths.root then None else Some (paths.parent path.now)) }
{
    if path == "/" {
        None
    } else {
        Some(before(path, last_slash(path.as_bytes())))
    }
}

/// The name of a node under its parent: what stands behind the last `/`.
#[tactic(auto, unfolding(kp_model::specs::Path::name))]
pub fn name(path: &str) -> &str
    ensures { result.now ≡ paths.name path.now }
{
    behind(path, last_slash(path.as_bytes()))
}

/// The path of a node that is made with a running number: the path that was asked for, which may end in
/// `/`, and behind it the number in ten decimal digits, with zeros in front. The number is how many children
/// were ever made under the parent before this one.
#[tactic(auto, unfolding(kp_model::specs::Sequenced::sequenced))]
pub fn sequence_name(alloc: Global, path: &str, created: u32) -> Result<Text, NoMemory>
    ensures name { IfOk result (λ name. name ≡ sequenced path.now created) }
    ensures ten { IfOk result (λ name. length name ≡ length path.now + 10) }
{
    Ok(Text::from_string(format!(in alloc; "{path}{created:010}")?))
}

/// The path of the parent under which a node is made with a running number: the same for each number, so that the
/// number can be taken from it.
pub fn sequence_parent(path: &str) -> &str
    ensures { (n : ℕ) → n < 2 ^ 32 → result.now ≡ paths.parent (sequenced path.now n) }
{
    before(path, last_slash(path.as_bytes()))
}

// What stands before a slash at this place, or the root where that is nothing.
#[tactic(auto)]
fn before(path: &str, slash: Option<usize>) -> &str
    requires { IfSome slash (IsSlashAt path.now) }
    ensures { result.now ≡ paths.before_slash path.now slash }
{
    match slash {
        None => "/",
        Some(end) => { if end == 0 { "/" } else { &path[..end] } }
    }
}

// What stands behind a slash at this place.
#[tactic(auto)]
fn behind(path: &str, slash: Option<usize>) -> &str
    requires { IfSome slash (IsSlashAt path.now) }
    ensures { result.now ≡ paths.behind_slash path.now slash }
{
    match slash {
        None => path,
        Some(end) => &path[end + 1..],
    }
}

// Whether the bytes are a path.
#[tactic(auto, unfolding(kp_model::specs::Path::is_well_formed))]
fn is_path(bytes: &[u8]) -> bool
    ensures { result ≡ is_well_formed bytes.now }
{
    match bytes {
        [] => false,
        [first, rest @ ..] => *first == b'/' && (rest.is_empty() || are_parts(rest)),
    }
}

// Whether the bytes are parts with one slash between each two, without NUL.
fn are_parts(bytes: &[u8]) -> bool
    ensures { result ≡ (list_all (λ byte. not (byte == 0)) bytes.now && list_all paths.is_part (slice_split paths.is_slash bytes.now)) }
{
    has_no_nul(bytes) && has_good_parts(bytes)
}

// Whether no byte is 0.
fn has_no_nul(bytes: &[u8]) -> bool
    ensures { result ≡ list_all (λ byte. not (byte == 0)) bytes.now }
{
    bytes.iter().all(|byte| *byte != 0)
}

// Whether each part between slashes may stand there.
fn has_good_parts(bytes: &[u8]) -> bool
    ensures { result ≡ list_all paths.is_part (slice_split paths.is_slash bytes.now) }
{
    bytes.split(|byte| *byte == b'/').all(|part| is_part(part))
}

// Whether a part may stand between two slashes.
fn is_part(part: &[u8]) -> bool
    ensures { result ≡ paths.is_part part.now }
{
    match part {
        [] => false,
        [a] => *a != b'.',
        [a, b] => !(*a == b'.' && *b == b'.'),
        _ => true,
    }
}

// The place of the last slash.
fn last_slash(bytes: &[u8]) -> Option<usize>
    ensures place { result ≡ paths.last_slash bytes.now }
    ensures slash { IfSome result (IsSlashAt bytes.now) }
{
    let mut end = bytes.len();
    while end > 0 {
        if bytes[end - 1] == b'/' {
            return Some(end - 1);
        }
        end -= 1;
    }
    None
}
