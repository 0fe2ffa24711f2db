//! Paths: which texts are none, and what the parts of one are.

use kp_path::{check, name, parent, sequence_name, sequence_parent};
use std::alloc::Global;

const GOOD: [&str; 6] = ["/", "/a", "/a/b", "/a.b/...", "/.a", "/é"];

const BAD: [&str; 10] = [
    "", "a", "//", "/a/", "/a//b", "/.", "/..", "/a/./b", "/a/..", "/a\0b",
];

// Each path with its parent and its name.
const PARTS: [(&str, Option<&str>, &str); 4] = [
    ("/", None, ""),
    ("/a", Some("/"), "a"),
    ("/a/b", Some("/a"), "b"),
    ("/a/bc", Some("/a"), "bc"),
];

// Each asked path with a number, and the path that is made.
const NUMBERED: [(&str, u32, &str); 5] = [
    ("/a", 0, "/a0000000000"),
    ("/a/", 7, "/a/0000000007"),
    ("/", 1, "/0000000001"),
    ("/é", 2147483647, "/é2147483647"),
    ("", 4294967295, "4294967295"),
];

// Each asked path with the parent of what is made.
const PARENTS: [(&str, &str); 5] = [
    ("/a", "/"),
    ("/a/", "/a"),
    ("/", "/"),
    ("/a/b", "/a"),
    ("", "/"),
];

fn is_made(alloc: Global, path: &str, created: u32, wanted: &str) -> bool {
    match sequence_name(alloc, path, created) {
        Err(_) => false,
        Ok(made) => {
            let same = made.as_str() == wanted;
            drop(made);
            same
        }
    }
}

#[test]
fn paths_are_told_from_other_texts(rt: HostRuntime) {
    assert!(rt; GOOD.iter().all(|path| check(path).is_ok()));
    assert!(rt; BAD.iter().all(|path| check(path).is_err()));
}

#[test]
fn paths_have_parents_and_names(rt: HostRuntime) {
    assert!(rt; PARTS.iter().all(|(path, up, own)| parent(path) == *up && name(path) == *own));
}

#[test]
fn a_running_number_has_ten_digits(rt: HostRuntime) {
    let alloc = rt.alloc();
    assert!(rt; NUMBERED.iter().all(|(path, created, made)| is_made(alloc, path, *created, made)));
    assert!(rt;
        PARENTS
            .iter()
            .all(|(path, up)| sequence_parent(path) == *up)
    );
}
