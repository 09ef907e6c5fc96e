//! The longest common prefix of two paths, by whole names.

use ll_path::{Names, Path, Word};
use std::alloc::Global;

/// Two paths, and the names that both begin with.
const PATHS: &[(&str, &str, &[&str])] = &[
    ("/", "/", &[]),
    ("/", "/a", &[]),
    ("/a", "/b", &[]),
    ("/a", "/A", &[]),
    ("/a/b", "/b/a", &[]),
    ("/a", "/a", &["a"]),
    ("/a", "/a/b", &["a"]),
    ("/a/bc", "/a/b", &["a"]),
    ("/a/x/c", "/a/y/c", &["a"]),
    ("/a/b/c", "/a/b/d/e", &["a", "b"]),
    ("/a/b/c", "/a/b/c", &["a", "b", "c"]),
];

fn path(alloc: Global, text: &str) -> Option<Path> {
    let text = String::from_str(alloc, text).ok()?;
    let word = Word::new(text).ok()?;
    Path::parse(word).ok()
}

fn are(mut names: Names<'_>, want: &[&str]) -> bool {
    for name in want {
        if names.next() != Some(*name) {
            return false;
        }
    }
    names.next().is_none()
}

/// Whether these are the names that both paths begin with, in either order of the two.
fn have_in_common(alloc: Global, one: &str, other: &str, want: &[&str]) -> bool {
    match (path(alloc, one), path(alloc, other)) {
        (Some(one), Some(other)) => are(one.common(&other), want) && are(other.common(&one), want),
        _ => false,
    }
}

#[test]
fn common_beginnings(rt: HostRuntime) {
    for (one, other, want) in PATHS {
        assert!(rt;
            have_in_common(rt.alloc(), one, other, want),
            "{one} and {other}"
        );
    }
}
