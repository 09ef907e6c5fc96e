//! Path arguments, and calls with one. Arguments are parsed by small functions: a single one is slow to prove.

use ll_calls::Tree;
use ll_client::{Client, Shape};
use ll_path::{Target, Word};
use ll_rights::Kind;
use ll_walk::Gate;
use std::alloc::Global;
use std::sync::Wait;

fn word(alloc: Global, text: &str) -> Option<Word> {
    let Ok(text) = String::from_str(alloc, text) else {
        return None;
    };
    Word::new(text).ok()
}

fn read(word: Word) -> Target {
    Target::read(word)
}

/// The text as a path argument.
pub fn target(alloc: Global, text: &str) -> Option<Target> {
    match word(alloc, text) {
        Some(word) => Some(read(word)),
        None => None,
    }
}

/// Whether the client creates a node of this kind.
pub fn makes<N: Shape, G: Gate<N>>(
    rt: &impl Wait,
    alloc: Global,
    tree: &Tree<N, G>,
    me: &mut Client<N>,
    kind: Kind,
    path: &str,
) -> bool {
    match target(alloc, path) {
        Some(path) => tree.make(rt, me, kind, path).is_ok(),
        None => false,
    }
}

/// The inode of the path, 0 if there is none.
pub fn inode_at<N: Shape, G: Gate<N>>(
    rt: &impl Wait,
    alloc: Global,
    tree: &Tree<N, G>,
    me: &mut Client<N>,
    path: &str,
) -> u64 {
    let Some(path) = target(alloc, path) else {
        return 0;
    };
    match tree.stat(rt, me, path) {
        Ok(status) => status.inode,
        Err(_) => 0,
    }
}
