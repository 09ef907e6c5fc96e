//! Two threads on one tree, one of them confined: the example in the README of ll_calls.

ghost use Rattle.std.specs.Prelude.{◌≡◌, true};

use crate::calls::target;
use crate::clients::{bring, close};
use ll_calls::{Account, Blank, Client, NoGate, Refused, Shape, Tree};
use ll_rights::{Abi, Access, Errno, Kind};
use ll_seq::Rules;
use std::alloc::Global;
use std::marker::Brand;
use std::sync::Wait;
use std::test::*;
use std::thread::{Threads, join};

/// The results of the free client and of the confined one.
type Answers = (Result<(), Refused>, Result<(), Refused>);

/// A free client creates `/log`, while another one, which may create nothing, tries to create `/tmp`.
fn both_make<N: Shape + Send + Sync, R: Threads + Wait + Sync>(
    rt: &R,
    alloc: Global,
    tree: &Tree<N, NoGate>,
    free: &mut Client<N>,
    others: &mut [Client<N>],
) -> Result<Answers, Refused> {
    let Some(confined) = others.first_mut() else {
        return Err(Refused::Errno(Errno::NoMemory));
    };
    let (Some(log), Some(tmp)) = (target(alloc, "/log"), target(alloc, "/tmp")) else {
        return Err(Refused::Errno(Errno::NoMemory));
    };
    let layer = tree.ruleset(rt, confined, Access::ALL)?;
    tree.confine(rt, confined, layer)?;
    Ok(join(
        rt,
        || tree.make(rt, free, Kind::Dir, log),
        || tree.make(rt, confined, Kind::Dir, tmp),
    ))
}

/// Opens a tree for two clients, and closes it with both.
fn two_threads<N: Shape + Send + Sync, R: Threads + Wait + Sync>(
    rt: &R,
    alloc: Global,
    blank: Blank<Account>,
) -> Result<Answers, Refused>
    requires named { blank ≡ N.table }
    requires slots { N.slots ≡ 128 }
    requires limit { N.limit ≡ 100 }
    requires rules { N.rules ≡ record { abi = 3; copies = true } }
{
    let rules = Rules {
        abi: Abi::NEWEST,
        copies: true,
    };
    let tree = Tree::<N, NoGate>::open(alloc, blank, rules, 64, 100, NoGate)?;
    let mut clients = bring(rt, alloc, &tree, 2);
    let answers = match clients.split_first_mut() {
        Some((free, others)) => both_make(rt, alloc, &tree, free, others),
        None => Err(Refused::Errno(Errno::NoMemory)),
    };
    drop(close(rt, tree, clients));
    answers
}

/// Whether the refusal has this text.
fn says(alloc: Global, refused: Refused, words: &str) -> bool {
    match refused.to_string(alloc) {
        Ok(text) => text.as_str() == words,
        Err(_) => false,
    }
}

#[test]
fn two_threads_and_one_is_confined(rt: HostRuntime) {
    let alloc = rt.alloc();
    let answers = match Blank::new(alloc) {
        Ok(blank) => two_threads::<Brand, _>(&rt, alloc, blank),
        Err(_) => Err(Refused::Errno(Errno::NoMemory)),
    };
    let is_right = match answers {
        Ok((Ok(()), Err(refused))) => says(alloc, refused, "layer 1 denies make_dir on the path"),
        _ => false,
    };
    assert!(rt; is_right);
    let nothing = Refused::Errno(Errno::ENOENT);
    assert!(rt; says(alloc, nothing, "refused with ENOENT"));
}
