//! A tree that threads share, through its calls: clients that meet, four that work in parallel, a race, an incomplete
//! list of clients, and a full history.

ghost use Rattle.std.specs.Prelude.{◌≡◌, ◌+◌, true};
ghost use Rattle.ll_rights.specs.declared.limits.TheConstants.{TREE_CLIENTS};

use crate::calls::{inode_at, makes, target};
use crate::clients::{add, bring, close};
use crate::watched::{TrialEnd, end_of_trial};
use ll_audit::audit;
use ll_calls::{Refused, Tree};
use ll_client::{Account, Blank, Client, Shape};
use ll_path::Target;
use ll_rights::{Abi, Access, Errno, Kind};
use ll_seq::{AccessMode, Creation, History, Mode, Rules};
use ll_session::dead_end;
use ll_walk::NoGate;
use std::alloc::Global;
use std::marker::Brand;
use std::sync::Wait;
use std::sync::atomic::{AtomicU64, Ordering};
use std::test::*;
use std::thread::{self, Threads, join};

const RULES: Rules = Rules {
    abi: Abi::NEWEST,
    copies: true,
};

const NODES: usize = 512;

const ENTRIES: usize = 1_000_000;

const FILES: u8 = 50;

const ROUNDS: u64 = 20_000;

/// What is tried.
#[derive(Clone, Copy, PartialEq, Eq)]
enum Trial {
    Meeting,
    FourClients,
    Race,
    FullHistory,
}

fn is_legal(alloc: Global, history: &History) -> bool {
    audit(alloc, RULES, NODES, history).is_ok()
}

/// Whether the tree doesn't close with this list. Returns both then, and else waits forever.
fn stays_open<N: Shape>(
    rt: &impl Wait,
    tree: Tree<N, NoGate>,
    clients: Vec<Client<N>>,
) -> (Tree<N, NoGate>, Vec<Client<N>>) {
    match tree.close(clients) {
        Ok(_) => {
            dead_end(rt);
            unreachable!()
        }
        Err(back) => back,
    }
}

/// Whether a client that has met the maker of a directory finds it.
fn finds<N: Shape>(
    rt: &impl Wait,
    alloc: Global,
    tree: &Tree<N, NoGate>,
    one: &mut Client<N>,
    others: &mut [Client<N>],
) -> bool {
    let Some(other) = others.first_mut() else {
        return false;
    };
    let is_made = makes(rt, alloc, tree, one, Kind::Dir, "/a");
    tree.meet(rt, one, other);
    is_made && inode_at(rt, alloc, tree, other, "/a") == 2
}

/// Whether a client finds the directory of one that it has met, and the tree closes with both clients but not with one.
fn meet<N: Shape>(rt: &impl Wait, alloc: Global, tree: Tree<N, NoGate>) -> bool {
    let mut clients = bring(rt, alloc, &tree, 2);
    let is_found = match clients.split_first_mut() {
        Some((one, others)) => finds(rt, alloc, &tree, one, others),
        None => false,
    };
    let other = clients.pop();
    let (tree, mut clients) = stays_open(rt, tree, clients);
    if let Some(other) = other {
        add(rt, &mut clients, other);
    }
    let history = close(rt, tree, clients);
    is_found && is_legal(alloc, &history) && history.entries().len() == 4
}

/// The path of a client's file in the directory.
fn file_path(alloc: Global, directory: &str, client: u8, number: u8) -> Option<Target> {
    let mut text = String::from_str(alloc, directory).ok()?;
    let name = [
        b'a'.wrapping_add(client),
        b'0'.wrapping_add(number / 10),
        b'0'.wrapping_add(number % 10),
    ];
    for byte in name {
        text.push(byte as char).ok()?;
    }
    target(alloc, text.as_str())
}

/// Whether all of the client's files are created in one directory and moved into the other.
fn works<N: Shape>(
    rt: &impl Wait,
    alloc: Global,
    tree: &Tree<N, NoGate>,
    me: &mut Client<N>,
    client: u8,
) -> bool {
    for number in 0..FILES {
        let (Some(first), Some(from), Some(into)) = (
            file_path(alloc, "/d/", client, number),
            file_path(alloc, "/d/", client, number),
            file_path(alloc, "/e/", client, number),
        ) else {
            return false;
        };
        if tree.make(rt, me, Kind::Reg, first).is_err()
            || tree.rename(rt, me, from, into).is_err()
        {
            return false;
        }
    }
    true
}

/// The number of entries of this client.
fn entries_of(history: &History, client: u64) -> usize {
    let mut count = 0usize;
    for entry in history.entries() {
        if entry.client == client {
            count = count.wrapping_add(1);
        }
    }
    count
}

/// Whether four clients in four threads create and move their files.
fn all_work<N: Shape + Send + Sync, R: Threads + Wait + Sync>(
    rt: &R,
    alloc: Global,
    tree: &Tree<N, NoGate>,
    four: &mut [Client<N>],
) -> bool {
    let Some(maker) = four.first_mut() else {
        return false;
    };
    if !makes(rt, alloc, tree, maker, Kind::Dir, "/d")
        || !makes(rt, alloc, tree, maker, Kind::Dir, "/e")
    {
        return false;
    }
    let done = AtomicU64::new(0);
    thread::for_each_mut(
        rt,
        four,
        4,
        &|i, me| {
            if works(rt, alloc, tree, me, (i % 4) as u8) {
                done.fetch_add(1, Ordering::SeqCst);
            }
        },
    );
    done.load(Ordering::SeqCst) == 4
}

/// Whether four clients do all their work, and each has its entries.
fn four_work<N: Shape + Send + Sync, R: Threads + Wait + Sync>(
    rt: &R,
    alloc: Global,
    tree: Tree<N, NoGate>,
) -> bool {
    let mut clients = bring(rt, alloc, &tree, 4);
    let is_done = all_work(rt, alloc, &tree, clients.as_mut_slice());
    let history = close(rt, tree, clients);
    is_done && is_shared_out(alloc, &history)
}

fn is_shared_out(alloc: Global, history: &History) -> bool {
    history.entries().len() == 406
        && entries_of(history, 1) == 103
        && entries_of(history, 2) == 101
        && entries_of(history, 3) == 101
        && entries_of(history, 4) == 101
        && is_legal(alloc, history)
}

/// Whether the client confines itself to reading files below `/pub`.
fn confines<N: Shape>(
    rt: &impl Wait,
    alloc: Global,
    tree: &Tree<N, NoGate>,
    me: &mut Client<N>,
) -> bool {
    let (Some(right), Some(path)) = (Access::parse("read_file"), target(alloc, "/pub")) else {
        return false;
    };
    tree.ruleset(rt, me, right) == Ok(0)
        && tree.allow(rt, me, 0, path, right).is_ok()
        && tree.confine(rt, me, 0).is_ok()
}

/// How often the client could read `/pub/f`, and how often it was denied.
fn reads<N: Shape>(
    rt: &impl Wait,
    alloc: Global,
    tree: &Tree<N, NoGate>,
    me: &mut Client<N>,
) -> (u64, u64) {
    let mode = Mode {
        access: AccessMode::Read,
        truncate: false,
        creation: Creation::Never,
    };
    let (mut opened, mut denied) = (0u64, 0u64);
    for _ in 0..ROUNDS {
        let Some(path) = target(alloc, "/pub/f") else {
            return (opened, denied);
        };
        match tree.open_file(rt, me, mode, path) {
            Ok(number) if opened < ROUNDS && tree.close_file(rt, me, number).is_ok() => opened += 1,
            Err(Refused::Denied(_)) if denied < ROUNDS => denied += 1,
            _ => return (opened, denied),
        }
    }
    (opened, denied)
}

/// Whether the two directories are exchanged again and again, and a file is linked from one into the other.
fn exchanges<N: Shape>(
    rt: &impl Wait,
    alloc: Global,
    tree: &Tree<N, NoGate>,
    me: &mut Client<N>,
) -> bool {
    for _ in 0..ROUNDS {
        let (Some(one), Some(other), Some(from), Some(into), Some(gone)) = (
            target(alloc, "/priv"),
            target(alloc, "/pub"),
            target(alloc, "/priv/f"),
            target(alloc, "/pub/g"),
            target(alloc, "/pub/g"),
        ) else {
            return false;
        };
        if tree.exchange(rt, me, one, other).is_err()
            || tree.link(rt, me, from, into).is_err()
            || tree.unlink(rt, me, gone).is_err()
        {
            return false;
        }
    }
    true
}

fn furnishes<N: Shape>(
    rt: &impl Wait,
    alloc: Global,
    tree: &Tree<N, NoGate>,
    me: &mut Client<N>,
) -> bool {
    makes(rt, alloc, tree, me, Kind::Dir, "/priv")
        && makes(rt, alloc, tree, me, Kind::Dir, "/pub")
        && makes(rt, alloc, tree, me, Kind::Reg, "/priv/f")
        && makes(rt, alloc, tree, me, Kind::Reg, "/pub/f")
}

/// Whether each open of a confined client is allowed or denied as the path was at that moment. Meanwhile another client
/// exchanges the directory for one that the first may not read.
fn both_run<N: Shape + Send + Sync, R: Threads + Wait + Sync>(
    rt: &R,
    alloc: Global,
    tree: &Tree<N, NoGate>,
    free: &mut Client<N>,
    others: &mut [Client<N>],
) -> bool {
    let Some(confined) = others.first_mut() else {
        return false;
    };
    if !furnishes(rt, alloc, tree, free) || !confines(rt, alloc, tree, confined) {
        return false;
    }
    let (is_moved, (opened, denied)) = join(
        rt,
        || exchanges(rt, alloc, tree, free),
        || reads(rt, alloc, tree, confined),
    );
    is_moved && opened <= ROUNDS && denied == ROUNDS - opened
}

fn race<N: Shape + Send + Sync, R: Threads + Wait + Sync>(
    rt: &R,
    alloc: Global,
    tree: Tree<N, NoGate>,
) -> bool {
    let mut clients = bring(rt, alloc, &tree, 2);
    let is_right = match clients.split_first_mut() {
        Some((free, others)) => both_run(rt, alloc, &tree, free, others),
        None => false,
    };
    let history = close(rt, tree, clients);
    is_right && is_legal(alloc, &history)
}

/// Whether a client that finds no room in the history gets HistoryFull, and the first client, which knew only of its
/// own entry, catches up with both.
fn fills<N: Shape>(rt: &impl Wait, alloc: Global, tree: Tree<N, NoGate>) -> bool {
    let mut clients = bring(rt, alloc, &tree, 2);
    let is_full = match tree.connect(rt) {
        Ok(third) => {
            add(rt, &mut clients, third);
            false
        }
        Err(errno) => errno == Errno::HistoryFull,
    };
    let is_caught_up = match clients.get_mut(0) {
        Some(one) => {
            let seen = one.seen();
            tree.catch_up(rt, one);
            seen == 1 && one.seen() == 2
        }
        None => false,
    };
    drop(close(rt, tree, clients));
    is_full && is_caught_up
}

fn tries<N: Shape + Send + Sync, R: Threads + Wait + Sync>(
    rt: &R,
    alloc: Global,
    blank: Blank<Account>,
    history: usize,
    trial: Trial,
) -> bool
    requires named { blank ≡ N.table }
    requires slots { N.slots ≡ 512 + TREE_CLIENTS }
    requires limit { N.limit ≡ history }
    requires rules { N.rules ≡ record { abi = 3; copies = true } }
{
    let tree = match Tree::<N, NoGate>::open(alloc, blank, RULES, NODES, history, NoGate) {
        Ok(tree) => tree,
        Err(_) => return false,
    };
    match trial {
        Trial::Meeting => meet(rt, alloc, tree),
        Trial::FourClients => four_work(rt, alloc, tree),
        Trial::Race => race(rt, alloc, tree),
        Trial::FullHistory => fills(rt, alloc, tree),
    }
}

fn succeeds<R: Threads + Wait + Sync>(rt: &R, alloc: Global, history: usize, trial: Trial) -> bool {
    match Blank::new(alloc) {
        Ok(blank) => tries::<Brand, _>(rt, alloc, blank, history, trial),
        Err(_) => false,
    }
}

#[test]
fn who_has_met_the_maker_finds_what_it_made(rt: HostRuntime) {
    assert!(rt; succeeds(&rt, rt.alloc(), ENTRIES, Trial::Meeting));
}

#[test]
fn four_clients_in_four_threads(rt: HostRuntime) {
    let alloc = rt.alloc();
    let trial = move || succeeds(&rt, alloc, ENTRIES, Trial::FourClients);
    assert_eq!(rt; end_of_trial(&rt, alloc, trial), TrialEnd::Right);
}

#[test]
fn confined_reader_and_exchanges(rt: HostRuntime) {
    let alloc = rt.alloc();
    let trial = move || succeeds(&rt, alloc, ENTRIES, Trial::Race);
    assert_eq!(rt; end_of_trial(&rt, alloc, trial), TrialEnd::Right);
}

#[test]
fn full_history_takes_no_client(rt: HostRuntime) {
    assert!(rt; succeeds(&rt, rt.alloc(), 2, Trial::FullHistory));
}
