//! Random calls. Each function makes one and returns whether it has an entry: all do, unless memory or the history's
//! room ran out.

use crate::aims::{Aim, TOP, path, target, two_paths};
use crate::random::Random;
use ll_calls::{Refused, Tree};
use ll_client::{Client, Shape};
use ll_path::Data;
use ll_rights::{Access, Errno, Kind};
use ll_seq::{AccessMode, Creation, Mode};
use ll_walk::NoGate;
use std::alloc::Global;
use std::sync::Wait;

/// One call in this many confines its client. More would deny too many calls.
const CONFINES: u64 = 2_000;

/// Out of a hundred calls, how many are on one path, on two paths, and on descriptors. The others are for layers.
const ONE_PATH: u64 = 52;

const TWO_PATHS: u64 = 15;

const DESCRIPTORS: u64 = 31;

/// A client rarely has more descriptors than this, since as many are closed as are opened.
const MOST_OPEN: u64 = 24;

/// The rights that a layer allows on the root, so that calls still succeed under it.
const MUCH: &str =
    "execute,write_file,read_file,read_dir,remove_dir,remove_file,make_dir,make_reg,make_fifo,\
    refer,truncate";

/// The rights that it also allows on some directories.
const MORE: &str = "make_sym";

fn has_entry<T: Drop>(answer: Result<T, Refused>) -> bool {
    !matches!(
        &answer,
        Err(Refused::Errno(Errno::HistoryFull | Errno::NoMemory))
    )
}

fn kind(random: &mut Random) -> Kind {
    match random.below(8) {
        0 => Kind::Fifo,
        1 => Kind::Sym,
        _ => Kind::Reg,
    }
}

fn mode(random: &mut Random) -> Mode {
    let access = match random.below(4) {
        0 => AccessMode::Read,
        1 => AccessMode::Write,
        _ => AccessMode::ReadWrite,
    };
    let creation = match random.below(8) {
        0..=4 => Creation::IfMissing,
        5 => Creation::Exclusive,
        _ => Creation::Never,
    };
    Mode {
        access,
        truncate: random.below(8) == 0,
        creation,
    }
}

fn on_one_path<N: Shape>(
    rt: &impl Wait,
    alloc: Global,
    tree: &Tree<N, NoGate>,
    me: &mut Client<N>,
    random: &mut Random,
) -> bool {
    let turn = random.below(ONE_PATH);
    let aim = match turn {
        0..=28 => Aim::File,
        29..=36 => Aim::Any,
        _ => Aim::Directory,
    };
    let Some(path) = path(alloc, random, aim) else {
        return false;
    };
    match turn {
        0..=15 => has_entry(tree.open_file(rt, me, mode(random), path)),
        16..=17 => has_entry(tree.make(rt, me, kind(random), path)),
        18..=21 => has_entry(tree.truncate(rt, me, path, random.below(100))),
        22..=25 => has_entry(tree.exec(rt, me, path)),
        26..=30 => has_entry(tree.unlink(rt, me, path)),
        31..=36 => has_entry(tree.stat(rt, me, path)),
        37..=44 => has_entry(tree.read_dir(rt, me, path)),
        45..=49 => has_entry(tree.make(rt, me, Kind::Dir, path)),
        _ => has_entry(tree.rmdir(rt, me, path)),
    }
}

fn on_two_paths<N: Shape>(
    rt: &impl Wait,
    alloc: Global,
    tree: &Tree<N, NoGate>,
    me: &mut Client<N>,
    random: &mut Random,
) -> bool {
    let Some((from, into)) = two_paths(alloc, random) else {
        return false;
    };
    match random.below(TWO_PATHS) {
        0..=4 => has_entry(tree.rename(rt, me, from, into)),
        5..=6 => has_entry(tree.rename_noreplace(rt, me, from, into)),
        7..=12 => has_entry(tree.exchange(rt, me, from, into)),
        _ => has_entry(tree.link(rt, me, from, into)),
    }
}

/// One random byte, or none.
fn data(alloc: Global, random: &mut Random) -> Option<Data> {
    let mut bytes = Vec::new(alloc);
    if random.below(4) != 0 {
        bytes.push(random.below(256) as u8).ok()?;
    }
    Data::new(bytes).ok()
}

fn on_descriptor<N: Shape>(
    rt: &impl Wait,
    alloc: Global,
    tree: &Tree<N, NoGate>,
    me: &mut Client<N>,
    random: &mut Random,
) -> bool {
    let number = random.low(MOST_OPEN);
    match random.below(DESCRIPTORS) {
        0..=7 => has_entry(tree.read(rt, me, number, random.below(50), random.below(50))),
        8..=15 => match data(alloc, random) {
            Some(data) => has_entry(tree.write(rt, me, number, random.below(200), data)),
            None => false,
        },
        16..=18 => has_entry(tree.ftruncate(rt, me, number, random.below(100))),
        _ => has_entry(tree.close_file(rt, me, number)),
    }
}

/// Makes a call for layers: a ruleset handles all rights, and its rules allow most.
fn for_layers<N: Shape>(
    rt: &impl Wait,
    alloc: Global,
    tree: &Tree<N, NoGate>,
    me: &mut Client<N>,
    random: &mut Random,
) -> bool {
    let (number, path, rights) = match random.below(4) {
        0 => return has_entry(tree.ruleset(rt, me, Access::ALL)),
        1 => (random.below(2), path(alloc, random, Aim::Directory), MORE),
        _ => (0, target(alloc, "/"), MUCH),
    };
    match (path, Access::parse(rights)) {
        (Some(path), Some(rights)) => has_entry(tree.allow(rt, me, number, path, rights)),
        _ => false,
    }
}

/// Creates the directories that contain the others, unless they exist.
pub fn makes_top<N: Shape>(
    rt: &impl Wait,
    alloc: Global,
    tree: &Tree<N, NoGate>,
    me: &mut Client<N>,
) -> bool {
    for text in TOP {
        let Some(path) = target(alloc, text) else {
            return false;
        };
        if !has_entry(tree.make(rt, me, Kind::Dir, path)) {
            return false;
        }
    }
    true
}

/// Makes any call of the client except a spawn.
pub fn makes_any<N: Shape>(
    rt: &impl Wait,
    alloc: Global,
    tree: &Tree<N, NoGate>,
    me: &mut Client<N>,
    random: &mut Random,
) -> bool {
    if random.below(CONFINES) == 0 {
        return has_entry(tree.confine(rt, me, 0));
    }
    let turn = random.below(100);
    if turn < ONE_PATH {
        on_one_path(rt, alloc, tree, me, random)
    } else if turn < ONE_PATH + TWO_PATHS {
        on_two_paths(rt, alloc, tree, me, random)
    } else if turn < ONE_PATH + TWO_PATHS + DESCRIPTORS {
        on_descriptor(rt, alloc, tree, me, random)
    } else {
        for_layers(rt, alloc, tree, me, random)
    }
}
