//! Replies that hold bytes or names: memory suffices for the history's copy, the caller's, and one more.

use crate::calls::target;
use ll_laws::Step;
use ll_path::Data;
use ll_rights::Abi;
use ll_seq::{AccessMode, Call, Creation, Mode, Reply, Rules};
use ll_steps::{Report, World};
use std::alloc::{AllocError, Global};

const RULES: Rules = Rules {
    abi: Abi::NEWEST,
    copies: true,
};

const NEW_FILE: Mode = Mode {
    access: AccessMode::ReadWrite,
    truncate: false,
    creation: Creation::IfMissing,
};

/// Whether the first client's call gets a reply that can be copied.
fn is_answered(alloc: Global, world: &mut World, call: Call) -> bool {
    let Report::Replied(number) = world.make(1, call) else {
        return false;
    };
    match world.history().entries().get(number as usize) {
        Some(entry) => is_copied(alloc, &entry.reply),
        None => false,
    }
}

fn is_copied(alloc: Global, reply: &Reply) -> bool {
    match reply.copy(alloc) {
        Ok(copy) => copy.is(reply),
        Err(_) => false,
    }
}

fn opens(alloc: Global, world: &mut World) -> bool {
    match target(alloc, "/f") {
        Some(path) => is_answered(alloc, world, Call::Open(NEW_FILE, path)),
        None => false,
    }
}

fn lists(alloc: Global, world: &mut World) -> bool {
    match target(alloc, "/") {
        Some(path) => is_answered(alloc, world, Call::ReadDir(path)),
        None => false,
    }
}

fn bytes(alloc: Global) -> Option<Data> {
    let bytes = Vec::from_slice(alloc, b"ab").ok()?;
    Data::new(bytes).ok()
}

fn writes(alloc: Global, world: &mut World) -> bool {
    match bytes(alloc) {
        Some(bytes) => is_answered(alloc, world, Call::Write(0, 0, bytes)),
        None => false,
    }
}

/// Whether the last two replies hold a name and two bytes.
fn is_told(world: &World) -> bool {
    match world.history().entries() {
        [.., list, read] => match (&list.reply, &read.reply) {
            (Reply::Listed(names), Reply::Bytes(bytes)) => {
                names.names().len() == 1 && bytes.as_slice() == b"ab".as_slice()
            }
            _ => false,
        },
        _ => false,
    }
}

fn is_right(alloc: Global) -> Result<bool, AllocError> {
    let mut world = World::new(alloc, RULES, 64, 10)?;
    let is_right = world.step(Step::Join) == Report::Joined(1)
        && opens(alloc, &mut world)
        && writes(alloc, &mut world)
        && lists(alloc, &mut world)
        && is_answered(alloc, &mut world, Call::Read(0, 0, 9))
        && is_told(&world);
    drop(world);
    Ok(is_right)
}

#[test]
fn replies(rt: HostRuntime) {
    assert!(rt; matches!(is_right(rt.alloc()), Ok(true)));
}
