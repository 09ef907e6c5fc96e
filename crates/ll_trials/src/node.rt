//! One node behind its lock: the results of its calls, and its contents after them.

use ll_node::Slot;
use ll_path::Name;
use ll_rights::{Errno, Kind};
use std::alloc::{AllocError, Global};

/// A call on a slot.
#[derive(Clone, Copy)]
enum SlotCall {
    Insert(&'static str, u64),
    Replace(&'static str, u64),
    Rename(&'static str, &'static str),
    Remove(&'static str),
    WriteAt(u64, &'static [u8]),
    SetLen(u64),
}

/// The result: the inode that had the name, 0, or the refusal.
type Told = Result<u64, Errno>;

fn insert(slot: &mut Slot, name: &str, inode: u64) -> Told {
    if !slot.kind().is_dir() || !Name::fits(name) {
        return Err(Errno::EINVAL);
    }
    slot.insert(name, inode).map(|()| 0)
}

fn rename(slot: &mut Slot, old: &str, new: &str) -> Told {
    if !Name::fits(new) {
        return Err(Errno::EINVAL);
    }
    slot.rename(old, new).map(|()| 0)
}

fn write_at(slot: &mut Slot, offset: u64, bytes: &[u8]) -> Told {
    if slot.kind().is_dir() {
        return Err(Errno::EISDIR);
    }
    slot.write_at(offset, bytes).map(|()| 0)
}

fn set_len(slot: &mut Slot, len: u64) -> Told {
    if slot.kind().is_dir() {
        return Err(Errno::EISDIR);
    }
    slot.set_len(len).map(|()| 0)
}

fn told(slot: &mut Slot, call: SlotCall) -> Told {
    match call {
        SlotCall::Insert(name, inode) => insert(slot, name, inode),
        SlotCall::Replace(name, inode) => slot.replace(name, inode),
        SlotCall::Rename(old, new) => rename(slot, old, new),
        SlotCall::Remove(name) => slot.remove(name),
        SlotCall::WriteAt(offset, bytes) => write_at(slot, offset, bytes),
        SlotCall::SetLen(len) => set_len(slot, len),
    }
}

/// Whether the slot has these names, in this order.
fn has_names(slot: &Slot, want: &[&str]) -> Result<bool, AllocError> {
    let listing = slot.names()?;
    let names = listing.names();
    Ok(
        names.len() == want.len()
            && names
                .iter()
                .zip(want)
                .all(|(name, want)| name.as_str() == *want),
    )
}

fn has_bytes(slot: &Slot, want: &[u8]) -> Result<bool, AllocError> {
    let read = slot.read_at(0, 4_096)?;
    Ok(read.as_slice() == want)
}

const DIRECTORY: &[(SlotCall, Told)] = &[
    (SlotCall::Insert("b", 2), Ok(0)),
    (SlotCall::Insert("ab", 3), Ok(0)),
    (SlotCall::Insert("B", 4), Ok(0)),
    (SlotCall::Insert("a", 5), Ok(0)),
    (SlotCall::Insert("a", 9), Err(Errno::EEXIST)),
    (SlotCall::Replace("a", 6), Ok(5)),
    (SlotCall::Replace("a", 6), Ok(6)),
    (SlotCall::Replace("c", 6), Err(Errno::ENOENT)),
    (SlotCall::Rename("b", "a"), Err(Errno::EEXIST)),
    (SlotCall::Rename("c", "a"), Err(Errno::ENOENT)),
    (SlotCall::Rename("b", "A"), Ok(0)),
    (SlotCall::Remove("ab"), Ok(3)),
    (SlotCall::Remove("ab"), Err(Errno::ENOENT)),
];

const FILE: &[(SlotCall, Told)] = &[
    (SlotCall::SetLen(40), Ok(0)),
    (SlotCall::SetLen(2), Ok(0)),
    (SlotCall::WriteAt(0, b"hi"), Ok(0)),
    (SlotCall::WriteAt(4, b"!"), Ok(0)),
    (SlotCall::WriteAt(u64::MAX, b""), Ok(0)),
    (SlotCall::WriteAt(65_536, b"x"), Err(Errno::EFBIG)),
    (SlotCall::SetLen(65_537), Err(Errno::EFBIG)),
    (SlotCall::Insert("a", 2), Err(Errno::EINVAL)),
    (SlotCall::Remove("a"), Err(Errno::ENOENT)),
];

fn after(alloc: Global, kind: Kind, calls: &[(SlotCall, Told)]) -> Option<Slot> {
    let mut slot = Slot::new(alloc, kind);
    for (call, want) in calls {
        if told(&mut slot, *call) != *want {
            return None;
        }
    }
    Some(slot)
}

fn is_directory(alloc: Global) -> Result<bool, AllocError> {
    match after(alloc, Kind::Dir, DIRECTORY) {
        Some(slot) => has_names(&slot, &["A", "B", "a"]),
        None => Ok(false),
    }
}

fn is_file(alloc: Global) -> Result<bool, AllocError> {
    match after(alloc, Kind::Reg, FILE) {
        Some(slot) => has_bytes(&slot, b"hi\0\0!"),
        None => Ok(false),
    }
}

#[test]
fn slots(rt: HostRuntime) {
    assert!(rt; is_directory(rt.alloc()) == Ok(true));
    assert!(rt; is_file(rt.alloc()) == Ok(true));
}
