//! Calls on descriptors: classifying them, and the answers that need the file's bytes.

ghost use Rattle.std.specs.Prelude.{◌≡◌, false, IfOk, OnErr};
ghost use Rattle.ll_rights.specs.Kind.{is_dir};
ghost use Rattle.ll_seq.specs.declared.call.Call.TheVariants as calls;
ghost use Rattle.ll_journal.specs.Files.{ComesOn, IsFreeOn, IsOn, on_bytes};

use crate::alone::refusal;
use crate::pair::ReplyPair;
use ll_decide::{Cause, Denial, Place};
use ll_node::{Held, Slot};
use ll_path::Data;
use ll_rights::limits::DATA_BYTES;
use ll_rights::{Errno, Right};
use ll_seq::{Call, Descriptor, Reply};
use std::alloc::{AllocError, Global};

const MOST_READ: u64 = DATA_BYTES as u64;

/// A call on the bytes of an open file.
#[derive(Drop)]
pub(crate) enum BytesCall<'a> {
    /// Read: the offset, the most bytes to return.
    Read(u64, u64),
    /// Write: the offset, the bytes.
    Write(u64, &'a Data),
    /// Set the length. New bytes are zeros.
    Resize(u64),
}

/// A call on a descriptor.
#[derive(Drop)]
pub(crate) enum FileCall<'a> {
    Close,
    OnBytes(BytesCall<'a>),
}

/// Returns the descriptor that the call is made on and what it asks for, or None for any other call.
pub(crate) fn file_call(call: &Call) -> Option<(u64, FileCall<'_>)>
    ensures { IsOn call.now result }
{
    match call {
        Call::Close(fd) => Some((*fd, FileCall::Close)),
        Call::Read(fd, offset, count) => {
            Some((*fd, FileCall::OnBytes(BytesCall::Read(*offset, *count))))
        }
        Call::Write(fd, offset, bytes) => {
            Some((*fd, FileCall::OnBytes(BytesCall::Write(*offset, bytes))))
        }
        Call::Ftruncate(fd, size) => Some((*fd, FileCall::OnBytes(BytesCall::Resize(*size)))),
        Call::Make(..) => None,
        Call::Open(..) => None,
        Call::Truncate(..) => None,
        Call::ReadDir(_) => None,
        Call::Stat(_) => None,
        Call::Exec(_) => None,
        Call::Unlink(_) => None,
        Call::Rmdir(_) => None,
        Call::Rename(..) => None,
        Call::RenameNoreplace(..) => None,
        Call::Exchange(..) => None,
        Call::Link(..) => None,
        Call::Ruleset(_) => None,
        Call::Allow(..) => None,
        Call::Confine(_) => None,
        Call::Spawn => None,
        Call::Connect => None,
    }
}

/// Builds the reply of a read. Errors: memory ran out.
fn read(
    alloc: Global,
    file: &Descriptor,
    offset: u64,
    count: u64,
    node: &Slot,
) -> Result<ReplyPair, AllocError>
    ensures ok { IfOk result (λ reply. ComesOn file.now (λ fd. calls.Read fd offset count) node.now.bytes reply
        node.now.bytes) }
    ensures starved { OnErr result (IsFreeOn file.now (λ fd. calls.Read fd offset count)) }
{
    if MOST_READ < count {
        return ReplyPair::new(alloc, Reply::Refused(Errno::EINVAL));
    }
    if !file.reads {
        return ReplyPair::new(alloc, Reply::Refused(Errno::EBADF));
    }
    let bytes = node.read_at(offset, count)?;
    ReplyPair::new(alloc, Reply::Bytes(bytes))
}

/// Writes the bytes and builds the reply. Errors: memory ran out, and nothing has changed.
fn write(
    alloc: Global,
    file: &Descriptor,
    offset: u64,
    bytes: &Data,
    node: &mut Slot,
) -> Result<ReplyPair, AllocError>
    requires { is_dir node.old.kind ≡ false }
    ensures ok { IfOk result (λ reply. ComesOn file.now (λ fd. calls.Write fd offset bytes.now) node.old.bytes reply
        node.new.bytes) }
    ensures rest { node.new ≡ record node.old { bytes = node.new.bytes } }
    ensures err { OnErr result (node.new ≡ node.old) }
    ensures starved { OnErr result (IsFreeOn file.now (λ fd. calls.Write fd offset bytes.now)) }
{
    if !file.writes {
        return ReplyPair::new(alloc, Reply::Refused(Errno::EBADF));
    }
    match node.write_at(offset, bytes.as_slice()) {
        Ok(()) => ReplyPair::new(alloc, Reply::Wrote(bytes.len() as u64)),
        Err(errno) => refusal(alloc, errno),
    }
}

/// Sets the length and builds the reply. Errors: memory ran out, and nothing has changed.
fn resize(
    alloc: Global,
    file: &Descriptor,
    size: u64,
    node: &mut Slot,
) -> Result<ReplyPair, AllocError>
    requires { is_dir node.old.kind ≡ false }
    ensures ok { IfOk result (λ reply. ComesOn file.now (λ fd. calls.Ftruncate fd size) node.old.bytes reply
        node.new.bytes) }
    ensures rest { node.new ≡ record node.old { bytes = node.new.bytes } }
    ensures err { OnErr result (node.new ≡ node.old) }
    ensures starved { OnErr result (IsFreeOn file.now (λ fd. calls.Ftruncate fd size)) }
{
    if !file.writes {
        return ReplyPair::new(alloc, Reply::Refused(Errno::EINVAL));
    }
    if let Some(layer) = file.kept {
        let denial = Denial {
            cause: Cause::EACCES,
            layer,
            right: Right::TRUNCATE,
            place: Place::At,
        };
        return ReplyPair::new(alloc, Reply::Denied(denial));
    }
    match node.set_len(size) {
        Ok(()) => ReplyPair::new(alloc, Reply::Done),
        Err(errno) => refusal(alloc, errno),
    }
}

/// Makes the call and builds its reply. Errors: memory ran out, and nothing has changed.
pub(crate) fn answer(
    alloc: Global,
    file: &Descriptor,
    asked: BytesCall<'_>,
    held: &mut Held,
) -> Result<ReplyPair, AllocError>
    requires { is_dir held.old.node.kind ≡ false }
    ensures ok { IfOk result (λ reply. ComesOn file.now (on_bytes asked.entry) held.old.node.bytes reply
        held.new.node.bytes) }
    ensures rest { held.new ≡ record held.old { node = record held.old.node { bytes = held.new.node.bytes } } }
    ensures err { OnErr result (held.new ≡ held.old) }
    ensures starved { OnErr result (IsFreeOn file.now (on_bytes asked.entry)) }
{
    match asked {
        BytesCall::Read(offset, count) => read(alloc, file, offset, count, &held.node),
        BytesCall::Write(offset, bytes) => write(alloc, file, offset, bytes, &mut held.node),
        BytesCall::Resize(size) => resize(alloc, file, size, &mut held.node),
    }
}
