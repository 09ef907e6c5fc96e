//! Facts that the types of calls and replies guarantee. These functions do nothing when they run.

ghost use Rattle.std.specs.Prelude.{◌≢◌, ◌<◌, ℕ, slice_index};
ghost use Rattle.ll_rights.specs.declared.errno.Errno.{Errno};
ghost use Rattle.ll_seq.specs.Step.{IsAnswer};
ghost use Rattle.ll_seq.specs.declared.reply.Reply.{Reply};
ghost use Rattle.ll_wire.specs.Entries.{IsEntryCall, IsEntryReply};
ghost use Rattle.ll_wire.specs.Grammar.{IsSpelled, IsU64};

use ll_path::Target;
use ll_rights::{Access, Right};
use ll_seq::{Call, Reply};

// A target's type guarantees that it can be spelled.
fn is_target_spelled(target: &Target)
    ensures { IsSpelled target.now }
{
    target.as_str();
}

fn are_spelled(old: &Target, new: &Target)
    ensures { IsSpelled old.now × IsSpelled new.now }
{
    is_target_spelled(old);
    is_target_spelled(new);
}

// Numbers are less than 2^64.
fn are_numbers(number: u64, second: u64, third: u64)
    ensures { IsU64 number × IsU64 second × IsU64 third }
{
    let _numbers = (number, second, third);
}

// Bytes are less than 256.
fn are_bytes(bytes: &[u8])
    ensures { (i : ℕ) → slice_index bytes.now i < 256 }
{
    let _bytes = bytes;
}

// A set of rights is a number less than 2^64.
fn is_set(rights: Access)
    ensures { IsU64 rights.0 }
{
    let _rights = rights;
}

/// Does nothing when it runs. Its contract: a call's type guarantees that it can be spelled, or is a connect, which an
/// entry may have.
pub fn is_spelled(call: &Call)
    ensures { IsEntryCall call.now }
{
    match call {
        Call::Make(_, target) => is_target_spelled(target),
        Call::Open(_, target) => is_target_spelled(target),
        Call::Read(fd, offset, count) => are_numbers(*fd, *offset, *count),
        Call::Write(fd, offset, bytes) => {
            are_bytes(bytes.as_slice());
            are_numbers(*fd, *offset, 0);
        }
        Call::Ftruncate(fd, size) => are_numbers(*fd, *size, 0),
        Call::Close(fd) => are_numbers(*fd, 0, 0),
        Call::Truncate(target, size) => {
            is_target_spelled(target);
            are_numbers(*size, 0, 0);
        }
        Call::ReadDir(target) => is_target_spelled(target),
        Call::Stat(target) => is_target_spelled(target),
        Call::Exec(target) => is_target_spelled(target),
        Call::Unlink(target) => is_target_spelled(target),
        Call::Rmdir(target) => is_target_spelled(target),
        Call::Rename(old, new) => are_spelled(old, new),
        Call::RenameNoreplace(old, new) => are_spelled(old, new),
        Call::Exchange(old, new) => are_spelled(old, new),
        Call::Link(old, new) => are_spelled(old, new),
        Call::Ruleset(rights) => is_set(*rights),
        Call::Allow(number, target, rights) => {
            is_target_spelled(target);
            is_set(*rights);
            are_numbers(*number, 0, 0);
        }
        Call::Confine(number) => are_numbers(*number, 0, 0),
        Call::Spawn => {}
        Call::Connect => {}
    }
}

// There are fifteen rights.
fn is_right(right: Right)
    ensures { right < 15 }
{
    let _right = right;
}

/// Does nothing when it runs. Its contract: every reply of a tree but NoMemory may be in an entry.
pub fn is_entered(reply: &Reply)
    requires answer { IsAnswer reply.now }
    requires memory { reply.now ≢ Reply.Refused Errno.NoMemory }
    ensures { IsEntryReply reply.now }
{
    match reply {
        Reply::Done => {}
        Reply::Opened(number) => are_numbers(*number, 0, 0),
        Reply::Bytes(_) => {}
        Reply::Wrote(count) => are_numbers(*count, 0, 0),
        Reply::Listed(_) => {}
        Reply::Found(status) => are_numbers(status.inode, status.size, status.links),
        Reply::Created(number) => are_numbers(*number, 0, 0),
        Reply::Spawned(number) => are_numbers(*number, 0, 0),
        Reply::Refused(_) => {}
        Reply::Denied(denial) => {
            are_numbers(denial.layer, 0, 0);
            is_right(denial.right);
        }
    }
}
