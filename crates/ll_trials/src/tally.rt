//! Counts the calls of each kind, and how many succeeded.

use ll_seq::{Call, History, Reply};

/// The kinds of calls except connect.
const KINDS: [&str; 20] = [
    "make",
    "open",
    "read",
    "write",
    "ftruncate",
    "close",
    "truncate",
    "list",
    "stat",
    "exec",
    "unlink",
    "rmdir",
    "rename",
    "rename_noreplace",
    "exchange",
    "link",
    "ruleset",
    "allow",
    "confine",
    "spawn",
];

fn kind_of(call: &Call) -> &'static str {
    match call {
        Call::Make(..) => "make",
        Call::Open(..) => "open",
        Call::Read(..) => "read",
        Call::Write(..) => "write",
        Call::Ftruncate(..) => "ftruncate",
        Call::Close(_) => "close",
        Call::Truncate(..) => "truncate",
        Call::ReadDir(_) => "list",
        Call::Stat(_) => "stat",
        Call::Exec(_) => "exec",
        Call::Unlink(_) => "unlink",
        Call::Rmdir(_) => "rmdir",
        Call::Rename(..) => "rename",
        Call::RenameNoreplace(..) => "rename_noreplace",
        Call::Exchange(..) => "exchange",
        Call::Link(..) => "link",
        Call::Ruleset(_) => "ruleset",
        Call::Allow(..) => "allow",
        Call::Confine(_) => "confine",
        Call::Spawn => "spawn",
        Call::Connect => "connect",
    }
}

fn is_done(reply: &Reply) -> bool {
    !reply.is_denial() && !matches!(reply, Reply::Refused(_))
}

/// The calls of this kind in the history, and those that were neither refused nor denied.
fn count(history: &History, kind: &str) -> (u64, u64) {
    let (mut made, mut done) = (0u64, 0u64);
    for entry in history.entries() {
        if kind_of(&entry.call) == kind {
            made = made.wrapping_add(1);
            if is_done(&entry.reply) {
                done = done.wrapping_add(1);
            }
        }
    }
    (made, done)
}

/// Prints a line for each kind of call.
pub fn tell(rt: &impl Print, history: &History) {
    for kind in KINDS {
        let (made, done) = count(history, kind);
        let _ = println!(rt; "{kind}: {done} of {made} done");
    }
}
