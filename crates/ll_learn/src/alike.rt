//! Whether entries are equal.

ghost use Rattle.std.specs.Prelude.{◌≡◌, ◌↔◌, IsTrue};

use ll_path::Target;
use ll_seq::{Call, Entry};

// Reports whether the path arguments are equal.
fn is_same_target(one: &Target, other: &Target) -> bool
    ensures { IsTrue result ↔ (one.now ≡ other.now) }
{
    one.as_str() == other.as_str()
}

// Reports whether the first two path arguments are equal to the other two.
fn are_same_targets(s: &Target, t: &Target, u: &Target, v: &Target) -> bool
    ensures { IsTrue result ↔ ((s.now ≡ u.now) × (t.now ≡ v.now)) }
{
    is_same_target(s, u) && is_same_target(t, v)
}

// Reports whether the calls are equal.
fn is_same_call(one: &Call, other: &Call) -> bool
    ensures { IsTrue result ↔ (one.now ≡ other.now) }
{
    match (one, other) {
        (Call::Make(a, t), Call::Make(b, u)) => a == b && is_same_target(t, u),
        (Call::Open(a, t), Call::Open(b, u)) => a == b && is_same_target(t, u),
        (Call::Read(a, b, c), Call::Read(d, e, f)) => a == d && b == e && c == f,
        (Call::Write(a, b, c), Call::Write(d, e, f)) => {
            a == d && b == e && c.as_slice() == f.as_slice()
        }
        (Call::Ftruncate(a, b), Call::Ftruncate(c, d)) => a == c && b == d,
        (Call::Close(a), Call::Close(b)) => a == b,
        (Call::Truncate(t, a), Call::Truncate(u, b)) => a == b && is_same_target(t, u),
        (Call::ReadDir(t), Call::ReadDir(u)) => is_same_target(t, u),
        (Call::Stat(t), Call::Stat(u)) => is_same_target(t, u),
        (Call::Exec(t), Call::Exec(u)) => is_same_target(t, u),
        (Call::Unlink(t), Call::Unlink(u)) => is_same_target(t, u),
        (Call::Rmdir(t), Call::Rmdir(u)) => is_same_target(t, u),
        (Call::Rename(s, t), Call::Rename(u, v)) => are_same_targets(s, t, u, v),
        (Call::RenameNoreplace(s, t), Call::RenameNoreplace(u, v)) => {
            are_same_targets(s, t, u, v)
        }
        (Call::Exchange(s, t), Call::Exchange(u, v)) => are_same_targets(s, t, u, v),
        (Call::Link(s, t), Call::Link(u, v)) => are_same_targets(s, t, u, v),
        (Call::Ruleset(a), Call::Ruleset(b)) => a == b,
        (Call::Allow(a, t, b), Call::Allow(c, u, d)) => a == c && b == d && is_same_target(t, u),
        (Call::Confine(a), Call::Confine(b)) => a == b,
        (Call::Spawn, Call::Spawn) => true,
        (Call::Connect, Call::Connect) => true,
        _ => false,
    }
}

// Reports whether the entries are equal.
fn is_same_entry(one: &Entry, other: &Entry) -> bool
    ensures { IsTrue result ↔ (one.now ≡ other.now) }
{
    one.client == other.client && is_same_call(&one.call, &other.call) && one.reply.is(&other.reply)
}

/// Reports whether both lists have the same entries.
pub(crate) fn are_alike(some: &[Entry], others: &[Entry]) -> bool
    ensures { IsTrue result ↔ (some.now ≡ others.now) }
{
    if some.len() != others.len() {
        return false;
    }
    for (i, entry) in some.iter().enumerate() {
        if !is_same_entry(entry, &others[i]) {
            return false;
        }
    }
    true
}
