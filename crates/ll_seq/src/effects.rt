//! The answer and the change of an allowed call.

ghost use Rattle.std.specs.Prelude.{◌≡◌, ℕ, [], ◌∷◌, Option, Some, None, true, false, length, option_map};
ghost use Rattle.std.specs.Prelude.{option_to_list, unwrap_or};
ghost use Rattle.ll_decide.specs.Judge.{AreGranted};
ghost use Rattle.ll_path.specs.Path.{Path};
ghost use Rattle.ll_seq.specs.Asked.{kept_at};
ghost use Rattle.ll_seq.specs.Call.{first_path, second_path, path_of};
ghost use Rattle.ll_seq.specs.declared.call.Call as call_of;
ghost use Rattle.ll_seq.specs.declared.call.Call.TheVariants as calls;
ghost use Rattle.ll_seq.specs.declared.client.ClientRecord as record_of;
ghost use Rattle.ll_seq.specs.declared.reply.Reply.{Reply};
ghost use Rattle.ll_seq.specs.Effects.{renamed, with_name};
ghost use Rattle.ll_seq.specs.CallParts.{after_opening, done};
ghost use Rattle.ll_seq.specs.Stages.{lowest_free};
ghost use Rattle.ll_seq.specs.State.{State};
ghost use Rattle.ll_seq.specs.Tree.{ancestors, named};
ghost use Rattle.ll_seq.specs.declared.found.Found as found_of;
ghost use Rattle.ll_seq.specs.Demanded.{chains, path_on};
ghost use Rattle.ll_seq.specs.Effect.{Fits, FitsRename, Holds, after, told, dentry_at};
ghost use Rattle.ll_seq.specs.Lean.{adds_nothing, is_lean, is_short, spares_memory};
ghost use Rattle.ll_seq.specs.Near.{AreNear, IsNear, changed_inodes, makes, may_make, told_inodes};
ghost use Rattle.ll_seq.specs.Passed.{IsFree, has_path};

use crate::changes::{Answer, At, Change, Effect, Opening, Rule};
use crate::found::Found;
use crate::{Call, ClientRecord, Mode};
use ll_decide::{Demands, Granted, On, least_denial};
use ll_path::Target;
use ll_rights::Right;

/// The number of the oldest layer that doesn't grant truncate on the path, or None.
fn kept(granted: &Granted<'_>) -> Option<u64>
    requires other { length granted.now.other.now ≡ length granted.now.itself.now }
    requires parent { length granted.now.parent.now ≡ length granted.now.itself.now }
    requires entered { length granted.now.entered.now ≡ length granted.now.itself.now }
    ensures { (s : State) (c : record_of.ClientRecord) (first second : Path)
        → AreGranted c.domain (λ on. ancestors s (path_on first second on)) granted.now
        → result ≡ kept_at s c.domain first }
{
    let demands = Demands::none().ask(On::Itself, Right::TRUNCATE);
    match least_denial(&demands, granted) {
        None => None,
        Some(denial) => Some(denial.layer),
    }
}

/// The caller's lowest free descriptor. There must be one.
fn free_descriptor(caller: &ClientRecord) -> u64
    ensures { result ≡ unwrap_or (lowest_free caller.now.descriptors) 0 }
{
    match caller.lowest_free() {
        Some(number) => number,
        None => 0,
    }
}

fn opening_of<'a>(
    caller: &ClientRecord,
    mode: Mode,
    target: &'a Target,
    found: &Found,
    granted: &Granted<'_>,
) -> Opening<'a>
    requires other { length granted.now.other.now ≡ length granted.now.itself.now }
    requires parent { length granted.now.parent.now ≡ length granted.now.itself.now }
    requires entered { length granted.now.entered.now ≡ length granted.now.itself.now }
    ensures done { (s : State) (n : ℕ) → IsFree s caller.now (calls.Open mode target.now) found.now
        → AreGranted caller.now.domain (chains s (calls.Open mode target.now)) granted.now
        → after_opening s n caller.now mode (path_of target.now) ≡ after s n caller.now (Change.Open result) }
    ensures fits { (s : State) → IsFree s caller.now (calls.Open mode target.now) found.now
        → Fits s caller.now (Change.Open result) }
    ensures directory { result.at.directory ≡ found.now.first.directory }
    ensures there { result.there ≡ option_map (λ there. there.inode) found.now.first.there }
{
    Opening {
        number: free_descriptor(caller),
        at: At::of(&found.first, target),
        there: found.first.named(),
        is_emptied: mode.truncate,
        reads: mode.access.reads(),
        writes: mode.access.writes(),
        kept: kept(granted),
    }
}

/// The change of a rename: none if both names name one node.
fn renaming<'a>(old: At<'a>, new: At<'a>, inode: u64, replaced: Option<u64>) -> Change<'a>
    ensures done { (s : State) (n : ℕ) (c : record_of.ClientRecord)
        → renamed s (dentry_at old.entry) (dentry_at new.entry) inode replaced ≡ after s n c result }
    ensures fits { (s : State) (c : record_of.ClientRecord) → FitsRename s old.entry new.entry inode replaced
        → Fits s c result }
    ensures near { (call : call_of.Call) (found : found_of.Found)
        → AreNear call found (old.entry.directory ∷ new.entry.directory ∷ option_to_list replaced)
        → AreNear call found (changed_inodes result) }
    ensures made { makes result ≡ false }
{
    match replaced {
        None => Change::Move(old, new, inode),
        Some(other) if inode == other => Change::Nothing,
        Some(other) => Change::Replace(old, new, inode, other),
    }
}

/// The change of an exchange: none if both names name one node.
fn exchanging<'a>(old: At<'a>, new: At<'a>, first: u64, second: u64) -> Change<'a>
    ensures done { (s : State) (n : ℕ) (c : record_of.ClientRecord) → Holds s old.entry first → Holds s new.entry second
        → with_name (with_name s (dentry_at new.entry) first) (dentry_at old.entry) second ≡ after s n c result }
    ensures fits { (s : State) (c : record_of.ClientRecord) → Holds s old.entry first → Holds s new.entry second
        → Fits s c result }
    ensures lean { adds_nothing result ≡ true }
    ensures near { (call : call_of.Call) (found : found_of.Found)
        → AreNear call found (old.entry.directory ∷ new.entry.directory ∷ [])
        → AreNear call found (changed_inodes result) }
    ensures made { makes result ≡ false }
{
    if first == second {
        Change::Nothing
    } else {
        Change::Exchange(old, new, first, second)
    }
}

fn change_of<'a>(
    caller: &ClientRecord,
    call: &'a Call,
    found: &Found,
    granted: &Granted<'_>,
) -> Change<'a>
    requires other { length granted.now.other.now ≡ length granted.now.itself.now }
    requires parent { length granted.now.parent.now ≡ length granted.now.itself.now }
    requires entered { length granted.now.entered.now ≡ length granted.now.itself.now }
    ensures done { (s : State) (n fresh : ℕ) → has_path call.now ≡ true → IsFree s caller.now call.now found.now
        → AreGranted caller.now.domain (chains s call.now) granted.now
        → (done s n caller.now call.now (first_path call.now) (second_path call.now) fresh).1
        ≡ after s n caller.now result }
    ensures fits { (s : State) → has_path call.now ≡ true → IsFree s caller.now call.now found.now
        → Fits s caller.now result }
    ensures lean { spares_memory call.now ≡ true → adds_nothing result ≡ true }
    ensures near { AreNear call.now found.now (changed_inodes result) }
    ensures made { makes result ≡ true → may_make call.now found.now ≡ true }
{
    let (old, new) = (&found.first, &found.second);
    match call {
        Call::Make(kind, target) => Change::Make(At::of(old, target), *kind),
        Call::Open(mode, target) => {
            Change::Open(opening_of(caller, *mode, target, found, granted))
        }
        Call::Truncate(_, size) => Change::Resize(old.inode(), *size),
        Call::Unlink(target) => Change::Take(At::of(old, target), old.inode()),
        Call::Rmdir(target) => Change::Take(At::of(old, target), old.inode()),
        Call::Rename(from, into) => renaming(
            At::of(old, from),
            At::of(new, into),
            old.inode(),
            new.named(),
        ),
        Call::RenameNoreplace(from, into) => {
            Change::Move(At::of(old, from), At::of(new, into), old.inode())
        }
        Call::Exchange(from, into) => exchanging(
            At::of(old, from),
            At::of(new, into),
            old.inode(),
            new.inode(),
        ),
        Call::Link(_, into) => Change::Name(At::of(new, into), old.inode()),
        Call::Allow(number, _, rights) => Change::Allow(Rule {
            number: *number,
            inode: old.inode(),
            kind: old.kind(),
            rights: *rights,
        }),
        Call::ReadDir(_) | Call::Stat(_) | Call::Exec(_) => Change::Nothing,
        Call::Read(..) | Call::Write(..) | Call::Ftruncate(..) | Call::Close(_) => Change::Nothing,
        Call::Ruleset(_) | Call::Confine(_) | Call::Spawn | Call::Connect => Change::Nothing,
    }
}

fn answer_of(caller: &ClientRecord, call: &Call, found: &Found) -> Answer
    ensures told { (s : State) (n fresh : ℕ) → has_path call.now ≡ true → IsFree s caller.now call.now found.now
        → (done s n caller.now call.now (first_path call.now) (second_path call.now) fresh).0 ≡ told s result }
    ensures short { spares_memory call.now ≡ true → is_short result ≡ true }
    ensures near { AreNear call.now found.now (told_inodes result) }
{
    let old = &found.first;
    match call {
        Call::Open(_, _) => Answer::Opened(free_descriptor(caller)),
        Call::Stat(_) => Answer::Status(old.inode(), old.kind()),
        Call::ReadDir(_) => Answer::Names(old.inode()),
        Call::Make(..) | Call::Truncate(..) | Call::Exec(_) | Call::Unlink(_) => Answer::Done,
        Call::Rmdir(_) | Call::Rename(..) | Call::RenameNoreplace(..) => Answer::Done,
        Call::Exchange(..) | Call::Link(..) | Call::Allow(..) => Answer::Done,
        Call::Read(..) | Call::Write(..) | Call::Ftruncate(..) | Call::Close(_) => Answer::Done,
        Call::Ruleset(_) | Call::Confine(_) | Call::Spawn | Call::Connect => Answer::Done,
    }
}

/// Returns the effect of a call that nothing refuses.
pub fn effect_of<'a>(
    caller: &ClientRecord,
    call: &'a Call,
    found: &Found,
    granted: &Granted<'_>,
) -> Effect<'a>
    requires other { length granted.now.other.now ≡ length granted.now.itself.now }
    requires parent { length granted.now.parent.now ≡ length granted.now.itself.now }
    requires entered { length granted.now.entered.now ≡ length granted.now.itself.now }
    ensures done { (s : State) (n fresh : ℕ) → has_path call.now ≡ true → IsFree s caller.now call.now found.now
        → AreGranted caller.now.domain (chains s call.now) granted.now
        → ◌≡◌ {A = Reply × State} (done s n caller.now call.now (first_path call.now) (second_path call.now) fresh)
        (told s result.answer, after s n caller.now result.change) }
    ensures fits { (s : State) → has_path call.now ≡ true → IsFree s caller.now call.now found.now
        → Fits s caller.now result.change }
    ensures lean { spares_memory call.now ≡ true → is_lean result ≡ true }
    ensures near { IsNear call.now found.now result }
{
    Effect {
        answer: answer_of(caller, call, found),
        change: change_of(caller, call, found, granted),
    }
}
