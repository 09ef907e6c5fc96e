//! What a command may be answered, whatever the tree.

ghost use Rattle.std.specs.Prelude.{◌≡◌, ◌↔◌, IsTrue};
ghost use Rattle.ll_seq.specs.declared.call.Call as call_of;
ghost use Rattle.ll_check.specs.declared.wanted.Wanted as wanted_of;
ghost use Rattle.ll_check.specs.Possible.{AnswersFit, CanCome, MayBeDenied, MayBeRefused, MayBegin, MayGet, MayRefuse};
ghost use Rattle.ll_check.specs.Possible.{NeverComes};
ghost use Rattle.ll_check.specs.Possible.{form_begun, form_of, has_two_paths, is_asked, is_asked_old, is_deniable};
ghost use Rattle.ll_check.specs.Possible.{may_deny, may_deny_right, may_open, success_of};

use crate::wanted::Wanted;
use ll_decide::Place;
use ll_rights::{Errno, Right};
use ll_seq::{Call, Mode, Reply};
use ll_wire::{DenialWords, FirstWords, RefusalWords};

// Reports whether an opening like this may ask for the right.
fn may_open(mode: Mode, right: Right) -> bool
    ensures { result ≡ may_open mode right }
{
    (right == Right::MAKE_REG && mode.creation.creates())
        || (right == Right::READ_FILE && mode.access.reads())
        || (right == Right::WRITE_FILE && mode.access.writes())
        || (right == Right::TRUNCATE && mode.truncate)
}

// Reports whether a layer may deny this right on a call's only path.
fn is_asked(call: &Call, right: Right) -> bool
    ensures { result ≡ is_asked call.now right }
{
    match call {
        Call::Make(kind, _) => right == kind.make_right(),
        Call::Open(mode, _) => may_open(*mode, right),
        Call::Ftruncate(_, _) | Call::Truncate(_, _) => right == Right::TRUNCATE,
        Call::ReadDir(_) => right == Right::READ_DIR,
        Call::Exec(_) => right == Right::EXECUTE || right == Right::READ_FILE,
        Call::Unlink(_) => right == Right::REMOVE_FILE,
        Call::Rmdir(_) => right == Right::REMOVE_DIR,
        _ => false,
    }
}

// Reports whether a layer may deny this right at the old one of two paths.
fn is_asked_old(call: &Call, right: Right) -> bool
    ensures { result ≡ is_asked_old call.now right }
{
    match call {
        Call::Rename(_, _) | Call::RenameNoreplace(_, _) => {
            right == Right::REMOVE_FILE || right == Right::REMOVE_DIR || right == Right::REFER
        }
        Call::Exchange(_, _) => true,
        Call::Link(_, _) => right == Right::REFER,
        _ => false,
    }
}

fn has_two_paths(call: &Call) -> bool
    ensures { result ≡ has_two_paths call.now }
{
    matches!(
        call,
        Call::Rename(..) | Call::RenameNoreplace(..) | Call::Exchange(..) | Call::Link(..)
    )
}

// Reports whether a layer may deny the command this right at this place.
fn may_deny(call: &Call, right: Right, place: Place) -> bool
    ensures { result ≡ may_deny call.now right place }
{
    match place {
        Place::At => is_asked(call, right),
        Place::Old => is_asked_old(call, right),
        Place::New => has_two_paths(call),
    }
}

// Reports whether a layer may deny the command this right at some place.
fn may_deny_right(call: &Call, right: Right) -> bool
    ensures { result ≡ may_deny_right call.now right }
{
    is_asked(call, right) || is_asked_old(call, right) || has_two_paths(call)
}

// Reports whether layers have a say in the command.
fn is_deniable(call: &Call) -> bool
    ensures { result ≡ is_deniable call.now }
{
    !matches!(
        call,
        Call::Read(..)
            | Call::Write(..)
            | Call::Close(_)
            | Call::Stat(_)
            | Call::Ruleset(_)
            | Call::Allow(..)
            | Call::Confine(_)
            | Call::Spawn
            | Call::Connect
    )
}

/// The forms of replies, by their first words.
#[derive(Clone, Copy, Debug, PartialEq, Eq)]
pub(crate) enum Form {
    Done,
    Opened,
    Bytes,
    Wrote,
    Listed,
    Found,
    Created,
    Spawned,
    Refused,
    Denied,
}

// Returns the form of the command's reply if nothing is in its way.
fn success_of(call: &Call) -> Form
    ensures { result ≡ success_of call.now }
{
    match call {
        Call::Open(_, _) => Form::Opened,
        Call::Read(_, _, _) => Form::Bytes,
        Call::Write(_, _, _) => Form::Wrote,
        Call::ReadDir(_) => Form::Listed,
        Call::Stat(_) => Form::Found,
        Call::Ruleset(_) => Form::Created,
        Call::Spawn => Form::Spawned,
        _ => Form::Done,
    }
}

fn form_of(reply: &Reply) -> Form
    ensures { result ≡ form_of reply.now }
{
    match reply {
        Reply::Done => Form::Done,
        Reply::Opened(_) => Form::Opened,
        Reply::Bytes(_) => Form::Bytes,
        Reply::Wrote(_) => Form::Wrote,
        Reply::Listed(_) => Form::Listed,
        Reply::Found(_) => Form::Found,
        Reply::Created(_) => Form::Created,
        Reply::Spawned(_) => Form::Spawned,
        Reply::Refused(_) => Form::Refused,
        Reply::Denied(_) => Form::Denied,
    }
}

fn form_begun(words: &FirstWords) -> Form
    ensures { result ≡ form_begun words.now }
{
    match words {
        FirstWords::Done => Form::Done,
        FirstWords::Opened(_) => Form::Opened,
        FirstWords::Bytes(_) => Form::Bytes,
        FirstWords::Wrote(_) => Form::Wrote,
        FirstWords::Listed(_) => Form::Listed,
        FirstWords::Found(_) => Form::Found,
        FirstWords::Created(_) => Form::Created,
        FirstWords::Spawned(_) => Form::Spawned,
        FirstWords::Refused(_) => Form::Refused,
        FirstWords::Denied(_) => Form::Denied,
    }
}

// Reports whether a test may expect a refusal with this number.
fn may_refuse(number: u64) -> bool
    ensures { IsTrue result ↔ MayRefuse number }
{
    (3 <= number && number <= 20) || number == Errno::BadLine.number()
}

// Reports whether a line with the command may get this reply.
fn may_get(call: &Call, reply: &Reply) -> bool
    ensures { IsTrue result ↔ MayGet call.now reply.now }
{
    match reply {
        Reply::Refused(errno) => may_refuse(errno.number()),
        Reply::Denied(denial) => may_deny(call, denial.right, denial.place),
        given => success_of(call) == form_of(given),
    }
}

// Reports whether a denial of the command may begin so.
fn may_be_denied(call: &Call, words: &DenialWords) -> bool
    ensures { IsTrue result ↔ MayBeDenied call.now words.now }
{
    match words {
        DenialWords::Right(_, _, right) => may_deny_right(call, *right),
        DenialWords::Whole(denial) => may_deny(call, denial.right, denial.place),
        _ => is_deniable(call),
    }
}

// Reports whether a refusal that a test may expect may begin so.
fn may_be_refused(words: RefusalWords) -> bool
    ensures { IsTrue result ↔ MayBeRefused words }
{
    match words {
        RefusalWords::Nothing => true,
        RefusalWords::Number(number) => may_refuse(number),
        RefusalWords::Whole(errno) => may_refuse(errno.number()),
    }
}

// Reports whether a reply to the command may begin so.
fn may_begin(call: &Call, words: &FirstWords) -> bool
    ensures { IsTrue result ↔ MayBegin call.now words.now }
{
    match words {
        FirstWords::Refused(words) => may_be_refused(*words),
        FirstWords::Denied(denial) => may_be_denied(call, denial),
        given => success_of(call) == form_begun(given),
    }
}

/// Reports whether a reply to the command may be as expected.
pub(crate) fn can_come(call: &Call, wanted: &Wanted) -> bool
    ensures { IsTrue result ↔ CanCome call.now wanted.now }
{
    match wanted {
        Wanted::Success | Wanted::Allowed => true,
        Wanted::Denied => is_deniable(call),
        Wanted::DeniedRight(right) => may_deny_right(call, *right),
        Wanted::DeniedAt(right, place) => may_deny(call, *right, *place),
        Wanted::Whole(reply) => may_get(call, reply),
        Wanted::First(words) => may_begin(call, words),
    }
}

/// Every tree gives a command a reply that it may get, so no tree gives it one that can't come.
pub fn answers_fit()
    ensures fit { AnswersFit }
    ensures never { (call : call_of.Call) (wanted : wanted_of.Wanted) → (CanCome call wanted → ⊥)
        → NeverComes call wanted }
{}
