//! The results of calls, by the type of their answers.

ghost use Rattle.std.specs.Prelude.{◌≡◌, Bool, true, IfOk};
ghost use Rattle.ll_seq.specs.declared.reply.Reply.{Reply};
ghost use Rattle.ll_seq.specs.declared.reply.Reply.TheVariants as replies;
ghost use Rattle.ll_client.specs.Replies.{is_bytes, is_created, is_done, is_found, is_listed, is_opened, is_wrote};
ghost use Rattle.ll_calls.specs.Typed.{FitsMade, made_as};

use crate::refused::Refused;
use ll_journal::Made;
use ll_path::Data;
use ll_rights::Errno;
use ll_seq::{Listing, Reply, Status};

/// Returns the reply of a call that succeeded. Errors: why it did nothing.
#[inline(always)]
fn success(made: Made) -> Result<Reply, Refused>
    requires { (succeeds : Reply → Bool) × FitsMade succeeds made }
    ensures made { made_as (λ told. told) result ≡ made }
    ensures succeeds { (succeeds : Reply → Bool) → FitsMade succeeds made
        → IfOk result (λ told. succeeds told ≡ true) }
{
    match made {
        Made::Replied(Reply::Refused(errno)) => Err(Refused::Errno(errno)),
        Made::Replied(Reply::Denied(denial)) => Err(Refused::Denied(denial)),
        Made::Replied(told) => Ok(told),
        Made::HistoryFull => Err(Refused::Errno(Errno::HistoryFull)),
        Made::NoMemory => Err(Refused::Errno(Errno::NoMemory)),
    }
}

#[inline(always)]
pub(crate) fn done(made: Made) -> Result<(), Refused>
    requires { FitsMade is_done made }
    ensures { made_as (λ nothing. replies.Done) result ≡ made }
{
    match success(made)? {
        Reply::Done => Ok(()),
        _ => unreachable!(),
    }
}

#[inline(always)]
pub(crate) fn opened(made: Made) -> Result<u64, Refused>
    requires { FitsMade is_opened made }
    ensures { made_as replies.Opened result ≡ made }
{
    match success(made)? {
        Reply::Opened(number) => Ok(number),
        _ => unreachable!(),
    }
}

pub(crate) fn bytes(made: Made) -> Result<Data, Refused>
    requires { FitsMade is_bytes made }
    ensures { made_as replies.Bytes result ≡ made }
{
    match success(made)? {
        Reply::Bytes(data) => Ok(data),
        _ => unreachable!(),
    }
}

pub(crate) fn wrote(made: Made) -> Result<u64, Refused>
    requires { FitsMade is_wrote made }
    ensures { made_as replies.Wrote result ≡ made }
{
    match success(made)? {
        Reply::Wrote(count) => Ok(count),
        _ => unreachable!(),
    }
}

pub(crate) fn listed(made: Made) -> Result<Listing, Refused>
    requires { FitsMade is_listed made }
    ensures { made_as replies.Listed result ≡ made }
{
    match success(made)? {
        Reply::Listed(names) => Ok(names),
        _ => unreachable!(),
    }
}

#[inline(always)]
pub(crate) fn found(made: Made) -> Result<Status, Refused>
    requires { FitsMade is_found made }
    ensures { made_as replies.Found result ≡ made }
{
    match success(made)? {
        Reply::Found(status) => Ok(status),
        _ => unreachable!(),
    }
}

pub(crate) fn created(made: Made) -> Result<u64, Refused>
    requires { FitsMade is_created made }
    ensures { made_as replies.Created result ≡ made }
{
    match success(made)? {
        Reply::Created(number) => Ok(number),
        _ => unreachable!(),
    }
}
