//! Makes tests.

ghost use Rattle.std.specs.Prelude.{◌≡◌, ◌⊎◌, All, map, IfErr, IfOk};
ghost use Rattle.std.specs.List.{list_any};
ghost use Rattle.ll_session.specs.CallsRun.{Makes};
ghost use Rattle.ll_session.specs.Run.{MayEnd};
ghost use Rattle.ll_session.specs.declared.refusal.Refusal.{Refusal};
ghost use Rattle.ll_wire.specs.Entries.{IsEntry};
ghost use Rattle.ll_check.specs.Lessons.{is_no_memory, ran_out};

use crate::check_text::Test;
use crate::runner::Runner;
use ll_program::Failure;
use ll_rights::Errno;
use ll_seq::{History, Reply};
use ll_session::{CallReplies, ClientCall, RunFault, Setup};
use ll_wire::SessionFault;
use std::alloc::{AllocError, Global};

// Returns the calls of the tests.
fn calls_of(alloc: Global, tests: &[Test]) -> Result<Vec<ClientCall>, AllocError>
    ensures { IfOk result (λ calls. calls.items ≡ map (λ test. test.call) tests.now) }
{
    let mut calls = Vec::with_capacity(alloc, tests.len())?;
    for test in tests {
        calls.push_reserved(test.call.copy(alloc)?);
    }
    Ok(calls)
}

// Returns the calls of the lessons.
fn calls_of_lessons(alloc: Global, lessons: &[&Test]) -> Result<Vec<ClientCall>, AllocError>
    ensures { IfOk result (λ calls. calls.items ≡ map (λ test. test.call) (map (λ t. t.now) lessons.now)) }
{
    let mut calls = Vec::with_capacity(alloc, lessons.len())?;
    for lesson in lessons {
        calls.push_reserved(lesson.call.copy(alloc)?);
    }
    Ok(calls)
}

/// Makes the calls of a file's tests in a tree of its own. Returns the replies and the tree's history. Errors: a fault
/// of the run, or memory ran out.
pub fn make<R: Runner>(
    runner: &R,
    alloc: Global,
    setup: Setup,
    tests: &[Test],
) -> Result<(CallReplies, History), RunFault>
    ensures made { IfOk result (λ done.
        Makes setup (map (λ test. test.call) tests.now) done.0 done.1.entries) }
    ensures entries { IfOk result (λ done. All IsEntry done.1.entries) }
    ensures fault { IfErr result (λ fault. MayEnd setup fault) }
{
    match calls_of(alloc, tests) {
        Ok(calls) => runner.run(alloc, setup, calls),
        Err(_) => Err(RunFault::Session(SessionFault::NoMemory)),
    }
}

/// Makes the calls of a file's lessons in a tree of its own. Returns the replies and the tree's history.
pub(crate) fn make_lessons<R: Runner>(
    runner: &R,
    alloc: Global,
    setup: Setup,
    lessons: &[&Test],
) -> Result<(CallReplies, History), RunFault>
    ensures made { IfOk result (λ done.
        Makes setup (map (λ test. test.call) (map (λ t. t.now) lessons.now)) done.0 done.1.entries) }
    ensures fault { IfErr result (λ fault. MayEnd setup fault) }
{
    match calls_of_lessons(alloc, lessons) {
        Ok(calls) => runner.run(alloc, setup, calls),
        Err(_) => Err(RunFault::Session(SessionFault::NoMemory)),
    }
}

/// Returns the failure for a fault of such a run, which reads and writes no file.
pub(crate) fn failure_of(fault: RunFault) -> Failure
    ensures cases { ((refusal : Refusal) × (result ≡ Failure.Opening refusal) × (fault ≡ RunFault.Opening refusal))
        ⊎ (result ≡ Failure.NoMemory) }
    ensures opening { (refusal : Refusal) → fault ≡ RunFault.Opening refusal → result ≡ Failure.Opening refusal }
{
    match fault {
        RunFault::Opening(refusal) => Failure::Opening(refusal),
        RunFault::Session(_) => Failure::NoMemory,
    }
}

fn is_no_memory(reply: &Reply) -> bool
    ensures { result ≡ is_no_memory reply.now }
{
    matches!(reply, Reply::Refused(Errno::NoMemory))
}

fn have_no_memory(replies: &[Reply]) -> bool
    ensures { result ≡ list_any is_no_memory replies.now }
{
    replies.iter().any(|reply| is_no_memory(reply))
}

/// Reports whether memory ran out for a call.
pub(crate) fn ran_out(made: &CallReplies) -> bool
    ensures { result ≡ ran_out made.now }
{
    match made {
        CallReplies::Answered(replies) => have_no_memory(replies.as_slice()),
        CallReplies::Refused(refusal) => is_no_memory(&refusal.reply),
    }
}
