//! Runs schedules.

ghost use Rattle.std.specs.Prelude.{◌≡◌, ◌≤◌, ◌+◌, ◌^◌, ℕ, List, [], length, IfErr, IfOk, IfSome, OnErr, false};
ghost use Rattle.std.specs.Prelude.{OnOk, Option, Some, None, Err};
ghost use Rattle.ll_wire.specs.declared.fault.SessionFault.{SessionFault};
ghost use Rattle.ll_wire.specs.Devices.{IsWhole};
ghost use Rattle.ll_wire.specs.Reached.{Blames};
ghost use Rattle.ll_wire.specs.Transcript.{Writes, most_reads};
ghost use Rattle.ll_steps.specs.Told.{IsBegunAs, IsToldAs, lines_answered};

use crate::schedule::{Schedule, ScheduleRun};
use crate::setup::WorldSetup;
use crate::witness::Witness;
use ll_wire::{Ends, SessionFault, answer_lines};
use std::alloc::Global;

/// Reads a schedule to its end and does what each line asks for, in a tree of its own. Writes one line for each, and at
/// the end the number of entries in the history. A strict schedule ends at the first line that isn't a step that was
/// enabled and made: that line's outcome is the last thing written. Writes the lines for everything read so far before
/// each further read. Doesn't use a device again after it failed. Errors: the first fault; what was written is then a
/// prefix of that text. The witness has seen each line that was answered.
pub fn run_schedule<E: Ends, W: Witness>(
    alloc: Global,
    setup: WorldSetup,
    is_strict: bool,
    ends: &mut E,
    witness: W,
) -> Result<ScheduleRun<W>, SessionFault>
    requires whole { IsWhole (E.devices ends.old) }
    requires answered { (E.devices ends.old).owed ≡ 0 }
    requires reads { (E.devices ends.old).reads ≤ 2 ^ 62 }
    requires room { W.seen witness ≤ 2 ^ 62 }
    ensures transcript { IfOk result (λ it. IfSome (E.devices ends.old).remaining (λ input.
        Writes (E.devices ends.old).contents (E.devices ends.new).contents
        (λ text. IsToldAs is_strict setup input text it.halt))) }
    // If no line has ended it, everything is read.
    ensures all { IfOk result (λ it. it.halt ≡ None → IfSome (E.devices ends.old).remaining (λ input.
        (E.devices ends.new).remaining ≡ Some [])) }
    ensures lax { IfOk result (λ it. is_strict ≡ false → it.halt ≡ None) }
    ensures whole { OnOk result (IsWhole (E.devices ends.new)) }
    // After a fault, what was written is a prefix of that text.
    ensures beginning { OnErr result (IfSome (E.devices ends.old).remaining (λ input.
        Writes (E.devices ends.old).contents (E.devices ends.new).contents (IsBegunAs is_strict setup input))) }
    // A fault names a device only if it failed in this call, and none if memory ran out.
    ensures fault { IfErr result (λ fault. Blames fault (E.devices ends.old) (E.devices ends.new)) }
    // Each read returns at least one byte.
    ensures long { result ≡ Err SessionFault.TooLong
        → (input : List ℕ) → (E.devices ends.old).remaining ≡ Some input → most_reads ≤ length input }
    ensures same { E.names ends.new ≡ E.names ends.old }
    // The witness has seen each line that was answered.
    ensures seen { IfOk result (λ it. IfSome (E.devices ends.old).remaining (λ input.
        W.seen it.witness ≡ W.seen witness + lines_answered input it.halt)) }
    ensures goes { IfOk result (λ it. W.goes witness it.witness) }
{
    let Ok(mut schedule) = Schedule::open(alloc, setup, is_strict, witness) else {
        return Err(SessionFault::NoMemory);
    };
    answer_lines(alloc, ends, &mut schedule)?;
    match schedule.finish(ends) {
        Ok(()) => Ok(schedule.into_run()),
        Err(fault) => Err(fault),
    }
}
