//! Runs schedules and draws their pictures.

ghost use Rattle.std.specs.Prelude.{◌≡◌, ◌≤◌, ◌+◌, ◌^◌, ℕ, List, [], Err, OnOk, OnErr, IfErr, IfOk, IfSome};
ghost use Rattle.std.specs.Prelude.{None, Some, false, string_bytes, true};
ghost use Rattle.std.specs.Io.KnownBytes.{Appends};
ghost use Rattle.ll_picture.specs.Windows.{drawn_of};
ghost use Rattle.ll_wire.specs.Devices.{IsWhole};
ghost use Rattle.ll_wire.specs.Reached.{Blames};
ghost use Rattle.ll_wire.specs.Transcript.{Writes};
ghost use Rattle.ll_wire.specs.declared.fault.SessionFault.{SessionFault};
ghost use Rattle.ll_program.specs.Options.{scheduled_in};
ghost use Rattle.ll_picture.specs.Pictures.{IsPicture};
ghost use Rattle.ll_commands.specs.Schedules.{FailsSchedule, IsHalted, IsScheduleEnd, IsWorldSetup, RunsSchedule};
ghost use Rattle.ll_commands.specs.Schedules.{filmed_of, is_bad, window_of};
ghost use Rattle.ll_program.specs.declared.failure.Failure.{Failure};
ghost use Rattle.ll_program.specs.Failure.{failure_in_session, IsOfDevices, IsOfSaving};
ghost use Rattle.ll_steps.specs.Tells.{answer_line};
ghost use Rattle.ll_steps.specs.Told.{IsBegunAs, IsToldAs, lines_answered};
ghost use Rattle.ll_wire.specs.WriterGains.{AppendsFront};

use ll_picture::{Film, Window};
use ll_program::{Conclusion, Failure, ScheduleOptions, Stopped};
use ll_rights::{Abi, Errno};
use ll_seq::{Reply, Rules};
use ll_steps::{Halt, Report, ScheduleRun, Witness, WorldSetup, answer_text, run_schedule};
use ll_wire::{Destination, Ends, Pair, reply_line, write_out};
use std::alloc::{AllocError, Global};
use std::io::{Read, Write, empty};

/// Returns the tree that a schedule's options describe.
pub fn setup_by(options: &ScheduleOptions) -> WorldSetup
    ensures { IsWorldSetup (scheduled_in options.now) result }
{
    WorldSetup {
        rules: Rules {
            abi: options.level.unwrap_or(Abi::NEWEST),
            copies: true,
        },
        nodes: options.nodes,
        history: options.history,
    }
}

// The lines to draw, if the schedule is drawn.
fn window_by(options: &ScheduleOptions) -> Window
    ensures { result ≡ window_of (scheduled_in options.now) }
{
    Window {
        from: options.from.unwrap_or(1),
        to: options.to,
    }
}

/// Returns a film that records the lines to draw, if a picture is asked for, and the reasons, if they are wanted.
pub fn film_by(alloc: Global, options: &ScheduleOptions, gives_reasons: bool) -> Film
    ensures none { result.lines ≡ 0 }
    ensures window { result.window ≡ filmed_of (scheduled_in options.now) }
{
    let window = match options.picture {
        Some(_) => window_by(options),
        None => Window::NONE,
    };
    Film::new(alloc, window, gives_reasons)
}

/// Runs a schedule as `perform_schedule` does, over two devices that count their failures. The result names the device
/// that failed in this call.
pub fn perform_over<E: Ends, V: Witness>(
    alloc: Global,
    setup: WorldSetup,
    is_strict: bool,
    ends: &mut E,
    witness: V,
) -> Result<ScheduleRun<V>, Failure>
    requires whole { IsWhole (E.devices ends.old) }
    requires answered { (E.devices ends.old).owed ≡ 0 }
    requires reads { (E.devices ends.old).reads ≤ 2 ^ 62 }
    requires room { V.seen witness ≤ 2 ^ 62 }
    ensures transcript { IfOk result (λ it. IfSome (E.devices ends.old).remaining (λ input.
        Writes (E.devices ends.old).contents (E.devices ends.new).contents
        (λ text. IsToldAs is_strict setup input text it.halt))) }
    // If no line has ended it, everything is read.
    ensures all { IfOk result (λ it. it.halt ≡ None → IfSome (E.devices ends.old).remaining (λ input.
        (E.devices ends.new).remaining ≡ Some [])) }
    ensures lax { IfOk result (λ it. is_strict ≡ false → it.halt ≡ None) }
    ensures beginning { OnErr result (IfSome (E.devices ends.old).remaining (λ input.
        Writes (E.devices ends.old).contents (E.devices ends.new).contents (IsBegunAs is_strict setup input))) }
    ensures fault { IfErr result (λ failure. (fault : SessionFault)
        × Blames fault (E.devices ends.old) (E.devices ends.new) × (failure ≡ failure_in_session fault)) }
    ensures failure { IfErr result IsOfDevices }
    ensures same { E.names ends.new ≡ E.names ends.old }
    ensures seen { IfOk result (λ it. IfSome (E.devices ends.old).remaining (λ input.
        V.seen it.witness ≡ V.seen witness + lines_answered input it.halt)) }
    ensures goes { IfOk result (λ it. V.goes witness it.witness) }
{
    match run_schedule(alloc, setup, is_strict, ends, witness) {
        Ok(run) => Ok(run),
        Err(fault) => Err(Failure::of_session(fault)),
    }
}

/// Runs a schedule in a new tree. A strict one ends at the first line that isn't a step that was enabled and made.
/// Returns that line, if it ended so, and the witness, which has seen each line that was answered.
pub fn perform_schedule<R: Read, W: Write, V: Witness>(
    alloc: Global,
    setup: WorldSetup,
    is_strict: bool,
    schedule: &mut R,
    out: &mut W,
    witness: V,
) -> Result<ScheduleRun<V>, Failure>
    requires { V.seen witness ≤ 2 ^ 62 }
    ensures transcript { IfOk result (λ it. IfSome (R.remaining schedule.old) (λ input.
        Writes (W.contents out.old) (W.contents out.new) (λ text. IsToldAs is_strict setup input text it.halt))) }
    ensures all { IfOk result (λ it. it.halt ≡ None → IfSome (R.remaining schedule.old) (λ input.
        R.remaining schedule.new ≡ Some [])) }
    ensures lax { IfOk result (λ it. is_strict ≡ false → it.halt ≡ None) }
    ensures beginning { OnErr result (IfSome (R.remaining schedule.old) (λ input.
        Writes (W.contents out.old) (W.contents out.new) (IsBegunAs is_strict setup input))) }
    ensures failure { IfErr result IsOfDevices }
    ensures seen { IfOk result (λ it. IfSome (R.remaining schedule.old) (λ input.
        V.seen it.witness ≡ V.seen witness + lines_answered input it.halt)) }
    ensures goes { IfOk result (λ it. V.goes witness it.witness) }
{
    let mut ends = Pair::new(schedule, out, true);
    perform_over(alloc, setup, is_strict, &mut ends, witness)
}

/// Runs the schedule in this file in the world that the options describe, strictly if they say so, and writes its
/// lines. Returns the line that ended it early, if any, and the witness, which has seen each line that was answered.
pub fn schedule<R: Read, W: Write, V: Witness>(
    alloc: Global,
    options: &ScheduleOptions,
    file: &mut R,
    out: &mut W,
    witness: V,
) -> Result<ScheduleRun<V>, Failure>
    requires { V.seen witness ≤ 2 ^ 62 }
    ensures told { IfOk result (λ it. RunsSchedule (scheduled_in options.now) (R.remaining file.old)
        (W.contents out.old) (W.contents out.new) it.halt) }
    ensures failure { IfErr result (FailsSchedule (scheduled_in options.now) (R.remaining file.old)
        (W.contents out.old) (W.contents out.new)) }
    ensures seen { IfOk result (λ it. IfSome (R.remaining file.old) (λ input.
        V.seen it.witness ≡ V.seen witness + lines_answered input it.halt)) }
    ensures goes { IfOk result (λ it. V.goes witness it.witness) }
{
    perform_schedule(alloc, setup_by(options), options.strict, file, out, witness)
}

// Reports whether a line with this outcome spells no step.
fn is_bad(answer: Result<Report, Errno>) -> bool
    ensures { result ≡ is_bad answer }
{
    match answer {
        Err(Errno::BadLine) => true,
        _ => false,
    }
}

// Returns the line for an outcome that isn't in the history.
fn halt_text(alloc: Global, answer: Result<Report, Errno>) -> Result<String, AllocError>
    ensures { IfOk result (λ text. string_bytes text ≡ answer_line [] answer) }
{
    match answer {
        Ok(report) => answer_text(alloc, &[], Ok(report)),
        Err(errno) => reply_line(alloc, &Reply::Refused(errno)),
    }
}

// Returns what is known of a schedule in this file that this line ended.
fn halted(alloc: Global, file: &str, halt: Halt) -> Result<Stopped, AllocError>
    ensures { IfOk result (IsHalted file.now halt) }
{
    let text = halt_text(alloc, halt.answer)?;
    let is_bad = is_bad(halt.answer);
    Stopped::at(alloc, file, halt.line, text.as_str(), is_bad)
}

/// Returns what the program concludes from the line that ended the schedule in this file, if one did. Errors: memory
/// ran out.
pub fn conclude_schedule(
    alloc: Global,
    file: &str,
    halt: Option<Halt>,
) -> Result<Conclusion, Failure>
    ensures end { IfOk result (IsScheduleEnd file.now halt) }
    ensures failure { IfErr result (λ failure. failure ≡ Failure.NoMemory) }
{
    let Some(halt) = halt else {
        return Ok(Conclusion::Done);
    };
    match halted(alloc, file, halt) {
        Ok(stopped) => Ok(Conclusion::Stopped(stopped)),
        Err(_) => Err(Failure::NoMemory),
    }
}

/// Draws a schedule as `draw_schedule` does, to a device that counts its failures. Doesn't retry after a failed write.
pub fn draw_over<E: Ends>(film: &Film, ends: &mut E) -> Result<(), Failure>
    requires { (E.devices ends.old).is_output_broken ≡ false }
    ensures drawn { OnOk result ((text : List ℕ) × IsPicture (drawn_of film.now.window film.now.lines) text
        × Appends (E.devices ends.old).contents (E.devices ends.new).contents text) }
    ensures file { result ≡ Err Failure.File → (text : List ℕ)
        × IsPicture (drawn_of film.now.window film.now.lines) text
        × AppendsFront (E.devices ends.old).contents (E.devices ends.new).contents text }
    ensures broken { result ≡ Err Failure.File → (E.devices ends.new).is_output_broken ≡ true }
    ensures memory { result ≡ Err Failure.NoMemory → E.devices ends.new ≡ E.devices ends.old }
    ensures failure { IfErr result IsOfSaving }
    ensures same { E.names ends.new ≡ E.names ends.old }
{
    let Ok(picture) = film.picture() else {
        return Err(Failure::NoMemory);
    };
    match write_out(ends, picture.as_str().as_bytes()) {
        Ok(()) => Ok(()),
        Err(_) => Err(Failure::File),
    }
}

/// Draws a schedule that was filmed. If memory runs out, nothing is written.
pub fn draw_schedule<W: Write>(film: &Film, file: &mut W) -> Result<(), Failure>
    ensures drawn { OnOk result ((text : List ℕ) × IsPicture (drawn_of film.now.window film.now.lines) text
        × Appends (W.contents file.old) (W.contents file.new) text) }
    ensures file { result ≡ Err Failure.File → (text : List ℕ)
        × IsPicture (drawn_of film.now.window film.now.lines) text
        × AppendsFront (W.contents file.old) (W.contents file.new) text }
    ensures memory { result ≡ Err Failure.NoMemory → W.contents file.new ≡ W.contents file.old }
    ensures failure { IfErr result IsOfSaving }
{
    let mut nothing = empty();
    let mut ends = Pair::new(&mut nothing, file, false);
    draw_over(film, &mut ends)
}

/// Draws a schedule that was filmed, and replaces the destination with the picture. Errors: the destination is
/// unchanged.
pub fn draw_in<D: Destination>(film: &Film, destination: &mut D) -> Result<(), Failure>
    ensures drawn { OnOk result ((text : List ℕ) × IsPicture (drawn_of film.now.window film.now.lines) text
        × Appends (D.blank destination.old) (D.contents destination.new) text) }
    ensures kept { OnErr result (D.contents destination.new ≡ D.contents destination.old) }
    ensures failure { IfErr result IsOfSaving }
{
    let Ok(mut draft) = destination.draft() else {
        return Err(Failure::File);
    };
    if let Err(failure) = draw_schedule(film, &mut draft) {
        destination.remove(draft);
        return Err(failure);
    }
    destination.put(draft).map_err(|_| Failure::File)
}

/// A schedule that was run: the line that ended it early, which only a strict one has, and whether its picture was
/// saved.
#[derive(Drop)]
pub struct Drawn {
    pub halt: Option<Halt>,
    pub film: Film,
    pub saved: Result<(), Failure>,
}

/// Runs the schedule in this file as `schedule` does, and replaces the destination with its picture. The picture shows
/// the lines that were answered. Errors: the destination is unchanged.
pub fn schedule_drawn<R: Read, W: Write, D: Destination>(
    alloc: Global,
    options: &ScheduleOptions,
    file: &mut R,
    out: &mut W,
    film: Film,
    destination: &mut D,
) -> Result<Drawn, Failure>
    requires new { film.lines ≡ 0 }
    ensures told { IfOk result (λ it. RunsSchedule (scheduled_in options.now) (R.remaining file.old)
        (W.contents out.old) (W.contents out.new) it.halt) }
    ensures failure { IfErr result (FailsSchedule (scheduled_in options.now) (R.remaining file.old)
        (W.contents out.old) (W.contents out.new)) }
    ensures same { OnErr result (D.contents destination.new ≡ D.contents destination.old) }
    // Each line within the film's window is drawn, if it was answered.
    ensures drawn { IfOk result (λ it. IfSome (R.remaining file.old) (λ input. OnOk it.saved ((text : List ℕ)
        × IsPicture (drawn_of film.window (lines_answered input it.halt)) text
        × Appends (D.blank destination.old) (D.contents destination.new) text))) }
    ensures kept { IfOk result (λ it. OnErr it.saved (D.contents destination.new ≡ D.contents destination.old)) }
    ensures saving { IfOk result (λ it. IfErr it.saved IsOfSaving) }
{
    match schedule(alloc, options, file, out, film) {
        Ok(made) => {
            let saved = draw_in(&made.witness, destination);
            Ok(Drawn {
                halt: made.halt,
                film: made.witness,
                saved,
            })
        }
        Err(failure) => Err(failure),
    }
}
