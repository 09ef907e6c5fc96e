//! What each command does, with the files that its words name.

ghost use Rattle.std.specs.Prelude.{◌≡◌, ℕ, true, false, List, Option, None, Some, Err, IfErr, IfOk, IfSome};
ghost use Rattle.std.specs.Prelude.{OnOk, option_map};
ghost use Rattle.std.specs.Io.KnownBytes.{Appends};
ghost use Rattle.ll_program.specs.Sources.{named, text_in};
ghost use Rattle.ll_program.specs.Options.{asked_by, fits, fits_schedule, fits_why};
ghost use Rattle.ll_program.specs.Options.{fits_serve, order_in, scheduled_in, served_in, why_in};
ghost use Rattle.ll_program.specs.Failure.{EndsAudit, FailsAudit};
ghost use Rattle.ll_program.specs.Policy.{EndsRun, IsRun, MayFail};
ghost use Rattle.ll_commands.specs.Why.{EndsWhy, file_asked};
ghost use Rattle.ll_commands.specs.Schedules.{EndsSchedule};
ghost use Rattle.ll_commands.specs.Service as serving;
ghost use Rattle.ll_commands.specs.Service.{EndsServe, IsDone};
ghost use Rattle.ll_audit.specs.Saved.{Judges, verdict_line};
ghost use Rattle.ll_wire.specs.Pieces.{pieces};

use crate::hints::Hints;
use crate::misfits::Misfit;
use ll_audit::Verdict;
use ll_commands::{
    Binds, Drawn, Film, Log, conclude_schedule, film_by, schedule, schedule_drawn, serve, tell_why,
};
use ll_program::{
    Clash, Conclusion, Device, Failure, NewFile, Purpose, Question, Ran, RunOptions,
    ScheduleOptions, ServeOptions, Shown, Sources, WhyOptions, audit, named, run,
};
use ll_wire::Destination;
use std::alloc::Global;
use std::io::{IsTerminal, Read, Write};
use std::sync::Wait;
use std::thread::Threads;

// Returns the file with this name for a history, if one is named.
fn history_file<'a>(rt: &'a HostRuntime, name: Option<&'a str>, is_telling: bool) -> NewFile<'a> {
    NewFile::new(rt, name.unwrap_or(""), "history", is_telling)
}

// The program's output, which a command writes while it runs.
const OUTPUT: Purpose<'static> = Purpose {
    what: "output",
    device: Device::StandardOutput,
};

// Where a command writes faults, hints and a log.
const MESSAGES: Purpose<'static> = Purpose {
    what: "stream of messages",
    device: Device::StandardError,
};

fn policy_of<'a>(name: Option<&'a str>) -> Option<Purpose<'a>> {
    let device = Device::File(name?);
    Some(Purpose {
        what: "policy",
        device,
    })
}

// Runs the script over these devices.
fn run_over<H: Wait, P: Read, R: Read, W: Write, F: Destination>(
    rt: &H,
    alloc: Global,
    options: &RunOptions,
    policy: &mut P,
    script: &mut R,
    out: &mut W,
    file: &mut F,
) -> Result<Ran, Failure>
    ensures done { IfOk result (λ ran. (text : List ℕ) × (script' blank file file' : Option (List ℕ))
        × IfSome (P.remaining policy.old) (λ told. text ≡ told)
        × IsRun (order_in options.now) text ran.conclusion (R.remaining script.old) script'
        (W.contents out.old) (W.contents out.new) blank file file') }
    ensures failure { IfErr result (λ failure. (text : List ℕ) × (script' : Option (List ℕ))
        × IfSome (P.remaining policy.old) (λ told. text ≡ told)
        × MayFail (order_in options.now) text (R.remaining script.old) script'
        (W.contents out.old) (W.contents out.new) failure) }
{
    run(rt, alloc, options, policy, script, out, file)
}

// Sets up the run, runs the script, and saves the history, if a file is named.
fn run_script<S: Sources + Wait, W: Write>(
    rt: &HostRuntime,
    sources: &S,
    options: &RunOptions,
    out: &mut W,
    hints: &mut Hints,
) -> Result<Conclusion, Failure>
    ensures { EndsRun (S.texts sources.now) (order_in options.now) (W.contents out.old) (W.contents out.new) result }
{
    let mut policy = hints.source(rt.alloc(), sources, Some(options.tree.policy.unwrap_or("")));
    let mut script = hints.source(rt.alloc(), sources, named(options.script));
    let mut file = history_file(rt, options.save, hints.are_wanted());
    let ended = run_over(
        sources,
        rt.alloc(),
        options,
        &mut policy,
        &mut script,
        out,
        &mut file,
    );
    hints.of_input("policy", &policy);
    hints.of_input("script", &script);
    if script.trouble().is_some() && !script.is_open() {
        file.remove_record();
    }
    hints.of_output(&file);
    hints.of_run(options, &ended, &policy, &script);
    match ended {
        Ok(ran) => Ok(ran.conclusion),
        Err(failure) => Err(failure),
    }
}

// Runs `run`.
pub fn run_options<S: Sources + Wait, W: Write>(
    rt: &HostRuntime,
    sources: &S,
    options: &RunOptions,
    out: &mut W,
    hints: &mut Hints,
) -> Result<Conclusion, Failure>
    ensures unfit { fits (order_in options.now) ≡ false
        → (result ≡ Err Failure.CommandLine) × (W.contents out.new ≡ W.contents out.old) }
    ensures run { fits (order_in options.now) ≡ true
        → EndsRun (S.texts sources.now) (order_in options.now) (W.contents out.old) (W.contents out.new) result }
{
    if !options.fit() {
        hints.of_misfit(Misfit::of_run(options));
        return Err(Failure::CommandLine);
    }
    let script = Purpose {
        what: "script",
        device: Device::input(named(options.script)),
    };
    let policy = policy_of(options.tree.policy);
    let used = [Some(script), policy, Some(OUTPUT), Some(MESSAGES)];
    if let Some(clash) = Clash::find(rt, "history", options.save, &used) {
        hints.add(&clash);
        return Err(Failure::File);
    }
    run_script(rt, sources, options, out, hints)
}

// Judges the history in the file with this name.
fn judge_file<S: Sources, W: Write>(
    rt: &HostRuntime,
    sources: &S,
    file: &str,
    out: &mut W,
    hints: &mut Hints,
) -> Result<Verdict, Failure>
    ensures verdict { IfOk result (λ verdict. IfSome (S.texts sources.now (named file.now))
        (λ bytes. Judges (pieces bytes) verdict)) }
    ensures answer { IfOk result (λ verdict. Appends (W.contents out.old) (W.contents out.new) (verdict_line verdict)) }
    ensures failure { IfErr result
        (FailsAudit (S.texts sources.now (named file.now)) (W.contents out.old) (W.contents out.new)) }
{
    let mut input = hints.source(rt.alloc(), sources, named(file));
    let mut shown = Shown::new(rt.stderr(), rt.stderr().is_terminal());
    let judged = audit(rt.alloc(), &mut input, out, &mut shown);
    hints.of_input("history", &input);
    if let Ok(verdict) = &judged
        && let Some(text) = input.text()
    {
        hints.of_verdict(file, text, *verdict);
    }
    judged
}

// Runs `audit` on the file with this name.
pub fn audit_file<S: Sources, W: Write>(
    rt: &HostRuntime,
    sources: &S,
    file: &str,
    out: &mut W,
    hints: &mut Hints,
) -> Result<Conclusion, Failure>
    ensures { EndsAudit (S.texts sources.now (named file.now)) (W.contents out.old) (W.contents out.new) result }
{
    let verdict = judge_file(rt, sources, file, out, hints)?;
    Ok(Conclusion::Judged(verdict))
}

// Adds hints on why steps of a schedule couldn't be made, and which walks are under way at its end.
fn hint_at_steps(film: &Film, hints: &mut Hints) {
    if let Some(reasons) = film.reasons() {
        hints.add(&reasons);
    }
}

// Adds that a picture shows no line, since its first would come behind the schedule's last.
fn hint_at_picture(alloc: Global, film: &Film, hints: &mut Hints) {
    let (from, lines) = (film.window.from, film.lines);
    if from > lines
        && let Ok(told) = format!(in alloc;
            "the picture is empty: it begins at line {from} of {lines}"
        )
    {
        hints.add(&told);
    }
}

// Runs the schedule in this input, and adds hints.
fn perform_told<R: Read, W: Write>(
    rt: &HostRuntime,
    options: &ScheduleOptions,
    input: &mut R,
    out: &mut W,
    hints: &mut Hints,
) -> Result<Conclusion, Failure>
    ensures { EndsSchedule (R.remaining input.old) (scheduled_in options.now)
        (W.contents out.old) (W.contents out.new) result }
{
    let film = film_by(rt.alloc(), options, hints.are_wanted());
    match schedule(rt.alloc(), options, input, out, film) {
        Ok(made) => {
            hint_at_steps(&made.witness, hints);
            conclude_schedule(rt.alloc(), options.file, made.halt)
        }
        Err(failure) => Err(failure),
    }
}

// Runs the schedule in this input, draws it into the file with this name, and adds hints.
fn perform_drawn<'x, R: Read, W: Write>(
    rt: &'x HostRuntime,
    options: &ScheduleOptions,
    input: &mut R,
    path: &'x str,
    out: &mut W,
    hints: &mut Hints,
) -> Result<Conclusion, Failure>
    ensures { EndsSchedule (R.remaining input.old) (scheduled_in options.now)
        (W.contents out.old) (W.contents out.new) result }
{
    let mut picture = NewFile::new(rt, path, "picture", false);
    let film = film_by(rt.alloc(), options, hints.are_wanted());
    match schedule_drawn(rt.alloc(), options, input, out, film, &mut picture) {
        Ok(drawn) => {
            let Drawn { halt, film, saved } = drawn;
            hints.of_output(&picture);
            hint_at_picture(rt.alloc(), &film, hints);
            hint_at_steps(&film, hints);
            saved?;
            conclude_schedule(rt.alloc(), options.file, halt)
        }
        Err(failure) => Err(failure),
    }
}

// Runs the schedule in this input, and draws it if a file is named.
fn perform_input<R: Read, W: Write>(
    rt: &HostRuntime,
    options: &ScheduleOptions,
    input: &mut R,
    out: &mut W,
    hints: &mut Hints,
) -> Result<Conclusion, Failure>
    ensures { EndsSchedule (R.remaining input.old) (scheduled_in options.now)
        (W.contents out.old) (W.contents out.new) result }
{
    match options.picture {
        Some(path) => perform_drawn(rt, options, input, path, out, hints),
        None => perform_told(rt, options, input, out, hints),
    }
}

// Runs the schedule that the words name. Adds hints, also on lines that spell no step.
fn perform_file<S: Sources, W: Write>(
    rt: &HostRuntime,
    sources: &S,
    options: &ScheduleOptions,
    out: &mut W,
    hints: &mut Hints,
) -> Result<Conclusion, Failure>
    ensures { EndsSchedule (S.texts sources.now (named (scheduled_in options.now).file)) (scheduled_in options.now)
        (W.contents out.old) (W.contents out.new) result }
{
    let mut file = hints.source(rt.alloc(), sources, named(options.file));
    let ended = perform_input(rt, options, &mut file, out, hints);
    hints.of_input("schedule", &file);
    hints.of_schedule(options, &ended, &file);
    ended
}

// Runs `schedule`.
pub fn schedule_options<S: Sources, W: Write>(
    rt: &HostRuntime,
    sources: &S,
    options: &ScheduleOptions,
    out: &mut W,
    hints: &mut Hints,
) -> Result<Conclusion, Failure>
    ensures unfit { fits_schedule (scheduled_in options.now) ≡ false
        → (result ≡ Err Failure.CommandLine) × (W.contents out.new ≡ W.contents out.old) }
    ensures schedule { fits_schedule (scheduled_in options.now) ≡ true
        → EndsSchedule (S.texts sources.now (named (scheduled_in options.now).file)) (scheduled_in options.now)
        (W.contents out.old) (W.contents out.new) result }
{
    if !options.fit() {
        hints.of_misfit(Misfit::of_schedule(options));
        return Err(Failure::CommandLine);
    }
    let file = Purpose {
        what: "schedule",
        device: Device::input(named(options.file)),
    };
    let used = [Some(file), Some(OUTPUT), Some(MESSAGES)];
    if let Some(clash) = Clash::find(rt, "picture", options.picture, &used) {
        hints.add(&clash);
        return Err(Failure::File);
    }
    perform_file(rt, sources, options, out, hints)
}

// Returns the file that is asked about: a history's, or a policy's. None for standard input.
fn file_asked<'a>(options: &WhyOptions<'a>) -> Option<&'a str>
    ensures { option_map (λ name. name.now) result ≡ file_asked (asked_by (why_in options.now)) }
{
    match options.question() {
        Some(Question::Entry(history, _)) => named(history),
        Some(Question::Command(asked)) => Some(asked.policy),
        None => None,
    }
}

// Runs `why`.
pub fn why_options<S: Sources, W: Write>(
    rt: &HostRuntime,
    sources: &S,
    options: &WhyOptions,
    out: &mut W,
    hints: &mut Hints,
) -> Result<Conclusion, Failure>
    ensures unfit { fits_why (why_in options.now) ≡ false
        → (result ≡ Err Failure.CommandLine) × (W.contents out.new ≡ W.contents out.old) }
    ensures why { fits_why (why_in options.now) ≡ true
        → EndsWhy (S.texts sources.now) (why_in options.now) (W.contents out.old) (W.contents out.new) result }
{
    if !options.fit() {
        hints.of_misfit(Some(Misfit::of_why(options)));
        return Err(Failure::CommandLine);
    }
    let mut file = hints.source(rt.alloc(), sources, file_asked(options));
    let told = tell_why(rt.alloc(), options, &mut file, out);
    hints.of_input("file", &file);
    hints.of_question(options, &told, &file);
    told
}

// Serves the streams that come to a port, and saves the history, if a file is named.
fn serve_port<S: Sources + Threads + Wait + Sync, B: Binds, W: Write>(
    rt: &HostRuntime,
    sources: &S,
    ports: &B,
    options: &ServeOptions,
    out: &mut W,
    hints: &mut Hints,
) -> Result<(), Failure>
    ensures done { OnOk result ((text : List ℕ) × (blank file file' : Option (List ℕ))
        × IfSome (text_in (S.texts sources.now) (served_in options.now).policy) (λ told. text ≡ told)
        × IsDone (served_in options.now) text (W.contents out.old) (W.contents out.new) blank file file') }
    ensures failure { IfErr result (λ failure. (text : List ℕ) × (file file' : Option (List ℕ))
        × IfSome (text_in (S.texts sources.now) (served_in options.now).policy) (λ told. text ≡ told)
        × serving.MayFail (served_in options.now) text (W.contents out.old) (W.contents out.new) file file' failure) }
{
    let log = Log::new(
        sources,
        rt.alloc(),
        options,
        rt.stderr(),
        rt.stderr().is_terminal(),
    );
    let mut policy = hints.source(rt.alloc(), sources, Some(options.tree.policy.unwrap_or("")));
    let is_telling = options.log || hints.are_wanted();
    let mut file = history_file(rt, options.save, is_telling);
    let ended = serve(
        sources,
        rt.alloc(),
        options,
        ports,
        &mut policy,
        out,
        &log,
        &mut file,
    );
    hints.of_input("policy", &policy);
    if let Err(Failure::Socket) = &ended {
        file.remove_record();
    }
    hints.of_output(&file);
    hints.of_serving(options, &ended, log.refusal().as_ref(), &policy);
    ended
}

// Runs `serve`.
pub fn serve_options<S: Sources + Threads + Wait + Sync, B: Binds, W: Write>(
    rt: &HostRuntime,
    sources: &S,
    ports: &B,
    options: &ServeOptions,
    out: &mut W,
    hints: &mut Hints,
) -> Result<Conclusion, Failure>
    ensures unfit { fits_serve (served_in options.now) ≡ false
        → (result ≡ Err Failure.CommandLine) × (W.contents out.new ≡ W.contents out.old) }
    ensures serve { fits_serve (served_in options.now) ≡ true
        → EndsServe (S.texts sources.now) (served_in options.now) (W.contents out.old) (W.contents out.new) result }
{
    if !options.fit() {
        hints.of_misfit(Misfit::of_serve(options));
        return Err(Failure::CommandLine);
    }
    let used = [policy_of(options.tree.policy), Some(OUTPUT), Some(MESSAGES)];
    if let Some(clash) = Clash::find(rt, "history", options.save, &used) {
        hints.add(&clash);
        return Err(Failure::File);
    }
    match serve_port(rt, sources, ports, options, out, hints) {
        Ok(()) => Ok(Conclusion::Done),
        Err(failure) => {
            if let Failure::Socket = failure {
                hints.of_port(rt, options.port);
            }
            Err(failure)
        }
    }
}
