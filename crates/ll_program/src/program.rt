//! Runs and audits, as the program makes them.

ghost use Rattle.std.specs.Prelude.{◌≡◌, ◌≤◌, ◌^◌, ℕ, List, OnOk, OnErr, IfOk, IfErr, IfSome, None, is_some, true};
ghost use Rattle.std.specs.Prelude.{◌⊎◌, false, option_map};
ghost use Rattle.std.specs.Io.KnownBytes.{Appends};
ghost use Rattle.std.specs.List.{All};
ghost use Rattle.ll_rights.specs.declared.limits.TheConstants.{TREE_NODES};
ghost use Rattle.ll_wire.specs.Devices.{IsWhole};
ghost use Rattle.ll_program.specs.Options.{order_in};
ghost use Rattle.ll_audit.specs.declared.file_audit.FileAuditFault.{FileAuditFault};
ghost use Rattle.ll_audit.specs.Faults.{BlamesAudit, IsReading};
ghost use Rattle.ll_audit.specs.Saved.{Judges, saved_text, verdict_line};
ghost use Rattle.ll_session.specs.declared.fault.RunFault.{RunFault};
ghost use Rattle.ll_session.specs.declared.setup.Setup.{Setup};
ghost use Rattle.ll_session.specs.Run.{EndsBy, IsOpened, MayEnd, refusal_in};
ghost use Rattle.ll_wire.specs.Entries.{IsEntry, header_tokens};
ghost use Rattle.ll_wire.specs.Grammar.{line_of};
ghost use Rattle.ll_wire.specs.Pieces.{pieces};
ghost use Rattle.ll_program.specs.declared.failure.Failure.{Failure};
ghost use Rattle.ll_program.specs.Failure.{FailsAudit, failure_at, failure_of, IsOfSaving};
ghost use Rattle.ll_program.specs.Comments.{stop_there};
ghost use Rattle.ll_program.specs.Policy.{HasBegun, HasBegunAs, HasOpened, HasRun, HasRunAs, header_of, IsConcluded};
ghost use Rattle.ll_program.specs.Policy.{IsRun, IsSaved, IsUnread, MayFail};
ghost use Rattle.ll_seq.specs.History.{IsLegal};
ghost use Rattle.ll_seq.specs.State.{start};

use crate::RunOptions;
use crate::comments::SpokenLines;
use crate::conclusion::Conclusion;
use crate::failure::Failure;
use crate::policy::setup_of;
use crate::stopped::Stopped;
use crate::text::read_text;
use ll_audit::{Progress, Verdict, record_in, run_audit_over, save_in};
use ll_seq::History;
use ll_session::{Chronicle, Manner, NoKeeper, Refusal, Run, Setup, Stop, run_over};
use ll_wire::{Destination, Ends, Header, Pair, Version};
use std::alloc::Global;
use std::io::{Read, Write};
use std::sync::Wait;

/// A history, and its record, if there is one.
#[derive(Drop)]
pub struct Recorded<D> {
    pub history: History,
    pub record: Option<D>,
}

// A run, what ended it before its script, if anything did, and how its opening was refused, if that didn't end it.
#[derive(Drop)]
struct Performed<D> {
    run: Recorded<D>,
    stop: Option<Stop>,
    refusal: Option<Refusal>,
}

impl<D> Performed<D> {
    // Returns the run with this record.
    fn of(run: Run, record: Option<D>) -> Performed<D>
        ensures history { result.run.history ≡ run.history }
        ensures stop { result.stop ≡ run.stop }
        ensures refusal { result.refusal ≡ run.refusal }
    {
        let Run {
            history,
            stop,
            refusal,
        } = run;
        Performed {
            run: Recorded { history, record },
            stop,
            refusal,
        }
    }
}

// Runs a script on a tree with this setup, strictly or not. A record, which has the header already, is kept of its
// history meanwhile. After a failure, the record has everything that was answered.
fn perform_over<H: Wait, D: Write + Drop, E: Ends>(
    rt: &H,
    alloc: Global,
    setup: Setup,
    is_strict: bool,
    record: Option<D>,
    ends: &mut E,
) -> Result<Performed<D>, Failure>
    requires whole { IsWhole (E.devices ends.old) }
    requires answered { (E.devices ends.old).owed ≡ 0 }
    requires reads { (E.devices ends.old).reads ≤ 2 ^ 62 }
    ensures transcript { IfOk result (λ it.
        HasRun is_strict setup (E.devices ends.old).remaining (E.devices ends.new).remaining
        (E.devices ends.old).contents (E.devices ends.new).contents it.stop it.run.history.entries) }
    ensures lax { IfOk result (λ it. is_strict ≡ false → it.stop ≡ None) }
    ensures opening { IfOk result (λ it.
        IsOpened setup (E.devices ends.old).contents (E.devices ends.new).contents (refusal_in it.stop it.refusal)
        it.run.history.entries) }
    ensures legal { IfOk result (λ it. IsLegal (start setup.rules setup.nodes) it.run.history.entries) }
    ensures entries { IfOk result (λ it. All IsEntry it.run.history.entries) }
    ensures failure { IfErr result (λ failure. (fault : RunFault) × MayEnd setup fault
        × (failure ≡ failure_of fault) × EndsBy setup fault (E.devices ends.old) (E.devices ends.new)
        × HasBegun is_strict setup (E.devices ends.old).remaining
        (E.devices ends.old).contents (E.devices ends.new).contents fault) }
    ensures same { E.names ends.new ≡ E.names ends.old }
{
    let Some(draft) = record else {
        let manner = Manner {
            is_strict,
            keeper: &NoKeeper,
        };
        return match run_over(rt, alloc, setup, &manner, ends) {
            Ok(run) => Ok(Performed::of(run, None)),
            Err(fault) => Err(Failure::of_run(fault)),
        };
    };
    let chronicle = Chronicle::new(alloc, draft);
    let manner = Manner {
        is_strict,
        keeper: &chronicle,
    };
    match run_over(rt, alloc, setup, &manner, ends) {
        Ok(run) => Ok(Performed::of(run, Some(chronicle.into_parts().0))),
        Err(fault) => Err(Failure::of_run(fault)),
    }
}

// Does this from a reader to a writer.
fn perform<H: Wait, D: Write + Drop, R: Read, W: Write>(
    rt: &H,
    alloc: Global,
    setup: Setup,
    is_strict: bool,
    record: Option<D>,
    script: &mut R,
    out: &mut W,
) -> Result<Performed<D>, Failure>
    ensures transcript { IfOk result (λ it. HasRun is_strict setup (R.remaining script.old) (R.remaining script.new)
        (W.contents out.old) (W.contents out.new) it.stop it.run.history.entries) }
    ensures lax { IfOk result (λ it. is_strict ≡ false → it.stop ≡ None) }
    ensures opening { IfOk result (λ it. IsOpened setup (W.contents out.old) (W.contents out.new)
        (refusal_in it.stop it.refusal) it.run.history.entries) }
    ensures legal { IfOk result (λ it. IsLegal (start setup.rules setup.nodes) it.run.history.entries) }
    ensures entries { IfOk result (λ it. All IsEntry it.run.history.entries) }
    ensures failure { IfErr result (λ failure. (fault : RunFault) × MayEnd setup fault
        × (failure ≡ failure_of fault)
        × HasBegun is_strict setup (R.remaining script.old) (W.contents out.old) (W.contents out.new) fault) }
{
    let mut ends = Pair::new(script, out, true);
    perform_over(rt, alloc, setup, is_strict, record, &mut ends)
}

impl<D> Performed<D> {
    // Returns the run of these lines, as it is told of the script that they are from.
    fn there(self, lines: &SpokenLines) -> Performed<D>
        ensures run { result.run ≡ self.run }
        ensures stop { result.stop ≡ option_map (stop_there lines.now.numbers.items) self.stop }
        ensures refusal { result.refusal ≡ self.refusal }
    {
        let Performed { run, stop, refusal } = self;
        let stop = match stop {
            Some(stop) => Some(lines.stop_there(stop)),
            None => None,
        };
        Performed { run, stop, refusal }
    }
}

/// Returns the header of the history of a run with this setup.
pub fn header_of(setup: &Setup) -> Header
    ensures header { result ≡ header_of setup.now }
    ensures some { 1 ≤ result.nodes }
    ensures most { result.nodes ≤ TREE_NODES }
{
    Header {
        version: Version::Three(setup.rules.abi),
        nodes: setup.nodes,
    }
}

/// Begins the record of a history under this header, if a file is named for the history.
pub fn begin_record<F: Destination>(
    alloc: Global,
    header: Header,
    save: Option<&str>,
    file: &mut F,
) -> Option<F::Draft>
    requires some { 1 ≤ header.nodes }
    requires most { header.nodes ≤ TREE_NODES }
    ensures begun { IfSome result (λ draft.
        Appends (F.blank file.old) (F.Draft.contents draft) (line_of (header_tokens header))) }
    ensures same { F.contents file.new ≡ F.contents file.old }
    ensures again { F.blank file.new ≡ F.blank file.old }
{
    match save {
        Some(_) => record_in(alloc, header, file),
        None => None,
    }
}

// Removes a record, if there is one.
fn remove_record<F: Destination>(record: Option<F::Draft>, file: &mut F)
    ensures { F.contents file.new ≡ F.contents file.old }
{
    if let Some(draft) = record {
        file.remove(draft);
    }
}

/// Saves a history under this header, and then removes its record. Errors: the file can't be written, or memory ran
/// out; the file keeps its old contents, and the record stays.
pub fn save_history<F: Destination>(
    alloc: Global,
    header: Header,
    run: Recorded<F::Draft>,
    file: &mut F,
) -> Result<(), Failure>
    requires some { 1 ≤ header.nodes }
    requires most { header.nodes ≤ TREE_NODES }
    requires entries { All IsEntry run.history.entries }
    ensures saved { OnOk result (Appends (F.blank file.old) (F.contents file.new)
        (saved_text header run.history.entries)) }
    ensures kept { OnErr result (F.contents file.new ≡ F.contents file.old) }
    ensures failure { IfErr result IsOfSaving }
{
    let Recorded { history, record } = run;
    match save_in(alloc, header, history.entries(), file) {
        Ok(()) => {
            remove_record(record, file);
            Ok(())
        }
        Err(fault) => Err(Failure::of_saving(fault)),
    }
}

// Does this with the record that the options ask for. If there may be comments, the whole script is read first, and the
// lines that aren't silent are run.
fn perform_asked<H: Wait, R: Read, W: Write, F: Destination>(
    rt: &H,
    alloc: Global,
    options: &RunOptions,
    setup: Setup,
    script: &mut R,
    out: &mut W,
    file: &mut F,
) -> Result<Performed<F::Draft>, Failure>
    ensures transcript { IfOk result (λ it. HasRunAs options.now.comments options.now.strict setup
        (R.remaining script.old) (R.remaining script.new)
        (W.contents out.old) (W.contents out.new) it.stop it.run.history.entries) }
    ensures lax { IfOk result (λ it. options.now.strict ≡ false → it.stop ≡ None) }
    ensures opening { IfOk result (λ it. IsOpened setup (W.contents out.old) (W.contents out.new)
        (refusal_in it.stop it.refusal) it.run.history.entries) }
    ensures legal { IfOk result (λ it. IsLegal (start setup.rules setup.nodes) it.run.history.entries) }
    ensures entries { IfOk result (λ it. All IsEntry it.run.history.entries) }
    ensures failure { IfErr result (λ failure.
        (IsUnread options.now.comments failure × (W.contents out.new ≡ W.contents out.old))
        ⊎ ((fault : RunFault) × MayEnd setup fault × (failure ≡ failure_of fault)
        × HasBegunAs options.now.comments options.now.strict setup (R.remaining script.old)
        (W.contents out.old) (W.contents out.new) fault)) }
    ensures same { F.contents file.new ≡ F.contents file.old }
    ensures again { F.blank file.new ≡ F.blank file.old }
{
    let header = header_of(&setup);
    if !options.comments {
        let record = begin_record(alloc, header, options.save, file);
        return perform(rt, alloc, setup, options.strict, record, script, out);
    }
    let text = read_text(alloc, script)?;
    let Ok(lines) = SpokenLines::of(alloc, text.as_slice()) else {
        return Err(Failure::NoMemory);
    };
    let record = begin_record(alloc, header, options.save, file);
    let mut spoken = lines.text.as_slice();
    match perform(rt, alloc, setup, options.strict, record, &mut spoken, out) {
        Ok(it) => Ok(it.there(&lines)),
        Err(failure) => Err(failure),
    }
}

// Saves a history, if a file is named for it.
fn save_where_named<F: Destination>(
    alloc: Global,
    options: &RunOptions,
    header: Header,
    run: Recorded<F::Draft>,
    file: &mut F,
) -> Result<(), Failure>
    requires some { 1 ≤ header.nodes }
    requires most { header.nodes ≤ TREE_NODES }
    requires entries { All IsEntry run.history.entries }
    ensures saved { (setup : Setup) → header ≡ header_of setup → OnOk result (IsSaved (order_in options.now).save setup
        run.history.entries (F.blank file.old) (F.contents file.old) (F.contents file.new)) }
    ensures kept { OnErr result (F.contents file.new ≡ F.contents file.old) }
    ensures failure { IfErr result (λ failure. (is_some (order_in options.now).save ≡ true) × IsOfSaving failure) }
{
    if options.save.is_none() {
        return Ok(());
    }
    save_history(alloc, header, run, file)
}

// Returns what the program concludes from what ended the run of this script.
fn conclude(alloc: Global, script: &str, stop: &Option<Stop>) -> Result<Conclusion, Failure>
    ensures end { IfOk result (IsConcluded script.now stop.now) }
    ensures failure { IfErr result (λ failure. (is_some stop.now ≡ true) × (failure ≡ Failure.NoMemory)) }
{
    let Some(stop) = stop else {
        return Ok(Conclusion::Done);
    };
    match Stopped::of(alloc, script, stop) {
        Ok(stopped) => Ok(Conclusion::Stopped(stopped)),
        Err(_) => Err(Failure::NoMemory),
    }
}

// Returns how the opening was refused, if it was: that ended a strict run, or is told of another one.
fn refusal_in(stop: Option<Stop>, refusal: Option<Refusal>) -> Option<Refusal>
    ensures { result ≡ refusal_in stop refusal }
{
    match stop {
        Some(Stop::AtOpening(refusal)) => Some(refusal),
        Some(Stop::AtLine(_, _)) => None,
        None => refusal,
    }
}

/// What the program concludes from a run, and how its opening was refused, if it was.
#[derive(Debug, Drop)]
pub struct Ran {
    pub conclusion: Conclusion,
    pub refusal: Option<Refusal>,
}

/// Runs a script as the options ask. If they name a policy, `policy` reads it. If they name a file for the history, the
/// history is saved into `file`, under the header of its tree, even if a strict run ended early. Errors: the first
/// failure.
pub fn run<H: Wait, P: Read, R: Read, W: Write, F: Destination>(
    rt: &H,
    alloc: Global,
    options: &RunOptions,
    policy: &mut P,
    script: &mut R,
    out: &mut W,
    file: &mut F,
) -> Result<Ran, Failure>
    ensures done { IfOk result (λ ran. (text : List ℕ) × IfSome (P.remaining policy.old) (λ told. text ≡ told)
        × IsRun (order_in options.now) text ran.conclusion (R.remaining script.old) (R.remaining script.new)
        (W.contents out.old) (W.contents out.new)
        (F.blank file.old) (F.contents file.old) (F.contents file.new)) }
    // How the opening was refused, if it was: the line of that reply is all that was written.
    ensures opening { IfOk result (λ ran. (text : List ℕ) × IfSome (P.remaining policy.old) (λ told. text ≡ told)
        × HasOpened (order_in options.now) text (W.contents out.old) (W.contents out.new) ran.refusal) }
    ensures kept { OnErr result (F.contents file.new ≡ F.contents file.old) }
    ensures failure { IfErr result (λ failure. (text : List ℕ) × IfSome (P.remaining policy.old) (λ told. text ≡ told)
        × MayFail (order_in options.now) text (R.remaining script.old) (R.remaining script.new)
        (W.contents out.old) (W.contents out.new) failure) }
{
    let setup = setup_of(alloc, &options.tree, policy)?;
    let header = header_of(&setup);
    let it = perform_asked(rt, alloc, options, setup, script, out, file)?;
    let Performed { run, stop, refusal } = it;
    let conclusion = conclude(alloc, options.script, &stop)?;
    let refusal = refusal_in(stop, refusal);
    match save_where_named(alloc, options, header, run, file) {
        Ok(()) => Ok(Ran {
            conclusion,
            refusal,
        }),
        Err(failure) => Err(failure),
    }
}

/// Judges the history that the devices read, and writes the verdict's line to them. Doesn't use a device again after it
/// failed. Errors: a device failed in this call, or memory ran out.
pub fn audit_over<E: Ends, P: Progress>(
    alloc: Global,
    ends: &mut E,
    progress: &mut P,
) -> Result<Verdict, Failure>
    requires { IsReading (E.devices ends.old) 0 }
    ensures verdict { IfOk result (λ verdict.
        IfSome (E.devices ends.old).remaining (λ bytes. Judges (pieces bytes) verdict)) }
    ensures answer { IfOk result (λ verdict.
        Appends (E.devices ends.old).contents (E.devices ends.new).contents (verdict_line verdict)) }
    ensures failure { IfErr result (FailsAudit (E.devices ends.old).remaining
        (E.devices ends.old).contents (E.devices ends.new).contents) }
    ensures fault { IfErr result (λ failure. (fault : FileAuditFault)
        × BlamesAudit fault (E.devices ends.new) × (failure ≡ failure_at fault)) }
    ensures same { E.names ends.new ≡ E.names ends.old }
{
    match run_audit_over(alloc, ends, progress) {
        Ok(verdict) => Ok(verdict),
        Err(fault) => Err(Failure::of_audit(fault)),
    }
}

/// Judges the history in a file, and writes the verdict's line. Errors: the file or the output failed, or memory ran
/// out.
pub fn audit<R: Read, W: Write, P: Progress>(
    alloc: Global,
    file: &mut R,
    out: &mut W,
    progress: &mut P,
) -> Result<Verdict, Failure>
    ensures verdict { IfOk result (λ verdict. IfSome (R.remaining file.old) (λ bytes. Judges (pieces bytes) verdict)) }
    ensures answer { IfOk result (λ verdict. Appends (W.contents out.old) (W.contents out.new) (verdict_line verdict)) }
    ensures failure { IfErr result
        (FailsAudit (R.remaining file.old) (W.contents out.old) (W.contents out.new)) }
{
    let mut ends = Pair::new(file, out, false);
    audit_over(alloc, &mut ends, progress)
}
