//! Runs of scripts.

ghost use Rattle.std.specs.Prelude.{◌≡◌, ◌⊎◌, ◌≤◌, ℕ, All, IfErr, IfOk, List, None, Option, false, length};
ghost use Rattle.ll_embed.specs.Alone.{IsTextRun};
ghost use Rattle.ll_seq.specs.declared.reply.Entry.{Entry};
ghost use Rattle.ll_session.specs.Run.{MayEnd};
ghost use Rattle.ll_session.specs.declared.fault.RunFault.{RunFault};
ghost use Rattle.ll_session.specs.declared.setup.Setup.{Setup};
ghost use Rattle.ll_session.specs.declared.stop.Stop.{Stop};
ghost use Rattle.ll_audit.specs.Saved.{saved_text};
ghost use Rattle.ll_rights.specs.declared.limits.TheConstants.{TREE_NODES};
ghost use Rattle.ll_program.specs.Policy.{header_of};
ghost use Rattle.ll_wire.specs.Entries.{IsEntry};
ghost use Rattle.ll_wire.specs.Transcript.{most_reads};
ghost use Rattle.ll_wire.specs.declared.fault.SessionFault.{SessionFault};
ghost use Rattle.ll_embed.specs.Answers.{HistoryAnswers, IsSetup, MayFail, RunAnswers, fault_in};
ghost use Rattle.ll_embed.specs.Answers.{order_in, stopped_status};
ghost use Rattle.ll_embed.specs.declared.fault.Fault.{Fault};

use crate::answer::Answer;
use crate::fault::{Fault, fault_of};
use crate::given::Given;
use crate::text_run::{TextRun, run_alone};
use ll_audit::save;
use ll_program::header_of;
use ll_seq::Entry;
use ll_session::{Setup, Stop};
use ll_wire::Header;
use std::alloc::Global;

fn status_of_stop(stop: &Option<Stop>) -> u32
    ensures { result ≡ stopped_status stop.now }
{
    match stop {
        None => 0,
        Some(_) => 3,
    }
}

// Runs the script in the tree that is asked for.
fn run(alloc: Global, given: &Given<'_>, is_strict: bool) -> Result<TextRun, Fault>
    ensures ran { IfOk result (λ ran. (setup : Setup) × IsSetup (order_in given.now) setup
        × IsTextRun is_strict setup given.now.script.now ran.text.items ran.run.stop ran.run.history.entries) }
    ensures lax { IfOk result (λ ran. is_strict ≡ false → ran.run.stop ≡ None) }
    ensures entries { IfOk result (λ ran. All IsEntry ran.run.history.entries) }
    ensures fault { IfErr result (MayFail (order_in given.now)) }
{
    let setup = given.setup(alloc)?;
    match run_alone(alloc, setup, is_strict, given.script) {
        Ok(ran) => Ok(ran),
        Err(fault) => Err(fault_of(fault)),
    }
}

/// Returns the transcript of the script.
pub fn transcript(alloc: Global, given: &Given<'_>, is_strict: bool) -> Answer
    ensures { RunAnswers (order_in given.now) is_strict result.status result.text.items }
{
    match run(alloc, given, is_strict) {
        Ok(ran) => Answer {
            status: status_of_stop(&ran.run.stop),
            text: ran.text,
        },
        Err(fault) => Answer::of_fault(alloc, fault, given.policy),
    }
}

// Returns the text of the history.
fn saved(alloc: Global, header: Header, entries: &[Entry]) -> Result<Vec<u8>, Fault>
    requires some { 1 ≤ header.nodes }
    requires most { header.nodes ≤ TREE_NODES }
    requires entries { All IsEntry entries.now }
    ensures text { IfOk result (λ text. text.items ≡ saved_text header entries.now) }
    ensures fault { IfErr result (λ fault. fault ≡ Fault.NoMemory) }
{
    let mut text = Vec::new(alloc);
    match save(alloc, header, entries, &mut text) {
        Ok(()) => Ok(text),
        Err(_) => Err(Fault::NoMemory),
    }
}

// Runs the script with this setup. Returns the history's text.
fn history_of(alloc: Global, setup: Setup, script: &[u8]) -> Result<Vec<u8>, Fault>
    ensures text { IfOk result (λ text. (replies : List ℕ) × (stop : Option Stop) × (entries : List Entry)
        × IsTextRun false setup script.now replies stop entries
        × (text.items ≡ saved_text (header_of setup) entries)) }
    ensures fault { IfErr result (λ fault. (fault ≡ Fault.NoMemory)
        ⊎ ((of : RunFault) × MayEnd setup of
        × (of ≡ RunFault.Session SessionFault.TooLong → most_reads ≤ length script.now) × (fault ≡ fault_in of))) }
{
    let header = header_of(&setup);
    match run_alone(alloc, setup, false, script) {
        Ok(ran) => saved(alloc, header, ran.run.history.entries()),
        Err(fault) => Err(fault_of(fault)),
    }
}

/// Returns the saved history of a run of the script.
pub fn history(alloc: Global, given: &Given<'_>) -> Answer
    ensures { HistoryAnswers (order_in given.now) result.status result.text.items }
{
    let setup = match given.setup(alloc) {
        Ok(setup) => setup,
        Err(fault) => return Answer::of_fault(alloc, fault, given.policy),
    };
    match history_of(alloc, setup, given.script) {
        Ok(text) => Answer { status: 0, text },
        Err(fault) => Answer::of_fault(alloc, fault, given.policy),
    }
}
