//! Runs on a tree that nobody shares: without locks, from a text to a text.

ghost use Rattle.std.specs.Prelude.{◌≡◌, ◌≤◌, ◌^◌, ℕ, All, IfErr, IfOk, IfSome, Err, List, None, Some, false};
ghost use Rattle.std.specs.Prelude.{length};
ghost use Rattle.ll_seq.specs.History.{IsLegal};
ghost use Rattle.ll_seq.specs.State.{start};
ghost use Rattle.ll_wire.specs.Devices.{IsWhole};
ghost use Rattle.ll_wire.specs.Entries.{IsEntry};
ghost use Rattle.ll_wire.specs.Transcript.{Writes, most_reads};
ghost use Rattle.ll_wire.specs.declared.fault.SessionFault.{SessionFault};
ghost use Rattle.ll_embed.specs.Alone.{IsTextRun, own};
ghost use Rattle.ll_session.specs.Counts.{first_score, stop_of};
ghost use Rattle.ll_session.specs.PartySession.{Session};
ghost use Rattle.ll_session.specs.Run.{MayEnd, RunsAs};
ghost use Rattle.ll_session.specs.Session.{Answers};
ghost use Rattle.ll_session.specs.Strict.{ScoresTo};
ghost use Rattle.ll_session.specs.declared.fault.RunFault.{RunFault};
ghost use Rattle.ll_session.specs.declared.score.Score.{Score};

use crate::own_tree::OwnTree;
use ll_seq::Reply;
use ll_session::{Run, RunFault, Score, Setup, are_entries, write_reply};
use ll_wire::{Answers, Ends, Line, Pair, SessionFault, answer_lines, reply_line};
use std::alloc::{AllocError, Global};
use std::io::{Read, Write};

/// What a run has written, and what it leaves.
#[derive(Drop)]
pub struct TextRun {
    pub text: Vec<u8>,
    pub run: Run,
}

/// A session on a tree of its own, and how far it is.
#[derive(Drop)]
struct OwnSession {
    alloc: Global,
    tree: OwnTree,
    score: Score,
    ghost some: { 1 ≤ tree.clients },
}

impl Answers for OwnSession {
    ghost use Rattle.std.specs.Prelude.{⊤, is_some, ◌+◌};
    ghost use Rattle.ll_session.specs.Counts.{StaysAs};
    ghost use Rattle.ll_session.specs.Strict.{Scores};
    ghost use Rattle.ll_embed.specs.Alone.{stays, stays_on};

    ghost tells = { λ a piece line b. Scores Answers (own a.tree, a.score) piece line (own b.tree, b.score) };

    ghost goes = { λ a b. StaysAs a.score b.score };

    // Each line adds at most two.
    ghost used = { λ a. a.score.tally.lines + a.score.tally.denials };

    ghost over = { λ a. is_some a.score.end };

    // Nobody keeps them.
    ghost kept = { λ a. ⊤ };

    fn answer(&mut self, line: &Line) -> Result<String, AllocError> {
        match self.tree.reply(line) {
            Ok((reply, is_end)) => {
                let text = reply_line(self.alloc, &reply);
                self.score.note(reply, is_end);
                text
            }
            Err(error) => {
                // A reply with bytes or names is neither a denial nor the end.
                self.score.note(Reply::Done, false);
                Err(error)
            }
        }
    }

    fn settle(&mut self) {}

    fn is_over(&self) -> bool {
        self.score.end.is_some()
    }

    ghost goes_nowhere = { λ a. stays a.score };

    ghost goes_on = { λ a b c. stays_on a.score b.score c.score };
}

// Answers the lines of the input.
fn run_session<E: Ends>(
    alloc: Global,
    tree: OwnTree,
    is_strict: bool,
    ends: &mut E,
) -> Result<Run, SessionFault>
    requires some { 1 ≤ tree.clients }
    requires whole { IsWhole (E.devices ends.old) }
    requires answered { (E.devices ends.old).owed ≡ 0 }
    requires reads { (E.devices ends.old).reads ≤ 2 ^ 62 }
    ensures ok { IfOk result (λ run. (score : Score) × (last : Session) × (run.stop ≡ stop_of score)
        × ScoresTo Answers (own tree, first_score is_strict) (last, score) (E.devices ends.old) (E.devices ends.new)
        × (run.history.entries ≡ last.entries)) }
    ensures lax { IfOk result (λ run. is_strict ≡ false → run.stop ≡ None) }
    ensures long { result ≡ Err SessionFault.TooLong
        → (input : List ℕ) → (E.devices ends.old).remaining ≡ Some input → most_reads ≤ length input }
    ensures same { E.names ends.new ≡ E.names ends.old }
{
    let mut session = OwnSession {
        alloc,
        tree,
        score: Score::new(is_strict),
    };
    let ended = answer_lines(alloc, ends, &mut session);
    let OwnSession { tree, score, .. } = session;
    match ended {
        Ok(()) => Ok(Run {
            history: tree.into_history(),
            stop: score.into_stop(),
            refusal: None,
        }),
        Err(fault) => {
            drop(tree);
            drop(score);
            Err(fault)
        }
    }
}

// Runs a script, over two devices.
fn run_over<E: Ends>(
    alloc: Global,
    setup: Setup,
    is_strict: bool,
    ends: &mut E,
) -> Result<Run, RunFault>
    requires whole { IsWhole (E.devices ends.old) }
    requires answered { (E.devices ends.old).owed ≡ 0 }
    requires reads { (E.devices ends.old).reads ≤ 2 ^ 62 }
    ensures transcript { IfOk result (λ run. IfSome (E.devices ends.old).remaining (λ input.
        Writes (E.devices ends.old).contents (E.devices ends.new).contents (λ text.
        RunsAs is_strict setup input (E.devices ends.new).remaining text run.stop run.history.entries))) }
    ensures lax { IfOk result (λ run. is_strict ≡ false → run.stop ≡ None) }
    ensures may { IfErr result (λ fault. MayEnd setup fault) }
    ensures long { result ≡ Err (RunFault.Session SessionFault.TooLong)
        → (input : List ℕ) → (E.devices ends.old).remaining ≡ Some input → most_reads ≤ length input }
    ensures same { E.names ends.new ≡ E.names ends.old }
{
    let Ok(mut tree) = OwnTree::new(alloc, &setup) else {
        return Err(RunFault::Session(SessionFault::NoMemory));
    };
    match tree.open(setup) {
        Ok(()) => Ok(run_session(alloc, tree, is_strict, ends)?),
        Err(refusal) => {
            if !refusal.is_told() {
                drop(tree);
                return Err(RunFault::Opening(refusal));
            }
            write_reply(alloc, &refusal.reply, ends)?;
            Ok(Run::refused(tree.into_history(), is_strict, refusal))
        }
    }
}

// Runs a script, from a reader to a writer.
fn run_through<R: Read, W: Write>(
    alloc: Global,
    setup: Setup,
    is_strict: bool,
    reader: &mut R,
    writer: &mut W,
) -> Result<Run, RunFault>
    ensures transcript { IfOk result (λ run. IfSome (R.remaining reader.old) (λ input.
        Writes (W.contents writer.old) (W.contents writer.new) (λ text.
        RunsAs is_strict setup input (R.remaining reader.new) text run.stop run.history.entries))) }
    ensures lax { IfOk result (λ run. is_strict ≡ false → run.stop ≡ None) }
    ensures may { IfErr result (λ fault. MayEnd setup fault) }
    ensures long { result ≡ Err (RunFault.Session SessionFault.TooLong)
        → (input : List ℕ) → R.remaining reader.old ≡ Some input → most_reads ≤ length input }
{
    let mut ends = Pair::new(reader, writer, true);
    match run_over(alloc, setup, is_strict, &mut ends) {
        Ok(run) => Ok(run),
        Err(fault) => Err(fault),
    }
}

/// Runs a script of command lines on a new tree without locks. Returns what the shared session would write, and the
/// run. Errors: a call of the loader is refused; memory ran out; the script is too long.
pub fn run_alone(
    alloc: Global,
    setup: Setup,
    is_strict: bool,
    script: &[u8],
) -> Result<TextRun, RunFault>
    ensures ran { IfOk result (λ ran.
        IsTextRun is_strict setup script.now ran.text.items ran.run.stop ran.run.history.entries) }
    ensures lax { IfOk result (λ ran. is_strict ≡ false → ran.run.stop ≡ None) }
    ensures legal { IfOk result (λ ran. IsLegal (start setup.rules setup.nodes) ran.run.history.entries) }
    ensures entries { IfOk result (λ ran. All IsEntry ran.run.history.entries) }
    ensures fault { IfErr result (λ fault. MayEnd setup fault) }
    // Each read returns at least one byte.
    ensures long { result ≡ Err (RunFault.Session SessionFault.TooLong) → most_reads ≤ length script.now }
{
    let mut reader = script;
    let mut text = Vec::new(alloc);
    match run_through(alloc, setup, is_strict, &mut reader, &mut text) {
        Ok(run) => {
            are_entries(&run.history);
            Ok(TextRun { text, run })
        }
        Err(fault) => Err(fault),
    }
}
