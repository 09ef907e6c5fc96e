//! Runs of scripts.

ghost use Rattle.std.specs.Prelude.{◌≡◌, ◌+◌, ◌<◌, ◌≤◌, ◌^◌, true, false, length, All, IfOk, IfErr, ℕ, List, OnOk};
ghost use Rattle.std.specs.Prelude.{IfSome, None, OnErr, Some, Err};
ghost use Rattle.std.specs.Io.KnownBytes.{Appends};
ghost use Rattle.ll_rights.specs.declared.limits.TheConstants.{TREE_CLIENTS};
ghost use Rattle.ll_seq.specs.History.{IsLegal};
ghost use Rattle.ll_seq.specs.State.{start};
ghost use Rattle.ll_seq.specs.declared.reply.Entry.{Entry};
ghost use Rattle.ll_client.specs.Closed.{IsClosed};
ghost use Rattle.ll_wire.specs.Entries.{IsEntry};
ghost use Rattle.ll_wire.specs.Grammar.{reply_line};
ghost use Rattle.ll_session.specs.declared.fault.RunFault.{RunFault};
ghost use Rattle.ll_session.specs.declared.score.Score.{Score};
ghost use Rattle.ll_wire.specs.declared.fault.SessionFault.{SessionFault};
ghost use Rattle.ll_wire.specs.Transcript.{Writes, most_reads};
ghost use Rattle.ll_session.specs.Counts.{stop_of};
ghost use Rattle.ll_session.specs.Run.{Begins, BeginsBy, EndsBy, IsOpened, MayEnd, Runs, RunsAs, refusal_in};
ghost use Rattle.ll_wire.specs.Devices.{IsWhole};
ghost use Rattle.ll_wire.specs.Reached.{Blames};
ghost use Rattle.ll_session.specs.Progress.{Closes, IsOfRefusal, RunsTo, StopsAt};

use crate::fault::RunFault;
use crate::keeper::{Keeps, Kept, NoKeeper};
use crate::open_session::OpenSession;
use crate::output::tell_reply;
use crate::scored::session;
use crate::setup::Setup;
use crate::shared::Shared;
use crate::stop::Run;
use ll_client::{Account, Blank, Shape};
use ll_seq::{History, Reply};
use ll_wire::{Ends, Pair, SessionFault};
use std::alloc::Global;
use std::io::{Read, Write};
use std::marker::Brand;
use std::sync::Wait;

/// How a script is run: strictly or not, and who keeps its history meanwhile.
#[derive(Drop)]
pub struct Manner<'a, K> {
    pub is_strict: bool,
    pub keeper: &'a K,
}

// Answers the lines of the input, and closes the tree.
fn run_session<N: Shape, R: Wait, K: Keeps, E: Ends>(
    rt: &R,
    alloc: Global,
    shared: Shared<N>,
    before: u64,
    manner: &Manner<'_, K>,
    ends: &mut E,
) -> Result<Run, SessionFault>
    requires some { before < length shared.party }
    requires whole { IsWhole (E.devices ends.old) }
    requires answered { (E.devices ends.old).owed ≡ 0 }
    requires reads { (E.devices ends.old).reads ≤ 2 ^ 62 }
    ensures ok { IfOk result (λ run. (score : Score) × (run.stop ≡ stop_of score)
        × ((room : ℕ) → N.slots ≡ room + TREE_CLIENTS
        → Closes N.rules room N.limit shared.party run.history.entries
        (RunsTo before manner.now.is_strict score (E.devices ends.old) (E.devices ends.new)))) }
    ensures err { OnErr result ((room : ℕ) → N.slots ≡ room + TREE_CLIENTS → (entries : List Entry)
        × Closes N.rules room N.limit shared.party entries
        (StopsAt before manner.now.is_strict (E.devices ends.old) (E.devices ends.new))) }
    ensures lax { IfOk result (λ run. manner.now.is_strict ≡ false → run.stop ≡ None) }
    ensures begun { IfOk result (λ run. run.refusal ≡ None) }
    ensures entries { IfOk result (λ run. All IsEntry run.history.entries) }
    ensures fault { IfErr result (λ fault. Blames fault (E.devices ends.old) (E.devices ends.new)) }
    ensures long { result ≡ Err SessionFault.TooLong
        → (input : List ℕ) → (E.devices ends.old).remaining ≡ Some input → most_reads ≤ length input }
    ensures same { E.names ends.new ≡ E.names ends.old }
{
    let Shared { tree, party } = shared;
    let open = OpenSession {
        rt,
        alloc,
        tree: &tree,
        keeper: manner.keeper,
        party,
        before,
        kept: Kept::UpTo(0),
    };
    let (party, score, ended) = session(open, manner.is_strict, ends);
    let history = Shared { tree, party }.close(rt);
    match ended {
        Ok(()) => Ok(Run {
            history,
            stop: score.into_stop(),
            refusal: None,
        }),
        Err(fault) => {
            drop(history);
            drop(score);
            Err(fault)
        }
    }
}

// Writes the line of the refusal that keeps a session from beginning, and closes the tree. Returns its history.
fn tell_refusal<N: Shape, R: Wait, K: Keeps, E: Ends>(
    rt: &R,
    alloc: Global,
    shared: Shared<N>,
    keeper: &K,
    reply: &Reply,
    ends: &mut E,
) -> Result<History, SessionFault>
    requires { IsWhole (E.devices ends.old) }
    ensures closed { IfOk result (λ history. (room : ℕ) → N.slots ≡ room + TREE_CLIENTS
        → IsClosed N.rules room N.limit history.entries shared.party) }
    ensures ok { OnOk result (Appends (E.devices ends.old).contents (E.devices ends.new).contents
        (reply_line reply.now)) }
    ensures over { OnErr result ((room : ℕ) → N.slots ≡ room + TREE_CLIENTS → (entries : List Entry)
        × IsClosed N.rules room N.limit entries shared.party) }
    ensures err { IfErr result (λ fault. IsOfRefusal fault (E.devices ends.old).contents (E.devices ends.new).contents
        (reply_line reply.now)) }
    ensures entries { IfOk result (λ history. All IsEntry history.entries) }
    ensures fault { IfErr result (λ fault. Blames fault (E.devices ends.old) (E.devices ends.new)) }
    ensures remaining { (E.devices ends.new).remaining ≡ (E.devices ends.old).remaining }
    ensures same { E.names ends.new ≡ E.names ends.old }
{
    let Shared { tree, mut party } = shared;
    let kept = keeper.keep(rt, &tree, &mut party);
    let ended = tell_reply(alloc, reply, &party, kept, ends);
    let history = Shared { tree, party }.close(rt);
    ended?;
    Ok(history)
}

// Does what `run_over` does, on a tree with this blank.
fn run_in<N: Shape, R: Wait, K: Keeps, E: Ends>(
    rt: &R,
    alloc: Global,
    blank: Blank<Account>,
    setup: Setup,
    manner: &Manner<'_, K>,
    ends: &mut E,
) -> Result<Run, RunFault>
    requires named { blank ≡ N.table }
    requires slots { N.slots ≡ setup.nodes + TREE_CLIENTS }
    requires limit { N.limit ≡ setup.history }
    requires rules { N.rules ≡ setup.rules }
    requires whole { IsWhole (E.devices ends.old) }
    requires answered { (E.devices ends.old).owed ≡ 0 }
    requires reads { (E.devices ends.old).reads ≤ 2 ^ 62 }
    ensures transcript { IfOk result (λ run. IfSome (E.devices ends.old).remaining (λ input.
        Writes (E.devices ends.old).contents (E.devices ends.new).contents (λ text.
        RunsAs manner.now.is_strict setup input (E.devices ends.new).remaining text run.stop run.history.entries))) }
    ensures lax { IfOk result (λ run. manner.now.is_strict ≡ false → run.stop ≡ None) }
    ensures strict { IfOk result (λ run. manner.now.is_strict ≡ true → run.refusal ≡ None) }
    ensures opening { IfOk result (λ run.
        IsOpened setup (E.devices ends.old).contents (E.devices ends.new).contents (refusal_in run.stop run.refusal)
        run.history.entries) }
    ensures legal { IfOk result (λ run. IsLegal (start setup.rules setup.nodes) run.history.entries) }
    ensures entries { IfOk result (λ run. All IsEntry run.history.entries) }
    ensures beginning { IfErr result (λ fault. IfSome (E.devices ends.old).remaining (λ input.
        Writes (E.devices ends.old).contents (E.devices ends.new).contents
        (BeginsBy manner.now.is_strict setup fault input))) }
    ensures fault { IfErr result (λ fault. EndsBy setup fault (E.devices ends.old) (E.devices ends.new)) }
    ensures may { IfErr result (λ fault. MayEnd setup fault) }
    ensures long { result ≡ Err (RunFault.Session SessionFault.TooLong)
        → (input : List ℕ) → (E.devices ends.old).remaining ≡ Some input → most_reads ≤ length input }
    ensures same { E.names ends.new ≡ E.names ends.old }
{
    let Some(mut shared) = Shared::<N>::new(alloc, blank, &setup) else {
        return Err(RunFault::Session(SessionFault::NoMemory));
    };
    match shared.open(rt, setup) {
        Ok(before) => Ok(run_session(rt, alloc, shared, before, manner, ends)?),
        Err(refusal) => {
            if !refusal.is_told() {
                drop(shared.close_kept(rt, manner.keeper));
                return Err(RunFault::Opening(refusal));
            }
            let history = tell_refusal(rt, alloc, shared, manner.keeper, &refusal.reply, ends)?;
            Ok(Run::refused(history, manner.is_strict, refusal))
        }
    }
}

/// Runs a script in this manner, over two devices that count their calls and failures. Before each read, the keeper
/// keeps the entries of all lines read so far, and then their replies are written. A device that failed isn't called
/// again. A strict run ends at the first line that is answered BadLine, HistoryFull or NoMemory, or whose ruleset,
/// allow, confine or spawn is refused or denied. That reply is written, and no later line is called, even if one read
/// returned both. Errors: the first fault.
pub fn run_over<R: Wait, K: Keeps, E: Ends>(
    rt: &R,
    alloc: Global,
    setup: Setup,
    manner: &Manner<'_, K>,
    ends: &mut E,
) -> Result<Run, RunFault>
    requires whole { IsWhole (E.devices ends.old) }
    requires answered { (E.devices ends.old).owed ≡ 0 }
    requires reads { (E.devices ends.old).reads ≤ 2 ^ 62 }
    ensures transcript { IfOk result (λ run. IfSome (E.devices ends.old).remaining (λ input.
        Writes (E.devices ends.old).contents (E.devices ends.new).contents (λ text.
        RunsAs manner.now.is_strict setup input (E.devices ends.new).remaining text run.stop run.history.entries))) }
    ensures lax { IfOk result (λ run. manner.now.is_strict ≡ false → run.stop ≡ None) }
    ensures strict { IfOk result (λ run. manner.now.is_strict ≡ true → run.refusal ≡ None) }
    ensures opening { IfOk result (λ run.
        IsOpened setup (E.devices ends.old).contents (E.devices ends.new).contents (refusal_in run.stop run.refusal)
        run.history.entries) }
    ensures legal { IfOk result (λ run. IsLegal (start setup.rules setup.nodes) run.history.entries) }
    ensures entries { IfOk result (λ run. All IsEntry run.history.entries) }
    // After a fault, what was written is a prefix of the transcript of some first pieces, or of a refusal.
    ensures beginning { IfErr result (λ fault. IfSome (E.devices ends.old).remaining (λ input.
        Writes (E.devices ends.old).contents (E.devices ends.new).contents
        (BeginsBy manner.now.is_strict setup fault input))) }
    // A fault names a device only if it failed in this call, and none if memory ran out.
    ensures fault { IfErr result (λ fault. EndsBy setup fault (E.devices ends.old) (E.devices ends.new)) }
    ensures may { IfErr result (λ fault. MayEnd setup fault) }
    // Each read returns at least one byte.
    ensures long { result ≡ Err (RunFault.Session SessionFault.TooLong)
        → (input : List ℕ) → (E.devices ends.old).remaining ≡ Some input → most_reads ≤ length input }
    ensures same { E.names ends.new ≡ E.names ends.old }
{
    match Blank::new(alloc) {
        Ok(blank) => run_in::<Brand, R, K, E>(rt, alloc, blank, setup, manner, ends),
        Err(_) => Err(RunFault::Session(SessionFault::NoMemory)),
    }
}

/// Runs a script of command lines, and writes the reply lines. Returns the history, which has an entry for each call
/// that the tree answered. If the opening is refused, that reply's line is all that it writes, and it reads nothing.
/// Errors: the first fault.
pub fn run_script<H: Wait, R: Read, W: Write>(
    rt: &H,
    alloc: Global,
    setup: Setup,
    reader: &mut R,
    writer: &mut W,
) -> Result<History, RunFault>
    // Without a fault, what was read, what is left of the input, what was written, and the entries are those of a run.
    ensures transcript { IfOk result (λ history. IfSome (R.remaining reader.old) (λ input. (left : List ℕ)
        × (R.remaining reader.new ≡ Some left)
        × Writes (W.contents writer.old) (W.contents writer.new)
        (λ text. Runs setup input left text history.entries))) }
    // Whatever the reader and the writer report: the entries are a legal history of the setup's tree, and each has a
    // spelling.
    ensures legal { IfOk result (λ history. IsLegal (start setup.rules setup.nodes) history.entries) }
    ensures entries { IfOk result (λ history. All IsEntry history.entries) }
    // After a fault, what was written is a prefix of such a text.
    ensures beginning { OnErr result (IfSome (R.remaining reader.old) (λ input.
        Writes (W.contents writer.old) (W.contents writer.new) (Begins setup input))) }
    ensures fault { IfErr result (λ fault. MayEnd setup fault) }
    // Each read returns at least one byte.
    ensures long { result ≡ Err (RunFault.Session SessionFault.TooLong)
        → (input : List ℕ) → R.remaining reader.old ≡ Some input → most_reads ≤ length input }
{
    let mut ends = Pair::new(reader, writer, true);
    let manner = Manner {
        is_strict: false,
        keeper: &NoKeeper,
    };
    match run_over(rt, alloc, setup, &manner, &mut ends) {
        Ok(Run { history, .. }) => Ok(history),
        Err(fault) => Err(fault),
    }
}
