//! One stream's session.

ghost use Rattle.std.specs.Prelude.{◌≡◌, ◌≤◌, ◌^◌, ℕ, List, [], ◌∷◌, Some, Err, IfErr, OnErr, OnOk, length, map};
ghost use Rattle.std.specs.Io.KnownBytes.{Appends};
ghost use Rattle.ll_wire.specs.Devices.{IsWhole};
ghost use Rattle.ll_wire.specs.Reached.{Blames};
ghost use Rattle.ll_wire.specs.Transcript.{most_reads};
ghost use Rattle.ll_wire.specs.declared.fault.SessionFault.{SessionFault};
ghost use Rattle.ll_session.specs.Counts.{counted, nothing};
ghost use Rattle.ll_session.specs.Progress.{IsOfRefusal};
ghost use Rattle.ll_session.specs.Session.{AreOthers};
ghost use Rattle.ll_wire.specs.Grammar.{reply_line};
ghost use Rattle.ll_client.specs.CallStart.{HasNoPlace};
ghost use Rattle.ll_client.specs.Entries.{Knows};
ghost use Rattle.ll_session.specs.Visit.{HasCome, StartsBy, Visits, WasServedSo};

use crate::copies::copy_calls;
use crate::host::Host;
use crate::refusal::{Opener, Refusal};
use crate::stream::{Outcome, Served, Stream};
use crate::{
    Gate, Keeps, Kept, OpenSession, Party, Score, Tally, Tree, make_calls, session, tell_reply,
};
use ll_client::{Client, Shape};
use ll_rights::Errno;
use ll_seq::Call;
use ll_wire::{Ends, Pair, SessionFault};
use std::alloc::Global;
use std::io::{Read, Write};
use std::snapshot::Snapshot;
use std::sync::Wait;

// Adds a client. Errors: the refusal.
fn come<N: Shape, H: Wait, G: Gate<N>>(
    rt: &H,
    tree: &Tree<N, G>,
    party: &mut Party<N>,
) -> Result<(), Errno>
    requires { party.old ≡ [] }
    ensures ok { OnOk result ((me : Knows) × HasCome me × (party.new ≡ me ∷ [])) }
    ensures err { IfErr result HasNoPlace }
    ensures none { OnErr result (party.new ≡ []) }
{
    let client = tree.connect(rt)?;
    party.add(rt, client);
    Ok(())
}

// Writes the line of the refusal that keeps a session from beginning, after everything that its clients know of was
// kept.
fn turn_away<N: Shape, H: Wait, G: Gate<N>, K: Keeps, E: Ends>(
    rt: &H,
    alloc: Global,
    host: &Host<N, G, K>,
    party: Party<N>,
    refusal: Refusal,
    ends: &mut E,
) -> (Vec<Client<N>>, Outcome, Option<Refusal>)
    requires { IsWhole (E.devices ends.old) }
    ensures clients { map (λ c. c.rider) result.0.items ≡ party }
    ensures ok { OnOk result.1.ended (Appends (E.devices ends.old).contents (E.devices ends.new).contents
        (reply_line refusal.reply)) }
    ensures err { IfErr result.1.ended (λ fault. IsOfRefusal fault (E.devices ends.old).contents
        (E.devices ends.new).contents (reply_line refusal.reply)) }
    ensures tally { result.1.tally ≡ counted nothing refusal.reply }
    ensures refusal { result.2 ≡ Some refusal }
    ensures fault { IfErr result.1.ended (λ fault. Blames fault (E.devices ends.old) (E.devices ends.new)) }
    ensures remaining { (E.devices ends.new).remaining ≡ (E.devices ends.old).remaining }
    ensures same { E.names ends.new ≡ E.names ends.old }
{
    let mut party = party;
    let kept = host.keeper.keep(rt, host.tree, &mut party);
    let ended = tell_reply(alloc, &refusal.reply, &party, kept, ends);
    let mut tally = Tally::nothing();
    tally.count(&refusal.reply);
    let outcome = Outcome { tally, ended };
    (party.into_clients(), outcome, Some(refusal))
}

// Returns the outcome of a session that ended at this point.
fn answered(score: Score, ended: Result<(), SessionFault>) -> Outcome
    ensures { result ≡ record { tally = score.tally; ended = ended } }
{
    let Score { tally, end, .. } = score;
    drop(end);
    Outcome { tally, ended }
}

/// Serves one stream: a client comes, makes the calls of its profile, and answers each line that is read, while others
/// call on the same tree. If its connect or one of those calls is refused, that reply's line is all that is written,
/// and nothing is read. Returns the clients that came: this one, and those that it spawned.
pub fn visit<N: Shape, H: Wait, G: Gate<N>, K: Keeps, E: Ends>(
    rt: &H,
    alloc: Global,
    host: &Host<N, G, K>,
    profile: Vec<Call>,
    ends: &mut E,
) -> (Vec<Client<N>>, Outcome, Option<Refusal>)
    requires calls { AreOthers profile.items }
    requires whole { IsWhole (E.devices ends.old) }
    requires answered { (E.devices ends.old).owed ≡ 0 }
    requires reads { (E.devices ends.old).reads ≤ 2 ^ 62 }
    // Without a fault, everything was read, and its transcript was written; or the client was refused, and the refusal
    // was written.
    ensures ok { OnOk result.1.ended (Visits N.limit profile.items (E.devices ends.old) (E.devices ends.new)
        result.2 result.1.tally (map (λ c. c.rider) result.0.items)) }
    // After a fault, a prefix of that was written, and the calls with these replies were made.
    ensures err { IfErr result.1.ended (λ fault. StartsBy N.limit profile.items fault (E.devices ends.old)
        (E.devices ends.new) result.2 result.1.tally (map (λ c. c.rider) result.0.items)) }
    ensures fault { IfErr result.1.ended (λ fault. Blames fault (E.devices ends.old) (E.devices ends.new)) }
    // Each read returns at least one byte.
    ensures long { result.1.ended ≡ Err SessionFault.TooLong
        → (input : List ℕ) → (E.devices ends.old).remaining ≡ Some input → most_reads ≤ length input }
    ensures same { E.names ends.new ≡ E.names ends.old }
{
    let Ok(mut party) = Party::<N>::new(alloc, host.limit) else {
        drop(profile);
        let tally = Tally::nothing();
        let ended = Err(SessionFault::NoMemory);
        return (Vec::new(alloc), Outcome { tally, ended }, None);
    };
    if let Err(errno) = come(rt, host.tree, &mut party) {
        drop(profile);
        let refusal = Refusal::at_connect(Opener::Profile, errno);
        return turn_away(rt, alloc, host, party, refusal, ends);
    }
    match make_calls(rt, host.tree, &mut party, 0, Opener::Profile, profile) {
        Ok(()) => {
            let open = OpenSession {
                rt,
                alloc,
                tree: host.tree,
                keeper: host.keeper,
                party,
                before: 0,
                kept: Kept::UpTo(0),
            };
            let (party, score, ended) = session(open, false, ends);
            (party.into_clients(), answered(score, ended), None)
        }
        Err(refusal) => turn_away(rt, alloc, host, party, refusal, ends),
    }
}

// Serves one stream of this host. Returns its clients and how it ended.
fn serve_ends<N: Shape, G: Gate<N>, K: Keeps, H: Wait, R: Read, W: Write>(
    rt: &H,
    alloc: Global,
    host: &Host<N, G, K>,
    stream: &mut Stream<R, W>,
) -> (Vec<Client<N>>, Outcome, Option<Refusal>)
    ensures { WasServedSo N.limit host.now.profile.now R.remaining W.contents result.1 result.2 stream.old stream.new
        (map (λ c. c.rider) result.0.items) }
{
    let Ok(profile) = copy_calls(alloc, host.profile) else {
        let tally = Tally::nothing();
        let ended = Err(SessionFault::NoMemory);
        return (Vec::new(alloc), Outcome { tally, ended }, None);
    };
    let mut ends = Pair::new(&mut stream.reader, &mut stream.writer, true);
    visit(rt, alloc, host, profile, &mut ends)
}

/// Serves one stream as `visit` does. Returns what is left of it, and what its client was turned away with, if it was.
pub fn serve_stream<N: Shape, G: Gate<N>, K: Keeps, H: Wait, R: Read, W: Write>(
    rt: &H,
    alloc: Global,
    host: &Host<N, G, K>,
    stream: &mut Stream<R, W>,
) -> (Served<N, R, W>, Option<Refusal>)
    ensures served { WasServedSo N.limit host.now.profile.now R.remaining W.contents result.0.outcome result.1
        result.0.came.value result.0.went.value (map (λ c. c.rider) result.0.clients.items) }
    ensures came { result.0.came.value ≡ stream.old }
    ensures went { result.0.went.value ≡ stream.new }
{
    let came = Snapshot::of(&*stream);
    let (clients, outcome, refusal) = serve_ends(rt, alloc, host, stream);
    let served = Served {
        clients,
        outcome,
        came,
        went: Snapshot::of(&*stream),
    };
    (served, refusal)
}
