//! The loader, which comes before all streams.

ghost use Rattle.std.specs.Prelude.{◌≡◌, ◌⊎◌, ◌≤◌, [], ◌∷◌, ◌↔◌, IsTrue, IfErr, IfSome, OnOk};
ghost use Rattle.std.specs.List.{All};
ghost use Rattle.ll_client.specs.Entries.{Knows};
ghost use Rattle.ll_program.specs.declared.failure.Failure.{Failure};
ghost use Rattle.ll_session.specs.Session.{AreOthers};
ghost use Rattle.ll_session.specs.declared.refusal.Refusal.{Refusal};
ghost use Rattle.ll_commands.specs.Loader.{HasBegun, HasLoaded, WasStopped, entry_count};

use ll_calls::Tree;
use ll_client::{Client, Shape};
use ll_program::Failure;
use ll_seq::Call;
use ll_session::{Opener, Party, dead_end, make_calls};
use ll_walk::Gate;
use std::sync::Wait;

/// Returns how many entries the loader has after it made its calls.
pub(crate) fn entry_count(loader: &Option<Vec<Call>>) -> usize
    ensures { result ≤ entry_count loader.now }
{
    match loader {
        Some(calls) => calls.len().saturating_add(1),
        None => 0,
    }
}

// Reports whether each of these clients knows of at most this many entries.
fn know_at_most<N: Shape>(clients: &[Client<N>], entries: u64) -> bool
    ensures { IsTrue result ↔ All (λ c. c.rider.seen ≤ entries) clients.now }
{
    clients.iter().all(|client| client.seen() <= entries)
}

/// Does nothing if these clients know of at most this many entries, as the loader does, since nobody else has come.
/// Otherwise waits forever.
pub(crate) fn knows_only<N: Shape, H: Wait>(rt: &H, clients: &[Client<N>], entries: usize)
    ensures { All (λ c. c.rider.seen ≤ entries) clients.now }
{
    if !know_at_most(clients, entries as u64) {
        dead_end(rt);
        unreachable!()
    }
}

// Adds the first client. A new tree has a place for it, so only memory may run out.
fn come<N: Shape, H: Wait, G: Gate<N>>(
    rt: &H,
    tree: &Tree<N, G>,
    party: &mut Party<N>,
) -> Result<(), Failure>
    requires { party.old ≡ [] }
    ensures ok { OnOk result ((me : Knows) × HasBegun me × (party.new ≡ me ∷ [])) }
    ensures err { IfErr result (λ failure. failure ≡ Failure.NoMemory) }
{
    match tree.connect(rt) {
        Ok(client) => {
            party.add(rt, client);
            Ok(())
        }
        Err(_) => Err(Failure::NoMemory),
    }
}

/// Adds the loader to a new tree, if there is one, and makes its calls. Errors: NoMemory if it can't come, and Opening
/// with the refusal if one of its calls is refused.
pub(crate) fn load<N: Shape, H: Wait, G: Gate<N>>(
    rt: &H,
    tree: &Tree<N, G>,
    party: &mut Party<N>,
    loader: Option<Vec<Call>>,
) -> Result<(), Failure>
    requires nobody { party.old ≡ [] }
    requires calls { IfSome loader (λ calls. AreOthers calls.items) }
    ensures ok { OnOk result (HasLoaded N.limit loader party.new) }
    ensures err { IfErr result (λ failure. (failure ≡ Failure.NoMemory)
        ⊎ ((refusal : Refusal) × (failure ≡ Failure.Opening refusal) × WasStopped N.limit loader refusal party.new)) }
{
    let Some(calls) = loader else {
        return Ok(());
    };
    come(rt, tree, party)?;
    match make_calls(rt, tree, party, 0, Opener::Loader, calls) {
        Ok(()) => Ok(()),
        Err(refusal) => Err(Failure::Opening(refusal)),
    }
}
