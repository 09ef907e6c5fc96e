//! Closes a tree.

ghost use Rattle.std.specs.Prelude.{◌≡◌, ◌≢◌, true, map, length, IfOk, IfErr, OnErr};
ghost use Rattle.std.specs.List.{AllByRecursion};
ghost use Rattle.ll_rights.specs.Map.{has, len};
ghost use Rattle.ll_node.specs.InodeTable.{AreDistinct};
ghost use Rattle.ll_laws.specs.World.{shown};
ghost use Rattle.ll_client.specs.Closed.{AreClients, numbers_of};
ghost use Rattle.ll_client.specs.Entries.{AreAccounts, Knows};
ghost use Rattle.ll_client.specs.Hands.{HoldsPartIn};

use crate::account::Account;
use crate::client::Client;
use crate::desk::Desk;
use crate::hand::take_client;
use crate::rider::Rider;
use crate::shape::Shape;
use crate::want::take_wants;
use crate::{Keeper, Tie};
use ll_journal::Journal;
use ll_seq::History;

/// Takes back the passes of all these clients.
fn settle<N: Shape>(
    tie: &Tie<N, Account>,
    mut keeper: Keeper<N, Account>,
    journal: &Journal,
    clients: Vec<Client<N>>,
)
    requires all { AreAccounts journal.now keeper }
    ensures parts { AllByRecursion (HoldsPartIn journal.now.world) (map (λ c. c.rider) clients.items) }
    ensures once { AreDistinct (numbers_of (map (λ c. c.rider) clients.items)) }
    ensures there { AllByRecursion (λ k. has (shown journal.now.world).clients k.number ≡ true)
        (map (λ c. c.rider) clients.items) }
{
    let mut rest = clients.into_iter();
    while let Some(client) = rest.next() {
        let Client { rider } = client;
        let Rider {
            number,
            seen,
            mut pass,
            mut wants,
        } = rider;
        take_client(tie, &mut keeper, journal, number, seen, &mut pass);
        take_wants(tie, &mut keeper, journal, number, &mut wants);
    }
    rest.destroy_empty();
}

/// Returns the history if the list holds all clients of the tree. Errors: the desk and the list, if it doesn't. (No two
/// clients of a tree have one number, so their count decides.)
pub fn close<N: Shape>(
    tie: &Tie<N, Account>,
    desk: Desk<N>,
    clients: Vec<Client<N>>,
) -> Result<History, (Desk<N>, Vec<Client<N>>)>
    ensures history { IfOk result (λ history.
        history ≡ record { entries = desk.world.history; limit = desk.world.limit }) }
    ensures clients { IfOk result (λ history.
        AreClients desk.world.rules desk.world.room desk.world.limit desk.world.history
        (map (λ c. c.rider) clients.items)) }
    ensures back { IfErr result (λ back. (back.0 ≡ desk) × (back.1.items ≡ clients.items)) }
    ensures missing { OnErr result (length clients.items ≢ len (shown desk.world).clients) }
{
    if desk.journal.clients() != clients.len() as u64 {
        return Err((desk, clients));
    }
    let Desk {
        journal,
        keeper,
        ..
    } = desk;
    settle(tie, keeper, &journal, clients);
    Ok(journal.into_history())
}
