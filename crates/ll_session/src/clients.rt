//! What clients do that one owner has.

ghost use Rattle.std.specs.Prelude.{◌≡◌, ℕ, ◌+◌, ◌<◌, length, map, vec_len};
ghost use Rattle.ll_rights.specs.declared.limits.TheConstants.{TREE_CLIENTS};
ghost use Rattle.ll_client.specs.Closed.{IsClosed};
ghost use Rattle.ll_session.specs.Talk.{IsLast, IsMet, HaveMet, reply_of};

use ll_calls::{Gate, Tree};
use ll_client::{Client, Shape};
use ll_journal::Made;
use ll_rights::Errno;
use ll_seq::{History, Reply};
use std::sync::Wait;
use std::thread;

/// Returns the reply to a call with this result.
pub(crate) fn reply_to(made: Made) -> Reply
    ensures { result ≡ reply_of made }
{
    match made {
        Made::Replied(reply) => reply,
        Made::HistoryFull => Reply::Refused(Errno::HistoryFull),
        Made::NoMemory => Reply::Refused(Errno::NoMemory),
    }
}

/// Lets the clients at these two places meet.
fn meet_two<N: Shape, R: Wait, G: Gate<N>>(
    rt: &R,
    tree: &Tree<N, G>,
    clients: &mut [Client<N>],
    low: usize,
    high: usize,
)
    requires order { low < high }
    requires within { high < length clients.old }
    ensures { HaveMet (map (λ c. c.rider) clients.old) low high (map (λ c. c.rider) clients.new) }
{
    let (front, back) = clients.split_at_mut(high);
    tree.meet(rt, &mut front[low], &mut back[0]);
}

/// Lets the client at the place meet the last one, and so all of them.
pub(crate) fn meet_all<N: Shape, R: Wait, G: Gate<N>>(
    rt: &R,
    tree: &Tree<N, G>,
    clients: &mut [Client<N>],
    last: usize,
    place: usize,
)
    requires last { IsLast (map (λ c. c.rider) clients.old) last }
    requires place { place < length clients.old }
    ensures met { IsMet (map (λ c. c.rider) clients.old) place (map (λ c. c.rider) clients.new) }
    ensures last { IsLast (map (λ c. c.rider) clients.new) last }
{
    if last < place {
        meet_two(rt, tree, clients, last, place);
    } else if place < last {
        meet_two(rt, tree, clients, place, last);
    }
}

/// Closes the tree and returns its history. It must have exactly these clients.
pub fn close_all<N: Shape, R: Wait, G: Gate<N>>(
    rt: &R,
    tree: Tree<N, G>,
    clients: Vec<Client<N>>,
) -> History
    ensures closed { (nodes : ℕ) → N.slots ≡ nodes + TREE_CLIENTS
        → IsClosed N.rules nodes N.limit result.entries (map (λ c. c.rider) clients.items) }
    ensures limit { result.limit ≡ N.limit }
{
    let mut tree = tree;
    let mut clients = clients;
    for _ in rt.forever() {
        match tree.close(clients) {
            Ok(history) => return history,
            Err((tree_back, clients_back)) => {
                tree = tree_back;
                clients = clients_back;
            }
        }
        thread::yield_now();
    }
    unreachable!()
}
