//! Closes trees.

ghost use Rattle.std.specs.Prelude.{◌≡◌, ◌≤◌, ◌+◌, ℕ, map};
ghost use Rattle.std.specs.List.{All};
ghost use Rattle.ll_client.specs.Closed.{IsClosed};
ghost use Rattle.ll_rights.specs.declared.limits.TheConstants.{TREE_CLIENTS};
ghost use Rattle.ll_wire.specs.Entries.{IsEntry};

use ll_calls::Tree;
use ll_client::{Client, Shape};
use ll_seq::History;
use ll_session::{are_entries, close_all};
use ll_walk::Gate;
use std::sync::Wait;

/// Returns the history of the tree. `clients` must be all its clients. Each entry has a spelling.
pub(crate) fn close<N: Shape, H: Wait, G: Gate<N>>(
    rt: &H,
    tree: Tree<N, G>,
    clients: Vec<Client<N>>,
) -> History
    requires { TREE_CLIENTS ≤ N.slots }
    ensures closed { (nodes : ℕ) → N.slots ≡ nodes + TREE_CLIENTS
        → IsClosed N.rules nodes N.limit result.entries (map (λ c. c.rider) clients.items) }
    ensures entries { All IsEntry result.entries }
{
    let history = close_all(rt, tree, clients);
    are_entries(&history);
    history
}
