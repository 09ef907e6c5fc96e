//! Clients of the trials' trees. None can be dropped: each goes back when its tree is closed.

use ll_calls::{Gate, Tree};
use ll_client::{Client, Shape};
use ll_seq::History;
use ll_session::dead_end;
use std::alloc::Global;
use std::sync::Wait;

/// Appends the client. Waits forever if the list has no room for it.
pub fn add<N: Shape>(rt: &impl Wait, clients: &mut Vec<Client<N>>, client: Client<N>) {
    if clients.len() >= clients.capacity() {
        dead_end(rt);
        unreachable!()
    }
    clients.push_reserved(client);
}

/// Appends a new client. Returns whether one came.
pub fn come<N: Shape, G: Gate<N>>(
    rt: &impl Wait,
    tree: &Tree<N, G>,
    clients: &mut Vec<Client<N>>,
) -> bool {
    if clients.reserve(1).is_err() {
        return false;
    }
    match tree.connect(rt) {
        Ok(client) => {
            clients.push_reserved(client);
            true
        }
        Err(_) => false,
    }
}

/// Returns this many new clients, or fewer if one can't come.
pub fn bring<N: Shape, G: Gate<N>>(
    rt: &impl Wait,
    alloc: Global,
    tree: &Tree<N, G>,
    count: usize,
) -> Vec<Client<N>> {
    let mut clients = Vec::new(alloc);
    for _ in 0..count {
        if !come(rt, tree, &mut clients) {
            return clients;
        }
    }
    clients
}

/// Closes the tree with all its clients, and returns its history. Waits forever if one is missing.
pub fn close<N: Shape, G: Gate<N>>(
    rt: &impl Wait,
    tree: Tree<N, G>,
    clients: Vec<Client<N>>,
) -> History {
    match tree.close(clients) {
        Ok(history) => history,
        Err(_back) => {
            dead_end(rt);
            unreachable!()
        }
    }
}
