//! Gathers all clients of the served streams.

ghost use Rattle.std.specs.Prelude.{◌≡◌, ◌++◌, flat_map};

use crate::nowhere::dead_end;
use crate::stream::Served;
use ll_client::{Client, Shape};
use std::sync::Wait;

/// Appends `clients`. `all` must have room for as many as a tree may have.
pub fn add_all<N: Shape, H: Wait>(rt: &H, all: &mut Vec<Client<N>>, clients: Vec<Client<N>>)
    ensures { all.new.items ≡ all.old.items ++ clients.items }
{
    let mut clients = clients;
    if all.append(&mut clients).is_err() {
        dead_end(rt);
        unreachable!()
    }
    clients.destroy_empty();
}

// Appends the clients of the streams that one worker served.
fn add_room<N: Shape, H: Wait, R, W>(rt: &H, all: &mut Vec<Client<N>>, room: Vec<Served<N, R, W>>)
    ensures { all.new.items ≡ all.old.items ++ flat_map (λ it. it.clients.items) room.items }
{
    let mut rest = room.into_iter();
    while let Some(served) = rest.next() {
        let Served {
            clients,
            outcome: _,
            came: _,
            went: _,
        } = served;
        add_all(rt, all, clients);
    }
    rest.destroy_empty();
}

/// Appends the clients of all served streams, worker by worker and stream by stream. The list must have room for as
/// many as a tree may have.
pub fn gather<N: Shape, H: Wait, R, W>(
    rt: &H,
    all: &mut Vec<Client<N>>,
    rooms: Vec<Vec<Served<N, R, W>>>,
)
    ensures { all.new.items ≡ all.old.items
        ++ flat_map (λ room. flat_map (λ it. it.clients.items) room.items) rooms.items }
{
    let mut rest = rooms.into_iter();
    while let Some(room) = rest.next() {
        add_room(rt, all, room);
    }
    rest.destroy_empty();
}
