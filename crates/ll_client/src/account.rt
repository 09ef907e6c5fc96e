//! The entries of the tie's table.

use ll_node::Held;
use ll_seq::{Call, Reply};
use std::collections::LinkedList;

/// An entry of the history in a client's part, with its number. The first entry has number 1.
pub struct Numbered {
    pub number: u64,
    pub call: Call,
    pub reply: Reply,
}

/// A call that got NoMemory and so has no entry. `at` is the number of entries that the history had then.
pub struct Starved {
    pub at: u64,
    pub call: Call,
}

/// What an entry shows, one of three. A slot's: the contents that it must have. A client's: its part of the history,
/// the number of its last known entry, and the call of its walk. Or a client's calls that got NoMemory. No value of
/// this type is created.
pub enum Account {
    Slot(Held),
    Client(LinkedList<Numbered>, u64, Option<Call>),
    Wants(LinkedList<Starved>),
}
