//! What the lock of a node guards: names or bytes, and at most one walk's mark. The crate uses no threads.
//!
//! A call on a name searches std's B-tree a few times. Its blocks hold at most 15 names and, except for the top one, at
//! least 7. So a directory of 1,024 names is at most four blocks high, and a search is logarithmic in the number of
//! names. A read costs the bytes that it copies. A write or a resize costs the bytes that it adds or removes; a growing
//! file is sometimes copied to twice the room. (This is how std's sources work; their contracts don't say so.) A slot
//! takes 56 bytes. An empty node takes no more. A block of names takes 488 bytes, or 616 with blocks below it, plus the
//! texts of the names.
#![tactic(auto)]

mod alteration;
mod creation;
mod directory;
mod enactment;
mod held;
mod lent;
mod removal;
mod slot;
mod table;

pub use enactment::enact;
pub use held::Held;
pub use lent::{
    clear, fill, find, move_name, name, replace_name, set_len, take_name, unmark, vacate,
};
pub use slot::Slot;
pub use table::Inodes;
