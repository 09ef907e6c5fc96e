//! Makes a client's change.

ghost use Rattle.std.specs.Prelude.{◌≡◌, true, is_ok, OnOk, OnErr};
ghost use Rattle.ll_seq.specs.Lean.{adds_nothing};
ghost use Rattle.ll_node.specs.Enactment.{Enacts, MayEnact, in_hand};

use crate::alteration::{allow, exchange, move_name, name, resize};
use crate::creation::{make, open_new, open_there};
use crate::removal::{replace, take};
use crate::{Held, Inodes};
use ll_seq::{Change, ClientRecord};
use std::alloc::{AllocError, Global};

/// Makes the client's change. The slots of the nodes that it touches are lent. If it creates a node, the client's spare
/// slot is lent too: the node goes there, and the client gets a new spare slot. Errors: memory ran out, and nothing has
/// changed; impossible if the change adds nothing.
pub fn enact(
    alloc: Global,
    client: &mut ClientRecord,
    spare: &mut u64,
    table: &mut Inodes,
    slots: &[u64],
    lent: &mut [Held],
    change: &Change<'_>,
) -> Result<(), AllocError>
    requires { MayEnact change.now (in_hand client.old spare.old table.old slots.now lent.old) }
    ensures ok { OnOk result (Enacts change.now (in_hand client.old spare.old table.old slots.now lent.old)
        (in_hand client.new spare.new table.new slots.now lent.new)) }
    ensures err { OnErr result ((client.new ≡ client.old) × (spare.new ≡ spare.old) × (table.new ≡ table.old)
        × (lent.new ≡ lent.old)) }
    ensures calm { adds_nothing change.now ≡ true → is_ok result ≡ true }
{
    match change {
        Change::Nothing => Ok(()),
        Change::Make(at, kind) => make(alloc, spare, table, slots, lent, at, *kind),
        Change::Take(at, inode) => {
            take(alloc, table, lent, at, *inode);
            Ok(())
        }
        Change::Name(at, inode) => name(table, lent, at, *inode),
        Change::Move(old, new, inode) => move_name(table, lent, old, new, *inode),
        Change::Replace(old, new, inode, other) => {
            replace(alloc, table, lent, old, new, *inode, *other);
            Ok(())
        }
        Change::Exchange(old, new, inode, other) => {
            exchange(lent, old, new, *inode, *other);
            Ok(())
        }
        Change::Resize(inode, size) => resize(lent, *inode, *size),
        Change::Open(opening) => match opening.there {
            None => open_new(alloc, client, spare, table, slots, lent, opening),
            Some(inode) => open_there(client, table, lent, opening, inode),
        },
        Change::Allow(rule) => allow(client, rule),
    }
}
