//! Creating nodes and opening files.

ghost use Rattle.std.specs.Prelude.{◌≡◌, ◌<◌, length, slice_get, Some, None, IfSome, IfNone, OnOk, OnErr};
ghost use Rattle.ll_seq.specs.declared.client.ClientRecord as record_of;
ghost use Rattle.ll_seq.specs.declared.changes.Change.TheVariants as change;
ghost use Rattle.ll_node.specs.InodeTable.{NotIn};
ghost use Rattle.ll_node.specs.Enactment.{Enacts, InHand, MayEnact, in_hand};

use crate::{Held, Inodes, clear, fill, name, take_name};
use ll_rights::Kind;
use ll_seq::{At, ClientRecord, Opening};
use std::alloc::{AllocError, Global};

/// Returns the index of the slot in the list.
fn place_of(slots: &[u64], slot: u64) -> Option<usize>
    ensures some { IfSome result (λ place. slice_get slots.now place ≡ Some slot) }
    ensures within { IfSome result (λ place. place < length slots.now) }
    ensures none { IfNone result (NotIn slot slots.now) }
{
    slots.iter().position(|other| *other == slot)
}

/// Creates a node under the name, in the client's spare slot, and takes a free slot as the new spare. Errors: memory
/// ran out, and nothing has changed.
pub(crate) fn make(
    alloc: Global,
    spare: &mut u64,
    table: &mut Inodes,
    slots: &[u64],
    lent: &mut [Held],
    at: &At<'_>,
    kind: Kind,
) -> Result<(), AllocError>
    requires { (c : record_of.ClientRecord)
        × MayEnact (change.Make at.now kind) (in_hand c spare.old table.old slots.now lent.old) }
    ensures ok { OnOk result ((c : record_of.ClientRecord)
        → Enacts (change.Make at.now kind) (in_hand c spare.old table.old slots.now lent.old)
        (in_hand c spare.new table.new slots.now lent.new)) }
    ensures err { OnErr result ((spare.new ≡ spare.old) × (table.new ≡ table.old) × (lent.new ≡ lent.old)) }
{
    let inode = table.next();
    name(lent, at.directory, at.name, inode)?;
    let fresh = match table.make(at.directory, kind, *spare) {
        Ok(fresh) => fresh,
        Err(error) => {
            take_name(lent, at.directory, at.name);
            return Err(error);
        }
    };
    if let Some(place) = place_of(slots, *spare) {
        fill(alloc, lent, place, inode, kind);
    }
    *spare = fresh;
    Ok(())
}

/// Creates the file and opens it, or does neither. Errors: memory ran out, and nothing has changed.
pub(crate) fn open_new(
    alloc: Global,
    client: &mut ClientRecord,
    spare: &mut u64,
    table: &mut Inodes,
    slots: &[u64],
    lent: &mut [Held],
    opening: &Opening<'_>,
) -> Result<(), AllocError>
    requires { (opening.now.there ≡ None)
        × MayEnact (change.Open opening.now) (in_hand client.old spare.old table.old slots.now lent.old) }
    ensures ok { OnOk result (Enacts (change.Open opening.now)
        (in_hand client.old spare.old table.old slots.now lent.old)
        (in_hand client.new spare.new table.new slots.now lent.new)) }
    ensures err { OnErr result ((client.new ≡ client.old) × (spare.new ≡ spare.old) × (table.new ≡ table.old)
        × (lent.new ≡ lent.old)) }
{
    let inode = table.next();
    client
        .descriptors
        .insert(opening.number, opening.descriptor(inode))?;
    if let Err(error) = make(alloc, spare, table, slots, lent, &opening.at, Kind::Reg) {
        client.descriptors.remove(opening.number);
        return Err(error);
    }
    table.open(inode);
    Ok(())
}

/// Opens an existing file. Errors: memory ran out, and nothing has changed.
pub(crate) fn open_there(
    client: &mut ClientRecord,
    table: &mut Inodes,
    lent: &mut [Held],
    opening: &Opening<'_>,
    inode: u64,
) -> Result<(), AllocError>
    requires { (opening.now.there ≡ Some inode) × (any : InHand)
        × MayEnact (change.Open opening.now)
        (record any { client = client.old; table = table.old; lent = lent.old }) }
    ensures ok { OnOk result ((any : InHand) → Enacts (change.Open opening.now)
        (record any { client = client.old; table = table.old; lent = lent.old })
        (record any { client = client.new; table = table.new; lent = lent.new })) }
    ensures err { OnErr result ((client.new ≡ client.old) × (table.new ≡ table.old) × (lent.new ≡ lent.old)) }
{
    if !table.has_room(inode) {
        return Err(AllocError);
    }
    client
        .descriptors
        .insert(opening.number, opening.descriptor(inode))?;
    table.open(inode);
    if opening.is_emptied {
        clear(lent, inode);
    }
    Ok(())
}
