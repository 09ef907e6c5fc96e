//! Changes that take a name from a node, which may remove it.

ghost use Rattle.ll_seq.specs.declared.changes.Change.TheVariants.{Replace, Take};
ghost use Rattle.ll_node.specs.Enactment.{Enacts, InHand, MayEnact};

use crate::{Held, Inodes, replace_name, take_name, vacate};
use ll_seq::At;
use std::alloc::Global;

/// Removes the name of the inode, and frees its slot if nothing keeps its node. Takes no memory.
pub(crate) fn take(alloc: Global, table: &mut Inodes, lent: &mut [Held], at: &At<'_>, inode: u64)
    ensures { (any : InHand) → Enacts (Take at.now inode) (record any { table = table.old; lent = lent.old })
        (record any { table = table.new; lent = lent.new }) }
{
    take_name(lent, at.directory, at.name);
    if table.unname(at.directory, inode) {
        vacate(alloc, lent, inode);
    }
}

/// Moves the first inode from the first name to the second, which the second inode loses. Frees that inode's slot if
/// nothing keeps its node. Takes no memory.
pub(crate) fn replace(
    alloc: Global,
    table: &mut Inodes,
    lent: &mut [Held],
    old: &At<'_>,
    new: &At<'_>,
    inode: u64,
    replaced: u64,
)
    requires { (any : InHand)
        × MayEnact (Replace old.now new.now inode replaced) (record any { table = table.old; lent = lent.old }) }
    ensures { (any : InHand) → Enacts (Replace old.now new.now inode replaced)
        (record any { table = table.old; lent = lent.old }) (record any { table = table.new; lent = lent.new }) }
{
    replace_name(lent, new.directory, new.name, inode);
    take_name(lent, old.directory, old.name);
    if table.rename(old.directory, new.directory, inode, Some(replaced)) {
        vacate(alloc, lent, replaced);
    }
}
