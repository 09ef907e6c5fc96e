//! Changes to the slots that a step is lent.

ghost use Rattle.std.specs.Prelude.{◌≡◌, ◌≢◌, ◌<◌, [], true, false, length, map, slice_get, slice_set, Some, IfSome};
ghost use Rattle.std.specs.Prelude.{IfNone, OnOk, OnErr};
ghost use Rattle.std.specs.List.{AllByRecursion};
ghost use Rattle.ll_rights.specs.Kind.{is_dir};
ghost use Rattle.ll_rights.specs.Map.{get};
ghost use Rattle.ll_path.specs.Name.{IsName};
ghost use Rattle.ll_node.specs.Refusals.{insert_refusals, missing, rename_refusals, len_refusals};
ghost use Rattle.ll_node.specs.declared.held.Held as record_of;
ghost use Rattle.ll_node.specs.Lent.{AreApart, Misses, unmarked, named_in, unnamed_in, resized_in, emptied_in, vacated};
ghost use Rattle.ll_node.specs.Lent.{filled};

use crate::held::Held;
use ll_rights::Kind;
use std::alloc::{AllocError, Global};

/// Returns the index of the slot that holds the inode, or None.
pub fn find(lent: &[Held], inode: u64) -> Option<usize>
    ensures some { IfSome result (λ place. (held : record_of.Held) × (slice_get lent.now place ≡ Some held)
        × (held.inode ≡ inode)) }
    ensures none { IfNone result (Misses inode lent.now) }
    ensures within { IfSome result (λ place. place < length lent.now) }
{
    lent.iter().position(|held| held.inode == inode)
}

/// Removes the client's mark from each slot.
pub fn unmark(lent: &mut [Held], client: u64)
    ensures { lent.new ≡ map (unmarked client) lent.old }
{
    for held in lent.iter_mut() {
        held.unmark(client);
    }
}

/// Adds a name that the directory doesn't have. Errors: memory ran out, and nothing has changed.
pub fn name(lent: &mut [Held], directory: u64, name: &str, inode: u64) -> Result<(), AllocError>
    requires apart { AreApart lent.old }
    requires directory { directory ≢ 0 }
    requires name { IsName name.now }
    requires takes { AllByRecursion (λ (held : record_of.Held). held.inode ≡ directory → (is_dir held.node.kind ≡ true)
        × (insert_refusals held.node.names name.now ≡ [])) lent.old }
    ensures ok { OnOk result (lent.new ≡ map (named_in directory name.now inode) lent.old) }
    ensures err { OnErr result (lent.new ≡ lent.old) }
{
    let Some(place) = find(lent, directory) else {
        return Ok(());
    };
    lent[place].name(name, inode)
}

/// Removes the name from the directory. Takes no memory.
pub fn take_name(lent: &mut [Held], directory: u64, name: &str)
    ensures { lent.new ≡ map (unnamed_in directory name.now) lent.old }
{
    for held in lent.iter_mut() {
        held.take_name(directory, name);
    }
}

/// Sets the inode of a name that the directory has. Takes no memory.
pub fn replace_name(lent: &mut [Held], directory: u64, name: &str, inode: u64)
    requires { AllByRecursion (λ (held : record_of.Held). held.inode ≡ directory
        → missing held.node.names name.now ≡ []) lent.old }
    ensures { lent.new ≡ map (named_in directory name.now inode) lent.old }
{
    for held in lent.iter_mut() {
        held.replace_name(directory, name, inode);
    }
}

/// Moves the inode from the old name in `from` to the new name in `into`. Errors: memory ran out, and nothing has
/// changed.
pub fn move_name(
    lent: &mut [Held],
    from: u64,
    old: &str,
    into: u64,
    new: &str,
    inode: u64,
) -> Result<(), AllocError>
    requires apart { AreApart lent.old }
    requires directories { (from ≢ 0) × (into ≢ 0) }
    requires name { IsName new.now }
    requires takes { from ≢ into → AllByRecursion (λ (held : record_of.Held). held.inode ≡ into
        → (is_dir held.node.kind ≡ true) × (insert_refusals held.node.names new.now ≡ [])) lent.old }
    requires within { from ≡ into
        → AllByRecursion (λ (held : record_of.Held). held.inode ≡ from → (is_dir held.node.kind ≡ true)
        × (rename_refusals held.node.names old.now new.now ≡ []) × (get held.node.names old.now ≡ Some inode))
        lent.old }
    ensures ok { OnOk result (lent.new
        ≡ map (λ held. named_in into new.now inode (unnamed_in from old.now held)) lent.old) }
    ensures err { OnErr result (lent.new ≡ lent.old) }
{
    if from != into {
        name(lent, into, new, inode)?;
        take_name(lent, from, old);
        return Ok(());
    }
    let Some(place) = find(lent, from) else {
        return Ok(());
    };
    lent[place].rename(old, new)
}

/// Sets the length of the node's bytes. New bytes are zeros. Errors: memory ran out, and nothing has changed.
pub fn set_len(lent: &mut [Held], inode: u64, size: u64) -> Result<(), AllocError>
    requires apart { AreApart lent.old }
    requires inode { inode ≢ 0 }
    requires takes { AllByRecursion (λ (held : record_of.Held). held.inode ≡ inode → (is_dir held.node.kind ≡ false)
        × (len_refusals size ≡ [])) lent.old }
    ensures ok { OnOk result (lent.new ≡ map (resized_in inode size) lent.old) }
    ensures err { OnErr result (lent.new ≡ lent.old) }
{
    let Some(place) = find(lent, inode) else {
        return Ok(());
    };
    lent[place].set_len(size)
}

/// Removes all of the node's bytes. Takes no memory.
pub fn clear(lent: &mut [Held], inode: u64)
    ensures { lent.new ≡ map (emptied_in inode) lent.old }
{
    for held in lent.iter_mut() {
        held.clear(inode);
    }
}

/// Makes the inode's slot vacant. Takes no memory.
pub fn vacate(alloc: Global, lent: &mut [Held], inode: u64)
    ensures { lent.new ≡ map (vacated inode) lent.old }
{
    for held in lent.iter_mut() {
        held.vacate(alloc, inode);
    }
}

/// Puts a new node into the slot at this index. Takes no memory.
pub fn fill(alloc: Global, lent: &mut [Held], place: usize, inode: u64, kind: Kind)
    requires { place < length lent.old }
    ensures { lent.new ≡ slice_set lent.old place (filled inode kind) }
{
    lent[place].fill(alloc, inode, kind);
}
