//! Trees in which the entries of a history were made.

ghost use Rattle.std.specs.Prelude.{◌≡◌, ◌<◌, ◌≤◌, ◌-◌, ◌^◌, IfOk};
ghost use Rattle.ll_rights.specs.declared.limits.TheConstants.{TREE_NODES};
ghost use Rattle.ll_seq.specs.History.{state_after};
ghost use Rattle.ll_audit.specs.Saved.{opened};

use ll_audit::follow;
use ll_plain::Plain;
use ll_seq::Entry;
use ll_wire::Header;
use std::alloc::{AllocError, Global};

/// Returns a new tree as the header describes it.
pub(crate) fn open(alloc: Global, header: &Header) -> Result<Plain, AllocError>
    requires some { 1 ≤ header.now.nodes }
    requires most { header.now.nodes ≤ TREE_NODES }
    ensures { IfOk result (λ tree. tree ≡ opened header.now) }
{
    Plain::new(alloc, header.version.rules(), header.nodes)
}

/// Returns the tree after these entries if they are legal. If they aren't, the error says that memory ran out.
pub(crate) fn tree_after(
    alloc: Global,
    header: &Header,
    entries: &[Entry],
) -> Result<Plain, AllocError>
    requires some { 1 ≤ header.now.nodes }
    requires most { header.now.nodes ≤ TREE_NODES }
    ensures tree { IfOk result (λ tree. tree ≡ state_after (opened header.now) entries.now) }
    ensures next { IfOk result (λ tree. tree.next < 2 ^ 64 - 1) }
{
    let mut tree = open(alloc, header)?;
    match follow(&mut tree, entries) {
        Ok(()) => Ok(tree),
        Err(_) => {
            drop(tree);
            Err(AllocError)
        }
    }
}
