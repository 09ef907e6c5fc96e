//! The contents of the slots, and what is taken out of them for a step.

ghost use Rattle.std.specs.Prelude.{◌≡◌, ◌<◌, ◌≤◌, ◌+◌, ◌-◌, ℕ, ◌∷◌, length, map, replicate, IfOk};
ghost use Rattle.std.specs.List.{AllByRecursion};
ghost use Rattle.ll_rights.specs.declared.limits.TheConstants.{TREE_CLIENTS, TREE_NODES};
ghost use Rattle.ll_rights.specs.declared.kind.Kind.TheVariants.{Dir};
ghost use Rattle.ll_seq.specs.State.{root};
ghost use Rattle.ll_node.specs.Lent as lent;
ghost use Rattle.ll_node.specs.InodeTable.{AreDistinct, NotIn};
ghost use Rattle.ll_steps.specs.Contents.{held_at};

use ll_node::{Held, Slot};
use ll_rights::Kind;
use ll_rights::limits::TREE_CLIENTS;
use ll_seq::ROOT;
use std::alloc::{AllocError, Global};

/// Holds what is lent to one step, which needs at most four slots.
pub(crate) type Hands = [Held; 4];

pub(crate) fn new_hands(alloc: Global) -> Hands {
    [
        Held::vacant(alloc),
        Held::vacant(alloc),
        Held::vacant(alloc),
        Held::vacant(alloc),
    ]
}

/// The slots of a new tree. Errors: memory ran out.
pub(crate) fn new_slots(alloc: Global, nodes: usize) -> Result<Vec<Held>, AllocError>
    requires { nodes ≤ TREE_NODES }
    ensures { IfOk result (λ slots. slots.items ≡ lent.filled root Dir
        ∷ replicate (nodes + TREE_CLIENTS - 1) lent.vacant) }
{
    let count = nodes + TREE_CLIENTS;
    let mut slots = Vec::with_capacity(alloc, count)?;
    slots.push(Held {
        inode: ROOT,
        node: Slot::new(alloc, Kind::Dir),
    })?;
    for _ in 1..count {
        slots.push(Held::vacant(alloc))?;
    }
    Ok(slots)
}

/// Exchanges the contents of the slots of these numbers with `lent`.
pub(crate) fn trade(slots: &mut [Held], numbers: &[u64], lent: &mut [Held])
    requires same { length lent.old ≡ length numbers.now }
    requires there { AllByRecursion (λ number. number < length slots.old) numbers.now }
    requires distinct { AreDistinct numbers.now }
    ensures lent { lent.new ≡ map (held_at slots.old) numbers.now }
    ensures put { map (held_at slots.new) numbers.now ≡ lent.old }
    ensures others { (j : ℕ) → NotIn j numbers.now → held_at slots.new j ≡ held_at slots.old j }
{
    let Some((number, numbers)) = numbers.split_first() else {
        return;
    };
    let Some((held, lent)) = lent.split_first_mut() else {
        return;
    };
    std::mem::swap(&mut slots[*number as usize], held);
    trade(slots, numbers, lent);
}
