//! Where rights must be added so that a layer allows a call: the search for the narrowest places.

ghost use Rattle.std.specs.Prelude.{◌≡◌, ◌<◌, ◌≤◌, ◌==◌, ◌^◌, ℕ, Bool, ◌&&◌, ◌||◌, MatchOption, bit_and};
ghost use Rattle.std.specs.List.{list_any};
ghost use Rattle.ll_rights.specs.Access.{holds, known_set};
ghost use Rattle.ll_rules.specs.Layer.{grants_on};
ghost use Rattle.ll_decide.specs.declared.demands.On as asked_on;
ghost use Rattle.ll_why.specs.Changes.{end_of};
ghost use Rattle.ll_why.specs.Places.{AreLeastSets, AreWays, IsBarred, chosen_by, denies, fits, is_among, is_reached};
ghost use Rattle.ll_why.specs.Places.{leads, may_hold, set_in};
ghost use Rattle.ll_seq.specs.State.{kind_of};
ghost use Rattle.ll_why.specs.Reasons.{chain_of};
ghost use Rattle.ll_why.specs.Rights.{meant};
ghost use Rattle.ll_why.specs.declared.asks.Asks as asks_of;

use crate::asks::Asks;
use crate::grants::{lacked, without};
use crate::rights::meaningful;
use ll_decide::Demands;
use ll_plain::Plain;
use ll_rights::{Abi, Access};
use ll_rules::Layer;

/// A set of rights for each place where rights may be added.
#[derive(Clone, Copy)]
pub(crate) struct Sets {
    pub itself: Access,
    pub other: Access,
    pub entered: Access,
    pub parent: Access,
}

/// Some of the places where rights may be added: the nodes of a call's first and second path, and the second path's and
/// the first path's directories.
#[derive(Clone, Copy)]
pub(crate) struct Places {
    pub itself: bool,
    pub other: bool,
    pub entered: bool,
    pub parent: bool,
}

/// For each path of a call, and for each directory's, the places that are on it.
#[derive(Clone, Copy)]
struct Ways {
    itself: Places,
    other: Places,
    entered: Places,
    parent: Places,
}

/// Returns the last inode of a path.
pub(crate) fn end_of(inodes: &[u64]) -> u64
    ensures { result ≡ end_of inodes.now }
{
    if inodes.is_empty() {
        0
    } else {
        inodes[inodes.len() - 1]
    }
}

// Reports whether the inode is among these.
fn is_on(inode: u64, inodes: &[u64]) -> bool
    ensures { result ≡ list_any (λ i. i == inode) inodes.now }
{
    inodes.iter().any(|i| *i == inode)
}

fn has_bit(number: u64, bit: u8) -> bool
    requires { bit < 64 }
    ensures { result ≡ holds number bit }
{
    number >> bit & 1 == 1
}

/// Returns the rights that are in both sets.
pub(crate) fn both(rights: Access, others: Access) -> Access
    ensures fewer { result.0 ≤ rights.0 }
    ensures rights { (right : ℕ) → holds result.0 right ≡ (holds rights.0 right && holds others.0 right) }
{
    Access(rights.0 & others.0)
}

// Returns all rights if the test holds, else none.
fn all_if(rights: Access, test: bool) -> Access
    ensures { (right : ℕ) → right < 15 → holds result.0 right ≡ (holds rights.0 right || test) }
{
    if test { Access::ALL } else { rights }
}

// Adds these rights if the test holds.
fn more_if(rights: Access, test: bool, more: Access) -> Access
    ensures known { rights.0 < 2 ^ 15 → more.0 < 2 ^ 15 → result.0 < 2 ^ 15 }
    ensures rights { (right : ℕ) → holds result.0 right ≡ (holds rights.0 right || (test && holds more.0 right)) }
{
    if test { rights.with(more) } else { rights }
}

impl Places {
    // Returns the places of this number.
    fn of_number(number: u64) -> Places
        ensures { (on : asked_on.On) → is_among result on ≡ chosen_by number on }
    {
        Places {
            itself: has_bit(number, 0),
            other: has_bit(number, 1),
            entered: has_bit(number, 2),
            parent: has_bit(number, 3),
        }
    }

    // Returns the places of a call that are on a path with these inodes.
    fn on_path(asks: &Asks, inodes: &[u64]) -> Places
        ensures { (on : asked_on.On) (from : asked_on.On) → inodes.now ≡ chain_of asks.now on
            → is_among result from ≡ leads asks.now from on }
    {
        Places {
            itself: is_on(end_of(&asks.first.itself), inodes),
            other: is_on(end_of(&asks.second.itself), inodes),
            entered: is_on(end_of(&asks.second.parent), inodes),
            parent: is_on(end_of(&asks.first.parent), inodes),
        }
    }

    // Reports whether some place is in both.
    fn meet(self, others: Places) -> bool
        ensures { result ≡ (self.itself && others.itself || self.other && others.other
            || self.entered && others.entered || self.parent && others.parent) }
    {
        self.itself && others.itself
            || self.other && others.other
            || self.entered && others.entered
            || self.parent && others.parent
    }
}

impl Sets {
    const NONE: Sets = Sets {
        itself: Access(0),
        other: Access(0),
        entered: Access(0),
        parent: Access(0),
    };

    // Adds these rights at these places.
    fn with(self, places: Places, rights: Access) -> Sets
        ensures known { ((on : asked_on.On) → set_in self on < 2 ^ 15) → rights.0 < 2 ^ 15
            → (on : asked_on.On) → set_in result on < 2 ^ 15 }
        ensures rights { (on : asked_on.On) (right : ℕ) → holds (set_in result on) right
            ≡ (holds (set_in self on) right || (is_among places on && holds rights.0 right)) }
    {
        Sets {
            itself: more_if(self.itself, places.itself, rights),
            other: more_if(self.other, places.other, rights),
            entered: more_if(self.entered, places.entered, rights),
            parent: more_if(self.parent, places.parent, rights),
        }
    }

    // Returns the rights that a rule may have at the end of each path of a call, and of each directory's.
    fn allowed(tree: &Plain, level: Abi, asks: &Asks) -> Sets
        ensures { (on : asked_on.On) → set_in result on ≡ may_hold level tree.now asks.now on }
    {
        Sets {
            itself: allowed_on(tree, level, &asks.first.itself),
            other: allowed_on(tree, level, &asks.second.itself),
            entered: allowed_on(tree, level, &asks.second.parent),
            parent: allowed_on(tree, level, &asks.first.parent),
        }
    }

    // Returns the rights that are in the sets of all these places.
    fn shared(self, places: Places) -> Access
        ensures { (right : ℕ) → right < 15 → holds result.0 right ≡ fits (set_in self) (is_among places) right }
    {
        let itself = all_if(self.itself, !places.itself);
        let other = all_if(self.other, !places.other);
        let entered = all_if(self.entered, !places.entered);
        let parent = all_if(self.parent, !places.parent);
        both(both(both(itself, other), entered), parent)
    }

    // Returns the rights that the layer grants on each path of a call, and on each directory's.
    fn granted(layer: &Layer, asks: &Asks) -> Sets
        ensures { (on : asked_on.On) (right : ℕ) → right < 15
            → holds (set_in result on) right ≡ grants_on layer.now (chain_of asks.now on) right }
    {
        Sets {
            itself: granted_on(layer, &asks.first.itself),
            other: granted_on(layer, &asks.second.itself),
            entered: granted_on(layer, &asks.second.parent),
            parent: granted_on(layer, &asks.first.parent),
        }
    }

    // Returns the rights that a layer which grants this denies somewhere.
    fn denied(self, demands: &Demands) -> Access
        ensures { (right : ℕ) → right < 15
            → holds result.0 right ≡ denies (λ on r. holds (set_in self on) r) demands.now right }
    {
        let at = without(demands.itself, self.itself).with(without(demands.parent, self.parent));
        let old = without(demands.left, self.parent);
        let new = without(demands.other, self.other).with(without(demands.entered, self.entered));
        let back = without(both(demands.back, self.parent), self.other);
        let there = without(both(demands.there, self.entered), self.itself);
        at.with(old).with(new).with(back).with(there)
    }
}

// Returns the rights that the layer grants on a path with these inodes.
fn granted_on(layer: &Layer, inodes: &[u64]) -> Access
    ensures { (right : ℕ) → right < 15 → holds result.0 right ≡ grants_on layer.now inodes.now right }
{
    without(Access::ALL, lacked(layer, inodes, Access::ALL))
}

// Returns the rights that a rule may have on the last of these inodes: those that the level knows and that apply to its
// kind.
fn allowed_on(tree: &Plain, level: Abi, inodes: &[u64]) -> Access
    ensures { result.0 ≡ bit_and (known_set level) (meant (kind_of tree.now (end_of inodes.now))) }
{
    Access(Access::known(level).0 & meaningful(tree.kind(end_of(inodes))).0)
}

impl Ways {
    // Returns the ways of a call.
    fn of_call(asks: &Asks) -> Ways
        ensures { AreWays asks.now result }
    {
        Ways {
            itself: Places::on_path(asks, &asks.first.itself),
            other: Places::on_path(asks, &asks.second.itself),
            entered: Places::on_path(asks, &asks.second.parent),
            parent: Places::on_path(asks, &asks.first.parent),
        }
    }

    // Returns what is granted after all rights were added at these places.
    fn added(self, granted: Sets, places: Places) -> Sets
        ensures { (asks : asks_of.Asks) (chosen : asked_on.On → Bool) → AreWays asks self
            → ((on : asked_on.On) → is_among places on ≡ chosen on)
            → (on : asked_on.On) (right : ℕ) → right < 15 → holds (set_in result on) right
            ≡ (holds (set_in granted on) right || is_reached asks chosen on) }
    {
        Sets {
            itself: all_if(granted.itself, places.meet(self.itself)),
            other: all_if(granted.other, places.meet(self.other)),
            entered: all_if(granted.entered, places.meet(self.entered)),
            parent: all_if(granted.parent, places.meet(self.parent)),
        }
    }
}

/// Returns the rights that must be added to the layer so that it allows the call, each at the narrowest places where
/// rules may have it. None if some right can't be added.
pub(crate) fn least_sets(tree: &Plain, level: Abi, layer: &Layer, asks: &Asks) -> Option<Sets>
    ensures { MatchOption result (IsBarred level tree.now asks.now layer.now)
        (λ sets. AreLeastSets level tree.now asks.now layer.now (set_in sets)) }
{
    let allowed = Sets::allowed(tree, level, asks);
    let granted = Sets::granted(layer, asks);
    let ways = Ways::of_call(asks);
    let mut added = Sets::NONE;
    let mut rest = Access::ALL;
    for number in 0..16 {
        let places = Places::of_number(number);
        let denied = ways.added(granted, places).denied(&asks.demands);
        let passing = both(without(rest, denied), allowed.shared(places));
        added = added.with(places, passing);
        rest = without(rest, passing);
    }
    if rest.0 == 0 { Some(added) } else { None }
}
