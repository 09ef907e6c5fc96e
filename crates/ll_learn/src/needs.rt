//! What the calls of histories require of a layer.

ghost use Rattle.std.specs.Prelude.{◌≡◌, ◌↔◌, ◌++◌, [], ◌∷◌, true, ℕ, Bool, List, None, IfOk, IsTrue, OnOk};
ghost use Rattle.ll_rights.specs.Access.{is_within};
ghost use Rattle.ll_learn.specs.Needs.{AreRooted, GivesNone, GrantsAll, HasAsk, HasMove, Meets, StartsAtRoot};
ghost use Rattle.ll_learn.specs.There.{AsksMore, MovesMore};

use crate::index::PathIndex;
use ll_rights::Access;
use std::alloc::{AllocError, Global};

/// An entry of one of several histories: the history's number, from 0, and the entry's, from 1.
#[derive(Clone, Copy, Debug, PartialEq, Eq)]
pub struct Origin {
    pub history: usize,
    pub entry: usize,
}

/// Rights that a call needs on one path.
#[derive(Drop)]
pub struct Asked {
    pub rights: Access,
    /// The path's inodes at that time, from the root on.
    pub inodes: Vec<u64>,
    /// The first entry that needs them.
    pub origin: Origin,
}

/// A node that gets a name in another directory.
#[derive(Drop)]
pub struct Moved {
    /// The rights that apply to the node.
    pub rights: Access,
    /// The inodes of its own path at that time, from the root on.
    pub from: Vec<u64>,
    /// The inodes of the directory's path.
    pub into: Vec<u64>,
    /// The first entry that moves it like this.
    pub origin: Origin,
}

/// The rights that a layer has to grant, and those that no move may gain.
#[derive(Drop)]
pub struct Needs {
    pub asks: Vec<Asked>,
    pub moves: Vec<Moved>,
    /// The first successful move of a client that the layer isn't on.
    pub outside: Option<Origin>,
    ask_places: PathIndex,
    move_places: PathIndex,
}

/// Returns a copy of the inodes.
pub(crate) fn copy_of(alloc: Global, inodes: &[u64]) -> Result<Vec<u64>, AllocError>
    ensures { IfOk result (λ copy. copy.items ≡ inodes.now) }
{
    inodes.to_vec(alloc)
}

// Reports whether both are the same path. Compares the last inodes first, as most paths differ there.
fn is_same(one: &[u64], other: &[u64]) -> bool
    ensures { IsTrue result → one.now ≡ other.now }
{
    one.len() == other.len() && one.last() == other.last() && one == other
}

impl Asked {
    // Reports whether it asks these rights on this path.
    fn has(&self, rights: Access, inodes: &[u64]) -> bool
        ensures rights { IsTrue result → is_within rights.0 self.now.rights.0 ≡ true }
        ensures inodes { IsTrue result → self.now.inodes.items ≡ inodes.now }
    {
        rights.is_within(self.rights) && is_same(&self.inodes, inodes)
    }
}

impl Moved {
    // Reports whether it is a move between these paths, with these rights.
    fn has(&self, rights: Access, from: &[u64], into: &[u64]) -> bool
        ensures rights { IsTrue result → is_within rights.0 self.now.rights.0 ≡ true }
        ensures from { IsTrue result → self.now.from.items ≡ from.now }
        ensures into { IsTrue result → self.now.into.items ≡ into.now }
    {
        rights.is_within(self.rights) && is_same(&self.from, from) && is_same(&self.into, into)
    }
}

// Appends the ask.
fn push_ask(asks: &mut Vec<Asked>, one: Asked) -> Result<(), AllocError>
    ensures { OnOk result (asks.new.items ≡ asks.old.items ++ one ∷ []) }
{
    match asks.push(one) {
        Ok(()) => Ok(()),
        Err(refused) => {
            drop(refused);
            Err(AllocError)
        }
    }
}

// Appends the move.
fn push_move(moves: &mut Vec<Moved>, one: Moved) -> Result<(), AllocError>
    ensures { OnOk result (moves.new.items ≡ moves.old.items ++ one ∷ []) }
{
    match moves.push(one) {
        Ok(()) => Ok(()),
        Err(refused) => {
            drop(refused);
            Err(AllocError)
        }
    }
}

// Reports whether an ask at one of these places has these rights on this path.
fn has_ask(asks: &[Asked], places: &[usize], rights: Access, inodes: &[u64]) -> bool
    ensures { IsTrue result → HasAsk asks.now rights.0 inodes.now }
{
    for place in places {
        match asks.get(*place) {
            Some(ask) => {
                if ask.has(rights, inodes) {
                    return true;
                }
            }
            None => {}
        }
    }
    false
}

// Reports whether a move at one of these places has these rights and paths.
fn has_move(moves: &[Moved], places: &[usize], rights: Access, from: &[u64], into: &[u64]) -> bool
    ensures { IsTrue result → HasMove moves.now rights.0 from.now into.now }
{
    for place in places {
        match moves.get(*place) {
            Some(one) => {
                if one.has(rights, from, into) {
                    return true;
                }
            }
            None => {}
        }
    }
    false
}

impl Needs {
    /// Returns no needs.
    pub fn new(alloc: Global) -> Needs
        ensures meets { (grants : List ℕ → ℕ → Bool) → Meets grants result }
        ensures rooted { AreRooted result }
        ensures asks { result.asks.items ≡ [] }
        ensures moves { result.moves.items ≡ [] }
        ensures outside { result.outside ≡ None }
    {
        Needs {
            asks: Vec::new(alloc),
            moves: Vec::new(alloc),
            outside: None,
            ask_places: PathIndex::new(alloc),
            move_places: PathIndex::new(alloc),
        }
    }

    // Reports whether the rights are asked on the path already.
    fn has_asked(&self, rights: Access, inodes: &[u64]) -> bool
        ensures { IsTrue result → (grants : List ℕ → ℕ → Bool) → Meets grants self.now
            → GrantsAll grants rights.0 inodes.now }
    {
        if rights.0 == 0 {
            return true;
        }
        let places = self.ask_places.places(inodes);
        has_ask(&self.asks, places, rights, inodes)
    }

    /// Reports whether such a move is there already.
    pub(crate) fn has_moved(&self, rights: Access, from: &[u64], into: &[u64]) -> bool
        ensures { IsTrue result → (grants : List ℕ → ℕ → Bool) → Meets grants self.now
            → GivesNone grants rights.0 from.now into.now }
    {
        if rights.0 == 0 {
            return true;
        }
        let places = self.move_places.places(from);
        has_move(&self.moves, places, rights, from, into)
    }

    /// Adds an ask for the rights on the path.
    pub(crate) fn add_ask(
        &mut self,
        alloc: Global,
        rights: Access,
        inodes: &[u64],
        origin: Origin,
    ) -> Result<(), AllocError>
        ensures meets { OnOk result ((grants : List ℕ → ℕ → Bool) → Meets grants self.new
            ↔ (Meets grants self.old × GrantsAll grants rights.0 inodes.now)) }
        ensures rooted { OnOk result (AreRooted self.old → StartsAtRoot inodes.now → AreRooted self.new) }
        ensures asks { OnOk result (AsksMore (λ path. path ≡ inodes.now) self.old self.new) }
        ensures moves { self.new.moves ≡ self.old.moves }
        ensures outside { self.new.outside ≡ self.old.outside }
    {
        if self.has_asked(rights, inodes) {
            return Ok(());
        }
        self.ask_places.note(alloc, inodes, self.asks.len())?;
        let inodes = copy_of(alloc, inodes)?;
        push_ask(
            &mut self.asks,
            Asked {
                rights,
                inodes,
                origin,
            },
        )
    }

    /// Adds the move of a node to which these rights apply.
    pub(crate) fn add_move(
        &mut self,
        alloc: Global,
        rights: Access,
        from: &[u64],
        into: &[u64],
        origin: Origin,
    ) -> Result<(), AllocError>
        ensures meets { OnOk result ((grants : List ℕ → ℕ → Bool) → Meets grants self.new
            ↔ (Meets grants self.old × GivesNone grants rights.0 from.now into.now)) }
        ensures rooted { OnOk result (AreRooted self.old → StartsAtRoot from.now → StartsAtRoot into.now
            → AreRooted self.new) }
        ensures asks { self.new.asks ≡ self.old.asks }
        ensures moves { OnOk result (MovesMore (λ path. path ≡ from.now) self.old self.new) }
        ensures outside { self.new.outside ≡ self.old.outside }
    {
        if self.has_moved(rights, from, into) {
            return Ok(());
        }
        self.move_places.note(alloc, from, self.moves.len())?;
        let from = copy_of(alloc, from)?;
        let into = copy_of(alloc, into)?;
        push_move(
            &mut self.moves,
            Moved {
                rights,
                from,
                into,
                origin,
            },
        )
    }
}
