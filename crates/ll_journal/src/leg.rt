//! A leg of a walk.

ghost use Rattle.std.specs.Prelude.{◌≡◌, ◌+◌, ◌-◌, ◌<◌, ◌≤◌, length, slice_get, [], ◌∷◌, ◌++◌, IfOk, IsSome};
ghost use Rattle.ll_decide.specs.Masks.{AreMasks};
ghost use Rattle.ll_path.specs.Place.{IsPlace};
ghost use Rattle.ll_rights.specs.declared.limits.TheConstants.{PATH_NAMES};
ghost use Rattle.ll_seq.specs.State.{root};
ghost use Rattle.ll_journal.specs.Seated.{none_left};

use crate::position::Stand;
use crate::way::place_after;
use ll_decide::Masks;
use ll_path::{Path, Place};
use ll_rights::limits::PATH_NAMES;
use ll_rules::Domain;
use ll_seq::ROOT;
use std::alloc::{AllocError, Global};

/// The names ahead: the position of the next one in its path's text, and the number of names in the whole leg.
#[derive(Clone, Copy)]
pub(crate) struct Ahead {
    pub(crate) place: Place,
    pub(crate) len: usize,
}

impl Ahead {
    /// All names of a leg of this length.
    fn whole(len: usize) -> Ahead
        ensures { result ≡ record { place = record { depth = 0; byte = 0 }; len = len } }
    {
        Ahead {
            place: Place::first(),
            len,
        }
    }

    pub(crate) fn is_empty(self) -> bool
        ensures { result ≡ none_left self }
    {
        self.place.depth == self.len
    }
}

/// A leg of a walk: the inodes from the root to its directory, the rights that each layer grants there, and the names
/// ahead.
#[derive(Drop)]
pub(crate) struct Leg {
    pub(crate) chain: Vec<u64>,
    pub(crate) masks: Masks,
    pub(crate) ahead: Ahead,
}

impl Leg {
    ghost use Rattle.ll_seq.specs.Found.{or_root};
    ghost use Rattle.ll_journal.specs.Seated.{IsRoomy, StandsAt, last_of};

    pub(crate) fn new(alloc: Global) -> Result<Leg, AllocError>
        ensures { IfOk result IsRoomy }
    {
        let chain = Vec::with_capacity(alloc, PATH_NAMES)?;
        Ok(Leg {
            chain,
            masks: Masks::empty(alloc),
            ahead: Ahead::whole(0),
        })
    }

    /// Puts the leg at the root, with `len` names ahead.
    pub(crate) fn start(&mut self, alloc: Global, domain: &Domain, len: usize)
        requires { IsRoomy self.old }
        ensures stands { StandsAt domain.now (root ∷ []) self.new }
        ensures ahead { self.new.ahead ≡ record { place = record { depth = 0; byte = 0 }; len = len } }
    {
        self.chain.clear();
        self.chain.push_reserved(ROOT);
        self.masks = Masks::root(alloc, domain);
        self.ahead = Ahead::whole(len);
    }

    /// Descends by the next name, which is one of this path.
    #[inline(always)]
    pub(crate) fn go_down(&mut self, domain: &Domain, path: Option<&Path>, inode: u64)
        requires roomy { IsRoomy self.old }
        requires short { length self.old.chain.items < PATH_NAMES }
        requires masks { AreMasks self.old.masks domain.now self.old.chain.items }
        requires place { IsPlace (or_root path) self.old.ahead.place }
        requires name { IsSome (slice_get (or_root path) self.old.ahead.place.depth) }
        ensures stands { StandsAt domain.now (self.old.chain.items ++ inode ∷ []) self.new }
        ensures place { IsPlace (or_root path.entry) self.new.ahead.place }
        ensures depth { self.new.ahead.place.depth ≡ self.old.ahead.place.depth + 1 }
        ensures len { self.new.ahead.len ≡ self.old.ahead.len }
    {
        self.chain.push_reserved(inode);
        self.masks.down(domain, inode);
        self.ahead.place = place_after(path, self.ahead.place);
    }

    /// Copies `other`'s position. `len` is the number of names in this leg.
    pub(crate) fn follow(&mut self, other: &Leg, len: usize)
        requires roomy { IsRoomy self.old }
        requires short { length other.now.chain.items ≤ PATH_NAMES }
        ensures chain { self.new.chain.items ≡ other.now.chain.items }
        ensures masks { self.new.masks ≡ other.now.masks }
        ensures ahead { self.new.ahead ≡ record other.now.ahead { len = len } }
        ensures roomy { IsRoomy self.new }
    {
        self.chain.clear();
        for inode in &other.chain {
            self.chain.push_reserved(*inode);
        }
        self.masks = other.masks.copy();
        self.ahead = Ahead {
            place: other.ahead.place,
            len,
        };
    }

    /// Whether no name is ahead.
    pub(crate) fn is_at_end(&self) -> bool
        ensures { result ≡ none_left self.now.ahead }
    {
        self.ahead.is_empty()
    }

    pub(crate) fn here(&self) -> u64
        requires { 0 < length self.now.chain.items }
        ensures { result ≡ last_of self.now.chain.items }
    {
        self.chain[self.chain.len() - 1]
    }

    /// Where the leg is.
    pub(crate) fn stand(&self) -> Stand
        requires { 0 < length self.now.chain.items }
        ensures { result ≡ record {
          inode = last_of self.now.chain.items;
          depth = length self.now.chain.items - 1;
        } }
    {
        Stand {
            inode: self.here(),
            depth: self.chain.len() - 1,
        }
    }
}

/// The two legs of a walk.
#[derive(Drop)]
pub(crate) struct Legs {
    pub(crate) trunk: Leg,
    pub(crate) first: Leg,
    pub(crate) second: Leg,
}

impl Legs {
    ghost use Rattle.ll_journal.specs.Seated.{AreRoomy};

    pub(crate) fn new(alloc: Global) -> Result<Legs, AllocError>
        ensures { IfOk result AreRoomy }
    {
        Ok(Legs {
            trunk: Leg::new(alloc)?,
            first: Leg::new(alloc)?,
            second: Leg::new(alloc)?,
        })
    }
}
