//! Lists of names.

ghost use Rattle.std.specs.Prelude.{◌≡◌, ◌↔◌, [], ◌∷◌, ◌++◌, IsTrue, IfOk, OnOk, OnErr};
ghost use Rattle.ll_seq.specs.Listed.{AreListed};

use ll_path::Name;
use std::alloc::{AllocError, Global};
use std::marker::Model;

/// Names in increasing byte order, as a reply lists them. Contracts see the list.
#[derive(Drop)]
pub struct Listing {
    names: Vec<Name>,
}

impl Model for Listing {
    ghost use Rattle.std.specs.Prelude.{List, ℕ};
    ghost use Rattle.ll_seq.specs.Listed.{AreListed};

    ghost Value = { List (List ℕ) };

    ghost view = { λ listing. listing.names.items };

    ghost invariant = { λ listing. AreListed listing.names.items };
}

/// Whether both lists are equal.
fn are_same(names: &[Name], others: &[Name]) -> bool
    ensures { IsTrue result ↔ (names.now ≡ others.now) }
{
    if names.len() != others.len() {
        return false;
    }
    for (i, name) in names.iter().enumerate() {
        if name.as_str() != others[i].as_str() {
            return false;
        }
    }
    true
}

impl Listing {
    pub fn new(alloc: Global) -> Listing
        ensures { result ≡ [] }
    {
        Listing {
            names: Vec::new(alloc),
        }
    }

    pub fn names(&self) -> &[Name]
        ensures names { result.now ≡ self.now }
        ensures listed { AreListed self.now }
    {
        &self.names
    }

    /// Appends a name, which must be greater than those before it. Errors: memory ran out.
    pub fn push(&mut self, name: Name) -> Result<(), AllocError>
        requires { AreListed (self.old ++ name ∷ []) }
        ensures ok { OnOk result (self.new ≡ self.old ++ name ∷ []) }
        ensures err { OnErr result (self.new ≡ self.old) }
    {
        self.names.push(name)?;
        Ok(())
    }

    /// Returns a copy of the list. Errors: memory ran out.
    pub fn copy(&self, alloc: Global) -> Result<Listing, AllocError>
        ensures { IfOk result (λ listing. listing ≡ self.now) }
    {
        let mut names = Vec::with_capacity(alloc, self.names.len())?;
        for name in &self.names {
            names.push_reserved(name.copy()?);
        }
        Ok(Listing { names })
    }

    /// Reports whether both lists hold equal names.
    pub fn is(&self, other: &Listing) -> bool
        ensures { IsTrue result ↔ (self.now ≡ other.now) }
    {
        are_same(&self.names, &other.names)
    }
}
