//! Masks: one set of granted rights for each layer, updated name by name down a path.

ghost use Rattle.std.specs.Prelude.{◌≡◌, ℕ, ◌<◌, ◌^◌, List, [], ◌∷◌, ◌++◌, length, slice_get, Some};
ghost use Rattle.ll_decide.specs.Masks.{IsMask, AreMasks};

use ll_rights::Access;
use ll_rights::limits::DOMAIN_LAYERS;
use ll_rules::{Domain, Layer};
use smallvec::SmallVec;
use std::alloc::Global;
use std::marker::Model;
use std::mem::replace;

/// For each layer of a domain, the oldest first, the rights that it grants on a chain of inodes. Contracts see the sets
/// as numbers. Takes no memory.
#[derive(Drop)]
pub struct Masks {
    // Every known right has a number below 16.
    sets: SmallVec<u16, DOMAIN_LAYERS>,
}

impl Model for Masks {
    ghost use Rattle.std.specs.Prelude.{◌≡◌, ℕ, ◌≤◌, List, length};
    ghost use Rattle.ll_rights.specs.declared.limits.TheConstants.{DOMAIN_LAYERS};

    ghost Value = { List ℕ };

    ghost view = { λ masks. masks.sets.items };

    // All sets fit into the inline storage.
    ghost invariant = { λ masks. (length masks.sets.items ≤ DOMAIN_LAYERS) × (masks.sets.capacity ≡ DOMAIN_LAYERS) };
}

const ROOT: u64 = 1;

/// Returns the rights that the layer grants on every path: all but those it handles and refer.
pub fn unrestricted(layer: &Layer) -> Access
    ensures { IsMask result.0 layer.now [] }
{
    let restricted = layer.handled().with(Access::REFER);
    Access(Access::ALL.0 & !restricted.0)
}

impl Masks {
    /// Returns the masks of no layers.
    pub fn empty(alloc: Global) -> Masks
        ensures { result ≡ [] }
    {
        Masks {
            sets: SmallVec::new(alloc),
        }
    }

    /// Appends the mask of the next newer layer. Only known rights are kept.
    pub fn push(&mut self, rights: Access)
        requires few { length self.old < DOMAIN_LAYERS }
        requires known { rights.0 < 2 ^ 15 }
        ensures { self.new ≡ self.old ++ rights.0 ∷ [] }
    {
        self.sets.push_reserved(rights.0 as u16);
    }

    /// Returns the masks over the chain of the root alone (inode 1).
    pub fn root(alloc: Global, domain: &Domain) -> Masks
        ensures masks { AreMasks result domain.now (1 ∷ []) }
        ensures len { length result ≡ length domain.now }
    {
        let mut masks = Masks::start(alloc, domain);
        masks.down(domain, ROOT);
        masks
    }

    // The masks over the empty chain.
    fn start(alloc: Global, domain: &Domain) -> Masks
        ensures { AreMasks result domain.now [] }
    {
        // The inline storage has a place for each layer.
        prove!(domain.len() <= DOMAIN_LAYERS);
        let mut masks = Masks::empty(alloc);
        for layer in domain.layers() {
            masks.push(unrestricted(layer));
        }
        masks
    }

    /// Appends an inode to the chain and updates each layer's mask.
    pub fn down(&mut self, domain: &Domain, inode: u64)
        requires { length self.old ≡ length domain.now }
        ensures masks { (inodes : List ℕ) → AreMasks self.old domain.now inodes
            → AreMasks self.new domain.now (inodes ++ inode ∷ []) }
        ensures len { length self.new ≡ length self.old }
    {
        add_rules(self.sets.as_mut_slice(), domain.layers(), inode);
    }

    /// Returns a copy. Takes no memory.
    #[inline(always)]
    pub fn copy(&self) -> Masks
        ensures { result ≡ self.now }
    {
        if self.sets.is_empty() {
            return Masks::empty(*self.sets.allocator());
        }
        self.copy_layers()
    }

    // Returns a copy of the masks of some layers.
    fn copy_layers(&self) -> Masks
        ensures { result ≡ self.now }
    {
        let alloc = *self.sets.allocator();
        let Ok(sets) = SmallVec::from_slice(alloc, self.sets.as_slice()) else {
            unreachable!()
        };
        Masks { sets }
    }

    /// Takes the masks out, and leaves those of no layers.
    #[inline(always)]
    pub fn take(&mut self) -> Masks
        ensures result { result ≡ self.old }
        ensures left { self.new ≡ [] }
    {
        let none = Masks::empty(*self.sets.allocator());
        replace(self, none)
    }

    /// Returns the number of layers.
    pub fn len(&self) -> usize
        ensures { result ≡ length self.now }
    {
        self.sets.len()
    }

    /// Returns what a layer grants. Layers are numbered from 0 here, the oldest.
    pub fn layer(&self, number: usize) -> Access
        requires { number < length self.now }
        ensures { slice_get self.now number ≡ Some result.0 }
    {
        Access(self.sets.as_slice()[number] as u64)
    }
}

// The layer's mask after one more inode.
fn with_rule(mask: u16, layer: &Layer, inode: u64) -> u16
    ensures { (inodes : List ℕ) → IsMask mask layer.now inodes → IsMask result layer.now (inodes ++ inode ∷ []) }
{
    let granted = layer.rule(inode).0 & Access::ALL.0;
    mask | granted as u16
}

// Updates every layer's mask for one more inode.
fn add_rules(masks: &mut [u16], layers: &[Layer], inode: u64)
    requires { length masks.old ≡ length layers.now }
    ensures masks { (inodes : List ℕ) → AreMasks masks.old layers.now inodes
        → AreMasks masks.new layers.now (inodes ++ inode ∷ []) }
    ensures len { length masks.new ≡ length masks.old }
{
    for (i, mask) in masks.iter_mut().enumerate() {
        *mask = with_rule(*mask, &layers[i], inode);
    }
}
