//! Which rights one layer grants on a path, and by which rules.

ghost use Rattle.std.specs.Prelude.{◌≡◌, ◌<◌, ◌≤◌, ℕ, not, ◌&&◌, List, [], ◌∷◌, ◌++◌, IfOk, OnOk};
ghost use Rattle.ll_rights.specs.Access.{holds};
ghost use Rattle.ll_rules.specs.Layer.{grants_on, has_rule, restricts};
ghost use Rattle.ll_why.specs.Grants.{AreGrants};

use ll_rights::Access;
use ll_rules::Layer;
use std::alloc::{AllocError, Global};

/// The rights that the rule on an inode allows.
#[derive(Clone, Copy, Debug, PartialEq, Eq)]
pub struct Ruled {
    pub inode: u64,
    pub rights: Access,
}

/// Which of some rights a layer grants on a path.
#[derive(Drop)]
pub struct Grants {
    /// The rights that the layer doesn't restrict.
    pub free: Access,
    /// For each inode of the path, from the root on: the rights that its rule allows and no rule nearer the root does.
    pub ruled: Vec<Ruled>,
    /// The rights that the layer doesn't grant.
    pub missing: Access,
}

/// Returns the rights that aren't among the others.
pub(crate) fn without(rights: Access, others: Access) -> Access
    ensures fewer { result.0 ≤ rights.0 }
    ensures rights { (right : ℕ) → right < 15
        → holds result.0 right ≡ (holds rights.0 right && not (holds others.0 right)) }
{
    Access(rights.0 & !others.0)
}

// Returns the rights that the layer restricts.
fn restricted(layer: &Layer, rights: Access) -> Access
    ensures fewer { result.0 ≤ rights.0 }
    ensures rights { (right : ℕ) → right < 15
        → holds result.0 right ≡ (holds rights.0 right && restricts layer.now right) }
{
    let all = layer.handled().with(Access::REFER);
    Access(rights.0 & all.0)
}

// Returns the rights that the rule on the inode allows.
fn rule_grants(layer: &Layer, rights: Access, inode: u64) -> Access
    ensures fewer { result.0 ≤ rights.0 }
    ensures rights { (right : ℕ) → right < 15
        → holds result.0 right ≡ (holds rights.0 right && has_rule layer.now right inode) }
{
    Access(rights.0 & layer.rule(inode).0)
}

/// Returns the rights that the layer doesn't grant on a path with these inodes.
pub(crate) fn lacked(layer: &Layer, inodes: &[u64], rights: Access) -> Access
    ensures fewer { result.0 ≤ rights.0 }
    ensures rights { (right : ℕ) → right < 15
        → holds result.0 right ≡ (holds rights.0 right && not (grants_on layer.now inodes.now right)) }
{
    let mut missing = restricted(layer, rights);
    for inode in inodes {
        missing = without(missing, rule_grants(layer, missing, *inode));
    }
    missing
}

// Appends the rule.
fn push_rule(rules: &mut Vec<Ruled>, rule: Ruled) -> Result<(), AllocError>
    ensures { OnOk result (rules.new.items ≡ rules.old.items ++ rule ∷ []) }
{
    rules.push(rule)?;
    Ok(())
}

impl Grants {
    // Returns the grants on no inode.
    fn start(alloc: Global, layer: &Layer, rights: Access) -> Grants
        ensures { AreGrants layer.now [] rights.0 result }
    {
        let asked = restricted(layer, rights);
        Grants {
            free: without(rights, asked),
            ruled: Vec::new(alloc),
            missing: asked,
        }
    }

    // Extends the path by one inode.
    fn down(mut self, layer: &Layer, inode: u64) -> Result<Grants, AllocError>
        ensures { IfOk result (λ after. (inodes : List ℕ) (rights : ℕ) → AreGrants layer.now inodes rights self
            → AreGrants layer.now (inodes ++ inode ∷ []) rights after) }
    {
        let here = rule_grants(layer, self.missing, inode);
        push_rule(
            &mut self.ruled,
            Ruled {
                inode,
                rights: here,
            },
        )?;
        let missing = without(self.missing, here);
        Ok(Grants { missing, ..self })
    }

    /// Returns which of these rights the layer grants on a path with these inodes. Errors: memory ran out.
    pub fn of_layer(
        alloc: Global,
        layer: &Layer,
        inodes: &[u64],
        rights: Access,
    ) -> Result<Grants, AllocError>
        ensures { IfOk result (AreGrants layer.now inodes.now rights.0) }
    {
        let mut grants = Grants::start(alloc, layer, rights);
        for inode in inodes {
            grants = grants.down(layer, *inode)?;
        }
        Ok(grants)
    }
}
