//! Layers.

ghost use Rattle.std.specs.Prelude.{◌≡◌, unwrap_or, OnOk, OnErr};
ghost use Rattle.ll_rights.specs.Map.{get, has, len};
ghost use Rattle.ll_rules.specs.Rules.{new_ruleset, with_rule};

use ll_rights::Access;
use std::alloc::{AllocError, Global};
use std::collections::BTreeMap;
use std::marker::Model;

/// An enforced ruleset: the rights that it handles, and its rules. Contracts see both as sets of numbers.
#[derive(Drop)]
pub struct Layer {
    handled: Access,
    // The allowed rights of each inode with a rule.
    rules: BTreeMap<u64, Access>,
    // No inode greater than this one has a rule.
    highest: u64,
}

impl Model for Layer {
    ghost use Rattle.ll_rules.specs.Layer as layers;
    ghost use Rattle.ll_rules.specs.LayerCodes.{coded_layer};

    ghost Value = { layers.Layer };

    ghost coded = { coded_layer };

    ghost use Rattle.ll_rules.specs.RuleTable.{rules_of, IsTable, HasNoneAbove};

    ghost view = { λ layer. record { handled = layer.handled.0; rules = rules_of layer.rules } };

    ghost invariant = { λ layer. IsTable layer.rules × HasNoneAbove layer.highest layer.rules };
}

impl Clone for Layer {
    ghost use Rattle.std.specs.Prelude.{◌≡◌};

    ghost is_clone = { λ layer copy. copy ≡ layer };

    fn clone(&self) -> Result<Layer, AllocError> {
        let rules = self.rules.clone()?;
        Ok(Layer {
            handled: self.handled,
            rules,
            highest: self.highest,
        })
    }
}

impl Layer {
    /// Returns a layer without rules. Takes no memory.
    pub(crate) fn new(alloc: Global, handled: Access) -> Layer
        ensures { result ≡ new_ruleset handled.0 }
    {
        Layer {
            handled,
            rules: BTreeMap::new(alloc),
            highest: 0,
        }
    }

    pub fn handled(&self) -> Access
        ensures { result.0 ≡ self.now.handled }
    {
        self.handled
    }

    /// Returns the rights that the inode's rule allows: the empty set if it has no rule.
    pub fn rule(&self, inode: u64) -> Access
        ensures { result.0 ≡ unwrap_or (get self.now.rules inode) 0 }
    {
        if inode > self.highest {
            return Access(0);
        }
        self.rules.get(&inode).copied().unwrap_or(Access(0))
    }

    /// Returns the number of inodes with a rule.
    pub(crate) fn rule_count(&self) -> usize
        ensures { result ≡ len self.now.rules }
    {
        self.rules.len()
    }

    /// Reports whether the inode has a rule.
    pub(crate) fn has_inode(&self, inode: u64) -> bool
        ensures { result ≡ has self.now.rules inode }
    {
        self.rules.contains_key(&inode)
    }

    /// Adds a rule. If the inode has one already, it then allows the union of both.
    pub(crate) fn add_rule(&mut self, inode: u64, rights: Access) -> Result<(), AllocError>
        ensures ok { OnOk result (self.new ≡ with_rule self.old inode rights.0) }
        ensures err { OnErr result (self.new ≡ self.old) }
    {
        let joined = Access(self.rule(inode).0 | rights.0);
        self.rules.insert(inode, joined)?;
        self.highest = self.highest.max(inode);
        Ok(())
    }
}
