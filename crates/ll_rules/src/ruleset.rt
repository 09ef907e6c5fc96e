//! Rulesets.

ghost use Rattle.std.specs.Prelude.{◌≡◌, ◌≢◌, [], ◌++◌, slice_get, Some, Err, OnOk, OnErr, IfOk, IfErr};
ghost use Rattle.ll_rules.specs.Rules.{create_refusals, new_ruleset, rule_refusals, rule_limit, with_rule};

use crate::layer::Layer;
use ll_rights::limits::RULESET_INODES;
use ll_rights::{Abi, Access, Errno, Kind};
use std::alloc::{AllocError, Global};
use std::marker::Model;

/// A ruleset under construction. Contracts see the layer that enforcing it would add.
#[derive(Drop)]
pub struct Ruleset {
    layer: Layer,
}

impl Model for Ruleset {
    ghost use Rattle.ll_rules.specs.Layer.{Layer};
    ghost use Rattle.ll_rules.specs.LayerCodes.{coded_layer};

    ghost Value = { Layer };

    ghost coded = { coded_layer };

    ghost view = { λ ruleset'. ruleset'.layer };
}

impl Ruleset {
    /// Creates a ruleset that handles these rights. Errors: the rights aren't valid at the ABI level. Takes no memory.
    pub fn create(alloc: Global, abi: Abi, handled: Access) -> Result<Ruleset, Errno>
        ensures ok { IfOk result (λ made. (create_refusals abi handled.0 ≡ []) × (made ≡ new_ruleset handled.0)) }
        ensures err { IfErr result (λ errno. slice_get (create_refusals abi handled.0) 0 ≡ Some errno) }
    {
        if !handled.is_within(Access::known(abi)) {
            return Err(Errno::EINVAL);
        }
        if handled.0 == 0 {
            return Err(Errno::ENOMSG);
        }
        Ok(Ruleset {
            layer: Layer::new(alloc, handled),
        })
    }

    /// Returns why a rule with these rights on a node of this kind is refused, or None.
    pub fn refusal(&self, kind: Kind, rights: Access) -> Option<Errno>
        ensures { result ≡ slice_get (rule_refusals self.now kind rights.0) 0 }
    {
        if rights.0 == 0 {
            return Some(Errno::ENOMSG);
        }
        if !rights.is_within(self.layer.handled()) {
            return Some(Errno::EINVAL);
        }
        if !kind.is_dir() && !rights.is_within(Access::FILE) {
            return Some(Errno::EINVAL);
        }
        None
    }

    /// Returns the refusal if a rule on the inode would exceed the limit of rules.
    pub fn limit(&self, inode: u64) -> Option<Errno>
        ensures { result ≡ slice_get (rule_limit self.now inode) 0 }
    {
        if self.layer.rule_count() >= RULESET_INODES && !self.layer.has_inode(inode) {
            return Some(Errno::E2BIG);
        }
        None
    }

    /// Adds a rule on the inode of a node of this kind. A second rule on one inode is merged with the first. Errors:
    /// those of `refusal` and `limit`; NoMemory.
    pub fn allow(&mut self, inode: u64, kind: Kind, rights: Access) -> Result<(), Errno>
        ensures ok { OnOk result ((rule_refusals self.old kind rights.0 ++ rule_limit self.old inode ≡ [])
            × (self.new ≡ with_rule self.old inode rights.0)) }

        // NoMemory is returned only if nothing else refuses the rule.
        ensures refused { IfErr result (λ errno. errno ≢ Errno.NoMemory →
            slice_get (rule_refusals self.old kind rights.0 ++ rule_limit self.old inode) 0 ≡ Some errno) }
        ensures starved { result ≡ Err Errno.NoMemory
            → rule_refusals self.old kind rights.0 ++ rule_limit self.old inode ≡ [] }
        ensures err { OnErr result (self.new ≡ self.old) }
    {
        if let Some(errno) = self.refusal(kind, rights) {
            return Err(errno);
        }
        if let Some(errno) = self.limit(inode) {
            return Err(errno);
        }
        if self.layer.add_rule(inode, rights).is_err() {
            return Err(Errno::NoMemory);
        }
        Ok(())
    }

    /// Returns the layer that enforcing the ruleset now would add.
    pub fn layer(&self) -> &Layer
        ensures { result.now ≡ self.now }
    {
        &self.layer
    }

    /// Returns a copy of the ruleset. Errors: memory ran out.
    pub fn copy(&self) -> Result<Ruleset, AllocError>
        ensures { IfOk result (λ copy. copy ≡ self.now) }
    {
        let layer = self.layer.clone()?;
        Ok(Ruleset { layer })
    }
}
