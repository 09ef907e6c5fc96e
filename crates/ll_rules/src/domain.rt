//! Domains.

ghost use Rattle.std.specs.Prelude.{◌≡◌, ◌≢◌, ◌≤◌, [], ◌∷◌, ◌++◌, length, slice_get, Some, Err, OnOk, OnErr, IfOk};
ghost use Rattle.std.specs.Prelude.{IfErr};
ghost use Rattle.ll_rules.specs.Rules.{layer_limit};

use crate::layer::Layer;
use crate::ruleset::Ruleset;
use ll_rights::Errno;
use ll_rights::limits::DOMAIN_LAYERS;
use std::alloc::{AllocError, Global};
use std::marker::Model;

/// The layers that confine a client, the oldest first: at most 16.
#[derive(Drop)]
pub struct Domain {
    layers: Vec<Layer>,
}

impl Model for Domain {
    ghost use Rattle.std.specs.Prelude.{List, ◌≤◌, length};
    ghost use Rattle.ll_rules.specs.Layer.{Layer};
    ghost use Rattle.ll_rules.specs.LayerCodes.{coded_layer};
    ghost use Rattle.std.specs.Coded.{coded_list};

    ghost Value = { List Layer };

    ghost coded = { coded_list coded_layer };

    ghost view = { λ domain. domain.layers.items };

    ghost invariant = { λ domain. length domain.layers.items ≤ 16 };
}

impl Domain {
    /// Returns the domain of a client that never confined itself: no layers.
    pub fn empty(alloc: Global) -> Domain
        ensures { result ≡ [] }
    {
        Domain {
            layers: Vec::new(alloc),
        }
    }

    /// Copies the ruleset as it is now and adds it as the newest layer. Errors: the limit of layers; NoMemory.
    pub fn stack(&mut self, made: &Ruleset) -> Result<(), Errno>
        ensures ok { OnOk result ((layer_limit self.old ≡ []) × (self.new ≡ self.old ++ made.now ∷ [])) }

        // NoMemory is returned only if nothing else refuses the layer.
        ensures refused { IfErr result (λ errno. errno ≢ Errno.NoMemory
            → slice_get (layer_limit self.old) 0 ≡ Some errno) }
        ensures starved { result ≡ Err Errno.NoMemory → layer_limit self.old ≡ [] }
        ensures err { OnErr result (self.new ≡ self.old) }
    {
        if self.len() >= DOMAIN_LAYERS {
            return Err(Errno::E2BIG);
        }
        let Ok(layer) = made.layer().clone() else {
            return Err(Errno::NoMemory);
        };
        if self.layers.push(layer).is_err() {
            return Err(Errno::NoMemory);
        }
        Ok(())
    }

    /// Returns a copy of the domain. Errors: memory ran out.
    pub fn copy(&self) -> Result<Domain, AllocError>
        ensures { IfOk result (λ copy. copy ≡ self.now) }
    {
        let layers = self.layers.clone()?;
        Ok(Domain { layers })
    }

    /// Returns the number of layers.
    pub fn len(&self) -> usize
        ensures len { result ≡ length self.now }
        ensures most { result ≤ 16 }
    {
        self.layers.len()
    }

    /// Returns the layers, the oldest first.
    pub fn layers(&self) -> &[Layer]
        ensures { result.now ≡ self.now }
    {
        self.layers.as_slice()
    }
}
