//! The part of a policy that is exported, and its flaws.

ghost use Rattle.std.specs.Prelude.{◌≡◌, true, false, IfOk, IfErr, is_none};
ghost use Rattle.std.specs.List.{list_all};
ghost use Rattle.ll_rules.specs.Rules.{create_refusals, new_ruleset};
ghost use Rattle.ll_commands.specs.Confinement.{is_enforceable, is_free, is_sound_layer, is_sound_rule, kind_among};
ghost use Rattle.ll_commands.specs.Confinement.{kind_at, made_at};

use ll_path::Target;
use ll_policy::{Layer, PathText, Rule};
use ll_rights::limits::{DOMAIN_LAYERS, RULESET_INODES};
use ll_rights::{Abi, Access, Kind};
use ll_rules::Ruleset;
use ll_seq::Call;
use std::alloc::Global;
use std::fmt;
use std::fmt::Display;

/// A profile's layers, the oldest first, with the policy's level and the calls that create its nodes.
#[derive(Drop)]
pub struct Confinement<'a> {
    pub abi: Abi,
    pub opening: &'a [Call],
    pub layers: &'a [Layer],
}

/// Why a rule can't be exported.
#[derive(Clone, Copy, Debug, PartialEq, Eq)]
pub enum RuleFlaw {
    /// The policy creates no node at its path.
    NoNode,
    GrantsNothing,
    /// It allows a right that its layer doesn't handle.
    GrantsMore,
    /// It allows a right that only a directory can have, and its path isn't one.
    NoDirectory,
}

/// Why a layer can't be exported. Rules are counted from 1.
#[derive(Clone, Copy, Debug, PartialEq, Eq)]
pub enum LayerFlaw {
    HandlesNothing,
    /// It handles a right that the policy's level doesn't have.
    HandlesMore,
    /// It has so many rules.
    ManyRules(usize),
    OfRule(usize, RuleFlaw),
}

/// Why a profile can't be exported. Layers are counted from 1.
#[derive(Clone, Copy, Debug, PartialEq, Eq)]
pub enum Flaw {
    NoLayer,
    /// There are so many.
    ManyLayers(usize),
    OfLayer(usize, LayerFlaw),
}

/// The flaw that keeps the profile of this name from being exported.
#[derive(Drop)]
pub struct FlawedProfile<'a> {
    pub name: &'a str,
    pub flaw: Flaw,
}

impl Display for FlawedProfile<'_> {
    fn fmt<W: fmt::Write>(&self, f: &mut fmt::Formatter<W>) -> fmt::Result {
        let name = self.name;
        let (layer, flaw) = match self.flaw {
            Flaw::NoLayer => {
                return write!(
                    f,
                    "profile {name} has no layer: the program would run unconfined"
                );
            }
            Flaw::ManyLayers(layers) => {
                return write!(
                    f,
                    "profile {name} has {layers} layers, and may have {DOMAIN_LAYERS}"
                );
            }
            Flaw::OfLayer(layer, flaw) => (layer, flaw),
        };
        match flaw {
            LayerFlaw::HandlesNothing => write!(
                f,
                "layer {layer} of profile {name} handles nothing"
            ),
            LayerFlaw::HandlesMore => write!(
                f,
                "layer {layer} of profile {name} handles a right that the policy's level doesn't know"
            ),
            LayerFlaw::ManyRules(rules) => write!(
                f,
                "layer {layer} of profile {name} has {rules} rules, and may have {RULESET_INODES}"
            ),
            LayerFlaw::OfRule(rule, RuleFlaw::NoNode) => write!(
                f,
                "rule {rule} of layer {layer} of profile {name} is on a path at which the policy has no node"
            ),
            LayerFlaw::OfRule(rule, RuleFlaw::GrantsNothing) => write!(
                f,
                "rule {rule} of layer {layer} of profile {name} grants nothing"
            ),
            LayerFlaw::OfRule(rule, RuleFlaw::GrantsMore) => write!(
                f,
                "rule {rule} of layer {layer} of profile {name} grants a right that the layer doesn't handle"
            ),
            LayerFlaw::OfRule(rule, RuleFlaw::NoDirectory) => write!(
                f,
                "rule {rule} of layer {layer} of profile {name} grants a right that only a directory can have, \
                 and its path isn't one"
            ),
        }
    }
}

// The kind of the node that the call creates, if it creates one at this path.
fn made_at(call: &Call, path: &PathText) -> Option<Kind>
    ensures { result ≡ made_at path.now call.now }
{
    match call {
        Call::Make(kind, Target::Good(made)) if made.as_str() == path.as_str() => Some(*kind),
        _ => None,
    }
}

fn kind_among(calls: &[Call], path: &PathText) -> Option<Kind>
    ensures { result ≡ kind_among path.now calls.now }
{
    for call in calls {
        if let Some(kind) = made_at(call, path) {
            return Some(kind);
        }
    }
    None
}

/// Returns the kind of the node that these calls create at the path. The root is a directory.
pub(crate) fn kind_at(calls: &[Call], path: &PathText) -> Option<Kind>
    ensures { result ≡ kind_at calls.now path.now }
{
    if path.as_str() == "/" {
        return Some(Kind::Dir);
    }
    kind_among(calls, path)
}

// Why no ruleset that handles these rights takes a rule with those on the node at its path, if none does.
fn flaw_of_rights(handled: Access, rights: Access) -> RuleFlaw {
    if rights.0 == 0 {
        RuleFlaw::GrantsNothing
    } else if rights.is_within(handled) {
        RuleFlaw::NoDirectory
    } else {
        RuleFlaw::GrantsMore
    }
}

fn flaw_of_rule(opening: &[Call], made: &Ruleset, rule: &Rule) -> Option<RuleFlaw>
    ensures { is_none result ≡ is_sound_rule opening.now made.now rule.now }
{
    let Some(kind) = kind_at(opening, &rule.path) else {
        return Some(RuleFlaw::NoNode);
    };
    match made.refusal(kind, rule.rights) {
        Some(_) => Some(flaw_of_rights(made.layer().handled(), rule.rights)),
        None => None,
    }
}

// The first flaw of these rules of a ruleset.
fn flaw_of_rules(opening: &[Call], made: &Ruleset, rules: &[Rule]) -> Option<LayerFlaw>
    ensures { is_none result ≡ list_all (is_sound_rule opening.now made.now) rules.now }
{
    let mut number: usize = 1;
    for rule in rules {
        if let Some(flaw) = flaw_of_rule(opening, made, rule) {
            return Some(LayerFlaw::OfRule(number, flaw));
        }
        number = number.saturating_add(1);
    }
    None
}

// Returns a ruleset that handles these rights, or why there is none at this level.
fn ruleset_for(alloc: Global, abi: Abi, handled: Access) -> Result<Ruleset, LayerFlaw>
    ensures made { IfOk result (λ made. (is_free (create_refusals abi handled.0) ≡ true)
        × (made ≡ new_ruleset handled.0)) }
    ensures flaw { IfErr result (λ flaw. is_free (create_refusals abi handled.0) ≡ false) }
{
    match Ruleset::create(alloc, abi, handled) {
        Ok(ruleset) => Ok(ruleset),
        Err(_) if handled.0 == 0 => Err(LayerFlaw::HandlesNothing),
        Err(_) => Err(LayerFlaw::HandlesMore),
    }
}

fn flaw_of_layer(alloc: Global, abi: Abi, opening: &[Call], layer: &Layer) -> Option<LayerFlaw>
    ensures { is_none result ≡ is_sound_layer abi opening.now layer.now }
{
    let rules = layer.rules.as_slice();
    match ruleset_for(alloc, abi, layer.handled) {
        Err(flaw) => Some(flaw),
        Ok(_) if rules.len() > RULESET_INODES => Some(LayerFlaw::ManyRules(rules.len())),
        Ok(ruleset) => flaw_of_rules(opening, &ruleset, rules),
    }
}

// The first flaw of these layers.
fn flaw_of_layers(alloc: Global, abi: Abi, opening: &[Call], layers: &[Layer]) -> Option<Flaw>
    ensures { is_none result ≡ list_all (is_sound_layer abi opening.now) layers.now }
{
    let mut number: usize = 1;
    for layer in layers {
        if let Some(flaw) = flaw_of_layer(alloc, abi, opening, layer) {
            return Some(Flaw::OfLayer(number, flaw));
        }
        number = number.saturating_add(1);
    }
    None
}

impl Confinement<'_> {
    /// Returns the layers' first flaw, or None if they can be exported: the tree takes each. Takes no memory.
    pub fn flaw(&self, alloc: Global) -> Option<Flaw>
        ensures { is_none result ≡ is_enforceable self.now }
    {
        match self.layers.len() {
            0 => Some(Flaw::NoLayer),
            layers if layers > DOMAIN_LAYERS => Some(Flaw::ManyLayers(layers)),
            _ => flaw_of_layers(alloc, self.abi, self.opening, self.layers),
        }
    }
}
