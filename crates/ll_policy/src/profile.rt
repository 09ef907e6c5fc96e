//! Profiles: the layers of a policy's clients.

ghost use Rattle.std.specs.Prelude.{bytes_eq, ◌≡◌, [], ◌∷◌, ◌++◌, ℕ, flat_map, map, OnOk, IfOk, string_bytes};
ghost use Rattle.std.specs.List.{enumerate_from};
ghost use Rattle.toml.specs.View.{table_view, items_view};
ghost use Rattle.ll_policy.specs.Answers.{Reads};
ghost use Rattle.ll_policy.specs.Calls.{IsRule, IsLayer, IsProfile, Joined};
ghost use Rattle.ll_policy.specs.Faults.{rule_faults, layer_faults, profile_faults};
ghost use Rattle.ll_policy.specs.KeptCalls.{call_of_rule, calls_of_layer, calls_of_layers, named_calls};
ghost use Rattle.ll_policy.specs.Plan.{Each};
ghost use Rattle.ll_policy.specs.Table.{tables_of, named_tables};

use crate::fault::PolicyFault;
use crate::path_text::PathText;
use crate::table::{only, tables};
use crate::values::{is_name, path, rights};
use ll_rights::Access;
use ll_seq::Call;
use std::alloc::{AllocError, Global};
use toml::{Table, Value};

/// The rights that a rule allows on the node of a path, and below it.
#[derive(Drop)]
pub struct Rule {
    pub path: PathText,
    pub rights: Access,
}

impl Rule {
    /// Reads a rule's table.
    pub(crate) fn read(alloc: Global, table: &Table) -> Result<Rule, PolicyFault>
        ensures { Reads (rule_faults (table_view table.now))
            (λ rule. (number : ℕ) → IsRule number (table_view table.now) (call_of_rule number rule ∷ [])) result }
    {
        only(table, &["path", "rights"])?;
        let path = path(alloc, table)?;
        let rights = rights(table, "rights")?;
        Ok(Rule { path, rights })
    }
}

fn read_rules(alloc: Global, values: &[Value]) -> Result<Vec<Rule>, PolicyFault>
    ensures { Reads (flat_map rule_faults (tables_of (items_view values.now)))
        (λ rules. (number : ℕ)
        → Joined (IsRule number) (tables_of (items_view values.now)) (map (call_of_rule number) rules.items)) result }
{
    let mut rules = Vec::new(alloc);
    for value in values {
        if let Some(table) = value.as_table() {
            rules.push(Rule::read(alloc, table)?)?;
        }
    }
    Ok(rules)
}

/// A layer of a profile: the rights that it handles, and its rules in order.
#[derive(Drop)]
pub struct Layer {
    pub handled: Access,
    pub rules: Vec<Rule>,
}

impl Layer {
    /// Reads a layer's table.
    pub(crate) fn read(alloc: Global, table: &Table) -> Result<Layer, PolicyFault>
        ensures { Reads (layer_faults (table_view table.now))
            (λ layer. (number : ℕ) → IsLayer (number, table_view table.now) (calls_of_layer number layer)) result }
    {
        only(table, &["handled", "rule"])?;
        let handled = rights(table, "handled")?;
        let rules = read_rules(alloc, tables(table, "rule")?)?;
        Ok(Layer { handled, rules })
    }

    // Appends the calls that create the ruleset of this number and enforce it.
    fn push_calls(
        &self,
        alloc: Global,
        number: u64,
        calls: &mut Vec<Call>,
    ) -> Result<(), AllocError>
        ensures { OnOk result (calls.new.items ≡ calls.old.items ++ calls_of_layer number self.now) }
    {
        calls.push(Call::Ruleset(self.handled))?;
        for rule in &self.rules {
            let target = rule.path.target(alloc)?;
            calls.push(Call::Allow(number, target, rule.rights))?;
        }
        calls.push(Call::Confine(number))?;
        Ok(())
    }
}

fn read_layers(alloc: Global, values: &[Value]) -> Result<Vec<Layer>, PolicyFault>
    ensures { Reads (flat_map layer_faults (tables_of (items_view values.now)))
        (λ layers. Joined IsLayer (enumerate_from 0 (tables_of (items_view values.now)))
        (calls_of_layers 0 layers.items)) result }
{
    let mut layers = Vec::new(alloc);
    for value in values {
        if let Some(table) = value.as_table() {
            layers.push(Layer::read(alloc, table)?)?;
        }
    }
    Ok(layers)
}

/// A profile's name and its layers.
#[derive(Drop)]
pub(crate) struct Profile {
    name: String,
    layers: Vec<Layer>,
}

impl Profile {
    /// Reads a profile's table.
    fn read(alloc: Global, name: &str, table: &Table) -> Result<Profile, PolicyFault>
        ensures { Reads (profile_faults (name.now, table_view table.now))
            (λ profile. IsProfile (name.now, table_view table.now) (named_calls profile)) result }
    {
        if !is_name(name) {
            return Err(PolicyFault::BadName);
        }
        only(table, &["layer"])?;
        let layers = read_layers(alloc, tables(table, "layer")?)?;
        let name = String::from_str(alloc, name)?;
        Ok(Profile { name, layers })
    }

    pub(crate) fn is_named(&self, name: &str) -> bool
        ensures { result ≡ bytes_eq name.now (string_bytes self.now.name) }
    {
        name == self.name.as_str()
    }

    pub(crate) fn name(&self) -> &str
        ensures { result.now ≡ string_bytes self.now.name }
    {
        self.name.as_str()
    }

    /// The layers, the oldest first.
    pub(crate) fn layers(&self) -> &[Layer]
        ensures { result.now ≡ self.now.layers.items }
    {
        self.layers.as_slice()
    }

    /// Returns the calls that give a client the layers. Errors: memory ran out.
    pub(crate) fn calls(&self, alloc: Global) -> Result<Vec<Call>, AllocError>
        ensures { IfOk result (λ calls. calls.items ≡ calls_of_layers 0 self.now.layers.items) }
    {
        let mut calls = Vec::new(alloc);
        let mut number = 0;
        for layer in &self.layers {
            layer.push_calls(alloc, number, &mut calls)?;
            number += 1;
        }
        Ok(calls)
    }
}

/// Reads a table of profiles.
pub(crate) fn read_profiles(alloc: Global, table: &Table) -> Result<Vec<Profile>, PolicyFault>
    ensures { Reads (flat_map profile_faults (named_tables (table_view table.now)))
        (λ profiles. Each IsProfile (named_tables (table_view table.now)) (map named_calls profiles.items)) result }
{
    let mut profiles = Vec::new(alloc);
    for (name, value) in table.iter() {
        if let Some(table) = value.as_table() {
            profiles.push(Profile::read(alloc, name.as_str(), table)?)?;
        }
    }
    Ok(profiles)
}
