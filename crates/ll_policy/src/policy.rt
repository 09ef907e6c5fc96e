//! Policies.

ghost use Rattle.std.specs.Prelude.{bytes_eq, ⊤, ◌≡◌, ◌⊎◌, ◌≤◌, [], Some, pos, option_map, slice_get, OnOk, IfOk};
ghost use Rattle.std.specs.Prelude.{IfErr, IfSome, false, map};
ghost use Rattle.std.specs.List.{AllByRecursion};
ghost use Rattle.std.specs.Map.{lookup};
ghost use Rattle.toml.specs.Parse.{parse_document};
ghost use Rattle.toml.specs.View.{table_view};
ghost use Rattle.ll_seq.specs.History.{is_connect};
ghost use Rattle.ll_policy.specs.Answers.{Checks, Reads};
ghost use Rattle.ll_policy.specs.Faults.{document_faults, level_faults, other_keys, policy_faults, top_faults};
ghost use Rattle.ll_policy.specs.Faults.{top_keys};
ghost use Rattle.ll_policy.specs.KeptCalls.{IsTop, calls_of_layers};
ghost use Rattle.ll_policy.specs.Plan.{IsPlan, IsPlanOf, level_by};
ghost use Rattle.ll_policy.specs.declared.fault.PolicyFault.TheVariants.{NoMemory};

use crate::document::read_document;
use crate::fault::PolicyFault;
use crate::node::{Node, opening_calls, read_nodes};
use crate::profile::{Layer, Profile, read_profiles};
use crate::table::{named_tables, only, tables};
use crate::values::{is_two, level, version};
use ll_rights::Abi;
use ll_seq::Call;
use std::alloc::{AllocError, Global};
use std::marker::Model;
use toml::{Table, Value};

// The keys at the top of a document.
#[derive(Drop)]
struct Top<'a> {
    abi: u64,
    nodes: &'a [Value],
    profiles: Option<&'a Table>,
}

// Checks that the document has no other keys than those of its version.
fn only_top(table: &Table, two: bool) -> Result<(), PolicyFault>
    ensures { Checks (other_keys (top_keys two) (table_view table.now)) (λ _. ⊤) result }
{
    if two {
        only(table, &["version", "abi", "node", "profile"])
    } else {
        only(table, &["version", "node", "profile"])
    }
}

// The level that a version 2 document states, or the fixed one of version 1.
fn level_of(table: &Table, two: bool) -> Result<u64, PolicyFault>
    ensures { Checks (level_faults two (table_view table.now))
        (λ level. (pos level ≡ level_by two (table_view table.now)) × (1 ≤ level) × (level ≤ 3)) result }
{
    if two { level(table) } else { Ok(3) }
}

fn read_top<'a>(table: &'a Table) -> Result<Top<'a>, PolicyFault>
    ensures { Checks (top_faults (table_view table.now)) (IsTop (table_view table.now)) result }
{
    let two = is_two(table);
    only_top(table, two)?;
    version(table)?;
    let abi = level_of(table, two)?;
    let nodes = tables(table, "node")?;
    let profiles = named_tables(table, "profile")?;
    Ok(Top {
        abi,
        nodes,
        profiles,
    })
}

/// The calls that the first client makes, and the calls that clients make by the names of their profiles.
#[derive(Drop)]
pub struct Policy {
    abi: Abi,
    nodes: Vec<Node>,
    profiles: Vec<Profile>,
}

impl Model for Policy {
    ghost use Rattle.std.specs.Prelude.{map};
    ghost use Rattle.ll_policy.specs.Plan.{Plan};

    ghost Value = { Plan };

    ghost use Rattle.ll_policy.specs.KeptCalls.{opening_of, named_calls};

    ghost view = { λ policy.
        record {
          abi = policy.abi;
          opening = opening_of policy.nodes.items;
          profiles = map named_calls policy.profiles.items;
        } };
}

impl Policy {
    // Reads a document's table.
    fn read(alloc: Global, table: &Table) -> Result<Policy, PolicyFault>
        ensures { Reads (policy_faults (table_view table.now)) (IsPlan (table_view table.now)) result }
    {
        let top = read_top(table)?;
        let Some(abi) = Abi::new(top.abi) else {
            unreachable!()
        };
        let nodes = read_nodes(alloc, top.nodes)?;
        let profiles = match top.profiles {
            Some(profiles) => read_profiles(alloc, profiles)?,
            None => Vec::new(alloc),
        };
        Ok(Policy {
            abi,
            nodes,
            profiles,
        })
    }

    /// Parses a policy. Errors: its first fault. If memory runs out, the result may be `NoMemory` instead.
    pub fn from_text(alloc: Global, text: &str) -> Result<Policy, PolicyFault>
        ensures right { OnOk result (document_faults (parse_document text.now) ≡ []) }
        ensures plan { IfOk result (IsPlanOf (parse_document text.now)) }
        ensures fault { IfErr result (λ fault. (fault ≡ NoMemory)
            ⊎ (slice_get (document_faults (parse_document text.now)) 0 ≡ Some fault)) }
    {
        let table = read_document(alloc, text)?;
        Policy::read(alloc, &table)
    }

    /// Returns the ABI level of the policy's tree.
    pub fn abi(&self) -> Abi
        ensures { result ≡ self.now.abi }
    {
        self.abi
    }

    /// Returns the profiles' names. Errors: memory ran out.
    pub fn names(&self, alloc: Global) -> Result<Vec<&str>, AllocError>
        ensures { IfOk result (λ names. map (λ name. name.now) names.items
            ≡ map (λ profile. profile.0) self.now.profiles) }
    {
        let mut names = Vec::new(alloc);
        for profile in &self.profiles {
            names.push(profile.name())?;
        }
        Ok(names)
    }

    /// Returns the calls that a client makes before all others, in order. None of them is a connect. Errors: memory ran
    /// out.
    pub fn opening(&self, alloc: Global) -> Result<Vec<Call>, AllocError>
        ensures calls { IfOk result (λ calls. calls.items ≡ self.now.opening) }
        ensures connects { IfOk result (λ calls. AllByRecursion (λ call. is_connect call ≡ false) calls.items) }
    {
        opening_calls(alloc, &self.nodes)
    }

    /// Returns the calls that each client of this profile makes first, in order. None if the policy has no such
    /// profile. None of the calls is a connect. Errors: memory ran out.
    pub fn profile(&self, alloc: Global, name: &str) -> Result<Option<Vec<Call>>, AllocError>
        ensures calls { IfOk result (λ found. option_map (λ calls. calls.items) found
            ≡ lookup (bytes_eq name.now) self.now.profiles) }
        ensures connects { IfOk result (λ found. IfSome found (λ calls.
            AllByRecursion (λ call. is_connect call ≡ false) calls.items)) }
    {
        for profile in &self.profiles {
            if profile.is_named(name) {
                return Ok(Some(profile.calls(alloc)?));
            }
        }
        Ok(None)
    }

    /// Returns the profile's layers, the oldest first. None if the policy has no such profile.
    pub fn layers(&self, name: &str) -> Option<&[Layer]>
        ensures { option_map (λ layers. calls_of_layers 0 layers.now) result
            ≡ lookup (bytes_eq name.now) self.now.profiles }
    {
        for profile in &self.profiles {
            if profile.is_named(name) {
                return Some(profile.layers());
            }
        }
        None
    }
}
