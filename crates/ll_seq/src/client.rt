//! Clients.

ghost use Rattle.std.specs.Prelude.{◌≡◌, ◌+◌, ◌<◌, [], ◌∷◌, ◌++◌, length, nat_le, IfOk, IfErr, OnOk, OnErr, Some};
ghost use Rattle.std.specs.Prelude.{slice_get, slice_set, is_none};
ghost use Rattle.std.specs.Option.{option_copied};
ghost use Rattle.ll_rights.specs.Errno.{refuse};
ghost use Rattle.ll_rights.specs.Map.{empty, insert};
ghost use Rattle.ll_rules.specs.Layer.{Layer};
ghost use Rattle.ll_seq.specs.Fails.{Fails};
ghost use Rattle.ll_rules.specs.Rules.{create_refusals, new_ruleset, rule_refusals, rule_limit, with_rule, layer_limit};

use crate::number_map::NumberMap;
use crate::rules::Rules;
use ll_rights::limits::{CLIENT_DESCRIPTORS, CLIENT_RULESETS};
use ll_rights::{Abi, Access, Errno, Kind};
use ll_rules::{Domain, Ruleset};
use std::alloc::{AllocError, Global};
use std::marker::Model;

/// An open file. `kept` is the number of the oldest layer that didn't grant truncate when the file was opened, or None.
#[derive(Drop, Clone, Copy, Debug, PartialEq, Eq)]
pub struct Descriptor {
    pub inode: u64,
    pub reads: bool,
    pub writes: bool,
    pub kept: Option<u64>,
}

/// A client's rulesets, in the order of their numbers. Contracts see the list.
#[derive(Drop)]
pub struct Rulesets {
    made: Vec<Ruleset>,
}

impl Model for Rulesets {
    ghost use Rattle.std.specs.Prelude.{List};
    ghost use Rattle.std.specs.Coded.{coded_list};
    ghost use Rattle.ll_rules.specs.Layer.{Layer};
    ghost use Rattle.ll_rules.specs.LayerCodes.{coded_layer};

    ghost Value = { List Layer };

    ghost coded = { coded_list coded_layer };

    ghost view = { λ rulesets. rulesets.made.items };
}

impl Rulesets {
    pub fn new(alloc: Global) -> Rulesets
        ensures { result ≡ [] }
    {
        Rulesets {
            made: Vec::new(alloc),
        }
    }

    pub fn len(&self) -> usize
        ensures { result ≡ length self.now }
    {
        self.made.len()
    }

    /// Returns the ruleset of this number.
    pub fn get(&self, number: u64) -> Option<&Ruleset>
        ensures { option_copied result ≡ slice_get self.now number }
    {
        self.made.get(number as usize)
    }

    /// Adds a ruleset under the next number. Errors: memory ran out.
    pub fn push(&mut self, made: Ruleset) -> Result<(), AllocError>
        ensures ok { OnOk result (self.new ≡ self.old ++ made ∷ []) }
        ensures err { OnErr result (self.new ≡ self.old) }
    {
        self.made.push(made)?;
        Ok(())
    }

    /// Adds a rule to an existing ruleset, on the inode of a node of this kind. Errors: those of `Ruleset::allow`;
    /// nothing has changed.
    pub fn allow(
        &mut self,
        number: u64,
        inode: u64,
        kind: Kind,
        rights: Access,
    ) -> Result<(), Errno>
        requires { number < length self.old }
        ensures ok { OnOk result ((made : Layer) × (slice_get self.old number ≡ Some made)
            × (rule_refusals made kind rights.0 ++ rule_limit made inode ≡ [])
            × (self.new ≡ slice_set self.old number (with_rule made inode rights.0))) }
        ensures refused { IfErr result (λ errno. (made : Layer) → slice_get self.old number ≡ Some made
            → Fails (rule_refusals made kind rights.0 ++ rule_limit made inode) errno) }
        ensures err { OnErr result (self.new ≡ self.old) }
    {
        let made = &mut self.made[number as usize];
        made.allow(inode, kind, rights)
    }
}

/// A client: its layers, its rulesets, and its open files by number.
#[derive(Drop)]
pub struct ClientRecord {
    pub domain: Domain,
    pub rulesets: Rulesets,
    pub descriptors: NumberMap<Descriptor>,
}

impl ClientRecord {
    ghost use Rattle.ll_seq.specs.State.{new_client};
    ghost use Rattle.ll_seq.specs.Effects.{child_of};
    ghost use Rattle.ll_seq.specs.Stages.{lowest_free, ruleset_at};

    /// Returns a client without layers, rulesets and descriptors.
    pub fn new(alloc: Global) -> ClientRecord
        ensures { result ≡ new_client }
    {
        ClientRecord {
            domain: Domain::empty(alloc),
            rulesets: Rulesets::new(alloc),
            descriptors: NumberMap::new(alloc),
        }
    }

    /// Returns the record of a client that this one spawns, in a tree with these rules. Errors: memory ran out.
    pub fn child(&self, alloc: Global, rules: Rules) -> Result<ClientRecord, AllocError>
        ensures { IfOk result (λ child. child ≡ child_of rules self.now) }
    {
        let descriptors = if rules.copies {
            self.descriptors.copy(alloc)?
        } else {
            NumberMap::new(alloc)
        };
        let rulesets = Rulesets::new(alloc);
        Ok(ClientRecord {
            domain: self.domain.copy()?,
            rulesets,
            descriptors,
        })
    }

    /// Returns the lowest free descriptor number, or None if all are in use.
    pub fn lowest_free(&self) -> Option<u64>
        ensures { result ≡ lowest_free self.now.descriptors }
    {
        for number in 0..CLIENT_DESCRIPTORS as u64 {
            if !self.descriptors.has(number) {
                return Some(number);
            }
        }
        None
    }

    /// Opens a file at the lowest free descriptor. Returns its number. Errors: EMFILE if none is free; NoMemory.
    /// Nothing has changed then.
    pub fn open(&mut self, descriptor: Descriptor) -> Result<u64, Errno>
        ensures ok { IfOk result (λ number. (lowest_free self.old.descriptors ≡ Some number)
            × (self.new ≡ record self.old { descriptors = insert self.old.descriptors number descriptor })) }
        ensures refused { IfErr result
            (λ errno. Fails (refuse (is_none (lowest_free self.old.descriptors)) Errno.EMFILE) errno) }
        ensures err { OnErr result (self.new ≡ self.old) }
    {
        let Some(number) = self.lowest_free() else {
            return Err(Errno::EMFILE);
        };
        if self.descriptors.insert(number, descriptor).is_err() {
            return Err(Errno::NoMemory);
        }
        Ok(number)
    }

    /// Creates a ruleset that handles these rights, at an ABI level. Returns its number. Errors: those of
    /// `Ruleset::create`; EMFILE at the limit of rulesets; NoMemory. Nothing has changed then.
    pub fn create_ruleset(&mut self, alloc: Global, abi: Abi, handled: Access) -> Result<u64, Errno>
        ensures ok { IfOk result (λ number.
            (create_refusals abi handled.0 ++ refuse (nat_le CLIENT_RULESETS (length self.old.rulesets)) Errno.EMFILE
            ≡ [])
            × (number ≡ length self.old.rulesets)
            × (self.new ≡ record self.old { rulesets = self.old.rulesets ++ new_ruleset handled.0 ∷ [] })) }
        ensures refused { IfErr result
            (λ errno. Fails (create_refusals abi handled.0
            ++ refuse (nat_le CLIENT_RULESETS (length self.old.rulesets)) Errno.EMFILE) errno) }
        ensures err { OnErr result (self.new ≡ self.old) }
    {
        let made = match Ruleset::create(alloc, abi, handled) {
            Ok(made) => made,
            Err(errno) => return Err(errno),
        };
        let number = self.rulesets.len();
        if CLIENT_RULESETS <= number {
            return Err(Errno::EMFILE);
        }
        if self.rulesets.push(made).is_err() {
            return Err(Errno::NoMemory);
        }
        Ok(number as u64)
    }

    /// Enforces an existing ruleset as the newest layer. Errors: those of `Domain::stack`; nothing has changed.
    pub fn confine(&mut self, number: u64) -> Result<(), Errno>
        requires { number < length self.old.rulesets }
        ensures ok { OnOk result ((layer_limit self.old.domain ≡ [])
            × (self.new ≡ record self.old { domain = self.old.domain ++ ruleset_at self.old number ∷ [] })) }
        ensures refused { IfErr result (λ errno. Fails (layer_limit self.old.domain) errno) }
        ensures err { OnErr result (self.new ≡ self.old) }
    {
        match self.rulesets.get(number) {
            None => Err(Errno::EBADF),
            Some(made) => self.domain.stack(made),
        }
    }
}
