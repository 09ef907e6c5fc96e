//! Changes to the clients' own records.

ghost use Rattle.std.specs.Prelude.{◌≡◌, ◌+◌, ◌<◌, [], ◌∷◌, ◌++◌, length, nat_le, IfOk, IfErr, OnOk, OnErr, Some, true};
ghost use Rattle.std.specs.Prelude.{slice_get, slice_set, is_none};
ghost use Rattle.ll_rights.specs.Errno.{refuse};
ghost use Rattle.ll_rights.specs.Map.{get, has, insert, remove};
ghost use Rattle.ll_rules.specs.Layer.{Layer};
ghost use Rattle.ll_rules.specs.Rules.{create_refusals, new_ruleset, rule_refusals, rule_limit, with_rule, layer_limit};
ghost use Rattle.ll_seq.specs.Stages.{lowest_free, ruleset_at};
ghost use Rattle.ll_seq.specs.Fails.{Fails};
ghost use Rattle.ll_seq.specs.declared.client.ClientRecord as record_of;

use crate::client::{ClientRecord, Descriptor};
use crate::number_map::{NumberMap, index_of};
use ll_rights::limits::CLIENT_RULESETS;
use ll_rights::{Abi, Access, Errno, Kind};
use std::alloc::Global;

impl NumberMap<ClientRecord> {
    /// Opens a file at the client's lowest free descriptor. Returns its number. Errors: EMFILE if none is free;
    /// NoMemory. Nothing has changed then.
    pub fn open(&mut self, client: u64, descriptor: Descriptor) -> Result<u64, Errno>
        requires { has self.old client ≡ true }
        ensures ok { IfOk result (λ number. (c : record_of.ClientRecord) → get self.old client ≡ Some c
            → (lowest_free c.descriptors ≡ Some number)
            × (self.new ≡ insert self.old client
            (record c { descriptors = insert c.descriptors number descriptor }))) }
        ensures refused { IfErr result (λ errno. (c : record_of.ClientRecord) → get self.old client ≡ Some c
            → Fails (refuse (is_none (lowest_free c.descriptors)) Errno.EMFILE) errno) }
        ensures err { OnErr result (self.new ≡ self.old) }
    {
        let Some(i) = index_of(&self.rows, client) else {
            unreachable!();
        };
        let row = &mut self.rows[i];
        row.1.open(descriptor)
    }

    /// Closes the client's descriptor.
    pub fn close(&mut self, client: u64, number: u64)
        requires { has self.old client ≡ true }
        ensures { (c : record_of.ClientRecord) → get self.old client ≡ Some c
            → self.new ≡ insert self.old client (record c { descriptors = remove c.descriptors number }) }
    {
        let Some(i) = index_of(&self.rows, client) else {
            unreachable!();
        };
        let row = &mut self.rows[i];
        row.1.descriptors.remove(number);
    }

    /// Creates a ruleset of the client that handles these rights, at an ABI level. Returns its number. Errors: those of
    /// `ClientRecord::create_ruleset`; nothing has changed.
    pub fn create_ruleset(
        &mut self,
        alloc: Global,
        client: u64,
        abi: Abi,
        handled: Access,
    ) -> Result<u64, Errno>
        requires { has self.old client ≡ true }
        ensures ok { IfOk result (λ number. (c : record_of.ClientRecord) → get self.old client ≡ Some c
            → (create_refusals abi handled.0 ++ refuse (nat_le CLIENT_RULESETS (length c.rulesets)) Errno.EMFILE ≡ [])
            × (number ≡ length c.rulesets)
            × (self.new ≡ insert self.old client (record c { rulesets = c.rulesets ++ new_ruleset handled.0 ∷ [] }))) }
        ensures refused { IfErr result (λ errno. (c : record_of.ClientRecord) → get self.old client ≡ Some c
            → Fails (create_refusals abi handled.0 ++ refuse (nat_le CLIENT_RULESETS (length c.rulesets)) Errno.EMFILE)
            errno) }
        ensures err { OnErr result (self.new ≡ self.old) }
    {
        let Some(i) = index_of(&self.rows, client) else {
            unreachable!();
        };
        let row = &mut self.rows[i];
        row.1.create_ruleset(alloc, abi, handled)
    }

    /// Adds a rule to an existing ruleset of the client, on the inode of a node of this kind. Errors: those of
    /// `Ruleset::allow`; nothing has changed.
    pub fn allow(
        &mut self,
        client: u64,
        number: u64,
        inode: u64,
        kind: Kind,
        rights: Access,
    ) -> Result<(), Errno>
        requires there { has self.old client ≡ true }
        requires made { (c : record_of.ClientRecord) → get self.old client ≡ Some c → number < length c.rulesets }
        ensures ok { OnOk result ((c : record_of.ClientRecord) → get self.old client ≡ Some c → (made : Layer)
            × (slice_get c.rulesets number ≡ Some made)
            × (rule_refusals made kind rights.0 ++ rule_limit made inode ≡ [])
            × (self.new ≡ insert self.old client
            (record c { rulesets = slice_set c.rulesets number (with_rule made inode rights.0) }))) }
        ensures refused { IfErr result (λ errno. (c : record_of.ClientRecord) → get self.old client ≡ Some c
            → (made : Layer) → slice_get c.rulesets number ≡ Some made
            → Fails (rule_refusals made kind rights.0 ++ rule_limit made inode) errno) }
        ensures err { OnErr result (self.new ≡ self.old) }
    {
        let Some(i) = index_of(&self.rows, client) else {
            unreachable!();
        };
        let row = &mut self.rows[i];
        row.1.rulesets.allow(number, inode, kind, rights)
    }

    /// Enforces an existing ruleset of the client as its newest layer. Errors: those of `Domain::stack`; nothing has
    /// changed.
    pub fn confine(&mut self, client: u64, number: u64) -> Result<(), Errno>
        requires there { has self.old client ≡ true }
        requires made { (c : record_of.ClientRecord) → get self.old client ≡ Some c → number < length c.rulesets }
        ensures ok { OnOk result ((c : record_of.ClientRecord) → get self.old client ≡ Some c
            → (layer_limit c.domain ≡ [])
            × (self.new ≡ insert self.old client (record c { domain = c.domain ++ ruleset_at c number ∷ [] }))) }
        ensures refused { IfErr result (λ errno. (c : record_of.ClientRecord) → get self.old client ≡ Some c
            → Fails (layer_limit c.domain) errno) }
        ensures err { OnErr result (self.new ≡ self.old) }
    {
        let Some(i) = index_of(&self.rows, client) else {
            unreachable!();
        };
        let row = &mut self.rows[i];
        row.1.confine(number)
    }
}
