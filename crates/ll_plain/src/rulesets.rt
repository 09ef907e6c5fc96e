//! Calls that concern only the client's own record.

ghost use Rattle.std.specs.Prelude.{◌≡◌, true, false, slice_get, is_some, IfOk};
ghost use Rattle.ll_rights.specs.Map.{has};
ghost use Rattle.ll_seq.specs.Effects.{child_of};
ghost use Rattle.ll_seq.specs.Step.{client_of};
ghost use Rattle.ll_plain.specs.Outcomes.{Comes, ComesBy};
ghost use Rattle.ll_seq.specs.declared.call.Call.TheVariants as calls;

use crate::Plain;
use ll_rights::limits::TREE_CLIENTS;
use ll_rights::{Access, Errno};
use ll_seq::{ClientRecord, Reply};
use std::alloc::AllocError;

impl Plain {
    fn has_ruleset(&self, client: u64, number: u64) -> bool
        ensures { result ≡ is_some (slice_get (client_of self.now client).rulesets number) }
    {
        match self.clients.get(client) {
            None => false,
            Some(record) => record.rulesets.get(number).is_some(),
        }
    }

    pub(crate) fn create_ruleset(&mut self, client: u64, rights: Access) -> Reply
        requires { has self.old.clients client ≡ true }
        ensures { Comes self.old client (calls.Ruleset rights) result self.new }
    {
        let number = match self
            .clients
            .create_ruleset(self.alloc, client, self.rules.abi, rights)
        {
            Err(errno) => return Reply::Refused(errno),
            Ok(number) => number,
        };
        Reply::Created(number)
    }

    pub(crate) fn confine(&mut self, client: u64, number: u64) -> Reply
        requires { has self.old.clients client ≡ true }
        ensures { Comes self.old client (calls.Confine number) result self.new }
    {
        if !self.has_ruleset(client, number) {
            return Reply::Refused(Errno::EBADF);
        }
        if let Err(errno) = self.clients.confine(client, number) {
            return Reply::Refused(errno);
        }
        Reply::Done
    }

    /// The record of a client that this one spawns. Errors: memory ran out.
    fn child_of(&self, client: u64) -> Result<ClientRecord, AllocError>
        requires { has self.now.clients client ≡ true }
        ensures { IfOk result (λ child. child ≡ child_of self.now.rules (client_of self.now client)) }
    {
        match self.clients.get(client) {
            None => unreachable!(),
            Some(record) => record.child(self.alloc, self.rules),
        }
    }

    pub(crate) fn spawn(&mut self, client: u64, fresh: u64) -> Reply
        requires caller { has self.old.clients client ≡ true }
        requires fresh { has self.old.clients fresh ≡ false }
        ensures { ComesBy fresh self.old client calls.Spawn result self.new }
    {
        if TREE_CLIENTS <= self.clients.len() {
            return Reply::Refused(Errno::EMFILE);
        }
        let Ok(child) = self.child_of(client) else {
            return Reply::Refused(Errno::NoMemory);
        };
        if !self.facts.have_room(&child.descriptors) {
            return Reply::Refused(Errno::NoMemory);
        }
        if let Err(_) = self.clients.insert(fresh, child) {
            return Reply::Refused(Errno::NoMemory);
        }
        let Some(child) = self.clients.get(fresh) else {
            unreachable!()
        };
        self.facts.open_all(&child.descriptors);
        Reply::Spawned(fresh)
    }

    pub(crate) fn connect(&mut self, client: u64) -> Reply
        requires { has self.old.clients client ≡ false }
        ensures { Comes self.old client calls.Connect result self.new }
    {
        if TREE_CLIENTS <= self.clients.len() {
            return Reply::Refused(Errno::EMFILE);
        }
        let record = ClientRecord::new(self.alloc);
        if let Err(_) = self.clients.insert(client, record) {
            return Reply::Refused(Errno::NoMemory);
        }
        Reply::Done
    }
}
