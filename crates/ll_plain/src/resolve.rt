//! From the paths of a call to its decision.

ghost use Rattle.std.specs.Prelude.{◌≡◌, ℕ, true, nat_le, MatchOption, MatchResult};
ghost use Rattle.ll_rights.specs.Map.{has, len};
ghost use Rattle.ll_seq.specs.Call.{first_path, path_of, second_path};
ghost use Rattle.ll_seq.specs.Step.{client_of};
ghost use Rattle.ll_seq.specs.Decided.{IsDone, IsRefused};
ghost use Rattle.ll_seq.specs.Found.{AreFacts};
ghost use Rattle.ll_seq.specs.Passed.{has_path};
ghost use Rattle.ll_plain.specs.WalkPlace.{IsPathWalk};

use crate::Plain;
use crate::walk::PathWalk;
use ll_decide::Granted;
use ll_path::Target;
use ll_rules::Domain;
use ll_seq::{Call, ClientRecord, Effect, Found, Reply, Targets, decide, targets_of};

impl Plain {
    /// Walks the path argument. A word that is no path is walked as the root.
    fn walk_target(&self, domain: &Domain, target: &Target) -> PathWalk
        ensures { IsPathWalk self.now domain.now (path_of target.now) result }
    {
        match target {
            Target::Good(path) => self.walk_path(domain, path),
            Target::Bad(_) => self.walk_root(domain),
        }
    }

    /// Walks the call's one path, or both.
    fn walks(&self, domain: &Domain, call: &Call) -> (PathWalk, Option<PathWalk>)
        ensures first { IsPathWalk self.now domain.now (first_path call.now) result.0 }
        ensures second { MatchOption result.1 (second_path call.now ≡ first_path call.now)
            (IsPathWalk self.now domain.now (second_path call.now)) }
    {
        match targets_of(call) {
            Targets::No => (self.walk_root(domain), None),
            Targets::One(target) => (self.walk_target(domain, target), None),
            Targets::Two(old, new) => (
                self.walk_target(domain, old),
                Some(self.walk_target(domain, new)),
            ),
        }
    }

    /// Returns what is found at the call's paths.
    pub fn found(&self, domain: &Domain, call: &Call) -> Found
        ensures { AreFacts self.now call.now result }
    {
        let (first, second) = self.walks(domain, call);
        match &second {
            None => self.facts_of(&first, &first),
            Some(second) => self.facts_of(&first, second),
        }
    }

    /// Combines what the walks of one call have found.
    fn facts_of(&self, first: &PathWalk, second: &PathWalk) -> Found
        ensures first { result.first ≡ first.now.spot }
        ensures second { result.second ≡ second.now.spot }
        ensures full { result.is_full ≡ nat_le self.now.room (len self.now.nodes) }
    {
        Found {
            first: first.spot,
            second: second.spot,
            is_full: self.is_full(),
        }
    }

    /// Decides the caller's call, given the walks of its paths.
    fn decided<'a>(
        &self,
        caller: &ClientRecord,
        call: &'a Call,
        first: &PathWalk,
        second: &PathWalk,
    ) -> Result<Effect<'a>, Reply>
        requires path { has_path call.now ≡ true }
        requires first { IsPathWalk self.now caller.now.domain (first_path call.now) first.now }
        requires second { IsPathWalk self.now caller.now.domain (second_path call.now) second.now }
        ensures { (client : ℕ) → client_of self.now client ≡ caller.now
            → MatchResult result (IsDone self.now client call.now) (IsRefused self.now client call.now) }
    {
        let found = self.facts_of(first, second);
        let granted = Granted {
            itself: &first.itself,
            other: &second.itself,
            parent: &first.parent,
            entered: &second.parent,
        };
        decide(caller, call, &found, &granted)
    }

    /// Returns the effect of the client's call, which names a path, or the reply if it is refused or denied.
    pub(crate) fn effect<'a>(&self, client: u64, call: &'a Call) -> Result<Effect<'a>, Reply>
        requires caller { has self.now.clients client ≡ true }
        requires path { has_path call.now ≡ true }
        ensures { MatchResult result (IsDone self.now client call.now) (IsRefused self.now client call.now) }
    {
        let Some(caller) = self.clients.get(client) else {
            unreachable!()
        };
        let (first, second) = self.walks(&caller.domain, call);
        match &second {
            None => self.decided(caller, call, &first, &first),
            Some(second) => self.decided(caller, call, &first, second),
        }
    }
}
