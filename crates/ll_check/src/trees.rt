//! The trees in which lessons are made, and profiles are tried.

ghost use Rattle.std.specs.Prelude.{◌≡◌, ◌⊎◌, is_some, true, IfErr, IfOk};
ghost use Rattle.ll_rights.specs.declared.limits.TheConstants.{HISTORY_ENTRIES};
ghost use Rattle.ll_session.specs.Session.{AreOthers};
ghost use Rattle.ll_program.specs.Options.{learn_in, lesson_tree};
ghost use Rattle.ll_program.specs.Policy.{Lacks};
ghost use Rattle.ll_check.specs.Lessons.{FailsToMake, IsBlank, IsTree};

use crate::checks::with_room;
use ll_program::{Failure, LearnOptions, setup_of};
use ll_seq::Call;
use ll_session::Setup;
use std::alloc::Global;

/// What sets up the trees: the options of `learn`, and the text of the policy that they name.
#[derive(Clone, Copy)]
pub(crate) struct Trees<'a, 'w> {
    pub alloc: Global,
    pub options: &'a LearnOptions<'w>,
    pub policy: &'a [u8],
}

// Returns the setup whose first client makes these calls.
fn with_profile(mut setup: Setup, profile: Vec<Call>) -> Setup
    requires { AreOthers profile.items }
    ensures rules { result.rules ≡ setup.rules }
    ensures nodes { result.nodes ≡ setup.nodes }
    ensures loader { result.loader ≡ setup.loader }
    ensures profile { result.profile ≡ profile }
{
    setup.profile = profile;
    setup
}

/// Returns the failure of a text that is in memory, so that it can be read.
pub(crate) fn in_memory(failure: Failure) -> Failure
    ensures file { result ≡ Failure.File → ⊥ }
    ensures same { (result ≡ failure) ⊎ (result ≡ Failure.NoMemory) }
    ensures other { (failure ≡ Failure.File → ⊥) → result ≡ failure }
{
    match failure {
        Failure::File => Failure::NoMemory,
        other => other,
    }
}

impl Trees<'_, '_> {
    // Returns the setup that the policy gives, or why it gives none.
    fn given(&self) -> Result<Setup, Failure>
        ensures setup { IfOk result (IsBlank (learn_in self.now.options.now) self.now.policy.now) }
        ensures failure { IfErr result (λ failure. (is_some (learn_in self.now.options.now).policy ≡ true)
            × Lacks (lesson_tree (learn_in self.now.options.now) HISTORY_ENTRIES) self.now.policy.now failure) }
    {
        let mut text = self.policy;
        setup_of(self.alloc, &self.options.tree(), &mut text)
    }

    /// Returns the setup that the policy gives, with nobody under a layer. Errors: the policy's text gives no setup, or
    /// memory ran out.
    pub fn blank(&self) -> Result<Setup, Failure>
        ensures setup { IfOk result (IsBlank (learn_in self.now.options.now) self.now.policy.now) }
        ensures failure { IfErr result (FailsToMake (learn_in self.now.options.now) self.now.policy.now) }
    {
        match self.given() {
            Ok(setup) => Ok(setup),
            Err(failure) => Err(in_memory(failure)),
        }
    }

    /// Returns the setup of a tree with room for this many tests, before which the first client makes these calls.
    /// Errors: those of `blank`.
    pub fn tree(&self, profile: Vec<Call>, tests: usize) -> Result<Setup, Failure>
        requires { AreOthers profile.items }
        ensures setup { IfOk result (IsTree (learn_in self.now.options.now) self.now.policy.now profile.items tests) }
        ensures failure { IfErr result (FailsToMake (learn_in self.now.options.now) self.now.policy.now) }
    {
        match self.blank() {
            Ok(setup) => Ok(with_room(with_profile(setup, profile), tests)),
            Err(failure) => Err(failure),
        }
    }
}
