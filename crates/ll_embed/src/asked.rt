//! The tree that is asked about.

ghost use Rattle.std.specs.Prelude.{◌≡◌, IfErr, IfOk, OnOk};
ghost use Rattle.ll_program.specs.Options.{tree_in};
ghost use Rattle.ll_program.specs.Policy.{IsSetup};
ghost use Rattle.ll_embed.specs.Questions.{IsAsked, LacksTree, profile_order_in, tree_asked};

use crate::ask_fault::AskFault;
use crate::fault::{Fault, fault_at};
use ll_program::{TreeOptions, setup_of};
use ll_rights::limits::TREE_NODES;
use ll_session::Setup;
use std::alloc::Global;

/// A policy, one of its profiles, and the limit of live nodes.
#[derive(Clone, Copy)]
pub struct ProfileGiven<'a> {
    pub nodes: usize,
    pub policy: &'a [u8],
    pub profile: &'a [u8],
}

impl<'a> ProfileGiven<'a> {
    // Returns the options of the program's words that ask for the tree. Errors: a text or the number is missing or
    // wrong.
    fn options(&self) -> Result<TreeOptions<'a>, AskFault>
        ensures tree { IfOk result (λ options. tree_in options ≡ tree_asked (profile_order_in self.now)) }
        ensures asked { OnOk result (IsAsked (profile_order_in self.now)) }
        ensures fault { IfErr result (LacksTree (profile_order_in self.now)) }
    {
        if self.policy.is_empty() {
            return Err(AskFault::PolicyMissing);
        }
        if self.profile.is_empty() {
            return Err(AskFault::ProfileMissing);
        }
        if self.nodes < 1 || self.nodes > TREE_NODES {
            return Err(AskFault::Tree(Fault::Misfit));
        }
        match str::from_utf8(self.profile) {
            Ok(profile) => Ok(TreeOptions::of_profile("policy", profile, self.nodes)),
            Err(_) => Err(AskFault::Tree(Fault::NoProfile)),
        }
    }

    /// Returns the setup of the tree. Errors: why there is none.
    pub fn setup(&self, alloc: Global) -> Result<Setup, AskFault>
        ensures setup { IfOk result (IsSetup (tree_asked (profile_order_in self.now)) self.now.policy.now) }
        ensures asked { OnOk result (IsAsked (profile_order_in self.now)) }
        ensures fault { IfErr result (LacksTree (profile_order_in self.now)) }
    {
        let options = match self.options() {
            Ok(options) => options,
            Err(fault) => return Err(fault),
        };
        let mut file = self.policy;
        match setup_of(alloc, &options, &mut file) {
            Ok(setup) => Ok(setup),
            Err(failure) => Err(AskFault::Tree(fault_at(failure))),
        }
    }
}
