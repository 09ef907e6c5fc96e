//! The options of `rights`, and its command for clap.

ghost use Rattle.std.specs.Prelude.{◌≡◌, ◌≤◌, codes, false, option_map, IfOk};
ghost use Rattle.clap.specs.Words.{app_of};
ghost use Rattle.clap.specs.declared.builder.command.Command.TheViews.{out-Command as fields_of};
ghost use Rattle.ll_program.specs.Apps.{rights};
ghost use Rattle.ll_rights.specs.declared.limits.TheConstants.{TREE_NODES};

use crate::command::{
    command_of, flag, nodes_option, object_option, one_or_more, policy_option, profile_option,
    valued,
};
use crate::options::CheckOptions;
use crate::report::AnswerForm;
use crate::values::{number_of, texts_of};
use clap::{Arg, ArgMatches, Command};
use ll_rights::limits::TREE_NODES;
use std::alloc::{AllocError, Global};

/// A profile of two policies: the old policy's file, and the profile's name.
#[derive(Clone, Copy)]
pub struct OldPolicy<'a> {
    pub old: &'a str,
    pub profile: &'a str,
}

/// Which rights are reported.
#[derive(Clone, Copy)]
pub enum RightsScope<'a> {
    /// Those of a profile.
    Profile(&'a str),
    /// Those of each profile of the policy.
    AllProfiles,
    /// Those that a profile has more and less than in an old policy.
    Difference(OldPolicy<'a>),
}

impl<'a> RightsScope<'a> {
    ghost use Rattle.ll_program.specs.Rights.{scope_by, scope_of};

    // What the words ask for, if they go together.
    fn by_words(
        profile: Option<&'a str>,
        is_of_all: bool,
        old: Option<&'a str>,
    ) -> Option<RightsScope<'a>>
        ensures { option_map scope_of result
            ≡ scope_by (option_map (λ t. t.now) profile.entry) is_of_all (option_map (λ t. t.now) old.entry) }
    {
        match (profile, is_of_all, old) {
            (Some(profile), false, None) => Some(RightsScope::Profile(profile)),
            (Some(profile), false, Some(old)) => {
                Some(RightsScope::Difference(OldPolicy { old, profile }))
            }
            (None, true, None) => Some(RightsScope::AllProfiles),
            _ => None,
        }
    }
}

/// The options of `rights`: the policy file; which rights are reported; the limit of live nodes; the paths to report
/// (by default the policy's nodes); whether to report each layer; and the form of the report.
#[derive(Drop)]
pub struct RightsOptions<'a> {
    pub policy: &'a str,
    /// None if the words for it don't go together.
    pub scope: Option<RightsScope<'a>>,
    pub nodes: usize,
    pub paths: Vec<&'a str>,
    pub layers: bool,
    /// None if its word names none.
    pub form: Option<AnswerForm>,
    ghost some: { 1 ≤ nodes },
    ghost most: { nodes ≤ TREE_NODES },
}

impl<'a> RightsOptions<'a> {
    ghost use Rattle.clap.specs.Words.{found_of, rows_of};
    ghost use Rattle.ll_program.specs.Options.{rights_order};
    ghost use Rattle.ll_program.specs.Rights.{fits_rights, rights_in, scope_fits, scope_of};

    /// Reads the options of `rights` from clap's matches. Errors: memory ran out.
    #[tactic(auto, using(crate::proofs::Numbers::text_told))]
    pub(crate) fn of_matches(
        alloc: Global,
        rights: &ArgMatches<'a>,
    ) -> Result<Option<RightsOptions<'a>>, AllocError>
        ensures { IfOk result (λ o. option_map rights_in o ≡ rights_order (rows_of (found_of rights.now))) }
    {
        let paths = texts_of(alloc, rights, "PATH")?;
        let Some(policy) = rights.get_str("policy") else {
            return Ok(None);
        };
        let Some(nodes) = number_of(rights, "nodes", 1, TREE_NODES as u64) else {
            return Ok(None);
        };
        let profile = rights.get_str("profile");
        let is_of_all = CheckOptions::is_set(rights, "all-profiles");
        let old = rights.get_str("diff");
        let scope = RightsScope::by_words(profile, is_of_all, old);
        let layers = CheckOptions::is_set(rights, "layers");
        let form = AnswerForm::by_word(rights.get_str("as"));
        Ok(Some(RightsOptions {
            policy,
            scope,
            nodes: nodes as usize,
            paths,
            layers,
            form,
        }))
    }

    // Reports whether the words say which rights are reported. Layers are no part of a difference.
    fn scope_fits(&self) -> bool
        ensures { result ≡ scope_fits (option_map scope_of self.now.scope) self.now.layers }
    {
        match self.scope {
            None => false,
            Some(RightsScope::Profile(_) | RightsScope::AllProfiles) => true,
            Some(RightsScope::Difference(_)) => !self.layers,
        }
    }

    /// Reports whether the options fit together: a known form, and a profile, or all, or a profile and an old policy
    /// without layers.
    pub fn fit(&self) -> bool
        ensures { result ≡ fits_rights (rights_in self.now) }
    {
        self.form.is_some() && self.scope_fits()
    }
}

/// Returns the command `rights` for clap. Errors: memory ran out.
pub(crate) fn rights_command<'a>(alloc: Global) -> Result<Command<'a>, AllocError>
    ensures app { IfOk result (λ command. app_of command ≡ rights) }
    ensures local { IfOk result (λ command. (fields_of command).has_globals ≡ false) }
{
    let paths = Arg::new(alloc, "PATH").help("A path; where there is none, the policy's nodes");
    let arguments = vec![in alloc;
        one_or_more(paths),
        policy_option(alloc).required(true),
        profile_option(alloc),
        flag(
            alloc,
            "all-profiles",
            "List the rights of each profile, in place of --profile",
        ),
        valued(
            alloc,
            "diff",
            "OLD",
            "Print what the profile gets more (+) or less (-) than by the policy in OLD",
        ),
        nodes_option(alloc),
        flag(
            alloc,
            "layers",
            "Add a column for each layer: what it grants, by the rule on which directory",
        ),
        object_option(alloc),
    ]?;
    command_of(
        alloc,
        "rights",
        "Lists the rights that all layers of a profile grant on paths",
        "Example: landtree rights --policy build.toml --profile build /src/main.c{n}\
         --terse leaves out the reasons of a fault",
        arguments,
    )
}
