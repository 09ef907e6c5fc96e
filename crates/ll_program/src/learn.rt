//! The options of `learn`, and its command for clap.

ghost use Rattle.std.specs.Prelude.{◌≡◌, ◌≤◌, codes, false, option_map, IfOk, IfSome, Some};
ghost use Rattle.std.proofs.Props.{props};
ghost use Rattle.clap.specs.Words.{app_of, rule_of};
ghost use Rattle.clap.specs.declared.builder.command.Command.TheViews.{out-Command as fields_of};
ghost use Rattle.clap.specs.declared.builder.value_parser.ValueParser.TheVariants.{Unsigned};
ghost use Rattle.ll_program.specs.Apps.{learn, saved, valued};
ghost use Rattle.ll_rights.specs.declared.limits.TheConstants.{RULESET_INODES, TREE_NODES};

use crate::command::{
    command_of, nodes_option, numbered, one_or_more, policy_option, repeated, valued,
};
use crate::values::{number_of, texts_of};
use clap::{Arg, ArgMatches, Command};
use ll_policy::is_name;
use ll_rights::Access;
use ll_rights::limits::{RULESET_INODES, TREE_NODES};
use std::alloc::{AllocError, Global};

/// The greatest client number that `--client` accepts.
pub(crate) const CLIENT_NUMBERS: u64 = 1_000_000_000;

/// The profile's name if the words give none.
const NAME: &str = "learned";

/// What `learn` learns from.
#[derive(Clone, Copy)]
pub enum Lessons<'a> {
    /// Files of checks, each made in a new tree set up by a policy: the policy file. The files are among the options.
    Checks(&'a str),
    /// A saved history and, if given, the client that is learned for: the file (`-` is standard input).
    History(&'a str, Option<u64>),
}

/// The options of `learn`.
#[derive(Drop)]
pub struct LearnOptions<'a> {
    /// Files of checks.
    pub files: Vec<&'a str>,
    /// The policy file whose nodes are created for them.
    pub policy: Option<&'a str>,
    /// The saved history.
    pub history: Option<&'a str>,
    /// The history's client that is learned for.
    pub client: Option<u64>,
    /// The profile's name.
    pub name: Option<&'a str>,
    /// Rights that no rule may have.
    pub never: Option<&'a str>,
    /// Directories whose rules take what is needed below them.
    pub beneath: Vec<&'a str>,
    /// The most rules.
    pub most: Option<u64>,
    /// The limit of live nodes.
    pub nodes: usize,
    ghost most_within: { IfSome most (λ rules. (1 ≤ rules) × (rules ≤ RULESET_INODES)) } by { Prim.hlevel props },
    ghost some: { 1 ≤ nodes },
    ghost most_nodes: { nodes ≤ TREE_NODES },
}

impl<'a> LearnOptions<'a> {
    ghost use Rattle.clap.specs.Words.{found_of, rows_of};
    ghost use Rattle.ll_program.specs.Learn.{IsWithheld, most_rules, name_told, profile_name};
    ghost use Rattle.ll_program.specs.Options.{learn_in, learn_order};
    ghost use Rattle.ll_program.specs.Learn.{lessons_by, lessons_of};

    /// Reads the options of `learn` from clap's matches. Errors: memory ran out.
    #[tactic(auto, using(crate::proofs::Numbers::text_told))]
    pub(crate) fn of_matches(
        alloc: Global,
        learn: &ArgMatches<'a>,
    ) -> Result<Option<LearnOptions<'a>>, AllocError>
        ensures { IfOk result (λ o. option_map learn_in o ≡ learn_order (rows_of (found_of learn.now))) }
    {
        let files = texts_of(alloc, learn, "FILE")?;
        let beneath = texts_of(alloc, learn, "beneath")?;
        let Some(nodes) = number_of(learn, "nodes", 1, TREE_NODES as u64) else {
            return Ok(None);
        };
        let policy = learn.get_str("policy");
        let history = learn.get_str("saved");
        let client = number_of(learn, "client", 1, CLIENT_NUMBERS);
        let name = learn.get_str("name");
        let never = learn.get_str("never");
        let most = number_of(learn, "most", 1, RULESET_INODES as u64);
        Ok(Some(LearnOptions {
            files,
            policy,
            history,
            client,
            name,
            never,
            beneath,
            most,
            nodes: nodes as usize,
        }))
    }

    /// Returns what is learned from, if the options fit together.
    pub fn lessons(&self) -> Option<Lessons<'a>>
        ensures { option_map lessons_of result ≡ lessons_by (learn_in self.now) }
    {
        match (self.files.as_slice(), self.policy, self.history) {
            ([_, ..], Some(policy), None) if self.client.is_none() => Some(Lessons::Checks(policy)),
            ([], None, Some(history)) => Some(Lessons::History(history, self.client)),
            _ => None,
        }
    }

    // Returns the given name, or else the default.
    fn name_told(&self) -> &'a str
        ensures { result.now ≡ name_told (learn_in self.now) }
    {
        match self.name {
            Some(name) => name,
            None => NAME,
        }
    }

    /// Returns the profile's name, by default `learned`. None if the word is no valid name, which has 1 to 32 of `a` to
    /// `z`, `0` to `9` and `-`.
    pub fn profile_name(&self) -> Option<&'a str>
        ensures { option_map (λ name. name.now) result ≡ profile_name (learn_in self.now) }
    {
        let name = self.name_told();
        if is_name(name) { Some(name) } else { None }
    }

    /// Returns the most rules that the profile may have.
    pub fn most_rules(&self) -> usize
        ensures most { result ≡ most_rules (learn_in self.now) }
        ensures some { 1 ≤ result }
        ensures few { result ≤ RULESET_INODES }
    {
        match self.most {
            Some(most) => most as usize,
            None => RULESET_INODES,
        }
    }

    /// Returns the rights that no rule may have. None if the word spells no rights.
    pub fn withheld(&self) -> Option<Access>
        ensures { IsWithheld (learn_in self.now).never result }
    {
        match self.never {
            Some(word) => Access::parse(word),
            None => Some(Access(0)),
        }
    }
}

// The option of a saved history. Its name among the matches isn't that of the limit of entries.
fn saved_option<'a>(alloc: Global) -> Arg<'a>
    ensures rule { rule_of result ≡ saved }
    ensures local { result.global ≡ false }
{
    Arg::new(alloc, "saved")
        .long("history")
        .value_name("HISTORY")
        .help("Learn from a saved history, or `-` for standard input, in place of files of checks")
}

fn client_option<'a>(alloc: Global) -> Arg<'a>
    ensures rule { rule_of result ≡ record (valued (codes "client")) { parser = Some (Unsigned 1 1000000000) } }
    ensures local { result.global ≡ false }
{
    numbered(
        alloc,
        "client",
        "N",
        CLIENT_NUMBERS,
        "The history's client to learn for (the second that connects, or the only one)",
    )
}

fn most_option<'a>(alloc: Global) -> Arg<'a>
    ensures rule { rule_of result ≡ record (valued (codes "most")) { parser = Some (Unsigned 1 256) } }
    ensures local { result.global ≡ false }
{
    numbered(
        alloc,
        "most",
        "N",
        RULESET_INODES as u64,
        "The most rules that the layer may have (256)",
    )
}

pub(crate) fn learn_command<'a>(alloc: Global) -> Result<Command<'a>, AllocError>
    ensures app { IfOk result (λ command. app_of command ≡ learn) }
    ensures local { IfOk result (λ command. (fields_of command).has_globals ≡ false) }
{
    let files = Arg::new(alloc, "FILE").help(
        "Files of checks; those of their lines that must be denied aren't learned from",
    );
    let arguments = vec![in alloc;
        one_or_more(files),
        policy_option(alloc),
        saved_option(alloc),
        client_option(alloc),
        valued(alloc, "name", "NAME", "The profile's name (learned)"),
        valued(
            alloc,
            "never",
            "RIGHTS",
            "Rights that no rule may grant, with commas between",
        ),
        repeated(
            alloc,
            "beneath",
            "DIR",
            "A directory whose rule grants what is needed below it; may be repeated",
        ),
        most_option(alloc),
        nodes_option(alloc),
    ]?;
    command_of(
        alloc,
        "learn",
        "Writes the least profile under which calls get the same replies",
        "Example: landtree learn build.check --policy nodes.toml >build.toml{n}\
         --terse leaves out the reasons of a fault",
        arguments,
    )
}
