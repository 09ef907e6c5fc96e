//! The options of each subcommand.

ghost use Rattle.std.specs.Prelude.{◌≡◌, ◌≤◌, codes, map, option_map, IfOk, Some};
ghost use Rattle.ll_rights.specs.declared.limits.TheConstants.{HISTORY_ENTRIES, TREE_NODES};

use crate::command::landtree_command;
use crate::export::ExportOptions;
use crate::inputs::{file_of, names_input};
use crate::learn::LearnOptions;
use crate::report::ReportForm;
use crate::rights::RightsOptions;
use crate::serve::ServeOptions;
use crate::tree::TreeOptions;
use crate::values::number_of;
use crate::why::WhyOptions;
use clap::{ArgMatches, Error};
use ll_rights::Abi;
use ll_rights::limits::{HISTORY_ENTRIES, TREE_NODES};
use std::alloc::{AllocError, Global};

/// The greatest line number that `--from` and `--to` of a schedule's picture accept.
pub(crate) const LINES: u64 = 1_000_000_000;

/// The options of `run`: the script's file (`-` is standard input); its tree's; the file to save the history in, if
/// any; whether the run is strict; and whether the script may have comments and blank lines. A strict run ends at the
/// first bad line, or at the first refusal of a call that sets up layers.
#[derive(Drop)]
pub struct RunOptions<'a> {
    pub script: &'a str,
    pub tree: TreeOptions<'a>,
    pub save: Option<&'a str>,
    pub strict: bool,
    pub comments: bool,
}

impl<'a> RunOptions<'a> {
    ghost use Rattle.clap.specs.Words.{found_of, rows_of};
    ghost use Rattle.ll_program.specs.Options.{fits, levels, number_of, order_in, run_order};

    // The ABI level among clap's matches.
    pub(crate) fn level_of(run: &ArgMatches) -> Option<Abi>
        ensures { result ≡ number_of (codes "abi") levels (rows_of (found_of run.now)) }
    {
        match run.get_one::<u64>("abi") {
            Some(number) => Abi::new(number),
            None => None,
        }
    }

    // Reads the options of `run` from clap's matches.
    #[tactic(auto, using(crate::proofs::Numbers::text_told))]
    fn of_matches(run: &ArgMatches<'a>) -> Option<RunOptions<'a>>
        ensures { option_map order_in result ≡ run_order (rows_of (found_of run.now)) }
    {
        let script = run.get_str("SCRIPT")?;
        let nodes = number_of(run, "nodes", 1, TREE_NODES as u64)?;
        let history = number_of(run, "history", 1, HISTORY_ENTRIES as u64)?;
        let level = RunOptions::level_of(run);
        let policy = run.get_str("policy");
        let profile = run.get_str("profile");
        let save = run.get_str("save");
        let strict = CheckOptions::is_set(run, "strict");
        let comments = CheckOptions::is_set(run, "comments");
        let tree = TreeOptions {
            nodes: nodes as usize,
            level,
            history: history as usize,
            policy,
            profile,
        };
        Some(RunOptions {
            script,
            tree,
            save,
            strict,
            comments,
        })
    }

    /// Reports whether the options fit together: no level with a policy, a profile with a policy, and a history file
    /// that is neither the script nor the policy.
    pub fn fit(&self) -> bool
        ensures { result ≡ fits (order_in self.now) }
    {
        self.tree.fit()
            && !names_input(self.save, file_of(self.script))
            && !names_input(self.save, self.tree.policy)
    }
}

/// The options of `schedule`: its file (`-` is standard input); the limit of live nodes; the ABI level; the limit of
/// history entries; the picture's file, if any, with its first and last line (from 1; by default all); and whether the
/// schedule is strict. A strict one ends at the first line that isn't a step that was enabled and made.
#[derive(Drop)]
pub struct ScheduleOptions<'a> {
    pub file: &'a str,
    pub nodes: usize,
    pub level: Option<Abi>,
    pub history: usize,
    pub picture: Option<&'a str>,
    pub from: Option<u64>,
    pub to: Option<u64>,
    pub strict: bool,
    ghost some: { 1 ≤ nodes },
    ghost most: { nodes ≤ TREE_NODES },
    ghost some_entries: { 1 ≤ history },
    ghost most_entries: { history ≤ HISTORY_ENTRIES },
}

impl<'a> ScheduleOptions<'a> {
    ghost use Rattle.clap.specs.Words.{found_of, rows_of};
    ghost use Rattle.ll_program.specs.Options.{fits_schedule, may_be_drawn, schedule_order, scheduled_in};

    // Reads the options of `schedule` from clap's matches.
    #[tactic(auto, using(crate::proofs::Numbers::text_told))]
    fn of_matches(schedule: &ArgMatches<'a>) -> Option<ScheduleOptions<'a>>
        ensures { option_map scheduled_in result ≡ schedule_order (rows_of (found_of schedule.now)) }
    {
        let file = schedule.get_str("FILE")?;
        let nodes = number_of(schedule, "nodes", 1, TREE_NODES as u64)?;
        let history = number_of(schedule, "history", 1, HISTORY_ENTRIES as u64)?;
        let level = RunOptions::level_of(schedule);
        let picture = schedule.get_str("picture");
        let from = number_of(schedule, "from", 1, LINES);
        let to = number_of(schedule, "to", 1, LINES);
        let strict = CheckOptions::is_set(schedule, "strict");
        Some(ScheduleOptions {
            file,
            nodes: nodes as usize,
            level,
            history: history as usize,
            picture,
            from,
            to,
            strict,
        })
    }

    /// Reports whether lines are chosen only for a picture, and the first isn't after the last.
    pub fn may_be_drawn(&self) -> bool
        ensures { result ≡ may_be_drawn (scheduled_in self.now).picture self.now.from self.now.to }
    {
        match (self.picture, self.from, self.to) {
            (Some(_), Some(from), Some(to)) => from <= to,
            (Some(_), _, _) => true,
            (None, from, to) => from.is_none() && to.is_none(),
        }
    }

    /// Reports whether the options fit together: the picture's file isn't the schedule, and its lines are valid.
    pub fn fit(&self) -> bool
        ensures { result ≡ fits_schedule (scheduled_in self.now) }
    {
        !names_input(self.picture, file_of(self.file)) && self.may_be_drawn()
    }
}

/// The options of `check`: its test files (`-` is standard input), each run in a tree of its own; the limit of live
/// nodes; the ABI level, or the policy file and the first client's profile; and whether the files are schedules, whose
/// clients get their layers by their own calls.
#[derive(Drop)]
pub struct CheckOptions<'a> {
    pub files: Vec<&'a str>,
    pub nodes: usize,
    pub level: Option<Abi>,
    pub policy: Option<&'a str>,
    pub profile: Option<&'a str>,
    pub quiet: bool,
    pub verbose: bool,
    /// The form of the report; None if its word names none.
    pub form: Option<ReportForm>,
    pub schedule: bool,
    ghost some: { 1 ≤ nodes },
    ghost most: { nodes ≤ TREE_NODES },
}

impl<'a> CheckOptions<'a> {
    ghost use Rattle.clap.specs.Words.{found_of, rows_of};
    ghost use Rattle.ll_program.specs.Options.{check_order, checked_in, fits_check, fits_report, is_set};

    // Whether the flag is among clap's matches.
    #[tactic(auto, using(crate::proofs::Numbers::text_told))]
    pub(crate) fn is_set(check: &ArgMatches, name: &str) -> bool
        ensures { result ≡ is_set name.now (rows_of (found_of check.now)) }
    {
        match check.get_str(name) {
            Some(text) => text == "true",
            None => false,
        }
    }

    // Reads the options of `check` from clap's matches. Errors: memory ran out.
    #[tactic(auto, using(crate::proofs::Numbers::text_told, crate::proofs::Numbers::texts_told))]
    fn of_matches(
        alloc: Global,
        check: &ArgMatches<'a>,
    ) -> Result<Option<CheckOptions<'a>>, AllocError>
        ensures { IfOk result (λ o. option_map checked_in o ≡ check_order (rows_of (found_of check.now))) }
    {
        let Some(files) = check.get_strs("FILE") else {
            return Ok(None);
        };
        let Some(nodes) = number_of(check, "nodes", 1, TREE_NODES as u64) else {
            return Ok(None);
        };
        let files = Vec::from_slice(alloc, files)?;
        let level = RunOptions::level_of(check);
        let policy = check.get_str("policy");
        let profile = check.get_str("profile");
        let quiet = CheckOptions::is_set(check, "quiet");
        let verbose = CheckOptions::is_set(check, "verbose");
        let form = ReportForm::by_word(check.get_str("as"));
        let schedule = CheckOptions::is_set(check, "schedule");
        Ok(Some(CheckOptions {
            files,
            nodes: nodes as usize,
            level,
            policy,
            profile,
            quiet,
            verbose,
            form,
            schedule,
        }))
    }

    // Whether the form of the report is known and goes with fewer or more tests.
    fn report_fits(&self) -> bool
        ensures { result ≡ fits_report self.now.form self.now.quiet self.now.verbose }
    {
        match self.form {
            Some(ReportForm::Text) => !(self.quiet && self.verbose),
            Some(_) => !(self.quiet || self.verbose),
            None => false,
        }
    }

    /// Reports whether the options fit together: no level with a policy, a profile with a policy, a known form, and not
    /// both quiet and verbose, which only a text may be; and no policy for schedules.
    pub fn fit(&self) -> bool
        ensures { result ≡ fits_check (checked_in self.now) }
    {
        self.tree().fit() && self.report_fits() && !(self.schedule && self.policy.is_some())
    }
}

/// A subcommand with its options.
#[derive(Drop)]
pub enum Options<'a> {
    Run(RunOptions<'a>),
    Schedule(ScheduleOptions<'a>),
    Rights(RightsOptions<'a>),
    /// Audit the history in this file (`-` is standard input).
    Audit(&'a str),
    Check(CheckOptions<'a>),
    Serve(ServeOptions<'a>),
    Export(ExportOptions<'a>),
    Why(WhyOptions<'a>),
    Learn(LearnOptions<'a>),
}

impl<'a> Options<'a> {
    ghost use Rattle.clap.specs.Words.{FailsBy, fault_of, found_of, rows_of, subcommand_of, subcommand_rows_of};
    ghost use Rattle.ll_program.specs.Options.{landtree, ordered, ordered_by, ordered_in, ordered_of};

    // Reads the options of this subcommand. Errors: memory ran out.
    fn of_matches(
        alloc: Global,
        name: &str,
        matches: &ArgMatches<'a>,
    ) -> Result<Option<Options<'a>>, AllocError>
        ensures { IfOk result (λ o. option_map ordered_in o ≡ ordered name.now (rows_of (found_of matches.now))) }
    {
        if name == "run" {
            return match RunOptions::of_matches(matches) {
                Some(run) => Ok(Some(Options::Run(run))),
                None => Ok(None),
            };
        }
        if name == "schedule" {
            return match ScheduleOptions::of_matches(matches) {
                Some(schedule) => Ok(Some(Options::Schedule(schedule))),
                None => Ok(None),
            };
        }
        if name == "rights" {
            return match RightsOptions::of_matches(alloc, matches)? {
                Some(rights) => Ok(Some(Options::Rights(rights))),
                None => Ok(None),
            };
        }
        if name == "check" {
            return match CheckOptions::of_matches(alloc, matches)? {
                Some(check) => Ok(Some(Options::Check(check))),
                None => Ok(None),
            };
        }
        if name == "serve" {
            return match ServeOptions::of_matches(matches) {
                Some(serve) => Ok(Some(Options::Serve(serve))),
                None => Ok(None),
            };
        }
        if name == "export" {
            return match ExportOptions::of_matches(alloc, matches)? {
                Some(export) => Ok(Some(Options::Export(export))),
                None => Ok(None),
            };
        }
        if name == "why" {
            return match WhyOptions::of_matches(alloc, matches)? {
                Some(why) => Ok(Some(Options::Why(why))),
                None => Ok(None),
            };
        }
        if name == "learn" {
            return match LearnOptions::of_matches(alloc, matches)? {
                Some(learn) => Ok(Some(Options::Learn(learn))),
                None => Ok(None),
            };
        }
        match matches.get_str("FILE") {
            Some(file) => Ok(Some(Options::Audit(file))),
            None => Ok(None),
        }
    }

    // Reads the subcommand and its options, if there is one. Errors: memory ran out.
    fn of_subcommand(
        alloc: Global,
        matches: &ArgMatches<'a>,
    ) -> Result<Option<Options<'a>>, AllocError>
        ensures { IfOk result (λ o. option_map ordered_in o ≡ ordered_of (subcommand_rows_of matches.now)) }
    {
        match matches.subcommand() {
            Some((name, found)) => Options::of_matches(alloc, name, found),
            None => Ok(None),
        }
    }

    // Parses the command line with clap.
    fn matched(alloc: Global, words: &'a [&'a str]) -> Result<ArgMatches<'a>, Error>
        ensures rows { IfOk result (λ matches. subcommand_rows_of matches
            ≡ subcommand_of landtree (map (λ w. w.now) words.entry.now)) }
        ensures fault { FailsBy (fault_of landtree (map (λ w. w.now) words.entry.now)) result }
    {
        landtree_command(alloc)?.try_get_matches_from(words)
    }

    /// Parses the command line, whose first word is the program's name. Errors: clap's, with the message to print.
    pub fn read(alloc: Global, words: &'a [&'a str]) -> Result<Options<'a>, Error>
        ensures asked { IfOk result (λ o. ordered_by (map (λ w. w.now) words.entry.now) ≡ Some (ordered_in o)) }
        ensures fault { FailsBy (fault_of landtree (map (λ w. w.now) words.entry.now)) result }
    {
        let matches = match Options::matched(alloc, words) {
            Ok(matches) => matches,
            Err(error) => return Err(error),
        };
        match Options::of_subcommand(alloc, &matches) {
            Ok(Some(options)) => Ok(options),
            Ok(None) => unreachable!(),
            Err(error) => Err(Error::from(error)),
        }
    }
}
