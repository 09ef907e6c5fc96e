//! Words that clap accepts one by one, and that don't go together.

use ll_path::{Path, Word};
use ll_program::{
    CheckOptions, ExportOptions, LearnOptions, ReportForm, RightsOptions, RunOptions,
    ScheduleOptions, ServeOptions, WhyOptions,
};
use std::alloc::Global;
use std::fmt;
use std::fmt::Display;

/// Why words don't go together.
#[derive(Clone, Copy, Debug, PartialEq, Eq)]
pub enum Misfit<'a> {
    /// A level together with a policy.
    TwoLevels,
    /// This profile, without a policy.
    NoPolicy(&'a str),
    /// This file would be written over what is read.
    WritesOverInput(&'a str),
    QuietAndVerbose,
    NoSuchReport,
    /// A report for another program has all tests.
    PartOfReport,
    /// Lines are chosen without a picture.
    LinesOfNoPicture,
    /// The first of the chosen lines is after the last.
    LinesTurned(u64, u64),
    NoSuchForm,
    NoSuchDenial,
    /// The path after this option isn't absolute.
    RelativePath(&'static str, &'a str),
    /// The form of an answer.
    NoSuchAnswer,
    /// The words of `rights` don't say whose.
    NoScope,
    LayersOfDifference,
    /// This word is no path.
    NoPath(&'a str),
    /// This word is no name of a profile.
    NoProfileName(&'a str),
    /// This word spells no rights.
    NoRights(&'a str),
    /// The words of `why` give neither an entry nor a command.
    NeitherEntryNorCommand,
    /// The words of `learn` give neither checks nor a history.
    NeitherChecksNorHistory,
    ControlCharacter,
    /// Schedules together with a policy.
    ScheduleUnderPolicy,
}

impl Display for Misfit<'_> {
    fn fmt<W: fmt::Write>(&self, f: &mut fmt::Formatter<W>) -> fmt::Result {
        match self {
            Misfit::TwoLevels => f.write_str(
                "--abi has no place beside --policy: the policy tells the level",
            ),
            Misfit::NoPolicy(name) => write!(
                f,
                "--profile {name} needs the policy that has it: --policy FILE"
            ),
            Misfit::WritesOverInput(name) => write!(f, "{name} would be written over, and is read"),
            Misfit::QuietAndVerbose => f.write_str("--quiet and --verbose don't go together"),
            Misfit::NoSuchReport => f.write_str("--as is followed by tap, junit or json"),
            Misfit::PartOfReport => f.write_str(
                "--quiet and --verbose have no place beside --as, which prints all tests",
            ),
            Misfit::LinesOfNoPicture => {
                f.write_str("--from and --to choose the lines of a picture: --picture OUT")
            }
            Misfit::LinesTurned(from, to) => {
                write!(f, "--from {from} is behind --to {to}: lines count from 1")
            }
            Misfit::NeitherEntryNorCommand => {
                f.write_str(
                    "why takes HISTORY K, or a command in quotes with --policy and --profile",
                )
            }
            Misfit::NeitherChecksNorHistory => f.write_str(
                "learn takes files of checks with --policy, or --history, and --client beside a history alone",
            ),
            Misfit::ControlCharacter => {
                f.write_str(
                    "a file's name has a control character, and would end a comment of the profile",
                )
            }
            Misfit::ScheduleUnderPolicy => f.write_str(
                "--schedule has no place beside --policy: clients of a schedule make their layers by its steps",
            ),
            Misfit::NoPath(word) => write!(
                f,
                "'{word}' is no path: / is expected, or / and a name again and again"
            ),
            Misfit::NoProfileName(word) => write!(
                f,
                "'{word}' is no profile's name: it has 1 to 32 of a to z, 0 to 9 and -"
            ),
            Misfit::NoRights(word) => write!(
                f,
                "'{word}' spells no rights: their names are expected, in their order, with commas between"
            ),
            Misfit::NoSuchAnswer => f.write_str("--as is followed by json"),
            Misfit::NoScope => f.write_str(
                "rights takes --profile NAME, --profile NAME with --diff OLD, or --all-profiles",
            ),
            Misfit::LayersOfDifference => f.write_str("--layers has no place beside --diff"),
            Misfit::NoSuchForm => f.write_str("--as is followed by c or json"),
            Misfit::NoSuchDenial => f.write_str(
                "--deny is followed by some of tcp,ioctl_dev,signal,abstract_unix_socket",
            ),
            Misfit::RelativePath(option, path) => {
                write!(
                    f,
                    "{option} is followed by an absolute path, and not by '{path}'"
                )
            }
        }
    }
}

// Returns the misfit in a run's setup.
fn of_setup<'a>(
    has_level: bool,
    policy: Option<&'a str>,
    profile: Option<&'a str>,
) -> Option<Misfit<'a>> {
    match (policy, profile) {
        (Some(_), _) if has_level => Some(Misfit::TwoLevels),
        (None, Some(name)) => Some(Misfit::NoPolicy(name)),
        _ => None,
    }
}

// Returns the misfit of an output that is the input, if both are files.
fn of_output<'a>(output: Option<&'a str>, input: Option<&str>) -> Option<Misfit<'a>> {
    match (output, input) {
        (Some(output), Some(input)) if output == input && input != "-" => {
            Some(Misfit::WritesOverInput(output))
        }
        _ => None,
    }
}

// Returns the misfit in the lines chosen for a picture.
fn of_lines<'a>(options: &ScheduleOptions<'a>) -> Option<Misfit<'a>> {
    if options.may_be_drawn() {
        return None;
    }
    match (options.from, options.to) {
        (Some(from), Some(to)) if to < from => Some(Misfit::LinesTurned(from, to)),
        _ => Some(Misfit::LinesOfNoPicture),
    }
}

// Returns the first of these paths of an option that isn't absolute.
fn of_paths<'a>(option: &'static str, paths: &[&'a str]) -> Option<Misfit<'a>> {
    for path in paths {
        if !path.starts_with('/') {
            return Some(Misfit::RelativePath(option, path));
        }
    }
    None
}

// Returns the first of these words that should be a path and is none.
fn of_words<'a>(alloc: Global, words: &[&'a str]) -> Option<Misfit<'a>> {
    for word in words {
        if !is_path(alloc, word) {
            return Some(Misfit::NoPath(word));
        }
    }
    None
}

// If memory runs out, every word is taken for a path.
fn is_path(alloc: Global, word: &str) -> bool {
    let Ok(text) = String::from_str(alloc, word) else {
        return true;
    };
    match Word::new(text) {
        Ok(word) => Path::parse(word).is_ok(),
        Err(_) => false,
    }
}

impl<'a> Misfit<'a> {
    /// Returns the misfit in the words of `run`.
    pub fn of_run(options: &RunOptions<'a>) -> Option<Misfit<'a>> {
        let (save, script, tree) = (options.save, options.script, &options.tree);
        of_setup(tree.level.is_some(), tree.policy, tree.profile)
            .or(of_output(save, Some(script)))
            .or(of_output(save, tree.policy))
    }

    /// Returns the misfit in the words of `schedule`.
    pub fn of_schedule(options: &ScheduleOptions<'a>) -> Option<Misfit<'a>> {
        of_output(options.picture, Some(options.file)).or(of_lines(options))
    }

    /// Returns the misfit in the words of `check`.
    pub fn of_check(options: &CheckOptions<'a>) -> Option<Misfit<'a>> {
        match options.form {
            None => return Some(Misfit::NoSuchReport),
            Some(ReportForm::Text) if options.quiet && options.verbose => {
                return Some(Misfit::QuietAndVerbose);
            }
            Some(ReportForm::Tap | ReportForm::Junit | ReportForm::Json)
                if options.quiet || options.verbose => {
                return Some(Misfit::PartOfReport);
            }
            Some(_) => {}
        }
        if options.schedule && options.policy.is_some() {
            return Some(Misfit::ScheduleUnderPolicy);
        }
        of_setup(options.level.is_some(), options.policy, options.profile)
    }

    /// Returns the misfit in the words of `serve`.
    pub fn of_serve(options: &ServeOptions<'a>) -> Option<Misfit<'a>> {
        let tree = &options.tree;
        of_setup(tree.level.is_some(), tree.policy, tree.profile).or(of_output(
            options.save,
            tree.policy,
        ))
    }

    /// Returns the misfit in the words of `rights`.
    pub fn of_rights(options: &RightsOptions<'a>) -> Misfit<'a> {
        if options.form.is_none() {
            Misfit::NoSuchAnswer
        } else if options.scope.is_none() {
            Misfit::NoScope
        } else {
            Misfit::LayersOfDifference
        }
    }

    /// Returns the first word of `rights` that should be a path and is none.
    pub fn of_paths(alloc: Global, options: &RightsOptions<'a>) -> Option<Misfit<'a>> {
        of_words(alloc, options.paths.as_slice())
    }

    /// Returns the first word of `learn` that is wrong by itself.
    pub fn of_learn(alloc: Global, options: &LearnOptions<'a>) -> Option<Misfit<'a>> {
        match (options.name, options.never) {
            (Some(word), _) if options.profile_name().is_none() => {
                Some(Misfit::NoProfileName(word))
            }
            (_, Some(word)) if options.withheld().is_none() => Some(Misfit::NoRights(word)),
            _ => of_words(alloc, options.beneath.as_slice()),
        }
    }

    /// Returns the misfit in the words of `why`, which don't fit together or ask for a form that is unknown.
    pub fn of_why(options: &WhyOptions<'a>) -> Misfit<'a> {
        if options.form.is_none() {
            Misfit::NoSuchAnswer
        } else {
            Misfit::NeitherEntryNorCommand
        }
    }

    /// Returns the misfit in the words of `export`.
    pub fn of_export(options: &ExportOptions<'a>) -> Option<Misfit<'a>> {
        if options.form.is_none() {
            Some(Misfit::NoSuchForm)
        } else if options.deny.is_none() {
            Some(Misfit::NoSuchDenial)
        } else {
            of_paths("--root", options.root.as_slice()).or(of_paths("--also", &options.also))
        }
    }
}
