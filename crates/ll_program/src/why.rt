//! The options of `why`.

ghost use Rattle.std.specs.Prelude.{◌≡◌, ◌≤◌, codes, map, option_map, IfOk};
ghost use Rattle.ll_rights.specs.declared.limits.TheConstants.{HISTORY_ENTRIES, TREE_NODES};

use crate::report::AnswerForm;
use crate::values::{number_in, number_of};
use clap::ArgMatches;
use ll_rights::limits::{HISTORY_ENTRIES, TREE_NODES};
use std::alloc::{AllocError, Global};

/// A command that a client makes in a new tree set up by a policy: the policy file, the client's profile, the commands
/// that it makes before, and the command.
#[derive(Clone, Copy)]
pub struct CommandQuestion<'a, 'w> {
    pub policy: &'a str,
    pub profile: &'a str,
    pub before: &'w [&'a str],
    pub command: &'a str,
}

/// What `why` explains.
#[derive(Clone, Copy)]
pub enum Question<'a, 'w> {
    /// A command.
    Command(CommandQuestion<'a, 'w>),
    /// The reply of an entry in a saved history: the file (`-` is standard input), and the entry's number from 1.
    Entry(&'a str, u64),
}

/// The options of `why`: the words, which are a history and an entry's number, or commands, of which the last is
/// explained; for commands the policy file and the profile; the limit of live nodes; and the form of the explanation.
#[derive(Drop)]
pub struct WhyOptions<'a> {
    pub words: Vec<&'a str>,
    pub policy: Option<&'a str>,
    pub profile: Option<&'a str>,
    pub nodes: usize,
    /// None if its word names none.
    pub form: Option<AnswerForm>,
    ghost some: { 1 ≤ nodes },
    ghost most: { nodes ≤ TREE_NODES },
}

impl<'a> WhyOptions<'a> {
    ghost use Rattle.clap.specs.Words.{found_of, rows_of};
    ghost use Rattle.ll_program.specs.Options.{asked_by, fits_why, question_of, why_in, why_order};

    /// Reads the options of `why` from clap's matches. Errors: memory ran out.
    #[tactic(auto, using(crate::proofs::Numbers::text_told, crate::proofs::Numbers::texts_told))]
    pub(crate) fn of_matches(
        alloc: Global,
        why: &ArgMatches<'a>,
    ) -> Result<Option<WhyOptions<'a>>, AllocError>
        ensures { IfOk result (λ o. option_map why_in o ≡ why_order (rows_of (found_of why.now))) }
    {
        let Some(words) = why.get_strs("WORD") else {
            return Ok(None);
        };
        let Some(nodes) = number_of(why, "nodes", 1, TREE_NODES as u64) else {
            return Ok(None);
        };
        let words = Vec::from_slice(alloc, words)?;
        let policy = why.get_str("policy");
        let profile = why.get_str("profile");
        let form = AnswerForm::by_word(why.get_str("as"));
        Ok(Some(WhyOptions {
            words,
            policy,
            profile,
            nodes: nodes as usize,
            form,
        }))
    }

    /// Returns what to explain, if the options fit together.
    pub fn question(&self) -> Option<Question<'a, '_>>
        ensures { option_map question_of result ≡ asked_by (why_in self.now) }
    {
        match (self.words.as_slice(), self.policy, self.profile) {
            (words, Some(policy), Some(profile)) => {
                let (command, before) = words.split_last()?;
                Some(Question::Command(CommandQuestion {
                    policy,
                    profile,
                    before,
                    command,
                }))
            }
            ([history, number], None, None) => {
                let number = number_in(number, 1, HISTORY_ENTRIES as u64)?;
                Some(Question::Entry(history, number))
            }
            _ => None,
        }
    }

    /// Reports whether the options fit together, a history and a number alone, or commands with a policy and a profile;
    /// and whether the form is known.
    pub fn fit(&self) -> bool
        ensures { result ≡ fits_why (why_in self.now) }
    {
        self.question().is_some() && self.form.is_some()
    }
}
