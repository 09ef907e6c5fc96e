//! The options of `export`.

ghost use Rattle.std.specs.Prelude.{◌≡◌, codes, map, option_and_then, option_map, IfOk};
ghost use Rattle.std.specs.List.{list_all};
ghost use Rattle.ll_program.specs.Options.{is_absolute};

use crate::denied::Denied;
use crate::options::CheckOptions;
use crate::values::texts_of;
use clap::ArgMatches;
use std::alloc::{AllocError, Global};

/// The form of an exported profile: a C program or JSON.
#[derive(Clone, Copy, Debug, PartialEq, Eq)]
pub enum Form {
    C,
    Json,
}

impl Form {
    ghost use Rattle.ll_program.specs.Options.{form_of};

    // The form that a word names.
    fn of_word(word: &str) -> Option<Form>
        ensures { result ≡ form_of word.now }
    {
        match word {
            "c" => Some(Form::C),
            "json" => Some(Form::Json),
            _ => None,
        }
    }
}

/// The options of `export`.
#[derive(Drop)]
pub struct ExportOptions<'a> {
    /// The policy file.
    pub policy: &'a str,
    pub profile: &'a str,
    /// The form; None if its word names none.
    pub form: Option<Form>,
    /// The directory that the exported program uses as the policy's root, if not `/`.
    pub root: Option<&'a str>,
    /// Files and directories that each layer may also read and execute.
    pub also: Vec<&'a str>,
    /// Whether the exported program follows symbolic links in a rule's path.
    pub follow: bool,
    /// What the program denies apart from rights on files; None if the list has an unknown word.
    pub deny: Option<Denied>,
    /// Whether the program goes on with the layers that the kernel knows.
    pub best_effort: bool,
    /// Files of checks that the profile must pass.
    pub checked: Vec<&'a str>,
}

// Whether the path begins at the root of the file system.
fn is_absolute(path: &str) -> bool
    ensures { result ≡ is_absolute path.now }
{
    path.starts_with('/')
}

fn are_absolute(paths: &[&str]) -> bool
    ensures { result ≡ list_all is_absolute (map (λ t. t.now) paths.now) }
{
    for path in paths {
        if !is_absolute(path) {
            return false;
        }
    }
    true
}

impl<'a> ExportOptions<'a> {
    ghost use Rattle.clap.specs.Words.{first_of, found_of, rows_of};
    ghost use Rattle.ll_program.specs.Options.{denied_of, export_order, exported_in, fits_export, form_of, is_checked};

    // The form among clap's matches.
    #[tactic(auto, using(crate::proofs::Numbers::text_told))]
    fn form_of(export: &ArgMatches) -> Option<Form>
        ensures { result ≡ option_and_then form_of (first_of (codes "as") (rows_of (found_of export.now))) }
    {
        Form::of_word(export.get_str("as")?)
    }

    // What is denied apart from rights on files, among clap's matches.
    #[tactic(auto, using(crate::proofs::Numbers::text_told))]
    fn deny_of(export: &ArgMatches) -> Option<Denied>
        ensures { result ≡ denied_of (first_of (codes "deny") (rows_of (found_of export.now))) }
    {
        match export.get_str("deny") {
            Some(list) => Denied::of_list(list),
            None => Some(Denied::NOTHING),
        }
    }

    /// Reads the options of `export` from clap's matches. Errors: memory ran out.
    #[tactic(auto, using(crate::proofs::Numbers::text_told))]
    pub(crate) fn of_matches(
        alloc: Global,
        export: &ArgMatches<'a>,
    ) -> Result<Option<ExportOptions<'a>>, AllocError>
        ensures { IfOk result (λ o. option_map exported_in o ≡ export_order (rows_of (found_of export.now))) }
    {
        let also = texts_of(alloc, export, "also")?;
        let checked = texts_of(alloc, export, "checked")?;
        let Some(policy) = export.get_str("policy") else {
            return Ok(None);
        };
        let Some(profile) = export.get_str("profile") else {
            return Ok(None);
        };
        let form = ExportOptions::form_of(export);
        let root = export.get_str("root");
        let follow = CheckOptions::is_set(export, "follow");
        let deny = ExportOptions::deny_of(export);
        let best_effort = CheckOptions::is_set(export, "best-effort");
        Ok(Some(ExportOptions {
            policy,
            profile,
            form,
            root,
            also,
            follow,
            deny,
            best_effort,
            checked,
        }))
    }

    /// Reports whether the profile must pass checks.
    pub fn is_checked(&self) -> bool
        ensures { result ≡ is_checked (exported_in self.now) }
    {
        !self.checked.is_empty()
    }

    /// Reports whether the options fit together: the words of `--as` and `--deny` are known, and paths are absolute.
    pub fn fit(&self) -> bool
        ensures { result ≡ fits_export (exported_in self.now) }
    {
        (self.form.is_some() && self.deny.is_some())
            && (is_absolute(self.root.unwrap_or("/")) && are_absolute(self.also.as_slice()))
    }
}
