//! The rights of all profiles of a policy.

ghost use Rattle.std.specs.Prelude.{◌≡◌, ◌∷◌, ◌++◌, ℕ, List, [], map, IfErr, IfOk, IfSome, OnOk, string_bytes};
ghost use Rattle.toml.specs.Parse.{parse_document};
ghost use Rattle.ll_path.specs.Path.{path_of_text};
ghost use Rattle.ll_policy.specs.Plan.{IsPlanOf};
ghost use Rattle.ll_wire.specs.Transcript.{Writes};
ghost use Rattle.ll_program.specs.Policy.{IsPolicy};
ghost use Rattle.ll_program.specs.Rights.{rights_in};
ghost use Rattle.ll_commands.specs.Profiles.{AddsTables, AreTables, IsAllTables, IsStyleAmong, LacksTables, StopsAt};
ghost use Rattle.ll_commands.specs.Profiles.{TellsNotAll, heading_in};
ghost use Rattle.ll_commands.specs.Rights.{IsTableIn, LacksTable};

use crate::rights::table_of;
use ll_path::Path;
use ll_policy::Policy;
use ll_program::{
    AnswerForm, Failure, RightsOptions, TreeOptions, paths_of, policy_of, read_text, setup_by,
    write_text,
};
use ll_why::RowStyle;
use std::alloc::{AllocError, Global};
use std::io::{Read, Write};

/// Is notified of the profile at which the tables of all end.
pub trait ProfileNotes {
    /// The profile with this name has no table.
    fn of_profile(&mut self, profile: &str);
}

// A policy, which is read once for all of its profiles, and the text that gives it.
#[derive(Drop)]
struct ReadPolicy<'a> {
    text: &'a [u8],
    policy: Policy,
}

// How the profile's rows are written among those of all.
fn style_among<'a>(options: &RightsOptions, profile: &'a str) -> RowStyle<'a>
    ensures { IsStyleAmong (rights_in options.now) profile.entry.now result }
{
    match options.form {
        Some(AnswerForm::Json) => RowStyle::ProfileJson(profile),
        Some(AnswerForm::Text) | None => RowStyle::Line(options.layers),
    }
}

// Appends what stands before the profile's rows.
fn push_heading(text: &mut String, style: RowStyle, profile: &str) -> Result<(), AllocError>
    ensures { OnOk result (string_bytes text.new ≡ string_bytes text.old ++ heading_in style.entry profile.now) }
{
    match style {
        RowStyle::Line(_) => {
            text.push_str("[")?;
            text.push_str(profile)?;
            text.push_str("]\n")
        }
        RowStyle::Json | RowStyle::ProfileJson(_) => Ok(()),
    }
}

// Appends the profile's rows, and what stands before them.
fn push_rows(
    text: &mut String,
    style: RowStyle,
    profile: &str,
    rows: &str,
) -> Result<(), AllocError>
    ensures { OnOk result (string_bytes text.new
        ≡ string_bytes text.old ++ (heading_in style.entry profile.now ++ rows.now)) }
{
    push_heading(text, style, profile)?;
    text.push_str(rows)?;
    Ok(())
}

// Returns the profile's rows on these paths in this style.
fn rows_of(
    alloc: Global,
    options: &RightsOptions,
    read: &ReadPolicy<'_>,
    paths: &[Path],
    profile: &str,
    style: RowStyle,
) -> Result<String, Failure>
    requires paths { paths.now ≡ map path_of_text (rights_in options.now).paths }
    requires right { IsPolicy read.now.text.now }
    requires plan { IsPlanOf (parse_document read.now.text.now) read.now.policy }
    ensures table { IfOk result (λ rows. IsTableIn style.entry (rights_in options.now) profile.now read.now.text.now
        (string_bytes rows)) }
    ensures failure { IfErr result (LacksTable (rights_in options.now) profile.now read.now.text.now) }
{
    let tree = TreeOptions::of_profile(options.policy, profile, options.nodes);
    let setup = setup_by(alloc, &tree, &read.policy)?;
    table_of(alloc, &setup, paths, style)
}

// Appends the profile's table.
fn push_table(
    alloc: Global,
    options: &RightsOptions,
    read: &ReadPolicy<'_>,
    paths: &[Path],
    profile: &str,
    text: &mut String,
) -> Result<(), Failure>
    requires paths { paths.now ≡ map path_of_text (rights_in options.now).paths }
    requires right { IsPolicy read.now.text.now }
    requires plan { IsPlanOf (parse_document read.now.text.now) read.now.policy }
    ensures table { OnOk result (AddsTables (rights_in options.now) read.now.text.now (profile.now ∷ [])
        (string_bytes text.old) (string_bytes text.new)) }
    ensures failure { IfErr result (LacksTable (rights_in options.now) profile.now read.now.text.now) }
{
    let style = style_among(options, profile);
    let rows = rows_of(alloc, options, read, paths, profile, style)?;
    match push_rows(text, style, profile, rows.as_str()) {
        Ok(()) => Ok(()),
        Err(_) => Err(Failure::NoMemory),
    }
}

// Returns the tables of these profiles of the policy, on these paths.
fn tables_of<N: ProfileNotes>(
    alloc: Global,
    options: &RightsOptions,
    read: &ReadPolicy<'_>,
    paths: &[Path],
    profiles: &[&str],
    notes: &mut N,
) -> Result<String, Failure>
    requires paths { paths.now ≡ map path_of_text (rights_in options.now).paths }
    requires right { IsPolicy read.now.text.now }
    requires plan { IsPlanOf (parse_document read.now.text.now) read.now.policy }
    ensures tables { IfOk result (λ text. AreTables (rights_in options.now) read.now.text.now
        (map (λ p. p.now) profiles.now) (string_bytes text)) }
    ensures failure { IfErr result
        (StopsAt (rights_in options.now) read.now.text.now (map (λ p. p.now) profiles.now)) }
{
    let mut text = String::new(alloc);
    for profile in profiles {
        match push_table(alloc, options, read, paths, profile, &mut text) {
            Ok(()) => {}
            Err(failure) => {
                notes.of_profile(profile);
                return Err(failure);
            }
        }
    }
    Ok(text)
}

// Returns the tables of all profiles of the policy, on these paths.
fn tables_by<N: ProfileNotes>(
    alloc: Global,
    options: &RightsOptions,
    read: &ReadPolicy<'_>,
    paths: &[Path],
    notes: &mut N,
) -> Result<String, Failure>
    requires paths { paths.now ≡ map path_of_text (rights_in options.now).paths }
    requires right { IsPolicy read.now.text.now }
    requires plan { IsPlanOf (parse_document read.now.text.now) read.now.policy }
    ensures tables { IfOk result (λ tables.
        IsAllTables (rights_in options.now) read.now.text.now (string_bytes tables)) }
    ensures failure { IfErr result (LacksTables (rights_in options.now) read.now.text.now) }
{
    match read.policy.names(alloc) {
        Ok(names) => tables_of(alloc, options, read, paths, names.as_slice(), notes),
        Err(_) => Err(Failure::NoMemory),
    }
}

// Returns the tables of all profiles of the policy with this text, on these paths.
fn tables_in<N: ProfileNotes>(
    alloc: Global,
    options: &RightsOptions,
    text: &[u8],
    paths: &[Path],
    notes: &mut N,
) -> Result<String, Failure>
    requires { paths.now ≡ map path_of_text (rights_in options.now).paths }
    ensures tables { IfOk result (λ tables. IsAllTables (rights_in options.now) text.now (string_bytes tables)) }
    ensures failure { IfErr result (LacksTables (rights_in options.now) text.now) }
{
    let policy = policy_of(alloc, text)?;
    let read = ReadPolicy { text, policy };
    tables_by(alloc, options, &read, paths, notes)
}

/// Returns the tables of all profiles that the options ask for, by the policy in this file. Errors: a word spells no
/// path, the policy has a fault, the first profile that can't be opened, which is noted, the file can't be read, or
/// memory ran out.
pub fn all_tables<R: Read, N: ProfileNotes>(
    alloc: Global,
    options: &RightsOptions,
    file: &mut R,
    notes: &mut N,
) -> Result<String, Failure>
    ensures tables { IfOk result (λ tables. (text : List ℕ) × IfSome (R.remaining file.old) (λ told. text ≡ told)
        × IsAllTables (rights_in options.now) text (string_bytes tables)) }
    ensures failure { IfErr result (λ failure. (text : List ℕ) × IfSome (R.remaining file.old) (λ told. text ≡ told)
        × LacksTables (rights_in options.now) text failure) }
{
    let paths = paths_of(alloc, options.paths.as_slice())?;
    let text = read_text(alloc, file)?;
    tables_in(alloc, options, text.as_slice(), paths.as_slice(), notes)
}

/// Writes the tables of all profiles that the options ask for, by the policy in this file. Writes nothing before they
/// are complete, and doesn't retry after a failure. Errors: those of `all_tables`; the output failed.
pub fn tell_all_rights<R: Read, W: Write, N: ProfileNotes>(
    alloc: Global,
    options: &RightsOptions,
    file: &mut R,
    out: &mut W,
    notes: &mut N,
) -> Result<(), Failure>
    ensures tables { OnOk result ((text : List ℕ) × IfSome (R.remaining file.old) (λ told. text ≡ told)
        × Writes (W.contents out.old) (W.contents out.new) (IsAllTables (rights_in options.now) text)) }
    ensures failure { IfErr result (λ failure. (text : List ℕ) × IfSome (R.remaining file.old) (λ told. text ≡ told)
        × TellsNotAll (rights_in options.now) text (W.contents out.old) (W.contents out.new) failure) }
{
    let tables = all_tables(alloc, options, file, notes)?;
    write_text(tables.as_str(), out)
}
