//! `check` and `export`, with the files that their words name.

ghost use Rattle.std.specs.Prelude.{◌≡◌, ◌⊎◌, ℕ, true, false, List, [], Option, None, Some, Err, IfErr, IfOk, IfSome};
ghost use Rattle.std.specs.Prelude.{map, option_map};
ghost use Rattle.std.specs.List.{All, AllZip};
ghost use Rattle.ll_program.specs.Sources.{named};
ghost use Rattle.ll_program.specs.Options.{checked_in, exported_in, fits_check, fits_export};
ghost use Rattle.ll_program.specs.Options.{is_checked};
ghost use Rattle.ll_program.specs.Failure.{EndsExport};
ghost use Rattle.ll_check.specs.Ends.{BeginsCheck, EndsCheck, FailsCheck, IsCheckOf, IsCheckedUnder, IsPolicyText};
ghost use Rattle.ll_check.specs.Ends.{IsCheckBy, IsPolicySource, IsSource, MayFailBy};
ghost use Rattle.ll_check.specs.Files.{HasBegun, IsCheck, MayFail, Source, source_of};
ghost use Rattle.landtree.specs.Checked.{EndsChecked, WritesExport, check_of};
ghost use Rattle.ll_wire.specs.Transcript.{Writes};
ghost use Rattle.ll_commands.specs.Export as exports;

use crate::hints::Hints;
use crate::misfits::Misfit;
use ll_check::{
    CheckInput, NamedText, SharedRunner, check, check_schedules, own_policies, tell_own_line,
};
use ll_commands::{export, export_checked};
use ll_program::{
    CheckOptions, Checked, Conclusion, ExportOptions, Failure, Late, ReportForm, Sources, named,
    read_text,
};
use ll_rights::limits::TREE_NODES;
use std::alloc::Global;
use std::io::Write;
use std::sync::Wait;

// Returns the whole text of this file.
fn text_of<S: Sources>(
    rt: &HostRuntime,
    sources: &S,
    what: &str,
    file: Option<&str>,
    hints: &mut Hints,
) -> Result<Vec<u8>, Failure>
    ensures text { IfOk result (λ text. IfSome (S.texts sources.now (option_map (λ name. name.now) file.entry))
        (λ told. text.items ≡ told)) }
    ensures failure { IfErr result (λ failure. (failure ≡ Failure.File) ⊎ (failure ≡ Failure.NoMemory)) }
{
    let mut input = Late::new(sources, file);
    let text = read_text(rt.alloc(), &mut input);
    hints.of_input(what, &input);
    text
}

/// Returns the text of the named policy, if one is named.
pub(crate) fn policy_text<S: Sources>(
    rt: &HostRuntime,
    sources: &S,
    policy: Option<&str>,
    hints: &mut Hints,
) -> Result<Vec<u8>, Failure>
    ensures text { IfOk result (λ text. IsPolicyText (S.texts sources.now)
        (option_map (λ name. name.now) policy.entry) text.items) }
    ensures failure { IfErr result (λ failure. (failure ≡ Failure.File) ⊎ (failure ≡ Failure.NoMemory)) }
{
    match policy {
        Some(path) => text_of(rt, sources, "policy", Some(path), hints),
        None => Ok(Vec::new(rt.alloc())),
    }
}

// Reads the file of checks with this name.
fn named_text<'a, S: Sources>(
    rt: &HostRuntime,
    sources: &S,
    name: &'a str,
    hints: &mut Hints,
) -> Result<NamedText<'a>, Failure>
    ensures source { IfOk result (λ file. IsSource (S.texts sources.now) name.entry.now (source_of file)) }
    ensures failure { IfErr result (λ failure. (failure ≡ Failure.File) ⊎ (failure ≡ Failure.NoMemory)) }
{
    let text = text_of(rt, sources, "file", named(name), hints)?;
    Ok(NamedText { name, text })
}

/// Reads the files of checks with these names.
pub(crate) fn texts_of<'a, S: Sources>(
    rt: &HostRuntime,
    sources: &S,
    names: &[&'a str],
    hints: &mut Hints,
) -> Result<Vec<NamedText<'a>>, Failure>
    ensures sources { IfOk result (λ files. AllZip (IsSource (S.texts sources.now)) (map (λ name. name.now) names.now)
        (map source_of files.items)) }
    ensures failure { IfErr result (λ failure. (failure ≡ Failure.File) ⊎ (failure ≡ Failure.NoMemory)) }
{
    let mut files = Vec::new(rt.alloc());
    for name in names {
        let file = named_text(rt, sources, name, hints)?;
        if let Err(refused) = files.push(file) {
            drop(refused);
            return Err(Failure::NoMemory);
        }
    }
    Ok(files)
}

// Returns the number, from 1, of the first line of this file that may name a policy.
fn policy_line(file: &NamedText<'_>) -> Option<usize> {
    let mut lines = file.text.as_slice().split(|b| *b == b'\n');
    let before = lines.position(|line| line.starts_with(b"@policy "))?;
    Some(before.saturating_add(1))
}

// Reports whether a line of these files may name a policy.
fn may_name_policies(files: &[NamedText<'_>]) -> bool {
    files.iter().any(|file| policy_line(file).is_some())
}

// Returns the paths of the policies that sections of these files name for themselves.
fn policy_paths(alloc: Global, files: &[NamedText<'_>]) -> Result<Vec<String>, Failure>
    ensures { IfErr result (λ failure. failure ≡ Failure.NoMemory) }
{
    if may_name_policies(files) {
        own_policies(alloc, files)
    } else {
        Ok(Vec::new(alloc))
    }
}

// Reads the policy at this path, which a section of these files names.
fn named_policy<'a, S: Sources>(
    rt: &HostRuntime,
    sources: &S,
    files: &[NamedText<'_>],
    path: &'a str,
    hints: &mut Hints,
) -> Result<NamedText<'a>, Failure>
    ensures source { IfOk result (λ policy. IsPolicySource (S.texts sources.now) (source_of policy)) }
    ensures failure { IfErr result (λ failure. (failure ≡ Failure.File) ⊎ (failure ≡ Failure.NoMemory)) }
{
    match text_of(rt, sources, "policy", Some(path), hints) {
        Ok(text) => Ok(NamedText { name: path, text }),
        Err(failure) => {
            if matches!(failure, Failure::File) {
                tell_own_line(rt.alloc(), files, path, &mut rt.stderr());
            }
            Err(failure)
        }
    }
}

// Reads the policies at these paths, which sections of these files name.
fn policies_of<'a, S: Sources>(
    rt: &HostRuntime,
    sources: &S,
    files: &[NamedText<'_>],
    paths: &'a [String],
    hints: &mut Hints,
) -> Result<Vec<NamedText<'a>>, Failure>
    ensures sources { IfOk result (λ policies. All (IsPolicySource (S.texts sources.now))
        (map source_of policies.items)) }
    ensures failure { IfErr result (λ failure. (failure ≡ Failure.File) ⊎ (failure ≡ Failure.NoMemory)) }
{
    let mut policies = Vec::new(rt.alloc());
    for path in paths {
        let policy = named_policy(rt, sources, files, path.as_str(), hints)?;
        if let Err(refused) = policies.push(policy) {
            drop(refused);
            return Err(Failure::NoMemory);
        }
    }
    Ok(policies)
}

// Checks these files, by the given policy and those that their sections name, which are read first.
fn check_texts<S: Sources + Wait, W: Write>(
    rt: &HostRuntime,
    sources: &S,
    given: &CheckInput<'_, '_, '_>,
    out: &mut W,
    hints: &mut Hints,
) -> Result<Checked, Failure>
    ensures checked { IfOk result (λ end. (policies : List Source)
        × All (IsPolicySource (S.texts sources.now)) policies × Writes (W.contents out.old) (W.contents out.new)
        (IsCheck (checked_in given.now.options.now) given.now.policy.now policies
        (map source_of given.now.files.now) end)) }
    ensures failure { IfErr result (λ failure. (failure ≡ Failure.File) ⊎ ((policies : List Source)
        × All (IsPolicySource (S.texts sources.now)) policies
        × MayFail (checked_in given.now.options.now) given.now.policy.now policies
        (map source_of given.now.files.now) failure)) }
    ensures begun { IfErr result (λ failure. (policies : List Source)
        × All (IsPolicySource (S.texts sources.now)) policies × HasBegun
        (IsCheck (checked_in given.now.options.now) given.now.policy.now policies (map source_of given.now.files.now))
        (W.contents out.old) (W.contents out.new) failure) }
{
    let paths = policy_paths(rt.alloc(), given.files)?;
    let policies = policies_of(rt, sources, given.files, paths.as_slice(), hints)?;
    let (options, policy, files) = (given.options, given.policy, given.files);
    let input = CheckInput {
        options,
        policy,
        policies: policies.as_slice(),
        files,
    };
    let runner = SharedRunner { rt: sources };
    check(&runner, rt.alloc(), &input, out, &mut rt.stderr(), hints)
}

// Checks these files, or these schedules, which have no policy.
fn check_read<S: Sources + Wait, W: Write>(
    rt: &HostRuntime,
    sources: &S,
    given: &CheckInput<'_, '_, '_>,
    out: &mut W,
    hints: &mut Hints,
) -> Result<Checked, Failure>
    ensures checked { IfOk result (λ end. (policies : List Source)
        × All (IsPolicySource (S.texts sources.now)) policies × Writes (W.contents out.old) (W.contents out.new)
        (IsCheckBy given.now.options.now.schedule (checked_in given.now.options.now) given.now.policy.now policies
        (map source_of given.now.files.now) end)) }
    ensures failure { IfErr result (λ failure. (failure ≡ Failure.File) ⊎ ((policies : List Source)
        × All (IsPolicySource (S.texts sources.now)) policies
        × MayFailBy given.now.options.now.schedule (checked_in given.now.options.now) given.now.policy.now policies
        (map source_of given.now.files.now) failure)) }
    ensures begun { IfErr result (λ failure. (policies : List Source)
        × All (IsPolicySource (S.texts sources.now)) policies × HasBegun
        (IsCheckBy given.now.options.now.schedule (checked_in given.now.options.now) given.now.policy.now policies
        (map source_of given.now.files.now)) (W.contents out.old) (W.contents out.new) failure) }
{
    if given.options.schedule {
        return check_schedules(
            rt.alloc(),
            given.options,
            given.files,
            out,
            &mut rt.stderr(),
        );
    }
    check_texts(rt, sources, given, out, hints)
}

// Checks the given files.
fn check_files<S: Sources + Wait, W: Write>(
    rt: &HostRuntime,
    sources: &S,
    options: &CheckOptions,
    out: &mut W,
    hints: &mut Hints,
) -> Result<Checked, Failure>
    ensures checked { IfOk result (λ end. (policy : List ℕ)
        × IsPolicyText (S.texts sources.now) (checked_in options.now).policy policy
        × Writes (W.contents out.old) (W.contents out.new)
        (IsCheckOf (S.texts sources.now) (checked_in options.now) policy end)) }
    ensures failure { IfErr result (FailsCheck (S.texts sources.now) (checked_in options.now)) }
    ensures begun { IfErr result (BeginsCheck (S.texts sources.now) (checked_in options.now)
        (W.contents out.old) (W.contents out.new)) }
{
    let policy = policy_text(rt, sources, options.policy, hints)?;
    let files = texts_of(rt, sources, options.files.as_slice(), hints)?;
    let input = CheckInput {
        options,
        policy: policy.as_slice(),
        policies: &[],
        files: files.as_slice(),
    };
    let checked = check_read(rt, sources, &input, out, hints);
    if let Err(failure) = &checked {
        hints.of_check(options, failure, policy.as_slice());
    }
    checked
}

// Runs `check`.
pub fn check_options<S: Sources + Wait, W: Write>(
    rt: &HostRuntime,
    sources: &S,
    options: &CheckOptions,
    out: &mut W,
    hints: &mut Hints,
) -> Result<Conclusion, Failure>
    ensures unfit { fits_check (checked_in options.now) ≡ false
        → (result ≡ Err Failure.CommandLine) × (W.contents out.new ≡ W.contents out.old) }
    ensures check { fits_check (checked_in options.now) ≡ true
        → EndsCheck (S.texts sources.now) (checked_in options.now) (W.contents out.old) (W.contents out.new) result }
{
    if !options.fit() {
        hints.of_misfit(Misfit::of_check(options));
        return Err(Failure::CommandLine);
    }
    let checked = check_files(rt, sources, options, out, hints)?;
    Ok(Conclusion::Checked(checked))
}

// Writes the text of the exported profile.
fn export_file<S: Sources, W: Write>(
    rt: &HostRuntime,
    sources: &S,
    options: &ExportOptions,
    out: &mut W,
    hints: &mut Hints,
) -> Result<Conclusion, Failure>
    ensures ends { EndsExport false result }
    ensures written { WritesExport (S.texts sources.now) (exported_in options.now)
        (W.contents out.old) (W.contents out.new) result }
    ensures told { IfErr result (λ failure. (text : List ℕ)
        × IfSome (S.texts sources.now (Some (exported_in options.now).policy)) (λ told. text ≡ told)
        × exports.MayFail (exported_in options.now) text failure) }
{
    let mut file = hints.source(rt.alloc(), sources, Some(options.policy));
    let told = export(rt.alloc(), options, &mut file, out);
    hints.of_input("policy", &file);
    match told {
        Ok(()) => Ok(Conclusion::Done),
        Err(failure) => {
            hints.of_export(options, &failure, file.text());
            Err(failure)
        }
    }
}

// Adds where a section of these files first names a policy.
fn hint_at_policies(files: &[NamedText<'_>], hints: &mut Hints) {
    for file in files {
        if let Some(line) = policy_line(file) {
            hints.of_policy_line(file.name, line);
            return;
        }
    }
}

// Refuses files of checks in which a section names a policy.
fn refuse_policies(
    alloc: Global,
    files: &[NamedText<'_>],
    hints: &mut Hints,
) -> Result<(), Failure> {
    let paths = policy_paths(alloc, files)?;
    if paths.is_empty() {
        return Ok(());
    }
    hint_at_policies(files, hints);
    Err(Failure::CommandLine)
}

// Checks these files by the given policy alone, not by one of a section. What `check` prints goes to standard error.
fn check_alone<S: Sources + Wait>(
    rt: &HostRuntime,
    sources: &S,
    options: &CheckOptions,
    policy: &[u8],
    files: &[NamedText<'_>],
    hints: &mut Hints,
) -> Result<Checked, Failure>
    ensures { IfOk result (λ end. (written : List ℕ)
        × IsCheck (checked_in options.now) policy.now [] (map source_of files.now) end written) }
{
    let input = CheckInput {
        options,
        policy,
        policies: &[],
        files,
    };
    let runner = SharedRunner { rt: sources };
    check(
        &runner,
        rt.alloc(),
        &input,
        &mut rt.stderr(),
        &mut rt.stderr(),
        hints,
    )
}

// Checks that a profile passes these files, by the policy with this text. What `check` prints goes to standard error.
// Errors: as of a check, or a section of the files names a policy, and its tests wouldn't try the profile.
fn check_profile<S: Sources + Wait>(
    rt: &HostRuntime,
    sources: &S,
    options: &ExportOptions,
    policy: &[u8],
    hints: &mut Hints,
) -> Result<Checked, Failure>
    ensures { IfOk result (IsCheckedUnder (S.texts sources.now) (check_of (exported_in options.now)) policy.now) }
{
    let files = texts_of(rt, sources, options.checked.as_slice(), hints)?;
    refuse_policies(rt.alloc(), files.as_slice(), hints)?;
    let Ok(names) = options.checked.clone() else {
        return Err(Failure::NoMemory);
    };
    let options = CheckOptions {
        files: names,
        nodes: TREE_NODES,
        level: None,
        policy: Some(options.policy),
        profile: Some(options.profile),
        quiet: false,
        verbose: false,
        form: Some(ReportForm::Text),
        schedule: false,
    };
    check_alone(rt, sources, &options, policy, files.as_slice(), hints)
}

// Writes the text of the exported profile, by the policy with this text, if the profile passes the files of checks.
fn export_policy<S: Sources + Wait, W: Write>(
    rt: &HostRuntime,
    sources: &S,
    options: &ExportOptions,
    policy: &[u8],
    out: &mut W,
    hints: &mut Hints,
) -> Result<Conclusion, Failure>
    ensures ends { EndsExport true result }
    ensures written { IsPolicyText (S.texts sources.now) (Some (exported_in options.now).policy) policy.now
        → WritesExport (S.texts sources.now) (exported_in options.now)
        (W.contents out.old) (W.contents out.new) result }
    ensures checked { IsPolicyText (S.texts sources.now) (Some (exported_in options.now).policy) policy.now
        → EndsChecked (S.texts sources.now) (exported_in options.now)
        (W.contents out.old) (W.contents out.new) result }
{
    let checked = check_profile(rt, sources, options, policy, hints)?;
    let mut text = policy;
    export_checked(rt.alloc(), checked, options, &mut text, out)
}

// Writes the text of the exported profile, if the profile passes the files of checks. The policy is read once, so what
// is exported is what was checked.
fn export_profile<S: Sources + Wait, W: Write>(
    rt: &HostRuntime,
    sources: &S,
    options: &ExportOptions,
    out: &mut W,
    hints: &mut Hints,
) -> Result<Conclusion, Failure>
    ensures ends { EndsExport true result }
    ensures written { WritesExport (S.texts sources.now) (exported_in options.now)
        (W.contents out.old) (W.contents out.new) result }
    ensures checked { EndsChecked (S.texts sources.now) (exported_in options.now)
        (W.contents out.old) (W.contents out.new) result }
{
    let policy = text_of(rt, sources, "policy", Some(options.policy), hints)?;
    let ended = export_policy(rt, sources, options, policy.as_slice(), out, hints);
    if let Err(failure) = &ended {
        hints.of_export(options, failure, Some(policy.as_slice()));
    }
    ended
}

// Runs `export`.
pub fn export_options<S: Sources + Wait, W: Write>(
    rt: &HostRuntime,
    sources: &S,
    options: &ExportOptions,
    out: &mut W,
    hints: &mut Hints,
) -> Result<Conclusion, Failure>
    ensures unfit { fits_export (exported_in options.now) ≡ false
        → (result ≡ Err Failure.CommandLine) × (W.contents out.new ≡ W.contents out.old) }
    ensures export { fits_export (exported_in options.now) ≡ true
        → EndsExport (is_checked (exported_in options.now)) result }
    ensures written { fits_export (exported_in options.now) ≡ true
        → WritesExport (S.texts sources.now) (exported_in options.now)
        (W.contents out.old) (W.contents out.new) result }
    ensures checked { fits_export (exported_in options.now) ≡ true → is_checked (exported_in options.now) ≡ true
        → EndsChecked (S.texts sources.now) (exported_in options.now)
        (W.contents out.old) (W.contents out.new) result }
{
    if !options.fit() {
        hints.of_misfit(Misfit::of_export(options));
        return Err(Failure::CommandLine);
    }
    if options.is_checked() {
        return export_profile(rt, sources, options, out, hints);
    }
    export_file(rt, sources, options, out, hints)
}
