//! The rights of a policy's profile, as a table.

ghost use Rattle.std.specs.Prelude.{◌≡◌, ℕ, List, IfOk, IfErr, IfSome, OnOk, string_bytes};
ghost use Rattle.ll_wire.specs.Transcript.{Writes};
ghost use Rattle.ll_program.specs.Rights.{rights_in};
ghost use Rattle.ll_seq.specs.State.{State};
ghost use Rattle.ll_seq.specs.Step.{client_of};
ghost use Rattle.ll_commands.specs.OpenedTree.{FailsSo, IsStopped, Opens};
ghost use Rattle.ll_commands.specs.Rights.{IsTable, IsTableIn, LacksTable, MayFail, loader_calls, style_of};
ghost use Rattle.ll_why.specs.PathRows.{AreRows, paths_or_nodes};

use crate::opened_tree::{Opened, open_tree};
use ll_path::Path;
use ll_program::{AnswerForm, Failure, RightsOptions, TreeOptions, paths_of, setup_of, write_text};
use ll_seq::Call;
use ll_session::Setup;
use ll_why::{RowStyle, rows_text};
use std::alloc::{AllocError, Global};
use std::io::{Read, Write};

fn style_of(options: &RightsOptions) -> RowStyle<'static>
    ensures { result ≡ style_of (rights_in options.now) }
{
    match options.form {
        Some(AnswerForm::Json) => RowStyle::Json,
        Some(AnswerForm::Text) | None => RowStyle::Line(options.layers),
    }
}

/// Returns the calls of the loader, if there is one.
pub(crate) fn loader_calls(setup: &Setup) -> &[Call]
    ensures { result.now ≡ loader_calls setup.now }
{
    match &setup.loader {
        Some(calls) => calls.as_slice(),
        None => &[],
    }
}

/// Returns the lines of the given paths, or by default of the policy's nodes.
pub fn rows_told(
    alloc: Global,
    opened: &Opened,
    setup: &Setup,
    paths: &[Path],
    style: RowStyle,
) -> Result<String, AllocError>
    ensures { IfOk result (λ text.
        AreRows opened.now.tree (client_of opened.now.tree opened.now.client).domain style.entry
        (paths_or_nodes paths.now (loader_calls setup.now)) (string_bytes text)) }
{
    let Some(client) = opened.tree.client(opened.client) else {
        unreachable!()
    };
    let calls = loader_calls(setup);
    rows_text(alloc, &opened.tree, &client.domain, style, paths, calls)
}

/// Returns the table of this setup's profile in this style, on the given paths, or by default on those of the policy's
/// nodes. Errors: a call of the setup is refused, or memory ran out.
pub(crate) fn table_of(
    alloc: Global,
    setup: &Setup,
    paths: &[Path],
    style: RowStyle,
) -> Result<String, Failure>
    ensures table { IfOk result (λ table. (client : ℕ) × (s : State) × Opens setup.now client s
        × AreRows s (client_of s client).domain style.entry (paths_or_nodes paths.now (loader_calls setup.now))
        (string_bytes table)) }
    ensures failure { IfErr result (FailsSo (IsStopped setup.now)) }
{
    let opened = open_tree(alloc, setup)?;
    match rows_told(alloc, &opened, setup, paths, style) {
        Ok(text) => Ok(text),
        Err(_) => Err(Failure::NoMemory),
    }
}

/// Returns the table of the profile's rights in this style, by the policy in this file. Errors: as of `rights_table`.
pub(crate) fn table_in<R: Read>(
    alloc: Global,
    options: &RightsOptions,
    profile: &str,
    style: RowStyle,
    file: &mut R,
) -> Result<String, Failure>
    ensures table { IfOk result (λ table. (text : List ℕ) × IfSome (R.remaining file.old) (λ told. text ≡ told)
        × IsTableIn style.entry (rights_in options.now) profile.now text (string_bytes table)) }
    ensures failure { IfErr result (λ failure. (text : List ℕ) × IfSome (R.remaining file.old) (λ told. text ≡ told)
        × LacksTable (rights_in options.now) profile.now text failure) }
{
    let paths = paths_of(alloc, options.paths.as_slice())?;
    let setup = setup_of(
        alloc,
        &TreeOptions::of_profile(options.policy, profile, options.nodes),
        file,
    )?;
    table_of(alloc, &setup, paths.as_slice(), style)
}

/// Returns the table of the profile's rights that the options ask for, by the policy in this file. Errors: a word
/// spells no path, the policy gives no setup, a call of it is refused, the file can't be read, or memory ran out.
pub fn rights_table<R: Read>(
    alloc: Global,
    options: &RightsOptions,
    profile: &str,
    file: &mut R,
) -> Result<String, Failure>
    ensures table { IfOk result (λ table. (text : List ℕ) × IfSome (R.remaining file.old) (λ told. text ≡ told)
        × IsTable (rights_in options.now) profile.now text (string_bytes table)) }
    ensures failure { IfErr result (λ failure. (text : List ℕ) × IfSome (R.remaining file.old) (λ told. text ≡ told)
        × LacksTable (rights_in options.now) profile.now text failure) }
{
    table_in(alloc, options, profile, style_of(options), file)
}

/// Writes the table of the profile's rights that the options ask for, by the policy in this file. Writes nothing before
/// the table is complete, and doesn't retry after a failure. Errors: those of `rights_table`; the output failed.
pub fn tell_rights<R: Read, W: Write>(
    alloc: Global,
    options: &RightsOptions,
    profile: &str,
    file: &mut R,
    out: &mut W,
) -> Result<(), Failure>
    ensures table { OnOk result ((text : List ℕ) × IfSome (R.remaining file.old) (λ told. text ≡ told)
        × Writes (W.contents out.old) (W.contents out.new) (IsTable (rights_in options.now) profile.now text)) }
    ensures failure { IfErr result (λ failure. (text : List ℕ) × IfSome (R.remaining file.old) (λ told. text ≡ told)
        × MayFail (rights_in options.now) profile.now text (W.contents out.old) (W.contents out.new) failure) }
{
    let table = rights_table(alloc, options, profile, file)?;
    write_text(table.as_str(), out)
}
