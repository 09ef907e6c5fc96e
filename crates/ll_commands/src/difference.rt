//! What a policy grants a profile more and less than an old one.

ghost use Rattle.std.specs.Prelude.{◌≡◌, ℕ, List, true, IfErr, IfOk, IfSome, string_bytes};
ghost use Rattle.ll_wire.specs.Transcript.{Writes};
ghost use Rattle.ll_program.specs.Options.{tree_in};
ghost use Rattle.ll_program.specs.Rights.{rights_in};
ghost use Rattle.ll_commands.specs.Difference.{IsDifference, IsDifferenceSo, IsOpened, LacksDifference, concluded_by};
ghost use Rattle.ll_commands.specs.Difference.{TellsNoDifference, difference_style_by, seen_in};
ghost use Rattle.ll_commands.specs.Rights.{LacksRights, loader_calls};
ghost use Rattle.clap.specs.Words.{Text};
ghost use Rattle.ll_why.specs.Difference.{AreDifferences, paths_compared, seen_by};

use crate::opened_tree::{Opened, open_tree};
use crate::rights::loader_calls;
use ll_path::Path;
use ll_program::{
    AnswerForm, Conclusion, Failure, OldPolicy, RightsOptions, TreeOptions, paths_of, setup_of,
    write_text,
};
use ll_session::Setup;
use ll_why::{Comparison, DifferenceStyle, Differences, View};
use std::alloc::{AllocError, Global};
use std::io::{Read, Write};

// A setup by a policy, and the tree that it opens.
#[derive(Drop)]
struct OpenedSetup {
    setup: Setup,
    opened: Opened,
}

fn style_by(form: Option<AnswerForm>) -> DifferenceStyle
    ensures { result ≡ difference_style_by form }
{
    match form {
        Some(AnswerForm::Json) => DifferenceStyle::Json,
        Some(AnswerForm::Text) | None => DifferenceStyle::Line,
    }
}

// Opens the tree that the options ask for, by the policy in this file. Errors: the policy gives no setup, a call of it
// is refused, the file can't be read, or memory ran out.
fn opened_by<R: Read>(
    alloc: Global,
    tree: &TreeOptions,
    file: &mut R,
) -> Result<OpenedSetup, Failure>
    ensures opened { IfOk result (λ it. (text : List ℕ) × IfSome (R.remaining file.old) (λ told. text ≡ told)
        × IsOpened (tree_in tree.now) text it.setup it.opened.client it.opened.tree) }
    ensures failure { IfErr result (λ failure. (text : List ℕ) × IfSome (R.remaining file.old) (λ told. text ≡ told)
        × ((words : List Text) → LacksRights words (tree_in tree.now) text failure)) }
{
    let setup = setup_of(alloc, tree, file)?;
    match open_tree(alloc, &setup) {
        Ok(opened) => Ok(OpenedSetup { setup, opened }),
        Err(failure) => Err(failure),
    }
}

// The opened tree, and the layers of its client.
fn view_of(opened: &Opened) -> View<'_>
    ensures { seen_by result ≡ seen_in opened.now.tree opened.now.client }
{
    let Some(client) = opened.tree.client(opened.client) else {
        unreachable!()
    };
    View {
        tree: &opened.tree,
        domain: &client.domain,
    }
}

// Returns the differences at the given paths, or by default at the root and the nodes of both policies.
fn differences_in(
    alloc: Global,
    before: &OpenedSetup,
    after: &OpenedSetup,
    paths: &[Path],
    style: DifferenceStyle,
) -> Result<Differences, AllocError>
    ensures { IfOk result (λ told. AreDifferences (seen_in before.now.opened.tree before.now.opened.client)
        (seen_in after.now.opened.tree after.now.opened.client) style
        (paths_compared paths.now (loader_calls after.now.setup) (loader_calls before.now.setup)) told.found
        (string_bytes told.text)) }
{
    let comparison = Comparison {
        old: view_of(&before.opened),
        new: view_of(&after.opened),
        style,
    };
    let (new, old) = (loader_calls(&after.setup), loader_calls(&before.setup));
    comparison.differences(alloc, paths, new, old)
}

/// Returns the difference that the options ask for, between the policies in these files. Errors: a word spells no path,
/// one of the policies gives no setup, a call of it is refused, a file can't be read, or memory ran out.
pub fn rights_difference<P: Read, R: Read>(
    alloc: Global,
    options: &RightsOptions,
    compared: &OldPolicy,
    old_file: &mut P,
    file: &mut R,
) -> Result<Differences, Failure>
    ensures told { IfOk result (λ told. (was is : List ℕ)
        × IfSome (P.remaining old_file.old) (λ text. was ≡ text) × IfSome (R.remaining file.old) (λ text. is ≡ text)
        × IsDifference (rights_in options.now) compared.now.old.now compared.now.profile.now was is told.found
        (string_bytes told.text)) }
    ensures failure { IfErr result (λ failure. (was is : List ℕ)
        × IfSome (P.remaining old_file.old) (λ text. was ≡ text) × IfSome (R.remaining file.old) (λ text. is ≡ text)
        × LacksDifference (rights_in options.now) compared.now.old.now compared.now.profile.now was is failure) }
{
    let paths = paths_of(alloc, options.paths.as_slice())?;
    let old_tree = TreeOptions::of_profile(compared.old, compared.profile, options.nodes);
    let before = opened_by(alloc, &old_tree, old_file)?;
    let tree = TreeOptions::of_profile(options.policy, compared.profile, options.nodes);
    let after = opened_by(alloc, &tree, file)?;
    let style = style_by(options.form);
    match differences_in(alloc, &before, &after, paths.as_slice(), style) {
        Ok(told) => Ok(told),
        Err(_) => Err(Failure::NoMemory),
    }
}

fn concluded_by(found: bool) -> Conclusion
    ensures { result ≡ concluded_by found }
{
    if found {
        Conclusion::Differs
    } else {
        Conclusion::Done
    }
}

/// Writes the difference that the options ask for, between the policies in these files. Writes nothing before it is
/// complete, and doesn't retry after a failure. Errors: those of `rights_difference`; the output failed.
pub fn tell_difference<P: Read, R: Read, W: Write>(
    alloc: Global,
    options: &RightsOptions,
    compared: &OldPolicy,
    old_file: &mut P,
    file: &mut R,
    out: &mut W,
) -> Result<Conclusion, Failure>
    ensures told { IfOk result (λ conclusion. (was is : List ℕ)
        × IfSome (P.remaining old_file.old) (λ text. was ≡ text) × IfSome (R.remaining file.old) (λ text. is ≡ text)
        × Writes (W.contents out.old) (W.contents out.new) (IsDifferenceSo (rights_in options.now)
        compared.now.old.now compared.now.profile.now was is conclusion)) }
    ensures failure { IfErr result (λ failure. (was is : List ℕ)
        × IfSome (P.remaining old_file.old) (λ text. was ≡ text) × IfSome (R.remaining file.old) (λ text. is ≡ text)
        × TellsNoDifference (rights_in options.now) compared.now.old.now compared.now.profile.now was is
        (W.contents out.old) (W.contents out.new) failure) }
{
    let told = rights_difference(alloc, options, compared, old_file, file)?;
    match write_text(told.text.as_str(), out) {
        Ok(()) => Ok(concluded_by(told.found)),
        Err(failure) => Err(failure),
    }
}
