//! The rights that a policy's profile is granted.

ghost use Rattle.std.specs.Prelude.{◌≡◌, ◌<◌, ◌≤◌, ◌==◌, IfErr, IfNone, IfOk, IfSome, string_bytes};
ghost use Rattle.ll_commands.specs.Rights.{style_by};
ghost use Rattle.ll_embed.specs.Questions.{IsRightsTold, LacksRights, RightsAnswers, answer_form, profile_order_in};

use crate::answer::Answer;
use crate::ask_fault::AskFault;
use crate::asked::ProfileGiven;
use crate::fault::{Fault, fault_at};
use crate::lines::paths_in;
use ll_commands::{open_tree, rows_told};
use ll_why::RowStyle;
use std::alloc::Global;

// Returns what is written of a path in the table of this form, if there is one.
fn style_told(form: u32) -> Option<RowStyle<'static>>
    ensures style { IfSome result (λ style. style ≡ style_by (answer_form form) (form == 1)) }
    ensures some { IfSome result (λ style. form ≤ 2) }
    ensures none { IfNone result (2 < form) }
{
    match form {
        0 => Some(RowStyle::Line(false)),
        1 => Some(RowStyle::Line(true)),
        2 => Some(RowStyle::Json),
        _ => None,
    }
}

// Returns the table for the paths that are named.
fn table_of(
    alloc: Global,
    given: &ProfileGiven<'_>,
    form: u32,
    names: &[u8],
) -> Result<String, AskFault>
    ensures table { IfOk result (λ text. IsRightsTold (profile_order_in given.now) form names.now 0
        (string_bytes text)) }
    ensures fault { IfErr result (LacksRights (profile_order_in given.now) form names.now) }
{
    let setup = given.setup(alloc)?;
    let Some(style) = style_told(form) else {
        return Err(AskFault::WrongForm);
    };
    let paths = match paths_in(alloc, names) {
        Ok(paths) => paths,
        Err(failure) => return Err(AskFault::of_lines(failure, AskFault::WrongPath)),
    };
    let opened = match open_tree(alloc, &setup) {
        Ok(opened) => opened,
        Err(failure) => return Err(AskFault::Tree(fault_at(failure))),
    };
    match rows_told(alloc, &opened, &setup, paths.as_slice(), style) {
        Ok(text) => Ok(text),
        Err(_) => Err(AskFault::Tree(Fault::NoMemory)),
    }
}

/// Returns the table of the profile's rights, in this form, for the paths that are named.
pub fn table(alloc: Global, given: &ProfileGiven<'_>, form: u32, names: &[u8]) -> Answer
    ensures { RightsAnswers (profile_order_in given.now) form names.now result.status result.text.items }
{
    match table_of(alloc, given, form, names) {
        Ok(text) => Answer {
            status: 0,
            text: text.into_bytes(),
        },
        Err(fault) => fault.answer(alloc, given.policy),
    }
}
