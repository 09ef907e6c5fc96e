//! The numbers and the lists of texts among the options.

ghost use Rattle.std.specs.Prelude.{◌≡◌, ◌≤◌, [], map, unwrap_or, IfOk, IfSome};
ghost use Rattle.clap.specs.Words.{all_of, found_of, rows_of};
ghost use Rattle.clap.specs.declared.builder.value_parser.ValueParser.TheVariants.{Unsigned};
ghost use Rattle.ll_program.specs.Options.{number_in, number_of};

use clap::ArgMatches;
use std::alloc::{AllocError, Global};

/// The number of this option, if it is given and within these bounds.
pub(crate) fn number_of(matches: &ArgMatches, name: &str, low: u64, high: u64) -> Option<u64>
    ensures number { result ≡ number_of name.now (Unsigned low high) (rows_of (found_of matches.now)) }
    ensures within { IfSome result (λ number. (low ≤ number) × (number ≤ high)) }
{
    let number = matches.get_one::<u64>(name)?;
    if number < low || high < number {
        return None;
    }
    Some(number)
}

/// The number in this word, if it is within these bounds.
pub(crate) fn number_in(word: &str, low: u64, high: u64) -> Option<u64>
    ensures { result ≡ number_in (Unsigned low high) word.now }
{
    let number = word.parse::<u64>().ok()?;
    if number < low || high < number {
        return None;
    }
    Some(number)
}

/// All texts of an argument that may have none. Errors: memory ran out.
#[tactic(auto, using(crate::proofs::Numbers::texts_told))]
pub(crate) fn texts_of<'a>(
    alloc: Global,
    matches: &ArgMatches<'a>,
    name: &'static str,
) -> Result<Vec<&'a str>, AllocError>
    ensures { IfOk result (λ texts. map (λ t. t.now) texts.items
        ≡ unwrap_or (all_of name.now (rows_of (found_of matches.now))) []) }
{
    let mut texts = Vec::new(alloc);
    if let Some(told) = matches.get_strs(name) {
        texts.extend_from_slice(told)?;
    }
    Ok(texts)
}
