//! Whether hints are wanted.

ghost use Rattle.std.specs.Prelude.{◌≡◌, ◌∷◌, [], not, IfOk, bytes_eq, codes, false, map, option_map, slice_get};
ghost use Rattle.std.specs.List.{filter, list_any};
ghost use Rattle.std.specs.Option.{option_map_or};
ghost use Rattle.landtree.specs.Wish.{are_wanted, asks, declines, is_telling, is_wish};

use std::alloc::{AllocError, Global};

/// The word that asks for hints, at any place. (A file with this name is written `./--explain`.)
const EXPLAIN: &str = "--explain";

/// The word that wants none, at any place.
const TERSE: &str = "--terse";

fn is_wish(word: &str) -> bool
    ensures { result ≡ is_wish word.now }
{
    word == EXPLAIN || word == TERSE
}

// Reports whether one of the words asks for hints.
fn asks(words: &[&str]) -> bool
    ensures { result ≡ list_any (λ word. asks word.now) words.now }
{
    words.iter().any(|word| *word == EXPLAIN)
}

// Reports whether one of the words wants none.
fn declines(words: &[&str]) -> bool
    ensures { result ≡ list_any (λ word. declines word.now) words.now }
{
    words.iter().any(|word| *word == TERSE)
}

// Reports whether this command gives hints unasked.
fn is_telling(command: &str) -> bool
    ensures { result ≡ is_telling command.now }
{
    command == "check"
        || command == "rights"
        || command == "why"
        || command == "learn"
        || command == "export"
}

// Reports whether these words have such a command, after the program's name.
fn has_telling(words: &[&str]) -> bool
    ensures { result ≡ option_map_or is_telling (slice_get (map (λ word. word.now) words.now) 1) false }
{
    match words.get(1) {
        Some(command) => is_telling(command),
        None => false,
    }
}

/// Reports whether hints are wanted, by all words, by the rest of them without wishes, and by whether the surroundings
/// ask: somebody watches standard error, or an environment variable is set.
#[tactic(auto, using(crate::proofs::Wishes::asks_told, crate::proofs::Wishes::declines_told))]
pub fn are_wanted(words: &[&str], rest: &[&str], is_asked: bool) -> bool
    ensures { result
        ≡ are_wanted is_asked (map (λ word. word.now) words.now) (map (λ word. word.now) rest.now) }
{
    !declines(words) && (is_asked || asks(words) || has_telling(rest))
}

/// Returns the words without those that ask for hints or want none. Errors: memory ran out.
pub fn without_wishes<'a>(alloc: Global, words: &[&'a str]) -> Result<Vec<&'a str>, AllocError>
    ensures { IfOk result (λ kept. kept.items ≡ filter (λ word. not (is_wish word.now)) words.now) }
{
    words
        .iter()
        .copied()
        .filter(|word| !is_wish(word))
        .collect::<Vec<&str>>(alloc)
}
