//! The paths that words of the command line spell.

ghost use Rattle.std.specs.Prelude.{◌≡◌, ◌∷◌, ◌++◌, [], IfErr, IfOk, OnOk, map};
ghost use Rattle.ll_path.specs.Path.{path_of_text};
ghost use Rattle.ll_program.specs.Paths.{HasBadWord, IsBadWord, IsOfWords};
ghost use Rattle.ll_program.specs.declared.failure.Failure.{Failure};

use crate::failure::Failure;
use ll_path::{Path, Word};
use std::alloc::Global;

// Returns the path that a word spells.
fn path_of_word(alloc: Global, word: &str) -> Result<Path, Failure>
    ensures path { IfOk result (λ path. path ≡ path_of_text word.now) }
    ensures bad { IfErr result (λ failure. failure ≡ Failure.CommandLine → IsBadWord word.now) }
    ensures failure { IfErr result IsOfWords }
{
    let Ok(text) = String::from_str(alloc, word) else {
        return Err(Failure::NoMemory);
    };
    let word = match Word::new(text) {
        Ok(word) => word,
        Err(text) => {
            drop(text);
            return Err(Failure::CommandLine);
        }
    };
    match Path::parse(word) {
        Ok(path) => Ok(path),
        Err((word, _)) => {
            drop(word);
            Err(Failure::CommandLine)
        }
    }
}

// Appends the path.
fn push_path(paths: &mut Vec<Path>, path: Path) -> Result<(), Failure>
    ensures ok { OnOk result (paths.new.items ≡ paths.old.items ++ path ∷ []) }
    ensures failure { IfErr result (λ failure. failure ≡ Failure.NoMemory) }
{
    match paths.push(path) {
        Ok(()) => Ok(()),
        Err(refused) => {
            drop(refused);
            Err(Failure::NoMemory)
        }
    }
}

/// Returns the paths that the words spell, in order. Errors: a word spells no path (a wrong command line); memory ran
/// out.
pub fn paths_of(alloc: Global, words: &[&str]) -> Result<Vec<Path>, Failure>
    ensures paths { IfOk result (λ paths. paths.items ≡ map path_of_text (map (λ w. w.now) words.now)) }
    ensures bad { IfErr result (λ failure. failure ≡ Failure.CommandLine → HasBadWord (map (λ w. w.now) words.now)) }
    ensures failure { IfErr result IsOfWords }
{
    let mut paths = Vec::new(alloc);
    for word in words {
        let path = path_of_word(alloc, word)?;
        match push_path(&mut paths, path) {
            Ok(()) => {}
            Err(failure) => return Err(failure),
        }
    }
    Ok(paths)
}
