//! The path arguments of calls.

ghost use Rattle.std.specs.Prelude.{◌≡◌, IfOk, Some, slice_get};
ghost use Rattle.ll_path.specs.Path.{path_refusals};
ghost use Rattle.ll_path.specs.Word.{IsWord};

use crate::path::Path;
use crate::word::Word;
use ll_rights::Errno;
use std::alloc::{AllocError, Global};

/// A word that is no valid path, and why.
#[derive(Drop)]
pub struct BadPath {
    pub word: Word,
    pub errno: Errno,
    ghost refused: { slice_get (path_refusals word) 0 ≡ Some errno },
}

/// A path argument: the path, or the word if it spells none. Each call parses its paths at the start, and a bad path is
/// refused only when its turn comes in the order of refusals.
#[derive(Drop)]
pub enum Target {
    Good(Path),
    Bad(BadPath),
}

impl Target {
    ghost use Rattle.ll_path.specs.Target.{IsTarget, target_text};

    /// Parses a path argument. Takes no memory.
    pub fn read(word: Word) -> Target
        ensures { IsTarget word result }
    {
        match Path::parse(word) {
            Ok(path) => Target::Good(path),
            Err((word, errno)) => Target::Bad(BadPath { word, errno }),
        }
    }

    /// Returns a copy. Errors: memory ran out.
    pub fn copy(&self, alloc: Global) -> Result<Target, AllocError>
        ensures { IfOk result (λ copy. copy ≡ self.now) }
    {
        let word = Word::from_text(alloc, self.as_str())?;
        Ok(Target::read(word))
    }

    /// Returns the argument's text.
    pub fn as_str(&self) -> &str
        ensures text { result.now ≡ target_text self.now }
        ensures word { IsWord result.now }
        ensures target { IsTarget result.now self.now }
    {
        match self {
            Target::Good(path) => path.as_str(),
            Target::Bad(bad) => bad.word.as_str(),
        }
    }
}
