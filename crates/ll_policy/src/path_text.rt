//! Paths in a policy.

ghost use Rattle.std.specs.Prelude.{◌≡◌, not, IfOk};
ghost use Rattle.ll_path.specs.Word.{IsWord};
ghost use Rattle.ll_policy.specs.Answers.{Reads};
ghost use Rattle.ll_policy.specs.Calls.{path_to};
ghost use Rattle.ll_policy.specs.Faults.{fault_if};
ghost use Rattle.ll_policy.specs.Value.{is_path};
ghost use Rattle.ll_policy.specs.declared.fault.PolicyFault.TheVariants.{BadPath};

use crate::fault::PolicyFault;
use ll_path::{Path, Target, Word};
use std::alloc::{AllocError, Global};
use std::marker::Model;

/// A valid path that several calls may need. Contracts see its text.
#[derive(Drop)]
pub struct PathText {
    path: Path,
}

impl Model for PathText {
    ghost use Rattle.std.specs.Prelude.{◌≡◌, ℕ, List, []};
    ghost use Rattle.ll_path.specs.Word.{IsWord};
    ghost use Rattle.ll_path.specs.Path.{path_text, path_refusals};

    ghost Value = { List ℕ };

    ghost view = { λ kept. path_text kept.path };

    ghost invariant = { λ kept. IsWord (path_text kept.path) × (path_refusals (path_text kept.path) ≡ []) };
}

impl PathText {
    /// Reads a path.
    pub(crate) fn read(alloc: Global, text: &str) -> Result<PathText, PolicyFault>
        ensures { Reads (fault_if (not (is_path text.now)) BadPath) (λ path. path ≡ text.now) result }
    {
        if !Word::fits(text) {
            return Err(PolicyFault::BadPath);
        }
        match Path::parse(Word::from_text(alloc, text)?) {
            Ok(path) => Ok(PathText { path }),
            Err(_) => Err(PolicyFault::BadPath),
        }
    }

    /// Returns the path's text, which is a word.
    pub fn as_str(&self) -> &str
        ensures text { result.now ≡ self.now }
        ensures word { IsWord result.now }
    {
        self.path.as_str()
    }

    /// Returns the path as the argument of one call. Errors: memory ran out.
    pub(crate) fn target(&self, alloc: Global) -> Result<Target, AllocError>
        ensures { IfOk result (λ target. target ≡ path_to self.now) }
    {
        Ok(Target::read(Word::from_text(alloc, self.path.as_str())?))
    }
}
