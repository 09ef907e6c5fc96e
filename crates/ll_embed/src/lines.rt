//! The lines of texts, and the paths that they spell.

ghost use Rattle.std.specs.Prelude.{◌≡◌, IfErr, IfOk, map};
ghost use Rattle.std.specs.Str.{IsUtf8};
ghost use Rattle.std.specs.Str.Lines.{lines};
ghost use Rattle.ll_path.specs.Path.{path_of_text};
ghost use Rattle.ll_program.specs.Paths.{IsOfWords};
ghost use Rattle.ll_program.specs.declared.failure.Failure as failures;
ghost use Rattle.ll_embed.specs.Lines.{LacksPath};

use ll_path::Path;
use ll_program::{Failure, paths_of};
use std::alloc::{AllocError, Global};

// Returns the lines of the text.
fn lines_of(alloc: Global, text: &str) -> Result<Vec<&str>, AllocError>
    ensures { IfOk result (λ told. map (λ l. l.now) told.items ≡ lines text.now) }
{
    text.lines().collect(alloc)
}

/// Returns the lines of the text. Errors: it isn't UTF-8 (a wrong command line); memory ran out.
pub fn lines_in(alloc: Global, text: &[u8]) -> Result<Vec<&str>, Failure>
    ensures lines { IfOk result (λ told. map (λ l. l.now) told.items ≡ lines text.now) }
    ensures bad { IfErr result (λ failure. failure ≡ failures.Failure.CommandLine → IsUtf8 text.now → ⊥) }
    ensures failure { IfErr result IsOfWords }
{
    let Ok(text) = str::from_utf8(text) else {
        return Err(Failure::CommandLine);
    };
    match lines_of(alloc, text) {
        Ok(lines) => Ok(lines),
        Err(_) => Err(Failure::NoMemory),
    }
}

/// Returns the paths that the text's lines spell, in order. Errors: it isn't UTF-8, or a line spells no path (a wrong
/// command line); memory ran out.
pub fn paths_in(alloc: Global, text: &[u8]) -> Result<Vec<Path>, Failure>
    ensures paths { IfOk result (λ paths. paths.items ≡ map path_of_text (lines text.now)) }
    ensures bad { IfErr result (λ failure. failure ≡ failures.Failure.CommandLine → LacksPath text.now) }
    ensures failure { IfErr result IsOfWords }
{
    let lines = lines_in(alloc, text)?;
    match paths_of(alloc, lines.as_slice()) {
        Ok(paths) => Ok(paths),
        Err(failure) => Err(failure),
    }
}
