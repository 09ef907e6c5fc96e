//! A text's lines.

ghost use Rattle.std.specs.Prelude.{◌≡◌, ◌∷◌, ◌++◌, [], List, ℕ, IfOk, IfSome, IfNone};

use std::alloc::{AllocError, Global};

/// Returns the bytes with a line feed appended. Errors: memory ran out.
pub fn ended(alloc: Global, text: &[u8]) -> Result<Vec<u8>, AllocError>
    ensures { IfOk result (λ line. line.items ≡ text.now ++ 10 ∷ []) }
{
    let mut line = Vec::from_slice(alloc, text)?;
    line.push(b'\n')?;
    Ok(line)
}

/// Returns what follows this front in a text, if the text has it.
pub fn strip_front<'a>(text: &'a [u8], front: &[u8]) -> Option<&'a [u8]>
    ensures found { IfSome result (λ rest. text.entry.now ≡ front.now ++ rest.now) }
    ensures none { IfNone result ((rest : List ℕ) → text.entry.now ≡ front.now ++ rest → ⊥) }
{
    text.strip_prefix(front)
}

/// Returns what precedes this back in a text, if the text has it.
pub fn strip_back<'a>(text: &'a [u8], back: &[u8]) -> Option<&'a [u8]>
    ensures found { IfSome result (λ front. text.entry.now ≡ front.now ++ back.now) }
    ensures none { IfNone result ((front : List ℕ) → text.entry.now ≡ front ++ back.now → ⊥) }
{
    text.strip_suffix(back)
}
