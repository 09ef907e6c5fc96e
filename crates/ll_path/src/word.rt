//! Words of command lines.

ghost use Rattle.std.specs.Prelude.{◌≡◌, ℕ, List, All, IfOk, IfErr, IsTrue, ◌↔◌, string_bytes};
ghost use Rattle.ll_path.specs.Word.{IsVisible, IsWord};

use std::alloc::{AllocError, Global};
use std::marker::Model;

/// A word of a command line: 1 to 8,000 bytes from 0x21 to 0x7E (printable ASCII without the space). Contracts see its
/// bytes.
#[derive(Drop)]
pub struct Word {
    text: String,
}

impl Model for Word {
    ghost Value = { List ℕ };

    ghost view = { λ word. string_bytes word.text };

    ghost invariant = { λ word. IsWord (string_bytes word.text) };
}

fn is_visible(text: &str) -> bool
    ensures { IsTrue result ↔ All (λ b. IsVisible b) text.now }
{
    text.as_bytes().iter().all(|b| *b >= 0x21 && *b <= 0x7e)
}

impl Word {
    /// Reports whether the text is a valid word.
    pub fn fits(text: &str) -> bool
        ensures { IsTrue result ↔ IsWord text.now }
    {
        !text.is_empty() && text.len() <= 8000 && is_visible(text)
    }

    /// Wraps a text as a word. Errors: the text, if it is no valid word. Takes no memory.
    pub fn new(text: String) -> Result<Word, String>
        ensures ok { IfOk result (λ word. IsWord (string_bytes text) × (word ≡ string_bytes text)) }
        ensures err { IfErr result (λ back. (IsWord (string_bytes text) → ⊥) × (back ≡ text)) }
    {
        if Word::fits(text.as_str()) {
            Ok(Word { text })
        } else {
            Err(text)
        }
    }

    /// Copies a text that is a valid word. Errors: memory ran out.
    pub fn from_text(alloc: Global, text: &str) -> Result<Word, AllocError>
        requires { IsWord text.now }
        ensures { IfOk result (λ word. word ≡ text.now) }
    {
        Ok(Word {
            text: String::from_str(alloc, text)?,
        })
    }

    pub fn as_str(&self) -> &str
        ensures text { result.now ≡ self.now }
        ensures word { IsWord self.now }
    {
        self.text.as_str()
    }
}
