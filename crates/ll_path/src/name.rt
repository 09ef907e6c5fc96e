//! Names in a directory.

ghost use Rattle.std.specs.Prelude.{◌≡◌, ◌≢◌, ℕ, List, All, IfOk, IsTrue, ◌↔◌, string_bytes};
ghost use Rattle.ll_path.specs.Word.{IsVisible};
ghost use Rattle.ll_path.specs.Name.{IsName};

use std::alloc::{AllocError, Global};
use std::marker::Model;

/// A name in a directory: 1 to 255 bytes from 0x21 to 0x7E without a slash, and neither `.` nor
/// `..`. Contracts see its bytes.
#[derive(Drop)]
pub struct Name {
    text: String,
}

impl Model for Name {
    ghost Value = { List ℕ };

    ghost view = { λ name. string_bytes name.text };

    ghost invariant = { λ name. IsName (string_bytes name.text) };
}

fn is_visible_without_slash(text: &str) -> bool
    ensures { IsTrue result ↔ All (λ b. IsVisible b × (b ≢ 47)) text.now }
{
    text.as_bytes()
        .iter()
        .all(|b| *b >= 0x21 && *b <= 0x7e && *b != b'/')
}

impl Name {
    /// Reports whether the text is a valid name.
    pub fn fits(text: &str) -> bool
        ensures { IsTrue result ↔ IsName text.now }
    {
        if text == "." || text == ".." {
            return false;
        }
        !text.is_empty() && text.len() <= 255 && is_visible_without_slash(text)
    }

    /// Returns a name with a copy of this text. Errors: memory ran out.
    pub fn from_text(alloc: Global, text: &str) -> Result<Name, AllocError>
        requires { IsName text.now }
        ensures { IfOk result (λ name. name ≡ text.now) }
    {
        let text = String::from_str(alloc, text)?;
        Ok(Name { text })
    }

    /// Returns a copy of the name. Errors: memory ran out.
    pub fn copy(&self) -> Result<Name, AllocError>
        ensures { IfOk result (λ name. name ≡ self.now) }
    {
        let text = self.text.clone()?;
        Ok(Name { text })
    }

    pub fn as_str(&self) -> &str
        ensures text { result.now ≡ self.now }
        ensures name { IsName self.now }
    {
        self.text.as_str()
    }
}
