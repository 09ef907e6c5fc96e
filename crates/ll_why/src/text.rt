//! Texts with several parts.

ghost use Rattle.std.specs.Prelude.{◌≡◌, map, IfOk, string_bytes};
ghost use Rattle.std.specs.List.{concat, join_by};
ghost use Rattle.ll_why.specs.Told.{rights_line};

use ll_rights::Access;
use std::alloc::{AllocError, Global};

/// Concatenates the parts. Errors: memory ran out.
pub fn concat(alloc: Global, parts: &[&str]) -> Result<String, AllocError>
    ensures { IfOk result (λ text. string_bytes text ≡ concat (map (λ p. p.now) parts.now)) }
{
    let mut text = String::new(alloc);
    for part in parts {
        text.push_str(part)?;
    }
    Ok(text)
}

/// Joins the parts with the separator. Errors: memory ran out.
pub fn joined(alloc: Global, separator: &str, parts: &[String]) -> Result<String, AllocError>
    ensures { IfOk result (λ text. string_bytes text ≡ join_by string_bytes separator.now parts.now) }
{
    let Some((first, others)) = parts.split_first() else {
        return Ok(String::new(alloc));
    };
    let mut text = String::from_str(alloc, first.as_str())?;
    for part in others {
        text.push_str(separator)?;
        text.push_str(part.as_str())?;
    }
    Ok(text)
}

/// Returns a line with these words and then the rights, or the empty text if there are none.
pub(crate) fn rights_line(alloc: Global, words: &str, rights: Access) -> Result<String, AllocError>
    ensures { IfOk result (λ text. string_bytes text ≡ rights_line words.now rights.0) }
{
    if rights.0 == 0 {
        return Ok(String::new(alloc));
    }
    let names = rights.text(alloc)?;
    concat(alloc, &["  ", words, ": ", names.as_str(), "\n"])
}
