//! The names of a path, as an iterator.

ghost use Rattle.std.specs.Prelude.{◌≡◌, ◌≢◌, ◌==◌, ◌<◌, ◌≤◌, ℕ, List, [], ◌∷◌, Option, Some, None, length};
ghost use Rattle.std.specs.Prelude.{slice_index_or};
ghost use Rattle.std.specs.List.{slice_split};
ghost use Rattle.std.specs.Iterator.{YieldsFirstRef, item_count};
ghost use Rattle.ll_path.specs.Names.{names_left};
ghost use Rattle.ll_path.specs.Path.{path_of_text};

use std::marker::Model;

/// Returns the index of the first slash, or the length if there is none. Compares byte by byte, as names are short.
fn first_slash(bytes: &[u8]) -> usize
    ensures within { result ≤ length bytes.now }
    ensures none_before { (i : ℕ) → i < result → slice_index_or bytes.now i 0 ≢ 47 }
    ensures slash { result < length bytes.now → slice_index_or bytes.now result 0 ≡ 47 }
{
    let mut end = 0;
    while end < bytes.len() && bytes[end] != b'/' {
        end += 1;
    }
    end
}

/// Splits at the first slash. The second part is None if there is no slash.
pub(crate) fn cut_first(text: &str) -> (&str, Option<&str>)
    ensures { slice_split (λ b. b == 47) text.now ≡ result.0.now ∷ names_left result.1 }
{
    let end = first_slash(text.as_bytes());
    if end < text.len() {
        (&text[..end], Some(&text[end + 1..]))
    } else {
        (text, None)
    }
}

/// An iterator over the names in a text. Contracts see the names that are left.
#[derive(Drop)]
pub struct Names<'a> {
    // The names that are left, separated by slashes. `None` after the last one.
    rest: Option<&'a str>,
}

impl<'a> Model for Names<'a> {
    ghost use Rattle.std.specs.Prelude.{ℕ, List};
    ghost use Rattle.ll_path.specs.Names.{names_left};

    ghost Value = { List (List ℕ) };

    ghost view = { λ names. names_left names.rest };
}

impl<'a> Names<'a> {
    pub(crate) fn none() -> Names<'a>
        ensures { result ≡ [] }
    {
        Names { rest: None }
    }

    // The parts of a text between its slashes.
    pub(crate) fn between_slashes(text: &'a str) -> Names<'a>
        ensures { result ≡ slice_split (λ b. b == 47) text.now }
    {
        Names { rest: Some(text) }
    }

    // The names of a path, given the text after its first slash.
    pub(crate) fn after_slash(text: &'a str) -> Names<'a>
        ensures { result ≡ path_of_text (47 ∷ text.now) }
    {
        if text.is_empty() {
            Names::none()
        } else {
            Names::between_slashes(text)
        }
    }
}

impl<'a> Iterator for Names<'a> {
    type Item = &'a str;

    ghost next_gives = { YieldsFirstRef (λ names. names) };

    ghost remaining = { item_count (λ names. names) };

    fn next(&mut self) -> Option<&'a str> {
        let text = self.rest?;
        let (name, rest) = cut_first(text);
        self.rest = rest;
        Some(name)
    }
}
