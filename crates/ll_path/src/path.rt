//! Paths.

ghost use Rattle.std.specs.Prelude.{◌≡◌, ◌==◌, ◌<◌, ◌≤◌, ◌+◌, ◌^◌, ℕ, List, [], ◌∷◌, ◌++◌, All, length, sum_by};
ghost use Rattle.std.specs.Prelude.{Option, Some, option_map, slice_get, IfSome, IfNone, IfOk, IfErr};
ghost use Rattle.std.specs.List.{count_by, join_with_byte, list_any};
ghost use Rattle.ll_path.specs.Word.{IsVisible, IsWord};
ghost use Rattle.ll_path.specs.Name.{IsName, same_name};
ghost use Rattle.ll_path.specs.Path.{path_of_text, is_no_name, is_long_name, path_refusals, path_text, is_root, parent};
ghost use Rattle.ll_path.specs.Path.{last_name, is_beneath, common};
ghost use Rattle.ll_path.specs.Place.{IsPlace};

use crate::names::{Names, cut_first};
use crate::place::Place;
use crate::word::Word;
use ll_rights::Errno;
use std::marker::Model;

/// An absolute path of at most 64 names and 4,095 bytes. Contracts see the list of its names.
#[derive(Drop)]
pub struct Path {
    word: Word,
}

impl Model for Path {
    ghost use Rattle.std.specs.Prelude.{◌≡◌, ℕ, List, []};
    ghost use Rattle.ll_path.specs.Path.{path_of_text, path_refusals};

    ghost Value = { List (List ℕ) };

    ghost view = { λ path. path_of_text path.word };

    ghost invariant = { λ path. path_refusals path.word ≡ [] };
}

fn is_same(this: &str, other: &str) -> bool
    ensures { result ≡ same_name this.now other.now }
{
    this == other
}

fn is_no_name(name: &str) -> bool
    ensures { result ≡ is_no_name name.now }
{
    if name.is_empty() {
        return true;
    }
    // Few names begin with a dot, so most are compared with neither `.` nor `..`.
    if name.as_bytes()[0] != b'.' {
        return false;
    }
    is_same(name, ".") || is_same(name, "..")
}

fn has_no_name(mut names: Names<'_>) -> bool
    ensures { result ≡ list_any is_no_name names.entry }
{
    names.any(is_no_name)
}

fn is_any_long(mut names: Names<'_>) -> bool
    ensures { result ≡ list_any is_long_name names.entry }
{
    names.any(|name| name.len() > 255)
}

// Reports whether a name between the slashes is too long. No name is longer than the whole text.
fn has_long_name(rest: &str) -> bool
    ensures { result ≡ list_any is_long_name (path_of_text (47 ∷ rest.now)) }
{
    rest.len() > 255 && is_any_long(Names::after_slash(rest))
}

/// Returns the number of slashes.
fn slash_count(bytes: &[u8]) -> usize
    ensures count { result ≡ count_by (λ b. b == 47) bytes.now }
    ensures most { result ≤ length bytes.now }
{
    let mut count = 0;
    for byte in bytes {
        if *byte == b'/' {
            count += 1;
        }
    }
    count
}

// Returns the number of names in a path, given the text after its first slash.
fn name_count(rest: &str) -> usize
    ensures { result ≡ length (path_of_text (47 ∷ rest.now)) }
{
    if rest.is_empty() {
        0
    } else {
        slash_count(rest.as_bytes()) + 1
    }
}

// Returns the first reason why the text is no path, or None if it is one.
fn refusal(text: &str) -> Option<Errno>
    ensures { result ≡ slice_get (path_refusals text.now) 0 }
{
    if text.len() > 4095 {
        return Some(Errno::ENAMETOOLONG);
    }
    let Some(rest) = text.strip_prefix('/') else {
        return Some(Errno::EINVAL);
    };
    if has_no_name(Names::after_slash(rest)) {
        return Some(Errno::EINVAL);
    }
    if has_long_name(rest) || name_count(rest) > 64 {
        return Some(Errno::ENAMETOOLONG);
    }
    None
}

// Returns the number of bytes in the names that both lists begin with, counting a slash after each.
fn shared_len(names: Names<'_>, mut others: Names<'_>) -> usize
    requires { sum_by (λ name. length name + 1) names < 2 ^ 64 }
    ensures { result ≡ sum_by (λ name. length name + 1) (common names.entry others.entry) }
{
    let mut len = 0;
    for name in names {
        match others.next() {
            Some(other) if is_same(name, other) => len += name.len() + 1,
            _ => return len,
        }
    }
    len
}

impl Path {
    /// Parses a word as a path. Errors: the word and the reason, if it spells no path. Takes no memory.
    pub fn parse(word: Word) -> Result<Path, (Word, Errno)>
        ensures ok { IfOk result (λ path. (path_refusals word ≡ []) × (path ≡ path_of_text word)) }
        ensures err { IfErr result (λ e. (e.0 ≡ word) × (slice_get (path_refusals word) 0 ≡ Some e.1)) }
    {
        match refusal(word.as_str()) {
            None => Ok(Path { word }),
            Some(errno) => Err((word, errno)),
        }
    }

    // The names, separated by slashes.
    fn joined(&self) -> &str
        ensures text { result.now ≡ join_with_byte 47 self.now }
        ensures names { self.now ≡ path_of_text (47 ∷ result.now) }
        ensures visible { All (λ b. IsVisible b) result.now }
        ensures each { All IsName self.now }
        ensures few { length self.now ≤ 64 }
    {
        &self.word.as_str()[1..]
    }

    /// Returns all names, starting at the root.
    pub fn names(&self) -> Names<'_>
        ensures { result ≡ self.now }
    {
        Names::after_slash(self.joined())
    }

    /// Returns the name that begins at the place, or None at the end. Doesn't read the names before it.
    pub fn name_at(&self, place: Place) -> Option<&str>
        requires { IsPlace self.now place }
        ensures { option_map (λ name. name.now) result ≡ slice_get self.now place.depth }
    {
        let joined = self.joined();
        if place.byte >= joined.len() {
            return None;
        }
        let (name, _) = cut_first(&joined[place.byte..]);
        Some(name)
    }

    /// Returns the place of the next name, given the length in bytes of the name at this place.
    pub fn place_after(&self, place: Place, len: usize) -> Place
        requires place { IsPlace self.now place }
        requires name { option_map length (slice_get self.now place.depth) ≡ Some len }
        ensures place { IsPlace self.now result }
        ensures depth { result.depth ≡ place.depth + 1 }
    {
        let joined = self.joined();
        prove!(place.byte + len <= joined.len());
        Place {
            depth: place.depth + 1,
            byte: place.byte + len + 1,
        }
    }

    /// Returns the number of names.
    pub fn len(&self) -> usize
        ensures len { result ≡ length self.now }
        ensures short { result ≤ 64 }
    {
        name_count(self.joined())
    }

    pub fn is_root(&self) -> bool
        ensures { result ≡ is_root self.now }
    {
        self.joined().is_empty()
    }

    /// Returns the parent's names and the last name, or None for the root.
    #[inline(always)]
    pub fn split_last(&self) -> Option<(Names<'_>, &str)>
        ensures none { IfNone result (self.now ≡ []) }
        ensures parent { IfSome result (λ both. both.0 ≡ parent self.now) }
        ensures last { IfSome result (λ both. both.1.now ≡ last_name self.now) }
        ensures whole { IfSome result (λ both. self.now ≡ both.0 ++ both.1.now ∷ []) }
        ensures name { IfSome result (λ both. IsName both.1.now) }
    {
        let joined = self.joined();
        if joined.is_empty() {
            return None;
        }
        match joined.rsplit_once('/') {
            Some((front, last)) => Some((Names::between_slashes(front), last)),
            None => Some((Names::none(), joined)),
        }
    }

    /// Returns the parent's names. The root is its own parent.
    pub fn parent(&self) -> Names<'_>
        ensures { result ≡ parent self.now }
    {
        match self.split_last() {
            Some((parent, _)) => parent,
            None => Names::none(),
        }
    }

    /// Reports whether this path lies strictly below the other, comparing names only.
    pub fn is_beneath(&self, upper: &Path) -> bool
        ensures { result ≡ is_beneath upper.now self.now }
    {
        let mut names = self.names();
        for above in upper.names() {
            match names.next() {
                Some(name) if is_same(above, name) => {}
                _ => return false,
            }
        }
        names.next().is_some()
    }

    /// Returns the longest prefix of names that both paths share.
    pub fn common(&self, other: &Path) -> Names<'_>
        ensures { result ≡ common self.now other.now }
    {
        let joined = self.joined();
        let len = shared_len(self.names(), other.names());
        if len == 0 {
            return Names::none();
        }
        Names::between_slashes(&joined[..len - 1])
    }

    /// Returns the path's text. It is a valid word, and parses to the same path.
    pub fn as_str(&self) -> &str
        ensures text { result.now ≡ path_text self.now }
        ensures word { IsWord result.now }
        ensures path { (path_refusals result.now ≡ []) × (self.now ≡ path_of_text result.now) }
    {
        self.word.as_str()
    }
}
