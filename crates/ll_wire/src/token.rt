//! Lines and their tokens.

ghost use Rattle.std.specs.Prelude.{◌≡◌, ◌≢◌, ◌<◌, ◌≤◌, ◌==◌, ◌∷◌, [], ◌++◌, ℕ, List, map, length, take, slice_index};
ghost use Rattle.std.specs.Prelude.{MatchBool, IfSome, IfNone};
ghost use Rattle.std.specs.List.{slice_split};
ghost use Rattle.std.specs.Str.{IsAscii};
ghost use Rattle.ll_wire.specs.Parts.{SpellsNumber, SpellsClient, NamesClient};
ghost use Rattle.ll_wire.specs.Reads.{Finds};

use ll_rights::limits::TREE_CLIENTS;

// The text before the line feed.
pub(crate) fn body_of(line: &[u8]) -> Option<&str>
    ensures found { IfSome result (λ body. line.now ≡ body.now ++ 10 ∷ []) }
    ensures none { IfNone result ((body : List ℕ) → IsAscii body → line.now ≢ body ++ 10 ∷ []) }
{
    let (last, body) = line.split_last()?;
    if *last != b'\n' {
        return None;
    }
    match str::from_utf8(body) {
        Ok(body) => Some(body),
        Err(_) => None,
    }
}

// The number of tokens, if they fit. Between two spaces is an empty token.
pub(crate) fn tokens_of<'a>(body: &'a str, tokens: &mut [&'a str]) -> Option<usize>
    ensures found { IfSome result (λ n. (n ≤ length tokens.new)
        × (map (λ s. s.now) (take n tokens.new) ≡ slice_split (λ b. b == 32) body.entry.now)) }
    ensures none { IfNone result (length tokens.old < length (slice_split (λ b. b == 32) body.entry.now)) }
{
    let mut count = 0;
    for token in body.split(' ') {
        if count == tokens.len() {
            return None;
        }
        tokens[count] = token;
        count += 1;
    }
    Some(count)
}

// The first token, and the text after the space that follows it.
pub(crate) fn first_of(text: &str) -> Option<(&str, &str)>
    ensures found { IfSome result (λ x. slice_split (λ b. b == 32) text.now
        ≡ x.0.now ∷ slice_split (λ b. b == 32) x.1.now) }
    ensures none { IfNone result (slice_split (λ b. b == 32) text.now ≡ text.now ∷ []) }
{
    text.split_once(' ')
}

// The first `count` tokens, and the text after the space that follows them.
pub(crate) fn front_of<'a>(text: &'a str, count: usize, tokens: &mut [&'a str]) -> Option<&'a str>
    requires { count ≤ length tokens.old }
    ensures found { IfSome result (λ rest. slice_split (λ b. b == 32) text.entry.now
        ≡ map (λ s. s.now) (take count tokens.new) ++ slice_split (λ b. b == 32) rest.now) }
    ensures none { IfNone result (length (slice_split (λ b. b == 32) text.entry.now) ≤ count) }
{
    let mut rest = text;
    for i in 0..count {
        let (token, others) = first_of(rest)?;
        tokens[i] = token;
        rest = others;
    }
    Some(rest)
}

// Without a sign and leading zeros.
fn is_plain(token: &str) -> bool
    ensures { MatchBool result ((0 < length token.now) × (slice_index token.now 0 ≢ 43)
        × (slice_index token.now 0 ≡ 48 → length token.now ≡ 1))
        ((0 < length token.now) × (slice_index token.now 0 ≢ 43)
        × (slice_index token.now 0 ≡ 48 → length token.now ≡ 1) → ⊥) }
{
    match token.as_bytes() {
        [] => false,
        [b'0'] => true,
        [first, ..] => *first != b'+' && *first != b'0',
    }
}

/// Returns the number that the token spells: decimal, without a sign or zeros in front.
pub fn number_of(token: &str) -> Option<u64>
    ensures { Finds (SpellsNumber token.now) result }
{
    if !is_plain(token) {
        return None;
    }
    token.parse::<u64>().ok()
}

// Parses the name of any client.
pub(crate) fn named_client(token: &str) -> Option<u64>
    ensures { Finds (SpellsClient token.now) result }
{
    let number = number_of(token.strip_prefix('@')?)?;
    if number < 1 || number > TREE_CLIENTS as u64 {
        return None;
    }
    Some(number)
}

// Parses the name of a client in a command. The first client's is never written.
pub(crate) fn client_of(token: &str) -> Option<u64>
    ensures { Finds (NamesClient token.now) result }
{
    let client = named_client(token)?;
    if client == 1 {
        return None;
    }
    Some(client)
}
