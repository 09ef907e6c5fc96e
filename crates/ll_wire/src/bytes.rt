//! Bytes as tokens.

ghost use Rattle.std.specs.Prelude.{ℕ, List, All, IsTrue, IfOk, MatchBool, ◌≡◌, ◌↔◌, string_bytes};
ghost use Rattle.ll_wire.specs.Grammar.{data_text};
ghost use Rattle.ll_wire.specs.Parts.{Reads, SpellsData, IsDigit};

use ll_path::Data;
use ll_rights::Errno;
use ll_rights::limits::DATA_BYTES;
use std::alloc::{AllocError, Global};

fn are_digits(token: &str) -> bool
    ensures { IsTrue result ↔ All (λ b. IsDigit b) token.now }
{
    token
        .as_bytes()
        .iter()
        .all(|b| matches!(*b, b'0'..=b'9' | b'a'..=b'f'))
}

fn spells_data(token: &str) -> bool
    ensures { MatchBool result ((bytes : List ℕ) × SpellsData token.now bytes) ((bytes : List ℕ)
        → SpellsData token.now bytes → ⊥) }
{
    if token == "-" {
        return true;
    }
    if token.len() < 2 || token.len() > 2 * DATA_BYTES || token.len() % 2 != 0 {
        return false;
    }
    are_digits(token)
}

// Takes memory only if the token spells bytes.
pub(crate) fn data_of(alloc: Global, token: &str) -> Result<Data, Errno>
    ensures { Reads (SpellsData token.now) result }
{
    if !spells_data(token) {
        return Err(Errno::BadLine);
    }
    if token == "-" {
        return Ok(Data::empty(alloc));
    }
    let Ok(bytes) = hex::decode(alloc, token) else {
        return Err(Errno::NoMemory);
    };
    match Data::new(bytes) {
        Ok(bytes) => Ok(bytes),
        Err(_) => unreachable!(),
    }
}

pub(crate) fn data_text(alloc: Global, bytes: &Data) -> Result<String, AllocError>
    ensures { IfOk result (λ text. string_bytes text ≡ data_text bytes.now) }
{
    if bytes.is_empty() {
        return String::from_str(alloc, "-");
    }
    hex::encode(alloc, bytes.as_slice())
}
