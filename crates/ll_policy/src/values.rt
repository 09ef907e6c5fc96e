//! The values of a policy's keys.

ghost use Rattle.std.specs.Prelude.{◌≡◌, ⊤, Some, pos, codes, option_and_then, IfOk, IfErr, ◌∷◌, [], Bool, ℤ};
ghost use Rattle.std.specs.List.{list_all};
ghost use Rattle.toml.specs.Data.{get_member, as_str, as_integer};
ghost use Rattle.toml.specs.View.{table_view};
ghost use Rattle.ll_rights.specs.Access.{access_text};
ghost use Rattle.ll_rights.specs.Kind.{kind_text};
ghost use Rattle.ll_policy.specs.Answers.{Checks, Reads};
ghost use Rattle.ll_policy.specs.Calls.{bytes_at};
ghost use Rattle.ll_policy.specs.Faults.{required, optional, is_two};
ghost use Rattle.ll_policy.specs.Table.{text_at, integer_at};
ghost use Rattle.ll_policy.specs.Value.{is_version, is_level, is_path, is_kind, is_rights, is_digit, are_bytes};
ghost use Rattle.ll_policy.specs.Value.{is_data, is_name_byte, is_name};
ghost use Rattle.ll_policy.specs.declared.fault.PolicyFault.{PolicyFault};
ghost use Rattle.ll_policy.specs.declared.fault.PolicyFault.TheVariants.{BadVersion, BadAbi, BadPath, BadKind};
ghost use Rattle.ll_policy.specs.declared.fault.PolicyFault.TheVariants.{BadRights, BadData};

use crate::fault::PolicyFault;
use crate::path_text::PathText;
use crate::table::{member, required_text, text_at};
use hex::FromHexError;
use ll_rights::{Access, Kind};
use std::alloc::Global;
use toml::Table;

// The integer of a required key.
fn integer(table: &Table, key: &str) -> Result<i64, PolicyFault>
    ensures found { IfOk result (λ number.
        option_and_then as_integer (get_member key.now (table_view table.now)) ≡ Some number) }
    ensures fault { IfErr result (λ fault. (passes : ℤ → Bool) (bad : PolicyFault)
        → required as_integer passes bad (get_member key.now (table_view table.now)) ≡ fault ∷ []) }
{
    match member(table, key) {
        None => Err(PolicyFault::MissingKey),
        Some(value) => match value.as_integer() {
            None => Err(PolicyFault::WrongType),
            Some(number) => Ok(number),
        },
    }
}

/// Whether the document has version 2.
pub(crate) fn is_two(table: &Table) -> bool
    ensures { result ≡ is_two (integer_at (codes "version") (table_view table.now)) }
{
    match integer(table, "version") {
        Ok(number) => number == 2,
        Err(_) => false,
    }
}

/// Checks that the document has a known version.
pub(crate) fn version(table: &Table) -> Result<(), PolicyFault>
    ensures { Checks (required as_integer is_version BadVersion (get_member (codes "version") (table_view table.now)))
        (λ _. ⊤) result }
{
    match integer(table, "version")? {
        1 | 2 => Ok(()),
        _ => Err(PolicyFault::BadVersion),
    }
}

/// Reads the ABI level.
pub(crate) fn level(table: &Table) -> Result<u64, PolicyFault>
    ensures { Checks (required as_integer is_level BadAbi (get_member (codes "abi") (table_view table.now)))
        (λ level. integer_at (codes "abi") (table_view table.now) ≡ Some (pos level)) result }
{
    match integer(table, "abi")? {
        1 => Ok(1),
        2 => Ok(2),
        3 => Ok(3),
        _ => Err(PolicyFault::BadAbi),
    }
}

/// Reads the path of a node or a rule.
pub(crate) fn path(alloc: Global, table: &Table) -> Result<PathText, PolicyFault>
    ensures { Reads (required as_str is_path BadPath (get_member (codes "path") (table_view table.now)))
        (λ path. path ≡ text_at (codes "path") (table_view table.now)) result }
{
    let text = required_text(table, "path")?;
    PathText::read(alloc, text)
}

/// Reads the kind of a node.
pub(crate) fn kind(table: &Table) -> Result<Kind, PolicyFault>
    ensures { Checks (required as_str is_kind BadKind (get_member (codes "kind") (table_view table.now)))
        (λ kind. kind_text kind ≡ text_at (codes "kind") (table_view table.now)) result }
{
    let text = required_text(table, "kind")?;
    match Kind::parse(text) {
        Some(kind) => Ok(kind),
        None => Err(PolicyFault::BadKind),
    }
}

/// Reads the set of rights of the key.
pub(crate) fn rights(table: &Table, key: &str) -> Result<Access, PolicyFault>
    ensures { Checks (required as_str is_rights BadRights (get_member key.now (table_view table.now)))
        (λ rights. access_text rights.0 ≡ text_at key.now (table_view table.now)) result }
{
    let text = required_text(table, key)?;
    match Access::parse(text) {
        Some(rights) => Ok(rights),
        None => Err(PolicyFault::BadRights),
    }
}

fn are_name_bytes(name: &str) -> bool
    ensures { result ≡ list_all is_name_byte name.now }
{
    name.bytes()
        .all(|b| matches!(b, b'a'..=b'z' | b'0'..=b'9' | b'-'))
}

/// Reports whether a profile may have this name: 1 to 32 of `a` to `z`, `0` to `9` and `-`.
pub fn is_name(name: &str) -> bool
    ensures { result ≡ is_name name.now }
{
    !name.is_empty() && name.len() <= 32 && are_name_bytes(name)
}

fn are_digits(text: &str) -> bool
    ensures { result ≡ list_all is_digit text.now }
{
    text.bytes().all(|b| matches!(b, b'0'..=b'9' | b'a'..=b'f'))
}

fn are_bytes(text: &str) -> bool
    ensures { result ≡ are_bytes text.now }
{
    text.len() <= 131_072 && text.len() % 2 == 0 && are_digits(text)
}

/// Reads the bytes of a node of this kind: none without the key.
pub(crate) fn data(alloc: Global, table: &Table, kind: Kind) -> Result<Vec<u8>, PolicyFault>
    ensures { Reads (optional as_str (is_data (kind_text kind)) BadData
        (get_member (codes "data") (table_view table.now)))
        (λ bytes. bytes.items ≡ bytes_at (codes "data") (table_view table.now)) result }
{
    let Some(value) = member(table, "data") else {
        return Ok(Vec::new(alloc));
    };
    let Some(digits) = value.as_str() else {
        return Err(PolicyFault::WrongType);
    };
    if kind != Kind::Reg || !are_bytes(digits) {
        return Err(PolicyFault::BadData);
    }
    match hex::decode(alloc, digits) {
        Ok(bytes) => Ok(bytes),
        Err(error) => match error {
            FromHexError::OutOfMemory => Err(PolicyFault::NoMemory),
            _ => unreachable!(),
        },
    }
}

/// Checks a node's bytes, without reading them.
pub(crate) fn check_data(table: &Table) -> Result<(), PolicyFault>
    ensures { Checks (optional as_str (is_data (text_at (codes "kind") (table_view table.now))) BadData
        (get_member (codes "data") (table_view table.now))) (λ _. ⊤) result }
{
    let Some(value) = member(table, "data") else {
        return Ok(());
    };
    let Some(digits) = value.as_str() else {
        return Err(PolicyFault::WrongType);
    };
    if text_at(table, "kind") == "reg" && are_bytes(digits) {
        return Ok(());
    }
    Err(PolicyFault::BadData)
}
