//! Look-ups of a table's keys.

ghost use Rattle.std.specs.Prelude.{bytes_eq, ◌≡◌, ⊤, ℕ, Bool, List, [], ◌∷◌, Some, option_map, option_and_then, map};
ghost use Rattle.std.specs.Prelude.{IfOk, IfErr};
ghost use Rattle.std.specs.List.{list_any};
ghost use Rattle.toml.specs.Data.{get_member, as_str, as_array, as_table};
ghost use Rattle.toml.specs.View.{view, table_view, items_view};
ghost use Rattle.ll_policy.specs.Answers.{Checks};
ghost use Rattle.ll_policy.specs.Faults.{required, optional, other_keys};
ghost use Rattle.ll_policy.specs.KeptCalls.{named_in};
ghost use Rattle.ll_policy.specs.Table.{has_other_key, are_tables, hold_tables, tables_of, named_tables, tables_at};
ghost use Rattle.ll_policy.specs.Table.{named_tables_at, text_at};
ghost use Rattle.ll_policy.specs.declared.fault.PolicyFault.{PolicyFault};
ghost use Rattle.ll_policy.specs.declared.fault.PolicyFault.TheVariants.{WrongType};

use crate::fault::PolicyFault;
use toml::{Table, Value};

fn is_known(key: &str, known: &[&str]) -> bool
    ensures { result ≡ list_any (λ name. bytes_eq key.now name.now) known.now }
{
    known.iter().any(|name| key == *name)
}

// Whether the table has a key that isn't one of these.
fn has_other_key(table: &Table, known: &[&str]) -> bool
    ensures { result ≡ has_other_key (map (λ key. key.now) known.now) (table_view table.now) }
{
    for (key, _) in table.iter() {
        if !is_known(key.as_str(), known) {
            return true;
        }
    }
    false
}

/// Checks that the table has no other keys than these.
pub(crate) fn only(table: &Table, known: &[&str]) -> Result<(), PolicyFault>
    ensures { Checks (other_keys (map (λ key. key.now) known.now) (table_view table.now)) (λ _. ⊤) result }
{
    if has_other_key(table, known) {
        return Err(PolicyFault::UnknownKey);
    }
    Ok(())
}

/// The value of the key, if the table has it.
pub(crate) fn member<'a>(table: &'a Table, key: &str) -> Option<&'a Value>
    ensures { option_map (λ value. view value.now) result ≡ get_member key.now (table_view table.now) }
{
    table.get(key)
}

/// The text of a required key. The caller must still check the text.
pub(crate) fn required_text<'a>(table: &'a Table, key: &str) -> Result<&'a str, PolicyFault>
    ensures found { IfOk result (λ text.
        option_and_then as_str (get_member key.now (table_view table.now)) ≡ Some text.now) }
    ensures fault { IfErr result (λ fault. (passes : List ℕ → Bool) (bad : PolicyFault)
        → required as_str passes bad (get_member key.now (table_view table.now)) ≡ fault ∷ []) }
{
    match member(table, key) {
        None => Err(PolicyFault::MissingKey),
        Some(value) => match value.as_str() {
            None => Err(PolicyFault::WrongType),
            Some(text) => Ok(text),
        },
    }
}

fn are_tables(values: &[Value]) -> bool
    ensures { result ≡ are_tables (items_view values.now) }
{
    for value in values {
        if !value.is_table() {
            return false;
        }
    }
    true
}

fn hold_tables(table: &Table) -> bool
    ensures { result ≡ hold_tables (table_view table.now) }
{
    for (_, value) in table.iter() {
        if !value.is_table() {
            return false;
        }
    }
    true
}

/// The array of tables of the key; empty if the table lacks it.
pub(crate) fn tables<'a>(table: &'a Table, key: &str) -> Result<&'a [Value], PolicyFault>
    ensures { Checks (optional as_array are_tables WrongType (get_member key.now (table_view table.now)))
        (λ values. tables_of (items_view values.now) ≡ tables_at key.now (table_view table.now)) result }
{
    let Some(value) = member(table, key) else {
        return Ok(&[]);
    };
    match value.as_array() {
        Some(values) if are_tables(values) => Ok(values),
        _ => Err(PolicyFault::WrongType),
    }
}

/// The table of tables of the key, if the table has it.
pub(crate) fn named_tables<'a>(
    table: &'a Table,
    key: &str,
) -> Result<Option<&'a Table>, PolicyFault>
    ensures { Checks (optional as_table hold_tables WrongType (get_member key.now (table_view table.now)))
        (λ found. named_in found ≡ named_tables_at key.now (table_view table.now)) result }
{
    let Some(value) = member(table, key) else {
        return Ok(None);
    };
    match value.as_table() {
        Some(found) if hold_tables(found) => Ok(Some(found)),
        _ => Err(PolicyFault::WrongType),
    }
}

/// The array at the key; empty if there is none.
pub(crate) fn array_at<'a>(table: &'a Table, key: &str) -> &'a [Value]
    ensures { tables_of (items_view result.now) ≡ tables_at key.now (table_view table.now) }
{
    let Some(value) = member(table, key) else {
        return &[];
    };
    match value.as_array() {
        Some(values) => values,
        None => &[],
    }
}

/// The table at the key, if there is one.
pub(crate) fn named_at<'a>(table: &'a Table, key: &str) -> Option<&'a Table>
    ensures { named_in result ≡ named_tables_at key.now (table_view table.now) }
{
    match member(table, key) {
        Some(value) => value.as_table(),
        None => None,
    }
}

/// The text at the key; empty if there is none.
pub(crate) fn text_at<'a>(table: &'a Table, key: &str) -> &'a str
    ensures { result.now ≡ text_at key.now (table_view table.now) }
{
    match member(table, key) {
        Some(value) => value.as_str().unwrap_or(""),
        None => "",
    }
}
