//! Strings and the names of rights as JSON.

ghost use Rattle.std.specs.Prelude.{◌≡◌, codes, map, IfOk, string_bytes};
ghost use Rattle.ll_rights.specs.Access.{set_names};
ghost use Rattle.ll_why.specs.Quoted.{json_names, json_string, listed, quoted};

use crate::text::{concat, joined};
use ll_rights::{Access, Right};
use serde_json::Value;
use std::alloc::{AllocError, Global};

/// Returns the text as a JSON string. Errors: memory ran out.
pub fn json_string(alloc: Global, told: &str) -> Result<String, AllocError>
    ensures { IfOk result (λ text. string_bytes text ≡ json_string told.now) }
{
    let value = Value::String(String::from_str(alloc, told)?);
    value.to_string(alloc)
}

// The quoted names of the rights in the set.
fn names_of(alloc: Global, set: Access) -> Result<Vec<String>, AllocError>
    ensures { IfOk result (λ names. map string_bytes names.items ≡ map quoted (set_names set.0)) }
{
    let mut names = Vec::new(alloc);
    for right in Right::ALL {
        if set.holds(right) {
            names.push(concat(alloc, &["\"", right.text(), "\""])?)?;
        }
    }
    Ok(names)
}

/// Returns the quoted names of the set's rights, with commas between. Errors: memory ran out.
pub fn json_names(alloc: Global, set: Access) -> Result<String, AllocError>
    ensures { IfOk result (λ text. string_bytes text ≡ json_names set.0) }
{
    let names = names_of(alloc, set)?;
    joined(alloc, ", ", names.as_slice())
}

/// Returns the objects with commas between. Errors: memory ran out.
pub(crate) fn listed(alloc: Global, objects: &[String]) -> Result<String, AllocError>
    ensures { IfOk result (λ text. string_bytes text ≡ listed (map string_bytes objects.now)) }
{
    joined(alloc, ", ", objects)
}
