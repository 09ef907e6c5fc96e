//! Rights granted more and less, as tokens of a line.

ghost use Rattle.std.specs.Prelude.{◌≡◌, ◌++◌, OnOk, string_bytes};
ghost use Rattle.ll_why.specs.Signed.{beyond, change_tokens, signed};
ghost use Rattle.ll_why.specs.Table.{behind};

use ll_rights::Access;
use std::alloc::{AllocError, Global};

// Returns the rights of the set that the others lack.
fn beyond(set: Access, others: Access) -> Access
    ensures { result.0 ≡ beyond set.0 others.0 }
{
    Access(set.0 ^ (set.0 & others.0))
}

// Appends the rights behind this sign, if there are any.
fn push_signed(
    alloc: Global,
    text: &mut String,
    sign: &str,
    rights: Access,
) -> Result<(), AllocError>
    ensures { OnOk result (string_bytes text.new
        ≡ string_bytes text.old ++ behind (signed sign.now rights.0)) }
{
    if rights.0 == 0 {
        return Ok(());
    }
    let names = rights.text(alloc)?;
    text.push_str(" ")?;
    text.push_str(sign)?;
    text.push_str(names.as_str())
}

/// Appends the rights that are granted and weren't, and those that were and aren't.
pub(crate) fn push_change(
    alloc: Global,
    text: &mut String,
    old: Access,
    new: Access,
) -> Result<(), AllocError>
    ensures { OnOk result (string_bytes text.new
        ≡ string_bytes text.old ++ behind (change_tokens old.0 new.0)) }
{
    push_signed(alloc, text, "+", beyond(new, old))?;
    push_signed(alloc, text, "-", beyond(old, new))
}
