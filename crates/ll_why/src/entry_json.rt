//! Writes as JSON why an entry of a history is answered so.

ghost use Rattle.std.specs.Prelude.{◌≡◌, IfOk, string_bytes};
ghost use Rattle.ll_why.specs.EntryJson.{entry_json, head_fields, instead_json, opening_json, standing_fields};
ghost use Rattle.ll_why.specs.EntryJson.{standing_word};

use crate::entry::{EntryTold, Standing};
use crate::explanation::Explanation;
use crate::text::concat;
use crate::why_json::{call_fields, told_fields};
use crate::words::{call_words, reply_words};
use ll_seq::{Call, Entry};
use std::alloc::{AllocError, Global};

// Returns an entry's number and its client, without braces.
fn head_fields(alloc: Global, number: usize, entry: &Entry) -> Result<String, AllocError>
    ensures { IfOk result (λ text. string_bytes text ≡ head_fields number entry.now) }
{
    let number = number.to_string(alloc)?;
    let client = entry.client.to_string(alloc)?;
    concat(
        alloc,
        &[
            "\"entry\": ",
            number.as_str(),
            ", \"client\": ",
            client.as_str(),
        ],
    )
}

fn standing_word(entry: &Entry, standing: &Standing) -> &'static str
    ensures { result.now ≡ standing_word entry.now standing.now }
{
    match standing {
        Standing::Stands => "legal",
        Standing::NoCaller => {
            if entry.call.is_connect() {
                "client there already"
            } else {
                "client not there"
            }
        }
        Standing::Answers(_) => "other reply",
    }
}

// Returns what the tree answers instead, or null.
fn instead_json(alloc: Global, standing: &Standing) -> Result<String, AllocError>
    ensures { IfOk result (λ text. string_bytes text ≡ instead_json standing.now) }
{
    match standing {
        Standing::Answers(reply) => reply_words(alloc, reply),
        Standing::Stands | Standing::NoCaller => String::from_str(alloc, "null"),
    }
}

// Returns whether an entry is legal, without braces.
fn standing_fields(alloc: Global, entry: &Entry, standing: &Standing) -> Result<String, AllocError>
    ensures { IfOk result (λ text. string_bytes text ≡ standing_fields entry.now standing.now) }
{
    let instead = instead_json(alloc, standing)?;
    concat(
        alloc,
        &[
            "\"standing\": \"",
            standing_word(entry, standing),
            "\", \"instead\": ",
            instead.as_str(),
        ],
    )
}

/// Returns the object on the entry with this number, which opened a descriptor, and on what policy says of a truncate
/// there. Errors: memory ran out.
pub(crate) fn opening_json(
    alloc: Global,
    number: usize,
    entry: &Entry,
    truncate: &Call,
    told: &Option<Explanation>,
) -> Result<String, AllocError>
    ensures { IfOk result (λ text. string_bytes text ≡ opening_json number entry.now truncate.now told.now) }
{
    let head = head_fields(alloc, number, entry)?;
    let command = call_words(alloc, &entry.call)?;
    let why = told_fields(alloc, truncate, told)?;
    concat(
        alloc,
        &[
            "{",
            head.as_str(),
            ", \"command\": ",
            command.as_str(),
            ", \"truncate\": {",
            why.as_str(),
            "}}",
        ],
    )
}

/// Returns the object on an entry, with that on the opening that decides its call. Errors: memory ran out.
pub(crate) fn entry_json(
    alloc: Global,
    it: &EntryTold<'_>,
    opening: &str,
) -> Result<String, AllocError>
    ensures { IfOk result (λ text. string_bytes text ≡ entry_json it.now.number it.now.entry.now
        it.now.standing.now it.now.told.now opening.now) }
{
    let head = head_fields(alloc, it.number, it.entry)?;
    let call = call_fields(alloc, &it.entry.call, &it.entry.reply)?;
    let standing = standing_fields(alloc, it.entry, it.standing)?;
    let why = told_fields(alloc, &it.entry.call, it.told)?;
    concat(
        alloc,
        &[
            "{",
            head.as_str(),
            ", ",
            call.as_str(),
            ", ",
            standing.as_str(),
            ", ",
            why.as_str(),
            ", \"opening\": ",
            opening,
            "}\n",
        ],
    )
}
