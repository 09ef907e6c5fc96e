//! Explains one entry of a history.

ghost use Rattle.std.specs.Prelude.{◌≡◌, ◌<◌, ◌-◌, ◌++◌, ◌^◌, [], IfOk, string_bytes};
ghost use Rattle.std.specs.Option.{option_map_or};
ghost use Rattle.ll_seq.specs.History.{MayStand};
ghost use Rattle.ll_why.specs.Entries.{IsStanding, entry_lines, entry_text, standing_line};
ghost use Rattle.ll_why.specs.Explained.{IsExplained};
ghost use Rattle.ll_why.specs.Told.{told_text};

use crate::WhyStyle;
use crate::entry_json::entry_json;
use crate::explanation::{Explanation, call_line, explain};
use crate::text::concat;
use ll_plain::Plain;
use ll_rights::Abi;
use ll_seq::{Call, Entry, Reply};
use ll_wire::reply_text_behind;
use std::alloc::{AllocError, Global};

/// Whether an entry is legal where it is.
#[derive(Drop)]
pub enum Standing {
    Stands,
    /// Its client doesn't exist; or it does, and the entry connects it.
    NoCaller,
    /// The entry isn't legal: this is the tree's reply there.
    Answers(Reply),
}

/// An entry, its number from 1, whether it is legal, and what policy says of its call, if its client exists.
#[derive(Clone, Copy)]
pub(crate) struct EntryTold<'a> {
    pub number: usize,
    pub entry: &'a Entry,
    pub standing: &'a Standing,
    pub told: &'a Option<Explanation>,
}

/// Returns why an entry that isn't legal in the tree's state isn't. Changes the tree.
pub(crate) fn answer_at(tree: &mut Plain, entry: &Entry) -> Result<Standing, AllocError>
    requires next { tree.old.next < 2 ^ 64 - 1 }
    requires not { MayStand tree.old entry.now → ⊥ }
    ensures { IfOk result (IsStanding tree.old entry.now) }
{
    if tree.has_client(entry.client) == entry.call.is_connect() {
        return Ok(Standing::NoCaller);
    }
    let fresh = tree.free_number();
    let reply = tree.apply(entry.client, &entry.call, fresh);
    if reply.wants_memory() {
        return Err(AllocError);
    }
    Ok(Standing::Answers(reply))
}

/// Explains the client's call in a tree of this level, if the client exists.
pub(crate) fn explain_at(
    alloc: Global,
    tree: &Plain,
    level: Abi,
    client: u64,
    call: &Call,
) -> Result<Option<Explanation>, AllocError>
    ensures { IfOk result (IsExplained level tree.now client call.now) }
{
    match tree.client(client) {
        Some(caller) => Ok(Some(explain(alloc, tree, level, caller, call)?)),
        None => Ok(None),
    }
}

/// Returns the line on why an entry isn't legal, or the empty text if it is.
pub(crate) fn standing_line(
    alloc: Global,
    entry: &Entry,
    standing: &Standing,
) -> Result<String, AllocError>
    ensures { IfOk result (λ text. string_bytes text ≡ standing_line entry.now standing.now) }
{
    match standing {
        Standing::Stands => Ok(String::new(alloc)),
        Standing::NoCaller => {
            if entry.call.is_connect() {
                String::from_str(alloc, "may not stand: the client is there already\n")
            } else {
                String::from_str(alloc, "may not stand: the client isn't there\n")
            }
        }
        Standing::Answers(reply) => {
            reply_text_behind(alloc, "may not stand: the tree answers", reply)
        }
    }
}

/// Returns what policy says of a call, if its client exists.
pub(crate) fn told_lines(
    alloc: Global,
    call: &Call,
    told: &Option<Explanation>,
) -> Result<String, AllocError>
    ensures { IfOk result (λ text. string_bytes text ≡ option_map_or (told_text call.now) told.now []) }
{
    match told {
        Some(told) => told.text(alloc, call),
        None => Ok(String::new(alloc)),
    }
}

// Returns the lines on the entry: its number, its client, its call and its reply, whether it is legal, and what policy
// says of the call.
fn entry_lines(alloc: Global, it: &EntryTold<'_>) -> Result<String, AllocError>
    ensures { IfOk result (λ text. string_bytes text
        ≡ entry_lines it.now.number it.now.entry.now it.now.standing.now it.now.told.now) }
{
    let number = it.number.to_string(alloc)?;
    let client = it.entry.client.to_string(alloc)?;
    let call = call_line(alloc, &it.entry.call)?;
    let reply = reply_text_behind(alloc, "answered", &it.entry.reply)?;
    let stands = standing_line(alloc, it.entry, it.standing)?;
    let why = told_lines(alloc, &it.entry.call, it.told)?;
    let parts = [
        "entry ",
        number.as_str(),
        ", client ",
        client.as_str(),
        ": ",
        call.as_str(),
        reply.as_str(),
        stands.as_str(),
        why.as_str(),
    ];
    concat(alloc, &parts)
}

// Returns the lines on the entry, and then this opening.
fn lines_with(alloc: Global, it: &EntryTold<'_>, opening: &str) -> Result<String, AllocError>
    ensures { IfOk result (λ text. string_bytes text
        ≡ entry_lines it.now.number it.now.entry.now it.now.standing.now it.now.told.now ++ opening.now) }
{
    let mut text = entry_lines(alloc, it)?;
    text.push_str(opening)?;
    Ok(text)
}

/// Returns the text on the entry, with that on the opening that decides its call. Errors: memory ran out.
pub(crate) fn entry_text(
    alloc: Global,
    style: WhyStyle,
    it: &EntryTold<'_>,
    opening: &str,
) -> Result<String, AllocError>
    ensures { IfOk result (λ text. string_bytes text ≡ entry_text style it.now.number it.now.entry.now
        it.now.standing.now it.now.told.now opening.now) }
{
    match style {
        WhyStyle::Lines => lines_with(alloc, it, opening),
        WhyStyle::Json => entry_json(alloc, it, opening),
    }
}
