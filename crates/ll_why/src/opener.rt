//! Which entry opened the descriptor that decides a call, and what policy says of a truncate there.

ghost use Rattle.std.specs.Prelude.{◌≡◌, ◌≤◌, true, false, Option, Some, IfNone, IfOk, IfSome, length, option_map};
ghost use Rattle.std.specs.Prelude.{string_bytes};
ghost use Rattle.std.specs.Prelude.{if◌then◌else◌};
ghost use Rattle.ll_rights.specs.declared.limits.TheConstants.{TREE_NODES};
ghost use Rattle.ll_audit.specs.Saved.{opened};
ghost use Rattle.ll_why.specs.Explained.{IsExplained};
ghost use Rattle.ll_why.specs.declared.explanation.Explanation.{Explanation};
ghost use Rattle.ll_why.specs.Opener.{IsOpeningText, TellsOpening, is_opened, is_spawned, kept_descriptor};
ghost use Rattle.ll_why.specs.Opener.{no_opening, opening_behind, opening_lines, opening_text, openings, opens};
ghost use Rattle.ll_why.specs.Opener.{target_opened};

use crate::entry::{explain_at, told_lines};
use crate::entry_json::opening_json;
use crate::explanation::{Explanation, call_line};
use crate::text::concat;
use crate::tree::tree_after;
use crate::{Why, WhyStyle};
use ll_path::Target;
use ll_plain::Plain;
use ll_rights::Abi;
use ll_seq::{Call, Entry, Reply};
use ll_wire::Header;
use std::alloc::{AllocError, Global};

/// The entry that opened a client's descriptor.
#[derive(Clone, Copy)]
struct Opening<'a> {
    /// All entries up to and including this one.
    upto: &'a [Entry],
    last: &'a Entry,
    target: &'a Target,
}

// Returns what the call opens.
fn target_opened(call: &Call) -> Option<&Target>
    ensures { option_map (λ t. t.now) result ≡ target_opened call.now }
{
    match call {
        Call::Open(_, target) => Some(target),
        _ => None,
    }
}

fn is_opened(reply: &Reply, descriptor: u64) -> bool
    ensures { result ≡ is_opened descriptor reply.now }
{
    matches!(reply, Reply::Opened(number) if *number == descriptor)
}

fn is_spawned(reply: &Reply, client: u64) -> bool
    ensures { result ≡ is_spawned client reply.now }
{
    matches!(reply, Reply::Spawned(number) if *number == client)
}

// Returns the client whose descriptors this one has, before the entry: itself, or its parent if the entry spawns it.
fn holder_before(entry: &Entry, client: u64) -> u64
    ensures { result ≡ (if is_spawned client entry.now.reply then entry.now.client else client) }
{
    if is_spawned(&entry.reply, client) {
        entry.client
    } else {
        client
    }
}

// Returns what the entry opens as the client's descriptor with this number, if anything.
fn opened_target(entry: &Entry, client: u64, descriptor: u64) -> Option<&Target>
    ensures some { IfSome result (λ t. (opens client descriptor entry.now ≡ true)
        × (target_opened entry.now.call ≡ Some t.now)) }
    ensures none { IfNone result (opens client descriptor entry.now ≡ false) }
{
    if entry.client == client && is_opened(&entry.reply, descriptor) {
        target_opened(&entry.call)
    } else {
        None
    }
}

// Returns the entry that opened the descriptor with this number, which the client has after these entries.
fn opening_in<'a>(entries: &'a [Entry], client: u64, descriptor: u64) -> Option<Opening<'a>>
    ensures opening { option_map (λ o. (o.upto.now, o.last.now)) result
        ≡ openings entries.entry.now client descriptor }
    ensures target { IfSome result (λ o. target_opened o.last.now.call ≡ Some o.target.now) }
{
    let mut rest = entries;
    let mut holder = client;
    while let Some((last, before)) = rest.split_last() {
        if let Some(target) = opened_target(last, holder, descriptor) {
            let upto = rest;
            return Some(Opening { upto, last, target });
        }
        holder = holder_before(last, holder);
        rest = before;
    }
    None
}

// Returns the descriptor whose opening decided the call, if any.
fn kept_descriptor(call: &Call, told: &Option<Explanation>) -> Option<u64>
    ensures { result ≡ kept_descriptor call.now told.now }
{
    let Some(told) = told else {
        return None;
    };
    match (call, &told.why) {
        (Call::Ftruncate(number, _), Why::Kept(_)) => Some(*number),
        _ => None,
    }
}

// Returns the opening of the descriptor that decides the entry's call, which follows these entries.
fn opening_behind<'a>(
    entries: &'a [Entry],
    entry: &Entry,
    told: &Option<Explanation>,
) -> Option<Opening<'a>>
    ensures opening { option_map (λ o. (o.upto.now, o.last.now)) result
        ≡ opening_behind entries.entry.now entry.now told.now }
    ensures target { IfSome result (λ o. target_opened o.last.now.call ≡ Some o.target.now) }
{
    match kept_descriptor(&entry.call, told) {
        Some(descriptor) => opening_in(entries, entry.client, descriptor),
        None => None,
    }
}

fn truncate_of(alloc: Global, target: &Target) -> Result<Call, AllocError>
    ensures { IfOk result (λ call. call ≡ Call.Truncate target.now 0) }
{
    let target = target.copy(alloc)?;
    Ok(Call::Truncate(target, 0))
}

// Returns the lines on the entry with this number, which opened a descriptor, and what policy says of a truncate there.
fn opening_lines(
    alloc: Global,
    number: usize,
    entry: &Entry,
    truncate: &Call,
    told: &Option<Explanation>,
) -> Result<String, AllocError>
    ensures { IfOk result (λ text. string_bytes text ≡ opening_lines number entry.now truncate.now told.now) }
{
    let number = number.to_string(alloc)?;
    let client = entry.client.to_string(alloc)?;
    let call = call_line(alloc, &entry.call)?;
    let why = told_lines(alloc, truncate, told)?;
    let parts = [
        "opened by entry ",
        number.as_str(),
        ", client ",
        client.as_str(),
        ": ",
        call.as_str(),
        "a truncate there:\n",
        why.as_str(),
    ];
    concat(alloc, &parts)
}

fn opening_text(
    alloc: Global,
    style: WhyStyle,
    number: usize,
    entry: &Entry,
    truncate: &Call,
    told: &Option<Explanation>,
) -> Result<String, AllocError>
    ensures { IfOk result (λ text. string_bytes text
        ≡ opening_text style number entry.now truncate.now told.now) }
{
    match style {
        WhyStyle::Lines => opening_lines(alloc, number, entry, truncate, told),
        WhyStyle::Json => opening_json(alloc, number, entry, truncate, told),
    }
}

fn no_opening(style: WhyStyle) -> &'static str
    ensures { result.now ≡ no_opening style }
{
    match style {
        WhyStyle::Lines => "",
        WhyStyle::Json => "null",
    }
}

// Returns the text on an opening, and on this truncate of what it opened, in the tree that it left.
fn text_in(
    alloc: Global,
    style: WhyStyle,
    level: Abi,
    tree: &Plain,
    opening: &Opening<'_>,
    truncate: &Call,
) -> Result<String, AllocError>
    ensures { IfOk result (λ text. (told : Option Explanation)
        × IsExplained level tree.now opening.now.last.now.client truncate.now told × (string_bytes text
        ≡ opening_text style (length opening.now.upto.now) opening.now.last.now truncate.now told)) }
{
    let told = explain_at(alloc, tree, level, opening.last.client, truncate)?;
    let number = opening.upto.len();
    opening_text(alloc, style, number, opening.last, truncate, &told)
}

// Returns the text on an opening.
fn text_on(
    alloc: Global,
    style: WhyStyle,
    header: &Header,
    opening: &Opening<'_>,
) -> Result<String, AllocError>
    requires some { 1 ≤ header.now.nodes }
    requires most { header.now.nodes ≤ TREE_NODES }
    requires target { target_opened opening.now.last.now.call ≡ Some opening.now.target.now }
    ensures { IfOk result (λ text. TellsOpening style (opened header.now) opening.now.upto.now
        opening.now.last.now (string_bytes text)) }
{
    let truncate = truncate_of(alloc, opening.target)?;
    let tree = match tree_after(alloc, header, opening.upto) {
        Ok(tree) => tree,
        Err(error) => {
            drop(truncate);
            return Err(error);
        }
    };
    let level = header.version.rules().abi;
    let text = text_in(alloc, style, level, &tree, opening, &truncate);
    drop(tree);
    drop(truncate);
    text
}

/// Returns the text on the opening of the descriptor that decides the entry's call, which follows these entries.
pub(crate) fn opening_of(
    alloc: Global,
    style: WhyStyle,
    header: &Header,
    entries: &[Entry],
    entry: &Entry,
    told: &Option<Explanation>,
) -> Result<String, AllocError>
    requires some { 1 ≤ header.now.nodes }
    requires most { header.now.nodes ≤ TREE_NODES }
    ensures { IfOk result (λ text. IsOpeningText style (opened header.now)
        (opening_behind entries.now entry.now told.now) (string_bytes text)) }
{
    match opening_behind(entries, entry, told) {
        Some(opening) => text_on(alloc, style, header, &opening),
        None => String::from_str(alloc, no_opening(style)),
    }
}
