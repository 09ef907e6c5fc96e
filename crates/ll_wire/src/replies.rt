//! Reads replies.

ghost use Rattle.std.specs.Prelude.{◌≡◌, ◌<◌, ◌==◌, ◌∷◌, true, false, map, codes, IfOk, MatchBool};
ghost use Rattle.std.specs.List.{slice_split};
ghost use Rattle.ll_seq.specs.Listed.{AreListed};
ghost use Rattle.ll_seq.specs.declared.reply.Reply.{Reply};
ghost use Rattle.ll_wire.specs.Grammar.{SpellsReply};
ghost use Rattle.ll_wire.specs.Parts.{Reads, SpellsNames, SpellsOneNumber, SpellsReplyTokens, SpellsReplyBody};
ghost use Rattle.ll_wire.specs.Reads.{ReadsBy, Finds, tells_text};

use crate::bytes::data_of;
use crate::token::{body_of, number_of, tokens_of};
use ll_decide::{Cause, Denial, Place};
use ll_path::Name;
use ll_rights::{Errno, Kind, Right};
use ll_seq::{Listing, Reply, Status};
use std::alloc::{AllocError, Global};
use std::cmp::Ordering;

// The empty text is less than every name.
fn are_listed(text: &str) -> bool
    ensures { MatchBool result (AreListed (slice_split (λ b. b == 32) text.now))
        (AreListed (slice_split (λ b. b == 32) text.now) → ⊥) }
{
    let mut last = "";
    for name in text.split(' ') {
        if !Name::fits(name) || last.cmp(name) != Ordering::Less {
            return false;
        }
        last = name;
    }
    true
}

fn listing_of(alloc: Global, text: &str) -> Result<Listing, AllocError>
    requires { AreListed (slice_split (λ b. b == 32) text.now) }
    ensures { IfOk result (λ names. names ≡ slice_split (λ b. b == 32) text.now) }
{
    let mut listing = Listing::new(alloc);
    for name in text.split(' ') {
        listing.push(Name::from_text(alloc, name)?)?;
    }
    Ok(listing)
}

// Parses the text after the word `names`. Takes memory only if all parts are names.
pub(crate) fn names_of(alloc: Global, text: &str) -> Result<Listing, Errno>
    ensures { Reads (SpellsNames text.now) result }
{
    if text.is_empty() {
        return Ok(Listing::new(alloc));
    }
    let Some(names) = text.strip_prefix(' ') else {
        return Err(Errno::BadLine);
    };
    if !are_listed(names) {
        return Err(Errno::BadLine);
    }
    match listing_of(alloc, names) {
        Ok(listing) => Ok(listing),
        Err(_) => Err(Errno::NoMemory),
    }
}

pub(crate) fn only_number(args: &[&str]) -> Option<u64>
    ensures { Finds (SpellsOneNumber (map (λ t. t.now) args.now)) result }
{
    let [number] = args else {
        return None;
    };
    number_of(number)
}

pub(crate) fn status_of(args: &[&str]) -> Option<Status>
    ensures { Finds (λ s. SpellsReplyTokens (codes "stat" ∷ map (λ t. t.now) args.now) (Reply.Found s)) result }
{
    let [inode, kind, size, links] = args else {
        return None;
    };
    Some(Status {
        inode: number_of(inode)?,
        kind: Kind::parse(kind)?,
        size: number_of(size)?,
        links: number_of(links)?,
    })
}

// What policy denies is a denial, and no reply reports that a walk is stale.
pub(crate) fn refusal_of(args: &[&str]) -> Option<Errno>
    ensures { Finds (λ errno. SpellsReplyTokens (codes "refused" ∷ map (λ t. t.now) args.now) (Reply.Refused errno))
        result }
{
    let [number, name] = args else {
        return None;
    };
    let number = number_of(number)?;
    let errno = Errno::parse(name)?;
    if number != errno.number() || number < 3 || number > 23 {
        return None;
    }
    Some(errno)
}

fn denial_of(args: &[&str]) -> Option<Denial>
    ensures { Finds (λ d. SpellsReplyTokens (codes "denied" ∷ map (λ t. t.now) args.now) (Reply.Denied d)) result }
{
    let [errno, word, layer, right, place] = args else {
        return None;
    };
    if *word != "layer" {
        return None;
    }
    Some(Denial {
        cause: Cause::parse(errno)?,
        layer: number_of(layer)?,
        right: Right::parse(right)?,
        place: Place::parse(place)?,
    })
}

fn done(args: &[&str]) -> Option<Reply>
    ensures { Finds (λ reply. SpellsReplyTokens (codes "ok" ∷ map (λ t. t.now) args.now) reply
        × (tells_text reply ≡ false)) result }
{
    if !args.is_empty() {
        return None;
    }
    Some(Reply::Done)
}

// Parses a reply that takes no memory.
fn short_reply(tokens: &[&str]) -> Option<Reply>
    ensures { Finds (λ reply. SpellsReplyTokens (map (λ t. t.now) tokens.now) reply × (tells_text reply ≡ false))
        result }
{
    let [name, args @ ..] = tokens else {
        return None;
    };
    match *name {
        "ok" => done(args),
        "fd" => only_number(args).map(Reply::Opened),
        "wrote" => only_number(args).map(Reply::Wrote),
        "stat" => status_of(args).map(Reply::Found),
        "ruleset" => only_number(args).map(Reply::Created),
        "client" => only_number(args).map(Reply::Spawned),
        "refused" => refusal_of(args).map(Reply::Refused),
        "denied" => denial_of(args).map(Reply::Denied),
        _ => None,
    }
}

pub(crate) fn reply_of(alloc: Global, body: &str) -> Result<Reply, Errno>
    ensures { ReadsBy (SpellsReplyBody body.now) (λ reply. tells_text reply ≡ true) result }
{
    if let Some(names) = body.strip_prefix("names") {
        return names_of(alloc, names).map(Reply::Listed);
    }
    if let Some(bytes) = body.strip_prefix("data ") {
        return data_of(alloc, bytes).map(Reply::Bytes);
    }
    let mut tokens = [""; 6];
    let Some(count) = tokens_of(body, &mut tokens) else {
        return Err(Errno::BadLine);
    };
    match short_reply(&tokens[..count]) {
        Some(reply) => Ok(reply),
        None => Err(Errno::BadLine),
    }
}

/// Parses a reply's line. Errors: BadLine if it spells no reply; NoMemory if it does and memory ran out for its names
/// or bytes.
pub fn read_reply(alloc: Global, line: &[u8]) -> Result<Reply, Errno>
    ensures { ReadsBy (SpellsReply line.now) (λ reply. tells_text reply ≡ true) result }
{
    let Some(body) = body_of(line) else {
        return Err(Errno::BadLine);
    };
    reply_of(alloc, body)
}
