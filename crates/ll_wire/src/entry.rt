//! Entries of histories, read and written.

ghost use Rattle.std.specs.Prelude.{◌≡◌, ◌≤◌, ◌∷◌, ◌||◌, true, ℕ, List, length, map, take, IfOk, IfSome, IfNone};
ghost use Rattle.std.specs.Prelude.{string_bytes};
ghost use Rattle.ll_seq.specs.declared.call.Call.{Call};
ghost use Rattle.ll_seq.specs.declared.reply.Reply.{Reply};
ghost use Rattle.ll_wire.specs.Grammar.{call_tokens};
ghost use Rattle.ll_wire.specs.Entries.{IsEntry, entry_line, entry_holds_text, SpellsEntry};
ghost use Rattle.ll_wire.specs.EntryParts.{SpellsEntryCall, SpellsEntryReply, SpellsAnswered, CutsAt, SpellsEntryBody};
ghost use Rattle.ll_wire.specs.Reads.{ReadsBy, holds_text, tells_text};

use crate::read::call_of;
use crate::replies::reply_of;
use crate::token::{body_of, first_of, front_of, number_of};
use crate::write::{call_text, line_text, reply_body};
use ll_rights::Errno;
use ll_seq::{Call, Entry, Reply};
use std::alloc::{AllocError, Global};

/// The most bytes in an entry's line, with its line feed.
pub const ENTRY_LIMIT: usize = 300_000;

// The number of tokens in a call of this name, with the name.
fn call_len(name: &str) -> usize
    ensures call { (call : Call) (args : List (List ℕ)) → call_tokens call ≡ name.now ∷ args
        → result ≡ length (call_tokens call) }
    ensures most { result ≤ 4 }
{
    match name {
        "connect" | "spawn" => 1,
        "make" | "open" | "ftruncate" | "truncate" => 3,
        "rename" | "rename_noreplace" | "exchange" | "link" => 3,
        "read" | "write" | "allow" => 4,
        _ => 2,
    }
}

// The number of the call's tokens, and the text after the `=` that follows them. A path may be `=` too.
fn cut_of<'a>(text: &'a str, tokens: &mut [&'a str]) -> Option<(usize, &'a str)>
    requires { 4 ≤ length tokens.old }
    ensures found { IfSome result (λ x. (x.0 ≤ length tokens.new)
        × CutsAt text.entry.now (map (λ t. t.now) (take x.0 tokens.new)) x.1.now) }
    ensures none { IfNone result ((call : Call) (reply : Reply) → SpellsAnswered text.entry.now call reply → ⊥) }
{
    let (name, _) = first_of(text)?;
    let count = call_len(name);
    let rest = front_of(text, count, tokens)?;
    let reply = rest.strip_prefix("= ")?;
    Some((count, reply))
}

// Parses the call of a command, or a connect.
fn entry_call_of(alloc: Global, tokens: &[&str]) -> Result<Call, Errno>
    ensures { ReadsBy (SpellsEntryCall (map (λ t. t.now) tokens.now)) (λ call. holds_text call ≡ true) result }
{
    if let [name] = tokens
        && *name == "connect"
    {
        return Ok(Call::Connect);
    }
    call_of(alloc, tokens)
}

// Parses a reply that the tree itself gave. HistoryFull (21), NoMemory and BadLine are never in an entry.
fn entry_reply_of(alloc: Global, body: &str) -> Result<Reply, Errno>
    ensures { ReadsBy (SpellsEntryReply body.now) (λ reply. tells_text reply ≡ true) result }
{
    match reply_of(alloc, body) {
        Ok(Reply::Refused(errno)) if errno.number() > 20 => Err(Errno::BadLine),
        reply => reply,
    }
}

// Combines both results. NoMemory counts only if both are spelled.
fn both(call: Result<Call, Errno>, reply: Result<Reply, Errno>) -> Result<(Call, Reply), Errno>
    ensures { (tokens : List (List ℕ)) (body : List ℕ)
        → ReadsBy (SpellsEntryCall tokens) (λ call. holds_text call ≡ true) call
        → ReadsBy (SpellsEntryReply body) (λ reply. tells_text reply ≡ true) reply
        → ReadsBy (λ v. SpellsEntryCall tokens v.0 × SpellsEntryReply body v.1)
        (λ v. (holds_text v.0 || tells_text v.1) ≡ true) result }
{
    match call {
        Ok(call) => reply.map(|reply| (call, reply)),
        Err(errno) => {
            if reply.err() == Some(Errno::BadLine) {
                return Err(Errno::BadLine);
            }
            Err(errno)
        }
    }
}

// Parses the call and the reply of an entry.
fn answered_of(alloc: Global, text: &str) -> Result<(Call, Reply), Errno>
    ensures { ReadsBy (λ v. SpellsAnswered text.now v.0 v.1) (λ v. (holds_text v.0 || tells_text v.1) ≡ true) result }
{
    let mut tokens = [""; 4];
    let Some((count, reply)) = cut_of(text, &mut tokens) else {
        return Err(Errno::BadLine);
    };
    both(
        entry_call_of(alloc, &tokens[..count]),
        entry_reply_of(alloc, reply),
    )
}

fn entry_of(alloc: Global, body: &str) -> Result<Entry, Errno>
    ensures { ReadsBy (SpellsEntryBody body.now) (λ e. entry_holds_text e ≡ true) result }
{
    let Some((client, text)) = first_of(body) else {
        return Err(Errno::BadLine);
    };
    let Some(client) = number_of(client) else {
        return Err(Errno::BadLine);
    };
    answered_of(alloc, text).map(|(call, reply)| Entry {
        client,
        call,
        reply,
    })
}

/// Parses a line of a history. Errors: BadLine if it spells no entry; NoMemory if it spells one and memory ran out.
pub fn read_entry(alloc: Global, line: &[u8]) -> Result<Entry, Errno>
    ensures { ReadsBy (SpellsEntry line.now) (λ e. entry_holds_text e ≡ true) result }
{
    if line.len() > ENTRY_LIMIT {
        return Err(Errno::BadLine);
    }
    let Some(body) = body_of(line) else {
        return Err(Errno::BadLine);
    };
    entry_of(alloc, body)
}

/// Returns the entry's line. Errors: memory ran out.
pub fn entry_text(alloc: Global, entry: &Entry) -> Result<String, AllocError>
    requires { IsEntry entry.now }
    ensures { IfOk result (λ text. string_bytes text ≡ entry_line entry.now) }
{
    let client = entry.client.to_string(alloc)?;
    let call = call_text(alloc, &entry.call)?;
    let reply = reply_body(alloc, &entry.reply)?;
    line_text(
        alloc,
        client.as_str(),
        &[call.as_str(), "=", reply.as_str()],
    )
}
