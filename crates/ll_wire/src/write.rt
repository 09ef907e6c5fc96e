//! Writes commands and replies.

ghost use Rattle.std.specs.Prelude.{◌≡◌, [], ◌∷◌, ◌++◌, map, decimal, codes, IfOk, OnOk, string_bytes};
ghost use Rattle.std.specs.List.{join_with_byte};
ghost use Rattle.ll_wire.specs.Grammar.{line_of, mode_text, call_tokens, IsCall, client_tokens, IsClient, reply_tokens};
ghost use Rattle.ll_wire.specs.Grammar.{IsReply, reply_line};

use crate::bytes::data_text;
use crate::spelled::is_entered;
use ll_decide::Denial;
use ll_path::{Data, Name, Target};
use ll_rights::{Access, Errno};
use ll_seq::{AccessMode, Call, Creation, Mode, Reply, Status};
use std::alloc::{AllocError, Global};

/// Most texts have fewer bytes, so their buffer never grows.
const ROOM: usize = 64;

fn push_token(text: &mut String, token: &str) -> Result<(), AllocError>
    ensures { OnOk result (string_bytes text.new ≡ string_bytes text.old ++ 32 ∷ token.now) }
{
    text.push_str(" ")?;
    text.push_str(token)
}

fn ended(mut text: String) -> Result<String, AllocError>
    ensures { IfOk result (λ line. string_bytes line ≡ string_bytes text ++ 10 ∷ []) }
{
    text.push_str("\n")?;
    Ok(text)
}

// The tokens, separated by spaces.
pub(crate) fn spaced_text(alloc: Global, first: &str, others: &[&str]) -> Result<String, AllocError>
    ensures { IfOk result (λ text. string_bytes text ≡ join_with_byte 32 (first.now ∷ map (λ t. t.now) others.now)) }
{
    let mut text = String::with_capacity(alloc, ROOM)?;
    text.push_str(first)?;
    for token in others {
        push_token(&mut text, token)?;
    }
    Ok(text)
}

/// Returns the line of these tokens. Errors: memory ran out.
pub fn line_text(alloc: Global, first: &str, others: &[&str]) -> Result<String, AllocError>
    ensures { IfOk result (λ text. string_bytes text ≡ line_of (first.now ∷ map (λ t. t.now) others.now)) }
{
    ended(spaced_text(alloc, first, others)?)
}

fn mode_text(alloc: Global, mode: Mode) -> Result<String, AllocError>
    ensures { IfOk result (λ text. string_bytes text ≡ mode_text mode) }
{
    let ways = match mode.access {
        AccessMode::Read => "r",
        AccessMode::Write => "w",
        AccessMode::ReadWrite => "rw",
    };
    let mut text = String::from_str(alloc, ways)?;
    if mode.truncate {
        text.push_str("t")?;
    }
    text.push_str(match mode.creation {
        Creation::Never => "",
        Creation::IfMissing => "c",
        Creation::Exclusive => "cx",
    })?;
    Ok(text)
}

pub(crate) fn one_arg(alloc: Global, name: &str, arg: &str) -> Result<String, AllocError>
    ensures { IfOk result (λ text. string_bytes text ≡ join_with_byte 32 (name.now ∷ arg.now ∷ [])) }
{
    spaced_text(alloc, name, &[arg])
}

pub(crate) fn number_text(alloc: Global, name: &str, number: u64) -> Result<String, AllocError>
    ensures { IfOk result (λ text. string_bytes text ≡ join_with_byte 32 (name.now ∷ decimal number ∷ [])) }
{
    let number = number.to_string(alloc)?;
    one_arg(alloc, name, number.as_str())
}

// A call's name and two tokens. They share a lifetime because an array of references has only one.
fn two_args<'a>(alloc: Global, name: &str, one: &'a str, two: &'a str) -> Result<String, AllocError>
    ensures { IfOk result (λ text. string_bytes text ≡ join_with_byte 32 (name.now ∷ one.now ∷ two.now ∷ [])) }
{
    spaced_text(alloc, name, &[one, two])
}

fn three_args<'a>(
    alloc: Global,
    name: &str,
    one: &'a str,
    two: &'a str,
    three: &'a str,
) -> Result<String, AllocError>
    ensures { IfOk result (λ text. string_bytes text
        ≡ join_with_byte 32 (name.now ∷ one.now ∷ two.now ∷ three.now ∷ [])) }
{
    spaced_text(alloc, name, &[one, two, three])
}

fn open_text(alloc: Global, mode: Mode, target: &Target) -> Result<String, AllocError>
    ensures { IfOk result (λ text. string_bytes text ≡ join_with_byte 32 (call_tokens (Call.Open mode target.now))) }
{
    let mode = mode_text(alloc, mode)?;
    two_args(alloc, "open", mode.as_str(), target.as_str())
}

fn read_text(alloc: Global, fd: u64, offset: u64, count: u64) -> Result<String, AllocError>
    ensures { IfOk result (λ text. string_bytes text ≡ join_with_byte 32 (call_tokens (Call.Read fd offset count))) }
{
    let fd = fd.to_string(alloc)?;
    let offset = offset.to_string(alloc)?;
    let count = count.to_string(alloc)?;
    three_args(alloc, "read", fd.as_str(), offset.as_str(), count.as_str())
}

fn write_text(alloc: Global, fd: u64, offset: u64, bytes: &Data) -> Result<String, AllocError>
    ensures { IfOk result (λ text. string_bytes text
        ≡ join_with_byte 32 (call_tokens (Call.Write fd offset bytes.now))) }
{
    let fd = fd.to_string(alloc)?;
    let offset = offset.to_string(alloc)?;
    let bytes = data_text(alloc, bytes)?;
    three_args(alloc, "write", fd.as_str(), offset.as_str(), bytes.as_str())
}

fn ftruncate_text(alloc: Global, fd: u64, size: u64) -> Result<String, AllocError>
    ensures { IfOk result (λ text. string_bytes text ≡ join_with_byte 32 (call_tokens (Call.Ftruncate fd size))) }
{
    let fd = fd.to_string(alloc)?;
    let size = size.to_string(alloc)?;
    two_args(alloc, "ftruncate", fd.as_str(), size.as_str())
}

fn truncate_text(alloc: Global, target: &Target, size: u64) -> Result<String, AllocError>
    ensures { IfOk result (λ text. string_bytes text
        ≡ join_with_byte 32 (call_tokens (Call.Truncate target.now size))) }
{
    let size = size.to_string(alloc)?;
    two_args(alloc, "truncate", target.as_str(), size.as_str())
}

fn ruleset_text(alloc: Global, rights: Access) -> Result<String, AllocError>
    ensures { IfOk result (λ text. string_bytes text ≡ join_with_byte 32 (call_tokens (Call.Ruleset rights))) }
{
    let rights = rights.text(alloc)?;
    one_arg(alloc, "ruleset", rights.as_str())
}

fn allow_text(
    alloc: Global,
    number: u64,
    target: &Target,
    rights: Access,
) -> Result<String, AllocError>
    ensures { IfOk result (λ text. string_bytes text
        ≡ join_with_byte 32 (call_tokens (Call.Allow number target.now rights))) }
{
    let number = number.to_string(alloc)?;
    let rights = rights.text(alloc)?;
    three_args(
        alloc,
        "allow",
        number.as_str(),
        target.as_str(),
        rights.as_str(),
    )
}

pub(crate) fn call_text(alloc: Global, call: &Call) -> Result<String, AllocError>
    ensures { IfOk result (λ text. string_bytes text ≡ join_with_byte 32 (call_tokens call.now)) }
{
    match call {
        Call::Make(kind, target) => two_args(alloc, "make", kind.text(), target.as_str()),
        Call::Open(mode, target) => open_text(alloc, *mode, target),
        Call::Read(fd, offset, count) => read_text(alloc, *fd, *offset, *count),
        Call::Write(fd, offset, bytes) => write_text(alloc, *fd, *offset, bytes),
        Call::Ftruncate(fd, size) => ftruncate_text(alloc, *fd, *size),
        Call::Close(fd) => number_text(alloc, "close", *fd),
        Call::Truncate(target, size) => truncate_text(alloc, target, *size),
        Call::ReadDir(target) => one_arg(alloc, "list", target.as_str()),
        Call::Stat(target) => one_arg(alloc, "stat", target.as_str()),
        Call::Exec(target) => one_arg(alloc, "exec", target.as_str()),
        Call::Unlink(target) => one_arg(alloc, "unlink", target.as_str()),
        Call::Rmdir(target) => one_arg(alloc, "rmdir", target.as_str()),
        Call::Rename(old, new) => two_args(alloc, "rename", old.as_str(), new.as_str()),
        Call::RenameNoreplace(old, new) => {
            two_args(alloc, "rename_noreplace", old.as_str(), new.as_str())
        }
        Call::Exchange(old, new) => two_args(alloc, "exchange", old.as_str(), new.as_str()),
        Call::Link(old, new) => two_args(alloc, "link", old.as_str(), new.as_str()),
        Call::Ruleset(rights) => ruleset_text(alloc, *rights),
        Call::Allow(number, target, rights) => allow_text(alloc, *number, target, *rights),
        Call::Confine(number) => number_text(alloc, "confine", *number),
        Call::Spawn => String::from_str(alloc, "spawn"),
        Call::Connect => String::from_str(alloc, "connect"),
    }
}

// A client's name: `@` and its number.
fn client_text(alloc: Global, client: u64) -> Result<String, AllocError>
    ensures { IfOk result (λ text. string_bytes text ≡ 64 ∷ decimal client) }
{
    let number = client.to_string(alloc)?;
    let mut text = String::from_str(alloc, "@")?;
    text.push_str(number.as_str())?;
    Ok(text)
}

/// Returns the command's line. Errors: memory ran out.
pub fn command_text(alloc: Global, client: u64, call: &Call) -> Result<String, AllocError>
    requires client { IsClient client }
    requires call { IsCall call.now }
    ensures { IfOk result (λ text. string_bytes text ≡ line_of (client_tokens client ++ call_tokens call.now)) }
{
    let text = call_text(alloc, call)?;
    if client == 1 {
        return ended(text);
    }
    let client = client_text(alloc, client)?;
    line_text(alloc, client.as_str(), &[text.as_str()])
}

pub(crate) fn bytes_text(alloc: Global, bytes: &Data) -> Result<String, AllocError>
    ensures { IfOk result (λ text. string_bytes text ≡ join_with_byte 32 (reply_tokens (Reply.Bytes bytes.now))) }
{
    let bytes = data_text(alloc, bytes)?;
    one_arg(alloc, "data", bytes.as_str())
}

pub(crate) fn names_text(alloc: Global, names: &[Name]) -> Result<String, AllocError>
    ensures { IfOk result (λ text. string_bytes text ≡ join_with_byte 32 (codes "names" ∷ names.now)) }
{
    let mut text = String::from_str(alloc, "names")?;
    for name in names {
        push_token(&mut text, name.as_str())?;
    }
    Ok(text)
}

pub(crate) fn status_text(alloc: Global, status: &Status) -> Result<String, AllocError>
    ensures { IfOk result (λ text. string_bytes text ≡ join_with_byte 32 (reply_tokens (Reply.Found status.now))) }
{
    let inode = status.inode.to_string(alloc)?;
    let kind = status.kind.text();
    let size = status.size.to_string(alloc)?;
    let links = status.links.to_string(alloc)?;
    spaced_text(
        alloc,
        "stat",
        &[inode.as_str(), kind, size.as_str(), links.as_str()],
    )
}

pub(crate) fn denial_text(alloc: Global, denial: &Denial) -> Result<String, AllocError>
    ensures { IfOk result (λ text. string_bytes text ≡ join_with_byte 32 (reply_tokens (Reply.Denied denial.now))) }
{
    let errno = denial.cause.errno().text();
    let layer = denial.layer.to_string(alloc)?;
    let right = denial.right.text();
    let place = denial.place.text();
    spaced_text(
        alloc,
        "denied",
        &[errno, "layer", layer.as_str(), right, place],
    )
}

pub(crate) fn refusal_text(alloc: Global, errno: Errno) -> Result<String, AllocError>
    ensures { IfOk result (λ text. string_bytes text ≡ join_with_byte 32 (reply_tokens (Reply.Refused errno))) }
{
    let number = errno.number().to_string(alloc)?;
    two_args(alloc, "refused", number.as_str(), errno.text())
}

// The reply's line without its line feed.
pub(crate) fn reply_body(alloc: Global, reply: &Reply) -> Result<String, AllocError>
    ensures { IfOk result (λ text. string_bytes text ≡ join_with_byte 32 (reply_tokens reply.now)) }
{
    match reply {
        Reply::Done => String::from_str(alloc, "ok"),
        Reply::Opened(number) => number_text(alloc, "fd", *number),
        Reply::Bytes(bytes) => bytes_text(alloc, bytes),
        Reply::Wrote(count) => number_text(alloc, "wrote", *count),
        Reply::Listed(listing) => names_text(alloc, listing.names()),
        Reply::Found(status) => status_text(alloc, status),
        Reply::Created(number) => number_text(alloc, "ruleset", *number),
        Reply::Spawned(number) => number_text(alloc, "client", *number),
        Reply::Refused(errno) => refusal_text(alloc, *errno),
        Reply::Denied(denial) => denial_text(alloc, denial),
    }
}

/// Returns the reply's line. Errors: memory ran out.
pub fn reply_text(alloc: Global, reply: &Reply) -> Result<String, AllocError>
    requires { IsReply reply.now }
    ensures { IfOk result (λ text. string_bytes text ≡ reply_line reply.now) }
{
    ended(reply_body(alloc, reply)?)
}

/// Returns the line of a reply that a tree gives. Errors: memory ran out.
pub fn reply_line(alloc: Global, reply: &Reply) -> Result<String, AllocError>
    ensures { IfOk result (λ line. string_bytes line ≡ reply_line reply.now) }
{
    match reply {
        Reply::Refused(errno) => ended(refusal_text(alloc, *errno)?),
        reply => {
            reply.by_type();
            is_entered(reply);
            reply_text(alloc, reply)
        }
    }
}

/// Returns the line of a word followed by a reply. Errors: memory ran out.
pub fn reply_text_behind(alloc: Global, word: &str, reply: &Reply) -> Result<String, AllocError>
    ensures { IfOk result (λ text. string_bytes text ≡ line_of (word.now ∷ reply_tokens reply.now)) }
{
    let reply = reply_body(alloc, reply)?;
    line_text(alloc, word, &[reply.as_str()])
}
