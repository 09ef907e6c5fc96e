//! Reading commands.

ghost use Rattle.std.specs.Prelude.{◌≡◌, ◌≤◌, ◌∷◌, true, map, codes};
ghost use Rattle.ll_path.specs.Word.{IsWord};
ghost use Rattle.ll_wire.specs.Grammar.{mode_text, SpellsTarget, SpellsCommand};
ghost use Rattle.ll_wire.specs.Parts.{Reads, ReadsCall, SpellsOneTarget, SpellsTwoTargets, SpellsTokens};
ghost use Rattle.ll_wire.specs.Reads.{ReadsBy, holds_text, Finds};

use crate::bytes::data_of;
use crate::token::{body_of, client_of, number_of, tokens_of};
use ll_path::{Target, Word};
use ll_rights::{Access, Errno, Kind};
use ll_seq::{AccessMode, Call, Creation, Mode};
use std::alloc::Global;

/// The most bytes in a command line, with its line feed.
pub const LINE_LIMIT: usize = 16_384;

fn mode_of(text: &str) -> Option<Mode>
    ensures { Finds (λ mode. text.now ≡ mode_text mode) result }
{
    let (access, letters) = match text.as_bytes() {
        [b'r', b'w', letters @ ..] => (AccessMode::ReadWrite, letters),
        [b'r', letters @ ..] => (AccessMode::Read, letters),
        [b'w', letters @ ..] => (AccessMode::Write, letters),
        _ => return None,
    };
    let (truncate, letters) = match letters {
        [b't', letters @ ..] => (true, letters),
        _ => (false, letters),
    };
    let creation = match letters {
        [] => Creation::Never,
        b"c" => Creation::IfMissing,
        b"cx" => Creation::Exclusive,
        _ => return None,
    };
    Some(Mode {
        access,
        truncate,
        creation,
    })
}

// Takes memory, so it is parsed after everything that takes none. Errors: NoMemory.
fn target_by(alloc: Global, text: &str) -> Result<Target, Errno>
    requires { IsWord text.now }
    ensures { Reads (SpellsTarget text.now) result }
{
    let Ok(word) = Word::from_text(alloc, text) else {
        return Err(Errno::NoMemory);
    };
    Ok(Target::read(word))
}

fn target_of(alloc: Global, text: &str) -> Result<Target, Errno>
    ensures { Reads (SpellsTarget text.now) result }
{
    if !Word::fits(text) {
        return Err(Errno::BadLine);
    }
    target_by(alloc, text)
}

fn make(alloc: Global, args: &[&str]) -> Result<Call, Errno>
    ensures { ReadsCall (codes "make" ∷ map (λ t. t.now) args.now) result }
{
    let [kind, path] = args else {
        return Err(Errno::BadLine);
    };
    let Some(kind) = Kind::parse(kind) else {
        return Err(Errno::BadLine);
    };
    let target = target_of(alloc, path)?;
    Ok(Call::Make(kind, target))
}

fn open(alloc: Global, args: &[&str]) -> Result<Call, Errno>
    ensures { ReadsCall (codes "open" ∷ map (λ t. t.now) args.now) result }
{
    let [mode, path] = args else {
        return Err(Errno::BadLine);
    };
    let Some(mode) = mode_of(mode) else {
        return Err(Errno::BadLine);
    };
    let target = target_of(alloc, path)?;
    Ok(Call::Open(mode, target))
}

fn read(args: &[&str]) -> Result<Call, Errno>
    ensures { ReadsCall (codes "read" ∷ map (λ t. t.now) args.now) result }
{
    let [fd, offset, count] = args else {
        return Err(Errno::BadLine);
    };
    match (number_of(fd), number_of(offset), number_of(count)) {
        (Some(fd), Some(offset), Some(count)) => Ok(Call::Read(fd, offset, count)),
        _ => Err(Errno::BadLine),
    }
}

fn write(alloc: Global, args: &[&str]) -> Result<Call, Errno>
    ensures { ReadsCall (codes "write" ∷ map (λ t. t.now) args.now) result }
{
    let [fd, offset, bytes] = args else {
        return Err(Errno::BadLine);
    };
    let Some(fd) = number_of(fd) else {
        return Err(Errno::BadLine);
    };
    let Some(offset) = number_of(offset) else {
        return Err(Errno::BadLine);
    };
    let bytes = data_of(alloc, bytes)?;
    Ok(Call::Write(fd, offset, bytes))
}

fn ftruncate(args: &[&str]) -> Result<Call, Errno>
    ensures { ReadsCall (codes "ftruncate" ∷ map (λ t. t.now) args.now) result }
{
    let [fd, size] = args else {
        return Err(Errno::BadLine);
    };
    match (number_of(fd), number_of(size)) {
        (Some(fd), Some(size)) => Ok(Call::Ftruncate(fd, size)),
        _ => Err(Errno::BadLine),
    }
}

fn close(args: &[&str]) -> Result<Call, Errno>
    ensures { ReadsCall (codes "close" ∷ map (λ t. t.now) args.now) result }
{
    let [fd] = args else {
        return Err(Errno::BadLine);
    };
    let Some(fd) = number_of(fd) else {
        return Err(Errno::BadLine);
    };
    Ok(Call::Close(fd))
}

fn truncate(alloc: Global, args: &[&str]) -> Result<Call, Errno>
    ensures { ReadsCall (codes "truncate" ∷ map (λ t. t.now) args.now) result }
{
    let [path, size] = args else {
        return Err(Errno::BadLine);
    };
    let Some(size) = number_of(size) else {
        return Err(Errno::BadLine);
    };
    let target = target_of(alloc, path)?;
    Ok(Call::Truncate(target, size))
}

// The path argument of a call that has one and nothing else.
fn only_target(alloc: Global, args: &[&str]) -> Result<Target, Errno>
    ensures { Reads (SpellsOneTarget (map (λ t. t.now) args.now)) result }
{
    let [path] = args else {
        return Err(Errno::BadLine);
    };
    target_of(alloc, path)
}

// The path arguments of a call that has two and nothing else. Both words are checked before memory is taken for one.
fn two_targets(alloc: Global, args: &[&str]) -> Result<(Target, Target), Errno>
    ensures { Reads (SpellsTwoTargets (map (λ t. t.now) args.now)) result }
{
    let [first, second] = args else {
        return Err(Errno::BadLine);
    };
    if !Word::fits(second) {
        return Err(Errno::BadLine);
    }
    let first = target_of(alloc, first)?;
    let second = target_by(alloc, second)?;
    Ok((first, second))
}

fn ruleset(args: &[&str]) -> Result<Call, Errno>
    ensures { ReadsCall (codes "ruleset" ∷ map (λ t. t.now) args.now) result }
{
    let [rights] = args else {
        return Err(Errno::BadLine);
    };
    let Some(rights) = Access::parse(rights) else {
        return Err(Errno::BadLine);
    };
    Ok(Call::Ruleset(rights))
}

fn allow(alloc: Global, args: &[&str]) -> Result<Call, Errno>
    ensures { ReadsCall (codes "allow" ∷ map (λ t. t.now) args.now) result }
{
    let [ruleset, path, rights] = args else {
        return Err(Errno::BadLine);
    };
    let Some(ruleset) = number_of(ruleset) else {
        return Err(Errno::BadLine);
    };
    let Some(rights) = Access::parse(rights) else {
        return Err(Errno::BadLine);
    };
    let target = target_of(alloc, path)?;
    Ok(Call::Allow(ruleset, target, rights))
}

fn confine(args: &[&str]) -> Result<Call, Errno>
    ensures { ReadsCall (codes "confine" ∷ map (λ t. t.now) args.now) result }
{
    let [ruleset] = args else {
        return Err(Errno::BadLine);
    };
    let Some(ruleset) = number_of(ruleset) else {
        return Err(Errno::BadLine);
    };
    Ok(Call::Confine(ruleset))
}

fn spawn(args: &[&str]) -> Result<Call, Errno>
    ensures { ReadsCall (codes "spawn" ∷ map (λ t. t.now) args.now) result }
{
    if !args.is_empty() {
        return Err(Errno::BadLine);
    }
    Ok(Call::Spawn)
}

pub(crate) fn call_of(alloc: Global, tokens: &[&str]) -> Result<Call, Errno>
    ensures { ReadsCall (map (λ t. t.now) tokens.now) result }
{
    let [name, args @ ..] = tokens else {
        return Err(Errno::BadLine);
    };
    match *name {
        "make" => make(alloc, args),
        "open" => open(alloc, args),
        "read" => read(args),
        "write" => write(alloc, args),
        "ftruncate" => ftruncate(args),
        "close" => close(args),
        "truncate" => truncate(alloc, args),
        "list" => only_target(alloc, args).map(Call::ReadDir),
        "stat" => only_target(alloc, args).map(Call::Stat),
        "exec" => only_target(alloc, args).map(Call::Exec),
        "unlink" => only_target(alloc, args).map(Call::Unlink),
        "rmdir" => only_target(alloc, args).map(Call::Rmdir),
        "rename" => two_targets(alloc, args).map(|(old, new)| Call::Rename(old, new)),
        "rename_noreplace" => {
            two_targets(alloc, args).map(|(old, new)| Call::RenameNoreplace(old, new))
        }
        "exchange" => two_targets(alloc, args).map(|(old, new)| Call::Exchange(old, new)),
        "link" => two_targets(alloc, args).map(|(old, new)| Call::Link(old, new)),
        "ruleset" => ruleset(args),
        "allow" => allow(alloc, args),
        "confine" => confine(args),
        "spawn" => spawn(args),
        _ => Err(Errno::BadLine),
    }
}

// The client that is named first (by default the first), if it exists, and its call.
fn command_of(alloc: Global, tokens: &[&str], clients: u64) -> Result<(u64, Call), Errno>
    requires { 1 ≤ clients }
    ensures { ReadsBy (λ v. SpellsTokens (map (λ t. t.now) tokens.now) v.0 v.1 × (v.0 ≤ clients))
        (λ v. holds_text v.1 ≡ true) result }
{
    let [first, others @ ..] = tokens else {
        return Err(Errno::BadLine);
    };
    match client_of(first) {
        None => call_of(alloc, tokens).map(|call| (1, call)),
        Some(client) if client <= clients => call_of(alloc, others).map(|call| (client, call)),
        Some(_) => Err(Errno::BadLine),
    }
}

/// Parses a command line. Returns the client that makes the call, numbered from 1, and the call. Errors: BadLine if the
/// line spells no call of one of the `clients` clients; NoMemory if it does and memory ran out for a word or bytes.
pub fn read_command(alloc: Global, line: &[u8], clients: u64) -> Result<(u64, Call), Errno>
    requires { 1 ≤ clients }
    ensures { ReadsBy (λ v. SpellsCommand line.now v.0 v.1 × (v.0 ≤ clients)) (λ v. holds_text v.1 ≡ true) result }
{
    if line.len() > LINE_LIMIT {
        return Err(Errno::BadLine);
    }
    let Some(body) = body_of(line) else {
        return Err(Errno::BadLine);
    };
    let mut tokens = [""; 5];
    let Some(count) = tokens_of(body, &mut tokens) else {
        return Err(Errno::BadLine);
    };
    command_of(alloc, &tokens[..count], clients)
}
