//! Reads lines of schedules.

ghost use Rattle.std.specs.Prelude.{◌≡◌, ◌≤◌, true, map, IfSome};
ghost use Rattle.ll_wire.specs.Reads.{ReadsBy};
ghost use Rattle.ll_wire.specs.ScheduleLines.{client_in, SpellsScheduleLine, line_holds_text};
ghost use Rattle.ll_wire.specs.ScheduleParts.{SpellsLineTokens, SpellsBehind};

use crate::read::{LINE_LIMIT, call_of};
use crate::token::{body_of, named_client, tokens_of};
use ll_laws::Step;
use ll_rights::Errno;
use ll_seq::Call;
use std::alloc::Global;

/// A parsed line of a schedule.
#[derive(Drop)]
pub enum ScheduleLine {
    /// Make one step.
    Step(Step),
    /// Make all steps of one call, by the client of this number.
    Do(u64, Call),
}

// Parses the tokens after the client's name: a word alone, or a word and a call.
fn behind_name(alloc: Global, client: u64, tokens: &[&str]) -> Result<ScheduleLine, Errno>
    ensures { ReadsBy (SpellsBehind client (map (λ t. t.now) tokens.now)) (λ v. line_holds_text v ≡ true) result }
{
    let [word, args @ ..] = tokens else {
        return Err(Errno::BadLine);
    };
    match *word {
        "begin" => call_of(alloc, args).map(|call| ScheduleLine::Step(Step::Begin(client, call))),
        "fd" => call_of(alloc, args).map(|call| ScheduleLine::Step(Step::FdCommit(client, call))),
        "step" => {
            call_of(alloc, args).map(|call| ScheduleLine::Step(Step::ClientStep(client, call)))
        }
        "do" => call_of(alloc, args).map(|call| ScheduleLine::Do(client, call)),
        "descend" if args.is_empty() => Ok(ScheduleLine::Step(Step::Descend(client))),
        "fork" if args.is_empty() => Ok(ScheduleLine::Step(Step::Fork(client))),
        "commit" if args.is_empty() => Ok(ScheduleLine::Step(Step::Commit(client))),
        "restart" if args.is_empty() => Ok(ScheduleLine::Step(Step::Restart(client))),
        _ => Err(Errno::BadLine),
    }
}

// Parses a connect, or a line of an existing client.
fn schedule_line_of(alloc: Global, tokens: &[&str], clients: u64) -> Result<ScheduleLine, Errno>
    ensures { ReadsBy (λ v. SpellsLineTokens (map (λ t. t.now) tokens.now) v
        × IfSome (client_in v) (λ client. client ≤ clients)) (λ v. line_holds_text v ≡ true) result }
{
    let [first, others @ ..] = tokens else {
        return Err(Errno::BadLine);
    };
    match named_client(first) {
        Some(client) if client <= clients => behind_name(alloc, client, others),
        Some(_) => Err(Errno::BadLine),
        None if *first == "connect" && others.is_empty() => Ok(ScheduleLine::Step(Step::Join)),
        None => Err(Errno::BadLine),
    }
}

/// Parses a line of a schedule. `clients` is the number of clients so far; the first is 1. Errors: BadLine if it spells
/// nothing of one of them; NoMemory if it spells a call and memory ran out for a word or bytes.
pub fn read_schedule_line(alloc: Global, line: &[u8], clients: u64) -> Result<ScheduleLine, Errno>
    ensures { ReadsBy (λ v. SpellsScheduleLine line.now v × IfSome (client_in v) (λ client. client ≤ clients))
        (λ v. line_holds_text v ≡ true) result }
{
    if line.len() > LINE_LIMIT {
        return Err(Errno::BadLine);
    }
    let Some(body) = body_of(line) else {
        return Err(Errno::BadLine);
    };
    let mut tokens = [""; 6];
    let Some(count) = tokens_of(body, &mut tokens) else {
        return Err(Errno::BadLine);
    };
    schedule_line_of(alloc, &tokens[..count], clients)
}
