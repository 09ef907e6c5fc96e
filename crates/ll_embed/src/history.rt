//! Saved histories: the verdict on one, and why an entry of one was answered so.

ghost use Rattle.std.specs.Prelude.{◌≡◌};
ghost use Rattle.ll_embed.specs.Answers.{AuditAnswers, EntryAnswers, verdict_status};

use crate::answer::Answer;
use crate::fault::Fault;
use ll_audit::{Untold, Verdict, judge};
use ll_why::{HistoryWhy, WhyStyle, why_entry};
use std::alloc::Global;

fn status_of_verdict(verdict: Verdict) -> u32
    ensures { result ≡ verdict_status verdict }
{
    match verdict {
        Verdict::Legal(_) => 0,
        Verdict::Illegal(_) | Verdict::BadLine(_) => 3,
    }
}

/// Returns the verdict on the history.
pub fn verdict_on(alloc: Global, history: &[u8]) -> Answer
    ensures { AuditAnswers history.now result.status result.text.items }
{
    let Ok(verdict) = judge(alloc, history, &mut Untold) else {
        return Answer::of_fault(alloc, Fault::NoMemory, &[]);
    };
    match verdict.text(alloc) {
        Ok(text) => Answer {
            status: status_of_verdict(verdict),
            text: text.into_bytes(),
        },
        Err(_) => Answer::of_fault(alloc, Fault::NoMemory, &[]),
    }
}

/// Returns why the entry with this number was answered so.
pub fn why(alloc: Global, history: &[u8], number: usize) -> Answer
    ensures { EntryAnswers history.now number result.status result.text.items }
{
    match why_entry(alloc, WhyStyle::Lines, history, number) {
        Ok(HistoryWhy::Told(text)) => Answer {
            status: 0,
            text: text.into_bytes(),
        },
        Ok(HistoryWhy::BadLine(line)) => match Verdict::BadLine(line).text(alloc) {
            Ok(text) => Answer {
                status: 3,
                text: text.into_bytes(),
            },
            Err(_) => Answer::of_fault(alloc, Fault::NoMemory, &[]),
        },
        Ok(HistoryWhy::NoEntry) => Answer::of_fault(alloc, Fault::NoEntry, &[]),
        Err(_) => Answer::of_fault(alloc, Fault::NoMemory, &[]),
    }
}
