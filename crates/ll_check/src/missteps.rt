//! What is wrong with a schedule's line that is neither silent nor a test. No contract says what is printed: it helps
//! whoever wrote it.

use crate::bad_lines::{Blame, LinesOf, blame_editor, explain, line_at};
use crate::lines::ended;
use crate::steps::step_of;
use ll_program::body_of;
use std::alloc::{AllocError, Global};

/// What may stand behind the sign `=`.
const OUTCOMES: &str =
    "an outcome is expected: NotNow, begun, at INODE, forked, restarted, client N, \
    or reply and what a file of checks expects";

// Blames the outcome that begins at this place.
fn blame_outcome(place: usize) -> Blame {
    Blame {
        column: place.saturating_add(1),
        expected: OUTCOMES,
        meant: None,
    }
}

// Reports whether the text spells a step. If memory runs out, it doesn't.
fn is_step(alloc: Global, text: &[u8]) -> bool {
    match step_of(alloc, text) {
        Ok(Some(step)) => {
            drop(step);
            true
        }
        Ok(None) | Err(_) => false,
    }
}

// Returns what stands before the sign `=` at this place, if one does.
fn text_before(body: &[u8], place: usize) -> Option<&[u8]> {
    let rest = body.get(place..)?;
    if !rest.starts_with(b" = ") {
        return None;
    }
    body.get(..place)
}

// Returns where a step ends that has the sign `=` behind it, if there is one.
fn end_of_step(alloc: Global, body: &[u8]) -> Option<usize> {
    for place in 0..body.len() {
        if let Some(text) = text_before(body, place)
            && is_step(alloc, text)
        {
            return Some(place);
        }
    }
    None
}

// Returns what stands before the first sign `=`.
fn before_sign(body: &[u8]) -> &[u8] {
    for place in 0..body.len() {
        if let Some(text) = text_before(body, place) {
            return text;
        }
    }
    body
}

/// Returns what is wrong with the line of this number, from 1, where it is neither silent nor a test of a step. Errors:
/// memory ran out.
pub(crate) fn blame_step(
    alloc: Global,
    text: &[u8],
    number: usize,
) -> Result<Option<Blame>, AllocError> {
    let body = body_of(line_at(text, number));
    if let Some(blame) = blame_editor(body, number) {
        return Ok(Some(blame));
    }
    if let Some(place) = end_of_step(alloc, body) {
        return Ok(Some(blame_outcome(place.saturating_add(3))));
    }
    let line = ended(alloc, before_sign(body))?;
    explain(alloc, LinesOf::Schedule, line.as_slice(), 1)
}
