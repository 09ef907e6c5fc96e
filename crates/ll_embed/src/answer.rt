//! Answers, and how they come into the caller's buffer.

ghost use Rattle.std.specs.Prelude.{◌≡◌, length};
ghost use Rattle.ll_embed.specs.Answers.{status_of};
ghost use Rattle.ll_embed.specs.Buffer.{Comes};

use crate::fault::Fault;
use ll_policy::{PlacedFault, policy_faults, read_document, toml_trouble};
use ll_wire::escaped;
use std::alloc::{AllocError, Global};
use toml::Table;

/// The status of an answer that is too long for the buffer.
const TOO_SHORT: u32 = 5;

/// A status and a text.
#[derive(Drop)]
pub struct Answer {
    pub status: u32,
    pub text: Vec<u8>,
}

// Returns what is wrong at this fault, and perhaps what to write in a second line, in printed characters.
fn told_of(alloc: Global, fault: &PlacedFault<'_>) -> Result<String, AllocError> {
    let mut told = escaped(alloc, fault.text(alloc)?.as_bytes())?;
    if let Some(advice) = fault.advice(alloc)? {
        let advice = escaped(alloc, advice.as_bytes())?;
        told.push_str("\n")?;
        told.push_str(advice.as_str())?;
    }
    Ok(told)
}

// Returns what is wrong first with a policy that was read as TOML.
fn first_in(alloc: Global, table: &Table) -> Result<Option<String>, AllocError> {
    let faults = policy_faults(alloc, table)?;
    match faults.first() {
        Some(fault) => Ok(Some(told_of(alloc, fault)?)),
        None => Ok(None),
    }
}

// Returns what is wrong first with a policy.
fn first_fault(alloc: Global, text: &str) -> Result<Option<String>, AllocError> {
    match read_document(alloc, text) {
        Ok(table) => first_in(alloc, &table),
        Err(_) => toml_trouble(alloc, text),
    }
}

// Returns the line on the policy's first fault.
fn policy_line(alloc: Global, policy: &[u8]) -> Result<Vec<u8>, AllocError> {
    let mut line = String::from_str(alloc, "landtree: policy: ")?;
    let told = match str::from_utf8(policy) {
        Ok(text) => first_fault(alloc, text)?,
        Err(_) => None,
    };
    match told {
        Some(told) => line.push_str(told.as_str())?,
        None => line.push_str("the text isn't UTF-8")?,
    }
    line.push_str("\n")?;
    Ok(line.into_bytes())
}

// Returns the reason for people, as long as there is memory.
fn words_of(alloc: Global, fault: Fault, policy: &[u8]) -> Result<Vec<u8>, AllocError> {
    match fault {
        Fault::Policy(_) => policy_line(alloc, policy),
        fault => Vec::from_slice(alloc, fault.words().as_bytes()),
    }
}

impl Answer {
    /// Returns the answer of this fault: its status, and a line for people.
    pub fn of_fault(alloc: Global, fault: Fault, policy: &[u8]) -> Answer
        ensures { result.status ≡ status_of fault }
    {
        let text = match words_of(alloc, fault, policy) {
            Ok(text) => text,
            Err(_) => Vec::new(alloc),
        };
        Answer {
            status: fault.status(),
            text,
        }
    }

    /// Tells the text's length, and writes the text to the buffer if it has room for all of it. Returns the status.
    pub fn put(&self, out: &mut [u8], len: &mut usize) -> u32
        ensures len { len.new ≡ length self.now.text.items }
        ensures comes { Comes self.now.status self.now.text.items out.old out.new result }
    {
        let text: &[u8] = &self.text;
        *len = text.len();
        if text.len() > out.len() {
            return TOO_SHORT;
        }
        out[..text.len()].copy_from_slice(text);
        self.status
    }
}
