//! What is printed about a refused profile.

ghost use Rattle.std.specs.Prelude.{◌≡◌, ◌++◌, OnOk};
ghost use Rattle.ll_check.specs.Report.{refused_line};

use crate::reporter::push_label;
use ll_seq::{Call, Entry, Reply};
use ll_wire::{command_text, is_spelled, reply_line, reply_text_behind};
use std::alloc::{AllocError, Global};

/// How many of its profile's calls a client has made: the number of the current layer, from 1, and how many of that
/// layer's rules.
#[derive(Clone, Copy)]
pub struct ProfileProgress {
    layer: u64,
    rules: u64,
}

impl ProfileProgress {
    /// Returns the progress of a client that has connected.
    pub fn at_connect() -> ProfileProgress {
        ProfileProgress { layer: 0, rules: 0 }
    }

    /// Returns the progress after this call, or at another client's connect.
    pub fn after(self, call: &Call) -> ProfileProgress {
        match call {
            Call::Connect => ProfileProgress::at_connect(),
            Call::Ruleset(_) => ProfileProgress {
                layer: self.layer.saturating_add(1),
                rules: 0,
            },
            Call::Allow(_, _, _) => ProfileProgress {
                layer: self.layer,
                rules: self.rules.saturating_add(1),
            },
            _ => self,
        }
    }

    // Returns which rule of which layer the last call is.
    fn place(self, alloc: Global, call: &Call) -> Result<String, AllocError> {
        let ProfileProgress { layer, rules } = self;
        match call {
            Call::Allow(_, _, _) => format!(in alloc; "layer {layer}, rule {rules}"),
            _ => format!(in alloc; "layer {layer}"),
        }
    }
}

// Reports whether the reply is a refusal or a denial.
fn is_refused(reply: &Reply) -> bool {
    matches!(reply, Reply::Refused(_) | Reply::Denied(_))
}

/// Returns the line of a call and its reply. Errors: memory ran out.
pub fn answered_text(alloc: Global, call: &Call, reply: &Reply) -> Result<String, AllocError> {
    let called = match call {
        Call::Connect => String::from_str(alloc, "connect")?,
        _ => {
            is_spelled(call);
            command_text(alloc, 1, call)?
        }
    };
    let mut text = String::from_str(alloc, called.as_str().trim_end())?;
    let reply = reply_text_behind(alloc, " =", reply)?;
    text.push_str(reply.as_str())?;
    Ok(text)
}

/// Returns the line on a profile's call, for a client with this progress: which rule of which layer it is, the call and
/// its reply. Errors: memory ran out.
pub fn profile_call_text(
    alloc: Global,
    progress: ProfileProgress,
    call: &Call,
    reply: &Reply,
) -> Result<String, AllocError> {
    let place = progress.place(alloc, call)?;
    let answered = answered_text(alloc, call, reply)?;
    format!(in alloc; "{place}: {answered}")
}

/// Returns a line on a profile that is refused: at which of its calls, and with which reply. Errors: memory ran out. No
/// contract says how.
pub fn refusal_text(
    alloc: Global,
    entries: &[Entry],
    refusal: &Reply,
) -> Result<String, AllocError> {
    let mut progress = ProfileProgress::at_connect();
    for entry in entries {
        progress = progress.after(&entry.call);
    }
    match entries.last() {
        Some(Entry { call, reply, .. }) if is_refused(reply) => {
            profile_call_text(alloc, progress, call, reply)
        }
        _ => reply_line(alloc, refusal),
    }
}

/// Appends a line on a profile that is refused, behind the names of the file and the section. Errors: memory ran out.
pub(crate) fn push_refusal(
    out: &mut Vec<u8>,
    file: &[u8],
    section: &[u8],
    line: &[u8],
) -> Result<(), AllocError>
    ensures { OnOk result (out.new.items ≡ out.old.items ++ refused_line file.now section.now line.now) }
{
    out.extend_from_slice(file)?;
    out.extend_from_slice(b": ")?;
    push_label(out, section)?;
    out.extend_from_slice(b"profile refused: ")?;
    out.extend_from_slice(line)
}
