//! Tests that fail by a denial, or because none came. No contract says which of them are reported: that helps whoever
//! wrote the test.

ghost use Rattle.std.specs.Prelude.{◌≤◌};
ghost use Rattle.ll_rights.specs.declared.limits.TheConstants.{TREE_NODES};

use crate::check_text::Test;
use crate::policies::FaultyPolicy;
use crate::reporter::{Reporter, command_of};
use crate::section_check::CheckedFile;
use ll_program::Failure;
use ll_rights::Errno;
use ll_seq::{Entry, Reply};
use ll_session::CallReplies;
use ll_wire::Header;

/// A test that fails by a denial, or because none came.
#[derive(Clone, Copy)]
pub struct DeniedTest<'a> {
    /// The test's file, its line there, from 1, and its command.
    pub file: &'a [u8],
    pub line: usize,
    pub command: &'a str,
    /// The history of the file's tree, and the number of the test's entry, from 1.
    pub entries: &'a [Entry],
    pub number: usize,
}

/// Is notified of tests that fail by a denial, or because none came, and of sections' own policies that give no tree.
pub trait Notes {
    /// Reports whether anything is wanted.
    fn are_wanted(&self) -> bool;

    /// This test fails by a denial, or because none came, in a tree created with this header.
    fn of_denied(&mut self, header: &Header, test: &DeniedTest<'_>)
        requires some { 1 ≤ header.now.nodes }
        requires most { header.now.nodes ≤ TREE_NODES };

    /// By this policy no tree is opened for a section that names it, with this failure.
    fn of_own_policy(&mut self, policy: &FaultyPolicy<'_>, failure: &Failure);
}

// Reports whether a call with this reply has an entry in the history.
fn has_entry(reply: &Reply) -> bool {
    !matches!(
        reply,
        Reply::Refused(Errno::HistoryFull | Errno::NoMemory | Errno::BadLine)
    )
}

// Returns how many of the replies are to calls with an entry in the history.
fn entered(replies: &[Reply]) -> usize {
    let mut count: usize = 0;
    for reply in replies {
        if has_entry(reply) {
            count = count.saturating_add(1);
        }
    }
    count
}

// Reports whether layers decide that a test with this reply, which has an entry, fails.
fn is_decided(test: &Test, reply: &Reply) -> bool {
    !test.wanted.is_met(reply) && (reply.is_denial() || test.wanted.is_denial())
}

/// Reports the tests of a file that fail by a denial, or because none came.
pub fn tell_denied<N: Notes>(
    notes: &mut N,
    reporter: &Reporter<'_>,
    header: &Header,
    tests: &[Test],
    checked: &CheckedFile,
)
    requires some { 1 ≤ header.now.nodes }
    requires most { header.now.nodes ≤ TREE_NODES }
{
    let CallReplies::Answered(replies) = &checked.made else {
        return;
    };
    let entries = checked.history.entries();
    // The profile's calls come before those of the tests.
    let mut number = entries.len().saturating_sub(entered(replies.as_slice()));
    for (test, reply) in tests.iter().zip(replies.as_slice()) {
        if !has_entry(reply) {
            continue;
        }
        number = number.saturating_add(1);
        if is_decided(test, reply)
            && let Ok(command) = command_of(reporter.alloc, test)
        {
            let denied = DeniedTest {
                file: reporter.file,
                line: test.line,
                command: command.as_str().trim_end(),
                entries,
                number,
            };
            notes.of_denied(header, &denied);
        }
    }
}
