//! Prints why tests that expect a denial pass under a learned profile. No contract says how.

ghost use Rattle.std.specs.Prelude.{◌≡◌, ◌≤◌};
ghost use Rattle.ll_rights.specs.declared.limits.TheConstants.{TREE_NODES};

use crate::check_text::Test;
use crate::lessons::lesson_line;
use crate::untaught::Taught;
use crate::wanted::is_allowed;
use ll_learn::{Basis, Grant, LearnedProfile, Origin, Trial, why_undenied};
use ll_path::Path;
use ll_rights::Right;
use ll_seq::Reply;
use std::alloc::{AllocError, Global};
use std::io::Write;

/// The most tests of all files for which it is said. For each, what the lessons need is gathered again.
pub(crate) const TOLD_TESTS: usize = 20;

/// A profile to be tried on a file, and what it was learned from.
#[derive(Clone, Copy)]
pub(crate) struct Candidate<'a, 'w> {
    pub profile: &'a LearnedProfile,
    pub taught: Taught<'a, 'w>,
    /// The client that the profile is for.
    pub client: u64,
    /// The file's index.
    pub file: usize,
    /// For how many tests more it is said why they aren't denied.
    pub left: usize,
}

/// Why a test isn't denied.
#[derive(Clone, Copy)]
enum Reason<'a> {
    /// A rule on this path grants a right that the call asks. A lesson of this file needs it.
    ByRule {
        path: &'a Path,
        right: Right,
        file: &'a str,
        lesson: &'a Test,
    },
    /// Each layer under which the lessons pass allows the call.
    ByAll,
}

impl Reason<'_> {
    fn text(&self, alloc: Global) -> Result<String, AllocError> {
        match self {
            Reason::ByRule {
                path,
                right,
                file,
                lesson,
            } => {
                let line = lesson_line(alloc, file, lesson)?;
                let (path, right) = (path.as_str(), right.text());
                let line = line.as_str().trim_end();
                format!(in alloc; "granted by {path} {right}, needed by {line}")
            }
            Reason::ByAll => String::from_str(
                alloc,
                "no single layer denies this and lets the others pass",
            ),
        }
    }
}

// Reports whether the test expects a denial, and the call is made without one.
fn is_undenied(test: &Test, reply: &Reply) -> bool {
    test.wanted.is_denial() && is_allowed(reply)
}

// Prints why a test of this file isn't denied.
fn tell_reason<E: Write>(alloc: Global, file: &str, test: &Test, reason: &Reason<'_>, err: &mut E) {
    let line = test.line;
    if let Ok(text) = reason.text(alloc) {
        let text = text.as_str();
        let _ = writeln!(err, "{file}:{line}: {text}");
    }
}

impl<'a, 'w> Candidate<'a, 'w> {
    // Returns why the right is granted.
    fn reason(&self, grant: Grant) -> Option<Reason<'a>> {
        let Origin { history, entry } = grant.needed_by?;
        let profile: &'a LearnedProfile = self.profile;
        let taught: Taught<'a, 'w> = self.taught;
        let rule = profile.rules.get(grant.rule)?;
        let file = taught.lessons.get(history)?;
        let lesson = file.tests.get(entry.checked_sub(1)?)?;
        Some(Reason::ByRule {
            path: &rule.path,
            right: grant.right,
            file: file.name,
            lesson,
        })
    }

    // Prints why the test of this file isn't denied after so many of the file's lessons.
    fn tell_one<E: Write>(
        &self,
        alloc: Global,
        basis: &Basis<'_>,
        lessons: usize,
        test: &Test,
        err: &mut E,
    )
        requires some { 1 ≤ basis.now.header.now.nodes }
        requires most { basis.now.header.now.nodes ≤ TREE_NODES }
    {
        let Some(file) = self.taught.lessons.get(self.file) else {
            return;
        };
        let trial = Trial {
            history: self.file,
            entries: lessons,
            call: &test.call.call,
        };
        let Some(undenied) = why_undenied(alloc, basis, self.profile, &trial) else {
            return;
        };
        for grant in &undenied.grants {
            if let Some(reason) = self.reason(*grant) {
                tell_reason(alloc, file.name, test, &reason, err);
            }
        }
        if undenied.is_by_all {
            tell_reason(alloc, file.name, test, &Reason::ByAll, err);
        }
    }

    /// Returns the same, to be tried on the next file.
    pub fn next(&self) -> Candidate<'a, 'w>
        ensures { result.profile ≡ self.now.profile }
    {
        Candidate {
            profile: self.profile,
            taught: self.taught,
            client: self.client,
            file: self.file.saturating_add(1),
            left: self.left,
        }
    }

    /// Prints why tests of the file that expect a denial aren't denied. It has these tests, with these replies. The
    /// basis is what the profile was learned from.
    pub fn tell<E: Write>(
        &mut self,
        alloc: Global,
        basis: &Basis<'_>,
        tests: &[Test],
        replies: &[Reply],
        err: &mut E,
    )
        requires some { 1 ≤ basis.now.header.now.nodes }
        requires most { basis.now.header.now.nodes ≤ TREE_NODES }
        ensures { self.new.profile ≡ self.old.profile }
    {
        let mut lessons: usize = 0;
        let mut left = self.left;
        for (test, reply) in tests.iter().zip(replies) {
            if is_undenied(test, reply) && 0 < left {
                left = left.saturating_sub(1);
                self.tell_one(alloc, basis, lessons, test, err);
            }
            if !test.wanted.is_denial() {
                lessons = lessons.saturating_add(1);
            }
        }
        self.left = left;
    }
}
