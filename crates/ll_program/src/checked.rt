//! The results of checks.

/// The result of a check.
#[derive(Clone, Copy, Debug, PartialEq, Eq)]
pub enum Checked {
    /// Each file has a test, and each test passes.
    Passed,
    /// A test fails, a profile is refused, or a file has no test.
    Failed,
    /// A line of a file is neither silent nor a test, so nothing is run.
    BadLine,
}
