//! What the program did if it didn't fail.

ghost use Rattle.std.specs.Prelude.{◌≡◌};
ghost use Rattle.ll_program.specs.Failure.{status_by};

use crate::checked::Checked;
use crate::stopped::Stopped;
use ll_audit::Verdict;

#[derive(Debug, Drop)]
pub enum Conclusion {
    /// A script or a schedule ran to its end, or one of clap's texts was printed.
    Done,
    /// A strict run ended before the end of its script, or a strict schedule before its own.
    Stopped(Stopped),
    /// A history was judged.
    Judged(Verdict),
    /// Files were checked, or one of them has a bad line.
    Checked(Checked),
    /// The rights that two policies grant were compared, and differ.
    Differs,
}

impl Conclusion {
    /// Returns the program's exit status.
    pub fn status(&self) -> u8
        ensures { result ≡ status_by self.now }
    {
        match self {
            Conclusion::Done | Conclusion::Judged(Verdict::Legal(_)) => 0,
            Conclusion::Stopped(_) => 3,
            Conclusion::Judged(Verdict::Illegal(_) | Verdict::BadLine(_)) => 3,
            Conclusion::Checked(Checked::Passed) => 0,
            Conclusion::Checked(Checked::Failed) => 3,
            Conclusion::Checked(Checked::BadLine) => 2,
            Conclusion::Differs => 3,
        }
    }
}
