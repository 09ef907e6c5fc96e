//! Laws of checks, each proved.

ghost use Rattle.ll_check.specs.Witness.{TestsPassByEntries};

/// A test that passes, passes by an entry of the legal history of its section's tree, unless it expects BadLine: its
/// client's call was made, and that entry has its reply.
pub fn tests_pass_by_entries()
    ensures { TestsPassByEntries }
{}
