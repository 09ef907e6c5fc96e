//! What holds of every run.

ghost use Rattle.ll_session.specs.Run.{RunsLegally};

/// The entries of a run are a legal history of its tree, and lead to its tree.
pub fn runs_legally()
    ensures { RunsLegally }
{}
