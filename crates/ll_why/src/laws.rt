//! A law of policies that don't differ, proved.

ghost use Rattle.ll_why.specs.SameVerdicts.{SameVerdicts};

/// If nothing differs on all paths of a tree, each call of a client gets the same reply under the old layers and under
/// the new ones.
pub fn same_verdicts()
    ensures { SameVerdicts }
{}
