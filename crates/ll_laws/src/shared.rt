//! Laws of a tree that many clients share, each proved.

ghost use Rattle.ll_laws.specs.Commits.{BlockedAreRefused, EndsAreReached};
ghost use Rattle.ll_laws.specs.NoGain.{GainsNothing};
ghost use Rattle.ll_laws.specs.Withheld.{Withholds};
ghost use Rattle.ll_laws.specs.Growth.{HistoryGrows, OfBoth};
ghost use Rattle.ll_laws.specs.Sound.{EndsKeepSound, NewAreSound, SoundAreLegal, StepsKeepSound, StepsLeadOn};
ghost use Rattle.ll_laws.specs.Walks.{AfterSteps, AreApart, AreFew, AreValid, GateIsHeld, HistoryIsLegal};

/// Whatever steps are made, in whatever order, the history is legal for the sequential tree.
pub fn history_is_legal()
    ensures { HistoryIsLegal }
{}

/// What a walk has found holds in the tree as long as none of its directories was moved since.
pub fn walks_are_valid()
    ensures { AfterSteps AreValid }
{}

/// No directory carries two marks.
pub fn marks_are_apart()
    ensures { AfterSteps AreApart }
{}

/// No walk starts more than four times.
pub fn starts_are_few()
    ensures { AfterSteps AreFew }
{}

/// Neither a walk that holds the move gate nor a walk on its fourth start ever becomes stale.
pub fn gate_holder_is_never_stale()
    ensures { AfterSteps GateIsHeld }
{}

/// A walk at its ends is in the directories of its call's last names.
pub fn ends_are_reached()
    ensures { EndsAreReached }
{}

/// A walk that can't go on is refused because of the name that blocks it.
pub fn blocked_are_refused()
    ensures { BlockedAreRefused }
{}

/// A history only grows, and never exceeds its limit.
pub fn history_grows()
    ensures { HistoryGrows }
{}

/// `reach_never_grows`, between any two worlds of one run.
pub fn worlds_never_gain()
    ensures { OfBoth GainsNothing }
{}

/// `bytes_stay_withheld`, between any two worlds of one run.
pub fn worlds_withhold()
    ensures { OfBoth Withholds }
{}

/// A new world is sound, each step keeps a world sound, and so does ending a walk without an answer.
pub fn steps_keep_worlds_sound()
    ensures new { NewAreSound }
    ensures steps { StepsKeepSound }
    ensures ends { EndsKeepSound }
{}

/// A sound world has a legal history, the tree after it, and walks that are valid in that tree.
pub fn sound_worlds_are_legal()
    ensures { SoundAreLegal }
{}

/// A step only appends to the history, within its limit. The tree's rules and its limit of nodes stay the same.
pub fn steps_lead_on()
    ensures { StepsLeadOn }
{}
