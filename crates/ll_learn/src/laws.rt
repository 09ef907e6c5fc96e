//! Laws of layers under which a history passes, each proved.

ghost use Rattle.ll_learn.specs.Bound.{AsksAreRequired, ChargedIsLeast, NeedIsReached, TruncateIsRequired};
ghost use Rattle.ll_learn.specs.Charges.{DraftIsLeast, OutsideIsNone};
ghost use Rattle.ll_learn.specs.Mended.{MendedIsLeast};
ghost use Rattle.ll_learn.specs.PassedCalls.{SameReplies};

/// A layer allows each call of the clients that it is on exactly if the history has the same replies with the layer on
/// the client.
pub fn same_replies()
    ensures { SameReplies }
{}

/// A right that a call needs, of a client that a layer is to be on, is granted on its path by each layer that allows
/// their calls.
pub fn asks_are_required()
    ensures { AsksAreRequired }
{}

/// If a call truncates a descriptor, each such layer grants truncate on the path by which it was opened.
pub fn truncate_is_required()
    ensures { TruncateIsRequired }
{}

/// If no other client moves anything, each layer under which all parts pass reaches at the cut what is required.
pub fn need_is_reached()
    ensures { NeedIsReached }
{}

/// A layer reaches the least if each right of its rules is required on a path, and its inode is the last of the path
/// that may have it.
pub fn charged_is_least()
    ensures { ChargedIsLeast }
{}

/// If histories have no move outside, each move is made by one of the clients that the layer is on.
pub fn moves_are_theirs()
    ensures { OutsideIsNone }
{}

/// A learned layer with all its rights charged reaches no more at the cut than any other layer of its scope under which
/// the same histories pass.
pub fn draft_is_least()
    ensures { DraftIsLeast }
{}

/// A learned layer with mended rights reaches no more either, if nothing is widened. Each directory that nodes move
/// into must have the directories above it that it had at the cut.
pub fn mended_is_least()
    ensures { MendedIsLeast }
{}
