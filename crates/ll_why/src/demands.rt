//! The rights that a call needs, without bits that belong to no right.

ghost use Rattle.std.specs.Prelude.{◌≡◌, ◌<◌, ◌^◌, ℕ, List};
ghost use Rattle.ll_rights.specs.Access.{holds};
ghost use Rattle.ll_decide.specs.Demands.{AreAsks, AreMoves};
ghost use Rattle.ll_decide.specs.Verdict.{Ask, Move};
ghost use Rattle.ll_decide.specs.declared.demands.On as asked_on;
ghost use Rattle.ll_why.specs.Reasons.{AreKnown};

use crate::places::both;
use ll_decide::Demands;
use ll_rights::Access;

// Returns those that are rights.
fn known(rights: Access) -> Access
    ensures known { result.0 < 2 ^ 15 }
    ensures rights { (right : ℕ) → right < 15 → holds result.0 right ≡ holds rights.0 right }
{
    both(Access::ALL, rights)
}

/// Returns the demands without bits that belong to no right.
pub(crate) fn known_demands(demands: Demands) -> Demands
    ensures known { AreKnown result }
    ensures asks { (asks : List (Ask asked_on.On)) → AreAsks demands asks → AreAsks result asks }
    ensures moves { (moves : List (Move asked_on.On)) → AreMoves demands moves → AreMoves result moves }
{
    Demands {
        itself: known(demands.itself),
        other: known(demands.other),
        parent: known(demands.parent),
        left: known(demands.left),
        entered: known(demands.entered),
        there: known(demands.there),
        back: known(demands.back),
    }
}
