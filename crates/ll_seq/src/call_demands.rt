//! The rights that each call needs.

ghost use Rattle.std.specs.Prelude.{List, [], ◌∷◌, ◌++◌};
ghost use Rattle.ll_rights.specs.Kind.{make_right};
ghost use Rattle.ll_decide.specs.Demands.{AreAsks, AreMoves, ask_on};
ghost use Rattle.ll_decide.specs.Verdict.{Ask, Move};
ghost use Rattle.ll_decide.specs.declared.demands.On as asked_on;
ghost use Rattle.ll_decide.specs.declared.demands.On.TheVariants.{Entered};
ghost use Rattle.ll_decide.specs.declared.demands.Way.TheVariants.{There, Back};
ghost use Rattle.ll_seq.specs.declared.client.ClientRecord as record_of;
ghost use Rattle.ll_seq.specs.State.{State};
ghost use Rattle.ll_seq.specs.Demanded.{AreDemands, opening_on, refer_on, goes_on};
ghost use Rattle.ll_seq.specs.Demanded.{moving_on, replacing_on, exchange_on};
ghost use Rattle.ll_seq.specs.Passed.{Passed};

use crate::found::Found;
use crate::{Call, Mode};
use ll_decide::{Demands, On, Way};
use ll_rights::{Kind, Right};

fn opening(mode: Mode, exists: bool) -> Demands
    ensures asks { AreAsks result (opening_on mode exists) }
    ensures moves { AreMoves result [] }
{
    Demands::none()
        .ask_if(!exists, On::Parent, Right::MAKE_REG)
        .ask_if(mode.access.reads(), On::Itself, Right::READ_FILE)
        .ask_if(mode.access.writes(), On::Itself, Right::WRITE_FILE)
        .ask_if(mode.truncate && exists, On::Itself, Right::TRUNCATE)
}

/// Adds refer on both directories if they differ.
fn refers(demands: Demands, differ: bool) -> Demands
    ensures asks { (asks : List (Ask asked_on.On)) → AreAsks demands asks → AreAsks result (asks ++ refer_on differ) }
    ensures moves { (moves : List (Move asked_on.On)) → AreMoves demands moves → AreMoves result moves }
{
    if differ {
        demands
            .ask(On::Left, Right::REFER)
            .ask(On::Entered, Right::REFER)
    } else {
        demands
    }
}

/// Adds the move of a node of this kind if the directories differ.
fn goes(demands: Demands, differ: bool, way: Way, kind: Kind) -> Demands
    ensures asks { (asks : List (Ask asked_on.On)) → AreAsks demands asks → AreAsks result asks }
    ensures moves { (moves : List (Move asked_on.On)) → AreMoves demands moves
        → AreMoves result (moves ++ goes_on differ way kind) }
{
    if differ {
        demands.moves(way, kind.relevant())
    } else {
        demands
    }
}

/// Adds the right to remove the node that loses the second name, if there is one.
fn replacing(demands: Demands, replaced: Option<Kind>) -> Demands
    ensures asks { (asks : List (Ask asked_on.On)) → AreAsks demands asks
        → AreAsks result (asks ++ replacing_on replaced) }
    ensures moves { (moves : List (Move asked_on.On)) → AreMoves demands moves → AreMoves result moves }
{
    match replaced {
        None => demands,
        Some(kind) => demands.ask(On::Entered, kind.remove_right()),
    }
}

/// The rights for renaming a node of this kind, which may replace another.
fn renaming(kind: Kind, replaced: Option<Kind>, differ: bool) -> Demands
    ensures asks { AreAsks result (moving_on kind ++ replacing_on replaced ++ refer_on differ) }
    ensures moves { AreMoves result (goes_on differ There kind) }
{
    let both = Demands::none()
        .ask(On::Left, kind.remove_right())
        .ask(On::Entered, kind.make_right());
    let all = replacing(both, replaced);
    goes(refers(all, differ), differ, Way::There, kind)
}

/// The rights for exchanging two nodes of these kinds.
fn exchanging(kind: Kind, other: Kind, differ: bool, back: bool) -> Demands
    ensures asks { AreAsks result (exchange_on kind other ++ refer_on differ) }
    ensures moves { AreMoves result (goes_on differ There kind ++ goes_on back Back other) }
{
    let both = Demands::none()
        .ask(On::Left, kind.remove_right())
        .ask(On::Left, other.make_right())
        .ask(On::Entered, kind.make_right())
        .ask(On::Entered, other.remove_right());
    let there = goes(refers(both, differ), differ, Way::There, kind);
    goes(there, back, Way::Back, other)
}

/// The rights for linking a node of this kind.
fn linking(kind: Kind, differ: bool) -> Demands
    ensures asks { AreAsks result ((ask_on Entered (make_right kind) ∷ []) ++ refer_on differ) }
    ensures moves { AreMoves result (goes_on differ There kind) }
{
    let one = Demands::none().ask(On::Entered, kind.make_right());
    goes(refers(one, differ), differ, Way::There, kind)
}

/// Returns the rights needed for a call that nothing refuses before policy.
pub fn demands_of(call: &Call, found: &Found) -> Demands
    ensures { (s : State) (c : record_of.ClientRecord) → Passed s c call.now found.now → AreDemands s call.now result }
{
    let (old, new) = (&found.first, &found.second);
    let none = Demands::none();
    match call {
        Call::Make(kind, _) => none.ask(On::Parent, kind.make_right()),
        Call::Open(mode, _) => opening(*mode, old.exists()),
        Call::Truncate(_, _) => none.ask(On::Itself, Right::TRUNCATE),
        Call::ReadDir(_) => none.ask(On::Itself, Right::READ_DIR),
        Call::Exec(_) => none
            .ask(On::Itself, Right::EXECUTE)
            .ask(On::Itself, Right::READ_FILE),
        Call::Unlink(_) => none.ask(On::Parent, Right::REMOVE_FILE),
        Call::Rmdir(_) => none.ask(On::Parent, Right::REMOVE_DIR),
        Call::Rename(_, _) => renaming(old.kind(), new.kind_there(), old.is_apart(new)),
        Call::RenameNoreplace(_, _) => renaming(old.kind(), None, old.is_apart(new)),
        Call::Exchange(_, _) => exchanging(
            old.kind(),
            new.kind(),
            old.is_apart(new),
            new.is_apart(old),
        ),
        Call::Link(_, _) => linking(old.kind(), old.is_apart(new)),
        Call::Stat(_) => none,
        Call::Allow(_, _, _) => none,
        Call::Read(_, _, _) => none,
        Call::Write(_, _, _) => none,
        Call::Ftruncate(_, _) => none,
        Call::Close(_) => none,
        Call::Ruleset(_) => none,
        Call::Confine(_) => none,
        Call::Spawn => none,
        Call::Connect => none,
    }
}
