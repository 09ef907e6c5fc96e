//! The rights that a call needs, as sets.

ghost use Rattle.std.specs.Prelude.{List, [], ◌∷◌, ◌++◌};
ghost use Rattle.ll_decide.specs.Demands.{ask_on, move_on, AreAsks, AreMoves};
ghost use Rattle.ll_decide.specs.Verdict.{Ask, Move, when};

use ll_rights::{Access, Right};

/// The node that a right is needed on, of a call's one or two paths.
#[derive(Clone, Copy)]
pub enum On {
    /// The node at the call's only path, or at the first of two.
    Itself,

    /// The node at the second path.
    Other,

    /// The parent directory of a call's only path.
    Parent,

    /// The parent directory of the first path.
    Left,

    /// The parent directory of the second path.
    Entered,
}

/// The direction of a move: the first path's node moves into the second path's directory, or the reverse.
#[derive(Clone, Copy)]
pub enum Way {
    There,
    Back,
}

/// The rights that a call needs, as one set for each `On`. For each direction of moving, also the rights that apply to
/// the moved node: the empty set if nothing moves that way.
#[derive(Clone, Copy)]
pub struct Demands {
    pub itself: Access,
    pub other: Access,
    pub parent: Access,
    pub left: Access,
    pub entered: Access,
    pub there: Access,
    pub back: Access,
}

impl Demands {
    /// Returns demands that need no right and move nothing.
    pub fn none() -> Demands
        ensures asks { AreAsks result [] }
        ensures moves { AreMoves result [] }
    {
        Demands {
            itself: Access(0),
            other: Access(0),
            parent: Access(0),
            left: Access(0),
            entered: Access(0),
            there: Access(0),
            back: Access(0),
        }
    }

    /// Adds one needed right.
    pub fn ask(self, on: On, right: Right) -> Demands
        ensures asks { (asks : List (Ask On)) → AreAsks self asks → AreAsks result (asks ++ ask_on on right ∷ []) }
        ensures moves { (moves : List (Move On)) → AreMoves self moves → AreMoves result moves }
    {
        let one = right.access();
        match on {
            On::Itself => Demands {
                itself: self.itself.with(one),
                ..self
            },
            On::Other => Demands {
                other: self.other.with(one),
                ..self
            },
            On::Parent => Demands {
                parent: self.parent.with(one),
                ..self
            },
            On::Left => Demands {
                left: self.left.with(one),
                ..self
            },
            On::Entered => Demands {
                entered: self.entered.with(one),
                ..self
            },
        }
    }

    /// Adds one needed right if the test holds.
    pub fn ask_if(self, test: bool, on: On, right: Right) -> Demands
        ensures asks { (asks : List (Ask On)) → AreAsks self asks
            → AreAsks result (asks ++ when test (ask_on on right ∷ [])) }
        ensures moves { (moves : List (Move On)) → AreMoves self moves → AreMoves result moves }
    {
        if test { self.ask(on, right) } else { self }
    }

    /// Adds a moved node, to which these rights apply.
    pub fn moves(self, way: Way, relevant: Access) -> Demands
        ensures asks { (asks : List (Ask On)) → AreAsks self asks → AreAsks result asks }
        ensures moves { (moves : List (Move On)) → AreMoves self moves
            → AreMoves result (moves ++ move_on way relevant.0 ∷ []) }
    {
        match way {
            Way::There => Demands {
                there: self.there.with(relevant),
                ..self
            },
            Way::Back => Demands {
                back: self.back.with(relevant),
                ..self
            },
        }
    }
}
