//! The search for the denial that a call reports: the least of all, by sets of rights.

ghost use Rattle.std.specs.Prelude.{◌≡◌, ◌<◌, ℕ, ◌&&◌, not, true, false, List, [], ◌∷◌, length, slice_get, slice_index};
ghost use Rattle.std.specs.List.{AllByRecursion, range_with_len};
ghost use Rattle.ll_rights.specs.Access.{holds};
ghost use Rattle.ll_rights.specs.Right.{refer};
ghost use Rattle.ll_rules.specs.Layer.{Layer};
ghost use Rattle.ll_decide.specs.Demands.{AreAsks, AreMoves, lacking, gaining};
ghost use Rattle.ll_decide.specs.Judge.{AreGranted, grants_along, grants_by};
ghost use Rattle.ll_decide.specs.Search.{is_in, fails, of_right, of_layer, of_all, by_masks};
ghost use Rattle.ll_decide.specs.Verdict.{Ask, Move, verdict};
ghost use Rattle.ll_decide.specs.declared.demands.On as asked_on;
ghost use Rattle.ll_decide.specs.declared.denial.Place as told_at;
ghost use Rattle.ll_decide.specs.declared.judge.Granted as granted_of;

use crate::demands::Demands;
use crate::denial::{Cause, Denial, Place};
use crate::masks::Masks;
use ll_rights::{Access, Right};

/// For each layer, the rights that it grants on each thing that a call needs rights on. The first path's directory is
/// always one of them, whether or not there is a second path.
#[derive(Clone, Copy)]
pub struct Granted<'a> {
    pub itself: &'a Masks,
    pub other: &'a Masks,
    pub parent: &'a Masks,
    pub entered: &'a Masks,
}

/// Returns the denial that is reported for a call with these demands, or None if every layer allows it.
pub fn least_denial(demands: &Demands, granted: &Granted<'_>) -> Option<Denial>
    requires other { length granted.now.other.now ≡ length granted.now.itself.now }
    requires parent { length granted.now.parent.now ≡ length granted.now.itself.now }
    requires entered { length granted.now.entered.now ≡ length granted.now.itself.now }

    // In terms of the masks passed in. A layer is numbered from 0 here.
    ensures by_masks { (asks : List (Ask asked_on.On)) (moves : List (Move asked_on.On)) → AreAsks demands.now asks
        → AreMoves demands.now moves
        → result ≡ verdict (grants_by granted.now) (range_with_len 0 (length granted.now.itself.now)) asks moves }

    // In terms of the domain's layers, and the inode chains that the masks cover.
    ensures along_chains { (domain : List Layer) (chain : asked_on.On → List ℕ) (asks : List (Ask asked_on.On))
        (moves : List (Move asked_on.On))
        → AreAsks demands.now asks → AreMoves demands.now moves → AreGranted domain chain granted.now
        → result ≡ verdict (grants_along chain) domain asks moves }
{
    granted.least(demands)
}

/// All rights except refer, in the order of their numbers. A missing refer is reported after these.
const BUT_REFER: [Right; 14] = [
    Right::EXECUTE,
    Right::WRITE_FILE,
    Right::READ_FILE,
    Right::READ_DIR,
    Right::REMOVE_DIR,
    Right::REMOVE_FILE,
    Right::MAKE_CHAR,
    Right::MAKE_DIR,
    Right::MAKE_REG,
    Right::MAKE_SOCK,
    Right::MAKE_FIFO,
    Right::MAKE_BLOCK,
    Right::MAKE_SYM,
    Right::TRUNCATE,
];

/// Why a layer denies a right: the right is needed and not granted, or the moved node would gain it.
#[derive(Clone, Copy)]
enum Reason {
    Lacks,
    Gains,
}

/// The rights that one layer denies, as one set for each place.
#[derive(Clone, Copy)]
struct Denied {
    at: Access,
    old: Access,
    new: Access,
}

impl Denied {
    fn is_in(self, right: Right, place: Place) -> bool
        ensures { result ≡ is_in self right place }
    {
        match place {
            Place::At => self.at.holds(right),
            Place::Old => self.old.holds(right),
            Place::New => self.new.holds(right),
        }
    }

    fn is_empty(self) -> bool
        ensures { result ≡ true → (right : ℕ) (place : told_at.Place) → is_in self right place ≡ false }
    {
        self.at.0 == 0 && self.old.0 == 0 && self.new.0 == 0
    }

    fn in_right(self, cause: Cause, layer: u64, right: Right) -> Option<Denial>
        ensures { result ≡ slice_get (of_right cause layer (is_in self) right) 0 }
    {
        for place in Place::ALL {
            if self.is_in(right, place) {
                return Some(Denial {
                    cause,
                    layer,
                    right,
                    place,
                });
            }
        }
        None
    }

    /// Returns the least denied right of these, with the least place, as a denial. Returns None if none of them is
    /// denied.
    fn first(self, cause: Cause, layer: u64, rights: &[Right]) -> Option<Denial>
        ensures { result ≡ slice_get (of_layer cause layer (is_in self) rights.now) 0 }
    {
        if self.is_empty() {
            return None;
        }
        for right in rights {
            if let Some(denial) = self.in_right(cause, layer, *right) {
                return Some(denial);
            }
        }
        None
    }
}

/// Returns those of these rights that the layer doesn't grant.
fn missing(rights: Access, masks: &Masks, layer: usize) -> Access
    requires { layer < length masks.now }
    ensures { (right : ℕ) → right < 15
        → holds result.0 right ≡ (holds rights.0 right && not (holds (slice_index masks.now layer) right)) }
{
    let granted = masks.layer(layer);
    Access(rights.0 & !granted.0)
}

/// Returns those of these rights that the layer grants.
fn had(rights: Access, masks: &Masks, layer: usize) -> Access
    requires { layer < length masks.now }
    ensures { (right : ℕ) → holds result.0 right ≡ (holds rights.0 right && holds (slice_index masks.now layer) right) }
{
    let granted = masks.layer(layer);
    Access(rights.0 & granted.0)
}

/// Reports whether no layer can deny anything for this reason, because no right is needed or nothing moves.
fn demands_nothing(demands: &Demands, reason: Reason) -> bool
    ensures { result ≡ true → (g : granted_of.Granted) (layer right : ℕ) (place : told_at.Place)
        → fails g demands.now reason layer right place ≡ false }
{
    match reason {
        Reason::Lacks => {
            demands.itself.0 == 0
                && demands.other.0 == 0
                && demands.parent.0 == 0
                && demands.left.0 == 0
                && demands.entered.0 == 0
        }
        Reason::Gains => demands.there.0 == 0 && demands.back.0 == 0,
    }
}

/// Reports whether refer is needed on anything.
fn asks_refer(demands: &Demands) -> bool
    ensures { result ≡ false → (g : granted_of.Granted) (layer : ℕ) (place : told_at.Place)
        → fails g demands.now Reason.Lacks layer refer place ≡ false }
{
    demands.itself.holds(Right::REFER)
        || demands.other.holds(Right::REFER)
        || demands.parent.holds(Right::REFER)
        || demands.left.holds(Right::REFER)
        || demands.entered.holds(Right::REFER)
}

impl Granted<'_> {
    fn lacks(&self, demands: &Demands, layer: usize) -> Denied
        requires itself { layer < length self.now.itself.now }
        requires other { layer < length self.now.other.now }
        requires parent { layer < length self.now.parent.now }
        requires entered { layer < length self.now.entered.now }
        ensures { (right : ℕ) (place : told_at.Place) → right < 15
            → is_in result right place ≡ lacking (grants_by self.now layer) demands.now right place }
    {
        let itself = missing(demands.itself, self.itself, layer);
        let other = missing(demands.other, self.other, layer);
        let parent = missing(demands.parent, self.parent, layer);
        let left = missing(demands.left, self.parent, layer);
        let entered = missing(demands.entered, self.entered, layer);
        Denied {
            at: itself.with(parent),
            old: left,
            new: other.with(entered),
        }
    }

    fn gains(&self, demands: &Demands, layer: usize) -> Denied
        requires itself { layer < length self.now.itself.now }
        requires other { layer < length self.now.other.now }
        requires parent { layer < length self.now.parent.now }
        requires entered { layer < length self.now.entered.now }
        ensures { (right : ℕ) (place : told_at.Place) → right < 15
            → is_in result right place ≡ gaining (grants_by self.now layer) demands.now right place }
    {
        let there = had(demands.there, self.entered, layer);
        let back = had(demands.back, self.parent, layer);
        Denied {
            at: Access(0),
            old: missing(back, self.other, layer),
            new: missing(there, self.itself, layer),
        }
    }

    fn denied(&self, demands: &Demands, reason: Reason, layer: usize) -> Denied
        requires itself { layer < length self.now.itself.now }
        requires other { layer < length self.now.other.now }
        requires parent { layer < length self.now.parent.now }
        requires entered { layer < length self.now.entered.now }
        ensures { (right : ℕ) (place : told_at.Place) → right < 15
            → is_in result right place ≡ fails self.now demands.now reason layer right place }
    {
        match reason {
            Reason::Lacks => self.lacks(demands, layer),
            Reason::Gains => self.gains(demands, layer),
        }
    }

    /// Returns the least denial of the oldest layer that denies something.
    fn first(
        &self,
        demands: &Demands,
        reason: Reason,
        cause: Cause,
        rights: &[Right],
    ) -> Option<Denial>
        requires other { length self.now.other.now ≡ length self.now.itself.now }
        requires parent { length self.now.parent.now ≡ length self.now.itself.now }
        requires entered { length self.now.entered.now ≡ length self.now.itself.now }
        requires known { AllByRecursion (λ right. right < 15) rights.now }
        ensures { result ≡ slice_get (of_all self.now demands.now reason cause rights.now) 0 }
    {
        if demands_nothing(demands, reason) {
            return None;
        }
        for layer in 0..self.itself.len() {
            let denied = self.denied(demands, reason, layer);
            if let Some(denial) = denied.first(cause, layer as u64 + 1, rights) {
                return Some(denial);
            }
        }
        None
    }

    /// Returns the denial of the oldest layer that lacks a needed refer.
    fn first_refer(&self, demands: &Demands) -> Option<Denial>
        requires other { length self.now.other.now ≡ length self.now.itself.now }
        requires parent { length self.now.parent.now ≡ length self.now.itself.now }
        requires entered { length self.now.entered.now ≡ length self.now.itself.now }
        ensures { result ≡ slice_get (of_all self.now demands.now Reason.Lacks Cause.EXDEV (refer ∷ [])) 0 }
    {
        if !asks_refer(demands) {
            return None;
        }
        self.first(demands, Reason::Lacks, Cause::EXDEV, &[Right::REFER])
    }

    fn least(&self, demands: &Demands) -> Option<Denial>
        requires other { length self.now.other.now ≡ length self.now.itself.now }
        requires parent { length self.now.parent.now ≡ length self.now.itself.now }
        requires entered { length self.now.entered.now ≡ length self.now.itself.now }
        ensures { result ≡ by_masks self.now demands.now }
    {
        if self.itself.len() == 0 {
            return None;
        }
        if let Some(denial) = self.first(demands, Reason::Lacks, Cause::EACCES, &BUT_REFER) {
            return Some(denial);
        }
        if let Some(denial) = self.first_refer(demands) {
            return Some(denial);
        }
        self.first(demands, Reason::Gains, Cause::EXDEV, &Right::ALL)
    }
}
