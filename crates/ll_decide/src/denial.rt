//! Denials.

ghost use Rattle.std.specs.Prelude.{◌≡◌, ◌≢◌, IfSome, IfNone};
ghost use Rattle.ll_rights.specs.Errno.{errno_text};
ghost use Rattle.ll_decide.specs.Denial.{cause_errno, place_text};
ghost use Rattle.ll_decide.specs.declared.denial.Cause.{Cause};
ghost use Rattle.ll_decide.specs.declared.denial.Place.{Place};

use ll_rights::{Errno, Right};

/// Which of a call's paths a right was needed on: its only path, its old one or its new one. Variants are in the order
/// in which a denial picks them.
#[derive(Clone, Copy, Debug, PartialEq, Eq)]
pub enum Place {
    At,
    Old,
    New,
}

impl Place {
    /// All places, in the order in which a denial picks them.
    pub(crate) const ALL: [Place; 3] = [Place::At, Place::Old, Place::New];

    /// Returns the place's name, as lines spell it.
    pub fn text(self) -> &'static str
        ensures { result.now ≡ place_text self }
    {
        match self {
            Place::At => "at",
            Place::Old => "old",
            Place::New => "new",
        }
    }

    /// Parses a place's name.
    pub fn parse(text: &str) -> Option<Place>
        ensures found { IfSome result (λ place. text.now ≡ place_text place) }
        ensures none { IfNone result ((place : Place) → text.now ≢ place_text place) }
    {
        match text {
            "at" => Some(Place::At),
            "old" => Some(Place::Old),
            "new" => Some(Place::New),
            _ => None,
        }
    }
}

/// Why a layer denies a call. EACCES: a right is missing. EXDEV: refer is missing, or a moved node would gain a right.
#[derive(Clone, Copy, Debug, PartialEq, Eq)]
pub enum Cause {
    EACCES,
    EXDEV,
}

impl Cause {
    /// Returns the errno with the cause's name.
    pub fn errno(self) -> Errno
        ensures { result ≡ cause_errno self }
    {
        match self {
            Cause::EACCES => Errno::EACCES,
            Cause::EXDEV => Errno::EXDEV,
        }
    }

    /// Parses a cause from the name of its errno.
    pub fn parse(text: &str) -> Option<Cause>
        ensures found { IfSome result (λ cause. text.now ≡ errno_text (cause_errno cause)) }
        ensures none { IfNone result ((cause : Cause) → text.now ≢ errno_text (cause_errno cause)) }
    {
        match text {
            "EACCES" => Some(Cause::EACCES),
            "EXDEV" => Some(Cause::EXDEV),
            _ => None,
        }
    }
}

/// A denial by one layer. Layers are numbered from 1, the oldest.
#[derive(Clone, Copy, Debug, PartialEq, Eq)]
pub struct Denial {
    pub cause: Cause,
    pub layer: u64,
    pub right: Right,
    pub place: Place,
}
