//! ABI levels.

ghost use Rattle.std.specs.Prelude.{◌≡◌, ◌≤◌};
ghost use Rattle.std.specs.Option.{SomeIff};

use std::marker::Model;

/// A Landlock ABI level, 1 to 3. Each level adds rights to the one before. Contracts see its number.
#[derive(Clone, Copy, Debug, PartialEq, Eq)]
pub struct Abi {
    number: u8,
}

impl Model for Abi {
    ghost use Rattle.std.specs.Prelude.{ℕ, ◌≤◌};

    ghost Value = { ℕ };

    ghost view = { λ abi. abi.number };

    ghost invariant = { λ abi. (1 ≤ abi.number) × (abi.number ≤ 3) };

    ghost inverse = { λ number. record { number = number } };
}

impl Abi {
    /// The newest level.
    pub const NEWEST: Abi = Abi { number: 3 };

    /// Returns the level of this number, or None outside 1 to 3.
    pub fn new(number: u64) -> Option<Abi>
        ensures { SomeIff result ((1 ≤ number) × (number ≤ 3)) number }
    {
        match number {
            1..=3 => Some(Abi {
                number: number as u8,
            }),
            _ => None,
        }
    }

    /// Returns the level's number, 1 to 3.
    pub fn number(self) -> u64
        ensures number { result ≡ self }
        ensures first { 1 ≤ result }
        ensures last { result ≤ 3 }
    {
        self.number as u64
    }
}
