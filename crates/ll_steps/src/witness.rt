//! Who sees a schedule being made.

ghost use Rattle.std.specs.Prelude.{◌≡◌, ◌<◌, ◌^◌, ℕ, suc};

use crate::{Report, World};
use ll_rights::Errno;
use ll_wire::{Line, ScheduleLine};

/// Sees each line of a schedule before and after it is made. Changes nothing in the world.
pub trait Witness: Drop {
    /// How many lines it has seen.
    ghost seen: { Self → ℕ };

    /// The relation of its state before any number of lines, and after.
    ghost goes: { Self → Self → Type 0 };

    /// Sees what a line asks for, and the world before it. A line that spells nothing asks for nothing.
    fn expect(&mut self, world: &World, asked: &ScheduleLine)
        ensures seen { seen self.new ≡ seen self.old }
        ensures goes { goes self.old self.new };

    /// Sees a line, its outcome or why it wasn't read, and the world after it.
    fn see(&mut self, world: &World, line: &Line, answer: Result<Report, Errno>)
        requires { seen self.old < 2 ^ 63 }
        ensures seen { seen self.new ≡ suc (seen self.old) }
        ensures goes { goes self.old self.new };

    /// Sees the world after the last line.
    fn leave(&mut self, world: &World)
        ensures seen { seen self.new ≡ seen self.old }
        ensures goes { goes self.old self.new };

    ghost goes_nowhere: { (a : Self) → goes a a };

    ghost goes_on: { (a b c : Self) → goes a b → goes b c → goes a c };
}
