//! A schedule as a source of replies to lines.

use crate::outcome::answer_text;
use crate::schedule::Schedule;
use crate::witness::Witness;
use ll_wire::{Answers, Line};
use std::alloc::AllocError;

impl<W: Witness> Answers for Schedule<W> {
    ghost use Rattle.std.specs.Prelude.{◌≡◌, ◌+◌, ⊤, is_some, suc};
    ghost use Rattle.ll_steps.specs.Pace.{StaysAs, TellsOn, stays, stays_on};

    // The witness sees each line.
    ghost tells = { λ before piece line after.
        TellsOn (before.world, before.pace) piece line (after.world, after.pace)
        × (W.seen after.witness ≡ suc (W.seen before.witness)) };

    ghost goes = { λ before after. StaysAs before.pace after.pace × W.goes before.witness after.witness };

    // Each line adds two.
    ghost used = { λ schedule. W.seen schedule.witness + schedule.pace.lines };

    ghost over = { λ schedule. is_some schedule.pace.halt };

    // This schedule needs no invariant.
    ghost kept = { λ schedule. ⊤ };

    fn answer(&mut self, line: &Line) -> Result<String, AllocError> {
        let answer = self.outcome(line);
        answer_text(self.alloc, self.world.history().entries(), answer)
    }

    fn settle(&mut self) {}

    fn is_over(&self) -> bool {
        self.pace.halt.is_some()
    }

    ghost goes_nowhere = { λ a. (stays a.pace, W.goes_nowhere a.witness) };

    ghost goes_on = { λ a b c first then. (
      stays_on a.pace b.pace c.pace first.0 then.0,
      W.goes_on a.witness b.witness c.witness first.1 then.1,
    ) };
}
