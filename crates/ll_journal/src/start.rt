//! The start of a client's call.

ghost use Rattle.std.specs.Prelude.{◌≡◌, []};
ghost use Rattle.ll_journal.specs.Direct.{Starts};

use crate::direct::Made;
use crate::journal::Journal;
use ll_seq::Call;

/// The result of starting a call.
#[derive(Drop)]
pub enum Start {
    /// The call was for the client alone and is done.
    Made(Made),
    /// The call's walk is under way, above the root.
    Begun,
    /// Neither step is enabled. Gives the call back.
    Back(Call),
}

impl Journal {
    ghost use Rattle.ll_journal.specs.Book.{Spares};
    ghost use Rattle.ll_journal.specs.Direct.{LeavesSlots, TakesMemory};

    /// Makes and answers the client's call if it is for the client alone; otherwise begins its walk. Gives the call
    /// back if it may not begin, or is on a descriptor that the client has. Only ruleset, confine and spawn take
    /// memory.
    pub fn start(&mut self, client: u64, call: Call) -> Start
        ensures starts { Starts self.old client call result self.new }
        ensures spares { Spares self.old self.new [] }
        ensures calm { result ≡ Start.Made Made.NoMemory → TakesMemory call }
        ensures rest { LeavesSlots call self.old self.new }
    {
        match self.client_step(client, call) {
            Ok(made) => Start::Made(made),
            Err(call) => match self.set_out(client, call) {
                Ok(()) => Start::Begun,
                Err(call) => Start::Back(call),
            },
        }
    }
}
