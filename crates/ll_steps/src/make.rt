//! All steps of one call.

ghost use Rattle.std.specs.Prelude.{◌≡◌, ◌≢◌, ◌<◌, length, IfNone, IfSome};
ghost use Rattle.ll_journal.specs.Steps.{IsInTurn};
ghost use Rattle.ll_steps.specs.CallOutcomes.{Calls, Leads};
ghost use Rattle.ll_steps.specs.Contents.{IsKept};
ghost use Rattle.ll_steps.specs.Headline.{IsLawful};
ghost use Rattle.ll_steps.specs.Left.{StepsOn};

use crate::report::Report;
use crate::slots::Hands;
use crate::walk::{commit_with, descend_between, enter_at, fork_in, restart_with};
use crate::world::World;
use ll_journal::{Journal, Next};
use ll_node::Held;
use ll_seq::Call;

/// The slot of the directory of the walk's current leg, or the root's if it has none.
fn slot_in_turn(journal: &Journal, client: u64) -> u64
    ensures turn { IsInTurn journal.now client result }
    ensures within { result < length journal.now.inodes }
{
    match journal.turn_slot(client) {
        Some(slot) => slot,
        None => journal.root_slot(),
    }
}

/// None if the step was made; otherwise the report that its walk waits.
fn unless_made(outcome: Report) -> Option<Report>
    ensures made { IfNone result (outcome ≢ Report.NotNow) }
    ensures waits { IfSome result (λ told. (told ≡ Report.NotNow) × (outcome ≡ Report.NotNow)) }
{
    if outcome.was_enabled() {
        None
    } else {
        Some(Report::NotNow)
    }
}

/// Makes the next step of the client's walk. None if the walk goes on; otherwise the result of its call, or that it
/// waits.
fn step_on(
    journal: &mut Journal,
    slots: &mut [Held],
    hands: &mut Hands,
    client: u64,
) -> Option<Report>
    requires { IsKept journal.old slots.old }
    ensures steps { StepsOn journal.old.world client result journal.new.world }
    ensures kept { IsKept journal.new slots.new }
{
    let from = slot_in_turn(journal, client);
    let outcome = match journal.next_step(client, from, &slots[from as usize]) {
        Next::Nothing => return Some(Report::NotNow),
        Next::Elsewhere => unreachable!(),
        Next::Commit(needed) => {
            let outcome = commit_with(journal, slots, hands, client, needed.as_slice());
            return Some(outcome);
        }
        Next::Enter(slot) => enter_at(journal, slots, client, slot),
        Next::Descend(on) => { descend_between(journal, slots, client, from, on.slot, Some(on)) }
        Next::Fork => fork_in(journal, slots, client),
        Next::Restart(needed) => restart_with(journal, slots, hands, client, needed.as_slice()),
    };
    unless_made(outcome)
}

impl World {
    /// Makes the next step of the client's walk. None if the walk goes on; otherwise the result of its call, or that it
    /// waits.
    fn go_on(&mut self, client: u64) -> Option<Report>
        ensures { StepsOn self.old client result self.new }
    {
        step_on(&mut self.journal, &mut self.slots, &mut self.hands, client)
    }

    /// Leads the client's walk to its answer, or until it has to wait.
    fn lead(&mut self, client: u64) -> Report
        ensures { Leads client self.old result self.new }
    {
        'steps: loop {
            if let Some(outcome) = self.go_on(client) {
                return outcome;
            }
        }
    }

    /// Makes all steps of a call, up to its reply. Returns NotNow if it may not begin, or if its walk has to wait for
    /// other walks; the walk then stays under way.
    pub fn make(&mut self, client: u64, call: Call) -> Report
        ensures makes { Calls self.old client call result self.new }
        ensures lawful { IsLawful self.new }
    {
        let outcome = self.steps_of(client, call);
        self.by_law();
        outcome
    }

    /// Makes all steps of a call on a descriptor.
    fn steps_on_file(&mut self, client: u64, call: Call) -> Report
        ensures { Calls self.old client call result self.new }
    {
        match self.fd_commit(client, call) {
            Ok(outcome) => outcome,
            Err(call) => match self.start(client, call) {
                Some(outcome) => outcome,
                None => self.lead(client),
            },
        }
    }

    /// Makes all steps of any call. A call on no descriptor skips `steps_on_file`, which would only move it in and out.
    fn steps_of(&mut self, client: u64, call: Call) -> Report
        ensures { Calls self.old client call result self.new }
    {
        match call.descriptor() {
            Some(_) => self.steps_on_file(client, call),
            None => match self.start(client, call) {
                Some(outcome) => outcome,
                None => self.lead(client),
            },
        }
    }
}
