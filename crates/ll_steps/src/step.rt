//! Makes any step, and any list of them.

ghost use Rattle.std.specs.Prelude.{◌≡◌, OnErr, IfOk};
ghost use Rattle.ll_steps.specs.Headline.{IsHeadline, IsLawful};
ghost use Rattle.ll_steps.specs.Makes.{Makes};

use crate::report::Report;
use crate::world::World;
use ll_laws::Step;
use ll_seq::Call;
use std::alloc::AllocError;

/// The report of a call, or NotNow if it was given back.
fn or_not_now(made: Result<Report, Call>) -> Report
    ensures made { IfOk made (λ outcome. result ≡ outcome) }
    ensures back { OnErr made (result ≡ Report.NotNow) }
{
    match made {
        Ok(outcome) => outcome,
        Err(call) => {
            drop(call);
            Report::NotNow
        }
    }
}

impl World {
    /// Does nothing when it runs. Its contract: what holds of every world, after any steps.
    pub(crate) fn by_law(&self)
        ensures { IsLawful self.now }
    {
        let _journal = &self.journal;
    }

    /// Makes one step. If it isn't enabled, nothing changes.
    pub fn step(&mut self, step: Step) -> Report
        ensures makes { Makes self.old step result self.new }
        ensures lawful { IsLawful self.new }
    {
        let outcome = match step {
            Step::Join => self.join(),
            Step::Begin(client, call) => or_not_now(self.begin(client, call)),
            Step::Descend(client) => self.descend(client),
            Step::Fork(client) => self.fork(client),
            Step::Commit(client) => self.commit(client),
            Step::Restart(client) => self.restart(client),
            Step::FdCommit(client, call) => or_not_now(self.fd_commit(client, call)),
            Step::ClientStep(client, call) => or_not_now(self.client_step(client, call)),
        };
        self.by_law();
        outcome
    }

    /// Makes all steps in order. Errors: memory for the reports ran out, and no step was made.
    pub fn run(&mut self, steps: Vec<Step>) -> Result<Vec<Report>, AllocError>
        ensures ran { IfOk result (λ outcomes. IsHeadline self.old steps.items outcomes.items self.new) }
        ensures not_run { OnErr result (self.new ≡ self.old) }
    {
        let mut outcomes = Vec::with_capacity(self.alloc, steps.len())?;
        for step in steps {
            outcomes.push_reserved(self.step(step));
        }
        self.by_law();
        Ok(outcomes)
    }
}
