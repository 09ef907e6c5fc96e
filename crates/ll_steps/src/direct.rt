//! Steps of calls that don't walk, and of new clients.

ghost use Rattle.std.specs.Prelude.{◌≡◌, ◌≢◌, IfSome, IfNone, IfOk, IfErr, OnErr};
ghost use Rattle.ll_steps.specs.Contents.{answered_as};
ghost use Rattle.ll_laws.specs.World as world;

use crate::report::Report;
use crate::world::World;
use ll_journal::{Made, Start, Unmade};
use ll_rights::Errno;
use ll_seq::Call;

/// The report of a call without a walk. `number` is that of the history's next entry.
fn answered(number: u64, answer: Made) -> Report
    ensures { result ≡ answered_as number answer }
{
    match answer {
        Made::Replied(_) => Report::Replied(number),
        Made::HistoryFull => Report::Refused(Errno::HistoryFull),
        Made::NoMemory => Report::Refused(Errno::NoMemory),
    }
}

impl World {
    ghost use Rattle.ll_laws.specs.declared.step.Step.TheVariants as steps;
    ghost use Rattle.ll_steps.specs.CallOutcomes.{Calls, Waits};
    ghost use Rattle.ll_steps.specs.Makes.{Makes};

    /// Connects a new client.
    pub(crate) fn join(&mut self) -> Report
        ensures { Makes self.old steps.Join result self.new }
    {
        match self.journal.connect() {
            Ok(number) => Report::Joined(number),
            Err(errno) => Report::Refused(errno),
        }
    }

    /// Makes a call for the client alone. Errors: the call, if it isn't made.
    pub(crate) fn client_step(&mut self, client: u64, call: Call) -> Result<Report, Call>
        ensures makes { IfOk result (λ outcome. Makes self.old (steps.ClientStep client call) outcome self.new) }
        ensures made { IfOk result (λ outcome. outcome ≢ Report.NotNow) }
        ensures not_now { OnErr result (Makes self.old (steps.ClientStep client call) Report.NotNow self.old) }
        ensures back { IfErr result (λ back. back ≡ call) }
        ensures same { OnErr result (self.new ≡ self.old) }
    {
        let number = self.journal.entries().len() as u64;
        match self.journal.client_step(client, call) {
            Ok(answer) => Ok(answered(number, answer)),
            Err(call) => Err(call),
        }
    }

    /// Starts the client's call, which is on no descriptor that it has. Some if that is its result; None if its walk is
    /// under way.
    pub(crate) fn start(&mut self, client: u64, call: Call) -> Option<Report>
        ensures stops { IfSome result (λ outcome.
            Waits self.old (steps.FdCommit client call) → Calls self.old client call outcome self.new) }
        ensures alone { IfNone result (Waits self.old (steps.ClientStep client call)) }
        ensures begins { IfNone result (Makes self.old (steps.Begin client call) Report.Begun self.new) }
    {
        let number = self.journal.entries().len() as u64;
        match self.journal.start(client, call) {
            Start::Made(answer) => return Some(answered(number, answer)),
            Start::Begun => return None,
            Start::Back(call) => drop(call),
        }
        Some(Report::NotNow)
    }

    /// Makes the client's call on a descriptor. Errors: the call, if it isn't made.
    pub(crate) fn fd_commit(&mut self, client: u64, call: Call) -> Result<Report, Call>
        ensures makes { IfOk result (λ outcome. Makes self.old (steps.FdCommit client call) outcome self.new) }
        ensures made { IfOk result (λ outcome. outcome ≢ Report.NotNow) }
        ensures not_now { OnErr result (Makes self.old (steps.FdCommit client call) Report.NotNow self.old) }
        ensures back { IfErr result (λ back. back ≡ call) }
        ensures same { OnErr result (self.new ≡ self.old) }
    {
        let Some(fd) = call.descriptor() else {
            return Err(call);
        };
        let Some(slot) = self.journal.file_slot(client, fd) else {
            return Err(call);
        };
        let number = self.journal.entries().len() as u64;
        let file = &mut self.slots[slot as usize];
        match self.journal.fd_commit(client, call, slot, file) {
            Ok(answer) => Ok(answered(number, answer)),
            Err(Unmade::NotNow(call)) => Err(call),
            Err(Unmade::Astray(_)) => unreachable!(),
        }
    }
}
