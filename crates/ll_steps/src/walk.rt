//! The steps of a walk.

ghost use Rattle.std.specs.Prelude.{◌≡◌, ◌≢◌, ℕ, ◌<◌, ◌≤◌, true, false, Some, IfOk, IfErr, IfSome, OnErr, length};
ghost use Rattle.std.specs.List.{AllByRecursion};
ghost use Rattle.ll_rights.specs.Map.{get};
ghost use Rattle.ll_node.specs.InodeTable.{AreDistinct};
ghost use Rattle.ll_laws.specs.Walk as walks;
ghost use Rattle.ll_seq.specs.State.{root};
ghost use Rattle.ll_journal.specs.Book.{has_mark, inode_in};
ghost use Rattle.ll_journal.specs.WalkEnds.{AreEnough, is_lent};
ghost use Rattle.ll_laws.specs.declared.step.Step.TheVariants as steps;
ghost use Rattle.ll_steps.specs.Contents.{IsHint, IsKept, ended_as, told_as};
ghost use Rattle.ll_journal.specs.Steps.{IsNext, is_at_top};
ghost use Rattle.ll_steps.specs.Makes.{Makes};

use crate::report::Report;
use crate::slots::{Hands, trade};
use crate::world::World;
use ll_journal::{Ending, Journal, Onward, Progress, Station};
use ll_node::Held;
use ll_rights::Errno;
use ll_seq::Call;

/// The report of a step that was lent enough slots.
fn told(outcome: Progress) -> Report
    requires { outcome ≢ Progress.Astray }
    ensures { result ≡ told_as outcome }
{
    match outcome {
        Progress::NotNow => Report::NotNow,
        Progress::Stands(inode) => Report::Stands(inode),
        Progress::Forked => Report::Forked,
        Progress::Restarted => Report::Restarted,
        Progress::Astray => unreachable!(),
    }
}

/// The report of a commit that was lent enough slots. `number` is that of the history's next entry.
fn ended(number: u64, ending: Ending) -> Report
    requires { ending ≢ Ending.Astray }
    ensures { result ≡ ended_as number ending }
{
    match ending {
        Ending::NotNow => Report::NotNow,
        Ending::Replied(_) => Report::Replied(number),
        Ending::HistoryFull => Report::Refused(Errno::HistoryFull),
        Ending::NoMemory => Report::Refused(Errno::NoMemory),
        Ending::Astray => unreachable!(),
    }
}

/// Moves the client's walk from above the root to the root, which is in this slot.
pub(crate) fn enter_at(journal: &mut Journal, slots: &mut [Held], client: u64, slot: u64) -> Report
    requires kept { IsKept journal.old slots.old }
    requires top { is_at_top journal.old.world client ≡ true }
    requires root { inode_in journal.old slot ≡ root }
    requires there { slot < length slots.old }
    ensures makes { Makes journal.old.world (steps.Descend client) result journal.new.world }
    ensures kept { IsKept journal.new slots.new }
{
    let root = &mut slots[slot as usize];
    told(journal.enter(client, slot, root))
}

/// Descends from the directory in slot `from` to the one in a higher slot `to`.
fn descend_forth(
    journal: &mut Journal,
    slots: &mut [Held],
    client: u64,
    from: u64,
    to: u64,
    hint: Option<Onward>,
) -> Report
    requires kept { IsKept journal.old slots.old }
    requires next { IsNext journal.old client from to }
    requires names { IfSome hint (IsHint journal.old client from) }
    requires here { from < length slots.old }
    requires there { to < length slots.old }
    requires later { from < to }
    ensures makes { Makes journal.old.world (steps.Descend client) result journal.new.world }
    ensures kept { IsKept journal.new slots.new }
{
    let (front, back) = slots.split_at_mut(to as usize);
    told(journal.descend(
        client,
        from,
        &mut front[from as usize],
        to,
        &mut back[0],
        hint,
    ))
}

/// Descends from the directory in slot `from` to the one in a lower slot `to`.
fn descend_back(
    journal: &mut Journal,
    slots: &mut [Held],
    client: u64,
    from: u64,
    to: u64,
    hint: Option<Onward>,
) -> Report
    requires kept { IsKept journal.old slots.old }
    requires next { IsNext journal.old client from to }
    requires names { IfSome hint (IsHint journal.old client from) }
    requires here { from < length slots.old }
    requires there { to < length slots.old }
    requires earlier { to < from }
    ensures makes { Makes journal.old.world (steps.Descend client) result journal.new.world }
    ensures kept { IsKept journal.new slots.new }
{
    let (front, back) = slots.split_at_mut(from as usize);
    told(journal.descend(
        client,
        from,
        &mut back[0],
        to,
        &mut front[to as usize],
        hint,
    ))
}

/// Descends from the directory in slot `from` to the one in slot `to`. If there is a hint, its name names its inode.
pub(crate) fn descend_between(
    journal: &mut Journal,
    slots: &mut [Held],
    client: u64,
    from: u64,
    to: u64,
    hint: Option<Onward>,
) -> Report
    requires kept { IsKept journal.old slots.old }
    requires next { IsNext journal.old client from to }
    requires names { IfSome hint (IsHint journal.old client from) }
    requires here { from < length slots.old }
    requires there { to < length slots.old }
    ensures makes { Makes journal.old.world (steps.Descend client) result journal.new.world }
    ensures kept { IsKept journal.new slots.new }
{
    // A directory and its child never share a slot, which is why both can be lent at once.
    if from == to {
        return Report::NotNow;
    }
    if from < to {
        descend_forth(journal, slots, client, from, to, hint)
    } else {
        descend_back(journal, slots, client, from, to, hint)
    }
}

/// Commits the client's walk with these slots. `lent` has room for their contents.
fn commit_lent(
    journal: &mut Journal,
    slots: &mut [Held],
    client: u64,
    numbers: &[u64],
    lent: &mut [Held],
) -> Report
    requires kept { IsKept journal.old slots.old }
    requires same { length lent.old ≡ length numbers.now }
    requires there { AllByRecursion (λ number. number < length slots.old) numbers.now }
    requires distinct { AreDistinct numbers.now }
    requires enough { (walk : walks.Walk) → get journal.old.world.walks client ≡ Some walk → walk.stale ≡ false
        → AreEnough journal.old client walk numbers.now }
    ensures makes { Makes journal.old.world (steps.Commit client) result journal.new.world }
    ensures kept { IsKept journal.new slots.new }
{
    let number = journal.entries().len() as u64;
    trade(slots, numbers, lent);
    let ending = journal.commit(client, numbers, lent);
    trade(slots, numbers, lent);
    ended(number, ending)
}

/// Commits the client's walk with these slots. `hands` has room for their contents.
pub(crate) fn commit_with(
    journal: &mut Journal,
    slots: &mut [Held],
    hands: &mut Hands,
    client: u64,
    numbers: &[u64],
) -> Report
    requires kept { IsKept journal.old slots.old }
    requires few { length numbers.now ≤ 4 }
    requires there { AllByRecursion (λ number. number < length slots.old) numbers.now }
    requires distinct { AreDistinct numbers.now }
    requires enough { (walk : walks.Walk) → get journal.old.world.walks client ≡ Some walk → walk.stale ≡ false
        → AreEnough journal.old client walk numbers.now }
    ensures makes { Makes journal.old.world (steps.Commit client) result journal.new.world }
    ensures kept { IsKept journal.new slots.new }
{
    commit_lent(journal, slots, client, numbers, &mut hands[..numbers.len()])
}

/// Splits the client's walk into one leg for each path.
pub(crate) fn fork_in(journal: &mut Journal, slots: &[Held], client: u64) -> Report
    requires { IsKept journal.old slots.now }
    ensures makes { Makes journal.old.world (steps.Fork client) result journal.new.world }
    ensures kept { IsKept journal.new slots.now }
{
    told(journal.fork(client))
}

/// Restarts the client's stale walk with these slots.
pub(crate) fn restart_with(
    journal: &mut Journal,
    slots: &mut [Held],
    hands: &mut Hands,
    client: u64,
    numbers: &[u64],
) -> Report
    requires kept { IsKept journal.old slots.old }
    requires few { length numbers.now ≤ 3 }
    requires there { AllByRecursion (λ number. number < length slots.old) numbers.now }
    requires distinct { AreDistinct numbers.now }
    requires marked { (inode : ℕ) → is_lent journal.old numbers.now inode ≡ has_mark journal.old.world inode client }
    ensures makes { Makes journal.old.world (steps.Restart client) result journal.new.world }
    ensures kept { IsKept journal.new slots.new }
{
    let lent = &mut hands[..numbers.len()];
    trade(slots, numbers, lent);
    let outcome = journal.restart(client, numbers, lent);
    trade(slots, numbers, lent);
    told(outcome)
}

impl World {
    /// Begins the walk of the client's call. Errors: the call, if it may not begin.
    pub(crate) fn begin(&mut self, client: u64, call: Call) -> Result<Report, Call>
        ensures makes { IfOk result (λ outcome. Makes self.old (steps.Begin client call) outcome self.new) }
        ensures begun { IfOk result (λ outcome. outcome ≡ Report.Begun) }
        ensures not_now { OnErr result (Makes self.old (steps.Begin client call) Report.NotNow self.old) }
        ensures back { IfErr result (λ back. back ≡ call) }
        ensures same { OnErr result (self.new ≡ self.old) }
    {
        self.journal.begin(client, call)?;
        Ok(Report::Begun)
    }

    /// Moves the client's walk from above the root to the root.
    fn enter(&mut self, client: u64) -> Report
        requires { is_at_top self.old client ≡ true }
        ensures { Makes self.old (steps.Descend client) result self.new }
    {
        let slot = self.journal.root_slot();
        enter_at(&mut self.journal, &mut self.slots, client, slot)
    }

    /// Descends by one name.
    pub(crate) fn descend(&mut self, client: u64) -> Report
        ensures { Makes self.old (steps.Descend client) result self.new }
    {
        if self.journal.station(client) == Station::Above {
            return self.enter(client);
        }
        let Some(from) = self.journal.turn_slot(client) else {
            return Report::NotNow;
        };
        let Some(to) = self
            .journal
            .next_slot(client, from, &self.slots[from as usize])
        else {
            return Report::NotNow;
        };
        descend_between(&mut self.journal, &mut self.slots, client, from, to, None)
    }

    /// Splits the client's walk into one leg for each path.
    pub(crate) fn fork(&mut self, client: u64) -> Report
        ensures { Makes self.old (steps.Fork client) result self.new }
    {
        fork_in(&mut self.journal, &self.slots, client)
    }

    /// Commits the client's walk, which answers its call.
    pub(crate) fn commit(&mut self, client: u64) -> Report
        ensures { Makes self.old (steps.Commit client) result self.new }
    {
        let Some(slot) = self.journal.turn_slot(client) else {
            return Report::NotNow;
        };
        let slots = self
            .journal
            .end_slots(client, slot, &self.slots[slot as usize]);
        let numbers = slots.as_slice();
        commit_with(
            &mut self.journal,
            &mut self.slots,
            &mut self.hands,
            client,
            numbers,
        )
    }

    /// Restarts the client's stale walk.
    pub(crate) fn restart(&mut self, client: u64) -> Report
        ensures { Makes self.old (steps.Restart client) result self.new }
    {
        let slots = self.journal.stands_in(client);
        let numbers = slots.as_slice();
        restart_with(
            &mut self.journal,
            &mut self.slots,
            &mut self.hands,
            client,
            numbers,
        )
    }
}
