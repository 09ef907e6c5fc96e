//! Spawns a client's child.

ghost use Rattle.std.specs.Prelude.{◌≡◌, ◌≢◌, ℕ, ◌≤◌, ◌+◌, ◌*◌, [], None, length, Ok, Err, IfOk, IfErr, OnOk};
ghost use Rattle.ll_rights.specs.Map.{get};
ghost use Rattle.ll_seq.specs.declared.call.Call.TheVariants as calls;
ghost use Rattle.ll_seq.specs.declared.reply.Reply.TheVariants as replies;
ghost use Rattle.ll_client.specs.CallStart.{HasNoPlace, childless};
ghost use Rattle.ll_client.specs.Entries.{AreAccounts, knows, part_of};
ghost use Rattle.ll_client.specs.Hands.{HasCome, child_of, child_told};

use crate::account::Account;
use crate::client::Client;
use crate::desk::Desk;
use crate::direct::{seen_made, step_alone};
use crate::hand::{give_client, take_client};
use crate::join::newcomer;
use crate::shape::Shape;
use crate::{Keeper, Tie};
use ll_journal::{Journal, Made};
use ll_rights::Errno;
use ll_seq::{Call, Reply};

/// The child's number in a spawn's reply. Errors: the refusal.
fn child_in(reply: Reply) -> Result<u64, Errno>
    ensures { result ≡ child_told reply }
{
    match reply {
        Reply::Spawned(number) => Ok(number),
        Reply::Refused(errno) => Err(errno),
        _ => Err(Errno::EMFILE),
    }
}

/// The child's number in the result of a spawn. Errors: the refusal, HistoryFull or NoMemory.
fn child_made(made: Made) -> Result<u64, Errno>
    ensures { result ≡ child_of (Ok made) }
{
    match made {
        Made::Replied(reply) => child_in(reply),
        Made::HistoryFull => Err(Errno::HistoryFull),
        Made::NoMemory => Err(Errno::NoMemory),
    }
}

/// The same where the call may have been given back, which a spawn never is.
fn spawned(made: Result<Made, Call>) -> Result<u64, Errno>
    ensures { result ≡ child_of made }
{
    match made {
        Ok(made) => child_made(made),
        Err(call) => {
            drop(call);
            Err(Errno::EMFILE)
        }
    }
}

/// Builds the child's client if there is a child.
fn child<N: Shape>(
    tie: &Tie<N, Account>,
    keeper: &mut Keeper<N, Account>,
    journal: &Journal,
    told: Result<u64, Errno>,
    seen: u64,
) -> Result<Client<N>, Errno>
    requires all { AreAccounts journal.now keeper.old }
    requires came { IfOk told (λ number. HasCome journal.now number keeper.old) }
    requires seen { seen ≤ length journal.now.world.history }
    ensures all { AreAccounts journal.now keeper.new }
    ensures ok { IfOk result (λ client. told ≡ Ok client.rider.number) }
    ensures client { IfOk result (λ client. client.rider
        ≡ knows client.rider.number (part_of journal.now.world client.rider.number) [] seen None) }
    ensures err { IfErr result (λ errno. told ≡ Err errno) }
    ensures others { (c : ℕ) → told ≢ Ok c → get keeper.new (3 * c + 1) ≡ get keeper.old (3 * c + 1) }
{
    let number = told?;
    Ok(newcomer(tie, keeper, journal, number, seen))
}

impl<N: Shape> Desk<N> {
    ghost use Rattle.ll_journal.specs.Book.{Spares};
    ghost use Rattle.ll_journal.specs.Direct.{Answers, LeavesSlots};
    ghost use Rattle.ll_laws.specs.declared.step.Step.TheVariants.{ClientStep};
    ghost use Rattle.ll_client.specs.Gains.{Gains, Told};

    /// Spawns a child of the client. The child has no entry yet, and knows of all entries up to the spawn. Errors:
    /// EMFILE if as many clients were made as a tree may have; HistoryFull; NoMemory. Only EMFILE has an entry.
    pub fn spawn(&mut self, tie: &Tie<N, Account>, me: &mut Client<N>) -> Result<Client<N>, Errno>
        ensures does { IfOk result (λ child. Answers self.old (ClientStep me.old.rider.number calls.Spawn)
            (Made.Replied (replies.Spawned child.rider.number)) self.new) }
        ensures refused { IfErr result (λ errno. Answers self.old (ClientStep me.old.rider.number calls.Spawn)
            (childless errno) self.new) }
        ensures errors { IfErr result HasNoPlace }
        ensures spares { Spares self.old self.new [] }
        ensures rest { LeavesSlots calls.Spawn self.old self.new }
        ensures mine { IfOk result (λ child.
            Told calls.Spawn (replies.Spawned child.rider.number) me.old.rider me.new.rider) }
        ensures alone { IfErr result (λ errno.
            Gains N.limit calls.Spawn me.old.rider (childless errno) me.new.rider) }
        ensures child { IfOk result (λ child.
            child.rider ≡ knows child.rider.number [] [] me.new.rider.seen None) }
        ensures seen { OnOk result (me.new.rider.seen ≡ length self.new.world.history) }
    {
        let (journal, keeper) = (&mut self.journal, &mut self.keeper);
        let me = &mut me.rider;
        let (number, seen) = (me.number, me.seen);
        take_client(tie, keeper, journal, number, seen, &mut me.pass);
        let made = step_alone(tie, keeper, journal, number, Call::Spawn, &mut me.wants);
        let entries = journal.entries().len() as u64;
        me.seen = seen_made(&made, seen, entries);
        let child = child(tie, keeper, journal, spawned(made), entries);
        me.pass = give_client(tie, keeper, journal, number, me.seen);
        child
    }
}
