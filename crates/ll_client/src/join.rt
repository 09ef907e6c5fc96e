//! New clients.

ghost use Rattle.std.specs.Prelude.{◌≡◌, ◌≢◌, ℕ, ◌<◌, ◌≤◌, ◌+◌, ◌*◌, [], ◌∷◌, None, length, Err, IfOk, IfErr, OnOk};
ghost use Rattle.std.specs.Prelude.{OnErr};
ghost use Rattle.ll_rights.specs.Map.{get};
ghost use Rattle.ll_seq.specs.declared.call.Call.TheVariants.{Connect};
ghost use Rattle.ll_seq.specs.declared.reply.Reply.TheVariants.{Done, Refused};
ghost use Rattle.ll_client.specs.CallStart.{HasNoPlace};
ghost use Rattle.ll_client.specs.Entries.{AreAccounts, knows, numbered, part_of};
ghost use Rattle.ll_client.specs.Hands.{HasCome};

use crate::account::Account;
use crate::client::Client;
use crate::desk::Desk;
use crate::hand::give_client;
use crate::rider::Rider;
use crate::shape::Shape;
use crate::want::give_wants;
use crate::{Keeper, Tie};
use ll_journal::Journal;
use ll_rights::Errno;

/// Builds the client of a new number, with that number's first passes.
pub(crate) fn newcomer<N: Shape>(
    tie: &Tie<N, Account>,
    keeper: &mut Keeper<N, Account>,
    journal: &Journal,
    number: u64,
    seen: u64,
) -> Client<N>
    requires all { AreAccounts journal.now keeper.old }
    requires came { HasCome journal.now number keeper.old }
    requires seen { seen ≤ length journal.now.world.history }
    ensures all { AreAccounts journal.now keeper.new }
    ensures client { result.rider ≡ knows number (part_of journal.now.world number) [] seen None }
    ensures others { (c : ℕ) → c ≢ number → get keeper.new (3 * c + 1) ≡ get keeper.old (3 * c + 1) }
{
    let pass = give_client(tie, keeper, journal, number, seen);
    let wants = give_wants(tie, keeper, journal, number);
    Client {
        rider: Rider {
            number,
            seen,
            pass,
            wants,
        },
    }
}

impl<N: Shape> Desk<N> {
    ghost use Rattle.ll_journal.specs.Book.{Spares};
    ghost use Rattle.ll_journal.specs.Direct.{TakesSpare};
    ghost use Rattle.ll_laws.specs.World.{World, Joined, Replied, advance, next_number};
    ghost use Rattle.ll_laws.specs.declared.step.Step.TheVariants.{Join};

    /// Adds a client with the next number. The history's new last entry is its connect. Errors: HistoryFull; EMFILE if
    /// as many clients were made as a tree may have; NoMemory.
    pub fn connect(&mut self, tie: &Tie<N, Account>) -> Result<Client<N>, Errno>
        ensures joined { IfOk result (λ client.
            advance self.old.world Join ≡ (Joined client.rider.number, self.new.world)) }
        ensures refused { IfErr result (λ errno. errno ≢ Errno.NoMemory
            → advance self.old.world Join ≡ (Replied (Refused errno), self.old.world)) }
        ensures starved { IfErr result (λ errno. errno ≡ Errno.NoMemory → (after : World)
            × (advance self.old.world Join ≡ (Joined (next_number self.old.world), after))) }
        ensures errors { IfErr result HasNoPlace }
        ensures same { OnErr result (self.new ≡ self.old) }
        ensures spares { Spares self.old self.new [] }
        ensures rest { OnOk result (TakesSpare self.old self.new) }
        ensures client { IfOk result (λ client. client.rider
            ≡ knows client.rider.number (numbered client.rider.seen Connect Done ∷ []) [] client.rider.seen None) }
        ensures seen { IfOk result (λ client. client.rider.seen ≡ length self.new.world.history) }
        ensures some { IfOk result (λ client. 0 < client.rider.seen) }
    {
        let (journal, keeper) = (&mut self.journal, &mut self.keeper);
        let number = match journal.connect() {
            Ok(number) => number,
            Err(errno) => return Err(errno),
        };
        let seen = journal.entries().len() as u64;
        Ok(newcomer(tie, keeper, journal, number, seen))
    }
    /// Adds a client whose connect comes after every entry that `me` knows of, its own included. Errors: those of
    /// `connect`.
    pub fn connect_after(
        &mut self,
        tie: &Tie<N, Account>,
        me: &mut Client<N>,
    ) -> Result<Client<N>, Errno>
        ensures joined { IfOk result (λ client.
            advance self.old.world Join ≡ (Joined client.rider.number, self.new.world)) }
        ensures refused { IfErr result (λ errno. errno ≢ Errno.NoMemory
            → advance self.old.world Join ≡ (Replied (Refused errno), self.old.world)) }
        ensures starved { IfErr result (λ errno. errno ≡ Errno.NoMemory → (after : World)
            × (advance self.old.world Join ≡ (Joined (next_number self.old.world), after))) }
        ensures errors { IfErr result HasNoPlace }
        ensures same { OnErr result (self.new ≡ self.old) }
        ensures spares { Spares self.old self.new [] }
        ensures rest { OnOk result (TakesSpare self.old self.new) }
        ensures client { IfOk result (λ client. client.rider
            ≡ knows client.rider.number (numbered client.rider.seen Connect Done ∷ []) [] client.rider.seen None) }
        ensures after { IfOk result (λ client. me.old.rider.seen < client.rider.seen) }
        ensures mine { me.new.rider ≡ me.old.rider }
    {
        self.learn(tie, &mut me.rider, 0);
        self.connect(tie)
    }
}
