//! Looks at the journal, which change nothing. The result may be stale as soon as the journal's lock is released.

ghost use Rattle.std.specs.Prelude.{◌≡◌, ◌<◌, ◌≤◌, ℕ, length, IfSome, IfNone};
ghost use Rattle.ll_seq.specs.State.{root};
ghost use Rattle.ll_seq.specs.declared.client.Descriptor as descriptor;

use crate::Tie;
use crate::account::Account;
use crate::desk::Desk;
use crate::hand::{give_client, put_slot, take_client, take_slot};
use crate::locked::Locked;
use crate::rider::Rider;
use crate::shape::Shape;
use ll_journal::Next;

impl<N: Shape> Desk<N> {
    ghost use Rattle.ll_journal.specs.Book.{inode_in, slot_of};
    ghost use Rattle.ll_journal.specs.Direct.{IsOpen};
    ghost use Rattle.ll_journal.specs.InWay.{IsFreeFrom, IsInWay};
    ghost use Rattle.ll_journal.specs.NextStep.{CanBeLent, ComesNext, IsNamed};

    /// Returns the slot of the root, the target of a walk's first descent.
    pub fn root_slot(&self) -> u64
        ensures root { inode_in self.now result ≡ root }
        ensures within { result < length self.now.inodes }
    {
        self.journal.root_slot()
    }

    /// Returns the slot of the file that the client has open under this number.
    pub fn file_slot(&self, me: &Rider<N>, number: u64) -> Option<u64>
        ensures some { IfSome result (λ slot. (file : descriptor.Descriptor)
            × IsOpen self.now.world me.now.number number file × (inode_in self.now slot ≡ file.inode)) }
        ensures within { IfSome result (λ slot. slot < length self.now.inodes) }
        ensures none { IfNone result
            ((file : descriptor.Descriptor) → ¬ IsOpen self.now.world me.now.number number file) }
    {
        self.journal.file_slot(me.number(), number)
    }

    /// Returns the next step of the client's walk and the slots that it needs, given the slot of the directory of its
    /// current leg. (Above the root any slot will do. The step may still have to wait for other walks.) Takes passes
    /// back and gives them out again unchanged.
    pub fn next_step(
        &mut self,
        tie: &Tie<N, Account>,
        me: &mut Rider<N>,
        here: &mut Locked<N>,
    ) -> Next
        ensures comes { ComesNext self.old me.old.number here.old.number result }
        ensures slots { CanBeLent self.old result }
        ensures names { IsNamed me.old.doing here.old.held result }
        ensures same { self.new ≡ self.old }
        ensures before { here.old.held ≡ slot_of self.old here.old.number }
        ensures after { here.new ≡ here.old }
        ensures mine { me.new ≡ me.old }
    {
        let (journal, keeper) = (&mut self.journal, &mut self.keeper);
        let (client, seen) = (me.number, me.seen);
        let Locked { number, held, pass } = here;
        take_slot(tie, keeper, journal, *number, held, pass);
        take_client(tie, keeper, journal, client, seen, &mut me.pass);
        let next = journal.next_step(client, *number, held);
        put_slot(tie, keeper, journal, *number, held, pass, client);
        me.pass = give_client(tie, keeper, journal, client, seen);
        next
    }

    /// For a walk at its ends: returns the slot of a node under a last name that another client's walk has marked,
    /// which delays this one's answer. Looks only in the directory of this slot, for each path that ends there. Takes
    /// the slot's pass back and gives it out again unchanged.
    pub fn slot_in_way(
        &mut self,
        tie: &Tie<N, Account>,
        me: &Rider<N>,
        here: &mut Locked<N>,
    ) -> Option<u64>
        ensures some { IfSome result (IsInWay self.old me.now.number) }
        ensures within { IfSome result (λ way. way < length self.old.inodes) }
        ensures none { IfNone result (IsFreeFrom self.old me.now.number here.old.number) }
        ensures same { self.new ≡ self.old }
        ensures before { here.old.held ≡ slot_of self.old here.old.number }
        ensures after { here.new ≡ here.old }
    {
        let (journal, keeper) = (&mut self.journal, &mut self.keeper);
        let client = me.number();
        let Locked { number, held, pass } = here;
        take_slot(tie, keeper, journal, *number, held, pass);
        let way = journal.slot_in_way(client, *number, held);
        put_slot(tie, keeper, journal, *number, held, pass, client);
        way
    }
}
