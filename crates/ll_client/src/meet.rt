//! Clients learn which entries exist.

ghost use Rattle.std.specs.Prelude.{◌≡◌, ◌≤◌, length, max};

use crate::Tie;
use crate::account::Account;
use crate::client::Client;
use crate::desk::Desk;
use crate::hand::{give_client, take_client};
use crate::reader::ReadsHistory;
use crate::rider::Rider;
use crate::shape::Shape;

impl<N: Shape> Desk<N> {
    /// The client now knows of all entries up to this one.
    pub(crate) fn learn(&mut self, tie: &Tie<N, Account>, me: &mut Rider<N>, seen: u64)
        requires { seen ≤ length self.old.world.history }
        ensures same { self.new ≡ self.old }
        ensures low { me.old.seen ≤ length self.old.world.history }
        ensures mine { me.new ≡ record me.old { seen = max me.old.seen seen } }
    {
        let (journal, keeper) = (&mut self.journal, &mut self.keeper);
        let number = me.number;
        take_client(tie, keeper, journal, number, me.seen, &mut me.pass);
        me.seen = me.seen.max(seen);
        me.pass = give_client(tie, keeper, journal, number, me.seen);
    }

    /// Each of the two now knows of every entry that either knew of. Nothing else changes.
    pub fn meet(&mut self, tie: &Tie<N, Account>, one: &mut Client<N>, other: &mut Client<N>)
        ensures same { self.new ≡ self.old }
        ensures one { one.new.rider
            ≡ record one.old.rider { seen = max one.old.rider.seen other.old.rider.seen } }
        ensures other { other.new.rider
            ≡ record other.old.rider { seen = max one.old.rider.seen other.old.rider.seen } }
    {
        // Every entry that the first knows of exists.
        self.learn(tie, &mut one.rider, 0);
        self.learn(tie, &mut other.rider, one.rider.seen());
        self.learn(tie, &mut one.rider, other.rider.seen());
    }
    /// The client now knows of all entries made so far. Nothing else changes.
    pub fn catch_up(&mut self, tie: &Tie<N, Account>, me: &mut Client<N>)
        ensures same { self.new ≡ self.old }
        ensures low { me.old.rider.seen ≤ me.new.rider.seen }
        ensures mine { me.new.rider ≡ record me.old.rider { seen = length self.new.world.history } }
    {
        let entries = self.journal.entries().len() as u64;
        self.learn(tie, &mut me.rider, entries);
    }
    /// Lets the reader read the history. It holds every entry that the client knows of. Nothing changes.
    pub fn read_history<V: ReadsHistory>(
        &mut self,
        tie: &Tie<N, Account>,
        me: &mut Client<N>,
        reader: &mut V,
    )
        ensures same { self.new ≡ self.old }
        ensures mine { me.new.rider ≡ me.old.rider }
        ensures known { me.old.rider.seen ≤ length self.old.world.history }
        ensures read { V.reads reader.old self.old.world.history reader.new }
    {
        self.learn(tie, &mut me.rider, 0);
        self.by_law();
        reader.read(self.journal.entries());
    }
}
