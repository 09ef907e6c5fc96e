//! Calls of clients.

ghost use Rattle.std.specs.Prelude.{◌≡◌, ◌⊎◌, ◌<◌, ◌≤◌, ◌+◌, ◌∷◌, [], ℕ, List, None, IfOk, IfErr, IsErr, length, max};
ghost use Rattle.ll_rights.specs.declared.limits.TheConstants.{TREE_CLIENTS};
ghost use Rattle.ll_seq.specs.History.{IsLegal};
ghost use Rattle.ll_seq.specs.State.{start};
ghost use Rattle.ll_seq.specs.declared.reply.Entry.{Entry};
ghost use Rattle.ll_seq.specs.declared.call.Call.TheVariants as calls;
ghost use Rattle.ll_seq.specs.declared.reply.Reply.TheVariants as replies;
ghost use Rattle.ll_laws.specs.World as world;
ghost use Rattle.ll_client.specs.CallStart.{HasNoPlace, childless, knows_full};
ghost use Rattle.ll_client.specs.Entries.{knows, numbered};
ghost use Rattle.ll_client.specs.Gains.{Gains, Told};

use crate::gate::Gate;
use crate::table::Table;
use crate::waiter::Waiter;
use ll_client::{Client, ReadsHistory, Rider, Shape};
use ll_journal::{Made, Start, Unmade};
use ll_rights::Errno;
use ll_seq::Call;
use std::sync::Wait;
use std::thread;

impl<N: Shape, G: Gate<N>> Table<N, G> {
    /// Adds a client. Errors: HistoryFull; EMFILE if as many clients were made as a tree may have; NoMemory.
    pub fn connect<R: Wait>(&self, rt: &R) -> Result<Client<N>, Errno>
        ensures client { IfOk result (λ client. client.rider
            ≡ knows client.rider.number (numbered client.rider.seen calls.Connect replies.Done ∷ []) []
            client.rider.seen None) }
        ensures some { IfOk result (λ client. 0 < client.rider.seen) }
        ensures errors { IfErr result HasNoPlace }
    {
        let (client, spent) = self.section(rt).connect(&self.tie);
        drop(spent);
        client
    }

    /// Adds a client whose entry comes after every entry that `me` knows of. Errors: those of `connect`. If
    /// the history is full, `me` knows of all of it.
    pub fn connect_after<R: Wait>(&self, rt: &R, me: &mut Client<N>) -> Result<Client<N>, Errno>
        ensures client { IfOk result (λ client. client.rider
            ≡ knows client.rider.number (numbered client.rider.seen calls.Connect replies.Done ∷ []) []
            client.rider.seen None) }
        ensures after { IfOk result (λ client. me.old.rider.seen < client.rider.seen) }
        ensures errors { IfErr result HasNoPlace }
        ensures low { me.old.rider.seen ≤ me.new.rider.seen }
        ensures mine { me.new.rider ≡ knows_full N.limit result me.old.rider }
    {
        let (client, spent) = self.section(rt).connect_after(&self.tie, me);
        drop(spent);
        client
    }

    /// Spawns a child of the client. The child knows of all entries up to the spawn. Errors: HistoryFull; EMFILE if as
    /// many clients were made as a tree may have; NoMemory.
    pub fn spawn<R: Wait>(&self, rt: &R, me: &mut Client<N>) -> Result<Client<N>, Errno>
        ensures child { IfOk result (λ child.
            Told calls.Spawn (replies.Spawned child.rider.number) me.old.rider me.new.rider
            × (child.rider ≡ knows child.rider.number [] [] me.new.rider.seen None)) }
        ensures alone { IfErr result (λ errno.
            Gains N.limit calls.Spawn me.old.rider (childless errno) me.new.rider) }
        ensures errors { IfErr result HasNoPlace }
    {
        let (child, spent) = self.section(rt).spawn(&self.tie, me);
        drop(spent);
        child
    }

    /// Makes the client's call on a descriptor that it has. Errors: any other call is given back.
    fn on_file<R: Wait>(
        &self,
        waiter: &mut Waiter<'_, R>,
        me: &mut Rider<N>,
        call: Call,
    ) -> Result<Made, Call>
        requires { me.old.doing ≡ None }
        ensures made { IfOk result (λ made. Gains N.limit call me.old made me.new) }
        ensures back { IfErr result (λ back. (back ≡ call) × (me.new ≡ me.old)) }
    {
        let Some(number) = call.descriptor() else {
            return Err(call);
        };
        let mut call = call;
        for _ in waiter.forever() {
            let (slot, spent) = waiter.section(self).file_slot(me, number);
            drop(spent);
            let Some(slot) = slot else {
                return Err(call);
            };
            let mut file = waiter.locked(self, slot);
            let section = waiter.section(self);
            let (made, spent) = section.fd_commit(&self.tie, me, call, &mut file);
            drop(spent);
            match made {
                Ok(made) => return Ok(made),
                Err(Unmade::NotNow(back)) => return Err(back),
                Err(Unmade::Astray(back)) => call = back,
            }
        }
        unreachable!()
    }

    /// Orders later calls of both clients after every entry that either knows of. Adds no entry, and takes no memory.
    pub fn meet<R: Wait>(&self, rt: &R, one: &mut Client<N>, other: &mut Client<N>)
        ensures one { one.new.rider
            ≡ record one.old.rider { seen = max one.old.rider.seen other.old.rider.seen } }
        ensures other { other.new.rider
            ≡ record other.old.rider { seen = max one.old.rider.seen other.old.rider.seen } }
    {
        drop(self.section(rt).meet(&self.tie, one, other));
    }

    /// Orders the client's later calls after every entry made so far. Adds no entry, and takes no memory.
    pub fn catch_up<R: Wait>(&self, rt: &R, me: &mut Client<N>)
        ensures low { me.old.rider.seen ≤ me.new.rider.seen }
        ensures mine { me.new.rider ≡ record me.old.rider { seen = me.new.rider.seen } }
    {
        drop(self.section(rt).catch_up(&self.tie, me));
    }

    /// Lets the reader read the history as it is at one point, with every entry that the client knows of. Adds no
    /// entry. Holds no lock but the journal's.
    pub fn read_history<R: Wait, V: ReadsHistory>(&self, rt: &R, me: &mut Client<N>, reader: &mut V)
        ensures mine { me.new.rider ≡ me.old.rider }
        ensures read { (history : List Entry) × (me.old.rider.seen ≤ length history)
            × V.reads reader.old history reader.new
            × ((room : ℕ) → N.slots ≡ room + TREE_CLIENTS → IsLegal (start N.rules room) history) }
    {
        drop(self.section(rt).read_history(&self.tie, me, reader));
    }

    /// Makes one try at the client's call. Errors: the call, if another change came between. Then nothing has changed.
    fn try_call<R: Wait>(
        &self,
        waiter: &mut Waiter<'_, R>,
        me: &mut Rider<N>,
        call: Call,
    ) -> Result<Made, Call>
        requires { me.old.doing ≡ None }
        ensures made { IfOk result (λ made. Gains N.limit call me.old made me.new) }
        ensures back { IfErr result (λ back. (back ≡ call) × (me.new ≡ me.old)) }
    {
        let mut moving = None;
        if call.takes_gate() {
            moving = Some(waiter.gate(self));
        }
        let (start, spent) = waiter.section(self).start(&self.tie, me, call);
        drop(spent);
        match start {
            Start::Made(made) => Ok(made),
            Start::Begun => Ok(self.lead(waiter, me, moving)),
            Start::Back(call) => self.on_file(waiter, me, call),
        }
    }

    /// Makes the client's call and returns its result. Errors: connect and spawn are given back; they have functions of
    /// their own.
    pub fn call<R: Wait>(&self, rt: &R, me: &mut Client<N>, call: Call) -> Result<Made, Call>
        ensures made { IfOk result (λ made. Gains N.limit call me.old.rider made me.new.rider) }
        ensures back { IfErr result (λ back. (back ≡ call) × (me.new ≡ me.old)) }
        ensures only { IsErr result → (call ≡ calls.Spawn) ⊎ (call ≡ calls.Connect) }
        ensures spawn { call ≡ calls.Spawn → IsErr result }
        ensures connect { call ≡ calls.Connect → IsErr result }
    {
        if matches!(call, Call::Spawn | Call::Connect) {
            return Err(call);
        }
        let mut waiter = Waiter::new(rt);
        let rider = &mut me.rider;
        let mut call = call;
        for _ in rt.forever() {
            call = match self.try_call(&mut waiter, rider, call) {
                Ok(made) => return Ok(made),
                Err(back) => back,
            };
            thread::yield_now();
        }
        unreachable!()
    }
}
