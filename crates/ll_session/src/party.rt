//! All clients of a shared tree, with one owner.

ghost use Rattle.std.specs.Prelude.{◌≡◌, ℕ, ◌+◌, ◌∷◌, ◌++◌, ◌<◌, ◌≤◌, ◌↔◌, [], IsTrue, List, None, IfErr, IfOk};
ghost use Rattle.std.specs.Prelude.{OnErr, OnOk, false, length, map};
ghost use Rattle.ll_rights.specs.declared.limits.TheConstants.{TREE_CLIENTS};
ghost use Rattle.ll_seq.specs.History.{IsLegal, is_connect};
ghost use Rattle.ll_seq.specs.State.{start};
ghost use Rattle.ll_seq.specs.declared.reply.Entry.{Entry};
ghost use Rattle.ll_seq.specs.declared.call.Call.TheVariants as calls;
ghost use Rattle.ll_seq.specs.declared.reply.Reply.TheVariants as replies;
ghost use Rattle.ll_journal.specs.declared.direct.Made.{Made};
ghost use Rattle.ll_client.specs.Closed.{IsClosed};
ghost use Rattle.ll_client.specs.CallStart.{HasNoPlace, is_at_full};
ghost use Rattle.ll_client.specs.Entries.{knows, numbered};
ghost use Rattle.ll_client.specs.Replies.{success};
ghost use Rattle.ll_session.specs.Between.{Leads};
ghost use Rattle.ll_session.specs.PartySession.{Session, Connects, joined};
ghost use Rattle.ll_session.specs.Talk.{Asks, AsksFor, IsMet, Looks, reply_of, seen_by};

use crate::clients::{close_all, meet_all, reply_to};
use crate::nowhere::dead_end;
use ll_calls::{Gate, ReadsHistory, Tree};
use ll_client::{Client, Shape};
use ll_rights::Errno;
use ll_rights::limits::TREE_CLIENTS;
use ll_seq::{Call, History, Reply};
use std::alloc::{AllocError, Global};
use std::marker::Model;
use std::sync::Wait;

/// All clients of one tree, in the order in which they came. They make their calls one after the other. Each meets the
/// others first, so its entry comes after all of theirs.
pub struct Party<N: Shape> {
    clients: Vec<Client<N>>,
    limit: u64,
    /// The place of a client that knows of all entries that any of them knows of.
    last: usize,
    ghost limit_is: { limit ≡ N.limit },
}

impl<N: Shape> Model for Party<N> {
    ghost use Rattle.std.specs.Prelude.{List, ◌≤◌, map};
    ghost use Rattle.std.specs.Vec.{vec_capacity};
    ghost use Rattle.ll_rights.specs.declared.limits.TheConstants.{TREE_CLIENTS};
    ghost use Rattle.ll_client.specs.Entries.{Knows};
    ghost use Rattle.ll_session.specs.Talk.{IsLast};

    ghost Value = { List Knows };

    ghost view = { λ p. map (λ c. c.rider) p.clients.items };

    ghost invariant = { λ p. IsLast (map (λ c. c.rider) p.clients.items) p.last
        × (TREE_CLIENTS ≤ vec_capacity p.clients) };
}

impl<N: Shape> Party<N> {
    /// Returns a party without clients, for a tree whose history has this limit. Reserves room for all clients that may
    /// come. Errors: memory ran out.
    pub fn new(alloc: Global, limit: u64) -> Result<Party<N>, AllocError>
        requires { limit ≡ N.limit }
        ensures { IfOk result (λ party. party ≡ []) }
    {
        let clients = Vec::with_capacity(alloc, TREE_CLIENTS)?;
        Ok(Party {
            clients,
            limit,
            last: 0,
        })
    }

    /// Returns the number of clients.
    pub fn len(&self) -> u64
        ensures { result ≡ length self.now }
    {
        self.clients.len() as u64
    }

    /// Lets the last client, if there is one, know of all entries made so far.
    fn catch_up<R: Wait, G: Gate<N>>(&mut self, rt: &R, tree: &Tree<N, G>)
        ensures looks { Looks self.old self.new }
    {
        if !self.clients.is_empty() {
            tree.catch_up(rt, &mut self.clients[self.last]);
        }
    }

    /// Lets the reader read the history as it is at one point, with every entry that any of the clients knows of.
    pub fn read_history<R: Wait, G: Gate<N>, V: ReadsHistory>(
        &mut self,
        rt: &R,
        tree: &Tree<N, G>,
        reader: &mut V,
    )
        requires { 0 < length self.old }
        ensures same { self.new ≡ self.old }
        ensures read { (history : List Entry) × (seen_by self.old ≤ length history)
            × V.reads reader.old history reader.new
            × ((room : ℕ) → N.slots ≡ room + TREE_CLIENTS → IsLegal (start N.rules room) history) }
    {
        tree.read_history(rt, &mut self.clients[self.last], reader);
    }

    /// Returns the number of the last entry that any of them knows of.
    fn seen(&self) -> u64
        ensures { result ≡ seen_by self.now }
    {
        if self.clients.is_empty() {
            return 0;
        }
        self.clients[self.last].seen()
    }

    /// Reports whether the history is full, which one of the clients then knows.
    pub fn is_full<R: Wait, G: Gate<N>>(&mut self, rt: &R, tree: &Tree<N, G>) -> bool
        ensures looks { Looks self.old self.new }
        ensures full { IsTrue result ↔ (N.limit ≤ seen_by self.new) }
        ensures count { length self.new ≡ length self.old }
    {
        self.catch_up(rt, tree);
        self.limit <= self.seen()
    }

    /// Creates a client, with an entry after all that any of them knows of. It isn't in the party yet.
    fn connect<R: Wait, G: Gate<N>>(
        &mut self,
        rt: &R,
        tree: &Tree<N, G>,
    ) -> Result<Client<N>, Errno>
        ensures client { IfOk result (λ client. client.rider
            ≡ knows client.rider.number (numbered client.rider.seen calls.Connect replies.Done ∷ []) []
            client.rider.seen None) }
        ensures after { IfOk result (λ client. seen_by self.old < client.rider.seen) }
        ensures errors { IfErr result HasNoPlace }
        ensures same { is_at_full result ≡ false → self.new ≡ self.old }
        ensures looks { Looks self.old self.new }
        ensures count { length self.new ≡ length self.old }
    {
        if self.clients.is_empty() {
            return tree.connect(rt);
        }
        tree.connect_after(rt, &mut self.clients[self.last])
    }

    /// Appends a client that knows of all that any of them knows of. There is room for as many as a tree may have.
    pub fn add<R: Wait>(&mut self, rt: &R, client: Client<N>)
        requires { seen_by self.old ≤ client.rider.seen }
        ensures { self.new ≡ self.old ++ client.rider ∷ [] }
    {
        if self.clients.len() >= TREE_CLIENTS {
            dead_end(rt);
            unreachable!()
        }
        self.last = self.clients.len();
        self.clients.push_reserved(client);
    }

    /// Adds the next client. Errors: HistoryFull; EMFILE if a tree may have no more; NoMemory.
    pub fn join<R: Wait, G: Gate<N>>(&mut self, rt: &R, tree: &Tree<N, G>) -> Result<(), Errno>
        ensures ok { OnOk result ((room : ℕ) → Leads N.rules room N.limit self.old self.new
            (λ s t. (mid : Session) × Connects s replies.Done mid × (joined s mid ≡ t))) }
        ensures err { IfErr result (λ errno. (room : ℕ) → Leads N.rules room N.limit self.old self.new
            (λ s t. ((mid : Session) × Connects s (replies.Refused errno) mid) × (t ≡ s))) }
        ensures errors { IfErr result HasNoPlace }
        ensures came { OnOk result (length self.new ≡ length self.old + 1) }
        ensures still { OnErr result (length self.new ≡ length self.old) }
    {
        for _ in rt.forever() {
            if self.is_full(rt, tree) {
                return Err(Errno::HistoryFull);
            }
            if self.len() >= TREE_CLIENTS as u64 {
                return Err(Errno::EMFILE);
            }
            match self.connect(rt, tree) {
                Ok(client) => {
                    self.add(rt, client);
                    return Ok(());
                }
                Err(Errno::NoMemory) => return Err(Errno::NoMemory),
                Err(_) => {}
            }
        }
        unreachable!()
    }

    /// Lets the client at this place meet the last one, and so all of them.
    fn meet<R: Wait, G: Gate<N>>(&mut self, rt: &R, tree: &Tree<N, G>, place: usize)
        requires { place < length self.old }
        ensures { IsMet self.old place self.new }
    {
        meet_all(rt, tree, &mut self.clients, self.last, place);
    }

    /// Makes a call of the client at this place, which has met all of them. The call creates no client.
    fn call<R: Wait, G: Gate<N>>(
        &mut self,
        rt: &R,
        tree: &Tree<N, G>,
        place: usize,
        call: Call,
    ) -> Reply
        requires place { place < length self.old }
        requires call { is_connect call ≡ false }
        requires childless { success call (replies.Spawned 0) ≡ false }
        ensures { (it : Made) × Asks N.limit self.old place call it self.new × (result ≡ reply_of it) }
    {
        self.meet(rt, tree, place);
        let made = tree.call(rt, &mut self.clients[place], call);
        self.last = place;
        reply_to(made)
    }

    /// Spawns a child of the client at this place. The child is the last client.
    fn spawn<R: Wait, G: Gate<N>>(&mut self, rt: &R, tree: &Tree<N, G>, place: usize) -> Reply
        requires place { place < length self.old }
        ensures { AsksFor N.limit self.old place calls.Spawn result self.new }
    {
        self.meet(rt, tree, place);
        let child = tree.spawn(rt, &mut self.clients[place]);
        self.last = place;
        match child {
            Ok(child) => {
                let number = child.rider.number();
                self.add(rt, child);
                Reply::Spawned(number)
            }
            Err(errno) => Reply::Refused(errno),
        }
    }

    /// Makes the call of the client at this place, counted from 0. A client that it spawns is the last one. Returns the
    /// reply.
    pub fn ask<R: Wait, G: Gate<N>>(
        &mut self,
        rt: &R,
        tree: &Tree<N, G>,
        place: usize,
        call: Call,
    ) -> Reply
        requires place { place < length self.old }
        requires call { is_connect call ≡ false }
        ensures asks { AsksFor N.limit self.old place call result self.new }
        ensures count { length self.old ≤ length self.new }
        ensures most { length self.new ≤ length self.old + 1 }
    {
        match call {
            Call::Spawn => self.spawn(rt, tree, place),
            call => self.call(rt, tree, place, call),
        }
    }

    /// Returns the clients, in the order in which they came.
    pub fn into_clients(self) -> Vec<Client<N>>
        ensures { map (λ c. c.rider) result.items ≡ self }
    {
        let Party {
            clients,
            limit: _,
            last: _,
        } = self;
        clients
    }

    /// Closes the tree and returns its history. The tree must have exactly these clients.
    pub fn close<R: Wait, G: Gate<N>>(self, rt: &R, tree: Tree<N, G>) -> History
        ensures closed { (nodes : ℕ) → N.slots ≡ nodes + TREE_CLIENTS
            → IsClosed N.rules nodes N.limit result.entries self }
        ensures limit { result.limit ≡ N.limit }
    {
        let Party {
            clients,
            limit: _,
            last: _,
        } = self;
        close_all(rt, tree, clients)
    }
}
