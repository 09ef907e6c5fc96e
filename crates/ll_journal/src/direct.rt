//! Calls that don't walk: those on the client's record, and new clients.

ghost use Rattle.std.specs.Prelude.{◌≡◌, ◌≢◌, ℕ, ◌+◌, ◌<◌, [], ◌∷◌, ◌++◌, None, length, Ok, Err, IfOk, IfErr, OnOk};
ghost use Rattle.std.specs.Prelude.{OnErr};
ghost use Rattle.ll_laws.specs.World as world;
ghost use Rattle.ll_laws.specs.declared.step.Step.TheVariants as steps;
ghost use Rattle.ll_seq.specs.declared.reply.Reply.TheVariants as replies;
ghost use Rattle.ll_journal.specs.Own.{Spawns, SpawnTells};
ghost use Rattle.ll_rights.specs.declared.limits.TheConstants.{TREE_CLIENTS};

use crate::alone::Own;
use crate::journal::{Journal, place_of};
use crate::pair::ReplyPair;
use crate::seat::Seat;
use ll_node::Inodes;
use ll_rights::Errno;
use ll_rights::limits::TREE_CLIENTS;
use ll_seq::{Call, ClientRecord, Entry, History, Reply, Rules};
use std::alloc::{AllocError, Global};

/// The result of a call that doesn't walk.
#[derive(Drop)]
pub enum Made {
    /// The reply is in the history's last entry.
    Replied(Reply),
    /// The history is full. Nothing has changed.
    HistoryFull,
    /// Memory ran out. Nothing has changed.
    NoMemory,
}

/// Adds a client with the next number, a seat, and the last free slot as its spare.
fn seat_client(
    seats: &mut Vec<Seat>,
    table: &mut Inodes,
    alloc: Global,
    client: ClientRecord,
) -> Result<u64, AllocError>
    requires { 0 < length table.old.free }
    ensures number { IfOk result (λ number. number ≡ length seats.old.items + 1) }
    ensures ok { OnOk result ((spare : ℕ) × (table.old.free ≡ table.new.free ++ spare ∷ [])
        × (seats.new.items ≡ seats.old.items ++ record { client = client; spare = spare; walk = None } ∷ [])) }
    ensures rest { table.new ≡ record table.old { free = table.new.free } }
    ensures err { OnErr result ((seats.new.items ≡ seats.old.items) × (table.new ≡ table.old)) }
{
    let spare = table.last_free();
    let seat = Seat::new(alloc, client, spare)?;
    seats.push(seat)?;
    table.take_free();
    Ok(seats.len() as u64)
}

/// Spawns a child of the client at this index. Returns its number. Errors: memory ran out, and nothing has changed.
fn spawn(
    seats: &mut Vec<Seat>,
    table: &mut Inodes,
    alloc: Global,
    rules: Rules,
    place: usize,
) -> Result<u64, AllocError>
    requires place { place < length seats.old.items }
    requires free { 0 < length table.old.free }
    ensures ok { IfOk result (λ number. Spawns rules place
        seats.old.items table.old number seats.new.items table.new) }
    ensures err { OnErr result
        ((seats.new.items ≡ seats.old.items) × (table.new ≡ table.old)) }
{
    let child = seats[place].child(alloc, rules)?;
    if !table.have_room(&child.descriptors) {
        return Err(AllocError);
    }
    let number = seat_client(seats, table, alloc, child)?;
    table.open_all(seats[seats.len() - 1].descriptors());
    Ok(number)
}

/// Spawns a child and builds the reply. Errors: memory ran out, and nothing has changed.
fn answer_spawn(
    seats: &mut Vec<Seat>,
    table: &mut Inodes,
    alloc: Global,
    rules: Rules,
    place: usize,
) -> Result<ReplyPair, AllocError>
    requires place { place < length seats.old.items }
    requires free { length seats.old.items < TREE_CLIENTS → 0 < length table.old.free }
    ensures ok { IfOk result (SpawnTells rules place
        seats.old.items table.old seats.new.items table.new) }
    ensures err { OnErr result
        ((seats.new.items ≡ seats.old.items) × (table.new ≡ table.old)) }
    ensures few { OnErr result (length seats.old.items < TREE_CLIENTS) }
{
    if TREE_CLIENTS <= seats.len() {
        return ReplyPair::new(alloc, Reply::Refused(Errno::EMFILE));
    }
    let number = spawn(seats, table, alloc, rules, place)?;
    ReplyPair::new(alloc, Reply::Spawned(number))
}

/// Appends the call and its reply to the history, unless memory ran out.
pub(crate) fn enter(
    history: &mut History,
    client: u64,
    call: Call,
    told: Result<ReplyPair, AllocError>,
) -> Made
    requires { length history.old.entries < history.old.limit }
    ensures ok { IfOk told (λ reply. (result ≡ Made.Replied reply)
        × (history.new ≡ record history.old {
          entries = history.old.entries ++ record { client = client; call = call; reply = reply } ∷ [];
        })) }
    ensures err { OnErr told ((result ≡ Made.NoMemory) × (history.new ≡ history.old)) }
{
    match told {
        Ok(told) => {
            let (reply, copy) = told.split();
            history.push(Entry {
                client,
                call,
                reply,
            });
            Made::Replied(copy)
        }
        Err(_) => {
            drop(call);
            Made::NoMemory
        }
    }
}

impl Journal {
    ghost use Rattle.ll_rights.specs.Map.{len};
    ghost use Rattle.ll_journal.specs.Book.{Spares};
    ghost use Rattle.ll_journal.specs.Direct.{Answers, LeavesSlots, TakesMemory, TakesSpare};

    /// Returns the entries of the history, in order.
    pub fn entries(&self) -> &[Entry]
        ensures { result.now ≡ self.now.world.history }
    {
        self.history.entries()
    }

    /// Returns the history of all calls.
    pub fn history(&self) -> &History
        ensures { result.now ≡ record { entries = self.now.world.history; limit = self.now.world.limit } }
    {
        &self.history
    }

    /// Returns the history and drops everything else.
    pub fn into_history(self) -> History
        ensures { result ≡ record { entries = self.world.history; limit = self.world.limit } }
    {
        let Journal { history, .. } = self;
        history
    }

    /// Returns the number of clients. They are numbered from 1.
    pub fn clients(&self) -> u64
        ensures { result ≡ len (world.shown self.now.world).clients }
    {
        self.seats.len() as u64
    }

    /// Adds a client with the next number. Errors: HistoryFull; EMFILE if as many clients were made as a tree may have;
    /// NoMemory.
    pub fn connect(&mut self) -> Result<u64, Errno>
        ensures joined { IfOk result (λ number.
            world.advance self.old.world steps.Join ≡ (world.Joined number, self.new.world)) }
        ensures refused { IfErr result (λ errno. errno ≢ Errno.NoMemory
            → world.advance self.old.world steps.Join ≡ (world.Replied (replies.Refused errno), self.old.world)) }
        ensures starved { result ≡ Err Errno.NoMemory → (after : world.World)
            × (world.advance self.old.world steps.Join ≡ (world.Joined (world.next_number self.old.world), after)) }
        ensures same { OnErr result (self.new ≡ self.old) }
        ensures spares { Spares self.old self.new [] }
        ensures rest { OnOk result (TakesSpare self.old self.new) }
    {
        if self.history.is_full() {
            return Err(Errno::HistoryFull);
        }
        if TREE_CLIENTS <= self.seats.len() {
            return Err(Errno::EMFILE);
        }
        let client = ClientRecord::new(self.alloc);
        let Ok(number) = seat_client(&mut self.seats, &mut self.table, self.alloc, client) else {
            return Err(Errno::NoMemory);
        };
        self.history.push(Entry {
            client: number,
            call: Call::Connect,
            reply: Reply::Done,
        });
        Ok(number)
    }

    /// Makes and answers a call for the client alone. Errors: the call, if it isn't one, or if the client doesn't exist
    /// or has a walk under way. Only ruleset, confine and spawn take memory.
    #[inline(always)]
    pub fn client_step(&mut self, client: u64, call: Call) -> Result<Made, Call>
        ensures does { IfOk result (λ answer. Answers self.old (steps.ClientStep client call) answer self.new) }
        ensures not_now { OnErr result
            (world.advance self.old.world (steps.ClientStep client call) ≡ (world.NotNow, self.old.world)) }
        ensures back { IfErr result (λ back. back ≡ call) }
        ensures same { OnErr result (self.new ≡ self.old) }
        ensures spares { Spares self.old self.new [] }
        ensures calm { result ≡ Ok Made.NoMemory → TakesMemory call }
        ensures rest { LeavesSlots call self.old self.new }
    {
        let Some(place) = place_of(&self.seats, client) else {
            return Err(call);
        };
        let Some(own) = self.seats[place].own_call(&call) else {
            return Err(call);
        };
        if self.history.is_full() {
            drop(call);
            return Ok(Made::HistoryFull);
        }
        let (alloc, rules) = (self.alloc, self.rules);
        match own {
            Own::Spawn => {
                let (seats, table) = (&mut self.seats, &mut self.table);
                let told = answer_spawn(seats, table, alloc, rules, place);
                Ok(enter(&mut self.history, client, call, told))
            }
            Own::OnRecord(asked) => {
                let seat = &mut self.seats[place];
                let told = seat.answer(alloc, rules.abi, asked);
                Ok(enter(&mut self.history, client, call, told))
            }
        }
    }
}
