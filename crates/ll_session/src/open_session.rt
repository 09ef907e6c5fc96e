//! The lines of a session.

ghost use Rattle.std.specs.Prelude.{◌≡◌, ◌<◌, ◌≤◌, ◌+◌, ◌-◌, ◌^◌, ◌↔◌, ℕ, List, IsTrue, Some, None, cond, length};
ghost use Rattle.ll_rights.specs.declared.errno.Errno.{Errno};
ghost use Rattle.ll_session.specs.Talk.{Goes};
ghost use Rattle.ll_session.specs.Beside.{placed};

use crate::keeper::{Keeps, Kept};
use crate::strict::{ends_strictly, is_of_layers};
use crate::{Gate, Party, Tree};
use ll_client::Shape;
use ll_rights::Errno;
use ll_seq::Reply;
use ll_wire::{Line, read_command};
use std::alloc::Global;
use std::sync::Wait;

/// A session under way: its tree; a party, whose first clients came before the session, and then its own; who keeps the
/// history, and how much of it is kept.
pub struct OpenSession<'a, N: Shape, R: Wait, G: Gate<N>, K: Keeps> {
    pub rt: &'a R,
    pub alloc: Global,
    pub tree: &'a Tree<N, G>,
    pub keeper: &'a K,
    pub party: Party<N>,
    pub before: u64,
    pub kept: Kept,
    ghost some: { before < length party },
}

// Reports whether the refusal is NoMemory.
fn wants_memory(errno: Errno) -> bool
    ensures { IsTrue result ↔ (errno ≡ Errno.NoMemory) }
{
    matches!(errno, Errno::NoMemory)
}

/// Returns the reply as it is written in a session with this many clients: lines name the newest by its place.
pub fn placed(clients: u64, reply: Reply) -> Reply
    ensures { result ≡ placed clients reply }
{
    match reply {
        Reply::Spawned(_) => Reply::Spawned(clients),
        reply => reply,
    }
}

impl<'a, N: Shape, R: Wait, G: Gate<N>, K: Keeps> OpenSession<'a, N, R, G, K> {
    ghost use Rattle.ll_wire.specs.LineCuts.{Holds};
    ghost use Rattle.ll_session.specs.Beside.{AnswersBeside};
    ghost use Rattle.ll_session.specs.KeptHistory.{AreKept};
    ghost use Rattle.ll_session.specs.Progress.{IsUnread};
    ghost use Rattle.ll_session.specs.Strict.{IsEnd};

    // Returns the number of the session's clients.
    fn clients(&self) -> u64
        ensures count { result + self.now.before ≡ length self.now.party }
        ensures some { 1 ≤ result }
        ensures fits { length self.now.party < 2 ^ 64 }
    {
        self.party.len() - self.before
    }

    // Returns the refusal of a line that wasn't read for this reason. HistoryFull comes before NoMemory.
    fn unread(&mut self, errno: Errno) -> Errno
        ensures told { IsUnread N.limit self.old.party errno result self.new.party }
        ensures before { self.new.before ≡ self.old.before }
    {
        if wants_memory(errno) {
            if self.party.is_full(self.rt, self.tree) {
                Errno::HistoryFull
            } else {
                errno
            }
        } else {
            errno
        }
    }

    /// Makes the call that the line spells. Returns the reply, also to a line that spells none, and whether that ends a
    /// strict session.
    pub fn reply(&mut self, line: &Line) -> (Reply, bool)
        ensures answers { (piece : List ℕ) → Holds line.now piece
            → AnswersBeside N.limit self.old.before self.old.party piece result.0 self.new.party }
        ensures end { (piece : List ℕ) → Holds line.now piece
            → IsEnd piece result.0 (cond result.1 (Some result.0) None) }
        ensures goes { Goes N.limit self.old.party self.new.party }
        ensures before { self.new.before ≡ self.old.before }
    {
        let Some(bytes) = line.bytes() else {
            return (Reply::Refused(Errno::BadLine), true);
        };
        match read_command(self.alloc, bytes, self.clients()) {
            Ok((place, call)) => {
                let of_layers = is_of_layers(&call);
                let caller = self.before + place - 1;
                let reply = self.party.ask(self.rt, self.tree, caller as usize, call);
                let reply = placed(self.clients(), reply);
                let is_end = ends_strictly(of_layers, &reply);
                (reply, is_end)
            }
            Err(errno) => (Reply::Refused(self.unread(errno)), true),
        }
    }

    /// Has the keeper keep all entries that the session's clients know of.
    pub fn keep(&mut self)
        ensures kept { AreKept self.new.kept self.new.party }
        ensures party { self.new.party ≡ self.old.party }
        ensures before { self.new.before ≡ self.old.before }
    {
        self.kept = self.keeper.keep(self.rt, self.tree, &mut self.party);
    }

    /// Keeps all entries that the session's clients know of, and returns all clients.
    pub fn close(self) -> Party<N>
        ensures { result ≡ self.entry.party }
    {
        let mut session = self;
        session.keep();
        let OpenSession {
            rt: _,
            alloc: _,
            tree: _,
            keeper: _,
            party,
            before: _,
            kept: _,
        } = session;
        party
    }
}
