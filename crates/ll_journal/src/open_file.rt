//! A client's calls on its open files.

ghost use Rattle.std.specs.Prelude.{◌≡◌, ◌≢◌, ◌<◌, ℕ, [], ◌∷◌, false, is_none, length, Some, None, Ok, IfOk, IfErr};
ghost use Rattle.std.specs.Prelude.{IfSome, IfNone, OnErr, if◌then◌else◌};
ghost use Rattle.ll_rights.specs.Kind.{is_dir};
ghost use Rattle.ll_rights.specs.Map.{get};
ghost use Rattle.ll_seq.specs.declared.client.Descriptor as record_of;
ghost use Rattle.ll_journal.specs.Files.{IsFreeOn, LetsGo, Serves, on_file};

use crate::direct::{Made, enter};
use crate::files::{FileCall, answer, file_call};
use crate::journal::{Journal, place_of};
use crate::pair::ReplyPair;
use crate::seat::Seat;
use ll_node::{Held, Inodes};
use ll_seq::{Call, Descriptor, Reply};
use std::alloc::{AllocError, Global};

/// Why a call wasn't made. Gives the call back.
#[derive(Drop)]
pub enum Unmade {
    /// The step isn't enabled.
    NotNow(Call),
    /// Another slot was lent than the file's.
    Astray(Call),
}

/// The client's descriptor of this number.
fn opened(seat: &Seat, number: u64) -> Option<Descriptor>
    ensures { result ≡ get seat.now.client.descriptors number }
{
    seat.descriptors().get(number).copied()
}

/// The client's descriptor of this number, if the client has no walk under way.
fn opened_idle(seat: &Seat, number: u64) -> Option<Descriptor>
    ensures { result ≡ (if is_none seat.now.walk then get seat.now.client.descriptors number else None) }
{
    if seat.call().is_some() {
        return None;
    }
    opened(seat, number)
}

/// Counts one descriptor of the file less, and removes it if nothing keeps it.
fn let_go(table: &mut Inodes, alloc: Global, file: &mut Held)
    ensures { LetsGo file.old.inode table.old table.new file.old file.new }
{
    let inode = file.inode;
    if table.close(inode) {
        file.vacate(alloc, inode);
    }
}

/// Makes the call and builds its reply. Errors: memory ran out, and nothing has changed.
fn serve(
    seat: &mut Seat,
    table: &mut Inodes,
    alloc: Global,
    number: u64,
    held: Descriptor,
    asked: FileCall<'_>,
    file: &mut Held,
) -> Result<ReplyPair, AllocError>
    requires { is_dir file.old.node.kind ≡ false }
    ensures ok { IfOk result (λ reply. Serves number held asked.entry seat.old table.old file.old reply seat.new
        table.new file.new) }
    ensures err { OnErr result ((seat.new ≡ seat.old) × (table.new ≡ table.old) × (file.new ≡ file.old)) }
    ensures starved { OnErr result (IsFreeOn held (on_file asked.entry)) }
    ensures calm { OnErr result (asked.entry ≢ FileCall.Close) }
{
    match asked {
        FileCall::Close => {
            seat.close(number);
            let_go(table, alloc, file);
            ReplyPair::new(alloc, Reply::Done)
        }
        FileCall::OnBytes(asked) => answer(alloc, &held, asked, file),
    }
}

impl Journal {
    ghost use Rattle.ll_laws.specs.declared.step.Step.TheVariants as steps;
    ghost use Rattle.ll_journal.specs.Book.{Spares, inode_in, slot_of};
    ghost use Rattle.ll_journal.specs.Direct.{Answers, ComesBack, IsOpen, LeavesSlot};

    /// Makes and answers the client's call on a descriptor. The slot must be the file's. Errors: the call, if it is on
    /// no descriptor, or if the client doesn't exist, lacks the descriptor or has a walk under way. Reading and growing
    /// a file take memory; closing takes none.
    pub fn fd_commit(
        &mut self,
        client: u64,
        call: Call,
        slot: u64,
        file: &mut Held,
    ) -> Result<Made, Unmade>
        requires { file.old ≡ slot_of self.old slot }
        ensures does { IfOk result (λ answer. Answers self.old (steps.FdCommit client call) answer self.new) }
        ensures back { IfErr result (ComesBack self.old client call slot) }
        ensures same { OnErr result ((self.new ≡ self.old) × (file.new ≡ file.old)) }
        ensures lent { file.new ≡ slot_of self.new slot }
        ensures spares { Spares self.old self.new (slot ∷ []) }
        ensures calm { result ≡ Ok Made.NoMemory → (number : ℕ) → call ≢ Call.Close number }
        ensures rest { LeavesSlot call slot self.old self.new }
    {
        let Some(place) = place_of(&self.seats, client) else {
            return Err(Unmade::NotNow(call));
        };
        let Some((number, asked)) = file_call(&call) else {
            return Err(Unmade::NotNow(call));
        };
        let Some(held) = opened_idle(&self.seats[place], number) else {
            return Err(Unmade::NotNow(call));
        };
        if held.inode != file.inode {
            return Err(Unmade::Astray(call));
        }
        if self.history.is_full() {
            drop(call);
            return Ok(Made::HistoryFull);
        }
        let (alloc, table) = (self.alloc, &mut self.table);
        let seat = &mut self.seats[place];
        let told = serve(seat, table, alloc, number, held, asked, file);
        Ok(enter(&mut self.history, client, call, told))
    }

    /// Returns the slot of the file that the client has open under this number.
    pub fn file_slot(&self, client: u64, number: u64) -> Option<u64>
        ensures some { IfSome result (λ slot. (file : record_of.Descriptor)
            × IsOpen self.now.world client number file × (inode_in self.now slot ≡ file.inode)) }
        ensures within { IfSome result (λ slot. slot < length self.now.inodes) }
        ensures none { IfNone result ((file : record_of.Descriptor) → ¬ IsOpen self.now.world client number file) }
    {
        let Some(place) = place_of(&self.seats, client) else {
            return None;
        };
        let Some(file) = opened(&self.seats[place], number) else {
            return None;
        };
        self.table.slot(file.inode)
    }
}
