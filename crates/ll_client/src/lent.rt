//! What slots hold while it is lent to the journal.

ghost use Rattle.std.specs.Prelude.{◌≡◌, ◌<◌, ◌≤◌, ◌++◌, ◌∷◌, [], ℕ, length, vec_len};
ghost use Rattle.std.specs.Vec.{vec_capacity};
ghost use Rattle.ll_client.specs.declared.lent.TheConstants.{LENT_SLOTS};

use ll_node::Held;
use std::alloc::{AllocError, Global};
use std::mem;

/// The most slots that a step is lent.
pub const LENT_SLOTS: usize = 4;

/// The numbers of lent slots, and what they hold.
#[derive(Drop)]
pub(crate) struct Lent {
    alloc: Global,
    pub(crate) numbers: Vec<u64>,
    pub(crate) held: Vec<Held>,
    ghost numbers_fit: { LENT_SLOTS ≤ vec_capacity numbers },
    ghost held_fits: { LENT_SLOTS ≤ vec_capacity held },
}

impl Lent {
    /// Returns that no slot is lent. Errors: memory ran out.
    pub(crate) fn none(alloc: Global) -> Result<Lent, AllocError> {
        let numbers = Vec::with_capacity(alloc, LENT_SLOTS)?;
        let held = Vec::with_capacity(alloc, LENT_SLOTS)?;
        Ok(Lent {
            alloc,
            numbers,
            held,
        })
    }

    /// Forgets what is lent.
    pub(crate) fn clear(&mut self)
        ensures numbers { self.new.numbers.items ≡ [] }
        ensures held { self.new.held.items ≡ [] }
    {
        self.numbers.clear();
        self.held.clear();
    }

    /// Lends what the slot with this number holds.
    pub(crate) fn lend(&mut self, number: u64, from: &mut Held)
        requires numbers { length self.old.numbers.items < LENT_SLOTS }
        requires held { length self.old.held.items < LENT_SLOTS }
        ensures numbers { self.new.numbers.items ≡ self.old.numbers.items ++ number ∷ [] }
        ensures held { self.new.held.items ≡ self.old.held.items ++ from.old ∷ [] }
    {
        self.numbers.push_reserved(number);
        self.held
            .push_reserved(mem::replace(from, Held::vacant(self.alloc)));
    }

    /// Gives back what was lent last.
    pub(crate) fn give_back(&mut self, to: &mut Held)
        requires numbers { 0 < vec_len self.old.numbers }
        requires held { 0 < vec_len self.old.held }
        ensures numbers { (number : ℕ) × (self.old.numbers.items ≡ self.new.numbers.items ++ number ∷ []) }
        ensures held { self.old.held.items ≡ self.new.held.items ++ to.new ∷ [] }
    {
        self.numbers.pop();
        let Some(held) = self.held.pop() else {
            unreachable!()
        };
        *to = held;
    }
}
