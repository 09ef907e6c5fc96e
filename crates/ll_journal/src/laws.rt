//! Laws of every journal, after any steps.

use crate::journal::Journal;

impl Journal {
    ghost use Rattle.ll_laws.specs.Sound.{IsSound};
    ghost use Rattle.ll_journal.specs.SlotTree.{HoldTree, accounts_of};

    /// Does nothing when it runs. Its contract: the contents of the slots are the whole tree, and the world is sound.
    pub fn by_law(&self)
        ensures tree { HoldTree (accounts_of self.now) self.now.world }
        ensures sound { IsSound self.now.world }
    {
        let _table = &self.table;
    }
}
