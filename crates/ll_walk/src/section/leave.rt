//! Ends a walk in a section: its call is answered, or it restarts.

ghost use Rattle.std.specs.Prelude.{◌≡◌, ◌<◌, ◌∷◌, length};
ghost use Rattle.std.specs.Sync.Mutex.{mutex_guard_value};
ghost use Rattle.ll_client.specs.declared.lent.TheConstants.{LENT_SLOTS};
ghost use Rattle.ll_client.specs.CallStart.{kept_numbers, stacked};
ghost use Rattle.ll_client.specs.Gains.{Goes, IsLeft};
ghost use Rattle.ll_walk.specs.Sections.{Shows};

use super::{Section, Spent};
use ll_client::{Account, Leaving, Left, Locked, Places, Rider, Shape, Tie};

impl<'a, N: Shape> Section<'a, N> {
    /// Commits or restarts the client's walk, with this slot lent, and the others that are held.
    #[inline(always)]
    pub fn leave(
        self,
        tie: &Tie<N, Account>,
        me: &mut Rider<N>,
        slot: &mut Locked<N>,
        others: &mut Places<'_, N>,
        leaving: Leaving,
    ) -> (Left, Spent<'a, N>)
        requires few { length others.old.items < LENT_SLOTS }
        ensures left { IsLeft leaving (mutex_guard_value self.entry.desk) me.old.number
            (slot.old.number ∷ kept_numbers (stacked others.old.items)) result.0 (mutex_guard_value result.1.desk) }
        ensures shows { Shows (mutex_guard_value self.entry.desk) (mutex_guard_value result.1.desk)
            (slot.old ∷ stacked others.old.items) (slot.new ∷ stacked others.new.items) }
        ensures count { length others.new.items ≡ length others.old.items }
        ensures mine { Goes N.limit me.old result.0 me.new }
    {
        let Section { mut desk } = self;
        let left = desk.leave(tie, me, slot, others, leaving);
        (left, Spent { desk })
    }
}
