//! The steps of a walk before its end. Each takes back the passes of the client and of the lent slots, makes one step
//! of the journal, and gives the passes out again.

ghost use Rattle.std.specs.Prelude.{◌≡◌, ◌≢◌, ℕ, [], ◌∷◌, Some, IfErr, IfSome, OnOk, OnErr};
ghost use Rattle.ll_seq.specs.declared.call.Call.{Call};

use crate::Tie;
use crate::account::Account;
use crate::desk::Desk;
use crate::hand::{give_client, put_slot, take_client, take_slot};
use crate::locked::Locked;
use crate::rider::Rider;
use crate::shape::Shape;
use ll_journal::{Next, Onward, Progress};
use ll_seq::Call;

/// The result of a descent: what it did, and the walk's next step, as it shows from where the walk is now.
#[derive(Drop)]
pub struct Descent {
    pub progress: Progress,
    pub next: Next,
}

impl<N: Shape> Desk<N> {
    ghost use Rattle.ll_client.specs.CallStart.{place_after};
    ghost use Rattle.ll_journal.specs.Book.{Spares, slot_of};
    ghost use Rattle.ll_journal.specs.NextStep.{CanBeLent, ComesNext, IsNamed};
    ghost use Rattle.ll_journal.specs.Stations.{Names};
    ghost use Rattle.ll_journal.specs.Steps.{Does, IsAstrayAtTop, IsAstrayBelow};
    ghost use Rattle.ll_laws.specs.World.{Begun, NotNow, advance};
    ghost use Rattle.ll_laws.specs.declared.step.Step.TheVariants.{Begin, Descend, Fork};

    /// Begins the walk of the client's call. Errors: the call, if it may not begin. Takes no memory.
    pub fn begin(
        &mut self,
        tie: &Tie<N, Account>,
        me: &mut Rider<N>,
        call: Call,
    ) -> Result<(), Call>
        ensures begun { OnOk result (advance self.old.world (Begin me.old.number call) ≡ (Begun, self.new.world)) }
        ensures not_now { OnErr result (advance self.old.world (Begin me.old.number call) ≡ (NotNow, self.old.world)) }
        ensures back { IfErr result (λ back. back ≡ call) }
        ensures same { OnErr result (self.new ≡ self.old) }
        ensures spares { Spares self.old self.new [] }
        ensures rest { self.new ≡ record self.old { world = self.new.world } }
        ensures mine { OnOk result (me.new ≡ record me.old { doing = Some call }) }
        ensures still { OnErr result (me.new ≡ me.old) }
    {
        let (journal, keeper) = (&mut self.journal, &mut self.keeper);
        let (number, seen) = (me.number, me.seen);
        take_client(tie, keeper, journal, number, seen, &mut me.pass);
        let begun = journal.begin(number, call);
        me.pass = give_client(tie, keeper, journal, number, seen);
        begun
    }

    /// Splits the client's walk into one leg for each of its two paths. Takes no memory and no slot.
    pub fn fork(&mut self, tie: &Tie<N, Account>, me: &mut Rider<N>) -> Progress
        ensures does { Does self.old (Fork me.old.number) result self.new }
        ensures spares { Spares self.old self.new [] }
        ensures rest { self.new ≡ record self.old { world = self.new.world } }
        ensures not_astray { result ≢ Progress.Astray }
        ensures mine { me.new ≡ me.old }
    {
        let (journal, keeper) = (&mut self.journal, &mut self.keeper);
        let (number, seen) = (me.number, me.seen);
        take_client(tie, keeper, journal, number, seen, &mut me.pass);
        let outcome = journal.fork(number);
        me.pass = give_client(tie, keeper, journal, number, seen);
        outcome
    }

    /// Makes the walk's first descent, to the root, whose slot must be lent, and finds its next step. Takes no memory.
    pub fn enter(
        &mut self,
        tie: &Tie<N, Account>,
        me: &mut Rider<N>,
        root: &mut Locked<N>,
    ) -> Descent
        ensures does { Does self.old (Descend me.old.number) result.progress self.new }
        ensures astray { result.progress ≡ Progress.Astray → IsAstrayAtTop self.old me.old.number root.old.number }
        ensures stands { (inode : ℕ) → result.progress ≡ Progress.Stands inode
            → (root.new.held.inode ≡ inode) × (root.new.held.node.mark ≡ Some me.old.number) }
        ensures comes { ComesNext self.new me.old.number root.old.number result.next }
        ensures slots { CanBeLent self.new result.next }
        ensures names { IsNamed me.new.doing root.new.held result.next }
        ensures before { root.old.held ≡ slot_of self.old root.old.number }
        ensures after { root.new ≡ record root.old { held = slot_of self.new root.old.number } }
        ensures spares { Spares self.old self.new (root.old.number ∷ []) }
        ensures rest { self.new ≡ record self.old { world = self.new.world } }
        ensures mine { me.new ≡ me.old }
    {
        let (journal, keeper) = (&mut self.journal, &mut self.keeper);
        let (client, seen) = (me.number, me.seen);
        let Locked { number, held, pass } = root;
        take_slot(tie, keeper, journal, *number, held, pass);
        take_client(tie, keeper, journal, client, seen, &mut me.pass);
        let progress = journal.enter(client, *number, held);
        let next = journal.next_step(client, *number, held);
        put_slot(tie, keeper, journal, *number, held, pass, client);
        me.pass = give_client(tie, keeper, journal, client, seen);
        Descent { progress, next }
    }

    /// Makes a descent of the client's walk, from the current leg's directory to that of the next name, and finds its
    /// next step. If there is a hint, its name names its inode; if that is the next name, it isn't looked up. Takes no
    /// memory.
    pub fn descend(
        &mut self,
        tie: &Tie<N, Account>,
        me: &mut Rider<N>,
        from: &mut Locked<N>,
        to: &mut Locked<N>,
        hint: Option<Onward>,
    ) -> Descent
        requires names { IfSome hint (λ on. (call : Call) → me.old.doing ≡ Some call
            → Names call from.old.held on.name on.inode) }
        ensures does { Does self.old (Descend me.old.number) result.progress self.new }
        ensures astray { result.progress ≡ Progress.Astray
            → IsAstrayBelow self.old me.old.number from.old.number to.old.number }
        ensures stands { (inode : ℕ) → result.progress ≡ Progress.Stands inode
            → (to.new.held.inode ≡ inode) × (to.new.held.node.mark ≡ Some me.old.number) }
        ensures comes { ComesNext self.new me.old.number (place_after result.progress from.old to.old).number
            result.next }
        ensures slots { CanBeLent self.new result.next }
        ensures names { IsNamed me.new.doing (place_after result.progress from.new to.new).held result.next }
        ensures from_before { from.old.held ≡ slot_of self.old from.old.number }
        ensures to_before { to.old.held ≡ slot_of self.old to.old.number }
        ensures from_after { from.new ≡ record from.old { held = slot_of self.new from.old.number } }
        ensures to_after { to.new ≡ record to.old { held = slot_of self.new to.old.number } }
        ensures spares { Spares self.old self.new (from.old.number ∷ to.old.number ∷ []) }
        ensures rest { self.new ≡ record self.old { world = self.new.world } }
        ensures mine { me.new ≡ me.old }
    {
        let (journal, keeper) = (&mut self.journal, &mut self.keeper);
        let (client, seen) = (me.number, me.seen);
        let Locked { number, held, pass } = from;
        take_slot(tie, keeper, journal, to.number, &to.held, &mut to.pass);
        take_slot(tie, keeper, journal, *number, held, pass);
        take_client(tie, keeper, journal, client, seen, &mut me.pass);
        let progress = journal.descend(client, *number, held, to.number, &mut to.held, hint);
        let next = match progress {
            Progress::Stands(_) => journal.next_step(client, to.number, &to.held),
            _ => journal.next_step(client, *number, held),
        };
        put_slot(tie, keeper, journal, *number, held, pass, client);
        let Locked { number, held, pass } = to;
        put_slot(tie, keeper, journal, *number, held, pass, client);
        me.pass = give_client(tie, keeper, journal, client, seen);
        Descent { progress, next }
    }
}
