//! What the calls of a history demand of a layer.

ghost use Rattle.std.specs.Prelude.{◌≡◌, ◌≢◌, ◌↔◌, ◌<◌, ◌+◌, ◌-◌, ◌^◌, ◌&&◌, not, [], ◌∷◌, ℕ, Bool, List, true, None};
ghost use Rattle.std.specs.Prelude.{Some};
ghost use Rattle.std.specs.Prelude.{IfErr, IfOk, IfSome, OnOk, length, if◌then◌else◌};
ghost use Rattle.std.specs.Option.{option_or};
ghost use Rattle.ll_rights.specs.Map.{has};
ghost use Rattle.ll_rules.specs.Layer.{Layer, grants_on};
ghost use Rattle.ll_seq.specs.declared.reply.Entry as one;
ghost use Rattle.ll_seq.specs.History.{MayStand, after, state_after};
ghost use Rattle.ll_seq.specs.Passed.{Passed, before_policy};
ghost use Rattle.ll_seq.specs.State.{State};
ghost use Rattle.ll_seq.specs.Step.{client_of};
ghost use Rattle.ll_learn.specs.Asks.{AllowsAsked, AreAsksRooted};
ghost use Rattle.ll_learn.specs.Bound.{WereThere};
ghost use Rattle.ll_learn.specs.Demand.{GoesOn, IsClosedAt, IsOpenAt, StopsAt};
ghost use Rattle.ll_learn.specs.Faults.{IsFault};
ghost use Rattle.ll_learn.specs.Outside.{first_outside, is_moved};
ghost use Rattle.ll_learn.specs.Needs.{Adds, AreRooted, GrantsAll, Meets, StartsAtRoot};
ghost use Rattle.ll_learn.specs.PassedCalls.{Allows, IsLearnable, Openings, is_client, joins, opened_at};
ghost use Rattle.ll_learn.specs.Watched.{is_watched, paths_opened};
ghost use Rattle.ll_learn.specs.WatchedClients.{IsWatch, Opens};
ghost use Rattle.ll_learn.specs.There.{AsksMore, ComeFrom, IsAskedOn, IsOfPath, MovesMore};
ghost use Rattle.ll_decide.specs.declared.demands.On.{On};
ghost use Rattle.ll_why.specs.Reasons.{chain_of};

use crate::fault::LearnFault;
use crate::needs::{Needs, Origin};
use crate::watch::{Opened, Watch};
use ll_audit::{AuditFault, follow};
use ll_plain::Plain;
use ll_rights::Access;
use ll_rights::limits::DOMAIN_LAYERS;
use ll_seq::{
    Call, ClientRecord, Entry, Found, Reply, Targets, refused_early, refused_found, targets_of,
};
use ll_why::{Asks, PathChains, kept_number};
use std::alloc::{AllocError, Global};
use std::slice;

/// Returns what is found for a call, or None if it is refused before policy.
pub(crate) fn found_for(tree: &Plain, caller: &ClientRecord, call: &Call) -> Option<Found>
    ensures refused { result ≡ None → before_policy tree.now caller.now call.now ≢ [] }
    ensures free { IfSome result (λ found. before_policy tree.now caller.now call.now ≡ []) }
    ensures passed { IfSome result (Passed tree.now caller.now call.now) }
{
    if refused_early(caller, call).is_some() {
        return None;
    }
    let found = tree.found(&caller.domain, call);
    match refused_found(call, &found) {
        Some(_) => None,
        None => Some(found),
    }
}

// Returns what the entry opens, if anything.
fn opened_by(alloc: Global, tree: &Plain, entry: &Entry) -> Result<Option<Opened>, AllocError>
    ensures { IfOk result (Opens tree.now entry.now) }
{
    let Call::Open(_, _) = &entry.call else {
        return Ok(None);
    };
    let Reply::Opened(descriptor) = &entry.reply else {
        return Ok(None);
    };
    let chains = PathChains::of_first(alloc, tree, &entry.call)?;
    Ok(Some(Opened {
        descriptor: *descriptor,
        inodes: chains.itself,
    }))
}

// Reports whether the entry is a move that succeeds.
fn is_moved(entry: &Entry) -> bool
    ensures { result ≡ is_moved entry.now }
{
    match (targets_of(&entry.call), &entry.reply) {
        (Targets::Two(_, _), Reply::Done) => true,
        _ => false,
    }
}

// Checks that the call isn't denied, and that its client then has room for one more layer, if it has the layer.
fn stays_open(tree: &Plain, is_on: bool, entry: &Entry, number: usize) -> Result<(), LearnFault>
    requires { is_on ≡ true → has tree.now.clients entry.now.client ≡ true }
    ensures ok { OnOk result (is_on ≡ true → IsOpenAt tree.now entry.now) }
    ensures fault { IfErr result (λ fault. (is_on ≡ true) × IsClosedAt tree.now entry.now number fault) }
{
    if !is_on {
        return Ok(());
    }
    if let Reply::Denied(_) = &entry.reply {
        return Err(LearnFault::Denied(number));
    }
    let Some(caller) = tree.client(entry.client) else {
        return Ok(());
    };
    if caller.domain.len() < DOMAIN_LAYERS {
        Ok(())
    } else {
        Err(LearnFault::Full(number))
    }
}

// Checks that the client exists, with room for one more layer.
fn has_room(tree: &Plain, client: u64) -> Result<(), LearnFault>
    ensures there { OnOk result (has tree.now.clients client ≡ true) }
    ensures room { OnOk result (length (client_of tree.now client).domain < DOMAIN_LAYERS) }
    ensures fault { IfErr result (λ fault. (entries : List one.Entry) → IsFault tree.now client entries fault) }
{
    let Some(caller) = tree.client(client) else {
        return Err(LearnFault::NoClient);
    };
    if caller.domain.len() < DOMAIN_LAYERS {
        Ok(())
    } else {
        Err(LearnFault::Full(0))
    }
}

impl Needs {
    // Adds the rights that a call needs.
    fn add_asks(&mut self, alloc: Global, asks: &Asks, origin: Origin) -> Result<(), AllocError>
        ensures meets { OnOk result ((grants : List ℕ → ℕ → Bool) → Meets grants self.new
            ↔ (Meets grants self.old × AllowsAsked grants asks.now)) }
        ensures rooted { OnOk result (AreRooted self.old → AreAsksRooted asks.now → AreRooted self.new) }
        ensures asks { OnOk result (AsksMore (λ path. (on : On) × (path ≡ chain_of asks.now on)) self.old self.new) }
        ensures moves { OnOk result (MovesMore (λ path. (on : On) × (path ≡ chain_of asks.now on)) self.old self.new) }
        ensures outside { self.new.outside ≡ self.old.outside }
    {
        let sets = asks.demands;
        let itself = asks.first.itself.as_slice();
        let other = asks.second.itself.as_slice();
        let parent = asks.first.parent.as_slice();
        let entered = asks.second.parent.as_slice();
        self.add_ask(alloc, sets.itself, itself, origin)?;
        self.add_ask(alloc, sets.other, other, origin)?;
        self.add_ask(alloc, sets.parent.with(sets.left), parent, origin)?;
        self.add_ask(alloc, sets.entered, entered, origin)?;
        self.add_move(alloc, sets.there, itself, entered, origin)?;
        self.add_move(alloc, sets.back, other, parent, origin)
    }

    // Adds what the entry's call needs, if the layer is on its client.
    fn add_call(
        &mut self,
        alloc: Global,
        tree: &Plain,
        watch: &Watch,
        entry: &Entry,
        origin: Origin,
    ) -> Result<(), AllocError>
        requires { is_watched watch.now.clients.items entry.now.client ≡ true
            → has tree.now.clients entry.now.client ≡ true }
        ensures meets { OnOk result ((layer : Layer) (known : Openings)
            → (is_watched watch.now.clients.items entry.now.client ≡ true
            → (fd : ℕ) → known entry.now.client fd ≡ paths_opened watch.now.clients.items entry.now.client fd)
            → Meets (grants_on layer) self.new ↔ (Meets (grants_on layer) self.old
            × (is_watched watch.now.clients.items entry.now.client ≡ true
            → before_policy tree.now (client_of tree.now entry.now.client) entry.now.call ≡ []
            → Allows layer tree.now known entry.now))) }
        ensures rooted { OnOk result (AreRooted self.old
            → (is_watched watch.now.clients.items entry.now.client ≡ true → (fd : ℕ) (inodes : List ℕ)
            → paths_opened watch.now.clients.items entry.now.client fd ≡ Some inodes → StartsAtRoot inodes)
            → AreRooted self.new) }
        ensures asks { OnOk result (AsksMore (IsAskedOn tree.now watch.now.clients.items entry.now.client)
            self.old self.new) }
        ensures moves { OnOk result (MovesMore (IsOfPath tree.now) self.old self.new) }
        ensures outside { self.new.outside ≡ self.old.outside }
    {
        if !watch.is_on(entry.client) {
            return Ok(());
        }
        let Some(caller) = tree.client(entry.client) else {
            return Ok(());
        };
        let Some(found) = found_for(tree, caller, &entry.call) else {
            return Ok(());
        };
        if let Some(descriptor) = kept_number(&entry.call) {
            return match watch.opened(entry.client, descriptor) {
                Some(inodes) => self.add_ask(alloc, Access::TRUNCATE, inodes, origin),
                None => Ok(()),
            };
        }
        let asks = Asks::of_call(alloc, tree, &entry.call, &found)?;
        self.add_asks(alloc, &asks, origin)
    }

    // Keeps the first successful move of a client that the layer isn't on.
    fn note_outside(&mut self, is_on: bool, entry: &Entry, origin: Origin)
        ensures asks { self.new.asks ≡ self.old.asks }
        ensures moves { self.new.moves ≡ self.old.moves }
        ensures outside { self.new.outside
            ≡ option_or self.old.outside (if is_moved entry.now && not is_on then Some origin else None) }
    {
        if self.outside.is_none() && !is_on && is_moved(entry) {
            self.outside = Some(origin);
        }
    }

    // Continues with one entry.
    fn follow(
        &mut self,
        alloc: Global,
        tree: &mut Plain,
        watch: &mut Watch,
        entry: &Entry,
        origin: Origin,
    ) -> Result<(), LearnFault>
        requires next { tree.old.next < 2 ^ 64 - 1 }
        requires there { (client : ℕ) → is_watched watch.old.clients.items client ≡ true
            → has tree.old.clients client ≡ true }
        ensures ok { OnOk result ((is_on : ℕ → Bool) (known : Openings)
            → IsWatch tree.old is_on known watch.old.clients.items
            → GoesOn tree.old is_on known entry.now origin self.old self.new tree.new watch.new.clients.items) }
        ensures fault { IfErr result (StopsAt tree.old watch.old.clients.items entry.now origin.entry) }
    {
        self.add_call(alloc, tree, watch, entry, origin)?;
        let is_on = watch.is_on(entry.client);
        let opened = opened_by(alloc, tree, entry)?;
        match follow(tree, slice::from_ref(entry)) {
            Ok(()) => {}
            Err(AuditFault::Illegal(_)) => return Err(LearnFault::Illegal(origin.entry)),
            Err(AuditFault::NoMemory) => return Err(LearnFault::NoMemory),
        }
        stays_open(tree, is_on, entry, origin.entry)?;
        watch.follow(alloc, entry, opened)?;
        self.note_outside(is_on, entry, origin);
        Ok(())
    }

    /// Adds what the calls of these entries need: those of the client, and of all clients spawned by any of them. The
    /// entries follow a cut of the history with this number, where the tree is. Makes their calls in the tree. Errors:
    /// the first fault; the needs and the tree are then unspecified.
    pub fn add(
        &mut self,
        alloc: Global,
        tree: &mut Plain,
        client: u64,
        entries: &[Entry],
        history: usize,
    ) -> Result<(), LearnFault>
        requires { tree.old.next + length entries.now < 2 ^ 64 }
        ensures learnable { OnOk result (IsLearnable tree.old client entries.now) }
        ensures after { OnOk result (tree.new ≡ state_after tree.old entries.now) }
        ensures adds { OnOk result (Adds tree.old client entries.now self.old self.new) }
        ensures rooted { OnOk result (AreRooted self.old → AreRooted self.new) }
        ensures paths { OnOk result (ComeFrom tree.old entries.now self.old self.new) }
        ensures moves { OnOk result (MovesMore (WereThere tree.old entries.now) self.old self.new) }

        // The first successful move of a client that the layer isn't on.
        ensures outside { OnOk result (self.new.outside
            ≡ option_or self.old.outside (first_outside (is_client client) history 1 entries.now)) }
        ensures fault { IfErr result (IsFault tree.old client entries.now) }
    {
        has_room(tree, client)?;
        let mut watch = Watch::of(alloc, client)?;
        for (i, entry) in entries.iter().enumerate() {
            let origin = Origin {
                history,
                entry: i + 1,
            };
            self.follow(alloc, tree, &mut watch, entry, origin)?;
        }
        Ok(())
    }
}
