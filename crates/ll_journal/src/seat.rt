//! Clients, each with its walk.

ghost use Rattle.std.specs.Prelude.{◌≡◌, ◌⊎◌, ℕ, List, Option, is_ok, ◌&&◌, ◌==◌, ◌≤◌, not, false, true, None, Some};
ghost use Rattle.std.specs.Prelude.{is_none, is_some, IfOk, OnErr, IfSome, IfNone, IsSome, option_map, if◌then◌else◌};
ghost use Rattle.std.specs.Option.{option_map_or};
ghost use Rattle.ll_seq.specs.Lean.{spares_memory};
ghost use Rattle.ll_decide.specs.Masks.{AreMasks};
ghost use Rattle.ll_rights.specs.Map.{remove};
ghost use Rattle.ll_seq.specs.Call as calls;
ghost use Rattle.ll_seq.specs.Effects.{child_of};
ghost use Rattle.ll_laws.specs.Commits.{first_end, second_end};
ghost use Rattle.ll_laws.specs.Walk as walks;
ghost use Rattle.ll_laws.specs.World.{is_alone, is_walked, overtaken};
ghost use Rattle.ll_journal.specs.Seated.{none_left};
ghost use Rattle.ll_journal.specs.Stations.{station_of};
ghost use Rattle.ll_node.specs.Enactment.{Scene};
ghost use Rattle.ll_journal.specs.Performed.{EndsAs, IsAtEnd, IsFreeAtEnd, Performs, at_seat};

use crate::alone::{Own, RecordCall, answer, own_call};
use crate::decide_end::{decide_end, tell};
use crate::leg::{Ahead, Leg, Legs};
use crate::onward::NextName;
use crate::pair::ReplyPair;
use crate::stage::{Stage, Turn, turn_of};
use crate::station::{Station, split_station, trunk_station};
use crate::walked::walks;
use crate::way::{has_two_paths, know_ways, next_name, trunk_len, way_len};
use ll_decide::Masks;
use ll_node::{Held, Inodes, enact};
use ll_rights::Abi;
use ll_seq::{Call, ClientRecord, Descriptor, Found, NumberMap, Rules, first_path, second_path};
use std::alloc::{AllocError, Global};
use std::marker::Model;
use std::mem::replace;

/// The start on which a walk takes the gate.
const LAST_START: u64 = 4;

/// A client, its spare slot, and its walk, if one is under way. Room for the longest walk is reserved at the start, so
/// no walk takes memory.
#[derive(Drop)]
pub(crate) struct Seat {
    client: ClientRecord,
    spare: u64,
    pub(crate) call: Option<Call>,
    starts: u64,
    is_stale: bool,
    pub(crate) stage: Stage,
    pub(crate) trunk: Leg,
    pub(crate) first: Leg,
    pub(crate) second: Leg,
}

impl Model for Seat {
    ghost use Rattle.ll_journal.specs.Book as book;
    ghost use Rattle.ll_journal.specs.SeatCodes.{coded_seat};

    ghost Value = { book.Seat };

    ghost coded = { coded_seat };

    ghost use Rattle.ll_journal.specs.Seated.{seat_of, IsSeat};

    ghost view = { seat_of };

    ghost invariant = { IsSeat };
}

/// An ended walk: its call, and what each layer grants where its legs ended (equal for a call of one path).
#[derive(Drop)]
pub(crate) struct Ended {
    pub call: Call,
    pub first: Masks,
    pub second: Masks,
}

/// The next name of the leg whose names ahead are these.
fn next_of(turn: Turn, ahead: Ahead) -> Option<NextName>
    ensures { result
        ≡ (if none_left ahead then None else Some (record { turn = turn; depth = ahead.place.depth })) }
{
    if ahead.is_empty() {
        return None;
    }
    let depth = ahead.place.depth;
    Some(NextName { turn, depth })
}

impl Seat {
    ghost use Rattle.ll_journal.specs.Checks.{TellsNext};
    ghost use Rattle.ll_journal.specs.Own.{Comes, IsFreeOwn, IsOwn};
    ghost use Rattle.ll_journal.specs.Seated.{again, call_in, entered, gone_down, is_at_ends, next_in, split};

    /// Returns a client without a walk. Errors: memory ran out.
    pub(crate) fn new(alloc: Global, client: ClientRecord, spare: u64) -> Result<Seat, AllocError>
        ensures { IfOk result (λ seat. seat ≡ record { client = client; spare = spare; walk = None }) }
    {
        match Legs::new(alloc) {
            Ok(
                Legs {
                    trunk,
                    first,
                    second,
                },
            ) => Ok(Seat {
                client,
                spare,
                call: None,
                starts: 0,
                is_stale: false,
                stage: Stage::Above,
                trunk,
                first,
                second,
            }),
            Err(error) => {
                drop(client);
                Err(error)
            }
        }
    }

    /// Whether the client is idle and the call walks.
    pub(crate) fn may_begin(&self, call: &Call) -> bool
        ensures { result ≡ (is_none self.now.walk && is_walked self.now.client call.now) }
    {
        self.call.is_none() && walks(&self.client, call)
    }

    /// Begins the call's walk, above the root.
    pub(crate) fn begin(&mut self, call: Call)
        ensures { self.new ≡ record self.old {
          walk = Some (record { call = call; starts = 1; stale = false; at = walks.Above });
        } }
    {
        know_ways(&call);
        let idle = replace(&mut self.call, Some(call));
        drop(idle);
        self.starts = 1;
        self.is_stale = false;
        self.stage = Stage::Above;
    }

    /// Classifies the call: Some if it is for the client alone and no walk is under way.
    pub(crate) fn own_call(&self, call: &Call) -> Option<Own>
        ensures some { IfSome result (λ own. (self.now.walk ≡ None) × IsOwn self.now.client call.now (Some own)) }
        ensures none { IfNone result ((is_none self.now.walk && is_alone self.now.client call.now) ≡ false) }
    {
        if self.call.is_some() {
            return None;
        }
        own_call(&self.client, call)
    }

    /// Makes a call on the client's record and builds its reply.
    pub(crate) fn answer(
        &mut self,
        alloc: Global,
        abi: Abi,
        asked: RecordCall,
    ) -> Result<ReplyPair, AllocError>
        requires { self.old.walk ≡ None }
        ensures ok { IfOk result (λ reply. Comes abi self.old.client asked reply self.new.client) }
        ensures descriptors { self.new.client.descriptors ≡ self.old.client.descriptors }
        ensures rest { self.new ≡ record self.old { client = self.new.client } }
        ensures err { OnErr result (self.new ≡ self.old) }
        ensures starved { OnErr result (IsFreeOwn abi self.old.client asked) }
    {
        answer(&mut self.client, alloc, abi, asked)
    }

    /// The record of a client that this one spawns. Errors: memory ran out.
    pub(crate) fn child(&self, alloc: Global, rules: Rules) -> Result<ClientRecord, AllocError>
        ensures { IfOk result (λ child. child ≡ child_of rules self.now.client) }
    {
        self.client.child(alloc, rules)
    }

    pub(crate) fn client(&self) -> &ClientRecord
        ensures { result.now ≡ self.now.client }
    {
        &self.client
    }

    /// How often the walk has started, 0 if none is under way.
    pub(crate) fn starts(&self) -> u64
        ensures { result ≡ option_map_or (λ (walk : walks.Walk). walk.starts) self.now.walk 0 }
    {
        if self.call.is_none() {
            return 0;
        }
        self.starts
    }

    pub(crate) fn descriptors(&self) -> &NumberMap<Descriptor>
        ensures { result.now ≡ self.now.client.descriptors }
    {
        &self.client.descriptors
    }

    /// Whether a walk is under way and isn't stale.
    pub(crate) fn goes_on(&self) -> bool
        ensures { result ≡ option_map_or (λ (walk : walks.Walk). not walk.stale) self.now.walk false }
    {
        self.call.is_some() && !self.is_stale
    }

    /// Whether a walk is under way and is stale.
    pub(crate) fn is_stale(&self) -> bool
        ensures { result ≡ option_map_or (λ (walk : walks.Walk). walk.stale) self.now.walk false }
    {
        self.call.is_some() && self.is_stale
    }

    /// Whether a walk is under way, above the root.
    pub(crate) fn is_above(&self) -> bool
        ensures { result ≡ option_map_or (λ (walk : walks.Walk). walks.is_above walk.at) self.now.walk false }
    {
        self.call.is_some() && matches!(self.stage, Stage::Above)
    }

    /// Whether a walk is under way, on its fourth start.
    pub(crate) fn starts_last(&self) -> bool
        ensures { result ≡ option_map_or (λ (walk : walks.Walk). walk.starts == 4) self.now.walk false }
    {
        self.call.is_some() && self.starts == LAST_START
    }

    /// Moves the walk to the root.
    pub(crate) fn enter(&mut self, alloc: Global)
        ensures { self.new ≡ record self.old { walk = option_map (entered self.old.client.domain) self.old.walk } }
    {
        let Some(call) = &self.call else {
            return;
        };
        let len = trunk_len(call);
        self.trunk.start(alloc, &self.client.domain, len);
        self.stage = Stage::Down;
    }

    /// The next name of the current leg.
    #[inline(always)]
    pub(crate) fn next_name(&self) -> Option<&str>
        ensures { option_map (λ name. name.now) result ≡ next_in self.now }
    {
        let call = self.call.as_ref()?;
        match turn_of(self.stage, &self.first) {
            Turn::No => None,
            Turn::Trunk => next_name(first_path(call), self.trunk.ahead),
            Turn::First => next_name(first_path(call), self.first.ahead),
            Turn::Second => next_name(second_path(call), self.second.ahead),
        }
    }

    /// The next name, by its index. None at the end of the leg.
    pub(crate) fn name_ahead(&self) -> Option<NextName>
        ensures { TellsNext self.now result }
    {
        if self.call.is_none() {
            return None;
        }
        match turn_of(self.stage, &self.first) {
            Turn::No => None,
            Turn::Trunk => next_of(Turn::Trunk, self.trunk.ahead),
            Turn::First => next_of(Turn::First, self.first.ahead),
            Turn::Second => next_of(Turn::Second, self.second.ahead),
        }
    }

    /// Descends by the next name to this directory.
    pub(crate) fn descend(&mut self, inode: u64)
        requires { IsSome (next_in self.old) }
        ensures { self.new ≡ record self.old
            { walk = option_map (gone_down self.old.client.domain inode) self.old.walk } }
    {
        let Some(call) = &self.call else {
            return;
        };
        let domain = &self.client.domain;
        match turn_of(self.stage, &self.first) {
            Turn::No => {}
            Turn::Trunk => self.trunk.go_down(domain, first_path(call), inode),
            Turn::First => self.first.go_down(domain, first_path(call), inode),
            Turn::Second => self.second.go_down(domain, second_path(call), inode),
        }
    }

    /// Where the walk is.
    pub(crate) fn station(&self) -> Station
        ensures { result ≡ station_of self.now.walk }
    {
        let Some(call) = &self.call else {
            return Station::Idle;
        };
        if self.is_stale {
            return Station::Stale;
        }
        match self.stage {
            Stage::Above => Station::Above,
            Stage::Down => trunk_station(call, self.trunk.is_at_end()),
            Stage::Split => split_station(self.first.is_at_end(), self.second.is_at_end()),
        }
    }

    /// Whether the walk is at its fork.
    pub(crate) fn may_fork(&self) -> bool
        ensures { result ≡ option_map_or (λ (walk : walks.Walk). is_some (walks.forked walk.call walk.at)) self.now.walk
            false }
    {
        let Some(call) = &self.call else {
            return false;
        };
        match self.stage {
            Stage::Above => false,
            Stage::Down => has_two_paths(call) && self.trunk.is_at_end(),
            Stage::Split => false,
        }
    }

    /// Splits the walk into one leg for each path.
    pub(crate) fn fork(&mut self)
        requires { option_map_or (λ (walk : walks.Walk). is_some (walks.forked walk.call walk.at)) self.old.walk false
            ≡ true }
        ensures { self.new ≡ record self.old { walk = option_map split self.old.walk } }
    {
        let Some(call) = &self.call else {
            unreachable!()
        };
        let (first, second) = (way_len(first_path(call)), way_len(second_path(call)));
        self.first.follow(&self.trunk, first);
        self.second.follow(&self.trunk, second);
        self.stage = Stage::Split;
    }

    /// Restarts the walk, above the root.
    pub(crate) fn restart(&mut self)
        requires { (walk : walks.Walk) × (self.old.walk ≡ Some walk) × (walk.starts ≤ 4) }
        ensures { self.new ≡ record self.old { walk = option_map again self.old.walk } }
    {
        self.starts += 1;
        self.is_stale = false;
        self.stage = Stage::Above;
    }

    /// Whether each leg is at its end.
    pub(crate) fn is_at_ends(&self) -> bool
        ensures { result ≡ is_at_ends self.now }
    {
        let Some(call) = &self.call else {
            return false;
        };
        match self.stage {
            Stage::Above => false,
            Stage::Down => !has_two_paths(call) && self.trunk.is_at_end(),
            Stage::Split => self.first.is_at_end() && self.second.is_at_end(),
        }
    }

    /// The call whose walk is under way.
    pub(crate) fn call(&self) -> Option<&Call>
        ensures { option_map (λ call. call.now) result ≡ call_in self.now }
    {
        self.call.as_ref()
    }

    /// Makes the walk stale if it passes one of these directories.
    pub(crate) fn overtake(&mut self, moved: &[u64])
        ensures { self.new ≡ record self.old { walk = option_map (overtaken moved.now) self.old.walk } }
    {
        if self.passes_any(moved) {
            self.is_stale = true;
        }
    }

    /// Ends the walk.
    #[inline(always)]
    pub(crate) fn end(&mut self) -> Ended
        requires { (walk : walks.Walk) × (self.old.walk ≡ Some walk) }
        ensures ended { (walk : walks.Walk) → self.old.walk ≡ Some walk → EndsAs self.old.client.domain walk result }
        ensures rest { self.new ≡ record self.old { walk = None } }
    {
        let Some(call) = self.call.take() else {
            unreachable!()
        };
        match self.stage {
            Stage::Split => Ended {
                call,
                first: self.first.masks.take(),
                second: self.second.masks.take(),
            },
            _ => {
                let first = self.trunk.masks.copy();
                let second = self.trunk.masks.take();
                Ended {
                    call,
                    first,
                    second,
                }
            }
        }
    }

    /// The client's spare slot.
    pub(crate) fn spare(&self) -> u64
        ensures { result ≡ self.now.spare }
    {
        self.spare
    }

    /// Closes the client's descriptor.
    pub(crate) fn close(&mut self, number: u64)
        ensures { self.new ≡ record self.old {
          client = record self.old.client { descriptors = remove self.old.client.descriptors number };
        } }
    {
        self.client.descriptors.remove(number);
    }

    /// Decides and makes the call of the client's ended walk. Returns the reply. Errors: memory ran out, and nothing
    /// has changed.
    pub(crate) fn perform(
        &mut self,
        alloc: Global,
        table: &mut Inodes,
        slots: &[u64],
        lent: &mut [Held],
        walk: &Ended,
        found: &Found,
    ) -> Result<ReplyPair, AllocError>
        requires idle { self.old.walk ≡ None }
        requires end { (scene : Scene)
            × IsAtEnd scene (at_seat self.old table.old slots.now lent.old) walk.now found.now }
        ensures ok { IfOk result (λ reply. Performs (at_seat self.old table.old slots.now lent.old) walk.now found.now
            reply (at_seat self.new table.new slots.now lent.new)) }
        ensures rest { self.new.walk ≡ None }
        ensures err { OnErr result ((self.new ≡ self.old) × (table.new ≡ table.old) × (lent.new ≡ lent.old)) }
        ensures starved { OnErr result
            (IsFreeAtEnd (at_seat self.old table.old slots.now lent.old) walk.now found.now) }
        ensures calm { spares_memory walk.now.call ≡ true → is_ok result ≡ true }
    {
        let effect = match decide_end(&self.client, walk, found) {
            Err(reply) => return ReplyPair::new(alloc, reply),
            Ok(effect) => effect,
        };
        let reply = tell(effect.answer, table, lent, alloc)?;
        let told = ReplyPair::new(alloc, reply)?;
        let (client, spare) = (&mut self.client, &mut self.spare);
        enact(alloc, client, spare, table, slots, lent, &effect.change)?;
        Ok(told)
    }
}
