//! The rights that a call needs of each layer, and where.

ghost use Rattle.std.specs.Prelude.{IfOk};
ghost use Rattle.ll_seq.specs.Passed.{Passed};
ghost use Rattle.ll_seq.specs.declared.client.ClientRecord as record_of;
ghost use Rattle.ll_why.specs.Reasons.{AreAsked};

use crate::chain::PathChains;
use crate::demands::known_demands;
use ll_decide::Demands;
use ll_plain::Plain;
use ll_seq::{Call, Found, demands_of};
use std::alloc::{AllocError, Global};

/// The rights that a call needs of each layer, and the inodes of its two paths (equal if it has only one).
#[derive(Drop)]
pub struct Asks {
    pub demands: Demands,
    pub first: PathChains,
    pub second: PathChains,
}

impl Asks {
    /// Returns what the call needs, given what is found for it in the tree. Errors: memory ran out.
    pub fn of_call(
        alloc: Global,
        tree: &Plain,
        call: &Call,
        found: &Found,
    ) -> Result<Asks, AllocError>
        ensures { IfOk result (λ asks. (c : record_of.ClientRecord) → Passed tree.now c call.now found.now
            → AreAsked tree.now call.now asks) }
    {
        let first = PathChains::of_first(alloc, tree, call)?;
        let second = PathChains::of_second(alloc, tree, call)?;
        Ok(Asks {
            demands: known_demands(demands_of(call, found)),
            first,
            second,
        })
    }
}
