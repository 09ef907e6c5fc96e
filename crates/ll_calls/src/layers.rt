//! Calls with which a client confines itself. Errors of each: why the call did nothing.

ghost use Rattle.ll_seq.specs.declared.call.Call.TheVariants as calls;
ghost use Rattle.ll_seq.specs.declared.reply.Reply.TheVariants as replies;
ghost use Rattle.ll_client.specs.Gains.{Gains};
ghost use Rattle.ll_calls.specs.Typed.{made_as};

use crate::made::{created, done};
use crate::refused::Refused;
use crate::tree::Tree;
use ll_client::{Client, Shape};
use ll_path::Target;
use ll_rights::Access;
use ll_seq::Call;
use ll_walk::Gate;
use std::sync::Wait;

impl<N: Shape, G: Gate<N>> Tree<N, G> {
    /// Creates a ruleset that handles these rights. Returns its number. landlock_create_ruleset(2)
    pub fn ruleset<R: Wait>(
        &self,
        rt: &R,
        me: &mut Client<N>,
        handled: Access,
    ) -> Result<u64, Refused>
        ensures { Gains N.limit (calls.Ruleset handled) me.old.rider (made_as replies.Created result) me.new.rider }
    {
        created(self.call(rt, me, Call::Ruleset(handled)))
    }

    /// Adds a rule to the ruleset: these rights on the node that the path names, and on everything below it.
    /// landlock_add_rule(2)
    pub fn allow<R: Wait>(
        &self,
        rt: &R,
        me: &mut Client<N>,
        number: u64,
        target: Target,
        rights: Access,
    ) -> Result<(), Refused>
        ensures { Gains N.limit (calls.Allow number target rights) me.old.rider
            (made_as (λ nothing. replies.Done) result) me.new.rider }
    {
        done(self.call(rt, me, Call::Allow(number, target, rights)))
    }

    /// Enforces a copy of the ruleset as the client's newest layer. landlock_restrict_self(2)
    pub fn confine<R: Wait>(&self, rt: &R, me: &mut Client<N>, number: u64) -> Result<(), Refused>
        ensures { Gains N.limit (calls.Confine number) me.old.rider (made_as (λ nothing. replies.Done) result)
            me.new.rider }
    {
        done(self.call(rt, me, Call::Confine(number)))
    }
}
