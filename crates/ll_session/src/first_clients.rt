//! The clients that come before the first line.

ghost use Rattle.std.specs.Prelude.{◌≡◌, ℕ, ◌<◌, length, IfErr, IfOk, IfSome, OnOk};
ghost use Rattle.ll_session.specs.declared.refusal.Opener.{Opener};

use crate::calls::make_calls;
use crate::refusal::{Opener, Refusal};
use crate::setup::Setup;
use crate::shared::Shared;
use ll_client::Shape;
use ll_seq::Call;
use std::sync::Wait;

impl<N: Shape> Shared<N> {
    ghost use Rattle.ll_session.specs.Between.{Leads};
    ghost use Rattle.ll_session.specs.Session.{AreOthers};
    ghost use Rattle.ll_session.specs.FirstClients.{Comes, Loads, Opens, Refuses, begun, coming_at, fresh, made};
    ghost use Rattle.ll_session.specs.Progress.{without};

    // Adds the next client, which makes these calls.
    fn bring<R: Wait>(&mut self, rt: &R, opener: Opener, calls: Vec<Call>) -> Result<(), Refusal>
        requires { AreOthers calls.items }
        ensures ok { OnOk result ((room : ℕ) → Leads N.rules room N.limit self.old.party self.new.party
            (λ s t. Comes s calls.items (made t))) }
        ensures err { IfErr result (λ refusal. (room : ℕ)
            → Leads N.rules room N.limit self.old.party self.new.party
            (λ s t. Comes s calls.items (coming_at refusal t))) }
        ensures opener { IfErr result (λ refusal. refusal.opener ≡ opener) }
        ensures count { OnOk result (length self.old.party < length self.new.party) }
    {
        let before = self.len();
        match self.party.join(rt, &self.tree) {
            Ok(()) => {}
            Err(errno) => {
                drop(calls);
                return Err(Refusal::at_connect(opener, errno));
            }
        }
        let place = before as usize;
        make_calls(rt, &self.tree, &mut self.party, place, opener, calls)
    }

    // Adds the loader, if there is one, which makes its calls.
    fn load<R: Wait>(&mut self, rt: &R, loader: Option<Vec<Call>>) -> Result<(), Refusal>
        requires { IfSome loader (λ calls. AreOthers calls.items) }
        ensures ok { OnOk result ((room : ℕ) → Leads N.rules room N.limit self.old.party self.new.party
            (λ s t. Loads s loader (made t))) }
        ensures err { IfErr result (λ refusal. (room : ℕ)
            → Leads N.rules room N.limit self.old.party self.new.party
            (λ s t. Loads s loader (coming_at refusal t))) }
        ensures opener { IfErr result (λ refusal. refusal.opener ≡ Opener.Loader) }
    {
        match loader {
            Some(calls) => self.bring(rt, Opener::Loader, calls),
            None => Ok(()),
        }
    }

    /// Adds to a new tree the loader, if there is one, and then the first client of the session. Returns how many
    /// clients came before that. Errors: a connect or a call of one of them is refused, so that no session begins.
    pub fn open<R: Wait>(&mut self, rt: &R, setup: Setup) -> Result<u64, Refusal>
        ensures ok { IfOk result (λ before. (room : ℕ) → Leads N.rules room N.limit self.old.party self.new.party
            (λ s t. s ≡ fresh setup → Opens setup (begun (without before t)))) }
        ensures err { IfErr result (λ refusal. (room : ℕ) → Leads N.rules room N.limit self.old.party self.new.party
            (λ s t. s ≡ fresh setup → Refuses setup refusal t)) }
        ensures some { IfOk result (λ before. before < length self.new.party) }
    {
        self.load(rt, setup.loader)?;
        let before = self.len();
        self.bring(rt, Opener::Profile, setup.profile)?;
        Ok(before)
    }
}
