//! Calls that name paths.

ghost use Rattle.std.specs.Prelude.{◌≡◌, ◌<◌, ◌-◌, ◌^◌, true};
ghost use Rattle.ll_rights.specs.Map.{has};
ghost use Rattle.ll_plain.specs.Outcomes.{Comes};
ghost use Rattle.ll_seq.specs.Passed.{has_path};

use crate::Plain;
use ll_rights::Errno;
use ll_seq::{Call, Reply};

impl Plain {
    /// Makes the client's call, which names a path: finds its paths, decides, builds the reply, and then makes the
    /// change.
    pub(crate) fn perform(&mut self, client: u64, call: &Call) -> Reply
        requires caller { has self.old.clients client ≡ true }
        requires path { has_path call.now ≡ true }
        requires next { self.old.next < 2 ^ 64 - 1 }
        ensures { Comes self.old client call.now result self.new }
    {
        let effect = match self.effect(client, call) {
            Err(reply) => return reply,
            Ok(effect) => effect,
        };
        let Ok(reply) = self.tell(effect.answer) else {
            return Reply::Refused(Errno::NoMemory);
        };
        match self.enact(client, &effect.change) {
            Err(_) => Reply::Refused(Errno::NoMemory),
            Ok(()) => reply,
        }
    }
}
