//! Why a run ends early.

ghost use Rattle.std.specs.Prelude.{◌≡◌};

use crate::refusal::Refusal;
use ll_wire::SessionFault;
use thiserror::Error;

/// Why a run ends without its whole transcript.
#[derive(Debug, Drop, Error)]
pub enum RunFault {
    #[error("a call of the opening is refused")]
    Opening(Refusal),
    #[error("{0}")]
    Session(SessionFault),
}

impl From<SessionFault> for RunFault {
    ghost use Rattle.ll_session.specs.declared.fault.RunFault.{RunFault};

    ghost from_gives = { λ fault r. r ≡ RunFault.Session fault };

    fn from(fault: SessionFault) -> RunFault {
        RunFault::Session(fault)
    }
}
