//! The refused call of an opening.

ghost use Rattle.std.specs.Prelude.{◌≡◌};
ghost use Rattle.ll_seq.specs.declared.reply.Reply.{Reply};
ghost use Rattle.ll_session.specs.FirstClients.{is_told, unconnected_by};

use ll_rights::Errno;
use ll_seq::Reply;
use std::fmt;
use std::fmt::Debug;

/// A client that comes before the first line, and makes calls.
#[derive(Clone, Copy, Debug, PartialEq, Eq)]
pub enum Opener {
    /// It creates the policy's nodes.
    Loader,
    /// The first client of a session: it makes the calls of its profile.
    Profile,
}

/// What keeps a session from beginning: a connect or a call before the first line that is refused or denied.
#[derive(Drop)]
pub struct Refusal {
    /// Who makes it.
    pub opener: Opener,
    /// How many calls this client has made, up to and with the refused one. 0 if its connect is refused.
    pub calls: usize,
    /// The reply to the connect or the call.
    pub reply: Reply,
}

impl Debug for Refusal {
    fn fmt<W: fmt::Write>(&self, f: &mut fmt::Formatter<W>) -> fmt::Result {
        let (opener, calls) = (self.opener, self.calls);
        write!(f, "{opener:?} at call {calls}")
    }
}

impl Refusal {
    /// Returns the refusal of a connect.
    pub fn at_connect(opener: Opener, errno: Errno) -> Refusal
        ensures { result ≡ unconnected_by opener errno }
    {
        Refusal {
            opener,
            calls: 0,
            reply: Reply::Refused(errno),
        }
    }

    /// Reports whether the reply is written, as the only line: it is, unless it is the reply to a call of the loader.
    pub fn is_told(&self) -> bool
        ensures { result ≡ is_told self.now }
    {
        match self.opener {
            Opener::Loader => self.calls == 0,
            Opener::Profile => true,
        }
    }
}
