//! What sessions count.

ghost use Rattle.std.specs.Prelude.{◌≡◌, ◌<◌, ◌^◌};
ghost use Rattle.ll_session.specs.Counts.{counted, denied};

use ll_seq::Reply;

/// The number of answered lines, and the number of denials among the replies.
#[derive(Clone, Copy, Debug, PartialEq, Eq)]
pub struct Tally {
    pub lines: u64,
    pub denials: u64,
}

// Returns how much this reply adds to the denials.
fn denied(reply: &Reply) -> u64
    ensures { result ≡ denied reply.now }
{
    match reply {
        Reply::Denied(_) => 1,
        _ => 0,
    }
}

impl Tally {
    ghost use Rattle.ll_session.specs.Counts.{nothing};

    /// Returns a tally without lines.
    pub fn nothing() -> Tally
        ensures { result ≡ nothing }
    {
        Tally {
            lines: 0,
            denials: 0,
        }
    }

    /// Counts a line that got this reply.
    pub fn count(&mut self, reply: &Reply)
        requires lines { self.old.lines < 2 ^ 63 }
        requires denials { self.old.denials < 2 ^ 63 }
        ensures { self.new ≡ counted self.old reply.now }
    {
        self.lines += 1;
        self.denials += denied(reply);
    }
}
