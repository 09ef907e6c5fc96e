//! Replies.

ghost use Rattle.std.specs.Prelude.{◌≡◌, ◌≢◌, ◌<◌, ◌↔◌, ℕ, true, IsTrue, IfOk, OnErr, slice_index};
ghost use Rattle.ll_decide.specs.declared.denial.Denial as denial_of;
ghost use Rattle.ll_rights.specs.declared.errno.Errno as errno_of;
ghost use Rattle.ll_seq.specs.Memory.{holds_memory};
ghost use Rattle.ll_seq.specs.Step.{IsAnswer};

use crate::call::Call;
use crate::listing::Listing;
use ll_decide::Denial;
use ll_path::Data;
use ll_rights::{Errno, Kind};
use std::alloc::{AllocError, Global};

/// What `stat` returns. A directory has 1 link; another node has one for each of its names.
#[derive(Clone, Copy, Debug, PartialEq, Eq)]
pub struct Status {
    pub inode: u64,
    pub kind: Kind,
    pub size: u64,
    pub links: u64,
}

/// The reply to a call.
#[derive(Drop)]
pub enum Reply {
    /// Success without further data.
    Done,
    /// The new descriptor's number.
    Opened(u64),
    /// Bytes of a file.
    Bytes(Data),
    /// The number of bytes written.
    Wrote(u64),
    /// The names in the directory, sorted by bytes.
    Listed(Listing),
    Found(Status),
    /// The new ruleset's number.
    Created(u64),
    /// The new client's number.
    Spawned(u64),
    Refused(Errno),
    Denied(Denial),
}

/// Does nothing when it runs. Its contract: each element of a byte slice is less than 256.
fn fit(bytes: &[u8])
    ensures { (i : ℕ) → slice_index bytes.now i < 256 }
{
    let _bytes = bytes;
}

impl Reply {
    /// Does nothing when it runs. Its contract: by the types alone, a reply that isn't a refusal is one that the tree
    /// may give.
    pub fn by_type(&self)
        ensures { ((errno : errno_of.Errno) → self.now ≢ Reply.Refused errno) → IsAnswer self.now }
    {
        match self {
            Reply::Bytes(bytes) => fit(bytes.as_slice()),
            Reply::Listed(listing) => {
                listing.names();
            }
            _ => {}
        }
    }

    /// Reports whether the reply is NoMemory.
    pub fn wants_memory(&self) -> bool
        ensures { IsTrue result ↔ (self.now ≡ Reply.Refused errno_of.Errno.NoMemory) }
    {
        matches!(self, Reply::Refused(Errno::NoMemory))
    }

    /// Reports whether a layer denied the call.
    pub fn is_denial(&self) -> bool
        ensures { IsTrue result ↔ ((denial : denial_of.Denial) × (self.now ≡ Reply.Denied denial)) }
    {
        matches!(self, Reply::Denied(_))
    }

    /// Returns a copy of the reply. Errors: memory ran out, only for a reply that holds bytes or names.
    pub fn copy(&self, alloc: Global) -> Result<Reply, AllocError>
        ensures ok { IfOk result (λ reply. reply ≡ self.now) }
        ensures err { OnErr result (holds_memory self.now ≡ true) }
    {
        match self {
            Reply::Done => Ok(Reply::Done),
            Reply::Opened(number) => Ok(Reply::Opened(*number)),
            Reply::Bytes(bytes) => Ok(Reply::Bytes(bytes.copy()?)),
            Reply::Wrote(count) => Ok(Reply::Wrote(*count)),
            Reply::Listed(listing) => Ok(Reply::Listed(listing.copy(alloc)?)),
            Reply::Found(status) => Ok(Reply::Found(*status)),
            Reply::Created(number) => Ok(Reply::Created(*number)),
            Reply::Spawned(number) => Ok(Reply::Spawned(*number)),
            Reply::Refused(errno) => Ok(Reply::Refused(*errno)),
            Reply::Denied(denial) => Ok(Reply::Denied(*denial)),
        }
    }

    /// Reports whether the replies are equal.
    pub fn is(&self, other: &Reply) -> bool
        ensures { IsTrue result ↔ (self.now ≡ other.now) }
    {
        match (self, other) {
            (Reply::Done, Reply::Done) => true,
            (Reply::Opened(number), Reply::Opened(other)) => number == other,
            (Reply::Bytes(bytes), Reply::Bytes(other)) => bytes.as_slice() == other.as_slice(),
            (Reply::Wrote(count), Reply::Wrote(other)) => count == other,
            (Reply::Listed(listing), Reply::Listed(other)) => listing.is(other),
            (Reply::Found(status), Reply::Found(other)) => status == other,
            (Reply::Created(number), Reply::Created(other)) => number == other,
            (Reply::Spawned(number), Reply::Spawned(other)) => number == other,
            (Reply::Refused(errno), Reply::Refused(other)) => errno == other,
            (Reply::Denied(denial), Reply::Denied(other)) => denial == other,
            _ => false,
        }
    }
}

/// One entry of a history: the client, its call, and the reply.
#[derive(Drop)]
pub struct Entry {
    pub client: u64,
    pub call: Call,
    pub reply: Reply,
}
