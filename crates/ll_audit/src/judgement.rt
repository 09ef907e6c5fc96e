//! Judges history files.

ghost use Rattle.std.specs.Prelude.{◌≡◌, ◌++◌, List, ℕ, IfOk, OnErr};
ghost use Rattle.ll_seq.specs.declared.reply.Entry as entries;
ghost use Rattle.ll_wire.specs.Pieces.{pieces};
ghost use Rattle.ll_wire.specs.declared.header.Header as headers;
ghost use Rattle.ll_audit.specs.Saved.{Judges, Tell};

use crate::AuditFault;
use crate::parts::follow_parts;
use crate::progress::Progress;
use crate::saved::{ReadFault, Saved};
use crate::verdict::Verdict;
use ll_plain::Plain;
use std::alloc::{AllocError, Global};

impl Saved {
    // Makes the entries' calls in a new tree.
    fn judged<P: Progress>(&self, alloc: Global, progress: &mut P) -> Result<Verdict, AllocError>
        ensures { IfOk result (λ verdict. (lines : List (List ℕ))
            → Tell lines self.now.header self.now.entries.items → Judges lines verdict) }
    {
        let header = self.header;
        let mut tree = Plain::new(alloc, header.version.rules(), header.nodes)?;
        let followed = follow_parts(&mut tree, &self.entries, progress);
        drop(tree);
        match followed {
            Ok(()) => Ok(Verdict::Legal(self.entries.len())),
            Err(AuditFault::Illegal(entry)) => Ok(Verdict::Illegal(entry)),
            Err(AuditFault::NoMemory) => Err(AllocError),
        }
    }
}

/// Returns the verdict on a file's bytes. Errors: memory ran out.
pub fn judge<P: Progress>(
    alloc: Global,
    bytes: &[u8],
    progress: &mut P,
) -> Result<Verdict, AllocError>
    ensures verdict { IfOk result (λ verdict. Judges (pieces bytes.now) verdict) }
    // Memory runs out only for the tree that the header describes, and for its entries.
    ensures starved { OnErr result ((h : headers.Header) × (es : List entries.Entry)
        × (front back : List (List ℕ)) × (pieces bytes.now ≡ front ++ back) × Tell front h es) }
{
    match Saved::read(alloc, bytes) {
        Ok(saved) => saved.judged(alloc, progress),
        Err(ReadFault::BadLine(line)) => Ok(Verdict::BadLine(line)),
        Err(ReadFault::NoMemory) => Err(AllocError),
    }
}
