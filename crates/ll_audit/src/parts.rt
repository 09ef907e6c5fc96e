//! Follows histories and reports progress.

ghost use Rattle.std.specs.Prelude.{◌≡◌, ◌<◌, ◌+◌, ◌^◌, ℕ, length, OnOk, IfErr};
ghost use Rattle.ll_seq.specs.History.{IsLegal};
ghost use Rattle.ll_audit.specs.Audit.{IsFirstIllegal, Starves};

use crate::progress::Progress;
use crate::{AuditFault, follow};
use ll_plain::Plain;
use ll_seq::Entry;

/// Progress is reported after this many entries.
const STRIDE: usize = 10_000;

/// Makes the entries' calls in a tree, up to the first whose reply isn't the tree's. Reports progress. Errors: that
/// entry's number, or memory ran out.
pub fn follow_parts<P: Progress>(
    tree: &mut Plain,
    entries: &[Entry],
    progress: &mut P,
) -> Result<(), AuditFault>
    requires { tree.old.next + length entries.now < 2 ^ 64 }
    ensures legal { OnOk result (IsLegal tree.old entries.now) }
    ensures illegal { IfErr result (λ fault. (number : ℕ) → fault ≡ AuditFault.Illegal number
        → IsFirstIllegal tree.old entries.now number) }
    ensures starved { IfErr result (λ fault. fault ≡ AuditFault.NoMemory → Starves tree.old entries.now) }
{
    let mut rest = entries;
    while !rest.is_empty() {
        let (part, more) = rest.split_at(rest.len().min(STRIDE));
        match follow(tree, part) {
            Ok(()) => {}
            Err(AuditFault::Illegal(entry)) => {
                return Err(AuditFault::Illegal(entries.len() - rest.len() + entry));
            }
            Err(AuditFault::NoMemory) => return Err(AuditFault::NoMemory),
        }
        rest = more;
        progress.tell(entries.len() - rest.len(), entries.len());
    }
    Ok(())
}
