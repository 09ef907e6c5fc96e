//! Audits: checks that the entries of a history are calls of one tree, made one after the other, each with its reply.
#![tactic(auto)]

mod archive;
mod entry;
mod fault;
mod file_audit;
mod judgement;
mod parts;
mod progress;
mod saved;
mod verdict;

ghost use Rattle.std.specs.Prelude.{◌≡◌, ◌<◌, ◌≤◌, ◌+◌, ◌^◌, ◌++◌, ℕ, List, length, OnOk, IfErr};
ghost use Rattle.ll_laws.specs.NoGain.{GainsNothing};
ghost use Rattle.ll_laws.specs.Withheld.{Withholds};
ghost use Rattle.ll_seq.specs.History.{IsLegal, state_after};
ghost use Rattle.ll_seq.specs.State.{start};
ghost use Rattle.ll_seq.specs.declared.reply.Entry as entries;
ghost use Rattle.ll_audit.specs.Audit.{IsFirstIllegal, Starves};

use entry::may_stand;
pub use fault::AuditFault;
use ll_plain::Plain;
use ll_rights::limits::TREE_NODES;
use ll_seq::{Entry, History, Rules};
use std::alloc::Global;

/// Makes the entries' calls in a tree, up to the first whose reply isn't the tree's. Errors: that entry's number, or
/// memory ran out. The tree's state is then unspecified: the faulty entry's call may have been made.
pub fn follow(tree: &mut Plain, entries: &[Entry]) -> Result<(), AuditFault>
    requires { tree.old.next + length entries.now < 2 ^ 64 }
    ensures legal { OnOk result (IsLegal tree.old entries.now) }
    ensures after { OnOk result (tree.new ≡ state_after tree.old entries.now) }
    ensures illegal { IfErr result (λ fault. (number : ℕ) → fault ≡ AuditFault.Illegal number
        → IsFirstIllegal tree.old entries.now number) }
    ensures starved { IfErr result (λ fault. fault ≡ AuditFault.NoMemory → Starves tree.old entries.now) }
{
    for (i, entry) in entries.iter().enumerate() {
        match may_stand(tree, entry) {
            Ok(true) => {}
            Ok(false) => return Err(AuditFault::Illegal(i + 1)),
            Err(_) => return Err(AuditFault::NoMemory),
        }
    }
    Ok(())
}

/// Judges the history of a tree with these rules and this limit of live nodes. Errors: the number of the first illegal
/// entry, or memory ran out.
pub fn audit(alloc: Global, rules: Rules, nodes: usize, history: &History) -> Result<(), AuditFault>
    requires some { 1 ≤ nodes }
    requires most { nodes ≤ TREE_NODES }
    ensures legal { OnOk result (IsLegal (start rules nodes) history.now.entries) }
    ensures illegal { IfErr result (λ fault. (number : ℕ) → fault ≡ AuditFault.Illegal number
        → IsFirstIllegal (start rules nodes) history.now.entries number) }

    // What the laws guarantee for a legal history.
    ensures reach { OnOk result ((early late : List entries.Entry) → early ++ late ≡ history.now.entries
        → GainsNothing rules nodes early late) }
    ensures bytes { OnOk result ((early late : List entries.Entry) → early ++ late ≡ history.now.entries
        → Withholds rules nodes early late) }
{
    let Ok(mut tree) = Plain::new(alloc, rules, nodes) else {
        return Err(AuditFault::NoMemory);
    };
    follow(&mut tree, history.entries())
}

pub use archive::{SaveFault, record_in, save, save_in, save_over};
pub use file_audit::{FileAuditFault, run_audit, run_audit_over};
pub use judgement::judge;
pub use progress::{Progress, Untold};
pub use saved::{ReadFault, Saved};
pub use verdict::Verdict;
