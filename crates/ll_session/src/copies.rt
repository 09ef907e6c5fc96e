//! Copies of calls.

ghost use Rattle.std.specs.Prelude.{◌≡◌, IfOk};

use ll_seq::Call;
use std::alloc::{AllocError, Global};

/// Copies the calls. Errors: memory ran out.
pub fn copy_calls(alloc: Global, calls: &[Call]) -> Result<Vec<Call>, AllocError>
    ensures { IfOk result (λ copies. copies.items ≡ calls.now) }
{
    let mut copies = Vec::with_capacity(alloc, calls.len())?;
    for call in calls {
        copies.push_reserved(call.copy(alloc)?);
    }
    Ok(copies)
}
