//! Where no thread comes.

use std::sync::Wait;

/// Never returns. It stands where no thread comes for a reason that no contract below it can give: that a tree has at
/// most as many clients as it has places for, and that whoever closes it has them all.
pub fn dead_end<H: Wait>(rt: &H)
    ensures { ⊥ }
{
    for _ in rt.forever() {}
    unreachable!()
}
