//! Hands streams over.

ghost use Rattle.std.specs.Prelude.{◌≡◌, IfErr};

use crossbeam_channel::Sender;
use std::sync::Wait;

/// Sends a stream to whoever serves it. Errors: the stream, if it can't be sent.
pub fn hand_over<S: Drop, H: Wait>(rt: &H, sender: &Sender<S>, stream: S) -> Result<(), S>
    ensures { IfErr result (λ back. back ≡ stream) }
{
    match sender.send(rt, stream) {
        Ok(()) => Ok(()),
        Err(refused) => Err(refused.into_inner()),
    }
}
