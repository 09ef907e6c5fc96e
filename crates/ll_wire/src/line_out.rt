//! Writes a line.

ghost use Rattle.std.specs.Prelude.{◌≡◌, IfErr, OnErr, OnOk};
ghost use Rattle.std.specs.Io.KnownBytes.{Appends};
ghost use Rattle.ll_wire.specs.Devices.{IsWhole, KeepsInput, Took, TookNone};
ghost use Rattle.ll_wire.specs.WriterGains.{AppendsFront};
ghost use Rattle.ll_wire.specs.declared.fault.SessionFault.{SessionFault};

use crate::fault::SessionFault;
use crate::{Ends, write_out};

/// Writes the whole line. Errors: the output failed, and a prefix of the line may be written. Doesn't retry.
pub fn write_line<E: Ends>(ends: &mut E, line: &str) -> Result<(), SessionFault>
    requires { IsWhole (E.devices ends.old) }
    ensures ok { OnOk result (Appends (E.devices ends.old).contents (E.devices ends.new).contents line.now) }
    ensures took { OnOk result (Took (E.devices ends.old) (E.devices ends.new) line.now) }
    ensures err { OnErr result
        (AppendsFront (E.devices ends.old).contents (E.devices ends.new).contents line.now) }
    ensures broken { OnErr result (TookNone (E.devices ends.old) (E.devices ends.new)) }
    ensures fault { IfErr result (λ fault. fault ≡ SessionFault.Write) }
    ensures same { E.names ends.new ≡ E.names ends.old }
{
    match write_out(ends, line.as_bytes()) {
        Ok(()) => Ok(()),
        Err(_) => Err(SessionFault::Write),
    }
}
