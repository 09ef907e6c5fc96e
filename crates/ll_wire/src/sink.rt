//! Bytes, written whole.

ghost use Rattle.std.specs.Prelude.{◌≡◌, false, OnOk, OnErr};
ghost use Rattle.std.specs.Io.KnownBytes.{Appends};
ghost use Rattle.ll_wire.specs.WriterGains.{AppendsFront};
ghost use Rattle.ll_wire.specs.Devices.{Took, TookNone};

use crate::ends::{Broken, Ends};

/// Writes all the bytes. Errors: the output failed, and a prefix of them may be written. Doesn't retry.
pub fn write_out<E: Ends>(ends: &mut E, bytes: &[u8]) -> Result<(), Broken>
    requires { (E.devices ends.old).is_output_broken ≡ false }
    ensures ok { OnOk result (Appends (E.devices ends.old).contents (E.devices ends.new).contents bytes.now) }
    ensures took { OnOk result (Took (E.devices ends.old) (E.devices ends.new) bytes.now) }
    ensures err { OnErr result
        (AppendsFront (E.devices ends.old).contents (E.devices ends.new).contents bytes.now) }
    ensures broken { OnErr result (TookNone (E.devices ends.old) (E.devices ends.new)) }
    ensures same { E.names ends.new ≡ E.names ends.old }
{
    let mut rest = bytes;
    while !rest.is_empty() {
        let count = ends.write(rest)?;
        rest = &rest[count..];
    }
    Ok(())
}
