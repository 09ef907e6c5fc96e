//! Writes whole texts.

ghost use Rattle.std.specs.Prelude.{OnOk, OnErr};
ghost use Rattle.std.specs.Io.KnownBytes.{Appends};
ghost use Rattle.ll_wire.specs.WriterGains.{AppendsFront};

use crate::steady::write_steadily;
use std::io;
use std::io::{ErrorKind, Write};

/// Writes the whole text. Retries if a signal interrupts a write, but not after a failure. Errors: the writer's, or it
/// takes no more bytes; a prefix of the text may be written.
pub fn write_whole<W: Write>(writer: &mut W, text: &str) -> io::Result<()>
    ensures ok { OnOk result (Appends (W.contents writer.old) (W.contents writer.new) text.now) }
    ensures err { OnErr result (AppendsFront (W.contents writer.old) (W.contents writer.new) text.now) }
{
    let mut rest = text.as_bytes();
    while !rest.is_empty() {
        match write_steadily(writer, rest) {
            Ok(0) => return Err(io::Error::from(ErrorKind::WriteZero)),
            Ok(n) => rest = &rest[n..],
            Err(error) => return Err(error),
        }
    }
    Ok(())
}
