//! Whole texts of files.

ghost use Rattle.std.specs.Prelude.{◌≡◌, ◌⊎◌, IfOk, IfErr, IfSome, OnOk};
ghost use Rattle.std.specs.Io.KnownBytes.{Appends};
ghost use Rattle.ll_wire.specs.WriterGains.{AppendsFront};
ghost use Rattle.ll_program.specs.declared.failure.Failure.{Failure};

use crate::failure::Failure;
use ll_wire::{Pair, write_out};
use std::alloc::Global;
use std::io::{ErrorKind, Read, Write, empty};

/// Returns the whole text of a policy's or a schedule's file. Errors: it can't be read, or memory ran out.
pub fn read_text<R: Read>(alloc: Global, file: &mut R) -> Result<Vec<u8>, Failure>
    ensures text { IfOk result (λ text. IfSome (R.remaining file.old) (λ told. text.items ≡ told)) }
    ensures failure { IfErr result (λ failure. (failure ≡ Failure.File) ⊎ (failure ≡ Failure.NoMemory)) }
{
    let mut text = Vec::new(alloc);
    match file.read_to_end(&mut text) {
        Ok(_) => Ok(text),
        Err(error) if error.kind() == ErrorKind::OutOfMemory => Err(Failure::NoMemory),
        Err(_) => Err(Failure::File),
    }
}

/// Writes all bytes, to an output of the program. Doesn't retry after a failure.
pub fn write_bytes<W: Write>(bytes: &[u8], out: &mut W) -> Result<(), Failure>
    ensures ok { OnOk result (Appends (W.contents out.old) (W.contents out.new) bytes.now) }
    ensures failure { IfErr result (λ failure. (failure ≡ Failure.Output)
        × AppendsFront (W.contents out.old) (W.contents out.new) bytes.now) }
{
    let mut nothing = empty();
    let mut ends = Pair::new(&mut nothing, out, false);
    match write_out(&mut ends, bytes) {
        Ok(()) => Ok(()),
        Err(_) => Err(Failure::Output),
    }
}

/// Writes the whole text, to an output of the program. Doesn't retry after a failure.
pub fn write_text<W: Write>(text: &str, out: &mut W) -> Result<(), Failure>
    ensures ok { OnOk result (Appends (W.contents out.old) (W.contents out.new) text.now) }
    ensures failure { IfErr result (λ failure. (failure ≡ Failure.Output)
        × AppendsFront (W.contents out.old) (W.contents out.new) text.now) }
{
    write_bytes(text.as_bytes(), out)
}
