//! Audits files: reads a history, judges it, and writes the verdict.

ghost use Rattle.std.specs.Prelude.{◌≡◌, ◌≢◌, ◌<◌, ◌++◌, ℕ, List, true, false, length, IfSome, IfOk, IfErr, OnOk, Ok};
ghost use Rattle.std.specs.Prelude.{Err};
ghost use Rattle.std.specs.Io.KnownBytes.{Appends, Consumes, IsAtEnd, Keeps};
ghost use Rattle.ll_wire.specs.Devices.{IsWhole};
ghost use Rattle.ll_wire.specs.Pieces.{pieces};
ghost use Rattle.ll_audit.specs.Faults.{BlamesAudit, IsReading};
ghost use Rattle.ll_audit.specs.Saved.{Judges, verdict_line};
ghost use Rattle.ll_wire.specs.WriterGains.{AppendsFront};
ghost use Rattle.ll_audit.specs.declared.verdict.Verdict as verdicts;

use crate::judgement::judge;
use crate::progress::Progress;
use crate::verdict::Verdict;
use ll_wire::{Ends, Pair, write_out};
use std::alloc::{AllocError, Global};
use std::io::{Read, Write};
use thiserror::Error;

/// Why an audit has no verdict.
#[derive(Clone, Copy, Debug, PartialEq, Eq, Error)]
pub enum FileAuditFault {
    #[error("the history can't be read")]
    Read,
    #[error("the answer can't be written")]
    Write,
    #[error("no memory for the audit")]
    NoMemory,
}

/// The size of a read, in bytes.
const BLOCK: usize = 65_536;

// Reads on and appends to `bytes`. Returns whether there may be more.
fn read_more<E: Ends>(
    ends: &mut E,
    chunk: &mut [u8],
    bytes: &mut Vec<u8>,
) -> Result<bool, FileAuditFault>
    requires ready { IsReading (E.devices ends.old) (length bytes.old.items) }
    requires chunk { 0 < length chunk.old }
    ensures ready { OnOk result (IsReading (E.devices ends.new) (length bytes.new.items)) }
    ensures some { result ≡ Ok true → length bytes.old.items < length bytes.new.items }
    ensures end { result ≡ Ok false → IsAtEnd (E.devices ends.new).remaining }
    ensures gained { OnOk result ((gained : List ℕ) × (bytes.new.items ≡ bytes.old.items ++ gained)
        × Consumes (E.devices ends.old).remaining (E.devices ends.new).remaining gained) }
    ensures contents { (E.devices ends.new).contents ≡ (E.devices ends.old).contents }
    ensures fault { IfErr result (λ fault. BlamesAudit fault (E.devices ends.new)) }
    ensures reading { IfErr result (λ fault. fault ≢ FileAuditFault.Write) }
    ensures same { E.names ends.new ≡ E.names ends.old }
{
    match ends.read(chunk) {
        Ok(0) => Ok(false),
        Ok(count) => match bytes.extend_from_slice(&chunk[..count]) {
            Ok(()) => Ok(true),
            Err(_) => Err(FileAuditFault::NoMemory),
        },
        Err(_) => Err(FileAuditFault::Read),
    }
}

// A buffer for one read.
fn new_chunk(alloc: Global) -> Result<Vec<u8>, AllocError>
    ensures { IfOk result (λ chunk. 0 < length chunk.items) }
{
    Vec::from_elem(alloc, 0u8, BLOCK)
}

// Reads the whole file.
fn read_file<E: Ends>(alloc: Global, ends: &mut E) -> Result<Vec<u8>, FileAuditFault>
    requires { IsReading (E.devices ends.old) 0 }
    ensures bytes { IfOk result (λ bytes. IfSome (E.devices ends.old).remaining (λ told. bytes.items ≡ told)) }
    ensures end { OnOk result (IsAtEnd (E.devices ends.new).remaining) }
    ensures contents { (E.devices ends.new).contents ≡ (E.devices ends.old).contents }
    ensures whole { OnOk result (IsWhole (E.devices ends.new)) }
    ensures fault { IfErr result (λ fault. BlamesAudit fault (E.devices ends.new)) }
    ensures reading { IfErr result (λ fault. fault ≢ FileAuditFault.Write) }
    ensures same { E.names ends.new ≡ E.names ends.old }
{
    let mut bytes = Vec::new(alloc);
    let Ok(mut chunk) = new_chunk(alloc) else {
        return Err(FileAuditFault::NoMemory);
    };
    while read_more(ends, &mut chunk, &mut bytes)? {}
    Ok(bytes)
}

// Writes the verdict's line.
fn write_verdict<E: Ends>(
    alloc: Global,
    verdict: Verdict,
    ends: &mut E,
) -> Result<(), FileAuditFault>
    requires { IsWhole (E.devices ends.old) }
    ensures ok { OnOk result (Appends (E.devices ends.old).contents (E.devices ends.new).contents
        (verdict_line verdict)) }
    ensures remaining { (E.devices ends.new).remaining ≡ (E.devices ends.old).remaining }
    ensures silent { IfErr result (λ failure. failure ≢ FileAuditFault.Write
        → (E.devices ends.new).contents ≡ (E.devices ends.old).contents) }
    ensures begun { result ≡ Err FileAuditFault.Write
        → AppendsFront (E.devices ends.old).contents (E.devices ends.new).contents (verdict_line verdict) }
    ensures fault { IfErr result (λ fault. BlamesAudit fault (E.devices ends.new)) }
    ensures same { E.names ends.new ≡ E.names ends.old }
{
    let Ok(line) = verdict.text(alloc) else {
        return Err(FileAuditFault::NoMemory);
    };
    match write_out(ends, line.as_str().as_bytes()) {
        Ok(()) => Ok(()),
        Err(_) => Err(FileAuditFault::Write),
    }
}

/// Reads a history file to its end, judges it, and writes the verdict's line. Doesn't use a device again after it
/// failed. Errors: a device failed, or memory ran out.
pub fn run_audit_over<E: Ends, P: Progress>(
    alloc: Global,
    ends: &mut E,
    progress: &mut P,
) -> Result<Verdict, FileAuditFault>
    requires { IsReading (E.devices ends.old) 0 }
    ensures end { OnOk result (IsAtEnd (E.devices ends.new).remaining) }
    ensures verdict { IfOk result (λ verdict.
        IfSome (E.devices ends.old).remaining (λ bytes. Judges (pieces bytes) verdict)) }
    ensures answer { IfOk result (λ verdict.
        Appends (E.devices ends.old).contents (E.devices ends.new).contents (verdict_line verdict)) }
    // Only a failed write leaves anything written: a prefix of the verdict's line.
    ensures silent { IfErr result (λ failure. failure ≢ FileAuditFault.Write
        → (E.devices ends.new).contents ≡ (E.devices ends.old).contents) }
    ensures begun { result ≡ Err FileAuditFault.Write → (verdict : verdicts.Verdict)
        × IfSome (E.devices ends.old).remaining (λ bytes. Judges (pieces bytes) verdict)
        × AppendsFront (E.devices ends.old).contents (E.devices ends.new).contents (verdict_line verdict) }
    // A fault names a device only if it failed in this call, and none if memory ran out.
    ensures fault { IfErr result (λ fault. BlamesAudit fault (E.devices ends.new)) }
    ensures same { E.names ends.new ≡ E.names ends.old }
{
    let bytes = read_file(alloc, ends)?;
    let Ok(verdict) = judge(alloc, bytes.as_slice(), progress) else {
        return Err(FileAuditFault::NoMemory);
    };
    match write_verdict(alloc, verdict, ends) {
        Ok(()) => Ok(verdict),
        Err(failure) => Err(failure),
    }
}

/// Reads a history file to its end, judges it, and writes the verdict's line. Errors: a device failed, or memory ran
/// out.
pub fn run_audit<R: Read, W: Write, P: Progress>(
    alloc: Global,
    reader: &mut R,
    writer: &mut W,
    progress: &mut P,
) -> Result<Verdict, FileAuditFault>
    ensures end { OnOk result (IsAtEnd (R.remaining reader.new)) }
    ensures verdict { IfOk result (λ verdict.
        IfSome (R.remaining reader.old) (λ bytes. Judges (pieces bytes) verdict)) }
    ensures answer { IfOk result (λ verdict.
        Appends (W.contents writer.old) (W.contents writer.new) (verdict_line verdict)) }

    // Only a failed write leaves anything written: a prefix of the verdict's line.
    ensures silent { IfErr result (λ failure. failure ≢ FileAuditFault.Write
        → Keeps (W.contents writer.old) (W.contents writer.new)) }
    ensures begun { result ≡ Err FileAuditFault.Write → (verdict : verdicts.Verdict)
        × IfSome (R.remaining reader.old) (λ bytes. Judges (pieces bytes) verdict)
        × AppendsFront (W.contents writer.old) (W.contents writer.new) (verdict_line verdict) }
{
    let mut ends = Pair::new(reader, writer, false);
    run_audit_over(alloc, &mut ends, progress)
}
