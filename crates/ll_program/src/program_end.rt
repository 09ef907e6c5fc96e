//! How the program ends.

ghost use Rattle.std.specs.Prelude.{◌≡◌, IfSome, OnOk};
ghost use Rattle.std.specs.Io.KnownBytes.{Appends};
ghost use Rattle.std.specs.Process.{exit_status};
ghost use Rattle.ll_program.specs.Failure.{end_line, status_at};

use crate::conclusion::Conclusion;
use crate::failure::Failure;
use std::io;
use std::io::Write;
use std::process::ExitCode;

/// The program's exit status, and whether the line on its end could be printed.
#[derive(Drop)]
pub struct Ended {
    pub status: ExitCode,
    pub printed: io::Result<()>,
}

// Prints the line on such an end, if it has one.
fn print_end<E: Write>(ended: &Result<Conclusion, Failure>, err: &mut E) -> io::Result<()>
    ensures { OnOk result (IfSome (end_line ended.now) (Appends (E.contents err.old) (E.contents err.new))) }
{
    match ended {
        Ok(Conclusion::Stopped(stopped)) => write!(err, "{stopped}"),
        Ok(_) => Ok(()),
        Err(failure) => writeln!(err, "{failure}"),
    }
}

fn status_at(ended: &Result<Conclusion, Failure>) -> u8
    ensures { result ≡ status_at ended.now }
{
    match ended {
        Ok(conclusion) => conclusion.status(),
        Err(failure) => failure.status(),
    }
}

/// Prints why the program failed, or what ended a strict run.
pub fn concluded<E: Write>(ended: &Result<Conclusion, Failure>, err: &mut E) -> Ended
    ensures status { exit_status result.status ≡ status_at ended.now }
    ensures line { OnOk result.printed (IfSome (end_line ended.now)
        (Appends (E.contents err.old) (E.contents err.new))) }
{
    let printed = print_end(ended, err);
    Ended {
        status: ExitCode::from(status_at(ended)),
        printed,
    }
}
