//! The descriptors of standard input, output and error.

use std::fs::File;
use std::io;
use std::os::fd::AsFd;
use std::rt::HostRuntime;

/// Linux's error number for a closed descriptor.
const CLOSED: i32 = 9;

/// Occupies the descriptors of closed standard streams, so that no file opened later gets one. It returns no byte, and
/// takes none.
#[derive(Drop)]
pub struct Standard {
    input: Option<File>,
    output: Option<File>,
    error: Option<File>,
}

fn is_closed<F: AsFd>(standard: &F) -> bool {
    match standard.as_fd().try_clone_to_owned() {
        Ok(other) => {
            drop(other);
            false
        }
        Err(error) => error.raw_os_error() == Some(CLOSED),
    }
}

// An opened file gets the lowest free descriptor.
fn holder<F: AsFd>(rt: &HostRuntime, standard: &F) -> io::Result<Option<File>> {
    if is_closed(standard) {
        Ok(Some(File::open(rt, "/")?))
    } else {
        Ok(None)
    }
}

impl Standard {
    /// Occupies the descriptor of each closed standard stream, as long as the result lives.
    pub fn hold(rt: &HostRuntime) -> io::Result<Standard> {
        Ok(Standard {
            input: holder(rt, &rt.stdin())?,
            output: holder(rt, &rt.stdout())?,
            error: holder(rt, &rt.stderr())?,
        })
    }
}
