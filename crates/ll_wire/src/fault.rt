//! Why the answering of lines ends early.

use thiserror::Error;

/// Why a session, or any other reader of lines, ends before its input does.
#[derive(Debug, Drop, Error)]
pub enum SessionFault {
    #[error("the input can't be read")]
    Read,
    #[error("the output can't be written")]
    Write,
    #[error("no memory for the session")]
    NoMemory,
    #[error("the input takes too many reads")]
    TooLong,
}
