//! The two ends of a connection, with a limit for their bytes.

use crate::room::Room;
use crate::trouble::Trouble;
use std::alloc::{AllocError, Global};
use std::io;
use std::io::{ErrorKind, Read, Write};

/// A connection's reader, the room that its bytes use, and why it couldn't be read.
#[derive(Drop)]
pub struct Heard<R> {
    reader: R,
    room: Room,
    trouble: Option<Trouble>,
}

impl<R: Read> Read for Heard<R> {
    ghost remaining = { λ heard. R.remaining heard.reader };

    // After the room is used up, a read fails, so that no line is read after that.
    fn read(&mut self, buf: &mut [u8]) -> io::Result<usize> {
        if self.room.is_used_up() {
            self.trouble = Some(Trouble::RoomUsedUp);
            return Err(io::Error::from(ErrorKind::QuotaExceeded));
        }
        match self.reader.read(buf) {
            Ok(count) => {
                self.room.take(&buf[..count]);
                Ok(count)
            }
            Err(error) => {
                self.trouble = Some(Trouble::of(&error));
                Err(error)
            }
        }
    }
}

/// A connection's writer, the room that its bytes use, and why no more could be written.
#[derive(Drop)]
pub struct Told<W> {
    writer: W,
    room: Room,
    trouble: Option<Trouble>,
}

impl<W: Write> Write for Told<W> {
    ghost contents = { λ told. W.contents told.writer };

    // With the last of the room, only whole lines are written.
    fn write(&mut self, buf: &[u8]) -> io::Result<usize> {
        let fitting = self.room.fitting(buf);
        if fitting == 0 && !buf.is_empty() {
            self.trouble = Some(Trouble::RoomUsedUp);
            return Err(io::Error::from(ErrorKind::QuotaExceeded));
        }
        match self.writer.write(&buf[..fitting]) {
            Ok(count) => {
                self.room.take(&buf[..count]);
                Ok(count)
            }
            Err(error) => {
                self.trouble = Some(Trouble::of(&error));
                Err(error)
            }
        }
    }

    fn flush(&mut self) -> io::Result<()> {
        self.writer.flush()
    }
}

/// Returns both ends of a connection with this much room, in megabytes. Errors: memory ran out.
pub(crate) fn bounded<R: Drop, W: Drop>(
    alloc: Global,
    megabytes: u64,
    reader: R,
    writer: W,
) -> Result<(Heard<R>, Told<W>), AllocError> {
    let room = Room::new(alloc, megabytes)?;
    let heard = Heard {
        reader,
        room: room.share()?,
        trouble: None,
    };
    let told = Told {
        writer,
        room,
        trouble: None,
    };
    Ok((heard, told))
}

/// Returns why a connection with these two ends couldn't go on, if one of them knows.
pub(crate) fn trouble_of<R, W>(heard: &Heard<R>, told: &Told<W>) -> Option<Trouble> {
    told.trouble.or(heard.trouble)
}
