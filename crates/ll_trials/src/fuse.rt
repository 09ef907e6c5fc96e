//! A reader for tests. It reads one byte at a time, and fails after its calls are used up.

ghost use Rattle.std.specs.Prelude.{Some};

use std::io;
use std::io::{ErrorKind, Read};

#[derive(Drop)]
pub struct Source<'a> {
    pub rest: &'a [u8],
    pub calls: usize,
}

impl Read for Source<'_> {
    ghost remaining = { λ source. Some source.rest.now };

    fn read(&mut self, buf: &mut [u8]) -> io::Result<usize> {
        if self.calls == 0 {
            return Err(io::Error::from(ErrorKind::Other));
        }
        self.calls -= 1;
        if buf.len() == 0 {
            return Ok(0);
        }
        match self.rest {
            [] => Ok(0),
            [first, rest @ ..] => {
                buf[0] = *first;
                self.rest = rest;
                Ok(1)
            }
        }
    }
}
