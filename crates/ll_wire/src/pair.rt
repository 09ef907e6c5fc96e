//! A reader and a writer as two devices.

ghost use Rattle.std.specs.Prelude.{◌≡◌, false};

use crate::ends::{Broken, Ends};
use crate::feeds::count_feeds;
use crate::{read_steadily, write_steadily};
use std::io::{Read, Write};

/// A reader and a writer, with two counts: the reads that returned bytes, and, if line feeds are answered, the line
/// feeds whose answers are due.
#[derive(Drop)]
pub struct Pair<'a, R, W> {
    pub reader: &'a mut R,
    pub writer: &'a mut W,
    pub reads: u64,
    pub owed: usize,
    pub is_answering: bool,
    pub is_input_broken: bool,
    pub is_output_broken: bool,
}

impl<'a, R, W> Pair<'a, R, W> {
    /// Returns the two devices before anything is read or written. `is_answering` says whether line feeds are answered.
    pub fn new(reader: &'a mut R, writer: &'a mut W, is_answering: bool) -> Pair<'a, R, W>
        ensures { result ≡ record {
          reader = reader.entry;
          writer = writer.entry;
          reads = 0;
          owed = 0;
          is_answering = is_answering;
          is_input_broken = false;
          is_output_broken = false;
        } }
    {
        Pair {
            reader,
            writer,
            reads: 0,
            owed: 0,
            is_answering,
            is_input_broken: false,
            is_output_broken: false,
        }
    }
}

impl<R: Read, W: Write> Ends for Pair<'_, R, W> {
    ghost use Rattle.std.specs.Prelude.{[], ◌∷◌};

    ghost devices = { λ p. record {
      remaining = R.remaining p.reader.now;
      contents = W.contents p.writer.now;
      reads = p.reads;
      owed = p.owed;
      is_answering = p.is_answering;
      is_input_broken = p.is_input_broken;
      is_output_broken = p.is_output_broken;
    } };

    ghost names = { λ p. p.reader.ghost_name ∷ p.writer.ghost_name ∷ [] };

    fn read(&mut self, buf: &mut [u8]) -> Result<usize, Broken> {
        match read_steadily(self.reader, buf) {
            Ok(0) => Ok(0),
            Ok(count) => {
                self.reads += 1;
                if self.is_answering {
                    self.owed = count_feeds(&buf[..count]);
                }
                Ok(count)
            }
            Err(_) => {
                self.is_input_broken = true;
                Err(Broken)
            }
        }
    }

    fn write(&mut self, bytes: &[u8]) -> Result<usize, Broken> {
        match write_steadily(self.writer, bytes) {
            Ok(count) if count > 0 || bytes.is_empty() => {
                self.owed = self.owed.saturating_sub(count_feeds(&bytes[..count]));
                Ok(count)
            }
            _ => {
                self.is_output_broken = true;
                Err(Broken)
            }
        }
    }
}
