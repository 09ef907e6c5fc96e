//! Scripts, policies, histories and schedules: files, or standard input.

ghost use Rattle.std.specs.Prelude.{◌≡◌, ◌++◌, ℕ, List, Option, None, IfOk, IfSome, option_map};
ghost use Rattle.std.specs.Io.KnownBytes.{Consumes};
ghost use Rattle.ll_program.specs.Sources.{Starts, named};

use either::Either;
use std::alloc::Global;
use std::fs::File;
use std::io;
use std::io::Read;
use std::marker::Model;
use std::rt::Stdin;

/// Opens files and standard input.
pub trait Sources {
    type Input: Read + Drop;

    /// The bytes of the file with a name, or of standard input without one, if they are known.
    ghost texts: { Self → Option (List ℕ) → Option (List ℕ) };

    /// Opens the file with this name, or standard input without one, at its first byte.
    fn open(&self, file: Option<&str>) -> io::Result<Self::Input>
        ensures { IfOk result (λ input.
            Starts (texts self.now (option_map (λ name. name.now) file.entry)) (Self.Input.remaining input)) };
}

// No contract says what the system's files and standard input contain.
impl Sources for HostRuntime {
    type Input = Either<Stdin, File>;

    ghost texts = { λ runtime file. None };

    fn open(&self, file: Option<&str>) -> io::Result<Either<Stdin, File>> {
        match file {
            Some(path) => Ok(Either::Right(File::open(self, path)?)),
            None => Ok(Either::Left(self.stdin())),
        }
    }
}

/// Returns the file that a word names, or None for standard input.
pub fn named(word: &str) -> Option<&str>
    ensures { option_map (λ name. name.now) result ≡ named word.now }
{
    if word == "-" { None } else { Some(word) }
}

/// A source that is opened by its first read, so that earlier faults are reported first. A read that fails as the first
/// one leaves it closed. It may keep what is read, so that a fault in it can be shown without reading it again.
#[derive(Drop)]
pub struct Late<'a, S: Sources> {
    sources: &'a S,
    file: Option<&'a str>,
    input: Option<S::Input>,
    trouble: Option<io::Error>,
    kept: Option<Vec<u8>>,
}

// Before the first read, the whole text is left.
impl<'a, S: Sources> Model for Late<'a, S> {
    ghost use Rattle.std.specs.Prelude.{ℕ, List, Option, option_map, IfSome};
    ghost use Rattle.std.specs.Io.KnownBytes.{Consumes};
    ghost use Rattle.std.specs.Option.{option_map_or};
    ghost use Rattle.ll_program.specs.Sources.{LateBytes};

    ghost Value = { LateBytes };

    ghost view = { λ late. record {
      text = S.texts late.sources.now (option_map (λ name. name.now) late.file);
      left = option_map_or S.Input.remaining late.input
          (S.texts late.sources.now (option_map (λ name. name.now) late.file));
      kept = option_map (λ kept. kept.items) late.kept;
    } };

    ghost invariant = { λ late. IfSome late.kept (λ kept.
        Consumes (S.texts late.sources.now (option_map (λ name. name.now) late.file))
        (option_map_or S.Input.remaining late.input
        (S.texts late.sources.now (option_map (λ name. name.now) late.file))) kept.items) };
}

impl<'a, S: Sources> Late<'a, S> {
    pub fn new(sources: &'a S, file: Option<&'a str>) -> Self
        ensures text { result.text ≡ S.texts sources.now (option_map (λ name. name.now) file.entry) }
        ensures left { result.left ≡ S.texts sources.now (option_map (λ name. name.now) file.entry) }
    {
        Late {
            sources,
            file,
            input: None,
            trouble: None,
            kept: None,
        }
    }

    /// Returns a source that keeps what is read from it, if `keeps` holds.
    pub fn keeping(alloc: Global, sources: &'a S, file: Option<&'a str>, keeps: bool) -> Self
        ensures text { result.text ≡ S.texts sources.now (option_map (λ name. name.now) file.entry) }
        ensures left { result.left ≡ S.texts sources.now (option_map (λ name. name.now) file.entry) }
    {
        let kept = if keeps { Some(Vec::new(alloc)) } else { None };
        Late {
            sources,
            file,
            input: None,
            trouble: None,
            kept,
        }
    }

    /// Returns the file's name, or None for standard input.
    pub fn name(&self) -> Option<&'a str> {
        self.file
    }

    /// Reports whether it is open: a read of it has succeeded.
    pub fn is_open(&self) -> bool {
        self.input.is_some()
    }

    /// Returns the system's error for the last failed read or opening.
    pub fn trouble(&self) -> Option<io::Error> {
        self.trouble
    }

    /// Returns what was read, if it is open, that is kept, and there was memory for it. With what is left, that is the
    /// file's text.
    pub fn text(&self) -> Option<&[u8]>
        ensures { IfSome result (λ kept. Consumes self.now.text self.now.left kept.now) }
    {
        match &self.kept {
            Some(text) if self.is_open() => Some(text.as_slice()),
            _ => None,
        }
    }
}

// Appends these bytes to those that are kept. If memory runs out, nothing is kept any longer.
fn keep(kept: &mut Option<Vec<u8>>, bytes: &[u8])
    ensures more { IfSome kept.new (λ all. IfSome kept.old (λ before. all.items ≡ before.items ++ bytes.now)) }
    ensures none { kept.old ≡ None → kept.new ≡ None }
{
    let is_kept = match kept {
        Some(text) => text.extend_from_slice(bytes).is_ok(),
        None => true,
    };
    if !is_kept {
        *kept = None;
    }
}

impl<S: Sources> Read for Late<'_, S> {
    ghost remaining = { λ late. late.left };

    fn read(&mut self, buf: &mut [u8]) -> io::Result<usize> {
        let told = match &mut self.input {
            Some(input) => input.read(buf),
            None => match self.sources.open(self.file) {
                Ok(mut input) => {
                    let first = input.read(buf);
                    if first.is_ok() {
                        self.input = Some(input);
                    }
                    first
                }
                Err(error) => Err(error),
            },
        };
        match &told {
            Ok(count) => {
                self.trouble = None;
                keep(&mut self.kept, &buf[..*count]);
            }
            Err(error) => self.trouble = Some(*error),
        }
        told
    }
}
