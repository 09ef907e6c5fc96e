//! Files that are replaced as a whole.

ghost use Rattle.std.specs.Prelude.{◌≡◌, ℕ, List, Option, IfOk, IfSome, OnErr, OnOk};
ghost use Rattle.std.specs.Io.KnownBytes.{Appends};

use std::io;
use std::io::Write;

/// The path of a file that is written to a draft first. The draft replaces the file when it is complete.
pub trait Destination {
    /// The draft of a file.
    type Draft: Write + Drop + Send;

    /// The file's contents, if known.
    ghost contents: { Self → Option (List ℕ) };

    /// The contents of a new draft, if known.
    ghost blank: { Self → Option (List ℕ) };

    /// Creates a draft.
    fn draft(&mut self) -> io::Result<Self::Draft>
        ensures fresh { IfOk result (λ draft. Self.Draft.contents draft ≡ blank self.old) }
        ensures same { contents self.new ≡ contents self.old }
        ensures again { blank self.new ≡ blank self.old };

    /// Creates a draft that begins with these bytes and grows with every call. None if no draft is wanted, or if none
    /// can be created, which is reported at once.
    fn record(&mut self, head: &[u8]) -> Option<Self::Draft>
        ensures begun { IfSome result (λ draft. Appends (blank self.old) (Self.Draft.contents draft) head.now) }
        ensures same { contents self.new ≡ contents self.old }
        ensures again { blank self.new ≡ blank self.old };

    /// Replaces the file with the draft. Errors: the file is unchanged, and the draft is gone.
    fn put(&mut self, draft: Self::Draft) -> io::Result<()>
        ensures ok { OnOk result (contents self.new ≡ Self.Draft.contents draft) }
        ensures err { OnErr result (contents self.new ≡ contents self.old) }
        ensures again { blank self.new ≡ blank self.old };

    /// Removes a draft.
    fn remove(&mut self, draft: Self::Draft)
        ensures same { contents self.new ≡ contents self.old }
        ensures again { blank self.new ≡ blank self.old };
}
