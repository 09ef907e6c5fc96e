//! Positions in the text of a path, used to read its names one after the other.

ghost use Rattle.std.specs.Prelude.{◌≡◌};

/// A position in a path: the number of names before it, and its byte offset after the first slash.
#[derive(Clone, Copy)]
pub struct Place {
    pub depth: usize,
    pub byte: usize,
}

impl Place {
    /// Returns the position of the first name, valid for any path.
    pub fn first() -> Place
        ensures { result ≡ record { depth = 0; byte = 0 } }
    {
        Place { depth: 0, byte: 0 }
    }
}
