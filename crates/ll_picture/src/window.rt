//! Which lines of a schedule are drawn.

ghost use Rattle.std.specs.Prelude.{◌≡◌};
ghost use Rattle.ll_picture.specs.Windows.{has_line};

/// The lines from one number to another, or to the last. They count from 1.
#[derive(Clone, Copy, Debug, PartialEq, Eq)]
pub struct Window {
    pub from: u64,
    pub to: Option<u64>,
}

impl Window {
    /// No line.
    pub const NONE: Window = Window {
        from: 1,
        to: Some(0),
    };

    /// Reports whether the line of this number is drawn.
    pub fn has(self, number: u64) -> bool
        ensures { result ≡ has_line self number }
    {
        self.from <= number
            && match self.to {
                Some(to) => number <= to,
                None => true,
            }
    }

    /// Reports whether each line after so many is behind those that are drawn.
    pub fn is_past(self, lines: u64) -> bool {
        match self.to {
            Some(to) => to <= lines,
            None => false,
        }
    }
}
