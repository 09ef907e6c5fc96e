//! Where the legs of a walk are.

/// A leg's directory, and how many names lead there from the root.
#[derive(Clone, Copy, Debug, PartialEq, Eq)]
pub struct Stand {
    pub inode: u64,
    pub depth: usize,
}

/// Where a walk is.
#[derive(Clone, Copy, Debug, PartialEq, Eq)]
pub enum Position {
    Above,
    /// On the way that its paths share.
    Down(Stand),
    /// Past its fork: where that is, and where the legs of both paths are.
    Split(Stand, Stand, Stand),
}
