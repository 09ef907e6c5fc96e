//! Why a step isn't enabled.

/// The unmet condition of a step that isn't enabled. Inodes and clients are numbers.
#[derive(Clone, Copy, Debug, PartialEq, Eq)]
pub enum Unmet {
    /// There is no such client.
    Nobody,
    /// The client's walk is under way.
    UnderWay,
    /// The call walks, so another step begins it.
    Walks,
    /// The call is on a descriptor that the client has, so another step makes it.
    OnDescriptor,
    /// The call is for the client alone, so another step makes it.
    Alone,
    /// The call connects a client, which is a step of nobody.
    Connects,
    /// This client holds the move gate.
    Gate(u64),
    /// No walk of the client is under way.
    NoWalk,
    /// A directory on the walk's way was moved.
    Stale,
    /// No directory on its way was moved.
    NotStale,
    /// In the node of this inode is the walk of this client.
    Marked(u64, u64),
    /// The walk is above the root.
    Above,
    /// The next name of its current leg names a directory.
    Ahead,
    /// The next name of its current leg names no directory.
    Blocked,
    /// It is at its fork.
    AtFork,
    /// It has forked.
    Forked,
    /// Its call has one path.
    OnePath,
    /// Each leg is at its end.
    AtEnd,
}
