//! The contents of a picture.

/// A part of a walk's way: the part that its paths share, or the first's or the second's own part.
#[derive(Clone, Copy, Debug, PartialEq, Eq)]
pub enum Branch {
    Trunk,
    First,
    Second,
}

/// The mark on a directory: the directory's name and its whole path, and how many bars below its client's line the mark
/// is drawn.
#[derive(Drop)]
pub struct Spot {
    pub name: String,
    pub path: String,
    pub bar: usize,
}

/// How a call ends.
#[derive(Clone, Copy, Debug, PartialEq, Eq)]
pub enum Ending {
    Done,
    Refused,
}

impl Ending {
    /// Returns the class of a call's sign: this one, unless the call is refused or denied.
    pub fn class(self, done: &'static str) -> &'static str {
        match self {
            Ending::Done => done,
            Ending::Refused => "denied",
        }
    }
}

/// What another client has in a step's way: the mark drawn this many bars below its row's line, or without a bar the
/// move gate.
#[derive(Clone, Copy, Debug, PartialEq, Eq)]
pub struct Obstacle {
    pub row: usize,
    pub bar: Option<usize>,
}

/// Why a step can't be made now.
#[derive(Drop)]
pub struct Wait {
    pub reason: String,
    pub obstacle: Option<Obstacle>,
}

/// What a line of the schedule does to a client.
#[derive(Drop)]
pub enum Event {
    /// The client is new.
    Came,
    /// Its walk begins, above the root.
    Begun,
    /// Its walk is in this directory.
    Stands(Branch, Spot),
    /// Its walk splits at its fork.
    Forked,
    /// Its walk is stale: the client of this row moved a directory on its way.
    Overtaken(usize),
    /// Its walk has restarted, above the root.
    Restarted,
    /// Its walk holds the gate.
    HasGate,
    /// Its walk ends.
    Answered(Ending),
    /// A call is made at once.
    Made(Ending),
    /// The step can't be made now.
    NotNow(Wait),
}

/// An event, and the line that caused it, from 0.
#[derive(Drop)]
pub struct Moment {
    pub line: usize,
    pub event: Event,
}

/// What happens to a client, in order. It begins with how the client came.
#[derive(Drop)]
pub struct Row {
    pub moments: Vec<Moment>,
}

/// The lines that are drawn side by side: the number of the first, from 0, and what happens in them, for each client.
/// What has happened before shows only in what is left of it, and has the number of the line before.
#[derive(Drop)]
pub struct Band {
    pub first: usize,
    pub rows: Vec<Row>,
}

/// A line of the schedule, its outcome with the class of its writing, and the row of its client.
#[derive(Drop)]
pub struct Column {
    pub line: String,
    pub outcome: String,
    pub class: &'static str,
    pub row: Option<usize>,
}

/// How many lines a band has; the last may have fewer.
pub const BAND: usize = 32;
