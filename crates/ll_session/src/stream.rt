//! Streams, and what is left of a served one.

use crate::tally::Tally;
use ll_client::{Client, Shape};
use ll_wire::SessionFault;
use std::snapshot::Snapshot;

/// A stream: one device to read from and one to write to. Streams are numbered from 1 as they come.
#[derive(Drop)]
pub struct Stream<R, W> {
    pub number: u64,
    pub reader: R,
    pub writer: W,
}

/// The end of a stream's session: what was counted, and the fault that ended it, if any.
#[derive(Drop)]
pub struct Outcome {
    pub tally: Tally,
    pub ended: Result<(), SessionFault>,
}

/// What is left of a served stream: the clients that came, and how it ended. Contracts see the stream as it came and as
/// it went.
pub struct Served<N: Shape, R, W> {
    pub clients: Vec<Client<N>>,
    pub outcome: Outcome,
    pub came: Snapshot<Stream<R, W>>,
    pub went: Snapshot<Stream<R, W>>,
}
