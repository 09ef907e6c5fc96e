//! A client between two calls.

ghost use Rattle.std.specs.Prelude.{◌≡◌, None};

use crate::rider::Rider;
use crate::shape::Shape;

/// A client that has no walk under way. It can't be dropped: `close` takes it back.
pub struct Client<N: Shape> {
    pub rider: Rider<N>,
    pub ghost idle: { rider.doing ≡ None },
}

impl<N: Shape> Client<N> {
    /// Returns the number of the last entry that the client knows of.
    pub fn seen(&self) -> u64
        ensures { result ≡ self.now.rider.seen }
    {
        self.rider.seen()
    }
}
