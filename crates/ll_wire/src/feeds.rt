//! Line feeds.

ghost use Rattle.std.specs.Prelude.{◌≡◌};
ghost use Rattle.ll_wire.specs.Devices.{line_feeds};

/// Counts the line feeds in the bytes.
pub fn count_feeds(bytes: &[u8]) -> usize
    ensures { result ≡ line_feeds bytes.now }
{
    bytes.iter().filter(|b| **b == b'\n').count()
}
