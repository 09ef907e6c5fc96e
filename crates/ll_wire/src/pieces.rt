//! A text's lines, one by one.

ghost use Rattle.std.specs.Prelude.{◌≡◌, ◌<◌, ◌∷◌, length};
ghost use Rattle.ll_wire.specs.Pieces.{pieces};

use memchr::memchr;

/// Splits after the first line feed: the first line (with its line feed, if it has one), and the rest.
pub fn split_line(bytes: &[u8]) -> (&[u8], &[u8])
    requires { 0 < length bytes.now }
    ensures first { pieces bytes.now ≡ result.0.now ∷ pieces result.1.now }
    ensures shorter { length result.1.now < length bytes.now }
{
    match memchr(b'\n', bytes) {
        Some(end) => bytes.split_at(end + 1),
        None => (bytes, &[]),
    }
}
