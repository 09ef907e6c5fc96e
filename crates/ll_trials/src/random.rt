//! Random numbers from a seed.

ghost use Rattle.std.specs.Prelude.{◌<◌};

/// An xorshift generator: three shifts of 64 bits for each number.
#[derive(Drop)]
pub struct Random {
    state: u64,
}

impl Random {
    /// Returns the generator of a thread.
    pub fn new(seed: u64, thread: u64) -> Random {
        let state = seed.wrapping_mul(0x9e37_79b9_7f4a_7c15)
            ^ thread.wrapping_mul(0xbf58_476d_1ce4_e5b9);
        Random { state: state | 1 }
    }

    /// Returns a number less than the limit.
    pub fn below(&mut self, limit: u64) -> u64
        requires { 0 < limit }
        ensures { result < limit }
    {
        let mut state = self.state;
        state ^= state << 13;
        state ^= state >> 7;
        state ^= state << 17;
        self.state = state;
        (state >> 11) % limit
    }

    /// Returns the smaller of two numbers less than the limit, so low ones are more frequent.
    pub fn low(&mut self, limit: u64) -> u64
        requires { 0 < limit }
        ensures { result < limit }
    {
        self.below(limit).min(self.below(limit))
    }
}
