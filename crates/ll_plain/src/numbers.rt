//! The clients' numbers.

ghost use Rattle.std.specs.Prelude.{◌≡◌, false};
ghost use Rattle.std.specs.Option.{option_copied};
ghost use Rattle.ll_rights.specs.Map.{get, has};

use crate::Plain;
use ll_seq::ClientRecord;

impl Plain {
    /// Reports whether a client has this number.
    pub fn has_client(&self, number: u64) -> bool
        ensures { result ≡ has self.now.clients number }
    {
        self.clients.has(number)
    }

    /// Returns the client with this number.
    pub fn client(&self, number: u64) -> Option<&ClientRecord>
        ensures { option_copied result ≡ get self.now.clients number }
    {
        self.clients.get(number)
    }

    /// Returns a number that no client has.
    pub fn free_number(&self) -> u64
        ensures { has self.now.clients result ≡ false }
    {
        self.clients.unused()
    }
}
