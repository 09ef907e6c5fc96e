//! The bytes that a write takes and a read returns.

ghost use Rattle.std.specs.Prelude.{◌≡◌, ◌==◌, ◌≤◌, ◌<◌, ℕ, List, [], length, IfOk, IfErr};

use std::alloc::{AllocError, Global};
use std::marker::Model;

/// At most 4,096 arbitrary bytes. Contracts see the list of them.
#[derive(Drop)]
pub struct Data {
    bytes: Vec<u8>,
}

impl Model for Data {
    ghost Value = { List ℕ };

    ghost view = { λ d. d.bytes.items };

    ghost invariant = { λ d. length d.bytes.items ≤ 4096 };
}

impl Data {
    /// Wraps the bytes. Takes no memory. Errors: the bytes, if there are more than 4,096.
    pub fn new(bytes: Vec<u8>) -> Result<Data, Vec<u8>>
        ensures ok { IfOk result (λ d. (length bytes.items ≤ 4096) × (d ≡ bytes.items)) }
        ensures err { IfErr result (λ back. (4096 < length bytes.items) × (back ≡ bytes)) }
    {
        if bytes.len() <= 4096 {
            Ok(Data { bytes })
        } else {
            Err(bytes)
        }
    }

    /// Returns no bytes. Takes no memory.
    pub fn empty(alloc: Global) -> Data
        ensures { result ≡ [] }
    {
        Data {
            bytes: Vec::new(alloc),
        }
    }

    /// Returns a copy of the bytes. Errors: memory ran out.
    pub fn copy(&self) -> Result<Data, AllocError>
        ensures { IfOk result (λ d. d ≡ self.now) }
    {
        let bytes = self.bytes.clone()?;
        Ok(Data { bytes })
    }

    /// Returns the number of bytes.
    pub fn len(&self) -> usize
        ensures len { result ≡ length self.now }
        ensures short { result ≤ 4096 }
    {
        self.bytes.len()
    }

    pub fn is_empty(&self) -> bool
        ensures { result ≡ (length self.now == 0) }
    {
        self.bytes.is_empty()
    }

    pub fn as_slice(&self) -> &[u8]
        ensures bytes { result.now ≡ self.now }
        ensures short { length self.now ≤ 4096 }
    {
        self.bytes.as_slice()
    }
}
