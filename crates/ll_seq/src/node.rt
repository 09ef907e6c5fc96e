//! Nodes.

ghost use Rattle.std.specs.Prelude.{◌≡◌, ◌+◌, ◌^◌, ◌<◌, ◌≤◌, ◌-◌, ◌++◌, OnOk, OnErr, IfOk, length, take, drop};
ghost use Rattle.std.specs.Prelude.{replicate};

use ll_path::Data;
use ll_rights::Kind;
use std::alloc::{AllocError, Global};
use std::marker::Model;

/// The bytes of a file. Contracts see the list.
#[derive(Drop)]
pub struct Content {
    bytes: Vec<u8>,
}

impl Model for Content {
    ghost use Rattle.std.specs.Prelude.{List, ℕ};

    ghost Value = { List ℕ };

    ghost view = { λ content. content.bytes.items };
}

// Overwrites the bytes from the offset on.
fn put_in(all: &mut [u8], offset: usize, bytes: &[u8])
    requires { offset + length bytes.now ≤ length all.old }
    ensures { all.new ≡ take offset all.old ++ (bytes.now ++ drop (offset + length bytes.now) all.old) }
{
    let end = offset + bytes.len();
    all[offset..end].copy_from_slice(bytes);
}

impl Content {
    ghost use Rattle.std.specs.Prelude.{[]};
    ghost use Rattle.ll_seq.specs.Effects.{resized, overwritten};

    pub fn empty(alloc: Global) -> Content
        ensures { result ≡ [] }
    {
        Content {
            bytes: Vec::new(alloc),
        }
    }

    pub fn len(&self) -> usize
        ensures { result ≡ length self.now }
    {
        self.bytes.len()
    }

    /// Sets the length. New bytes are zeros. Errors: memory ran out.
    pub fn set_len(&mut self, len: usize) -> Result<(), AllocError>
        ensures ok { OnOk result (self.new ≡ resized self.old len) }
        ensures err { OnErr result (self.new ≡ self.old) }
    {
        self.bytes.resize(len, 0)
    }

    /// Returns at most `count` bytes from the offset on: fewer or none at the end. Errors: memory ran out.
    pub fn read(&self, alloc: Global, offset: usize, count: usize) -> Result<Data, AllocError>
        requires { count ≤ 4096 }
        ensures { IfOk result (λ read. read ≡ take count (drop offset self.now)) }
    {
        let bytes = self.bytes.as_slice();
        let (_, rest) = bytes.split_at(offset.min(bytes.len()));
        let (front, _) = rest.split_at(count.min(rest.len()));
        let copy = Vec::from_slice(alloc, front)?;
        match Data::new(copy) {
            Ok(data) => Ok(data),
            Err(_) => unreachable!(),
        }
    }

    /// Overwrites from the offset on, and fills a gap before it with zeros. Errors: memory ran out.
    pub fn write(&mut self, offset: usize, bytes: &[u8]) -> Result<(), AllocError>
        requires { offset + length bytes.now < 2 ^ 64 }
        ensures ok { OnOk result (self.new ≡ overwritten self.old offset bytes.now) }
        ensures err { OnErr result (self.new ≡ self.old) }
    {
        self.grow(offset + bytes.len())?;
        self.put(offset, bytes);
        Ok(())
    }

    /// Appends zeros until there are at least this many bytes.
    fn grow(&mut self, len: usize) -> Result<(), AllocError>
        ensures ok { OnOk result (self.new ≡ self.old ++ replicate (len - length self.old) 0) }
        ensures err { OnErr result (self.new ≡ self.old) }
    {
        if self.bytes.len() < len {
            self.bytes.resize(len, 0)?;
        }
        Ok(())
    }

    fn put(&mut self, offset: usize, bytes: &[u8])
        requires { offset + length bytes.now ≤ length self.old }
        ensures { self.new ≡ take offset self.old ++ (bytes.now ++ drop (offset + length bytes.now) self.old) }
    {
        put_in(self.bytes.as_mut_slice(), offset, bytes);
    }

    pub fn clear(&mut self)
        ensures { self.new ≡ [] }
    {
        self.bytes.clear();
    }
}

/// A node of some kind. Only a regular file ever has bytes.
#[derive(Drop)]
pub struct Node {
    pub kind: Kind,
    pub bytes: Content,
}
