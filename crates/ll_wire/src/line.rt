//! The line that is being read.

ghost use Rattle.std.specs.Prelude.{◌≡◌, [], ◌∷◌, ◌++◌, ◌↔◌, ℕ, List, IfOk, IsTrue, Some, option_map};
ghost use Rattle.ll_wire.specs.LineCuts.{Holds};

use crate::LINE_LIMIT;
use std::alloc::{AllocError, Global};
use std::marker::Model;

/// The bytes read since the last line feed. If they are too many for a command, only that fact.
#[derive(Drop)]
pub struct Line {
    bytes: Vec<u8>,
    is_long: bool,
}

impl Model for Line {
    ghost use Rattle.std.specs.Prelude.{ℕ, List, Option, None, Some, if◌then◌else◌, ◌≤◌};
    ghost use Rattle.std.specs.Vec.{vec_capacity};

    ghost Value = { Option (List ℕ) };

    ghost view = { λ line. if line.is_long then None else Some line.bytes.items };

    ghost invariant = { λ line. 16384 ≤ vec_capacity line.bytes };
}

impl Line {
    /// Returns an empty line with room for the longest command. Errors: memory ran out.
    pub fn new(alloc: Global) -> Result<Line, AllocError>
        ensures { IfOk result (λ line. line ≡ Some []) }
    {
        Ok(Line {
            bytes: Vec::with_capacity(alloc, LINE_LIMIT)?,
            is_long: false,
        })
    }

    /// Returns the bytes, or None if they are too many for a command.
    pub fn bytes(&self) -> Option<&[u8]>
        ensures { option_map (λ bytes. bytes.now) result ≡ self.now }
    {
        if self.is_long {
            None
        } else {
            Some(&self.bytes)
        }
    }

    /// Adds a byte. Takes no memory: without room, the line becomes too long.
    pub fn push(&mut self, byte: u8)
        ensures { (part : List ℕ) → Holds self.old part → Holds self.new (part ++ byte ∷ []) }
    {
        if self.is_long {
            return;
        }
        if self.bytes.len() >= LINE_LIMIT {
            self.is_long = true;
            return;
        }
        self.bytes.push_reserved(byte);
    }

    pub fn clear(&mut self)
        ensures { self.new ≡ Some [] }
    {
        self.bytes.clear();
        self.is_long = false;
    }

    pub fn is_empty(&self) -> bool
        ensures { IsTrue result ↔ (self.now ≡ Some []) }
    {
        self.bytes.is_empty() && !self.is_long
    }
}
