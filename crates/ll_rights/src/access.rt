//! Sets of rights.

ghost use Rattle.std.specs.Prelude.{⊤, ◌≡◌, ◌≢◌, ◌<◌, ◌≤◌, ◌==◌, ◌^◌, ℕ, [], ◌∷◌, map, codes, nat_le, ◌&&◌, ◌||◌};
ghost use Rattle.std.specs.Prelude.{bit_or, string_bytes, IfOk, IfSome, IfNone};
ghost use Rattle.std.specs.List.{join_with_byte, slice_split, list_all};
ghost use Rattle.std.specs.Char.{digit_char};
ghost use Rattle.std.specs.Int.Digits.{digits_of};
ghost use Rattle.ll_rights.specs.Access.{holds, is_within, known_set, set_names, access_text};

use crate::abi::Abi;
use crate::right::Right;
use bitflags::{Flag, Flags, bitflag_items};
use std::alloc::{AllocError, Global};

/// A set of rights: right N is in it if bit N is set. Bits 15 and above belong to no right.
#[derive(Clone, Copy, Debug, PartialEq, Eq)]
pub struct Access(pub u64);

bitflag_items! {
    impl Access: u64 {
        const EXECUTE = 1 << 0;
        const WRITE_FILE = 1 << 1;
        const READ_FILE = 1 << 2;
        const READ_DIR = 1 << 3;
        const REMOVE_DIR = 1 << 4;
        const REMOVE_FILE = 1 << 5;
        const MAKE_CHAR = 1 << 6;
        const MAKE_DIR = 1 << 7;
        const MAKE_REG = 1 << 8;
        const MAKE_SOCK = 1 << 9;
        const MAKE_FIFO = 1 << 10;
        const MAKE_BLOCK = 1 << 11;
        const MAKE_SYM = 1 << 12;
        const REFER = 1 << 13;
        const TRUNCATE = 1 << 14;
    }
}

impl Flags for Access {
    type Bits = u64;

    ghost exact = { ⊤ };

    ghost table = { (codes "EXECUTE", 0x1) ∷ (codes "WRITE_FILE", 0x2) ∷ (codes "READ_FILE", 0x4)
        ∷ (codes "READ_DIR", 0x8)
        ∷ (codes "REMOVE_DIR", 0x10) ∷ (codes "REMOVE_FILE", 0x20) ∷ (codes "MAKE_CHAR", 0x40)
        ∷ (codes "MAKE_DIR", 0x80)
        ∷ (codes "MAKE_REG", 0x100) ∷ (codes "MAKE_SOCK", 0x200) ∷ (codes "MAKE_FIFO", 0x400)
        ∷ (codes "MAKE_BLOCK", 0x800)
        ∷ (codes "MAKE_SYM", 0x1000) ∷ (codes "REFER", 0x2000) ∷ (codes "TRUNCATE", 0x4000) ∷ [] };

    ghost set_of = { λ access. access.0 };

    fn flags<'a>() -> &'a [Flag<Access>] {
        Access::FLAGS
    }

    fn bits(&self) -> u64 {
        self.0
    }

    fn from_bits_retain(bits: u64) -> Access {
        Access(bits)
    }
}

impl Access {
    /// The rights that apply to a file that isn't a directory.
    pub const FILE: Access = Access(0x4007);

    /// The fifteen rights of ABI 3.
    pub const ALL: Access = Access(0x7fff);

    /// Returns the rights that exist at the ABI level.
    pub fn known(abi: Abi) -> Access
        ensures { result.0 ≡ known_set abi }
    {
        match abi.number() {
            1 => Access(0x1fff),
            2 => Access(0x3fff),
            _ => Access::ALL,
        }
    }

    /// Reports whether the set contains the right.
    pub fn holds(self, right: Right) -> bool
        ensures { result ≡ holds self.0 right }
    {
        self.0 >> right.number() & 1 == 1
    }

    /// Reports whether `other` contains every right of the set, known or not.
    pub fn is_within(self, other: Access) -> bool
        ensures { result ≡ is_within self.0 other.0 }
    {
        other.contains(self)
    }

    /// Returns the union of both sets.
    pub fn with(self, other: Access) -> Access
        ensures { result.0 ≡ bit_or self.0 other.0 }
    {
        Access(self.0 | other.0)
    }

    /// Returns the set's text: `none`, or the names of its rights in the order of their numbers, joined by commas. If a
    /// bit belongs to no right, it is `0x` and the number in base 16. Errors: memory ran out.
    pub fn text(self, alloc: Global) -> Result<String, AllocError>
        ensures { IfOk result (λ text. string_bytes text ≡ access_text self.0) }
    {
        if self.0 == 0 {
            String::from_str(alloc, "none")
        } else if self.is_within(Access::ALL) {
            self.names(alloc)
        } else {
            format!(in alloc; "0x{:x}", self.0)
        }
    }

    /// Parses what `text` prints. Returns None for any other spelling.
    pub fn parse(text: &str) -> Option<Access>
        ensures found { IfSome result (λ access. text.now ≡ access_text access.0) }
        ensures none { IfNone result ((set : ℕ) → set < 2 ^ 64 → text.now ≢ access_text set) }
    {
        if text == "none" {
            return Some(Access(0));
        }
        match text.strip_prefix("0x") {
            Some(digits) => Access::parse_number(digits),
            None => Access::parse_names(text),
        }
    }

    // Returns the names of the rights, joined by commas.
    fn names(self, alloc: Global) -> Result<String, AllocError>
        ensures { IfOk result (λ text. string_bytes text ≡ join_with_byte 44 (set_names self.0)) }
    {
        let mut text = String::new(alloc);
        for right in Right::ALL {
            if self.holds(right) {
                if !text.is_empty() {
                    text.push(',')?;
                }
                text.push_str(right.text())?;
            }
        }
        Ok(text)
    }

    // Parses names joined by commas. Returns None unless they come in the order of their rights' numbers.
    fn parse_names(text: &str) -> Option<Access>
        ensures found { IfSome result (λ access. (access.0 < 2 ^ 15)
            × (slice_split (λ b. b == 44) text.now ≡ set_names access.0)) }
        ensures none { IfNone result ((set : ℕ) → slice_split (λ b. b == 44) text.now ≢ set_names set) }
    {
        let mut set = Access(0);
        for name in text.split(',') {
            let only = Right::parse(name)?.access();
            if only.0 <= set.0 {
                return None;
            }
            set = set.with(only);
        }
        Some(set)
    }

    // Parses the digits of a number with a bit that belongs to no right. Returns None for any other number.
    fn parse_number(digits: &str) -> Option<Access>
        ensures found { IfSome result (λ access. (2 ^ 15 ≤ access.0)
            × (digits.now ≡ map digit_char (digits_of 16 access.0))) }
        ensures none { IfNone result ((set : ℕ) → 2 ^ 15 ≤ set → set < 2 ^ 64
            → digits.now ≢ map digit_char (digits_of 16 set)) }
    {
        if digits.starts_with('0') || !is_lower_hex(digits) {
            return None;
        }
        match u64::from_str_radix(digits, 16) {
            Ok(set) if set > Access::ALL.0 => Some(Access(set)),
            _ => None,
        }
    }
}

// Reports whether every byte is a base-16 digit in lower case.
fn is_lower_hex(text: &str) -> bool
    ensures { result ≡ list_all (λ b. (nat_le 48 b && nat_le b 57) || (nat_le 97 b && nat_le b 102)) text.now }
{
    text.bytes().all(|b| matches!(b, b'0'..=b'9' | b'a'..=b'f'))
}
