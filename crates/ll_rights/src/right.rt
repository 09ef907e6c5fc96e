//! One right.

ghost use Rattle.std.specs.Prelude.{◌≡◌, ◌≢◌, ◌<◌, ◌^◌, ℕ, IfSome, IfNone};
ghost use Rattle.ll_rights.specs.Right.{right_text};

use crate::access::Access;
use std::marker::Model;

/// One of the fifteen file system rights of Landlock's ABI 3. Contracts see its number, 0 to 14: the position of its
/// bit in `linux/landlock.h`.
#[derive(Clone, Copy, Debug, PartialEq, Eq)]
pub struct Right {
    number: u8,
}

impl Model for Right {
    ghost use Rattle.std.specs.Prelude.{ℕ, ◌<◌};

    ghost Value = { ℕ };

    ghost view = { λ right. right.number };

    ghost invariant = { λ right. right.number < 15 };

    ghost inverse = { λ number. record { number = number } };
}

const NAMES: [&str; 15] = [
    "execute",
    "write_file",
    "read_file",
    "read_dir",
    "remove_dir",
    "remove_file",
    "make_char",
    "make_dir",
    "make_reg",
    "make_sock",
    "make_fifo",
    "make_block",
    "make_sym",
    "refer",
    "truncate",
];

// Each constant's number matches the flag of that name.
const _: () = prove!(
    1 << Right::EXECUTE.number == Access::EXECUTE.0
        && 1 << Right::WRITE_FILE.number == Access::WRITE_FILE.0
        && 1 << Right::READ_FILE.number == Access::READ_FILE.0
        && 1 << Right::READ_DIR.number == Access::READ_DIR.0
        && 1 << Right::REMOVE_DIR.number == Access::REMOVE_DIR.0
        && 1 << Right::REMOVE_FILE.number == Access::REMOVE_FILE.0
        && 1 << Right::MAKE_CHAR.number == Access::MAKE_CHAR.0
        && 1 << Right::MAKE_DIR.number == Access::MAKE_DIR.0
        && 1 << Right::MAKE_REG.number == Access::MAKE_REG.0
        && 1 << Right::MAKE_SOCK.number == Access::MAKE_SOCK.0
        && 1 << Right::MAKE_FIFO.number == Access::MAKE_FIFO.0
        && 1 << Right::MAKE_BLOCK.number == Access::MAKE_BLOCK.0
        && 1 << Right::MAKE_SYM.number == Access::MAKE_SYM.0
        && 1 << Right::REFER.number == Access::REFER.0
        && 1 << Right::TRUNCATE.number == Access::TRUNCATE.0
);

impl Right {
    pub const EXECUTE: Right = Right { number: 0 };

    pub const WRITE_FILE: Right = Right { number: 1 };

    pub const READ_FILE: Right = Right { number: 2 };

    pub const READ_DIR: Right = Right { number: 3 };

    pub const REMOVE_DIR: Right = Right { number: 4 };

    pub const REMOVE_FILE: Right = Right { number: 5 };

    pub const MAKE_CHAR: Right = Right { number: 6 };

    pub const MAKE_DIR: Right = Right { number: 7 };

    pub const MAKE_REG: Right = Right { number: 8 };

    pub const MAKE_SOCK: Right = Right { number: 9 };

    pub const MAKE_FIFO: Right = Right { number: 10 };

    pub const MAKE_BLOCK: Right = Right { number: 11 };

    pub const MAKE_SYM: Right = Right { number: 12 };

    pub const REFER: Right = Right { number: 13 };

    pub const TRUNCATE: Right = Right { number: 14 };

    /// All fifteen rights, in the order of their numbers.
    pub const ALL: [Right; 15] = [
        Right::EXECUTE,
        Right::WRITE_FILE,
        Right::READ_FILE,
        Right::READ_DIR,
        Right::REMOVE_DIR,
        Right::REMOVE_FILE,
        Right::MAKE_CHAR,
        Right::MAKE_DIR,
        Right::MAKE_REG,
        Right::MAKE_SOCK,
        Right::MAKE_FIFO,
        Right::MAKE_BLOCK,
        Right::MAKE_SYM,
        Right::REFER,
        Right::TRUNCATE,
    ];

    /// Returns the right's number, 0 to 14.
    pub fn number(self) -> u8
        ensures number { result ≡ self }
        ensures known { result < 15 }
    {
        self.number
    }

    /// Returns the set that contains only this right.
    pub fn access(self) -> Access
        ensures { result.0 ≡ 2 ^ self }
    {
        Access(1 << self.number)
    }

    /// Returns the right's name, as lines spell it.
    pub fn text(self) -> &'static str
        ensures { result.now ≡ right_text self }
    {
        NAMES[self.number as usize]
    }

    /// Parses a right's name.
    pub fn parse(text: &str) -> Option<Right>
        ensures known { IfSome result (λ right. right < 15) }
        ensures found { IfSome result (λ right. text.now ≡ right_text right) }
        ensures none { IfNone result ((right : ℕ) → right < 15 → text.now ≢ right_text right) }
    {
        for right in Right::ALL {
            if text == right.text() {
                return Some(right);
            }
        }
        None
    }
}
