//! Kinds of nodes.

ghost use Rattle.std.specs.Prelude.{◌≡◌, ◌≢◌, IfSome, IfNone};
ghost use Rattle.ll_rights.specs.Kind.{is_dir, kind_text, make_right, remove_right, relevant};
ghost use Rattle.ll_rights.specs.declared.kind.Kind.{Kind};

use crate::access::Access;
use crate::right::Right;

/// What a node is: a regular file, a directory, a symbolic link, or one of the special files.
#[derive(Clone, Copy, Debug, PartialEq, Eq)]
pub enum Kind {
    Reg,
    Dir,
    Sym,
    Fifo,
    Sock,
    Char,
    Block,
}

impl Kind {
    /// Returns the kind's name, as lines spell it.
    pub fn text(self) -> &'static str
        ensures { result.now ≡ kind_text self }
    {
        match self {
            Kind::Reg => "reg",
            Kind::Dir => "dir",
            Kind::Sym => "sym",
            Kind::Fifo => "fifo",
            Kind::Sock => "sock",
            Kind::Char => "char",
            Kind::Block => "block",
        }
    }

    /// Parses a kind's name.
    pub fn parse(text: &str) -> Option<Kind>
        ensures found { IfSome result (λ kind. text.now ≡ kind_text kind) }
        ensures none { IfNone result ((kind : Kind) → text.now ≢ kind_text kind) }
    {
        match text {
            "reg" => Some(Kind::Reg),
            "dir" => Some(Kind::Dir),
            "sym" => Some(Kind::Sym),
            "fifo" => Some(Kind::Fifo),
            "sock" => Some(Kind::Sock),
            "char" => Some(Kind::Char),
            "block" => Some(Kind::Block),
            _ => None,
        }
    }

    pub fn is_dir(self) -> bool
        ensures { result ≡ is_dir self }
    {
        self == Kind::Dir
    }

    /// Returns the right needed on the directory to create a node of this kind.
    pub fn make_right(self) -> Right
        ensures { result ≡ make_right self }
    {
        match self {
            Kind::Reg => Right::MAKE_REG,
            Kind::Dir => Right::MAKE_DIR,
            Kind::Sym => Right::MAKE_SYM,
            Kind::Fifo => Right::MAKE_FIFO,
            Kind::Sock => Right::MAKE_SOCK,
            Kind::Char => Right::MAKE_CHAR,
            Kind::Block => Right::MAKE_BLOCK,
        }
    }

    /// Returns the right needed on the directory to remove a node of this kind.
    pub fn remove_right(self) -> Right
        ensures { result ≡ remove_right self }
    {
        match self {
            Kind::Dir => Right::REMOVE_DIR,
            _ => Right::REMOVE_FILE,
        }
    }

    /// Returns the rights that apply to a node of this kind.
    pub fn relevant(self) -> Access
        ensures { result.0 ≡ relevant self }
    {
        match self {
            Kind::Dir => Access::ALL,
            _ => Access::FILE,
        }
    }
}
