//! The refusals.

ghost use Rattle.std.specs.Prelude.{◌≡◌, ◌≢◌, IfSome, IfNone};
ghost use Rattle.ll_rights.specs.Errno.{errno_number, errno_text};
ghost use Rattle.ll_rights.specs.declared.errno.Errno.{Errno};

/// Why a call is refused: errno's names where Linux has one, and four names of the project's own. Variants are in the
/// order of their numbers.
#[derive(Clone, Copy, Debug, PartialEq, Eq)]
pub enum Errno {
    EACCES,
    EXDEV,
    ENOENT,
    EEXIST,
    ENOTDIR,
    EISDIR,
    ENOTEMPTY,
    EINVAL,
    EPERM,
    EBUSY,
    EBADF,
    EMFILE,
    ENOSPC,
    EMLINK,
    ENAMETOOLONG,
    EFBIG,
    ELOOP,
    ENXIO,
    E2BIG,
    ENOMSG,
    HistoryFull,
    NoMemory,
    BadLine,
    Stale,
}

impl Errno {
    /// Returns the number that a reply line prints, 1 to 24. It isn't Linux's number.
    pub fn number(self) -> u64
        ensures { result ≡ errno_number self }
    {
        match self {
            Errno::EACCES => 1,
            Errno::EXDEV => 2,
            Errno::ENOENT => 3,
            Errno::EEXIST => 4,
            Errno::ENOTDIR => 5,
            Errno::EISDIR => 6,
            Errno::ENOTEMPTY => 7,
            Errno::EINVAL => 8,
            Errno::EPERM => 9,
            Errno::EBUSY => 10,
            Errno::EBADF => 11,
            Errno::EMFILE => 12,
            Errno::ENOSPC => 13,
            Errno::EMLINK => 14,
            Errno::ENAMETOOLONG => 15,
            Errno::EFBIG => 16,
            Errno::ELOOP => 17,
            Errno::ENXIO => 18,
            Errno::E2BIG => 19,
            Errno::ENOMSG => 20,
            Errno::HistoryFull => 21,
            Errno::NoMemory => 22,
            Errno::BadLine => 23,
            Errno::Stale => 24,
        }
    }

    /// Returns the refusal's name, as lines spell it.
    pub fn text(self) -> &'static str
        ensures { result.now ≡ errno_text self }
    {
        match self {
            Errno::EACCES => "EACCES",
            Errno::EXDEV => "EXDEV",
            Errno::ENOENT => "ENOENT",
            Errno::EEXIST => "EEXIST",
            Errno::ENOTDIR => "ENOTDIR",
            Errno::EISDIR => "EISDIR",
            Errno::ENOTEMPTY => "ENOTEMPTY",
            Errno::EINVAL => "EINVAL",
            Errno::EPERM => "EPERM",
            Errno::EBUSY => "EBUSY",
            Errno::EBADF => "EBADF",
            Errno::EMFILE => "EMFILE",
            Errno::ENOSPC => "ENOSPC",
            Errno::EMLINK => "EMLINK",
            Errno::ENAMETOOLONG => "ENAMETOOLONG",
            Errno::EFBIG => "EFBIG",
            Errno::ELOOP => "ELOOP",
            Errno::ENXIO => "ENXIO",
            Errno::E2BIG => "E2BIG",
            Errno::ENOMSG => "ENOMSG",
            Errno::HistoryFull => "HistoryFull",
            Errno::NoMemory => "NoMemory",
            Errno::BadLine => "BadLine",
            Errno::Stale => "Stale",
        }
    }

    /// Parses a refusal's name.
    pub fn parse(text: &str) -> Option<Errno>
        ensures found { IfSome result (λ errno. text.now ≡ errno_text errno) }
        ensures none { IfNone result ((errno : Errno) → text.now ≢ errno_text errno) }
    {
        match text {
            "EACCES" => Some(Errno::EACCES),
            "EXDEV" => Some(Errno::EXDEV),
            "ENOENT" => Some(Errno::ENOENT),
            "EEXIST" => Some(Errno::EEXIST),
            "ENOTDIR" => Some(Errno::ENOTDIR),
            "EISDIR" => Some(Errno::EISDIR),
            "ENOTEMPTY" => Some(Errno::ENOTEMPTY),
            "EINVAL" => Some(Errno::EINVAL),
            "EPERM" => Some(Errno::EPERM),
            "EBUSY" => Some(Errno::EBUSY),
            "EBADF" => Some(Errno::EBADF),
            "EMFILE" => Some(Errno::EMFILE),
            "ENOSPC" => Some(Errno::ENOSPC),
            "EMLINK" => Some(Errno::EMLINK),
            "ENAMETOOLONG" => Some(Errno::ENAMETOOLONG),
            "EFBIG" => Some(Errno::EFBIG),
            "ELOOP" => Some(Errno::ELOOP),
            "ENXIO" => Some(Errno::ENXIO),
            "E2BIG" => Some(Errno::E2BIG),
            "ENOMSG" => Some(Errno::ENOMSG),
            "HistoryFull" => Some(Errno::HistoryFull),
            "NoMemory" => Some(Errno::NoMemory),
            "BadLine" => Some(Errno::BadLine),
            "Stale" => Some(Errno::Stale),
            _ => None,
        }
    }
}
