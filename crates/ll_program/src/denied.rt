//! What an exported program denies apart from rights on files.

ghost use Rattle.std.specs.Prelude.{◌≡◌};

/// Kinds of access that the exported program handles without allowing any, apart from rights on files.
#[derive(Clone, Copy, Debug, PartialEq, Eq)]
pub struct Denied {
    pub tcp: bool,
    pub ioctl_dev: bool,
    pub signal: bool,
    pub abstract_unix_socket: bool,
}

impl Denied {
    ghost use Rattle.ll_program.specs.Options.{denied_by, denied_too, nothing_denied};

    pub const NOTHING: Denied = Denied {
        tcp: false,
        ioctl_dev: false,
        signal: false,
        abstract_unix_socket: false,
    };

    // Adds what this word names; None if it names nothing.
    fn with(self, word: &str) -> Option<Denied>
        ensures { result ≡ denied_too self word.now }
    {
        match word {
            "tcp" => Some(Denied { tcp: true, ..self }),
            "ioctl_dev" => Some(Denied {
                ioctl_dev: true,
                ..self
            }),
            "signal" => Some(Denied {
                signal: true,
                ..self
            }),
            "abstract_unix_socket" => Some(Denied {
                abstract_unix_socket: true,
                ..self
            }),
            _ => None,
        }
    }

    // The words between the commas; None if one of them names nothing.
    pub(crate) fn of_list(list: &str) -> Option<Denied>
        ensures { result ≡ denied_by list.now }
    {
        let mut denied = Denied::NOTHING;
        for word in list.split(',') {
            denied = denied.with(word)?;
        }
        Some(denied)
    }
}
