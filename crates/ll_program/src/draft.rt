//! Drafts of files: written beside a file, and renamed over it when they are complete.

use std::alloc::Global;
use std::fs::{File, Metadata, OpenOptions, Permissions};
use std::io::{Error, ErrorKind, Write};
use std::os::unix::fs::MetadataExt;
use std::path::PathBuf;
use std::rt::HostRuntime;
use std::{fs, io};

/// How many names beside a file are tried for a draft of it.
const NAMES: usize = 100;

/// How often a name is looked at whose file others replace.
const LOOKS: usize = 1000;

/// The most links that a name may lead through.
const LINKS: usize = 40;

/// Linux's error number for a name that leads through more.
const TOO_MANY_LINKS: i32 = 40;

/// Reports whether both are the same file, by whatever names.
pub(crate) fn are_of_one_file(a: &Metadata, b: &Metadata) -> bool {
    a.dev() == b.dev() && a.ino() == b.ino()
}

/// Reports whether what has this path is still this file. A link at the end of the path isn't followed.
pub(crate) fn is_file_at(rt: &HostRuntime, path: &str, file: &Metadata) -> io::Result<bool> {
    let there = fs::symlink_metadata(rt, path)?;
    Ok(are_of_one_file(&there, file))
}

// Follows the links at the end of a name. The resulting name is no link, or leads nowhere.
fn followed(rt: &HostRuntime, name: &str) -> io::Result<PathBuf> {
    let mut path = PathBuf::from_str(rt.alloc(), name)?;
    for _ in 0..LINKS {
        let to = match fs::read_link(rt, path.as_path()) {
            Ok(to) => to,
            Err(error)
                if error.kind() == ErrorKind::InvalidInput || error.kind() == ErrorKind::NotFound =>
                {
                    return Ok(path);
                }
            Err(error) => return Err(error),
        };
        path.pop();
        path.push(to.as_path())?;
    }
    Err(Error::from_raw_os_error(TOO_MANY_LINKS))
}

/// What a name leads to.
#[derive(Drop)]
enum Home {
    /// Something that can't be replaced: a device, a pipe, a directory.
    Fixed,
    /// A regular file with this path, which may not exist yet. If it exists, its permissions.
    Regular(PathBuf, Option<Permissions>),
}

impl Home {
    // Returns None if another file came there meanwhile. Whoever may not write a file may not replace it either, and
    // nobody may write a directory.
    fn seen(rt: &HostRuntime, name: &str) -> io::Result<Option<Home>> {
        let found = match fs::metadata(rt, name) {
            Ok(found) if found.is_file() || found.is_dir() => found,
            Ok(_) => return Ok(Some(Home::Fixed)),
            Err(error) if error.kind() == ErrorKind::NotFound && !name.is_empty() => {
                return Ok(Some(Home::Regular(followed(rt, name)?, None)));
            }
            Err(error) => return Err(error),
        };
        drop(OpenOptions::new().write(true).open(rt, name)?);
        let path = followed(rt, name)?;
        if are_of_one_file(&found, &fs::metadata(rt, path.as_path())?) {
            Ok(Some(Home::Regular(path, Some(found.permissions()))))
        } else {
            Ok(None)
        }
    }

    // Looks again where another program replaces the file at the same moment, as a run that saves the same one does.
    fn of(rt: &HostRuntime, name: &str) -> io::Result<Home> {
        for _ in 0..LOOKS {
            if let Some(home) = Home::seen(rt, name)? {
                return Ok(home);
            }
        }
        let message = "others replace the file all the time";
        Err(Error::new(ErrorKind::NotFound, message))
    }
}

/// Where a draft is written, and the file that it will replace.
#[derive(Drop)]
struct Beside {
    path: String,
    target: PathBuf,
}

/// The draft of a file. A file that can't be replaced is written directly.
#[derive(Drop)]
pub struct Draft<'a> {
    rt: &'a HostRuntime,
    file: File,
    beside: Option<Beside>,
    trouble: Option<Error>,
    is_record: bool,
}

// Returns the name with this number, from 1, that is tried beside this path.
fn name_beside(alloc: Global, target: &str, number: usize) -> io::Result<String> {
    let name = if number == 1 {
        format!(in alloc; "{target}.part")?
    } else {
        format!(in alloc; "{target}.part.{number}")?
    };
    Ok(name)
}

impl<'a> Draft<'a> {
    // Returns a draft that writes directly to a file that can't be replaced.
    fn fixed(rt: &'a HostRuntime, name: &str) -> io::Result<Draft<'a>> {
        Ok(Draft {
            rt,
            file: File::create(rt, name)?,
            beside: None,
            trouble: None,
            is_record: false,
        })
    }

    // Creates a file beside this one, with the first free name.
    fn beside(
        rt: &'a HostRuntime,
        target: PathBuf,
        permissions: Option<Permissions>,
    ) -> io::Result<Draft<'a>> {
        for number in 1..=NAMES {
            let path = name_beside(rt.alloc(), target.as_str(), number)?;
            let file = match File::create_new(rt, path.as_str()) {
                Ok(file) => file,
                Err(error) if error.kind() == ErrorKind::AlreadyExists => continue,
                Err(error) => return Err(error),
            };
            if let Some(permissions) = permissions {
                // Some file systems have no permissions.
                let _ = file.set_permissions(permissions);
            }
            return Ok(Draft {
                rt,
                file,
                beside: Some(Beside { path, target }),
                trouble: None,
                is_record: false,
            });
        }
        let message = "a hundred drafts are there, from .part on";
        Err(Error::new(ErrorKind::AlreadyExists, message))
    }

    /// Creates a draft for the file with this name.
    pub(crate) fn new(rt: &'a HostRuntime, name: &str) -> io::Result<Draft<'a>> {
        match Home::of(rt, name)? {
            Home::Fixed => Draft::fixed(rt, name),
            Home::Regular(target, permissions) => Draft::beside(rt, target, permissions),
        }
    }

    /// Creates a draft that begins with these bytes and grows with each entry. None for a file that can't be replaced.
    pub(crate) fn record(
        rt: &'a HostRuntime,
        name: &str,
        head: &[u8],
    ) -> io::Result<Option<Draft<'a>>> {
        let Home::Regular(target, permissions) = Home::of(rt, name)? else {
            return Ok(None);
        };
        let mut draft = Draft::beside(rt, target, permissions)?;
        draft.is_record = true;
        match draft.write_all(head) {
            Ok(()) => Ok(Some(draft)),
            Err(error) => {
                draft.remove();
                Err(error)
            }
        }
    }

    // Reports whether the file with this name is still the draft.
    fn is_at(&self, path: &str) -> io::Result<bool> {
        is_file_at(self.rt, path, &self.file.metadata()?)
    }

    // Renames the draft over its file, after it is on the disk.
    fn rename(&self, beside: &Beside) -> io::Result<()> {
        self.file.sync_all()?;
        if self.is_at(beside.path.as_str())? {
            fs::rename(self.rt, beside.path.as_str(), beside.target.as_path())
        } else {
            Err(Error::from(ErrorKind::NotFound))
        }
    }

    /// Replaces the file with the draft.
    pub(crate) fn put(&self) -> io::Result<()> {
        match &self.beside {
            Some(beside) => self.rename(beside),
            None => Ok(()),
        }
    }

    /// Removes the draft. If that fails, it stays.
    pub(crate) fn remove(&self) {
        if let Some(beside) = &self.beside
            && let Ok(true) = self.is_at(beside.path.as_str())
        {
            let _ = fs::remove_file(self.rt, beside.path.as_str());
        }
    }

    /// Returns its path, if it is beside its file.
    pub(crate) fn path(&self) -> Option<&str> {
        match &self.beside {
            Some(beside) => Some(beside.path.as_str()),
            None => None,
        }
    }

    /// Returns what the system knows of it now.
    pub(crate) fn metadata(&self) -> io::Result<Metadata> {
        self.file.metadata()
    }

    /// Reports whether it grows with each entry.
    pub(crate) fn is_record(&self) -> bool {
        self.is_record
    }

    /// Returns the device's error for the last failed write.
    pub(crate) fn trouble(&self) -> Option<Error> {
        self.trouble
    }
}

impl Write for Draft<'_> {
    fn write(&mut self, buf: &[u8]) -> io::Result<usize> {
        let told = self.file.write(buf);
        self.trouble = match &told {
            Ok(_) => None,
            Err(error) => Some(*error),
        };
        told
    }

    fn flush(&mut self) -> io::Result<()> {
        self.file.flush()
    }
}
