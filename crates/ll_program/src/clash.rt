//! Files that are read and written at the same time.

ghost use Rattle.std.specs.Prelude.{◌≡◌, OnSome, is_some, true};

use crate::draft::are_of_one_file;
use std::fmt::Display;
use std::rt::HostRuntime;
use std::{fmt, fs};

/// A file, or what a shell has put in its place.
#[derive(Clone, Copy, Debug)]
pub enum Device<'a> {
    File(&'a str),
    StandardInput,
    StandardOutput,
    StandardError,
}

impl<'a> Device<'a> {
    /// Returns the device that is read: the named file, or standard input.
    pub fn input(name: Option<&'a str>) -> Device<'a> {
        match name {
            Some(name) => Device::File(name),
            None => Device::StandardInput,
        }
    }

    // Returns its path on Linux.
    fn path(self) -> &'a str {
        match self {
            Device::File(name) => name,
            Device::StandardInput => "/dev/stdin",
            Device::StandardOutput => "/dev/stdout",
            Device::StandardError => "/dev/stderr",
        }
    }

    // Reports whether it is the regular file with this name, by whatever name.
    fn is_file(self, rt: &HostRuntime, name: &str) -> bool {
        match (fs::metadata(rt, name), fs::metadata(rt, self.path())) {
            (Ok(file), Ok(device)) => file.is_file() && are_of_one_file(&file, &device),
            _ => false,
        }
    }
}

impl Display for Device<'_> {
    fn fmt<W: fmt::Write>(&self, f: &mut fmt::Formatter<W>) -> fmt::Result {
        match self {
            Device::File(name) => f.write_str(name),
            Device::StandardInput => f.write_str("on standard input"),
            Device::StandardOutput => f.write_str("on standard output"),
            Device::StandardError => f.write_str("on standard error"),
        }
    }
}

/// What a device is used for.
#[derive(Clone, Copy, Debug)]
pub struct Purpose<'a> {
    pub what: &'a str,
    pub device: Device<'a>,
}

/// A file that is to be replaced while it is used.
#[derive(Clone, Copy, Debug)]
pub struct Clash<'a> {
    what: &'a str,
    name: &'a str,
    used: Purpose<'a>,
}

impl<'a> Clash<'a> {
    /// Returns the first of these devices that is the named file, if one is named. Compares the files' inodes, so names
    /// don't matter.
    pub fn find(
        rt: &HostRuntime,
        what: &'a str,
        name: Option<&'a str>,
        used: &[Option<Purpose<'a>>],
    ) -> Option<Clash<'a>>
        ensures { OnSome result (is_some name.entry ≡ true) }
    {
        let name = name?;
        for used in used {
            if let Some(used) = used
                && used.device.is_file(rt, name)
            {
                return Some(Clash {
                    what,
                    name,
                    used: *used,
                });
            }
        }
        None
    }
}

impl Display for Clash<'_> {
    fn fmt<W: fmt::Write>(&self, f: &mut fmt::Formatter<W>) -> fmt::Result {
        let (what, name) = (self.what, self.name);
        let Purpose { what: used, device } = self.used;
        write!(f, "the {what} {name} is the {used} {device}")
    }
}
