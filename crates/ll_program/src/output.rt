//! Saved histories and pictures: new files.

ghost use Rattle.std.specs.Prelude.{None};

use crate::draft::{Draft, is_file_at};
use ll_wire::Destination;
use std::alloc::Global;
use std::fs::Metadata;
use std::io::{Error, Write};
use std::rt::HostRuntime;
use std::{fs, io};

/// A record that stays beside its file.
#[derive(Drop)]
struct Kept {
    path: String,
    file: Metadata,
}

impl Kept {
    // Returns where this record was created, if it is beside its file and memory doesn't run out.
    fn of(alloc: Global, draft: &Draft<'_>) -> Option<Kept> {
        Some(Kept {
            path: String::from_str(alloc, draft.path()?).ok()?,
            file: draft.metadata().ok()?,
        })
    }

    // Reports whether it is still there.
    fn is_there(&self, rt: &HostRuntime) -> bool {
        is_file_at(rt, self.path.as_str(), &self.file).unwrap_or(false)
    }
}

/// The file with a name. It is created, or replaced if it exists.
#[derive(Drop)]
pub struct NewFile<'a> {
    rt: &'a HostRuntime,
    name: &'a str,
    what: &'a str,
    is_telling: bool,
    record: Option<Kept>,
    trouble: Option<Error>,
}

impl<'a> NewFile<'a> {
    /// Returns a file that isn't created yet. `what` says what it will contain, for messages. With `is_telling`,
    /// standard error says at once if there is no record.
    pub fn new(rt: &'a HostRuntime, name: &'a str, what: &'a str, is_telling: bool) -> NewFile<'a> {
        NewFile {
            rt,
            name,
            what,
            is_telling,
            record: None,
            trouble: None,
        }
    }

    /// Returns the file's name.
    pub fn name(&self) -> &'a str {
        self.name
    }

    /// Returns what the file will contain, for messages.
    pub fn what(&self) -> &'a str {
        self.what
    }

    /// Returns the path of the record that stays beside it, if one does.
    pub fn record_path(&self) -> Option<&str> {
        match &self.record {
            Some(kept) => Some(kept.path.as_str()),
            None => None,
        }
    }

    /// Removes the record, as after a failure before anybody could make a call.
    pub fn remove_record(&mut self) {
        if let Some(kept) = &self.record
            && kept.is_there(self.rt)
            && fs::remove_file(self.rt, kept.path.as_str()).is_ok()
        {
            self.record = None;
        }
    }

    /// Returns the system's error if the file couldn't be created, written or replaced.
    pub fn trouble(&self) -> Option<Error> {
        self.trouble
    }

    // Reports that there is no record before the end.
    fn tell(&self, error: Error) {
        if self.is_telling {
            let name = self.name;
            let _ = eprintln!(self.rt; "no record is kept beside {name}: {error}");
        }
    }
}

// No contract says what the system's files contain.
impl<'a> Destination for NewFile<'a> {
    type Draft = Draft<'a>;

    ghost contents = { λ file. None };

    ghost blank = { λ file. None };

    fn draft(&mut self) -> io::Result<Draft<'a>> {
        let made = Draft::new(self.rt, self.name);
        if let Err(error) = &made {
            self.trouble = Some(*error);
        }
        made
    }

    fn record(&mut self, head: &[u8]) -> Option<Draft<'a>> {
        match Draft::record(self.rt, self.name, head) {
            Ok(made) => {
                self.record = match &made {
                    Some(draft) => Kept::of(self.rt.alloc(), draft),
                    None => None,
                };
                made
            }
            Err(error) => {
                self.tell(error);
                None
            }
        }
    }

    fn put(&mut self, draft: Draft<'a>) -> io::Result<()> {
        let put = draft.put();
        if let Err(error) = &put {
            draft.remove();
            self.trouble = Some(*error);
        }
        put
    }

    fn remove(&mut self, draft: Draft<'a>) {
        draft.remove();
        if draft.is_record() {
            self.record = None;
        } else if let Some(error) = draft.trouble() {
            self.trouble = Some(error);
        }
    }
}
