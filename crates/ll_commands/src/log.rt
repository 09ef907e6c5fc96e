//! What is printed of connections on standard error.

ghost use Rattle.std.specs.Prelude.{◌≡◌, length};
ghost use Rattle.ll_commands.specs.Counts.{plus};

use crate::bounded::{Heard, Told, trouble_of};
use crate::counts::Counts;
use crate::trouble::Troubled;
use ll_client::Shape;
use ll_program::ServeOptions;
use ll_rights::Errno;
use ll_seq::Reply;
use ll_session::{Refusal, Served, Stream, Watches};
use ll_wire::{SessionFault, reply_line};
use std::alloc::Global;
use std::fmt::Display;
use std::io;
use std::io::Write;
use std::sync::{Mutex, Wait};

/// How much is printed.
#[derive(Clone, Copy, Debug, PartialEq, Eq)]
enum Telling {
    Nothing,
    /// The number of open connections, in one line that is written again and again.
    Open,
    /// A line for each that comes or goes, and the totals.
    Lines,
}

// The counts so far, and where they are printed. Failed writes are ignored.
#[derive(Drop)]
struct Desk<E> {
    alloc: Global,
    err: E,
    telling: Telling,
    // How many seconds a connection may wait for its peer.
    idle: u64,
    open: u64,
    connections: u64,
    total: Counts,
    refusal: Option<Refusal>,
}

// Reports whether a call of the profile is refused, and not since the others have filled the tree or its history.
fn is_by_policy(refusal: &Refusal) -> bool {
    refusal.calls != 0 && !matches!(refusal.reply, Reply::Refused(Errno::HistoryFull))
}

impl<E: Write> Desk<E> {
    fn tell_open(&mut self)
        ensures { self.new.total ≡ self.old.total }
    {
        let open = self.open;
        if self.telling == Telling::Open {
            let _ = write!(self.err, "\r{open} open ");
        }
    }

    fn came(&mut self, number: u64) {
        self.open = self.open.saturating_add(1);
        self.connections = self.connections.saturating_add(1);
        if self.telling == Telling::Lines {
            let _ = writeln!(self.err, "connection {number} came");
        }
        self.tell_open();
    }

    // Prints what a connection has counted, and how it ended.
    fn tell_end<D: Display>(&mut self, number: u64, counts: Counts, end: &D)
        ensures { self.new.total ≡ self.old.total }
    {
        if self.telling == Telling::Lines {
            let _ = writeln!(self.err, "connection {number} went: {counts}, {end}");
        }
    }

    fn tell_ended<N: Shape, R, W>(
        &mut self,
        stream: &Stream<Heard<R>, Told<W>>,
        served: &Served<N, Heard<R>, Told<W>>,
        refusal: Option<&Refusal>,
    )
        ensures { self.new.total ≡ self.old.total }
    {
        let (number, counts) = (stream.number, Counts::of(served));
        match (&served.outcome.ended, refusal) {
            (Ok(()), Some(refusal)) => match reply_line(self.alloc, &refusal.reply) {
                Ok(line) => self.tell_end(number, counts, &line.as_str().trim_end()),
                Err(error) => self.tell_end(number, counts, &error),
            },
            (Ok(()), None) => self.tell_end(number, counts, &"at its end"),
            (Err(SessionFault::Read | SessionFault::Write), _)
                if let Some(trouble) = trouble_of(&stream.reader, &stream.writer) => {
                let idle = self.idle;
                self.tell_end(number, counts, &Troubled { trouble, idle });
            }
            (Err(fault), _) => self.tell_end(number, counts, fault),
        }
    }

    // Keeps the first refusal that is by the policy.
    fn keep(&mut self, refusal: Option<Refusal>)
        ensures { self.new.total ≡ self.old.total }
    {
        if let Some(refusal) = refusal
            && self.refusal.is_none()
            && is_by_policy(&refusal)
        {
            self.refusal = Some(refusal);
        }
    }

    fn went<N: Shape, R, W>(
        &mut self,
        stream: &Stream<Heard<R>, Told<W>>,
        served: &Served<N, Heard<R>, Told<W>>,
        refusal: Option<Refusal>,
    )
        ensures { self.new.total ≡ plus self.old.total
            (record { clients = length served.now.clients.items; tally = served.now.outcome.tally }) }
    {
        self.open = self.open.saturating_sub(1);
        self.total = self.total.plus(Counts::of(served));
        self.tell_ended(stream, served, refusal.as_ref());
        self.tell_open();
        self.keep(refusal);
    }

    fn missed(&mut self, error: &io::Error) {
        if self.telling == Telling::Lines {
            let _ = writeln!(self.err, "no connection: {error}");
        }
    }

    fn end(&mut self) {
        let (connections, total) = (self.connections, self.total);
        let _ = match self.telling {
            Telling::Nothing => Ok(()),
            Telling::Open => writeln!(self.err, ""),
            Telling::Lines => writeln!(self.err, "{connections} connections: {total}"),
        };
    }
}

/// Prints connections as they come and go, and the totals at the end. A line for each, if the options ask for a log;
/// otherwise the number of open ones, if somebody watches.
#[derive(Drop)]
pub struct Log<'a, H, E> {
    rt: &'a H,
    desk: Mutex<Desk<E>>,
}

impl<'a, H: Wait, E: Write> Log<'a, H, E> {
    pub fn new(rt: &'a H, alloc: Global, options: &ServeOptions, err: E, is_watched: bool) -> Self {
        let telling = if options.log {
            Telling::Lines
        } else if is_watched {
            Telling::Open
        } else {
            Telling::Nothing
        };
        let desk = Mutex::new(Desk {
            alloc,
            err,
            telling,
            idle: options.idle.unwrap_or(0),
            open: 0,
            connections: 0,
            total: Counts::none(),
            refusal: None,
        });
        Log { rt, desk }
    }

    /// Returns the first refusal of a call of a connection's profile, if there is one that the other connections aren't
    /// the reason of, and forgets it.
    pub fn refusal(&self) -> Option<Refusal> {
        self.desk.lock(self.rt).refusal.take()
    }

    /// Prints that one couldn't be accepted.
    pub(crate) fn missed(&self, error: &io::Error) {
        self.desk.lock(self.rt).missed(error);
    }

    /// Prints the end: no more connections come.
    pub(crate) fn end(&self) {
        self.desk.lock(self.rt).end();
    }
}

impl<H: Wait, E: Write, R, W> Watches<Heard<R>, Told<W>> for Log<'_, H, E> {
    fn came(&self, stream: &Stream<Heard<R>, Told<W>>) {
        self.desk.lock(self.rt).came(stream.number);
    }

    fn went<N: Shape>(
        &self,
        stream: &Stream<Heard<R>, Told<W>>,
        served: &Served<N, Heard<R>, Told<W>>,
        refusal: Option<Refusal>,
    ) {
        self.desk.lock(self.rt).went(stream, served, refusal);
    }
}
