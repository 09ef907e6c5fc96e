//! Hands streams to the workers of a serve.

use crate::bounded::{Heard, Told, bounded};
use crate::log::Log;
use crate::port::{Listens, Missed};
use ll_program::ServeOptions;
use ll_session::Accepts;
use std::alloc::Global;
use std::io::Write;
use std::sync::atomic::{AtomicU64, Ordering};
use std::sync::{RwLock, Wait};

/// After this many failures in a row, the listener is asked for one stream less.
const FAILURES: usize = 100;

/// A listener, until the last of its expected streams. It is then dropped, so that no further peer waits at it.
#[derive(Drop)]
pub(crate) struct Door<'a, H, L, E> {
    rt: &'a H,
    alloc: Global,
    listener: RwLock<Option<L>>,
    log: &'a Log<'a, H, E>,
    room: u64,
    awaited: AtomicU64,
}

impl<'a, H: Wait, L: Listens + Drop, E: Write> Door<'a, H, L, E> {
    pub(crate) fn new(
        rt: &'a H,
        alloc: Global,
        listener: L,
        options: &ServeOptions,
        log: &'a Log<'a, H, E>,
    ) -> Self {
        Door {
            rt,
            alloc,
            listener: RwLock::new(Some(listener)),
            log,
            room: options.room,
            awaited: AtomicU64::new(options.connections as u64),
        }
    }
}

impl<H: Wait, L: Listens + Drop, E: Write> Accepts for Door<'_, H, L, E> {
    type In = Heard<L::In>;

    type Out = Told<L::Out>;

    // Accepts a stream. After a failed stream, or too many failures of the listener in a row, one stream less is
    // expected.
    fn accept(&self) -> Option<(Heard<L::In>, Told<L::Out>)> {
        let mut ends = None;
        if let Some(listener) = self.listener.read(self.rt).as_ref() {
            for failures in 0..FAILURES {
                match listener.accept() {
                    Ok(come) => {
                        ends = Some(come);
                        break;
                    }
                    Err(Missed::Stream(error)) => {
                        self.log.missed(&error);
                        break;
                    }
                    Err(Missed::Peer(error)) => {
                        if failures == 0 {
                            self.log.missed(&error);
                        }
                        listener.pause();
                    }
                }
            }
        }
        if self.awaited.fetch_sub(1, Ordering::SeqCst) == 1 {
            *self.listener.write(self.rt) = None;
        }
        let (reader, writer) = ends?;
        bounded(self.alloc, self.room, reader, writer).ok()
    }
}
