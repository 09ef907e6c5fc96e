//! Ports that accept streams.

use std::io::{Read, Write};
use std::net::{Ipv4Addr, Net, TcpListener, TcpStream};
use std::time::{Clock, Duration};
use std::{io, thread};

/// The pause after a listener has failed, in milliseconds.
const PAUSE: u64 = 100;

/// Why no stream was accepted.
#[derive(Debug, Drop)]
pub enum Missed {
    /// A peer connected, but its stream failed.
    Stream(io::Error),
    /// No peer could be accepted.
    Peer(io::Error),
}

/// A listener for peers.
pub trait Listens {
    type In: Read + Send + Drop;

    type Out: Write + Send + Drop;

    /// Waits for the next peer. Returns the two ends of its stream.
    fn accept(&self) -> Result<(Self::In, Self::Out), Missed>;

    /// Waits a moment.
    fn pause(&self);
}

/// Binds listeners.
pub trait Binds {
    type Listener: Listens + Send + Sync + Drop;

    /// Listens at this port. With `idle`, a stream fails if its peer sends nothing, or takes no reply, for that many
    /// seconds. None if the port can't be bound.
    fn bind(&self, port: u16, idle: Option<u64>) -> Option<Self::Listener>;
}

/// The ports of 127.0.0.1, this machine's own address.
#[derive(Drop)]
pub struct Loopback<'a, R> {
    pub rt: &'a R,
}

/// A TCP port, and how long each of its streams waits for its peer.
#[derive(Drop)]
pub struct Port<'a, R> {
    rt: &'a R,
    listener: TcpListener,
    patience: Option<Duration>,
}

impl<'a, R: Net<Listener = TcpListener, Stream = TcpStream> + Clock + Sync> Binds
    for Loopback<'a, R> {
    type Listener = Port<'a, R>;

    fn bind(&self, port: u16, idle: Option<u64>) -> Option<Port<'a, R>> {
        let listener = TcpListener::bind(self.rt, (Ipv4Addr::LOCALHOST, port)).ok()?;
        Some(Port {
            rt: self.rt,
            listener,
            patience: idle.map(Duration::from_secs),
        })
    }
}

impl Missed {
    // Classifies the failure of accept(2): a peer that has gone counts as a failed stream.
    fn of(error: io::Error) -> Missed {
        match error.kind() {
            io::ErrorKind::ConnectionAborted => Missed::Stream(error),
            _ => Missed::Peer(error),
        }
    }
}

impl<R> Port<'_, R> {
    // Both ends of a stream, with its time limit.
    fn ends(&self, stream: TcpStream) -> io::Result<(TcpStream, TcpStream)> {
        stream.set_read_timeout(self.patience)?;
        stream.set_write_timeout(self.patience)?;
        stream.set_nodelay(true)?;
        let other = stream.try_clone()?;
        Ok((stream, other))
    }
}

impl<R: Clock> Listens for Port<'_, R> {
    type In = TcpStream;

    type Out = TcpStream;

    fn accept(&self) -> Result<(TcpStream, TcpStream), Missed> {
        let (stream, _) = self.listener.accept().map_err(Missed::of)?;
        self.ends(stream).map_err(Missed::Stream)
    }

    fn pause(&self) {
        thread::sleep(self.rt, Duration::from_millis(PAUSE));
    }
}
