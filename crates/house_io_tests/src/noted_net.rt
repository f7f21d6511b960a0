//! A network that keeps each call that is made of it and of its listeners and connections, and fails chosen ones.
use crate::notes::{Notes, unsupported};
use std::fmt::Display;
use std::io::{self, ErrorKind, Read, Write};
use std::net::{OpenListener, OpenStream, Shutdown, SocketAddr};
use std::os::fd::{AsRawFd, RawFd};
use std::sync::Arc;
use std::time::Duration;

/// A call with its arguments.
#[derive(Clone, Copy, Debug, PartialEq, Eq)]
pub(crate) enum Call {
    /// The address and the port.
    Bind([u8; 4], u16),
    /// The address and the port.
    Connect([u8; 4], u16),
    /// Another listener of the same socket.
    CloneListener,
    /// A caller is waited for.
    Accept,
    /// Whether a short piece is sent at once.
    NoDelay(bool),
    /// The length of the buffer.
    Read(usize),
    /// The length of the piece.
    Write(usize),
    /// The length of the buffer.
    Peek(usize),
    /// Whether calls on it do not wait.
    NonBlocking(bool),
    /// In milliseconds.
    ReadTimeout(Option<u128>),
    /// Which directions are shut.
    Shutdown(Shutdown),
    /// Any other call.
    Other,
}

/// A network on which a peer sends so many bytes over each connection.
#[derive(Drop)]
pub(crate) struct NotedNet {
    /// The calls that came.
    pub(crate) calls: Arc<Notes<Call>>,
    /// How many bytes the peer sends over each connection.
    pub(crate) sent: u64,
}

#[derive(Drop)]
pub(crate) struct NotedListener {
    /// The net's notes.
    calls: Arc<Notes<Call>>,
    /// How many bytes the peer sends over each connection.
    sent: u64,
}

/// A connection that gives at most 5,000 bytes at a time, and takes at most 3.
#[derive(Drop)]
pub(crate) struct NotedStream {
    /// The net's notes.
    calls: Arc<Notes<Call>>,
    /// How many bytes of the peer are still to come.
    left: u64,
}

const GIVEN: u64 = 5_000;

impl Read for NotedStream {
    fn read(&mut self, into: &mut [u8]) -> io::Result<usize> {
        self.calls.note(Call::Read(into.len()))?;
        let count = into.len().min(self.left.min(GIVEN) as usize);
        self.left = self.left.saturating_sub(count as u64);
        Ok(count)
    }
}

impl Write for NotedStream {
    fn write(&mut self, from: &[u8]) -> io::Result<usize> {
        self.calls.note(Call::Write(from.len()))?;
        Ok(from.len().min(3))
    }

    fn flush(&mut self) -> io::Result<()> {
        self.calls.note_other(Call::Other)
    }
}

impl OpenStream for NotedStream {
    fn shutdown(&self, how: Shutdown) -> io::Result<()> {
        self.calls.note(Call::Shutdown(how))
    }

    fn set_nodelay(&self, is_set: bool) -> io::Result<()> {
        self.calls.note(Call::NoDelay(is_set))
    }

    fn set_nonblocking(&self, is_set: bool) -> io::Result<()> {
        self.calls.note(Call::NonBlocking(is_set))
    }

    fn set_read_timeout(&self, silence: Option<Duration>) -> io::Result<()> {
        let silence = match silence {
            Some(silence) => Some(silence.as_millis()),
            None => None,
        };
        self.calls.note(Call::ReadTimeout(silence))
    }

    fn set_write_timeout(&self, _silence: Option<Duration>) -> io::Result<()> {
        self.calls.note_other(Call::Other)
    }

    fn peek(&self, into: &mut [u8]) -> io::Result<usize> {
        self.calls.note(Call::Peek(into.len()))?;
        if self.left == 0 {
            return Err(ErrorKind::WouldBlock.into());
        }
        Ok(into.len().min(1))
    }

    fn set_ttl(&self, _ttl: u32) -> io::Result<()> {
        self.calls.note_other(Call::Other)
    }

    fn try_clone(&self) -> io::Result<NotedStream> {
        self.calls.note_other(Call::Other)
    }
}

impl AsRawFd for NotedStream {
    fn as_raw_fd(&self) -> RawFd {
        -1
    }
}

impl AsRawFd for NotedListener {
    fn as_raw_fd(&self) -> RawFd {
        -1
    }
}

impl OpenListener for NotedListener {
    type Stream = NotedStream;

    fn accept(&self) -> io::Result<(NotedStream, SocketAddr)> {
        self.calls.note(Call::Accept)?;
        let stream = stream_of(&self.calls, self.sent)?;
        Ok((stream, SocketAddr::from(([127, 0, 0, 1], 50_000))))
    }

    fn set_nonblocking(&self, is_set: bool) -> io::Result<()> {
        self.calls.note(Call::NonBlocking(is_set))
    }

    fn set_ttl(&self, _ttl: u32) -> io::Result<()> {
        self.calls.note_other(Call::Other)
    }

    fn try_clone(&self) -> io::Result<NotedListener> {
        self.calls.note(Call::CloneListener)?;
        listener_of(&self.calls, self.sent)
    }
}

fn stream_of(calls: &Arc<Notes<Call>>, sent: u64) -> io::Result<NotedStream> {
    match Arc::clone(calls) {
        Ok(calls) => Ok(NotedStream { calls, left: sent }),
        Err(_) => unsupported(),
    }
}

fn listener_of(calls: &Arc<Notes<Call>>, sent: u64) -> io::Result<NotedListener> {
    match Arc::clone(calls) {
        Ok(calls) => Ok(NotedListener { calls, sent }),
        Err(_) => unsupported(),
    }
}

/// The four numbers of an address, where it has four.
fn numbers_of(address: SocketAddr) -> [u8; 4] {
    match address {
        SocketAddr::V4(address) => address.ip().octets(),
        SocketAddr::V6(_) => [0; 4],
    }
}

impl std::net::Net for NotedNet {
    type Stream = NotedStream;

    type Listener = NotedListener;

    fn bind(&self, address: SocketAddr) -> io::Result<NotedListener> {
        self.calls
            .note(Call::Bind(numbers_of(address), address.port()))?;
        listener_of(&self.calls, self.sent)
    }

    fn connect(&self, address: SocketAddr) -> io::Result<NotedStream> {
        self.calls
            .note(Call::Connect(numbers_of(address), address.port()))?;
        stream_of(&self.calls, self.sent)
    }

    fn connect_timeout(&self, _address: SocketAddr, _most: Duration) -> io::Result<NotedStream> {
        self.calls.note_other(Call::Other)
    }
}

impl Eprint for NotedNet {
    fn eprint<D: Display + Drop>(&self, value: D) -> io::Result<()> {
        self.eprintln(value)
    }

    fn eprintln<D: Display + Drop>(&self, value: D) -> io::Result<()> {
        self.calls.say(value)
    }
}
