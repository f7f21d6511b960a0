//! Links, doors and a net over TCP. They count their faults, say them on standard error, and tell no content.
ghost use Rattle.std.specs.Prelude.{◌≡◌, refl, ◌≤◌, ◌+◌, [], ℕ, List, None, length, vec_capacity, IfOk, OnOk};
ghost use Rattle.std.specs.List.{AllByRecursion};
ghost use Rattle.std.specs.Io.KnownBytes.{ReadConsumes, WriteAppends};
ghost use Rattle.house_io.specs.Faults.{HasCause, faults_after, raised_by};
ghost use Rattle.house_io.specs.Sinks.{IsPart};
ghost use Rattle.house_io.specs.Nets.{HasNetCause};
ghost use Rattle.house_io.specs.LinkForms.{net_faults_after};

use crate::real::closing::close;
use crate::real::reporting::{Call, Reporter, say, say_open};
use crate::{Door, Failed, Link, Net, Refusal};
use std::alloc::Global;
use std::io::{self, ErrorKind, Read, Write};
use std::marker::Model;
use std::net::{OpenListener, OpenStream, TcpListener, TcpStream};
use std::sync::ArcStr;

/// A connection, seen as the stream and the count of its faults. A pull reads once, and a push writes once.
#[derive(Drop)]
pub struct TcpLink<'a, R, S> {
    /// The runtime by which a fault is said.
    rt: &'a R,
    /// The connection. Its small pieces are sent at once where the system allows it.
    stream: S,
    /// Counts its faults, and says them.
    reporter: Reporter,
}

impl<'a, R, S> Model for TcpLink<'a, R, S> {
    ghost use Rattle.house_io.specs.Opened.{OpenedStream};

    ghost Value = { OpenedStream S };

    ghost view = { λ link. record { stream = link.stream; faults = link.reporter } };
}

impl<'a, R, S: OpenStream> TcpLink<'a, R, S> {
    /// A link over a connection, whose small pieces are sent at once where the system allows it. It has not failed yet.
    fn new(rt: &'a R, reporter: Reporter, stream: S) -> TcpLink<'a, R, S>
        ensures { result ≡ record { stream = stream; faults = reporter } }
    {
        // Else a reply would wait for the one before it to be acknowledged. A refusal makes it slower, and nothing else.
        let _ = stream.set_nodelay(true);
        TcpLink {
            rt,
            stream,
            reporter,
        }
    }
}

/// Writes once. Where nothing is taken of a piece that is not empty, the write has failed.
fn write_part<S: Write>(stream: &mut S, from: &[u8]) -> io::Result<usize>
    ensures part { IfOk result (λ count. IsPart count from.now) }
    // On a stream whose bytes are known.
    ensures writes { WriteAppends (S.contents stream.old) (S.contents stream.new) result from.now }
{
    match stream.write(from) {
        Ok(0) if !from.is_empty() => Err(ErrorKind::WriteZero.into()),
        outcome => outcome,
    }
}

impl<'a, R: Eprint, S: Read + Write> Link for TcpLink<'a, R, S> {
    ghost told = { λ _. None };

    ghost faults = { λ link. link.faults };

    fn pull(&mut self, into: &mut [u8]) -> Result<usize, Failed>
        ensures within { IfOk result (λ count. count ≤ length into.new) }
        // Of a stream whose bytes are known.
        ensures reads { ReadConsumes (S.remaining self.old.stream) (S.remaining self.new.stream) result into.new }
        ensures faults { self.new.faults ≡ faults_after result self.old.faults }
        ensures cause { HasCause self.old.faults self.new.faults result }
    {
        match self.stream.read(into) {
            Ok(count) => {
                self.reporter.went_well();
                Ok(count)
            }
            Err(error) => Err(self.reporter.failed(self.rt, Call::Read, &error)),
        }
    }

    fn push(&mut self, from: &[u8]) -> Result<usize, Failed>
        ensures part { IfOk result (λ count. IsPart count from.now) }
        // On a stream whose bytes are known.
        ensures writes { WriteAppends (S.contents self.old.stream) (S.contents self.new.stream) result from.now }
        ensures faults { self.new.faults ≡ faults_after result self.old.faults }
        ensures cause { HasCause self.old.faults self.new.faults result }
    {
        match write_part(&mut self.stream, from) {
            Ok(count) => {
                self.reporter.went_well();
                Ok(count)
            }
            Err(error) => Err(self.reporter.failed(self.rt, Call::Write, &error)),
        }
    }
}

/// A door at which connections come in, seen as the count of its faults.
#[derive(Drop)]
pub struct TcpDoor<'a, R, L> {
    /// The runtime by which a fault is said.
    rt: &'a R,
    /// Where the connections come in. The doors of a net at one address have clones of one listener.
    listener: L,
    /// Counts its faults, and says them.
    reporter: Reporter,
}

impl<'a, R, L> Model for TcpDoor<'a, R, L> {
    ghost Value = { ℕ };

    ghost view = { λ door. door.reporter };
}

/// The next connection. One that was given up before it was accepted is passed over.
fn next_stream<L: OpenListener>(listener: &L) -> io::Result<L::Stream> {
    let mut last = io::Error::from(ErrorKind::ConnectionAborted);
    for stream in listener.incoming() {
        match stream {
            Ok(stream) => return Ok(stream),
            Err(error) if error.kind() == ErrorKind::ConnectionAborted => last = error,
            Err(error) => return Err(error),
        }
    }
    Err(last)
}

/// A link over the next connection, which says its faults under the door's name.
fn next_link<'a, R, L: OpenListener>(
    rt: &'a R,
    listener: &L,
    door: &Reporter,
) -> io::Result<TcpLink<'a, R, L::Stream>>
where
    L::Stream: OpenStream,
    ensures { IfOk result (λ link. link.faults ≡ 0) }
{
    let stream = next_stream(listener)?;
    match door.anew() {
        Ok(reporter) => Ok(TcpLink::new(rt, reporter, stream)),
        Err(_) => Err(ErrorKind::OutOfMemory.into()),
    }
}

impl<'a, R: Eprint + Sync, L: OpenListener> Door for TcpDoor<'a, R, L>
where
    L::Stream: Read + Write + OpenStream + Send,
{
    type Link = TcpLink<'a, R, L::Stream>;

    ghost told = { λ _. None };

    ghost faults = { λ door. door };

    fn accept(&mut self) -> Result<TcpLink<'a, R, L::Stream>, Failed>
        ensures fresh { IfOk result (λ link. link.faults ≡ 0) }
        ensures faults { self.new ≡ faults_after result self.old }
        ensures cause { HasCause self.old self.new result }
    {
        let outcome = next_link(self.rt, &self.listener, &self.reporter);
        self.reporter.ended(self.rt, Call::Accept, outcome)
    }

    fn hang_up(&mut self, link: TcpLink<'a, R, L::Stream>) {
        let TcpLink { stream, .. } = link;
        close(stream);
    }
}

/// What a net said last: the address, the call, and the system's number of its cause.
#[derive(Drop)]
struct Said {
    /// As it was asked for.
    address: ArcStr,
    /// The call that failed.
    call: Call,
    /// None where the system gave no number.
    cause: Option<i32>,
}

/// The network, seen as the count of its faults and of those that were given back to it.
#[derive(Drop)]
pub struct TcpNet<'a, R: std::net::Net> {
    /// The runtime by which addresses are listened at and dialled, and a fault is said.
    rt: &'a R,
    /// How often it has failed, up to the last value of 64 bits.
    faults: u64,
    /// What was said last of a call that failed, where none has gone well since.
    said: Option<Said>,
}

impl<'a, R: std::net::Net> Model for TcpNet<'a, R> {
    ghost Value = { ℕ };

    ghost view = { λ net. net.faults };
}

impl<'a, R: std::net::Net> TcpNet<'a, R> {
    /// The network of this runtime. It has not failed yet.
    pub fn new(rt: &'a R) -> TcpNet<'a, R>
        ensures { result ≡ 0 }
    {
        TcpNet {
            rt,
            faults: 0,
            said: None,
        }
    }

    /// Whether that was said last.
    fn has_said(&self, address: &ArcStr, call: Call, cause: Option<i32>) -> bool {
        match &self.said {
            Some(said) => said.address == *address && said.call == call && said.cause == cause,
            None => false,
        }
    }
}

impl<'a, R: std::net::Net + Eprint> TcpNet<'a, R> {
    /// Counts a call that failed, and says it, unless it said the same last.
    fn fail(&mut self, address: ArcStr, call: Call, error: &io::Error) -> Refusal
        ensures count { self.new ≡ raised_by self.old 1 }
        ensures refusal { result ≡ Refusal.Failed }
    {
        let cause = error.raw_os_error();
        if !self.has_said(&address, call, cause) {
            say(self.rt, address.as_str(), call, error);
        }
        self.said = Some(Said {
            address,
            call,
            cause,
        });
        self.faults = self.faults.saturating_add(1);
        Refusal::Failed
    }
}

/// Puts so many doors on a listener into a list, with the reporter's name.
fn fill_doors<'a, R, L: OpenListener>(
    rt: &'a R,
    listener: &L,
    reporter: &Reporter,
    doors: &mut Vec<TcpDoor<'a, R, L>>,
    count: usize,
) -> io::Result<()>
    requires room { count ≤ vec_capacity doors.old }
    requires empty { doors.old.items ≡ [] }
    ensures count { OnOk result (length doors.new.items ≡ count) }
    ensures fresh { AllByRecursion (λ (faults : ℕ). faults ≡ 0) doors.new.items }
{
    for _turn in 0..count {
        doors.push_reserved(another_door(rt, listener, reporter)?);
    }
    Ok(())
}

/// A door on a clone of the listener, with the reporter's name. It has not failed yet.
fn another_door<'a, R, L: OpenListener>(
    rt: &'a R,
    listener: &L,
    reporter: &Reporter,
) -> io::Result<TcpDoor<'a, R, L>>
    ensures { IfOk result (λ door. door ≡ 0) }
{
    let Ok(reporter) = reporter.anew() else {
        return Err(ErrorKind::OutOfMemory.into());
    };
    Ok(TcpDoor {
        rt,
        listener: listener.try_clone()?,
        reporter,
    })
}

/// Listens at an address, and puts so many doors on it into a list.
fn open_doors<'a, R: std::net::Net>(
    rt: &'a R,
    address: &ArcStr,
    doors: &mut Vec<TcpDoor<'a, R, R::Listener>>,
    count: usize,
) -> io::Result<()>
    requires room { count ≤ vec_capacity doors.old }
    requires empty { doors.old.items ≡ [] }
    ensures count { OnOk result (length doors.new.items ≡ count) }
    ensures fresh { AllByRecursion (λ (faults : ℕ). faults ≡ 0) doors.new.items }
{
    let Ok(name) = address.clone() else {
        return Err(ErrorKind::OutOfMemory.into());
    };
    let listener = TcpListener::bind(rt, address.as_str())?;
    fill_doors(rt, &listener, &Reporter::new(name), doors, count)
}

/// A link over a new connection to an address, whose faults are said under its name.
fn dialled<'a, R: std::net::Net>(
    rt: &'a R,
    address: &ArcStr,
) -> io::Result<TcpLink<'a, R, R::Stream>>
    ensures { IfOk result (λ link. link.faults ≡ 0) }
{
    let Ok(name) = address.clone() else {
        return Err(ErrorKind::OutOfMemory.into());
    };
    let stream = TcpStream::connect(rt, address.as_str())?;
    Ok(TcpLink::new(rt, Reporter::new(name), stream))
}

impl<'a, R: std::net::Net + Eprint + Sync> Net for TcpNet<'a, R>
where
    R::Stream: Send,
    R::Listener: Send,
{
    type Link = TcpLink<'a, R, R::Stream>;

    type Door = TcpDoor<'a, R, R::Listener>;

    ghost told = { λ _. None };

    ghost faults = { λ net. net };

    ghost shown = { λ net. record { told = None; faults = net } };

    ghost shows = { λ net. refl };

    fn doors(
        &mut self,
        alloc: Global,
        address: &str,
        count: u32,
    ) -> Result<Vec<TcpDoor<'a, R, R::Listener>>, Refusal>
        ensures count { IfOk result (λ doors. length doors.items ≡ count) }
        ensures fresh { IfOk result (λ doors. AllByRecursion (λ (faults : ℕ). faults ≡ 0) doors.items) }
        // They tell nothing.
        ensures places { IfOk result (λ doors. AllByRecursion (λ _. Unit {0}) doors.items) }
        ensures faults { self.new ≡ net_faults_after result self.old }
        ensures cause { HasNetCause self.old self.new result }
    {
        let mut doors = match Vec::with_capacity(alloc, count as usize) {
            Ok(doors) => doors,
            Err(_) => return Err(Refusal::NoMemory),
        };
        let name = match ArcStr::from_str(alloc, address) {
            Ok(name) => name,
            Err(_) => return Err(Refusal::NoMemory),
        };
        match open_doors(self.rt, &name, &mut doors, count as usize) {
            Ok(()) => {
                say_open(self.rt, address);
                self.said = None;
                Ok(doors)
            }
            Err(error) => Err(self.fail(name, Call::Bind, &error)),
        }
    }

    fn close_door(&mut self, door: TcpDoor<'a, R, R::Listener>) {
        self.faults = self.faults.saturating_add(door.reporter.faults());
    }

    fn dial(&mut self, alloc: Global, address: &str) -> Result<TcpLink<'a, R, R::Stream>, Refusal>
        ensures fresh { IfOk result (λ link. link.faults ≡ 0) }
        ensures faults { self.new ≡ net_faults_after result self.old }
        ensures cause { HasNetCause self.old self.new result }
    {
        let name = match ArcStr::from_str(alloc, address) {
            Ok(name) => name,
            Err(_) => return Err(Refusal::NoMemory),
        };
        match dialled(self.rt, &name) {
            Ok(link) => {
                self.said = None;
                Ok(link)
            }
            Err(error) => Err(self.fail(name, Call::Connect, &error)),
        }
    }

    fn hang_up(&mut self, link: TcpLink<'a, R, R::Stream>) {
        self.faults = self.faults.saturating_add(link.reporter.faults());
    }
}
