//! One connection, and what is known of it without asking the system.

ghost use Rattle.std.specs.Prelude.{◌≡◌, ◌<◌, ◌||◌, length, true, false, if◌then◌else◌};
ghost use Rattle.hb_world.specs.Answers.{finish_failed, read_failed, write_failed, look_failed, ReadsWithin, WritesWithin};
ghost use Rattle.hb_world.specs.Seen.{CountsUp};
ghost use Rattle.hb_world.specs.declared.world.Finished.TheVariants as finished;
ghost use Rattle.hb_world.specs.declared.world.Looked.TheVariants as looked;
ghost use Rattle.hb_world.specs.declared.world.Read.TheVariants as reads;

use hb_world::{Finished, Looked, Read, Wrote};
use libc::net::{_SS_SIZE, connect};
use mio::event::Event;
use mio::net::TcpStream;
use std::io::{self, ErrorKind};
use std::net::Shutdown;
use std::os::fd::AsRawFd;

/// So often a call that a signal interrupted is made again.
pub(crate) const TRIES: u32 = 16;

/// A connection, whose read and write never wait.
#[derive(Drop)]
pub(crate) struct Socket {
    pub stream: TcpStream,
    /// Its bytes are a tunnel's own, without frames of HTTP/2.
    pub is_raw: bool,
    /// Something changed since the last finish.
    pub changed: bool,
    /// The last event said that the peer sends no more, or that the connection failed.
    pub ending: bool,
    /// An event said that the connection failed, and no look told so.
    pub broken: bool,
    /// Nothing is there to be read until the next event.
    pub dry: bool,
    pub shut: bool,
    /// How often a finish, read or write failed.
    pub faults: u64,
    // No event tells an end a second time, so behind one that did the system is always asked.
    ghost asks_for_the_end: { ending ≡ true → dry ≡ false },
}

/// Reads some bytes to the buffer's front.
fn read_from(stream: &mut TcpStream, into: &mut [u8]) -> Read
    requires { 0 < length into.old }
    ensures { ReadsWithin into.new result }
{
    for _ in 0..TRIES {
        match io::Read::read(stream, into) {
            Ok(0) => return Read::End,
            Ok(n) => return Read::Got(n),
            Err(e) if e.kind() == ErrorKind::WouldBlock => return Read::Balked,
            Err(e) if e.kind() == ErrorKind::Interrupted => {}
            Err(_) => return Read::Failed,
        }
    }
    Read::Failed
}

/// Writes some bytes from the buffer's front.
fn write_to(stream: &mut TcpStream, from: &[u8]) -> Wrote
    requires { 0 < length from.now }
    ensures { WritesWithin from.now result }
{
    for _ in 0..TRIES {
        match io::Write::write(stream, from) {
            Ok(0) => return Wrote::Failed,
            Ok(n) => return Wrote::Took(n),
            Err(e) if e.kind() == ErrorKind::WouldBlock => return Wrote::Balked,
            Err(e) if e.kind() == ErrorKind::Interrupted => {}
            Err(_) => return Wrote::Failed,
        }
    }
    Wrote::Failed
}

/// Whether a connection that was begun is there.
fn finish_of(stream: &TcpStream) -> Finished {
    match stream.take_error() {
        Ok(None) => {}
        _ => return Finished::Failed,
    }
    match stream.peer_addr() {
        Ok(_) => Finished::Opened,
        Err(e) if e.kind() == ErrorKind::NotConnected => Finished::Balked,
        Err(_) => Finished::Failed,
    }
}

impl Socket {
    /// A connection of which nothing else is known.
    pub fn new(stream: TcpStream, is_raw: bool) -> Socket
        ensures { result.faults ≡ 0 }
    {
        Socket {
            stream,
            is_raw,
            changed: false,
            ending: false,
            broken: false,
            dry: false,
            shut: false,
            faults: 0,
        }
    }

    /// Takes note of an event.
    pub fn wake(&mut self, ends: bool, breaks: bool)
        ensures faults { self.new.faults ≡ self.old.faults }
        ensures changed { self.new.changed ≡ true }
        ensures asks { self.new.dry ≡ false }
        ensures ends { self.new.ending ≡ self.old.ending || ends }
        ensures breaks { self.new.broken ≡ self.old.broken || breaks }
    {
        self.dry = false;
        self.changed = true;
        self.ending = self.ending || ends;
        self.broken = self.broken || breaks;
    }

    /// Whether the connection is there. The system is asked behind an event alone.
    pub fn finish(&mut self) -> Finished
        ensures counts { CountsUp self.old.faults self.new.faults (finish_failed result) }
        ensures unasked { self.old.changed ≡ false → result ≡ finished.Balked }
    {
        if !self.changed {
            return Finished::Balked;
        }
        self.changed = false;
        let finished = finish_of(&self.stream);
        if matches!(finished, Finished::Failed) {
            self.faults = self.faults.saturating_add(1);
        }
        finished
    }

    /// Reads some bytes to the buffer's front. Behind a read that didn't fill its buffer the system isn't asked, until an event
    /// comes, or where the last one told an end. The end of a connection of which an event said that it failed is a failure: Linux tells
    /// a RST behind a FIN by the event alone.
    pub fn read(&mut self, into: &mut [u8]) -> Read
        requires { 0 < length into.old }
        ensures within { ReadsWithin into.new result }
        ensures counts { CountsUp self.old.faults self.new.faults (read_failed result) }
        ensures unasked { self.old.dry ≡ true → result ≡ reads.Balked }
        ensures whole { self.old.broken ≡ true → ¬ (result ≡ reads.End) }
    {
        if self.dry {
            return Read::Balked;
        }
        let read = match read_from(&mut self.stream, into) {
            Read::End if self.broken => Read::Failed,
            other => other,
        };
        match read {
            Read::Got(n) => self.dry = n < into.len() && !self.ending,
            Read::Failed => self.faults = self.faults.saturating_add(1),
            _ => {}
        }
        read
    }

    /// Writes some bytes from the buffer's front.
    pub fn write(&mut self, from: &[u8]) -> Wrote
        requires { 0 < length from.now }
        ensures within { WritesWithin from.now result }
        ensures counts { CountsUp self.old.faults self.new.faults (write_failed result) }
    {
        let wrote = write_to(&mut self.stream, from);
        if matches!(wrote, Wrote::Failed) {
            self.faults = self.faults.saturating_add(1);
        }
        wrote
    }

    /// Whether an event said that the connection failed. It is told once, and the system isn't asked.
    pub fn look(&mut self) -> Looked
        ensures told { result ≡ (if self.old.broken then looked.Failed else looked.Fine) }
        ensures once { self.new.broken ≡ false }
        ensures counts { CountsUp self.old.faults self.new.faults (look_failed result) }
    {
        if !self.broken {
            return Looked::Fine;
        }
        self.broken = false;
        self.faults = self.faults.saturating_add(1);
        Looked::Failed
    }

    /// Writes no more, once.
    pub fn shut(&mut self)
        ensures { self.new.faults ≡ self.old.faults }
    {
        if !self.shut {
            self.shut = true;
            let _ = self.stream.shutdown(Shutdown::Write);
        }
    }
}

/// Ends a connection by a RST, so that its peer doesn't take what came for the whole (RFC 9113 section 8.5); what waits to be sent is
/// dropped. Linux does so where a socket is connected to an address of no family, AF_UNSPEC, whose number is 0.
pub(crate) fn reset(stream: &TcpStream) {
    let nowhere = [0; _SS_SIZE];
    let _ = unsafe { connect(stream.as_raw_fd(), &nowhere, 16) };
}

/// Whether an event tells that the peer sends no more, or that the connection failed.
pub(crate) fn tells_end(event: &Event) -> bool {
    event.is_read_closed() || event.is_error()
}
