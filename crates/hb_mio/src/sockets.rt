//! The links that live, by their numbers.

ghost use Rattle.std.specs.Prelude.{◌≡◌, ◌<◌, length, IfSome, OnOk, if◌then◌else◌};
ghost use Rattle.std.specs.HashMap.{spare};
ghost use Rattle.hb_mio.specs.Faults.{faults_at, broken_at, SameFaults, OthersSame};
ghost use Rattle.hb_world.specs.Answers.{finish_failed, read_failed, write_failed, look_failed, ReadsWithin, WritesWithin};
ghost use Rattle.hb_world.specs.Seen.{CountsUp};
ghost use Rattle.hb_world.specs.declared.world.Looked.TheVariants as looked;

use crate::socket::{Socket, reset};
use hb_base::NoMemory;
use hb_world::{Finished, Looked, Read, Wrote};
use mio::net::TcpStream;
use mio::{Interest, Registry, Token};
use std::alloc::Global;
use std::collections::HashMap;
use std::io::{self, ErrorKind};

/// Links are numbered up to here; the tokens beyond are those of the doors.
const LAST: u64 = 1 << 62;

/// The links that live.
#[derive(Drop)]
pub(crate) struct Sockets {
    pub by_number: HashMap<u64, Socket>,
    /// How many links were born.
    pub born: u64,
}

impl Sockets {
    /// No link was born.
    pub fn new(alloc: Global) -> Sockets {
        Sockets {
            by_number: HashMap::new(alloc),
            born: 0,
        }
    }

    /// Takes the room for one more link, so that none is lost once it is there.
    ///
    /// Errors: `NoMemory`, and then nothing changed.
    pub fn reserve(&mut self) -> Result<(), NoMemory>
        ensures same { SameFaults self.old.by_number self.new.by_number }
        ensures room { OnOk result (0 < spare self.new.by_number) }
    {
        self.by_number.reserve(1)
    }

    /// The number of the next link, if one is left.
    fn next_number(&self) -> Option<u64>
        ensures free { IfSome result (λ n. faults_at self.now.by_number n ≡ 0) }
    {
        let number = self.born.checked_add(1)?;
        if number > LAST || self.by_number.contains_key(&number) {
            return None;
        }
        Some(number)
    }

    /// Adds a connection, for which room was taken, as the next link. From now on each change of it is told, once.
    ///
    /// Errors: what the system tells, and then the connection is closed.
    pub fn bear(
        &mut self,
        registry: &Registry,
        mut stream: TcpStream,
        is_raw: bool,
    ) -> io::Result<u64>
        requires { 0 < spare self.old.by_number }
        ensures same { SameFaults self.old.by_number self.new.by_number }
    {
        let Some(number) = self.next_number() else {
            return Err(io::Error::from(ErrorKind::QuotaExceeded));
        };
        stream.set_nodelay(true)?;
        let both = Interest::READABLE | Interest::WRITABLE;
        registry.register(&mut stream, Token(number as usize), both)?;
        match self.by_number.insert(number, Socket::new(stream, is_raw)) {
            Ok(_) => {}
            Err(_) => unreachable!(),
        }
        self.born = number;
        Ok(number)
    }

    /// Takes note of an event of a link. Tells whether it lives.
    pub fn wake(&mut self, link: u64, ends: bool, breaks: bool) -> bool
        ensures same { SameFaults self.old.by_number self.new.by_number }
    {
        match self.by_number.get_mut(&link) {
            Some(socket) => {
                socket.wake(ends, breaks);
                true
            }
            None => false,
        }
    }

    /// Whether a link is open; one that doesn't live balks.
    pub fn finish(&mut self, link: u64) -> Finished
        ensures counts { CountsUp (faults_at self.old.by_number link) (faults_at self.new.by_number link) (finish_failed result) }
        ensures others { OthersSame link self.old.by_number self.new.by_number }
    {
        match self.by_number.get_mut(&link) {
            Some(socket) => socket.finish(),
            None => Finished::Balked,
        }
    }

    /// Reads some bytes to the buffer's front; a link that doesn't live balks.
    pub fn read(&mut self, link: u64, into: &mut [u8]) -> Read
        requires { 0 < length into.old }
        ensures within { ReadsWithin into.new result }
        ensures counts { CountsUp (faults_at self.old.by_number link) (faults_at self.new.by_number link) (read_failed result) }
        ensures others { OthersSame link self.old.by_number self.new.by_number }
    {
        match self.by_number.get_mut(&link) {
            Some(socket) => socket.read(into),
            None => Read::Balked,
        }
    }

    /// Writes some bytes from the buffer's front; a link that doesn't live balks.
    pub fn write(&mut self, link: u64, from: &[u8]) -> Wrote
        requires { 0 < length from.now }
        ensures within { WritesWithin from.now result }
        ensures counts { CountsUp (faults_at self.old.by_number link) (faults_at self.new.by_number link) (write_failed result) }
        ensures others { OthersSame link self.old.by_number self.new.by_number }
    {
        match self.by_number.get_mut(&link) {
            Some(socket) => socket.write(from),
            None => Wrote::Balked,
        }
    }

    /// Whether an event said that a link failed, and no look told so; one that doesn't live is fine.
    pub fn look(&mut self, link: u64) -> Looked
        ensures told { result ≡ (if broken_at self.old.by_number link then looked.Failed else looked.Fine) }
        ensures counts { CountsUp (faults_at self.old.by_number link) (faults_at self.new.by_number link) (look_failed result) }
        ensures others { OthersSame link self.old.by_number self.new.by_number }
    {
        match self.by_number.get_mut(&link) {
            Some(socket) => socket.look(),
            None => Looked::Fine,
        }
    }

    /// Writes no more to a link that lives.
    pub fn shut(&mut self, link: u64)
        ensures same { SameFaults self.old.by_number self.new.by_number }
    {
        if let Some(socket) = self.by_number.get_mut(&link) {
            socket.shut();
        }
    }

    /// Closes a link, and forgets its count. One of a tunnel's own bytes that isn't done is ended by a RST.
    pub fn close(&mut self, link: u64, is_done: bool)
        ensures others { OthersSame link self.old.by_number self.new.by_number }
    {
        if let Some(socket) = self.by_number.remove(&link)
            && socket.is_raw
            && !is_done
        {
            reset(&socket.stream);
        }
    }
}
