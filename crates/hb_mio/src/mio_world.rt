//! The world of real sockets.

ghost use Rattle.std.specs.Prelude.{◌≡◌, ◌<◌, OnErr, true, false};
ghost use Rattle.std.specs.HashMap.{spare};
ghost use Rattle.hb_mio.specs.Faults.{seen_of};
ghost use Rattle.hb_mio.specs.Stop.{IgnoresInput, waited_by};
ghost use Rattle.hb_mio.specs.Stuck.{stuck_at};
ghost use Rattle.hb_world.specs.Answers.{birth_failed, wait_failed};
ghost use Rattle.hb_world.specs.Seen.{Stays, CountsUp};

use crate::doors::{Doors, address_of};
use crate::log::Log;
use crate::reason::{tell_door, tell_wait};
use crate::sockets::Sockets;
use crate::stop::Input;
use crate::watch::{Watch, begin};
use hb_base::{Cause, Door, Or, Target, Why};
use hb_world::{Born, Finished, Glanced, Listened, Looked, Read, Ready, Waited, World, Wrote};
use mio::net::TcpStream;
use std::alloc::Global;
use std::io::{self, ErrorKind};
use std::net::Net;
use std::os::fd::RawFd;
use std::time::Clock;

/// The real sockets of TCP. It tells no trace.
///
/// Of the system's events it takes each once: a link is registered both ways at its birth, and never again. A read behind one that
/// didn't fill its buffer balks without a call of the system, until the next event, unless the last one told that the peer sends
/// no more; and so does a finish without an event. A look tells whether an event said that the connection failed, once for each, without
/// a call of the system. A wait or a glance answers Tick once a second has passed since the last one, with what is ready; a wait answers
/// Stop from the end or the first byte of the input of `stop_on` on, and never without one. A door whose accept failed is named at the
/// next tick, since no event tells again of what waits there.
/// A connection of a tunnel's own bytes that is closed for another cause than `Done` is ended by a RST, and each other one by a FIN.
/// A call that a signal interrupted is made again, up to 16 times. A listen, a wait or a glance that fails tells its log why, in a line:
/// `hbone: `, the door with its address, or `wait`, a colon and the system's reason. Each wait and each glance flushes the log first.
/// But for such a line no memory is taken after the first listen, dial or wait, but for the table of links, and for that before a
/// connection is accepted or begun.
#[derive(Drop)]
pub struct MioWorld<R: Net + Clock + Drop, L: Log + Drop> {
    alloc: Global,
    net: R,
    log: L,
    /// Made at the first listen, dial or wait.
    watch: Option<Watch>,
    doors: Doors,
    sockets: Sockets,
    birth_faults: u64,
    faults: u64,
}

impl<R: Net + Clock + Drop, L: Log + Drop> MioWorld<R, L> {
    /// The world as it stands before any call. It asks the system nothing.
    pub fn new(alloc: Global, net: R, log: L) -> MioWorld<R, L> {
        MioWorld {
            alloc,
            net,
            log,
            watch: None,
            doors: Doors::closed(),
            sockets: Sockets::new(alloc),
            birth_faults: 0,
            faults: 0,
        }
    }

    /// Where it tells why a call failed.
    pub fn log(&self) -> &L {
        &self.log
    }

    /// From now on waits answer Stop once an input ended or has a byte. It is meant for a pipe or a socket that stays open.
    ///
    /// Errors: what the system tells where that can't be watched, as of a file or of `/dev/null`, or `NoMemory`; and then they don't.
    pub fn stop_on(&mut self, input: RawFd) -> Result<(), Or<io::Error>>
        ensures stays { Stays (seen_of self.old) (seen_of self.new) }
    {
        begin(&mut self.watch, self.alloc, &self.net)?;
        let Some(watch) = &mut self.watch else {
            unreachable!()
        };
        watch.stop_on(input).map_err(Or::Fault)
    }

    /// What a wait answers that didn't fail.
    fn waited(&self, is_due: bool) -> Waited
        ensures told { result ≡ waited_by self.now.watch is_due }
        ensures well { wait_failed result ≡ false }
    {
        match &self.watch {
            Some(watch) => watch.input().waited(is_due),
            None => Input::Ignored.waited(is_due),
        }
    }

    /// Begins to listen.
    fn open(&mut self, at: Target, door: Door) -> Result<(), Or<io::Error>>
        ensures stays { Stays (seen_of self.old) (seen_of self.new) }
    {
        begin(&mut self.watch, self.alloc, &self.net)?;
        let Some(watch) = &self.watch else {
            unreachable!()
        };
        self.doors
            .open(&self.net, watch.registry(), at, door)
            .map_err(Or::Fault)
    }

    /// A connection for which room was taken, as a link.
    fn bear(&mut self, stream: TcpStream, is_raw: bool) -> io::Result<u64>
        requires { 0 < spare self.old.sockets.by_number }
        ensures stays { Stays (seen_of self.old) (seen_of self.new) }
    {
        match &self.watch {
            Some(watch) => self.sockets.bear(watch.registry(), stream, is_raw),
            None => Err(io::Error::from(ErrorKind::NotFound)),
        }
    }

    /// The next connection at a door, as a link.
    fn welcome(&mut self, door: Door) -> Result<Option<u64>, Or<io::Error>>
        ensures stays { Stays (seen_of self.old) (seen_of self.new) }
    {
        self.sockets.reserve()?;
        let Some(stream) = self.doors.accept(door).map_err(Or::Fault)? else {
            return Ok(None);
        };
        let is_raw = !matches!(door, Door::Inbound);
        let link = self.bear(stream, is_raw).map_err(Or::Fault)?;
        Ok(Some(link))
    }

    /// The next connection at a door, as a link. A door where that failed is named by the next tick.
    fn accept_at(&mut self, door: Door) -> Result<Option<u64>, Or<io::Error>>
        ensures stays { Stays (seen_of self.old) (seen_of self.new) }
        ensures stuck { OnErr result (stuck_at door self.new.doors ≡ true) }
    {
        let born = self.welcome(door);
        if born.is_err() {
            self.doors.set_stuck(door, true);
        }
        born
    }

    /// A connection that is begun, as a link.
    fn connect(&mut self, to: Target, why: Why) -> Result<u64, Or<io::Error>>
        ensures stays { Stays (seen_of self.old) (seen_of self.new) }
    {
        begin(&mut self.watch, self.alloc, &self.net)?;
        self.sockets.reserve()?;
        let stream = TcpStream::connect(&self.net, address_of(to)).map_err(Or::Fault)?;
        self.bear(stream, is_raw(why)).map_err(Or::Fault)
    }

    /// Flushes the log, waits, or doesn't, and adds what is ready. Tells whether a tick is due.
    fn gather(&mut self, ready: &mut Ready, waits: bool) -> Result<bool, Or<io::Error>>
        ensures stays { Stays (seen_of self.old) (seen_of self.new) }
        ensures ignores { IgnoresInput self.old.watch → IgnoresInput self.new.watch }
    {
        self.log.flush();
        begin(&mut self.watch, self.alloc, &self.net)?;
        let Some(watch) = &mut self.watch else {
            unreachable!()
        };
        let gathered = if waits {
            watch.wait(&self.net, &mut self.doors, &mut self.sockets, ready)
        } else {
            watch.glance(&self.net, &mut self.doors, &mut self.sockets, ready)
        };
        gathered.map_err(Or::Fault)
    }
}

/// Whether a link that is dialled so carries a tunnel's own bytes, without frames of HTTP/2.
fn is_raw(why: Why) -> bool {
    match why {
        Why::Discovery | Why::Gateway { .. } => false,
        Why::Upstream { .. } | Why::Plain { .. } | Why::Direct { .. } => true,
    }
}

/// What a birth answers; one that failed is counted.
fn birth(count: &mut u64, born: Result<Option<u64>, Or<io::Error>>) -> Born
    ensures { CountsUp count.old count.new (birth_failed result) }
{
    match born {
        Ok(Some(link)) => Born::New(link),
        Ok(None) => Born::Balked,
        Err(Or::NoMemory) => Born::NoMemory,
        Err(Or::Fault(_)) => {
            *count = count.saturating_add(1);
            Born::Failed
        }
    }
}

impl<R: Net + Clock + Drop, L: Log + Drop> World for MioWorld<R, L> {
    ghost use Rattle.std.specs.Prelude.{None};
    ghost use Rattle.hb_mio.specs.Faults.{seen_of};

    ghost trace = { λ w. None };

    ghost seen = { λ w. seen_of w };

    fn listen(&mut self, at: Target, door: Door) -> Listened {
        match self.open(at, door) {
            Ok(()) => Listened::Listening,
            Err(Or::NoMemory) => Listened::NoMemory,
            Err(Or::Fault(error)) => {
                tell_door(&mut self.log, self.alloc, at, door, &error);
                self.faults = self.faults.saturating_add(1);
                Listened::Failed
            }
        }
    }

    fn accept(&mut self, door: Door) -> Born {
        let born = self.accept_at(door);
        birth(&mut self.birth_faults, born)
    }

    fn dial(&mut self, to: Target, why: Why) -> Born {
        match self.connect(to, why) {
            Ok(link) => Born::New(link),
            Err(Or::NoMemory) => Born::NoMemory,
            Err(Or::Fault(_)) => {
                self.birth_faults = self.birth_faults.saturating_add(1);
                Born::Failed
            }
        }
    }

    fn finish(&mut self, link: u64) -> Finished {
        self.sockets.finish(link)
    }

    fn read(&mut self, link: u64, into: &mut [u8]) -> Read {
        self.sockets.read(link, into)
    }

    fn write(&mut self, link: u64, from: &[u8]) -> Wrote {
        self.sockets.write(link, from)
    }

    fn look(&mut self, link: u64) -> Looked {
        self.sockets.look(link)
    }

    fn shut(&mut self, link: u64) {
        self.sockets.shut(link);
    }

    fn close(&mut self, link: u64, cause: Cause) {
        self.sockets.close(link, matches!(cause, Cause::Done));
    }

    fn wait(&mut self, ready: &mut Ready) -> Waited {
        ready.clear();
        match self.gather(ready, true) {
            Ok(is_due) => self.waited(is_due),
            Err(why) => {
                ready.clear();
                tell_wait(&mut self.log, self.alloc, &why);
                self.faults = self.faults.saturating_add(1);
                Waited::Failed
            }
        }
    }

    fn glance(&mut self, ready: &mut Ready) -> Glanced {
        ready.clear();
        match self.gather(ready, false) {
            Ok(true) => Glanced::Tick,
            Ok(false) => Glanced::Woke,
            Err(why) => {
                ready.clear();
                tell_wait(&mut self.log, self.alloc, &why);
                self.faults = self.faults.saturating_add(1);
                Glanced::Failed
            }
        }
    }
}
