//! A connection of who asks for the state of a run.

use crate::desk::Desk;
use http_server::{Config, Connection};
use http1::Limits;
use mio::net::TcpStream;
use std::alloc::Global;
use std::hash::RandomState;
use std::io::{self, ErrorKind};
use std::time::Instant;

/// The most bytes of a request's head, and of its body.
const LONGEST: usize = 4096;

/// So often one is read from, or written to, at a time.
const TRIES: usize = 16;

const CONFIG: Config = Config {
    limits: Limits {
        max_head_len: LONGEST,
        max_extensions_len: LONGEST,
        max_trailers_len: LONGEST,
    },
    max_body_len: LONGEST,
    max_pending: LONGEST,
    read_size: LONGEST,
};

/// Who asks.
#[derive(Drop)]
pub(crate) struct Guest {
    stream: TcpStream,
    connection: Connection,
    /// When it came.
    pub since: Instant,
}

/// What a call of the system gave, `None` where it would wait.
fn unless_waiting(given: io::Result<usize>) -> io::Result<Option<usize>> {
    match given {
        Ok(count) => Ok(Some(count)),
        Err(error) if error.kind() == ErrorKind::WouldBlock => Ok(None),
        Err(error) => Err(error),
    }
}

impl Guest {
    /// One that came at this time, whose headers are kept in maps of these keys.
    pub fn new(alloc: Global, keys: RandomState, stream: TcpStream, since: Instant) -> Guest {
        Guest {
            stream,
            connection: Connection::new(alloc, keys, CONFIG),
            since,
        }
    }

    /// Takes what came.
    fn read(&mut self, desk: &mut Desk) -> io::Result<()> {
        for _ in 0..TRIES {
            if !self.connection.wants_read() {
                break;
            }
            if unless_waiting(self.connection.read_from(&mut self.stream))?.is_none() {
                break;
            }
            self.connection.advance(desk);
        }
        Ok(())
    }

    /// Writes what is answered, as far as it is taken.
    fn write(&mut self, desk: &mut Desk) -> io::Result<()> {
        for _ in 0..TRIES {
            if !self.connection.wants_write() {
                break;
            }
            if unless_waiting(self.connection.write_to(&mut self.stream))?.is_none() {
                break;
            }
            self.connection.advance(desk);
        }
        Ok(())
    }

    /// Reads and writes as far as that goes at once. Tells whether there is more to come.
    ///
    /// Errors: what the system tells.
    pub fn step(&mut self, desk: &mut Desk) -> io::Result<bool> {
        self.read(desk)?;
        self.write(desk)?;
        Ok(!self.connection.is_done())
    }
}
