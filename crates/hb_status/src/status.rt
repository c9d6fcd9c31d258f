//! The thread that tells the state of a run over HTTP.

use crate::counts::Counts;
use crate::desk::{Desk, Handed};
use crate::guest::Guest;
use crate::watch::Watch;
use hb_base::{NoMemory, Or, Target};
use hb_mio::address_of;
use mio::net::{TcpListener, TcpStream};
use mio::{Events, Interest, Poll, Token, Waker};
use std::alloc::Global;
use std::hash::RandomState;
use std::io;
use std::sync::Arc;
use std::thread::{self, JoinHandle, Threads};
use std::time::{Duration, Instant};

/// So many connections are served at a time; others wait for their turn.
const MOST: usize = 16;

/// So many seconds a connection may last.
const LONGEST: u64 = 5;

/// So many events are told at once.
const EVENTS: usize = 32;

/// The tokens of events. Each one only ends a wait.
const LISTENER: Token = Token(0);

const WAKER: Token = Token(1);

const GUEST: Token = Token(2);

/// When the loop of a run was last seen to look up.
#[derive(Clone, Copy)]
struct Seen {
    looks: u64,
    at: Instant,
}

/// What the thread has.
#[derive(Drop)]
pub struct Lobby {
    rt: HostRuntime,
    alloc: Global,
    keys: RandomState,
    poll: Poll,
    events: Events,
    listener: TcpListener,
    guests: Vec<Guest>,
    desk: Desk,
    seen: Seen,
    /// When the state was handed over last.
    handed: Instant,
}

/// The thread of a run that tells its state, until it is ended.
pub struct Status {
    counts: Arc<Counts, Global>,
    waker: Waker,
    thread: JoinHandle<()>,
}

/// How many whole seconds passed between two times.
fn seconds(from: Instant, to: Instant) -> u64 {
    to.saturating_duration_since(from).as_secs()
}

impl Lobby {
    /// Begins to listen.
    ///
    /// Errors: what the system tells, or `NoMemory`.
    pub fn open(rt: HostRuntime, at: Target) -> Result<Lobby, Or<io::Error>> {
        let alloc = rt.alloc();
        let counts = Arc::new(alloc, Counts::new(alloc)?)?;
        let events = Events::with_capacity(alloc, EVENTS)?;
        let poll = Poll::new(&rt).map_err(Or::Fault)?;
        let mut listener = TcpListener::bind(&rt, address_of(at)).map_err(Or::Fault)?;
        poll.registry()
            .register(&mut listener, LISTENER, Interest::READABLE)
            .map_err(Or::Fault)?;
        let keys = RandomState::new(&rt).map_err(Or::Fault)?;
        let begun = Instant::now(&rt).map_err(Or::Fault)?;
        Ok(Lobby {
            rt,
            alloc,
            keys,
            poll,
            events,
            listener,
            guests: Vec::new(alloc),
            desk: Desk {
                alloc,
                counts,
                quiet: 0,
                handed: None,
            },
            seen: Seen {
                looks: 0,
                at: begun,
            },
            handed: begun,
        })
    }

    /// Lets a connection in.
    fn admit(&mut self, mut stream: TcpStream, now: Instant) -> io::Result<()> {
        let both = Interest::READABLE | Interest::WRITABLE;
        self.poll.registry().register(&mut stream, GUEST, both)?;
        let guest = Guest::new(self.alloc, self.keys, stream, now);
        Ok(self.guests.push(guest)?)
    }

    /// Lets those in that wait, as far as there is place.
    fn welcome(&mut self, now: Instant) {
        for _ in 0..MOST {
            if self.guests.len() >= MOST {
                return;
            }
            let Ok((stream, _)) = self.listener.accept() else {
                return;
            };
            let _ = self.admit(stream, now);
        }
    }

    /// Serves each connection as far as that goes at once, and closes those that are done, broke, or last too long.
    fn serve(&mut self, now: Instant) {
        let desk = &mut self.desk;
        self.guests.retain_mut(|guest| {
            let goes_on = guest.step(desk).unwrap_or(false);
            goes_on && seconds(guest.since, now) < LONGEST
        });
    }

    /// Takes note of whether the loop looked up since the last time.
    fn see(&mut self, now: Instant) {
        let looks = self.desk.counts.looks();
        if looks != self.seen.looks {
            self.seen = Seen { looks, at: now };
        }
        self.desk.quiet = seconds(self.seen.at, now);
    }

    /// Takes the state that was handed over, where it was.
    fn take_state(&mut self, now: Instant) {
        if let Some(text) = self.desk.counts.take_state() {
            self.handed = now;
            self.desk.handed = Some(Handed { text, age: 0 });
        }
        let age = seconds(self.handed, now);
        if let Some(handed) = &mut self.desk.handed {
            handed.age = age;
        }
    }

    /// Waits for a second at most, and does what there is to do.
    ///
    /// Errors: what the system tells of the wait or the clock.
    fn turn(&mut self) -> io::Result<()> {
        self.poll
            .poll(&mut self.events, Some(Duration::from_secs(1)))?;
        let now = Instant::now(&self.rt)?;
        self.see(now);
        self.take_state(now);
        self.serve(now);
        self.welcome(now);
        self.serve(now);
        Ok(())
    }

    /// Tells the state until the run ended, or a wait fails.
    fn run(mut self) {
        for _ in 0..u64::MAX {
            if self.desk.counts.is_over() || self.turn().is_err() {
                return;
            }
        }
    }
}

impl Status {
    /// Begins to tell the state of a run, in a thread of its own.
    ///
    /// Errors: what the system tells, or `NoMemory`, also where there is no thread.
    pub fn begin<R: Threads>(rt: &R, lobby: Lobby) -> Result<Status, Or<io::Error>> {
        let counts = Arc::try_clone(&lobby.desk.counts)?;
        let waker = Waker::new(lobby.poll.registry(), WAKER).map_err(Or::Fault)?;
        let Ok(thread) = thread::spawn(rt, move || lobby.run()) else {
            return Err(Or::NoMemory);
        };
        Ok(Status {
            counts,
            waker,
            thread,
        })
    }

    /// What the run counts.
    ///
    /// Errors: `NoMemory`.
    pub fn counts(&self) -> Result<Arc<Counts, Global>, NoMemory> {
        Arc::try_clone(&self.counts)
    }

    /// What the run counts, and what is seen of it, of which nothing was yet.
    ///
    /// Errors: `NoMemory`.
    pub fn watch(&self, alloc: Global) -> Result<Watch, NoMemory> {
        Watch::new(alloc, &self.counts)
    }

    /// Ends the thread.
    pub fn end<R: Threads>(self, rt: &R) {
        let Status {
            counts,
            waker,
            thread,
        } = self;
        counts.end();
        let _ = waker.wake();
        thread.join(rt);
    }
}
