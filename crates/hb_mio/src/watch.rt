//! What waits for events, and the clock that it ticks by.

ghost use Rattle.std.specs.Prelude.{◌≡◌, ◌<◌, ◌++◌, ◌∷◌, [], OnOk, IsSome, length, true, false};
ghost use Rattle.hb_mio.specs.Faults.{SameFaults};
ghost use Rattle.hb_mio.specs.Stop.{IgnoresInput};
ghost use Rattle.hb_mio.specs.Stuck.{stuck_at};
ghost use Rattle.hb_mio.specs.declared.stop.Input.TheVariants.{Ignored};
ghost use Rattle.hb_world.specs.declared.entry.ReadyItem.TheVariants.{Door as AtDoor};

use crate::doors::{Doors, door_of};
use crate::socket::tells_end;
use crate::sockets::Sockets;
use crate::stop::{Input, watch_input};
use hb_base::{Door, Or};
use hb_world::{Ready, ReadyItem};
use mio::event::Event;
use mio::{Events, Poll, Registry};
use std::alloc::Global;
use std::io;
use std::net::Net;
use std::os::fd::RawFd;
use std::time::{Clock, Duration, Instant};

/// So many events are told at once, which leaves place for the three doors among what is ready.
const EVENTS: usize = 1021;

/// The most that may be ready at once.
const MOST_READY: usize = 1024;

/// The time from a tick to the next, in seconds.
const TICK: u64 = 1;

/// The system's events, when the last tick was, and the input that ends the run.
#[derive(Drop)]
pub(crate) struct Watch {
    poll: Poll,
    events: Events,
    ticked: Instant,
    input: Input,
}

/// Begins to watch, where that isn't done.
///
/// Errors: what the system tells, or `NoMemory`, and then it isn't done.
pub(crate) fn begin<R: Net + Clock>(
    watch: &mut Option<Watch>,
    alloc: Global,
    net: &R,
) -> Result<(), Or<io::Error>>
    ensures begun { OnOk result (IsSome watch.new) }
    ensures ignores { IgnoresInput watch.old → IgnoresInput watch.new }
{
    if watch.is_none() {
        let events = Events::with_capacity(alloc, EVENTS)?;
        let poll = Poll::new(net).map_err(Or::Fault)?;
        let ticked = Instant::now(net).map_err(Or::Fault)?;
        *watch = Some(Watch {
            poll,
            events,
            ticked,
            input: Input::Ignored,
        });
    }
    Ok(())
}

impl Watch {
    /// Where connections and doors are registered.
    pub fn registry(&self) -> &Registry {
        self.poll.registry()
    }

    /// From now on the end of an input, or its first byte, ends the run.
    ///
    /// Errors: what the system tells, and then it doesn't.
    pub fn stop_on(&mut self, input: RawFd) -> io::Result<()> {
        watch_input(self.poll.registry(), input)?;
        self.input = Input::Watched;
        Ok(())
    }

    /// The input that ends the run.
    pub fn input(&self) -> Input
        ensures { result ≡ self.now.input }
    {
        self.input
    }

    /// How long it is until the next tick is due; no time once the run is to end.
    fn left(&self, clock: &impl Clock) -> io::Result<Duration> {
        if matches!(self.input, Input::Ended) {
            return Ok(Duration::from_secs(0));
        }
        Ok(Duration::from_secs(TICK).saturating_sub(self.ticked.elapsed(clock)?))
    }

    /// Whether a tick is due; then the next is due a second from now.
    fn tick(&mut self, clock: &impl Clock) -> io::Result<bool>
        ensures { self.new.input ≡ self.old.input }
    {
        let now = Instant::now(clock)?;
        let due = Duration::from_secs(TICK) <= now.saturating_duration_since(self.ticked);
        if due {
            self.ticked = now;
        }
        Ok(due)
    }

    /// Waits until something is ready, at most so long, and adds what is ready. Tells whether a tick is due. At a tick the doors
    /// are ready too at which connections may wait that no event tells.
    ///
    /// Errors: what the system tells.
    fn gather(
        &mut self,
        clock: &impl Clock,
        most: Duration,
        doors: &mut Doors,
        sockets: &mut Sockets,
        ready: &mut Ready,
    ) -> io::Result<bool>
        ensures same { SameFaults sockets.old.by_number sockets.new.by_number }
        ensures ignores { self.old.input ≡ Ignored → self.new.input ≡ Ignored }
    {
        self.poll.poll(&mut self.events, Some(most))?;
        tell_all(&self.events, doors, sockets, ready);
        self.input = self.input.behind(&self.events);
        let due = self.tick(clock)?;
        if due {
            knock(doors, Door::Inbound, ready);
            knock(doors, Door::Outbound, ready);
            knock(doors, Door::Plain, ready);
        }
        Ok(due)
    }

    /// Waits until something is ready or a tick is due, and adds what is ready. Tells whether a tick is due.
    ///
    /// Errors: what the system tells.
    pub fn wait(
        &mut self,
        clock: &impl Clock,
        doors: &mut Doors,
        sockets: &mut Sockets,
        ready: &mut Ready,
    ) -> io::Result<bool>
        ensures same { SameFaults sockets.old.by_number sockets.new.by_number }
        ensures ignores { self.old.input ≡ Ignored → self.new.input ≡ Ignored }
    {
        let left = self.left(clock)?;
        self.gather(clock, left, doors, sockets, ready)
    }

    /// Adds what is ready now, and doesn't wait. Tells whether a tick is due.
    ///
    /// Errors: what the system tells.
    pub fn glance(
        &mut self,
        clock: &impl Clock,
        doors: &mut Doors,
        sockets: &mut Sockets,
        ready: &mut Ready,
    ) -> io::Result<bool>
        ensures same { SameFaults sockets.old.by_number sockets.new.by_number }
        ensures ignores { self.old.input ≡ Ignored → self.new.input ≡ Ignored }
    {
        self.gather(clock, Duration::from_secs(0), doors, sockets, ready)
    }
}

/// Adds an item, where there is place.
fn name(ready: &mut Ready, item: ReadyItem) {
    if ready.items().len() < MOST_READY {
        ready.push(item);
    }
}

/// Takes note of an event, and names what it is of, if that is there.
fn tell(event: &Event, doors: &mut Doors, sockets: &mut Sockets, ready: &mut Ready)
    ensures { SameFaults sockets.old.by_number sockets.new.by_number }
{
    let token = event.token();
    match door_of(token) {
        Some(door) => {
            doors.set_stuck(door, false);
            name(ready, ReadyItem::Door(door));
        }
        None => {
            let link = token.0 as u64;
            if sockets.wake(link, tells_end(event), event.is_error()) {
                name(ready, ReadyItem::Link(link));
            }
        }
    }
}

/// Takes note of all events.
fn tell_all(events: &Events, doors: &mut Doors, sockets: &mut Sockets, ready: &mut Ready)
    ensures { SameFaults sockets.old.by_number sockets.new.by_number }
{
    for event in events {
        tell(event, doors, sockets, ready);
    }
}

/// Names a door at which connections may wait that no event tells.
fn knock(doors: &mut Doors, door: Door, ready: &mut Ready)
    ensures named { stuck_at door doors.old ≡ true → length ready.old < 1024 → ready.new ≡ ready.old ++ AtDoor door ∷ [] }
    ensures others { stuck_at door doors.old ≡ false → ready.new ≡ ready.old }
{
    if doors.is_stuck(door) && ready.items().len() < MOST_READY {
        doors.set_stuck(door, false);
        ready.push(ReadyItem::Door(door));
    }
}
