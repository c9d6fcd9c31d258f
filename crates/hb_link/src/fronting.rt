//! The front header.

ghost use Rattle.std.specs.Prelude.{◌-◌, ◌≤◌, ◌++◌, length, IfOk};
ghost use Rattle.hb_front.specs.Reading.{text_of};
ghost use Rattle.hb_front.specs.Room.{longest_front};
ghost use Rattle.hb_inbound.specs.Runs.{Identifies};
ghost use Rattle.hb_link.specs.Fronting.{TakesFront};

use crate::link::Link;
use crate::phase::Phase;
use hb_base::{Cause, Identity, NoMemory, Peer, read_identity};
use hb_front::{FrontRead, read_front};
use std::alloc::Global;

/// The identity that a header tells, where it tells one.
fn identity_told(alloc: Global, text: Option<&[u8]>) -> Result<Option<Identity>, NoMemory>
    ensures { IfOk result (λ identity. Identifies (text_of text.entry) identity) }
{
    match text {
        Some(text) => read_identity(alloc, text),
        None => Ok(None),
    }
}

impl Link {
    /// Reads the front header, as far as it is there. A fault closes the link, and want of memory for the identity; what stands behind a
    /// whole header is the connection's.
    fn read_front(&mut self)
        ensures { TakesFront self.old self.new }
    {
        match read_front(self.front.bytes()) {
            FrontRead::More => {}
            FrontRead::Fault(fault) => {
                self.phase = Phase::Closing(Cause::FrontFault(fault.number()));
            }
            FrontRead::Whole(front) => match identity_told(self.alloc, front.identity) {
                Ok(identity) => {
                    self.peer = Peer {
                        ip: front.source.ip,
                        identity,
                    };
                    self.destination = front.destination.ip;
                    self.conn.take(&self.front.bytes()[front.length..]);
                    self.phase = Phase::Serving;
                }
                Err(_) => self.phase = Phase::Closing(Cause::NoMemory),
            },
        }
    }

    /// These bytes came of the front header, or behind it.
    pub(crate) fn take_front(&mut self, b: &[u8])
        requires { length b.now ≤ longest_front - length self.old.front }
        ensures { TakesFront (record self.old { front = self.old.front ++ b.now }) self.new }
    {
        self.front.push(b);
        self.read_front();
    }
}
