//! The front header, and what it gets.

ghost use Rattle.std.specs.Prelude.{◌≡◌, ◌≤◌, ◌-◌, ◌++◌, length};
ghost use Rattle.hb_front.specs.Room.{longest_front};
ghost use Rattle.hb_relay.specs.Answering.{answer_as, routing_of};
ghost use Rattle.hb_relay.specs.Moving.{told_by, decided_by, decided_note, TakesFront};
ghost use Rattle.hb_relay.specs.Shows.{captured_of, Becomes};

use crate::aim::Aim;
use crate::answer::{Answer, answer_counted};
use crate::relay::Relay;
use crate::routes::Routes;
use crate::stage::Stage;
use hb_base::{Cause, Identity, Ip, Note, Target};
use hb_front::{FrontRead, read_front};
use hb_held::Held;

impl Relay {
    /// The header has so many bytes, and told this. What stands behind it goes up.
    fn take_header(&mut self, source: Ip, target: Target, identity: Option<Identity>, size: usize)
        requires { size ≤ length self.old.front }
        ensures { Becomes (told_by source target identity size) self.old self.new }
    {
        self.source = source;
        self.target = target;
        self.identity = identity;
        self.ways.push_up(&self.front.bytes()[size..]);
        self.front.clear();
    }

    /// It gets its answer: its bytes are to go somewhere, or it is refused, which is noted.
    fn decide(&mut self, answer: Answer) -> Option<Note>
        ensures note { result ≡ decided_note self.old.number (answer_as answer) (captured_of self.old) }
        ensures after { Becomes (decided_by (answer_as answer)) self.old self.new }
    {
        match answer {
            Answer::Aims(aim) => {
                self.stage = Stage::Due;
                self.aim = aim;
                None
            }
            Answer::Refuses(cause, status) => {
                self.stage = Stage::Over(cause);
                self.aim = Aim::Straight {
                    to: self.target,
                    endpoint: None,
                };
                Some(self.verdict_note(status))
            }
        }
    }

    /// Reads the front header, as far as it is there.
    fn read_front(&mut self, held: &Held, routes: &mut Routes) -> Option<Note>
        ensures { TakesFront held.now (routing_of routes.old) (routing_of routes.new) self.old self.new result }
    {
        match read_front(self.front.bytes()) {
            FrontRead::More => None,
            FrontRead::Fault(fault) => {
                self.stage = Stage::Over(Cause::FrontFault(fault.number()));
                None
            }
            FrontRead::Whole(front) => {
                let source = front.source.ip;
                let target = front.destination;
                let size = front.length;
                let door = self.ways.door();
                match answer_counted(self.alloc, door, held, routes, front) {
                    Ok((identity, answer)) => {
                        self.take_header(source, target, identity, size);
                        self.decide(answer)
                    }
                    Err(_) => {
                        self.stage = Stage::Over(Cause::NoMemory);
                        None
                    }
                }
            }
        }
    }

    /// These bytes came of the front header, or behind it.
    pub(crate) fn take_front(&mut self, held: &Held, routes: &mut Routes, b: &[u8]) -> Option<Note>
        requires { length b.now ≤ longest_front - length self.old.front }
        ensures { TakesFront held.now (routing_of routes.old) (routing_of routes.new)
            (record self.old { front = self.old.front ++ b.now }) self.new result }
    {
        self.front.push(b);
        self.read_front(held, routes)
    }
}
