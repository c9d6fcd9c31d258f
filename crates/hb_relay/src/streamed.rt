//! The stream of a link to a gateway that carries the tunnel of a link.

ghost use Rattle.std.specs.Prelude.{◌≡◌, ◌≤◌, length};
ghost use Rattle.std.specs.Option.{option_map};
ghost use Rattle.hb_captured.specs.Captured.{at_stage, live, told_by};
ghost use Rattle.hb_gateway.specs.Response.{opens};
ghost use Rattle.hb_relay.specs.Answering.{routing_of, wanted_as};
ghost use Rattle.hb_relay.specs.Moving.{on_stream};
ghost use Rattle.hb_relay.specs.Shows.{captured_of, Becomes};
ghost use Rattle.hb_relay.specs.Streamed.{Asks, LacksRoom, HearsOpen, HearsBytes, HearsEnd, HearsFailure};
ghost use Rattle.hb_relay.specs.Streamed.{Puts, Finishes, Credits, Completes};
ghost use Rattle.hb_relay.specs.Streamed.{WantsStream, HasStream, LivesOn, Waits, HasWaiting, MayFinish, MayComplete, Owes};

use crate::relay::Relay;
use crate::routes::Routes;
use crate::stage::Stage;
use hb_base::{Cause, Note, Target};
use hb_gateway::Key;

impl Relay {
    /// Its stream, and the link to a gateway that this is of. `None` where it has none.
    pub fn stream(&self) -> Option<(u64, u32)>
        ensures { HasStream self.now result }
    {
        if self.gate == 0 {
            None
        } else {
            Some((self.gate, self.gate_stream))
        }
    }

    /// For whom a stream is to be asked for, and for which authority. `None` where none is.
    pub fn wanted(&self) -> Option<(&Key, Target)>
        ensures { WantsStream self.now (wanted_as (option_map (λ at. (at.0.now, at.1)) result)) }
    {
        match self.stage {
            Stage::Due => self.aim.through(),
            _ => None,
        }
    }

    /// A stream of the link to a gateway of this number is asked for.
    pub fn asked(&mut self, gate: u64, stream: u32)
        ensures { Asks gate stream self.old self.new }
    {
        self.stage = Stage::Opening;
        self.gate = gate;
        self.gate_stream = stream;
    }

    /// No link to its gateway has room, and none may be dialled. The note of that, `None` where it has ended already.
    pub fn lacks_room(&mut self, routes: &mut Routes) -> Option<Note>
        ensures { LacksRoom self.old (routing_of routes.old) self.new (routing_of routes.new) result }
    {
        self.leave_for(Cause::NoRoom, 0, routes)
    }

    /// Its stream is open; `end`: and the gateway ended its side.
    fn open_stream(&mut self, end: bool)
        ensures { Becomes (λ x. at_stage live (told_by (opens end) 0 x)) self.old self.new }
    {
        self.stage = Stage::Live;
        self.ways.open();
        if end {
            self.ways.end_down();
        }
    }

    /// The gateway opened its stream; `end`: and ended its side. The note of that.
    pub fn stream_opened(&mut self, end: bool) -> Note
        ensures { HearsOpen end self.old self.new result }
    {
        self.open_stream(end);
        self.verdict_note(200)
    }

    /// These bytes came on its stream.
    pub fn stream_bytes(&mut self, b: &[u8])
        ensures { HearsBytes b.now self.old self.new }
    {
        self.ways.push_down(b);
    }

    /// The gateway ended its side.
    pub fn stream_ended(&mut self)
        ensures { HearsEnd self.old self.new }
    {
        self.ways.end_down();
    }

    /// Its stream failed for this cause, on which so many bytes have begun to go. The note of its end, `None` where none is made.
    pub fn stream_failed(&mut self, cause: Cause, begun: u64, routes: &mut Routes) -> Option<Note>
        ensures { HearsFailure cause begun self.old (routing_of routes.old) self.new (routing_of routes.new) result }
    {
        self.leave_for(cause, begun, routes)
    }

    /// It lives, on a stream.
    fn on_stream(&self) -> bool
        ensures { result ≡ on_stream (captured_of self.now) }
    {
        match self.stage {
            Stage::Live => self.gate != 0,
            _ => false,
        }
    }

    /// Whether it lives, on a stream.
    pub fn lives_on_stream(&self) -> bool
        ensures { LivesOn self.now result }
    {
        self.on_stream()
    }

    /// The bytes that wait for its stream, in order.
    pub fn waiting(&self) -> &[u8]
        ensures value { result.now ≡ (captured_of self.now).ways.up.held }
        ensures machine { Waits self.now result.now }
    {
        self.ways.held_up()
    }

    /// Some bytes wait for its stream.
    pub fn has_waiting(&self) -> bool
        ensures { HasWaiting self.now result }
    {
        !self.ways.held_up().is_empty()
    }

    /// The first `n` of them were put.
    pub fn put(&mut self, n: usize)
        requires { n ≤ length (captured_of self.old).ways.up.held }
        ensures { Puts n self.old self.new }
    {
        self.ways.took_up(n);
    }

    /// Whether END_STREAM may be put: it has ended, and all that came of it is put.
    pub fn may_finish(&self) -> bool
        ensures { MayFinish self.now result }
    {
        self.on_stream() && self.ways.up_done() && !self.up_shut
    }

    /// END_STREAM is put.
    pub fn finished(&mut self)
        ensures { Finishes self.old self.new }
    {
        self.up_shut = true;
    }

    /// How many bytes are to be given back to its stream's window.
    pub fn owed(&self) -> u64
        ensures { Owes self.now result }
    {
        self.owed
    }

    /// They are.
    pub fn credited(&mut self)
        ensures { Credits self.old self.new }
    {
        self.owed = 0;
    }

    /// Whether both sides ended, all went through, and END_STREAM is put.
    pub fn may_complete(&self) -> bool
        ensures { MayComplete self.now result }
    {
        self.on_stream() && self.ways.up_done() && self.ways.down_done() && self.up_shut
    }

    /// It is done, and so many bytes went on its stream. The note of its end.
    pub fn complete(&mut self, begun: u64, routes: &mut Routes) -> Note
        ensures { Completes begun self.old (routing_of routes.old) self.new (routing_of routes.new) result }
    {
        self.leave(begun, routes);
        self.stage = Stage::Over(Cause::Done);
        self.end_note(Cause::Done)
    }
}
