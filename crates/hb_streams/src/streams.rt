//! All streams of one connection.

ghost use Rattle.std.specs.Prelude.{◌≡◌, IfOk, OnOk, OnErr, IsOk, IsTrue};
ghost use Rattle.std.specs.FinMap.{len};
ghost use Rattle.hb_base.specs.Outcome.{Answers};
ghost use Rattle.hb_streams.specs.Sides.{both_open, sides_of, IsActive};
ghost use Rattle.hb_streams.specs.States.{fresh, is_full, state_of, state_of_others, last_of_peer};
ghost use Rattle.hb_streams.specs.Answers.{answer_of, number_of};
ghost use Rattle.hb_streams.specs.Moves.{receives, begins, sends_end, sends_reset, after, begun, refused};
ghost use Rattle.hb_streams.specs.Moves.{with_sides, peer_ended, after_going};
ghost use Rattle.hb_streams.specs.Calls.{Makes};

use crate::answer::{on_control, on_data, on_headers};
use crate::fault::{OpenFault, StreamFault};
use crate::numbers::MOST_ACTIVE;
use crate::resets::Resets;
use crate::role::Role;
use crate::sides::Sides;
use crate::state::State;
use crate::step::Step;
use hb_base::{NoMemory, Or};
use hb_frames::numbers::{DATA, HEADERS, LARGEST, REFUSED_STREAM, RST_STREAM, WINDOW_UPDATE};
use hb_map::ById;
use std::alloc::Global;
use std::marker::Model;

/// The streams of a connection. A client begins them; a server's would be pushed, which this profile has not.
#[derive(Drop)]
pub struct Streams {
    role: Role,
    active: ById<u32, Sides>,
    highest: u32,
    resets: Resets,
}

impl Model for Streams {
    ghost use Rattle.hb_streams.specs.States.{States, states_code};
    ghost use Rattle.hb_streams.specs.contracts.role.Role.{the_row as role_row};
    ghost use Rattle.hb_streams.specs.contracts.sides.Sides.{the_row as sides_row};

    ghost Value = { States };

    ghost coded = { states_code role_row.coded sides_row.coded };

    ghost view = { λ s. record { role = s.role; active = s.active; highest = s.highest; resets = s.resets } };
}

impl Streams {
    /// A connection on which no stream was used yet.
    ///
    /// Errors: `NoMemory`.
    pub fn new(alloc: Global, role: Role) -> Result<Streams, NoMemory>
        ensures { IfOk result (λ streams. streams ≡ fresh role) }
    {
        let resets = Resets::new(alloc)?;
        Ok(Streams {
            role,
            active: ById::new(alloc),
            highest: 0,
            resets,
        })
    }

    /// A frame of type `kind` came on `stream`, with END_STREAM where `end`; HEADERS when their field block is whole
    /// (RFC 9113 section 5.1). A frame on stream 0 is the connection's, and isn't asked about here.
    ///
    /// Errors: PROTOCOL_ERROR where the number or the state of the stream doesn't allow the frame, STREAM_CLOSED
    /// where the stream is closed or the peer has ended it, REFUSED_STREAM where no further one may begin. A stream
    /// error leaves its stream as it was, and the caller resets it; only a new stream that is refused is reset by
    /// this call. `NoMemory` of a new stream alone, and then nothing happens.
    pub fn on_frame(&mut self, kind: u8, stream: u32, end: bool) -> Result<Step, Or<StreamFault>>
        ensures told { Answers result (answer_of self.old kind stream) }
        ensures memory { result ≡ Err Or.NoMemory → answer_of self.old kind stream ≡ Ok Step.New }
        ensures after { Makes self.old self.new (receives kind stream end) result }
        ensures role { self.new.role ≡ self.old.role }
    {
        match self.answer(kind, stream) {
            Ok(Step::New) => {
                self.begin(stream, !end)?;
                Ok(Step::New)
            }
            Ok(Step::Goes) => {
                self.go(kind, stream, end);
                Ok(Step::Goes)
            }
            Ok(Step::Ignored) => Ok(Step::Ignored),
            Err(fault) => {
                if fault.code == REFUSED_STREAM {
                    self.refuse(stream);
                }
                Err(Or::Fault(fault))
            }
        }
    }

    /// Begins the next stream of this client, for HEADERS that it is going to send, and gives its number (RFC 9113
    /// section 5.1.1). `limit` is the peer's on streams that are open or half-closed
    /// (SETTINGS_MAX_CONCURRENT_STREAMS).
    ///
    /// Errors: `Full` where as many are as `limit` says, or 100; `Spent` where no odd number up to 2,147,483,647 is
    /// left; and `NoMemory`. Nothing changes then.
    pub fn open(&mut self, limit: u32) -> Result<u32, Or<OpenFault>>
        requires { self.old.role ≡ Role.Client }
        ensures told { Answers result (number_of self.old limit) }
        ensures memory { result ≡ Err Or.NoMemory → IsOk (number_of self.old limit) }
        ensures after { Makes self.old self.new (begins limit) result }
        ensures err { OnErr result (self.new ≡ self.old) }
        ensures role { self.new.role ≡ self.old.role }
    {
        match self.next_number(limit) {
            Ok(stream) => {
                self.begin(stream, true)?;
                Ok(stream)
            }
            Err(fault) => Err(Or::Fault(fault)),
        }
    }

    /// This end sends END_STREAM on a stream whose side of its own is open.
    pub fn sent_end(&mut self, stream: u32)
        requires { IsTrue (sides_of (state_of self.old stream)).own }
        ensures after { self.new ≡ after self.old (sends_end stream) }
        ensures role { self.new.role ≡ self.old.role }
    {
        if let Some(sides) = self.active.get(stream).copied() {
            self.set_sides(stream, false, sides.peer);
        }
    }

    /// This end sends RST_STREAM on a stream that is open or half-closed.
    pub fn sent_reset(&mut self, stream: u32)
        requires { IsActive (state_of self.old stream) }
        ensures after { self.new ≡ after self.old (sends_reset stream) }
        ensures role { self.new.role ≡ self.old.role }
    {
        self.active.remove(stream);
        self.resets.add(stream);
    }

    /// Which sides of a stream are open: none of an idle or a closed one.
    pub fn sides(&self, stream: u32) -> Sides
        ensures { result ≡ sides_of (state_of self.now stream) }
    {
        self.state(stream).sides()
    }

    /// What this end of the connection is.
    pub fn role(&self) -> Role
        ensures { result ≡ self.now.role }
    {
        self.role
    }

    /// How many streams are open or half-closed.
    pub fn active(&self) -> usize
        ensures { result ≡ len self.now.active }
    {
        self.active.len()
    }

    /// The last stream that the peer opened, refused ones included, as GOAWAY names it (RFC 9113 section 6.8); 0
    /// where it opened none.
    pub fn last_of_peer(&self) -> u32
        ensures value { result ≡ last_of_peer self.now }
    {
        match self.role {
            Role::Server => self.highest,
            Role::Client => 0,
        }
    }

    fn state(&self, stream: u32) -> State
        ensures { result ≡ state_of self.now stream }
    {
        match self.active.get(stream) {
            Some(sides) => sides.state(),
            None => self.state_of_others(stream),
        }
    }

    /// The state of a stream that is neither open nor half-closed.
    fn state_of_others(&self, stream: u32) -> State
        ensures { result ≡ state_of_others self.now stream }
    {
        if stream % 2 == 0 || stream > self.highest {
            State::Idle
        } else if self.resets.contains(stream) {
            State::Reset
        } else {
            State::Closed
        }
    }

    fn is_full(&self) -> bool
        ensures { result ≡ is_full self.now }
    {
        self.active.len() >= MOST_ACTIVE
    }

    /// What a frame of type `kind` on `stream` is answered, as `on_frame` answers it; nothing happens by this call.
    ///
    /// Errors: the three codes of `on_frame`.
    pub fn answer(&self, kind: u8, stream: u32) -> Result<Step, StreamFault>
        ensures { result ≡ answer_of self.now kind stream }
    {
        match kind {
            DATA => on_data(stream, self.state(stream)),
            HEADERS => on_headers(self.role, self.is_full(), stream, self.state(stream)),
            RST_STREAM | WINDOW_UPDATE => on_control(self.state(stream)),
            _ => Ok(Step::Ignored),
        }
    }

    /// The number of the stream that a client opens next, where the peer lets so many be open.
    ///
    /// Errors: `Full` where as many are as `limit` says, or 100; `Spent` where no odd number up to 2,147,483,647 is left.
    pub fn next_number(&self, limit: u32) -> Result<u32, OpenFault>
        ensures { result ≡ number_of self.now limit }
    {
        if self.active.len() >= limit as usize || self.is_full() {
            return Err(OpenFault::Full);
        }
        if self.highest >= LARGEST {
            return Err(OpenFault::Spent);
        }
        Ok(self.highest + 1 + self.highest % 2)
    }

    /// Begins a stream whose peer's side is open or not.
    fn begin(&mut self, stream: u32, peer: bool) -> Result<(), NoMemory>
        ensures ok { OnOk result (self.new ≡ begun self.old stream (record both_open { peer = peer })) }
        ensures err { OnErr result (self.new ≡ self.old) }
    {
        self.active.put(stream, Sides { own: true, peer })?;
        self.highest = stream;
        Ok(())
    }

    /// A frame of an open or half-closed stream.
    fn go(&mut self, kind: u8, stream: u32, end: bool)
        ensures { self.new ≡ after_going self.old kind stream end }
    {
        match kind {
            RST_STREAM => {
                self.active.remove(stream);
            }
            DATA | HEADERS if end => self.peer_ended(stream),
            _ => {}
        }
    }

    fn refuse(&mut self, stream: u32)
        ensures { self.new ≡ refused self.old stream }
    {
        self.highest = stream;
        self.resets.add(stream);
    }

    fn peer_ended(&mut self, stream: u32)
        ensures { self.new ≡ peer_ended self.old stream }
    {
        if let Some(sides) = self.active.get(stream).copied() {
            self.set_sides(stream, sides.own, false);
        }
    }

    fn set_sides(&mut self, stream: u32, own: bool, peer: bool)
        ensures { self.new ≡ with_sides self.old stream (record { own = own; peer = peer }) }
    {
        if !own && !peer {
            self.active.remove(stream);
        } else if let Some(held) = self.active.at(stream) {
            *held = Sides { own, peer };
        }
    }
}
