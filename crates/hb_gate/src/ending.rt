//! Ends of tunnels, and what their captured links are still to be told of them.

ghost use Rattle.std.specs.Prelude.{◌≡◌, ◌+◌, ◌&&◌, IsSome, IfSome, IfNone};
ghost use Rattle.std.specs.Option.{option_map};
ghost use Rattle.std.specs.FinMap.{get};
ghost use Rattle.hb_gateway.specs.Gateway.{carries, is_active};
ghost use Rattle.hb_gate.specs.Calls.{Drops, IsTold, ResetsAll, TellsEnd, TellsNone};
ghost use Rattle.hb_gate.specs.Looking.{left_to_look};
ghost use Rattle.hb_gate.specs.Phases.{phase_of};
ghost use Rattle.hb_gate.specs.Resetting.{code_of, ResetsAt};
ghost use Rattle.hb_gate.specs.Streams.{is_left, kept, ended_here, EndsFrom, IsNext, ChangesAt, TakesMail};

use crate::gate::Gate;
use crate::looking::Mail;
use crate::stream::{Stage, Stream};
use hb_base::Cause;
use hb_conn::Conn;

/// The error code CANCEL (RFC 9113 section 7).
pub(crate) const CANCEL: u32 = 8;

impl Stage {
    /// With which code its stream is to be reset. `None` where it isn't.
    pub(crate) fn code(self) -> Option<u32>
        ensures { result ≡ code_of self }
    {
        match self {
            Stage::Failing(code) => Some(code),
            _ => None,
        }
    }
}

impl Stream {
    /// It ends for a cause, where it lives, and nothing more is heard of it.
    fn end_for(&mut self, cause: Cause)
        ensures { self.new ≡ ended_here cause self.old }
    {
        match self.stage {
            Stage::Asked | Stage::Carrying => {
                self.stage = Stage::Over;
                self.mail = Some(cause);
            }
            _ => {}
        }
    }

    /// Nothing is left of it.
    pub(crate) fn is_left(&self) -> bool
        ensures { result ≡ is_left self.now }
    {
        matches!(self.stage, Stage::Over) && self.mail.is_none()
    }
}

/// A side of the stream is open.
pub(crate) fn is_active(conn: &Conn, stream: u32) -> bool
    ensures { result ≡ is_active conn.now stream }
{
    let sides = conn.sides(stream);
    sides.own || sides.peer
}

impl Gate {
    /// The least stream from this one on on which a tunnel was asked for. `None` where there is none.
    fn first_from(&self, low: u32) -> Option<u32>
        ensures { IsNext self.now.streams low result }
    {
        self.streams.first_from(low)
    }

    /// The least stream behind this one on which a tunnel was asked for. `None` where there is none.
    pub fn first_behind(&self, stream: u32) -> Option<u32>
        ensures { IsNext self.now.streams (stream + 1) result }
    {
        match stream.checked_add(1) {
            Some(from) => self.first_from(from),
            None => None,
        }
    }

    /// The tunnel on a stream ends for a cause, where it lives.
    fn end_at(&mut self, number: u32, cause: Cause)
        ensures streams { ChangesAt number (option_map (ended_here cause) (get self.old.streams number)) self.old.streams
            self.new.streams }
        ensures rest { self.new ≡ record self.old { streams = self.new.streams } }
    {
        if let Some(stream) = self.streams.at(number) {
            stream.end_for(cause);
        }
    }

    /// Each tunnel that lives on a stream from this one on ends for a cause, which it is to be told. Nothing more is heard of its stream.
    fn end_from(&mut self, low: u32, cause: Cause)
        ensures streams { EndsFrom low cause self.old.streams self.new.streams }
        ensures rest { self.new ≡ record self.old { streams = self.new.streams } }
    {
        let mut from = self.first_from(low);
        while let Some(number) = from {
            self.end_at(number, cause);
            from = self.first_behind(number);
        }
    }

    /// So does each on a stream above this one.
    pub(crate) fn end_above(&mut self, last: u32, cause: Cause)
        ensures streams { EndsFrom (last + 1) cause self.old.streams self.new.streams }
        ensures rest { self.new ≡ record self.old { streams = self.new.streams } }
    {
        if let Some(low) = last.checked_add(1) {
            self.end_from(low, cause);
        }
    }

    /// All tunnels end for a cause.
    pub(crate) fn end_all(&mut self, cause: Cause)
        ensures streams { EndsFrom 0 cause self.old.streams self.new.streams }
        ensures rest { self.new ≡ record self.old { streams = self.new.streams } }
    {
        self.end_from(0, cause);
    }

    /// The next tunnel that is to be told its end. `None` where none is.
    pub fn next_mail(&mut self) -> Option<Mail>
        ensures tells { IfSome result (λ mail. TellsEnd mail.stream mail.cause mail.begun mail.link self.old self.new) }
        ensures none { IfNone result (TellsNone self.old self.new) }
    {
        let mut from = self.first_from(0);
        while let Some(number) = from {
            if let Some(mail) = self.take_mail(number) {
                return Some(mail);
            }
            from = self.first_behind(number);
        }
        None
    }

    /// A stream is this from now on; of one of which nothing is left no more is kept.
    fn replace(&mut self, number: u32, now: Stream)
        requires { IsSome (get self.old.streams number) }
        ensures streams { ChangesAt number (kept now) self.old.streams self.new.streams }
        ensures rest { self.new ≡ record self.old { streams = self.new.streams } }
    {
        if now.is_left() {
            self.streams.remove(number);
        } else if let Some(stream) = self.streams.at(number) {
            *stream = now;
        }
    }

    /// What the tunnel on a stream is to be told. `None` where that is nothing.
    pub fn take_mail(&mut self, number: u32) -> Option<Mail>
        ensures { TakesMail number self.old result self.new }
    {
        let mut stream = *self.streams.get(number)?;
        let cause = stream.mail?;
        stream.mail = None;
        self.replace(number, stream);
        Some(Mail {
            stream: number,
            link: stream.link,
            cause,
            begun: stream.begun,
        })
    }

    /// Whether no tunnel is left that is to be told its end, as the count of them says: no walk over the streams.
    pub fn is_told(&self) -> bool
        ensures { IsTold self.now result }
    {
        self.streams.counts().marked == 0
    }

    /// Each stream whose tunnel's end asks for that is reset. Where none is, that costs no walk over the streams.
    pub fn reset_ended(&mut self)
        ensures resets { ResetsAll self.old self.new }
        ensures left { left_to_look self.new ≡ left_to_look self.old }
    {
        if self.streams.counts().due == 0 {
            return;
        }
        let mut from = self.first_from(0);
        while let Some(number) = from {
            self.reset(number);
            from = self.first_behind(number);
        }
    }

    /// So is one stream, where its tunnel's end asks for it.
    fn reset(&mut self, number: u32)
        ensures { ResetsAt number self.old self.new }
    {
        let Some(stream) = self.streams.get(number) else {
            return;
        };
        let mut stream = *stream;
        let Some(code) = stream.stage.code() else {
            return;
        };
        stream.stage = Stage::Over;
        self.replace(number, stream);
        if is_active(&self.conn, number) {
            self.conn.put_reset(number, code);
        }
    }

    /// A stream may be reset: a side of it is open on a link that carries streams.
    fn can_reset(&self, number: u32) -> bool
        ensures { result ≡ (carries (phase_of self.now.phase) && is_active self.now.conn number) }
    {
        self.phase.carries() && is_active(&self.conn, number)
    }

    /// Its captured link ended the tunnel on a stream, which is to be reset while a side of it is open. How many of its bytes have begun to
    /// go.
    pub fn give_up(&mut self, number: u32) -> u64
        ensures { Drops number result self.old self.new }
    {
        let is_reset = self.can_reset(number);
        let Some(stream) = self.streams.at(number) else {
            return 0;
        };
        let begun = stream.begun;
        if is_reset {
            stream.stage = Stage::Failing(CANCEL);
        } else {
            self.streams.remove(number);
        }
        begun
    }
}
