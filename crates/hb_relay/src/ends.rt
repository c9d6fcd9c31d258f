//! How a link ends, and what is noted of it.

ghost use Rattle.std.specs.Prelude.{◌≡◌};
ghost use Rattle.hb_captured.specs.Captured.{unnamed};
ghost use Rattle.hb_captured.specs.Runs.{failure_status};
ghost use Rattle.hb_relay.specs.Shows.{captured_of, stage_of, Becomes};
ghost use Rattle.hb_relay.specs.Answering.{routing_of};
ghost use Rattle.hb_relay.specs.Reaches.{rerouted};
ghost use Rattle.hb_relay.specs.Ending.{ended_now, name_at, note_at, verdict_at, end_at, unstreamed, uncounted};

use crate::relay::Relay;
use crate::routes::Routes;
use crate::stage::Stage;
use hb_base::{Cause, Note, Peer};

/// The status of a tunnel that ended while it was pending, where its cause has one (RFC 9110 section 15).
fn failure_status(cause: Cause) -> Option<u16>
    ensures { result ≡ failure_status cause }
{
    match cause {
        Cause::Revoked => Some(401),
        Cause::UpFault | Cause::UpRefused(_) => Some(502),
        Cause::NoRoom => Some(503),
        _ => None,
    }
}

impl Relay {
    /// The note of its verdict, which takes along the identity that it tells.
    pub(crate) fn verdict_note(&mut self, status: u16) -> Note
        ensures note { result ≡ verdict_at self.old.number status (captured_of self.old) }
        ensures after { Becomes unnamed self.old self.new }
    {
        Note::Verdict {
            link: self.number,
            stream: 0,
            status,
            peer: Peer {
                ip: self.source,
                identity: self.identity.take(),
            },
            target: Some(self.target),
        }
    }

    /// The note of its end.
    pub(crate) fn end_note(&self, cause: Cause) -> Note
        ensures { result ≡ end_at self.now.number cause (captured_of self.now) }
    {
        Note::End {
            link: self.number,
            stream: 0,
            cause,
            up: self.went_up,
            down: self.went_down,
        }
    }

    /// What is noted where it ends now for a cause.
    fn note_for(&mut self, cause: Cause) -> Option<Note>
        ensures note { result ≡ note_at self.old.number cause (captured_of self.old) (stage_of self.old.stage) }
        ensures after { Becomes (name_at cause) self.old self.new }
        ensures stage { self.new.stage ≡ self.old.stage }
    {
        match self.stage {
            Stage::Due | Stage::Opening => match failure_status(cause) {
                Some(status) => Some(self.verdict_note(status)),
                None => {
                    self.identity = None;
                    None
                }
            },
            Stage::Live => Some(self.end_note(cause)),
            _ => None,
        }
    }

    /// It ends for a cause, where it hasn't ended, and that is noted.
    pub(crate) fn end_for(&mut self, cause: Cause) -> Option<Note>
        ensures note { result ≡ note_at self.old.number cause (captured_of self.old) (stage_of self.old.stage) }
        ensures after { Becomes (ended_now cause) self.old self.new }
    {
        let note = self.note_for(cause);
        self.stage = self.stage.ended(cause);
        note
    }

    /// It leaves its stream, where it has one, of whose bytes so many have begun to go there.
    pub(crate) fn leave_stream(&mut self, begun: u64)
        ensures { Becomes (unstreamed begun) self.old self.new }
    {
        if self.gate != 0 {
            self.gate = 0;
            self.gate_stream = 0;
            self.went_up = begun;
        }
    }

    /// The same, and it counts as a connection of its endpoint no longer.
    pub(crate) fn leave(&mut self, begun: u64, routes: &mut Routes)
        ensures after { Becomes (unstreamed begun) self.old self.new }
        ensures counts { routing_of routes.new ≡ uncounted (captured_of self.old) (routing_of routes.old) }
    {
        if self.stage.is_judged() {
            routes.uncount(&self.aim);
        }
        self.leave_stream(begun);
    }

    /// It leaves its stream, counts as a connection no longer, and ends for a cause, where it hasn't, which is noted.
    pub(crate) fn leave_for(
        &mut self,
        cause: Cause,
        begun: u64,
        routes: &mut Routes,
    ) -> Option<Note>
        ensures note { result ≡ note_at self.old.number cause (unstreamed begun (captured_of self.old)) (stage_of self.old.stage) }
        ensures after { Becomes (λ x. ended_now cause (unstreamed begun x)) self.old self.new }
        ensures counts { routing_of routes.new ≡ rerouted (captured_of self.old) (captured_of self.new) (routing_of routes.old) }
    {
        self.leave(begun, routes);
        self.end_for(cause)
    }
}
