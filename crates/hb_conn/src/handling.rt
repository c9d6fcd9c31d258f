//! What each frame makes of a connection.

ghost use Rattle.std.specs.Prelude.{◌≡◌, ◌+◌, ◌≤◌, length, false, IfOk, OnErr};
ghost use Rattle.hb_outgoing.specs.Waiting.{octets_of, size};
ghost use Rattle.hb_conn.specs.Glance.{IsInRange, IsOfBlock};
ghost use Rattle.hb_conn.specs.Places.{is_too_long, is_settings, goes_on, is_misplaced};
ghost use Rattle.hb_conn.specs.Handling.{Handles, Answers};

use crate::found::Found;
use crate::glance::Glance;
use crate::machine::Core;
use hb_base::NoMemory;
use hb_frames::numbers::{ACK_FLAG, PROTOCOL_ERROR, SETTINGS};

impl Glance {
    fn is_too_long(self) -> bool
        ensures { result ≡ is_too_long self }
    {
        match self {
            Glance::Refused { row, .. } => row == 2,
            _ => false,
        }
    }

    /// SETTINGS without ACK.
    fn is_settings(self) -> bool
        ensures { result ≡ is_settings self }
    {
        match self {
            Glance::Settings { ack } => !ack,
            Glance::Refused { kind, flags, .. } => kind == SETTINGS && flags & ACK_FLAG == 0,
            _ => false,
        }
    }
}

impl Core {
    /// Whether the frame may stand behind what came of header blocks (RFC 9113 section 6.10).
    fn goes_on(&self, glance: Glance) -> bool
        ensures { result ≡ goes_on self.now.blocks.opening glance }
    {
        match (self.blocks.open(), glance) {
            (Some(open), Glance::Continuation { stream, .. }) => stream == open,
            (Some(_), _) => false,
            (None, Glance::Continuation { .. }) => false,
            (None, _) => true,
        }
    }

    fn is_misplaced(&self, glance: Glance) -> bool
        ensures { result ≡ is_misplaced self.now glance }
    {
        !glance.is_too_long() && ((!self.settled && !glance.is_settings()) || !self.goes_on(glance))
    }

    /// A frame in its place, with its content.
    ///
    /// Errors: `NoMemory` of a header block alone.
    fn answer(&mut self, glance: Glance, bytes: &[u8]) -> Result<Found, NoMemory>
        requires room { length (octets_of self.old.out) + 30 ≤ size }
        requires in_range { IsInRange glance }
        requires placed { is_misplaced self.old glance ≡ false }
        ensures answers { IfOk result (Answers self.old glance bytes.now self.new) }
        ensures lacks { OnErr result (IsOfBlock glance) }
    {
        match glance {
            Glance::Data {
                stream,
                counted,
                end,
            } => Ok(self.on_data(stream, counted, bytes.len(), end)),
            Glance::Headers { stream, end, whole } => self.on_headers(stream, end, bytes, whole),
            Glance::Continuation { stream, whole } => self.on_continuation(stream, bytes, whole),
            Glance::Settings { ack } => Ok(self.on_settings(ack, bytes)),
            Glance::Reset { stream, code } => Ok(self.on_reset(stream, code)),
            Glance::Window { stream, increment } => Ok(self.on_window(stream, increment)),
            Glance::Ping { ack, value } => Ok(self.on_ping(ack, value)),
            Glance::GoAway { last } => Ok(Found::GoneAway { last }),
            Glance::Refused { code, .. } => Ok(self.fail(code)),
            Glance::Nothing | Glance::Other => Ok(Found::Silent),
        }
    }

    pub(crate) fn handle(&mut self, glance: Glance, bytes: &[u8]) -> Result<Found, NoMemory>
        requires room { length (octets_of self.old.out) + 30 ≤ size }
        requires in_range { IsInRange glance }
        ensures handles { IfOk result (Handles self.old glance bytes.now self.new) }
        ensures lacks { OnErr result (IsOfBlock glance) }
    {
        if self.is_misplaced(glance) {
            return Ok(self.fail(PROTOCOL_ERROR));
        }
        self.answer(glance, bytes)
    }
}
