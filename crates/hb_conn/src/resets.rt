//! RST_STREAM (RFC 9113 section 6.4).

ghost use Rattle.std.specs.Prelude.{◌≡◌, ◌+◌, ◌≤◌, length};
ghost use Rattle.hb_outgoing.specs.Waiting.{octets_of, size};
ghost use Rattle.hb_conn.specs.Resets.{on_reset};
ghost use Rattle.hb_conn.specs.Outcome.{Gives};

use crate::found::Found;
use crate::machine::Core;
use hb_frames::numbers::RST_STREAM;
use hb_streams::Step;

impl Core {
    pub(crate) fn on_reset(&mut self, stream: u32, code: u32) -> Found
        requires room { length (octets_of self.old.out) + 17 ≤ size }
        ensures { Gives (on_reset self.old stream code) self.new result }
    {
        match self.streams.answer(RST_STREAM, stream) {
            Err(fault) => self.refuse(fault),
            Ok(Step::Goes) => {
                // Only a stream that begins wants memory.
                let _ = self.streams.on_frame(RST_STREAM, stream, false);
                self.give_up(stream);
                Found::Reset { stream, code }
            }
            Ok(_) => Found::Silent,
        }
    }
}
