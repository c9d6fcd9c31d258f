//! PING (RFC 9113 section 6.7).

ghost use Rattle.std.specs.Prelude.{◌≡◌, ◌+◌, ◌≤◌, length};
ghost use Rattle.hb_outgoing.specs.Waiting.{octets_of, size};
ghost use Rattle.hb_conn.specs.Ping.{on_ping};
ghost use Rattle.hb_conn.specs.Outcome.{Gives};

use crate::found::Found;
use crate::machine::Core;

impl Core {
    pub(crate) fn on_ping(&mut self, ack: bool, value: u64) -> Found
        requires room { length (octets_of self.old.out) + 17 ≤ size }
        ensures { Gives (on_ping self.old ack value) self.new result }
    {
        if !ack {
            self.put_ping_ack(value);
        }
        Found::Silent
    }
}
