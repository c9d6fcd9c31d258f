//! The frames that a connection answers with.

ghost use Rattle.std.specs.Prelude.{◌≡◌, ◌+◌, ◌≤◌, ◌++◌, length};
ghost use Rattle.hb_outgoing.specs.Waiting.{octets_of, size};
ghost use Rattle.hb_conn.specs.Frames.{word, sent, settings_ack, ping_ack, goaway};
ghost use Rattle.hb_conn.specs.Data.{updated};

use crate::machine::Core;
use hb_frames::numbers::{ACK_FLAG, GOAWAY, PING, SETTINGS, WINDOW_UPDATE};
use hb_frames::octets::word;

/// Two numbers, the first in front.
#[tactic(auto, unfolding(crate::specs::Frames::word))]
fn words(first: u32, second: u32) -> [u8; 8]
    ensures value { result ≡ word first ++ word second }
    ensures size { length (word first ++ word second) ≡ 8 }
{
    let [a, b, c, d] = word(first);
    let [e, f, g, h] = word(second);
    [a, b, c, d, e, f, g, h]
}

impl Core {
    /// Puts WINDOW_UPDATE of the connection, where there is an increment.
    #[tactic(auto, unfolding(crate::specs::Frames::word))]
    pub(crate) fn put_update(&mut self, increment: Option<u32>)
        requires room { length (octets_of self.old.out) + 13 ≤ size }
        ensures after { self.new ≡ updated self.old increment }
        ensures grows { length (octets_of self.new.out) ≤ length (octets_of self.old.out) + 13 }
    {
        if let Some(n) = increment {
            self.out.put_frame(WINDOW_UPDATE, 0, 0, &word(n));
        }
    }

    pub(crate) fn put_goaway(&mut self, last: u32, code: u32)
        requires room { length (octets_of self.old.out) + 17 ≤ size }
        ensures { self.new ≡ sent self.old (goaway last code) }
    {
        self.out.put_frame(GOAWAY, 0, 0, &words(last, code));
    }

    pub(crate) fn put_ping_ack(&mut self, value: u64)
        requires room { length (octets_of self.old.out) + 17 ≤ size }
        ensures { self.new ≡ sent self.old (ping_ack value) }
    {
        let payload = words(
            (value / 0x1_0000_0000) as u32,
            (value % 0x1_0000_0000) as u32,
        );
        self.out.put_frame(PING, ACK_FLAG, 0, &payload);
    }

    pub(crate) fn put_settings_ack(&mut self)
        requires room { length (octets_of self.old.out) + 9 ≤ size }
        ensures { self.new ≡ sent self.old settings_ack }
    {
        self.out.put_frame(SETTINGS, ACK_FLAG, 0, &[]);
    }
}
