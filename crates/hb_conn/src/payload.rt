//! DATA with payload that this end puts (RFC 9113 sections 6.1 and 6.9).

ghost use Rattle.std.specs.Prelude.{◌≡◌, ◌≤◌, ◌<◌, length};
ghost use Rattle.hb_frames.specs.Numbers.{largest};
ghost use Rattle.hb_outgoing.specs.Waiting.{octets_of};
ghost use Rattle.hb_flow.specs.Flows.{sendable};
ghost use Rattle.hb_conn.specs.Payload.{most_payload, allowed, count_put, data_put};

use crate::machine::Core;
use hb_frames::numbers::{DATA, LARGEST};

/// The longest payload of DATA that is put, also where the peer takes longer ones.
const MOST_PAYLOAD: u32 = 16_384;

impl Core {
    /// How many octets one DATA frame may have.
    fn allowed(&self, stream: u32) -> u32
        ensures value { result ≡ allowed self.now stream }
        ensures windows { result ≤ sendable self.now.flow stream }
        ensures most { result ≤ most_payload }
    {
        let size = self.peer.frame_size.min(MOST_PAYLOAD);
        self.flow.sendable(stream).min(size)
    }

    fn count_put(&self, stream: u32, bytes: &[u8]) -> u32
        ensures value { result ≡ count_put self.now stream bytes.now }
        ensures within { result ≤ length bytes.now }
        ensures windows { result ≤ sendable self.now.flow stream }
        ensures most { result ≤ most_payload }
        ensures room { 0 < result → length (octets_of self.now.out) ≡ 0 }
        ensures in_range { 0 < result → stream ≤ largest }
    {
        if self.over || stream > LARGEST || !self.out.is_empty() {
            return 0;
        }
        let allowed = self.allowed(stream);
        bytes.len().min(allowed as usize) as u32
    }

    /// Puts as many of the octets as one DATA frame may have, and says how many.
    pub(crate) fn put_some(&mut self, stream: u32, bytes: &[u8]) -> usize
        ensures count { result ≡ count_put self.old stream bytes.now }
        ensures after { self.new ≡ data_put self.old stream bytes.now }
    {
        let n = self.count_put(stream, bytes);
        if n == 0 {
            return 0;
        }
        self.flow.spend(stream, n);
        self.out.put_frame(DATA, 0, stream, &bytes[..n as usize]);
        n as usize
    }
}
