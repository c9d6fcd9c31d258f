//! SETTINGS (RFC 9113 section 6.5).

ghost use Rattle.std.specs.Prelude.{◌≡◌, ◌+◌, ◌*◌, ◌≤◌, length, slice_index};
ghost use Rattle.std.specs.List.{list_any};
ghost use Rattle.hb_frames.specs.Octets.{four_at};
ghost use Rattle.hb_frames.specs.Refusals.{settings};
ghost use Rattle.hb_outgoing.specs.Waiting.{octets_of, size};
ghost use Rattle.hb_conn.specs.Settings.{is_push, allows_push, noted, Resized, AppliesAll, applied, DoesSettings};
ghost use Rattle.hb_conn.specs.Outcome.{Gives};

use crate::found::Found;
use crate::machine::Core;
use crate::sizes::NOTHING_KNOWN;
use hb_frames::numbers::{
    ENABLE_PUSH, FLOW_CONTROL_ERROR, LARGEST, MAX_CONCURRENT_STREAMS, MAX_FRAME_SIZE,
    PROTOCOL_ERROR,
};
use hb_frames::octets::word_at;
use hb_streams::Role;

/// The identifier and the value of the first setting.
fn first_setting(pairs: &[u8]) -> (u32, u32)
    requires { 6 ≤ length pairs.now }
    ensures { result
        ≡ (slice_index pairs.now 0 * 256 + slice_index pairs.now 1, four_at pairs.now 2) }
{
    let identifier = pairs[0] as u32 * 0x100 + pairs[1] as u32;
    (identifier, word_at(pairs, 2))
}

fn has_push(pairs: &[u8]) -> bool
    ensures { result ≡ list_any is_push (settings pairs.now) }
{
    let mut left = pairs;
    while left.len() >= 6 {
        let (identifier, value) = first_setting(left);
        if identifier == ENABLE_PUSH && value == 1 {
            return true;
        }
        left = left.split_at(6).1;
    }
    false
}

impl Core {
    fn allows_push(&self, pairs: &[u8]) -> bool
        ensures { result ≡ allows_push self.now.streams.role (settings pairs.now) }
    {
        match self.streams.role() {
            Role::Server => false,
            Role::Client => has_push(pairs),
        }
    }

    /// Whether the windows of streams may have this initial size.
    pub(crate) fn resize(&mut self, initial: u32) -> bool
        ensures after { Resized self.old initial self.new result }
        ensures out { self.new.out ≡ self.old.out }
    {
        if initial > LARGEST {
            return false;
        }
        let unbegun = self.unbegun();
        match self.flow.resize(initial, unbegun.stream, unbegun.size) {
            Ok(()) => true,
            Err(_) => false,
        }
    }

    pub(crate) fn note(&mut self, identifier: u32, value: u32)
        ensures after { self.new ≡ noted self.old (identifier, value) }
        ensures out { self.new.out ≡ self.old.out }
    {
        match identifier {
            MAX_CONCURRENT_STREAMS => self.peer.streams = value,
            MAX_FRAME_SIZE => self.peer.frame_size = value,
            _ => {}
        }
    }

    /// Applies the settings one by one, up to the first that doesn't fit.
    fn apply_all(&mut self, pairs: &[u8]) -> bool
        ensures after { AppliesAll self.old (settings pairs.now) self.new result }
        ensures out { self.new.out ≡ self.old.out }
    {
        let mut sizes = NOTHING_KNOWN;
        let mut left = pairs;
        while left.len() >= 6 {
            match self.apply(sizes, first_setting(left), left.len() > 6) {
                None => return false,
                Some(next) => sizes = next,
            }
            left = left.split_at(6).1;
        }
        self.set_pending(sizes.pending);
        true
    }

    /// The settings are applied, and acknowledged.
    fn settle(&mut self, fits: bool) -> Found
        requires room { length (octets_of self.old.out) + 17 ≤ size }
        ensures { Gives (applied self.old fits) self.new result }
    {
        if !fits {
            return self.fail(FLOW_CONTROL_ERROR);
        }
        self.settled = true;
        self.put_settings_ack();
        Found::Silent
    }

    pub(crate) fn on_settings(&mut self, ack: bool, pairs: &[u8]) -> Found
        requires room { length (octets_of self.old.out) + 17 ≤ size }
        ensures { DoesSettings ack self.old pairs.now self.new result }
    {
        if ack {
            return Found::Silent;
        }
        if self.allows_push(pairs) {
            return self.fail(PROTOCOL_ERROR);
        }
        let fits = self.apply_all(pairs);
        self.settle(fits)
    }
}
