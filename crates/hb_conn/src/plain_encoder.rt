//! The encoder of the header blocks that a connection puts.

ghost use Rattle.std.specs.Prelude.{◌≡◌, ◌≤◌, ◌+◌, length, false, IfOk, OnOk};
ghost use Rattle.hb_hpack.specs.Table.{total};
ghost use Rattle.hb_hpack.specs.Encoding.{block_of, going};
ghost use Rattle.hb_outgoing.specs.Waiting.{put, room_of};
ghost use Rattle.hb_frames.specs.Numbers.{largest};
ghost use Rattle.hb_owed.specs.Dues.{IsDue};
ghost use Rattle.hb_owed.specs.Frames.{frame_of, behind, size_of};
ghost use Rattle.hb_owed.specs.Paid.{paid};

use hb_base::{List, NoMemory};
use hb_hpack::{Encoder, Header, Spelling};
use hb_outgoing::Outgoing;
use hb_owed::{Due, Owed, put_due};
use std::alloc::Global;
use std::marker::Model;

/// An encoder that spells no string in the Huffman code.
#[derive(Drop)]
pub struct PlainEncoder {
    encoder: Encoder,
}

impl Model for PlainEncoder {
    ghost use Rattle.std.specs.Prelude.{◌≡◌};
    ghost use Rattle.hb_hpack.specs.Encoding.{Writing};
    ghost use Rattle.hb_hpack.specs.declared.spelling.Spelling.TheVariants.{Plain};

    ghost Value = { Writing };

    ghost view = { λ e. e.encoder };

    ghost invariant = { λ e. e.encoder.spelling ≡ Plain };
}

impl PlainEncoder {
    /// An encoder that has written no block.
    pub fn new() -> PlainEncoder
        ensures { result ≡ record { spelling = Spelling.Plain; started = false } }
    {
        PlainEncoder {
            encoder: Encoder::new(Spelling::Plain),
        }
    }

    /// The block of the headers (RFC 7541 section 6).
    ///
    /// Errors: `NoMemory`, after which the encoder isn't used again.
    #[tactic(auto, using(crate::proofs::Plain::block_short))]
    pub fn block(&mut self, alloc: Global, headers: &List<Header>) -> Result<Vec<u8>, NoMemory>
        ensures block { IfOk result (λ b. b.items ≡ block_of self.old headers.now) }
        ensures goes_on { OnOk result (self.new ≡ going self.old) }
        ensures short { IfOk result (λ b. length b.items ≤ 1 + total headers.now) }
    {
        let mut block = Vec::new(alloc);
        self.encoder.block(alloc, headers, &mut block)?;
        Ok(block)
    }

    /// Puts a frame of a stream behind all that waits.
    pub fn put(&mut self, stream: u32, due: Due, out: &mut Outgoing)
        requires in_range { stream ≤ largest }
        requires due { IsDue due }
        requires room { size_of due ≤ room_of out.old }
        ensures out { out.new ≡ put (frame_of self.old stream due) out.old }
        ensures after { self.new ≡ behind due self.old }
    {
        put_due(stream, due, out, &mut self.encoder);
    }

    /// Puts owed frames behind all that waits, as long as the next one fits the room.
    pub fn pay(&mut self, owed: &mut Owed, out: &mut Outgoing)
        ensures { record { owed = owed.new; out = out.new; writing = self.new }
            ≡ paid (record { owed = owed.old; out = out.old; writing = self.old }) }
    {
        owed.pay(out, &mut self.encoder);
    }
}
