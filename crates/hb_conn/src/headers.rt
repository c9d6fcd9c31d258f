//! HEADERS and CONTINUATION (RFC 9113 sections 4.3, 6.2 and 6.10).

ghost use Rattle.std.specs.Prelude.{◌≡◌, ◌+◌, ◌≤◌, length, Some, None, IfOk, IfSome, OnOk};
ghost use Rattle.hb_frames.specs.Numbers.{largest};
ghost use Rattle.hb_blocks.specs.Assembly.{begun as block_begun, continued, stream_of};
ghost use Rattle.hb_outgoing.specs.Waiting.{octets_of, size};
ghost use Rattle.hb_conn.specs.Headers.{registered, headed, on_whole, DoesBlock, Tells};
ghost use Rattle.hb_conn.specs.Outcome.{Does};

use crate::found::Found;
use crate::machine::Core;
use hb_base::{NoMemory, Or};
use hb_blocks::{BlockFault, Whole};
use hb_frames::numbers::HEADERS;
use hb_streams::Step;

impl Core {
    /// Gives a new stream its windows, and a record of what is owed on it.
    pub(crate) fn register(&mut self, stream: u32) -> Result<(), NoMemory>
        requires { stream ≤ largest }
        ensures { OnOk result (self.new ≡ registered self.old stream) }
    {
        self.flow.open(stream)?;
        self.owed.open(stream)
    }

    /// The stream gets HEADERS whose block is whole.
    fn head(&mut self, stream: u32, end: bool) -> Result<(), NoMemory>
        ensures after { OnOk result (self.new ≡ headed self.old stream end) }
    {
        match self.streams.on_frame(HEADERS, stream, end) {
            Err(Or::NoMemory) => Err(NoMemory),
            _ => Ok(()),
        }
    }

    fn on_whole(&mut self, stream: u32, end: bool) -> Result<Found, NoMemory>
        requires room { length (octets_of self.old.out) + 17 ≤ size }
        requires in_range { stream ≤ largest }
        ensures { Does (on_whole self.old stream end) self.new result }
    {
        match self.streams.answer(HEADERS, stream) {
            Ok(Step::New) => {
                self.register(stream)?;
                self.head(stream, end)?;
                Ok(Found::Opened { stream, end })
            }
            Ok(Step::Goes) => {
                self.head(stream, end)?;
                self.release(stream);
                Ok(Found::Opened { stream, end })
            }
            Ok(Step::Ignored) => Ok(Found::Silent),
            Err(fault) => {
                self.head(stream, end)?;
                Ok(self.refuse(fault))
            }
        }
    }

    /// What is told of a fragment of a header block.
    fn tell_block(&mut self, told: Result<Option<Whole>, Or<BlockFault>>) -> Result<Found, NoMemory>
        requires room { length (octets_of self.old.out) + 17 ≤ size }
        requires in_range { IfOk told (λ found. IfSome found (λ block. block.stream ≤ largest)) }
        ensures { Tells self.old told self.new result }
    {
        match told {
            Ok(None) => Ok(Found::Silent),
            Ok(Some(block)) => self.on_whole(block.stream, block.end_stream),
            Err(Or::Fault(fault)) => Ok(self.fail(fault.code())),
            Err(Or::NoMemory) => Err(NoMemory),
        }
    }

    /// HEADERS, while no block is open.
    pub(crate) fn on_headers(
        &mut self,
        stream: u32,
        end: bool,
        fragment: &[u8],
        whole: bool,
    ) -> Result<Found, NoMemory>
        requires room { length (octets_of self.old.out) + 17 ≤ size }
        requires in_range { stream ≤ largest }
        requires closed { self.old.blocks.opening ≡ None }
        ensures { IfOk result (DoesBlock (block_begun stream end fragment.now whole) self.old self.new) }
    {
        let told = self.blocks.begin(stream, end, fragment, whole);
        self.tell_block(told)
    }

    /// CONTINUATION of the block that is open.
    pub(crate) fn on_continuation(
        &mut self,
        stream: u32,
        fragment: &[u8],
        whole: bool,
    ) -> Result<Found, NoMemory>
        requires room { length (octets_of self.old.out) + 17 ≤ size }
        requires in_range { stream ≤ largest }
        requires open { stream_of self.old.blocks.opening ≡ Some stream }
        ensures { IfOk result (DoesBlock (continued self.old.blocks fragment.now whole) self.old self.new) }
    {
        let told = self.blocks.go_on(fragment, whole);
        self.tell_block(told)
    }
}
