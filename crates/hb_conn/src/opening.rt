//! How a client opens a stream (RFC 9113 sections 5.1.1 and 8.5).

ghost use Rattle.std.specs.Prelude.{◌≡◌, ◌+◌, ◌≤◌, length, IfOk, OnOk, IsTrue};
ghost use Rattle.hb_hpack.specs.Table.{total};
ghost use Rattle.hb_frames.specs.Numbers.{largest};
ghost use Rattle.hb_outgoing.specs.Waiting.{octets_of, size};
ghost use Rattle.hb_streams.specs.Sides.{sides_of};
ghost use Rattle.hb_streams.specs.States.{state_of};
ghost use Rattle.hb_streams.specs.declared.role.Role.TheVariants.{Client};
ghost use Rattle.hb_conn.specs.Opening.{begun, headers_put, opened_with, Opens};

use crate::machine::Core;
use hb_base::{List, NoMemory, Or};
use hb_frames::numbers::{END_HEADERS_FLAG, END_STREAM_FLAG, HEADERS};
use hb_hpack::Header;
use hb_streams::OpenFault;
use std::alloc::Global;

impl Core {
    /// Begins the next stream.
    #[tactic(auto, using(crate::proofs::Begun::number_in_range))]
    fn begin(&mut self) -> Result<u32, Or<OpenFault>>
        requires { self.old.streams.role ≡ Client }
        ensures told { Opens self.old (begun self.old) self.new result }
        ensures in_range { IfOk result (λ stream. stream ≤ largest) }
        ensures open { IfOk result (λ stream. IsTrue (sides_of (state_of self.new.streams stream)).own) }
        ensures out { OnOk result (self.new.out ≡ self.old.out) }
    {
        let stream = self.streams.open(self.peer.streams)?;
        self.register(stream)?;
        Ok(stream)
    }

    fn put_headers(
        &mut self,
        alloc: Global,
        stream: u32,
        headers: &List<Header>,
        end: bool,
    ) -> Result<(), NoMemory>
        requires room { length (octets_of self.old.out) + 1024 ≤ size }
        requires headers { total headers.now ≤ 900 }
        requires in_range { stream ≤ largest }
        ensures { OnOk result (self.new ≡ headers_put self.old stream headers.now end) }
    {
        let block = self.encoder.block(alloc, headers)?;
        let flags = if end {
            END_HEADERS_FLAG + END_STREAM_FLAG
        } else {
            END_HEADERS_FLAG
        };
        self.out.put_frame(HEADERS, flags, stream, block.as_slice());
        Ok(())
    }

    pub(crate) fn open(
        &mut self,
        alloc: Global,
        headers: &List<Header>,
        end: bool,
    ) -> Result<u32, Or<OpenFault>>
        requires client { self.old.streams.role ≡ Client }
        requires room { length (octets_of self.old.out) + 1024 ≤ size }
        requires headers { total headers.now ≤ 900 }
        ensures { Opens self.old (λ stream. opened_with self.old stream headers.now end) self.new result }
    {
        let stream = self.begin()?;
        self.put_headers(alloc, stream, headers, end)?;
        if end {
            self.end_own(stream);
        }
        Ok(stream)
    }
}
