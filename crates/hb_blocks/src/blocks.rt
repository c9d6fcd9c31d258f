//! Header blocks on their way, and the decoder of them all.

ghost use Rattle.std.specs.Prelude.{◌≡◌, [], None, IsSome};
ghost use Rattle.hb_blocks.specs.Assembly.{no_headers, stream_of, begun, continued};
ghost use Rattle.hb_blocks.specs.Outcome.{Decodes, Makes};

use crate::fault::BlockFault;
use crate::whole::{Opening, Whole};
use hb_base::{List, Or};
use hb_hpack::{Decoder, HeaderList};
use std::alloc::Global;
use std::marker::Model;

/// The most octets of a block.
const LONGEST_BLOCK: usize = 32768;

/// The header blocks that one end of a connection receives. After an error it isn't used again. As long as a block is
/// open, memory for the longest block is held and no headers are; else no memory is held for a block.
#[derive(Drop)]
pub struct Blocks {
    alloc: Global,
    decoder: Decoder,
    opening: Option<Opening>,
    block: Vec<u8>,
    headers: HeaderList,
}

impl Model for Blocks {
    ghost use Rattle.hb_blocks.specs.Assembly.{Assembly};
    ghost use Rattle.hb_blocks.specs.Room.{HoldsOne};

    ghost Value = { Assembly };

    ghost view = { λ b. record { table = b.decoder; opening = b.opening; block = b.block.items; headers = b.headers } };

    ghost invariant = { λ b. HoldsOne b.opening b.block b.headers };
}

fn decode(decoder: &mut Decoder, block: &[u8]) -> Result<HeaderList, Or<BlockFault>>
    ensures { Decodes decoder.old block.now decoder.new result }
{
    match decoder.block(block) {
        Ok(headers) => Ok(headers),
        Err(Or::Fault(fault)) => Err(Or::Fault(BlockFault::Compression(fault))),
        Err(Or::NoMemory) => Err(Or::NoMemory),
    }
}

/// No headers, which take no memory.
fn no_headers(alloc: Global) -> HeaderList
    ensures { result ≡ no_headers }
{
    HeaderList {
        kept: List::new(alloc),
        size: 0,
    }
}

impl Blocks {
    ghost use Rattle.hb_blocks.specs.Assembly.{fresh};

    /// Before the first block: the decoder's table is empty, and so is the list of headers.
    pub fn new(alloc: Global) -> Blocks
        ensures { result ≡ fresh }
    {
        Blocks {
            alloc,
            decoder: Decoder::new(alloc),
            opening: None,
            block: Vec::new(alloc),
            headers: no_headers(alloc),
        }
    }

    /// The stream of the block that isn't whole yet: behind its HEADERS only its CONTINUATION may come (RFC 9113
    /// section 6.10). `None` where no block is open.
    pub fn open(&self) -> Option<u32>
        ensures { result ≡ stream_of self.now.opening }
    {
        match self.opening {
            Some(opening) => Some(opening.stream),
            None => None,
        }
    }

    /// The headers of the last block, where it is whole; none before the first, nor while a block is open.
    pub fn headers(&self) -> &HeaderList
        ensures { result.now ≡ self.now.headers }
    {
        &self.headers
    }

    /// A HEADERS frame came (RFC 9113 section 6.2). Gives its block where END_HEADERS says that it is whole; `None`
    /// where it says that more is to come.
    ///
    /// Errors: `TooLong` where the fragment has more than 32,768 octets, `Compression` where a block that is whole is
    /// refused (RFC 7541), and `NoMemory`. Each ends the connection: no call follows.
    pub fn begin(
        &mut self,
        stream: u32,
        end_stream: bool,
        fragment: &[u8],
        end_headers: bool,
    ) -> Result<Option<Whole>, Or<BlockFault>>
        requires { self.old.opening ≡ None }
        ensures { Makes (begun stream end_stream fragment.now end_headers) self.old self.new result }
    {
        if fragment.len() > LONGEST_BLOCK {
            return Err(Or::Fault(BlockFault::TooLong));
        }
        if end_headers {
            self.headers = decode(&mut self.decoder, fragment)?;
            return Ok(Some(Whole { stream, end_stream }));
        }
        self.headers = no_headers(self.alloc);
        self.block.reserve_exact(LONGEST_BLOCK)?;
        self.opening = Some(Opening { stream, end_stream });
        self.block.extend_from_slice(fragment)?;
        Ok(None)
    }

    /// A CONTINUATION frame of the open block came (RFC 9113 section 6.10). Gives the block where END_HEADERS says
    /// that it is whole; `None` where it says that more is to come.
    ///
    /// Errors: `TooLong` where the fragments have more than 32,768 octets together, `Compression` where a block that
    /// is whole is refused (RFC 7541), and `NoMemory`. Each ends the connection: no call follows.
    pub fn go_on(
        &mut self,
        fragment: &[u8],
        end_headers: bool,
    ) -> Result<Option<Whole>, Or<BlockFault>>
        requires { IsSome self.old.opening }
        ensures { Makes (continued self.old fragment.now end_headers) self.old self.new result }
    {
        if self.block.len() + fragment.len() > LONGEST_BLOCK {
            return Err(Or::Fault(BlockFault::TooLong));
        }
        self.block.extend_from_slice(fragment)?;
        if !end_headers {
            return Ok(None);
        }
        self.headers = decode(&mut self.decoder, self.block.as_slice())?;
        self.block = Vec::new(self.alloc);
        match self.opening.take() {
            Some(opening) => Ok(Some(Whole {
                stream: opening.stream,
                end_stream: opening.end_stream,
            })),
            None => unreachable!(),
        }
    }
}
