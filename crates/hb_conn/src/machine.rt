//! What a connection keeps beside the octets that came.

use crate::plain_encoder::PlainEncoder;
use hb_blocks::Blocks;
use hb_flow::Flow;
use hb_outgoing::Outgoing;
use hb_owed::Owed;
use hb_streams::Streams;

/// What the peer's SETTINGS say (RFC 9113 section 6.5.2).
#[derive(Clone, Copy)]
pub struct Peer {
    /// The longest payload that it takes (SETTINGS_MAX_FRAME_SIZE).
    pub frame_size: u32,
    /// How many streams it lets this end open (SETTINGS_MAX_CONCURRENT_STREAMS).
    pub streams: u32,
}

/// A connection's streams, windows, output, owed frames and header blocks.
#[derive(Drop)]
pub struct Core {
    pub streams: Streams,
    pub flow: Flow,
    pub out: Outgoing,
    /// The frames of streams for which the output lacks room.
    pub owed: Owed,
    /// Of the header blocks that are put.
    pub encoder: PlainEncoder,
    pub blocks: Blocks,
    pub peer: Peer,
    /// The peer's first SETTINGS came.
    pub settled: bool,
    /// A connection error was told.
    pub over: bool,
}
