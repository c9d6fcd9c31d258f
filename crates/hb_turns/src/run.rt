//! A run of the event loop, as it stands between two calls.

use crate::taken::Taken;
use hb_ready::{Asked, Links};

/// The most bytes of one read.
pub(crate) const MOST_READ: usize = 16_393;

/// What the loop knows of links and doors, and what it counts.
#[derive(Drop)]
pub struct Records {
    pub links: Links,
    pub asked: Asked,
    /// How many links were born.
    pub births: u64,
    /// A link was closed for want of memory.
    pub wanting: bool,
    /// How many dialled links an update of the policies closed, at most `u64::MAX`.
    pub revoked: u64,
}

/// The node, what the loop knows, the notes that were taken, and room for what is read.
#[derive(Drop)]
pub struct Run<N> {
    pub node: N,
    pub records: Records,
    pub taken: Taken,
    pub buffer: Vec<u8>,
}
