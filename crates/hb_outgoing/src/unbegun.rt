//! A DATA frame that windows count and that can still be taken back.

/// A DATA frame with payload of which no octet was written: its stream, and the octets of its payload.
#[derive(Clone, Copy, Debug, PartialEq, Eq)]
pub struct Unbegun {
    pub stream: u32,
    pub size: u32,
}
