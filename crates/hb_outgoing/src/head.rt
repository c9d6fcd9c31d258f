//! What is kept of a frame that has begun.

/// What a frame's header says besides the length of the payload (RFC 9113 section 4.1).
#[derive(Clone, Copy)]
pub struct Head {
    pub kind: u8,
    pub flags: u8,
    pub stream: u32,
}
