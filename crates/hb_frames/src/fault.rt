//! Why no frame can be read any more.

use hb_base::Scope;
use thiserror::Error;

/// The first refusal that one frame alone can tell.
#[derive(Clone, Copy, Debug, PartialEq, Eq, Error)]
#[error("frame at octet {at}: type {kind}, flags {flags}, error code {code} by row {row}")]
pub struct FrameFault {
    /// The error code (RFC 9113 section 7).
    pub code: u32,
    /// Always the connection: no refusal of one frame alone is a stream error.
    pub scope: Scope,
    /// The offset of the frame's first octet in all octets fed.
    pub at: u64,
    /// The row of the refusal table: 2 a length above the maximum; 5 DATA, HEADERS, PRIORITY or RST_STREAM on
    /// stream 0; 6 SETTINGS, PING or GOAWAY on another stream; 7 PUSH_PROMISE; 8 no octet for the padding's
    /// length, or too few for a priority; 9 padding longer than what is left; 10 a payload of another length
    /// than its type has; 11 a setting out of its range; 13 an increment of 0 on stream 0.
    pub row: u32,
    /// The frame's type.
    pub kind: u8,
    pub flags: u8,
}
