//! Why the bytes of a message are no fields.

use thiserror::Error;

/// What is wrong with the bytes of a field (Protocol Buffers encoding guide, "Message Structure").
#[derive(Clone, Copy, Debug)]
pub enum WireWhy {
    /// The bytes end inside the field.
    Truncated,
    /// A varint's tenth byte is above 1, so that its value passes 64 bits.
    LongVarint,
    /// The field's number is 0 or above 536,870,911.
    BadNumber,
    /// The wire type is 3, 4, 6 or 7.
    BadType,
}

/// A fault and its place, counted in bytes: for `Truncated` the end of the bytes, for `LongVarint` the tenth
/// byte, for `BadNumber` and `BadType` the tag's first byte.
#[derive(Clone, Copy, Debug, Error)]
#[error("{why:?} at byte {at}")]
pub struct WireFault {
    pub at: usize,
    pub why: WireWhy,
}
