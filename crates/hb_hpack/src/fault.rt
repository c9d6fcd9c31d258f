//! Why a header block can't be read, and where.

use thiserror::Error;

/// Why a header block can't be read (RFC 7541). Each is a connection error of type COMPRESSION_ERROR.
#[derive(Clone, Copy, Debug, Error)]
pub enum HpackWhy {
    /// An index that is 0 or has no entry (section 2.3.3).
    #[error("no entry has this index")]
    BadIndex,
    /// A sixth continuation byte, or a value above 4,294,967,295 (section 5.1).
    #[error("an integer is too long")]
    LongInteger,
    /// The block ends within a representation.
    #[error("the block is cut short")]
    Truncated,
    /// More than seven bits of padding, padding that isn't all ones, or a whole EOS (section 5.2).
    #[error("a string isn't in the Huffman code")]
    BadHuffman,
    /// A size update above 4,096 (section 6.3).
    #[error("the table may not be so large")]
    BadSize,
    /// A size update after a header (section 4.2).
    #[error("a size update after a header")]
    LateSize,
}

/// The fault of a block, and the offset in it of the byte that makes it: for `Truncated` the block's length,
/// for `BadHuffman` the byte that has the string's Huffman bit.
#[derive(Clone, Copy, Debug, Error)]
#[error("{why}, at byte {at}")]
pub struct HpackFault {
    pub at: usize,
    pub why: HpackWhy,
}

/// A fault, and how many bytes of the block are left from its place on.
#[derive(Clone, Copy)]
pub(crate) struct Stop {
    pub(crate) left: usize,
    pub(crate) why: HpackWhy,
}
