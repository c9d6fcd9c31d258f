//! Why a header block is refused.

ghost use Rattle.std.specs.Prelude.{◌≡◌};
ghost use Rattle.hb_blocks.specs.Faults.{code_of};

use hb_hpack::HpackFault;
use thiserror::Error;

/// Why a header block is refused. Each is an error of the connection.
#[derive(Clone, Copy, Debug, Error)]
pub enum BlockFault {
    /// Its fragments have more than 32,768 octets together.
    #[error("a header block is too long")]
    TooLong,
    /// The decoder refuses it (RFC 7541).
    #[error("{0}")]
    Compression(HpackFault),
}

impl BlockFault {
    /// The error code (RFC 9113 section 7): ENHANCE_YOUR_CALM 11 or COMPRESSION_ERROR 9.
    pub fn code(&self) -> u32
        ensures { result ≡ code_of self.now }
    {
        match self {
            BlockFault::TooLong => 11,
            BlockFault::Compression(_) => 9,
        }
    }
}
