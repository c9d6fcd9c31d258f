//! Why no message can be read any more.

ghost use Rattle.std.specs.Prelude.{◌≡◌};
ghost use Rattle.hb_grpc.specs.Reading.{told_by};

use thiserror::Error;

/// A message that isn't taken.
#[derive(Clone, Copy, Debug, PartialEq, Eq, Error)]
pub enum GrpcFault {
    /// The Compressed-Flag isn't 0. No compression was agreed on.
    #[error("a message is compressed: flag {flag}")]
    Compressed { flag: u8 },
    /// The Message-Length is above the limit.
    #[error("a message is too long: {length} bytes")]
    TooLong { length: u32 },
}

impl GrpcFault {
    /// How many bytes of the message tell it: the flag alone, or the whole header.
    pub(crate) fn told_by(&self) -> usize
        ensures { result ≡ told_by self.now }
    {
        match self {
            GrpcFault::Compressed { .. } => 1,
            GrpcFault::TooLong { .. } => 5,
        }
    }
}
