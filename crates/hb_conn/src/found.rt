//! What a frame makes happen.

ghost use Rattle.std.specs.Prelude.{◌≡◌};
ghost use Rattle.hb_conn.specs.Connection.{ended_by};
ghost use Rattle.hb_conn.specs.Outcome.{is_silent};

/// What the node is told of a frame. Its octets or headers are lent beside it.
#[derive(Clone, Copy)]
pub enum Found {
    /// Nothing is told.
    Silent,
    /// A stream began, or headers came on one; `end`: and the peer ended it.
    Opened { stream: u32, end: bool },
    /// Octets of DATA came; `end`: and the peer ended the stream.
    Chunk { stream: u32, end: bool },
    /// The peer ended a stream.
    Ended { stream: u32 },
    /// The peer reset a stream.
    Reset { stream: u32, code: u32 },
    /// This end reset a stream for an error of it.
    Broken { stream: u32, code: u32 },
    /// The peer takes no streams above this one any more.
    GoneAway { last: u32 },
    /// A connection error.
    Fault { code: u32 },
}

impl Found {
    pub(crate) fn is_silent(self) -> bool
        ensures { result ≡ is_silent self }
    {
        match self {
            Found::Silent => true,
            _ => false,
        }
    }

    /// The stream that ends with it, of which it is to be told.
    pub(crate) fn ended(self) -> Option<u32>
        ensures { result ≡ ended_by self }
    {
        match self {
            Found::Chunk { stream, end: true } => Some(stream),
            _ => None,
        }
    }
}
