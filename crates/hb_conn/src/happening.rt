//! What a connection tells.

use hb_hpack::HeaderList;

/// What happened on a connection. Octets and headers are lent until the next call.
#[derive(Clone, Copy)]
pub enum Happening<'a> {
    /// Headers came on a stream, to a server those that begin it (RFC 9113 section 8.1); `end`: and the peer ended it.
    Opened {
        stream: u32,
        headers: &'a HeaderList,
        end: bool,
    },
    /// DATA came, its padding left out.
    Chunk {
        stream: u32,
        bytes: &'a [u8],
    },
    /// The peer ended its side of a stream with DATA that was told before.
    Ended {
        stream: u32,
    },
    /// The peer reset a stream (RFC 9113 section 6.4).
    Reset {
        stream: u32,
        code: u32,
    },
    /// A stream error, which this end answered with RST_STREAM (RFC 9113 section 5.4.2).
    Broken {
        stream: u32,
        code: u32,
    },
    /// The peer takes no streams above this one any more (RFC 9113 section 6.8).
    GoneAway {
        last: u32,
    },
    /// A connection error, for which GOAWAY was put (RFC 9113 section 5.4.1). Nothing more is told.
    Fault {
        code: u32,
    },
}
