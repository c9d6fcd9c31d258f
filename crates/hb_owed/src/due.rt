//! One frame that is owed on a stream.

ghost use Rattle.std.specs.Prelude.{◌≡◌};
ghost use Rattle.hb_owed.specs.Frames.{size_of};

use crate::status::Status;

/// A frame that is owed on a stream.
#[derive(Clone, Copy)]
pub enum Due {
    /// HEADERS of a status alone (RFC 9113 section 6.2).
    Status(Status),
    /// WINDOW_UPDATE with this increment (RFC 9113 section 6.9).
    Credit(u32),
    /// An empty DATA frame with END_STREAM (RFC 9113 section 6.1).
    End,
    /// RST_STREAM with this error code (RFC 9113 section 6.4).
    Reset(u32),
}

impl Due {
    /// The octets of room that it is put into, at least those of its frame.
    pub fn size(self) -> usize
        ensures { result ≡ size_of self }
    {
        match self {
            Due::Status(_) => 17,
            Due::Credit(_) | Due::Reset(_) => 13,
            Due::End => 9,
        }
    }
}
