//! The nine octets in front of a payload.

ghost use Rattle.std.specs.Prelude.{◌≡◌, ◌≤◌, length};
ghost use Rattle.hb_frames.specs.RawFrame.{raw_at, size_at};

use crate::octets::word_at;

/// The octets of a header (RFC 9113 section 4.1).
pub(crate) const HEADER: usize = 9;

/// A frame header; the reserved bit is left out.
#[derive(Clone, Copy)]
pub(crate) struct Head {
    pub size: u32,
    pub kind: u8,
    pub flags: u8,
    pub stream: u32,
}

impl Head {
    /// The header that these octets begin with (RFC 9113 section 4.1).
    pub fn of(bytes: &[u8]) -> Head
        requires { 9 ≤ length bytes.now }
        ensures size { result.size ≡ size_at bytes.now }
        ensures kind { result.kind ≡ (raw_at bytes.now).kind }
        ensures flags { result.flags ≡ (raw_at bytes.now).flags }
        ensures stream { result.stream ≡ (raw_at bytes.now).stream }
    {
        Head {
            size: bytes[0] as u32 * 0x1_0000 + bytes[1] as u32 * 0x100 + bytes[2] as u32,
            kind: bytes[3],
            flags: bytes[4],
            stream: word_at(bytes, 5) % 0x8000_0000,
        }
    }
}
