//! Whether bytes are text.

ghost use Rattle.std.specs.Prelude.{◌↔◌, IsTrue};
ghost use Rattle.std.specs.Str.{IsUtf8};

/// The bytes are UTF-8 (RFC 3629). Most texts are ASCII, which takes a look at eight bytes at a time.
#[inline(never)]
pub fn is_utf8(b: &[u8]) -> bool
    ensures { IsTrue result ↔ IsUtf8 b.now }
{
    b.is_ascii() || std::str::from_utf8(b).is_ok()
}
