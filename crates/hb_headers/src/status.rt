//! The status of a response.

ghost use Rattle.std.specs.Prelude.{◌≡◌};
ghost use Rattle.hb_model.specs.Discovery.{number_of_status, status_of};

use hb_hpack::Header;

/// The name of the status (RFC 9113 section 8.3.2).
const STATUS: &[u8] = b":status";

/// A status is three digits (RFC 9110 section 15).
fn number_of(text: &[u8]) -> Option<u32>
    ensures { result ≡ number_of_status text.now }
{
    let [a, b, c] = text else {
        return None;
    };
    if !a.is_ascii_digit() || !b.is_ascii_digit() || !c.is_ascii_digit() {
        return None;
    }
    Some(u32::from(*a - b'0') * 100 + u32::from(*b - b'0') * 10 + u32::from(*c - b'0'))
}

/// The first status of some headers (RFC 9113 section 8.3.2). `None` where they have none, or that one isn't three digits.
pub fn status_of(headers: &[Header]) -> Option<u32>
    ensures { result ≡ status_of headers.now }
{
    for header in headers {
        if header.name.as_slice() == STATUS {
            return number_of(header.value.as_slice());
        }
    }
    None
}
