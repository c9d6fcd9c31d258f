//! Which target a request names.

ghost use Rattle.std.specs.Prelude.{◌≡◌, codes};
ghost use Rattle.std.specs.Option.{option_map};
ghost use Rattle.hb_link.specs.Asking.{named_by};
ghost use Rattle.hb_verdict.specs.Fields.{value_of};

use hb_base::{Target, read_target};
use hb_hpack::{Header, HeaderList};
use hb_verdict::Request;

/// The value of the first header `:authority`.
fn authority(headers: &[Header]) -> Option<&[u8]>
    ensures { option_map (λ value. value.now) result ≡ value_of (codes ":authority") headers.now }
{
    for header in headers {
        if header.name.as_slice() == b":authority".as_slice() {
            return Some(header.value.as_slice());
        }
    }
    None
}

/// The target that the headers of this request name, whatever its address.
pub(crate) fn named_by(request: Request, headers: &HeaderList) -> Option<Target>
    ensures { result ≡ named_by request headers.now }
{
    match request {
        Request::Connect(target) => Some(target),
        Request::Refused(400) => match authority(headers.kept.as_slice()) {
            Some(text) => read_target(text).ok(),
            None => None,
        },
        _ => None,
    }
}
