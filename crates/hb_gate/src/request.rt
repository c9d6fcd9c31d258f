//! The request for a tunnel (RFC 9113 section 8.5).

ghost use Rattle.std.specs.Prelude.{◌≡◌, ◌≤◌, IfOk};
ghost use Rattle.hb_gateway.specs.Gateway.{request_of};
ghost use Rattle.hb_hpack.specs.Table.{total};

use hb_base::{List, NoMemory, Target};
use hb_headers::{add, authority};
use hb_hpack::Header;
use std::alloc::Global;

/// The headers that ask for a tunnel to an authority.
pub(crate) fn request(alloc: Global, to: Target) -> Result<List<Header>, NoMemory>
    ensures value { IfOk result (λ headers. headers ≡ request_of to) }
    ensures small { IfOk result (λ headers. total headers ≤ 900) }
{
    let mut headers = List::with_capacity(alloc, 2)?;
    add(alloc, b":method", b"CONNECT", &mut headers)?;
    headers.push(authority(alloc, to.ip, to.port)?)?;
    Ok(headers)
}
