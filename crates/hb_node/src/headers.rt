//! The headers of the one request of a link to the control plane.

ghost use Rattle.std.specs.Prelude.{◌≡◌, ◌≤◌, IfOk};
ghost use Rattle.hb_hpack.specs.Table.{total};
ghost use Rattle.hb_model.specs.Discovery.{headers_of};

use hb_base::{List, NoMemory, Target};
use hb_headers::{add, authority};
use hb_hpack::Header;
use std::alloc::Global;

const PATH: &[u8] =
    b"/envoy.service.discovery.v3.AggregatedDiscoveryService/DeltaAggregatedResources";

/// The headers of a call of the control plane at this address (gRPC over HTTP/2, "Requests").
pub(crate) fn headers_of(alloc: Global, to: Target) -> Result<List<Header>, NoMemory>
    ensures value { IfOk result (λ headers. headers ≡ headers_of to) }
    ensures small { IfOk result (λ headers. total headers ≤ 900) }
{
    let mut headers = List::with_capacity(alloc, 6)?;
    add(alloc, b":method", b"POST", &mut headers)?;
    add(alloc, b":scheme", b"http", &mut headers)?;
    add(alloc, b":path", PATH, &mut headers)?;
    headers.push(authority(alloc, to.ip, to.port)?)?;
    add(alloc, b"te", b"trailers", &mut headers)?;
    add(alloc, b"content-type", b"application/grpc", &mut headers)?;
    Ok(headers)
}
