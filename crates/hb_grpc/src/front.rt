//! The message in front of bytes that are all there.

ghost use Rattle.std.specs.Prelude.{◌≡◌, ◌+◌, ◌≤◌, length, IfOk, IfSome};
ghost use Rattle.hb_grpc.specs.Reading.{first_of};

use crate::fault::GrpcFault;
use crate::header::{HEADER, announced};

/// How many bytes the message has that these bytes begin with, behind the five of its header (gRPC over HTTP/2,
/// "Length-Prefixed-Message"). `None` where it isn't whole there.
///
/// Errors: `Compressed` where its flag isn't 0, `TooLong` where its length is above `limit`.
pub fn first_length(bytes: &[u8], limit: u32) -> Result<Option<usize>, GrpcFault>
    ensures value { result ≡ first_of limit bytes.now }
    ensures within { IfOk result (λ found. IfSome found (λ size. 5 + size ≤ length bytes.now)) }
{
    match announced(bytes, limit)? {
        Some(size) if HEADER + size as usize <= bytes.len() => Ok(Some(size as usize)),
        _ => Ok(None),
    }
}
