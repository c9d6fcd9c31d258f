//! What a request asks for.

ghost use Rattle.std.specs.Prelude.{◌≡◌};
ghost use Rattle.hb_verdict.specs.Request.{connect_to, request_of};

use crate::fields::{AUTHORITY, is_connect, is_malformed, value_of};
use hb_base::{Ip, Target, read_target};
use hb_hpack::{Header, HeaderList};

/// The most that the sizes of a request's headers may sum to (RFC 7541 section 4.1): so much SETTINGS_MAX_HEADER_LIST_SIZE tells
/// the peer (RFC 9113 section 6.5.2).
const MOST: u64 = 16384;

/// What the headers of a request ask for, or how they are answered.
#[derive(Clone, Copy)]
pub enum Request {
    /// They are answered with this status: 431 where they are too large (RFC 6585 section 5), 405 where they don't ask for a
    /// tunnel, 400 where their target isn't one of the link's destination.
    Refused(u16),
    /// They are no request: the stream is reset with PROTOCOL_ERROR (RFC 9113 section 8.1.1).
    Malformed,
    /// A tunnel to this target.
    Connect(Target),
}

fn connect_to(headers: &[Header], destination: Ip) -> Request
    ensures { result ≡ connect_to headers.now destination }
{
    let Some(authority) = value_of(AUTHORITY, headers) else {
        return Request::Refused(400);
    };
    match read_target(authority) {
        Ok(target) if target.ip == destination => Request::Connect(target),
        _ => Request::Refused(400),
    }
}

/// What a request on a link to this destination asks for, the first of these that applies: its headers are too large, they are
/// malformed, they ask for no tunnel, their authority is no `IP:PORT` of the destination's address (RFC 9113 section 8.5).
pub fn read_request(headers: &HeaderList, destination: Ip) -> Request
    ensures { result ≡ request_of headers.now destination }
{
    let kept = headers.kept.as_slice();
    if headers.size > MOST {
        return Request::Refused(431);
    }
    if is_malformed(kept) {
        return Request::Malformed;
    }
    if !is_connect(kept) {
        return Request::Refused(405);
    }
    connect_to(kept, destination)
}
