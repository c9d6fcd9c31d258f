//! The names of a request's headers.

ghost use Rattle.std.specs.Prelude.{◌≡◌};
ghost use Rattle.std.specs.List.{list_any};
ghost use Rattle.std.specs.Option.{option_map};
ghost use Rattle.hb_verdict.specs.Fields.{is_upper_case, is_bad_name, is_pseudo, is_of_requests, is_unknown, has, value_of, stands_twice, is_late};
ghost use Rattle.hb_verdict.specs.Fields.{repeats, has_bad_name, is_connect, names_target, is_malformed};

use hb_hpack::Header;

pub(crate) const METHOD: &[u8] = b":method";

const SCHEME: &[u8] = b":scheme";

pub(crate) const AUTHORITY: &[u8] = b":authority";

const PATH: &[u8] = b":path";

/// The method that asks for a tunnel (RFC 9110 section 9.3.6).
pub(crate) const CONNECT: &[u8] = b"CONNECT";

fn is_upper_case(b: u8) -> bool
    ensures { result ≡ is_upper_case b }
{
    b.is_ascii_uppercase()
}

fn has_upper_case(name: &[u8]) -> bool
    ensures { result ≡ list_any is_upper_case name.now }
{
    name.iter().any(|b| is_upper_case(*b))
}

/// No header of HTTP/2 has such a name (RFC 9113 section 8.2.1).
fn is_bad_name(name: &[u8]) -> bool
    ensures { result ≡ is_bad_name name.now }
{
    name.is_empty() || has_upper_case(name)
}

fn is_pseudo(name: &[u8]) -> bool
    ensures { result ≡ is_pseudo name.now }
{
    name.starts_with(b":")
}

/// The name is one of the pseudo-headers of requests (RFC 9113 section 8.3.1).
fn is_of_requests(name: &[u8]) -> bool
    ensures { result ≡ is_of_requests name.now }
{
    name == METHOD || name == SCHEME || name == AUTHORITY || name == PATH
}

fn is_unknown(name: &[u8]) -> bool
    ensures { result ≡ is_unknown name.now }
{
    is_pseudo(name) && !is_of_requests(name)
}

fn has(name: &[u8], headers: &[Header]) -> bool
    ensures { result ≡ has name.now headers.now }
{
    headers.iter().any(|header| header.name.as_slice() == name)
}

/// The value of the first header of this name.
pub(crate) fn value_of<'a>(name: &[u8], headers: &'a [Header]) -> Option<&'a [u8]>
    ensures { option_map (λ value. value.now) result ≡ value_of name.now headers.now }
{
    for header in headers {
        if header.name.as_slice() == name {
            return Some(header.value.as_slice());
        }
    }
    None
}

/// A header of this name stands twice.
fn stands_twice(name: &[u8], headers: &[Header]) -> bool
    ensures { result ≡ stands_twice name.now headers.now }
{
    let mut seen = false;
    for header in headers {
        if header.name.as_slice() == name {
            if seen {
                return true;
            }
            seen = true;
        }
    }
    false
}

/// A pseudo-header stands behind another header (RFC 9113 section 8.3).
fn is_late(headers: &[Header]) -> bool
    ensures { result ≡ is_late headers.now }
{
    let mut behind = false;
    for header in headers {
        if !is_pseudo(header.name.as_slice()) {
            behind = true;
        } else if behind {
            return true;
        }
    }
    false
}

/// A pseudo-header of requests stands twice (RFC 9113 section 8.3).
fn repeats(headers: &[Header]) -> bool
    ensures { result ≡ repeats headers.now }
{
    stands_twice(METHOD, headers)
        || stands_twice(SCHEME, headers)
        || stands_twice(AUTHORITY, headers)
        || stands_twice(PATH, headers)
}

/// Some name may not stand among the headers of a request.
fn has_bad_name(headers: &[Header]) -> bool
    ensures { result ≡ has_bad_name headers.now }
{
    headers.iter().any(|header| {
        let name = header.name.as_slice();
        is_bad_name(name) || is_unknown(name)
    })
}

/// The headers ask for a tunnel (RFC 9113 section 8.5).
pub(crate) fn is_connect(headers: &[Header]) -> bool
    ensures { result ≡ is_connect headers.now }
{
    match value_of(METHOD, headers) {
        Some(method) => method == CONNECT,
        None => false,
    }
}

/// A request for a tunnel names its target by the authority, and by nothing else (RFC 9113 section 8.5).
fn names_target(headers: &[Header]) -> bool
    ensures { result ≡ names_target headers.now }
{
    has(AUTHORITY, headers) && !has(SCHEME, headers) && !has(PATH, headers)
}

/// The headers are no request (RFC 9113 section 8.1.1).
pub(crate) fn is_malformed(headers: &[Header]) -> bool
    ensures { result ≡ is_malformed headers.now }
{
    has_bad_name(headers)
        || is_late(headers)
        || repeats(headers)
        || !has(METHOD, headers)
        || is_connect(headers) && !names_target(headers)
}
