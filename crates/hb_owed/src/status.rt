//! A status that is owed.

/// A status of three digits (RFC 9110 section 15), sent in HEADERS that end the stream where `end` says so.
#[derive(Clone, Copy)]
pub struct Status {
    pub number: u16,
    pub end: bool,
}
