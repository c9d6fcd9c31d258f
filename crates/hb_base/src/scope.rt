//! What an HTTP/2 fault ends.

/// The scope of an HTTP/2 fault (RFC 9113 section 5.4): the connection, or one stream by its number.
#[derive(Clone, Copy, Debug, PartialEq, Eq)]
pub enum Scope {
    Connection,
    Stream(u32),
}
