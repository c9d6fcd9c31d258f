//! The two ends of a connection.

/// What this end of a connection is (RFC 9113 section 3).
#[derive(Clone, Copy)]
pub enum Role {
    Server,
    Client,
}
