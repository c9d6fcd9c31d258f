//! Why a frame is refused, and why no stream can be begun.

use hb_base::Scope;
use thiserror::Error;

/// The error that a received frame is answered with.
#[derive(Clone, Copy, Debug, Error)]
#[error("error code {code}, scope {scope:?}")]
pub struct StreamFault {
    /// The error code (RFC 9113 section 7): PROTOCOL_ERROR 1, STREAM_CLOSED 5 or REFUSED_STREAM 7.
    pub code: u32,
    /// What the error ends: the connection, or the frame's stream (RFC 9113 section 5.4).
    pub scope: Scope,
}

/// Why this end can begin no stream.
#[derive(Clone, Copy, Debug, Error)]
pub enum OpenFault {
    /// As many streams are open or half-closed as the limit allows, or 100.
    #[error("too many streams")]
    Full,
    /// No odd number up to 2,147,483,647 is left (RFC 9113 section 5.1.1).
    #[error("no stream number is left")]
    Spent,
}
