use thiserror::Error;

/// A sum that would pass its bound (RFC 9113 section 6.9.1). The window that answers it is unchanged.
#[derive(Clone, Copy, Debug, PartialEq, Eq, Error)]
#[error("flow-control window: {held} octets held, {asked} more asked")]
pub struct Overrun {
    /// The octets that the window held at the call.
    pub held: i64,
    /// The octets by which the call would have changed it.
    pub asked: i64,
}
