//! A stream of a link.

use hb_base::Cause;

/// How far a stream is on which a tunnel was asked for.
#[derive(Clone, Copy)]
pub(crate) enum Stage {
    /// No status of 200 or more came.
    Asked,
    /// A status from 200 to 299 came: it carries bytes.
    Carrying,
    /// Its tunnel ended, and it is to be reset with this code.
    Failing(u32),
    /// Its tunnel ended, and nothing more is heard of it.
    Over,
}

/// A stream that carries the tunnel of a captured link.
#[derive(Clone, Copy)]
pub(crate) struct Stream {
    pub stage: Stage,
    /// The captured link.
    pub link: u64,
    /// The cause for which its tunnel is to end, which that is still to be told.
    pub mail: Option<Cause>,
    /// The bytes of it in DATA frames of which an octet was written; the count stops at 2^64 - 1.
    pub begun: u64,
}
