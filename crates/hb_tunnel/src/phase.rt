//! How far a tunnel is.

/// The phases of a tunnel.
#[derive(Clone, Copy)]
pub enum Phase {
    /// Its upstream isn't open yet, whichever ways have ended.
    Dialling,
    Open,
    /// The way up has ended.
    UpEnded,
    /// The way down has ended.
    DownEnded,
    BothEnded,
}
