//! The lines of a script.

use hb_base::{Bytes, Door};

/// One line of a script of socket events. Links are named by their numbers, also ahead of their birth.
#[derive(Drop)]
pub enum Line {
    /// A connection waits at this door; no effect where the door isn't listening.
    Accept(Door),
    /// The link's finish answers Opened from now on.
    Open(u64),
    /// The link's finish answers Failed from now on.
    Refuse(u64),
    /// One piece to be read from the link.
    Piece { link: u64, bytes: Bytes },
    /// Behind its pieces, the link's reads answer End.
    End(u64),
    /// Behind its pieces the link's reads answer Failed, and its writes at once.
    Break(u64),
    /// The link takes so many bytes more, and then balks.
    Room { link: u64, room: u64 },
    /// The next so many dials fail.
    NoDial(u64),
    /// Ends a wait with Woke.
    Wake,
    /// Ends a wait with Tick.
    Tick,
    /// Ends a wait with Stop.
    Stop,
    /// Ends a wait with Failed.
    FaultWait,
    /// As the first line: the first listen fails. Elsewhere without effect.
    FaultListen,
}
