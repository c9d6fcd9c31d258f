//! What a call of the world did, as an entry of its trace.

use hb_base::{Bytes, Cause, Door, List, Target, Why};

/// A call that moves nothing.
#[derive(Clone, Copy)]
pub enum Way {
    /// A listen, and whether the door is listening.
    Listen(Door, Target, bool),
    /// An accept that gave no link.
    Accept(Door),
    Finish(u64),
    Read(u64),
    Write(u64),
    /// A look at a link that found it fine.
    Look(u64),
}

/// A door or a link at which something may be done.
#[derive(Clone, Copy)]
pub enum ReadyItem {
    Door(Door),
    Link(u64),
}

/// Why a wait ended, or that it was none.
#[derive(Clone, Copy)]
pub enum Woken {
    Woke,
    Tick,
    Stop,
    Failed,
    /// Nothing: it was a glance, which doesn't wait.
    Glanced,
    /// Nothing: it was a glance, and that failed.
    GlanceFailed,
}

/// An entry of a trace, which is the list of what the calls of a world did. Links are numbered from 1 in
/// order of birth; a link lives from its birth to its `Closed`.
#[derive(Drop)]
pub enum Entry {
    /// A link was born at a door.
    Accepted(u64, Door),
    /// A link was born by a dial.
    Dialled(u64, Target, Why),
    DialFailed(Target, Why),
    /// A dialled link is open.
    Opened(u64),
    /// These bytes were read.
    Came(u64, Bytes),
    /// The link's peer sends no more.
    Ended(u64),
    /// A finish, read, write or look failed.
    Broke(u64),
    /// These bytes were written.
    Went(u64, Bytes),
    /// A call moved nothing.
    Balked(Way),
    /// No more is written to the link.
    Shut(u64),
    Closed(u64, Cause),
    /// Time passed; it stands behind a wait or a glance that answered Tick.
    Tick,
    /// A wait or a glance, with what it found ready.
    Wait(List<ReadyItem>, Woken),
}
