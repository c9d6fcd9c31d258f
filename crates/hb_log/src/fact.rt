//! What the log tells.

use hb_base::{Cause, Door, Target};

/// Whom a link leads to, of those that the log tells.
#[derive(Clone, Copy)]
pub(crate) enum Party {
    /// The control plane.
    Control,
    /// The gateway of another node.
    Gateway,
}

/// What a link is to the log.
#[derive(Clone, Copy)]
pub(crate) enum Kind {
    /// It was dialled.
    To(Party),
    /// It was accepted at this door.
    At(Door),
}

/// A fact that is told in a line.
#[derive(Clone, Copy)]
pub(crate) enum Fact {
    Listens {
        door: Door,
        at: Target,
    },
    /// A link is begun, at this attempt in a row.
    Dialled {
        party: Party,
        link: u64,
        to: Target,
        attempt: u64,
    },
    /// None is, at this attempt in a row.
    DialFailed {
        party: Party,
        to: Target,
        attempt: u64,
    },
    Opened {
        party: Party,
        link: u64,
    },
    Ended {
        party: Party,
        link: u64,
        cause: Cause,
    },
    /// An outbound link goes straight to this address.
    Way {
        link: u64,
        to: Target,
    },
    /// A link of a door is closed.
    Closed {
        link: u64,
        door: Door,
        cause: Cause,
    },
    /// So many more are, which aren't told.
    More {
        count: u64,
    },
}
