//! How a run ended, and what it did.

ghost use Rattle.std.specs.Prelude.{◌≡◌};
ghost use Rattle.hb_turns.specs.Served.{nothing_done};

/// How a run ended.
#[derive(Clone, Copy)]
pub enum ServeEnd {
    /// A wait told a stop, or the stated ticks passed.
    Stopped,
    /// A listen or a wait failed.
    WorldFault,
    TurnsSpent,
    NoMemory,
}

/// What a run did, in numbers. Each stops at 2^64 - 1.
#[derive(Clone, Copy)]
pub struct Totals {
    /// The links that were born.
    pub links: u64,
    /// The tunnels that were let through.
    pub accepted: u64,
    /// The dialled links that an update of the policies closed.
    pub revoked: u64,
    /// The bytes that the tunnels that ended had passed up.
    pub up: u64,
    /// The bytes that the tunnels that ended had passed down.
    pub down: u64,
    /// A tunnel was answered 500: memory was wanting for it.
    pub lacked: bool,
}

/// A run that ended.
#[derive(Clone, Copy)]
pub struct Served {
    pub end: ServeEnd,
    pub totals: Totals,
    /// A link was closed for want of memory.
    pub wanting: bool,
    /// Memory lacked for a note that the run's end made, or 2^64 - 1 closes were due in a row.
    pub unkept: bool,
}

impl Served {
    /// Memory lacked before anything was done.
    pub fn nothing() -> Served
        ensures { result ≡ nothing_done }
    {
        Served {
            end: ServeEnd::NoMemory,
            totals: Totals {
                links: 0,
                accepted: 0,
                revoked: 0,
                up: 0,
                down: 0,
                lacked: false,
            },
            wanting: false,
            unkept: false,
        }
    }
}
