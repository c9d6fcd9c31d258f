//! How a run ended.

ghost use Rattle.std.specs.Prelude.{◌≡◌};
ghost use Rattle.hb_cli.specs.Ended.{ended_as};

use hb_turns::{ServeEnd, Served};

/// How a run ended.
#[derive(Clone, Copy)]
pub enum ReplayEnd {
    /// A wait told a stop, as it does behind a script's last line, or the stated ticks passed.
    Stopped,
    /// A listen or a wait failed.
    WorldFault,
    TurnsSpent,
}

/// How a run ended in which memory never lacked, for a link, for a request or for its notes; `None` where it did.
pub fn ended_as(served: &Served) -> Option<ReplayEnd>
    ensures { result ≡ ended_as served.now }
{
    if served.wanting || served.totals.lacked || served.unkept {
        return None;
    }
    match served.end {
        ServeEnd::Stopped => Some(ReplayEnd::Stopped),
        ServeEnd::WorldFault => Some(ReplayEnd::WorldFault),
        ServeEnd::TurnsSpent => Some(ReplayEnd::TurnsSpent),
        ServeEnd::NoMemory => None,
    }
}
