//! The input whose end, or whose first byte, ends a run.

ghost use Rattle.std.specs.Prelude.{◌≡◌, false};
ghost use Rattle.hb_mio.specs.Stop.{waited_of};
ghost use Rattle.hb_mio.specs.declared.stop.Input.TheVariants.{Ignored};
ghost use Rattle.hb_world.specs.Answers.{wait_failed};

use hb_world::Waited;
use mio::unix::SourceFd;
use mio::{Events, Interest, Registry, Token};
use std::io;
use std::os::fd::RawFd;

/// The token of its events, beyond those of links and doors.
const INPUT: Token = Token(usize::MAX - 3);

/// What such an input is to a run.
#[derive(Clone, Copy)]
pub(crate) enum Input {
    /// No run ends by it.
    Ignored,
    /// It neither ended nor had a byte yet.
    Watched,
    /// It ended, or had a byte.
    Ended,
}

/// Begins to watch an input.
///
/// Errors: what the system tells, as of a file or of `/dev/null`, which can't be watched.
pub(crate) fn watch_input(registry: &Registry, input: RawFd) -> io::Result<()> {
    registry.register(&mut SourceFd(&input), INPUT, Interest::READABLE)
}

impl Input {
    /// What it is behind these events. Each event of it tells that it ended or has a byte.
    pub fn behind(self, events: &Events) -> Input
        ensures { self ≡ Ignored → result ≡ Ignored }
    {
        match self {
            Input::Watched if has_input(events) => Input::Ended,
            _ => self,
        }
    }

    /// What a wait answers that didn't fail. Once it ended that is Stop.
    pub fn waited(self, is_due: bool) -> Waited
        ensures told { result ≡ waited_of self is_due }
        ensures well { wait_failed result ≡ false }
    {
        match self {
            Input::Ended => Waited::Stop,
            _ if is_due => Waited::Tick,
            _ => Waited::Woke,
        }
    }
}

/// Whether one of the events is of the input.
fn has_input(events: &Events) -> bool {
    for event in events {
        if event.token() == INPUT {
            return true;
        }
    }
    false
}
