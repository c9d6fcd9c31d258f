//! The two sides of a stream.

ghost use Rattle.std.specs.Prelude.{◌≡◌};
ghost use Rattle.hb_streams.specs.Sides.{both_open, state_with};

use crate::state::State;

/// Which sides of a stream are open, that is, may still send DATA or HEADERS (RFC 9113 section 5.1).
#[derive(Clone, Copy)]
pub struct Sides {
    /// This end's side.
    pub own: bool,
    /// The peer's side.
    pub peer: bool,
}

impl Sides {
    pub(crate) fn state(self) -> State
        ensures { result ≡ state_with self }
    {
        match (self.own, self.peer) {
            (true, true) => State::Open,
            (false, true) => State::HalfClosedLocal,
            (true, false) => State::HalfClosedRemote,
            (false, false) => State::Closed,
        }
    }
}
