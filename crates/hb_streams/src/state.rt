//! The state of a stream.

ghost use Rattle.std.specs.Prelude.{◌≡◌};
ghost use Rattle.hb_streams.specs.Sides.{sides_of};

use crate::sides::Sides;

/// The states of a stream (RFC 9113 section 5.1) but the reserved ones, which need pushed responses.
#[derive(Clone, Copy)]
pub enum State {
    Idle,
    Open,
    /// This end has ended its side.
    HalfClosedLocal,
    /// The peer has ended its side.
    HalfClosedRemote,
    /// Closed by both sides or by the peer's RST_STREAM, passed over, or reset by this end long ago.
    Closed,
    /// Closed, and among the last 128 streams that this end reset: what the peer sent before it knew may still come.
    Reset,
}

impl State {
    pub(crate) fn sides(self) -> Sides
        ensures { result ≡ sides_of self }
    {
        let (own, peer) = match self {
            State::Open => (true, true),
            State::HalfClosedLocal => (false, true),
            State::HalfClosedRemote => (true, false),
            State::Idle | State::Closed | State::Reset => (false, false),
        };
        Sides { own, peer }
    }
}
