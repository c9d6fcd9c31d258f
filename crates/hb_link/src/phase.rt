//! How far a link is.

ghost use Rattle.std.specs.Prelude.{◌≡◌};
ghost use Rattle.hb_inbound.specs.Calm.{close_due};
ghost use Rattle.hb_inbound.specs.Inbound.{stops_by};
ghost use Rattle.hb_link.specs.Observed.{serves_in};
ghost use Rattle.hb_link.specs.Tunnels.{phase_of};

use hb_base::Cause;

/// How far an inbound link is that was taken in.
#[derive(Clone, Copy)]
pub enum Phase {
    /// Its front header isn't whole.
    Fronting,
    /// It is an HTTP/2 connection.
    Serving,
    /// A connection error of this code was told: what waits may be written once, and the link is to be closed.
    Faulted(u32),
    /// It is to be closed for this cause.
    Closing(Cause),
    Closed,
}

impl Phase {
    /// It is an HTTP/2 connection.
    pub fn is_serving(self) -> bool
        ensures { result ≡ serves_in self }
    {
        matches!(self, Phase::Serving)
    }

    /// How far a link is behind the end of the run, for a cause: it is to be closed, where it isn't already.
    pub fn stopped(self, cause: Cause) -> Phase
        ensures { phase_of result ≡ stops_by cause (phase_of self) }
    {
        match self {
            Phase::Fronting | Phase::Serving => Phase::Closing(cause),
            phase => phase,
        }
    }

    /// Why it is to be closed. `None` where it isn't.
    pub fn close_due(self) -> Option<Cause>
        ensures { result ≡ close_due (phase_of self) }
    {
        match self {
            Phase::Closing(cause) => Some(cause),
            Phase::Faulted(code) => Some(Cause::ConnFault(code)),
            _ => None,
        }
    }
}
