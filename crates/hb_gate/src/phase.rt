//! How far a link is.

ghost use Rattle.std.specs.Prelude.{◌≡◌};
ghost use Rattle.hb_gateway.specs.Calm.{close_due};
ghost use Rattle.hb_gateway.specs.Gateway.{break_cause, broken_by, carries, stops_by};
ghost use Rattle.hb_gate.specs.Phases.{is_serving, phase_of};

use hb_base::Cause;

/// How far a link to a gateway is.
#[derive(Clone, Copy)]
pub(crate) enum Phase {
    /// It is dialled, and not open yet.
    Opening,
    /// Bytes come and go.
    Serving,
    /// A connection error of this code was told: what waits may be written once, and the link is to be closed.
    Faulted(u32),
    /// It is to be closed for this cause.
    Closing(Cause),
    Closed,
}

impl Phase {
    /// Bytes come and go.
    pub fn is_serving(self) -> bool
        ensures { result ≡ is_serving self }
    {
        matches!(self, Phase::Serving)
    }

    /// Streams are asked for and used.
    pub fn carries(self) -> bool
        ensures { result ≡ carries (phase_of self) }
    {
        match self {
            Phase::Opening | Phase::Serving => true,
            _ => false,
        }
    }

    /// Behind a call that failed.
    pub fn broken(self) -> Phase
        ensures { phase_of result ≡ broken_by (phase_of self) }
    {
        match self {
            Phase::Opening | Phase::Serving => Phase::Closing(Cause::Broken),
            Phase::Faulted(code) => Phase::Closing(Cause::ConnFault(code)),
            phase => phase,
        }
    }

    /// Why the tunnels of a link end that broke.
    pub fn break_cause(self) -> Cause
        ensures { result ≡ break_cause (phase_of self) }
    {
        match self {
            Phase::Opening => Cause::UpFault,
            _ => Cause::PeerGone,
        }
    }

    /// Behind the end of the run, for a cause.
    pub fn stopped(self, cause: Cause) -> Phase
        ensures { phase_of result ≡ stops_by cause (phase_of self) }
    {
        match self {
            Phase::Opening | Phase::Serving => Phase::Closing(cause),
            phase => phase,
        }
    }

    /// Why it is to be closed. `None` where it isn't.
    pub fn close_due(self) -> Option<Cause>
        ensures { result ≡ close_due (phase_of self) }
    {
        match self {
            Phase::Closing(cause) => Some(cause),
            Phase::Faulted(code) => Some(Cause::ConnFault(code)),
            _ => None,
        }
    }
}
