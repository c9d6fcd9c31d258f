//! How far a link is.

ghost use Rattle.std.specs.Prelude.{◌≡◌};
ghost use Rattle.hb_model.specs.Discovery.{opened, ended, broken, went, stopped_for, closing};
ghost use Rattle.hb_node.specs.Phases.{phase_of, is_live, is_faulted, end_for};

use hb_base::Cause;

/// How far a link is that was dialled and isn't closed.
#[derive(Clone, Copy)]
pub(crate) enum Phase {
    /// It isn't open yet.
    Dialling,
    /// Bytes may come and go.
    Live,
    /// A connection error of this code was told: what waits may be written once, and the link is to be closed.
    Faulted(u32),
    /// It is to be closed for this cause.
    Ending(Cause),
}

impl Phase {
    /// Whether bytes may come and go.
    pub fn is_live(self) -> bool
        ensures { result ≡ is_live self }
    {
        match self {
            Phase::Live => true,
            _ => false,
        }
    }

    /// Whether a connection error was told, and what waits may be written once.
    pub fn is_faulted(self) -> bool
        ensures { result ≡ is_faulted self }
    {
        match self {
            Phase::Faulted(_) => true,
            _ => false,
        }
    }

    /// The link is open.
    pub fn opened(self) -> Phase
        ensures { phase_of result ≡ opened (phase_of self) }
    {
        match self {
            Phase::Dialling => Phase::Live,
            phase => phase,
        }
    }

    /// Its peer sends no more.
    pub fn ended(self) -> Phase
        ensures { phase_of result ≡ ended (phase_of self) }
    {
        match self {
            Phase::Live => Phase::Ending(Cause::Broken),
            phase => phase,
        }
    }

    /// A call on it failed; behind a connection error that was its last write.
    pub fn broken(self) -> Phase
        ensures { phase_of result ≡ broken (phase_of self) }
    {
        match self {
            Phase::Dialling | Phase::Live => Phase::Ending(Cause::Broken),
            phase => phase.went(),
        }
    }

    /// Bytes of it were written: behind a connection error that is done once.
    pub fn went(self) -> Phase
        ensures { phase_of result ≡ went (phase_of self) }
    {
        match self {
            Phase::Faulted(code) => Phase::Ending(Cause::ConnFault(code)),
            phase => phase,
        }
    }

    /// The run ends for this cause.
    pub fn stopped(self, cause: Cause) -> Phase
        ensures { phase_of result ≡ stopped_for cause (phase_of self) }
    {
        match self {
            Phase::Dialling | Phase::Live => Phase::Ending(cause),
            phase => phase,
        }
    }

    /// Why the link is to be closed. `None` as long as it isn't open yet, or bytes may come and go.
    pub fn closing(self) -> Option<Cause>
        ensures { result ≡ closing (phase_of self) }
    {
        match self {
            Phase::Faulted(code) => Some(Cause::ConnFault(code)),
            Phase::Ending(cause) => Some(cause),
            _ => None,
        }
    }

    /// It ends for this cause, if any; behind a connection error what waits may be written once.
    pub fn end_for(self, end: Option<Cause>) -> Phase
        ensures { result ≡ end_for self end }
    {
        match end {
            None => self,
            Some(Cause::ConnFault(code)) => Phase::Faulted(code),
            Some(cause) => Phase::Ending(cause),
        }
    }
}
