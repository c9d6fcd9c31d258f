//! Why a tunnel ended, or a link was closed.

ghost use Rattle.std.specs.Prelude.{◌≡◌};
ghost use Rattle.hb_base.specs.CauseText.{word_of, number_of};

/// The cause of the end of a tunnel or a link. HTTP/2 error codes are those of RFC 9113 section 7.
#[derive(Clone, Copy)]
pub enum Cause {
    /// Both sides ended and all bytes went through.
    Done,
    /// The peer reset its stream, with this error code.
    PeerReset(u32),
    /// The peer's link ended or broke before the tunnel was done.
    PeerGone,
    /// The upstream link failed to open, or broke.
    UpFault,
    /// The gateway answered with this status.
    UpRefused(u32),
    /// A connection error of this code.
    ConnFault(u32),
    /// A stream error of this code.
    StreamFault(u32),
    /// The other end went away (GOAWAY) before it took the stream.
    GoneAway,
    /// An update of the policies no longer admits it.
    Revoked,
    /// The front's header has this fault; 0 where it ended before it was whole.
    FrontFault(u32),
    /// A link that speaks no HTTP was refused with this status.
    Refused(u32),
    /// No route was found, for this reason.
    NoRoute(u32),
    /// No room for one more tunnel.
    NoRoom,
    /// Discovery broke its protocol.
    Discovery,
    /// A link that carries no single tunnel failed to open, or broke.
    Broken,
    /// The run ended.
    Stopped,
    /// Want of memory.
    NoMemory,
}

impl Cause {
    /// The cause in words, without its number.
    pub fn word(&self) -> &str
        ensures { result.now ≡ word_of self.now }
    {
        match self {
            Cause::Done => "done",
            Cause::PeerReset(_) => "peer reset",
            Cause::PeerGone => "peer gone",
            Cause::UpFault => "up fault",
            Cause::UpRefused(_) => "up refused",
            Cause::ConnFault(_) => "conn fault",
            Cause::StreamFault(_) => "stream fault",
            Cause::GoneAway => "gone away",
            Cause::Revoked => "revoked",
            Cause::FrontFault(_) => "front fault",
            Cause::Refused(_) => "refused",
            Cause::NoRoute(_) => "no route",
            Cause::NoRoom => "no room",
            Cause::Discovery => "discovery",
            Cause::Broken => "broken",
            Cause::Stopped => "stopped",
            Cause::NoMemory => "no memory",
        }
    }

    /// The cause's number: an error code, a status, a fault or a reason. `None` for each cause that has no number in
    /// its variant.
    pub fn number(&self) -> Option<u32>
        ensures { result ≡ number_of self.now }
    {
        match self {
            Cause::PeerReset(n)
            | Cause::UpRefused(n)
            | Cause::ConnFault(n)
            | Cause::StreamFault(n)
            | Cause::FrontFault(n)
            | Cause::Refused(n)
            | Cause::NoRoute(n) => Some(*n),
            Cause::Done
            | Cause::PeerGone
            | Cause::UpFault
            | Cause::GoneAway
            | Cause::Revoked
            | Cause::NoRoom
            | Cause::Discovery
            | Cause::Broken
            | Cause::Stopped
            | Cause::NoMemory => None,
        }
    }
}
