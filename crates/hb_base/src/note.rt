//! What is told to the audits.

ghost use Rattle.std.specs.Prelude.{◌≡◌, IfOk};

use crate::cause::Cause;
use crate::or::NoMemory;
use crate::peer::Peer;
use crate::target::Target;
use std::alloc::Global;

/// A note for the audits.
#[derive(Drop)]
pub enum Note {
    /// A request was answered with this HTTP status, 0 where it was malformed. A link that is not HTTP/2
    /// has stream 0.
    Verdict {
        link: u64,
        stream: u32,
        status: u16,
        peer: Peer,
        target: Option<Target>,
    },
    /// A tunnel that had been admitted ended, after so many bytes to its upstream side and back.
    End {
        link: u64,
        stream: u32,
        cause: Cause,
        up: u64,
        down: u64,
    },
}

impl Note {
    /// The same note, in memory of its own.
    ///
    /// Errors: `NoMemory`.
    pub fn copy(&self, alloc: Global) -> Result<Note, NoMemory>
        ensures { IfOk result (λ r. r ≡ self.now) }
    {
        Ok(match self {
            Note::Verdict {
                link,
                stream,
                status,
                peer,
                target,
            } => Note::Verdict {
                link: *link,
                stream: *stream,
                status: *status,
                peer: peer.copy(alloc)?,
                target: *target,
            },
            Note::End {
                link,
                stream,
                cause,
                up,
                down,
            } => Note::End {
                link: *link,
                stream: *stream,
                cause: *cause,
                up: *up,
                down: *down,
            },
        })
    }
}
