//! What came is looked at.

ghost use Rattle.std.specs.Prelude.{◌≡◌, ◌<◌, true, IfOk, OnOk};
ghost use Rattle.hb_base.specs.declared.cause.Cause.TheVariants as cause;
ghost use Rattle.hb_gate.specs.Hearing.{told_of, bytes_told, look_of, Follows};
ghost use Rattle.hb_gate.specs.Looking.{Looks, is_more, left_to_look};
ghost use Rattle.hb_gate.specs.Streams.{EndsFrom};
ghost use Rattle.hb_gate.specs.declared.phase.Phase.TheVariants.{Closing};

use crate::ending::is_active;
use crate::gate::Gate;
use crate::hearing::{Word, hear};
use crate::phase::Phase;
use hb_base::{Cause, NoMemory};
use hb_conn::Happening;
use hb_headers::status_of;

/// The end of a tunnel, of which its captured link is to be told.
#[derive(Clone, Copy)]
pub struct Mail {
    /// The stream that carried it.
    pub stream: u32,
    /// The captured link.
    pub link: u64,
    pub cause: Cause,
    /// How many of its bytes have begun to go; the count stops at 2^64 - 1.
    pub begun: u64,
}

/// What was found where it was looked at what came.
#[derive(Clone, Copy)]
pub enum Look {
    /// All that came was looked at.
    Nothing,
    /// Something that no tunnel is told at once.
    Passed,
    /// The tunnel of the captured link on the stream is open; `end`: and the gateway ended its side.
    Opens { stream: u32, link: u64, end: bool },
    /// Bytes came on it.
    Brings { stream: u32, link: u64 },
    /// The gateway ended its side.
    Ends { stream: u32, link: u64 },
    /// It ends.
    Fails(Mail),
    /// Memory lacks for a header block: the link is to be closed, and each tunnel to be told its end.
    Lacked,
}

/// What is told of the connection, as its streams hear it.
#[derive(Clone, Copy)]
enum Told {
    Nothing,
    /// This is told of a stream.
    Of { stream: u32, word: Word },
    /// The gateway takes no streams above this one.
    Away { last: u32 },
    /// A connection error of this code.
    Fault { code: u32 },
}

/// What is told, as the streams hear it.
fn told_of(told: Option<Happening<'_>>) -> Told
    ensures { result ≡ told_of told.entry }
{
    match told {
        None => Told::Nothing,
        Some(
            Happening::Opened {
                stream,
                headers,
                end,
            },
        ) => Told::Of {
            stream,
            word: Word::Headers {
                status: status_of(headers.kept.as_slice()),
                end,
            },
        },
        Some(Happening::Chunk { stream, .. }) => Told::Of {
            stream,
            word: Word::Data,
        },
        Some(Happening::Ended { stream }) => Told::Of {
            stream,
            word: Word::End,
        },
        Some(Happening::Reset { stream, code }) => Told::Of {
            stream,
            word: Word::Gone(Cause::PeerReset(code)),
        },
        Some(Happening::Broken { stream, code }) => Told::Of {
            stream,
            word: Word::Gone(Cause::StreamFault(code)),
        },
        Some(Happening::GoneAway { last }) => Told::Away { last },
        Some(Happening::Fault { code }) => Told::Fault { code },
    }
}

/// The bytes that are told stand in `bytes` alone.
///
/// Errors: `NoMemory`.
fn keep(told: Option<Happening<'_>>, bytes: &mut Vec<u8>) -> Result<(), NoMemory>
    ensures { OnOk result (bytes.new.items ≡ bytes_told told.entry) }
{
    bytes.clear();
    match told {
        Some(Happening::Chunk { bytes: came, .. }) => bytes.extend_from_slice(came),
        _ => Ok(()),
    }
}

impl Gate {
    /// What the link makes of what is told of its connection.
    fn follow(&mut self, told: Told) -> Look
        ensures look { result ≡ look_of told self.old.streams }
        ensures follows { Follows told self.old self.new }
    {
        match told {
            Told::Nothing => Look::Nothing,
            Told::Of { stream, word } => {
                let active = is_active(&self.conn, stream);
                hear(&mut self.streams, stream, word, active)
            }
            Told::Away { last } => {
                self.away = true;
                self.end_above(last, Cause::GoneAway);
                Look::Passed
            }
            Told::Fault { code } => {
                self.phase = Phase::Faulted(code);
                self.end_all(Cause::ConnFault(code));
                Look::Passed
            }
        }
    }

    /// Memory lacks for a header block: the link is to be closed for that, and all tunnels end.
    fn lack(&mut self)
        ensures streams { EndsFrom 0 cause.NoMemory self.old.streams self.new.streams }
        ensures rest { self.new ≡ record self.old { phase = Closing cause.NoMemory; streams = self.new.streams } }
    {
        self.phase = Phase::Closing(Cause::NoMemory);
        self.end_all(Cause::NoMemory);
    }

    /// Looks at what happens next; bytes that are brought stand in `bytes`. Each tunnel has to be told its end before, and each stream to
    /// be reset that is to be.
    ///
    /// Errors: `NoMemory`, where bytes that came have no room in `bytes`; the run ends behind it.
    pub fn look(&mut self, bytes: &mut Vec<u8>) -> Result<Look, NoMemory>
        ensures looks { IfOk result (λ look. Looks look bytes.new.items self.old self.new) }
        ensures falls { IfOk result (λ look. is_more look ≡ true → left_to_look self.new < left_to_look self.old) }
    {
        let told = match self.conn.next_happening() {
            Ok(told) => told,
            Err(NoMemory) => {
                self.lack();
                return Ok(Look::Lacked);
            }
        };
        keep(told, bytes)?;
        let told = told_of(told);
        Ok(self.follow(told))
    }
}
