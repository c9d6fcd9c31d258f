//! What the tunnel on a stream hears (RFC 9113 section 8.5).

ghost use Rattle.std.specs.Prelude.{◌≡◌, Some};
ghost use Rattle.std.specs.FinMap.{get};
ghost use Rattle.hb_base.specs.declared.cause.Cause.TheVariants as cause;
ghost use Rattle.hb_frames.specs.Numbers.{protocol_error};
ghost use Rattle.hb_gateway.specs.Response.{answered, fails};
ghost use Rattle.hb_gate.specs.Hearing.{reply_for, reply_of, settled, look_by, left_by, look_here, left_here};
ghost use Rattle.hb_gate.specs.Streams.{ChangesAt};
ghost use Rattle.hb_gate.specs.declared.hearing.Reply.TheVariants as reply;
ghost use Rattle.hb_gate.specs.declared.stream.Stage.TheVariants.{Over};

use crate::ending::CANCEL;
use crate::looking::{Look, Mail};
use crate::stream::{Stage, Stream};
use hb_base::Cause;
use hb_counted::Counted;
use hb_frames::numbers::PROTOCOL_ERROR;

/// What is told of one stream.
#[derive(Clone, Copy)]
pub(crate) enum Word {
    /// Headers with this status; `end`: and the gateway ended its side.
    Headers { status: Option<u32>, end: bool },
    Data,
    End,
    /// It is no more, for this cause.
    Gone(Cause),
}

/// What the tunnel on the stream hears.
#[derive(Clone, Copy)]
pub(crate) enum Reply {
    Passes,
    Opens { end: bool },
    Brings,
    Ends,
    /// It ends for this cause, and its stream is at this stage then.
    Fails { stage: Stage, cause: Cause },
}

/// What headers on a stream that is asked mean: a status from 100 to 199 is passed over (RFC 9110 section 15.2), but where the stream ends
/// with it.
fn answer(status: Option<u32>, end: bool) -> Reply
    ensures { result ≡ reply_for (answered status end) }
{
    let Some(status) = status else {
        return refusal(0);
    };
    if 200 <= status && status < 300 {
        Reply::Opens { end }
    } else if status < 100 || 200 <= status {
        refusal(status)
    } else if end {
        refusal(0)
    } else {
        Reply::Passes
    }
}

/// The tunnel is refused, by the number that its cause names.
fn refusal(number: u32) -> Reply
    ensures { result ≡ reply_for (Some (fails (cause.UpRefused number))) }
{
    Reply::Fails {
        stage: Stage::Failing(CANCEL),
        cause: Cause::UpRefused(number),
    }
}

/// What may not come there.
fn fault() -> Reply
    ensures { result ≡ reply_for (Some (fails (cause.StreamFault protocol_error))) }
{
    Reply::Fails {
        stage: Stage::Failing(CANCEL),
        cause: Cause::StreamFault(PROTOCOL_ERROR),
    }
}

/// The stream is no more.
fn gone(cause: Cause) -> Reply
    ensures { result ≡ reply.Fails Over cause }
{
    Reply::Fails {
        stage: Stage::Over,
        cause,
    }
}

/// How far a stream is then: one that is to be reset is over where no side of it is open, since nothing may be sent on it (RFC 9113 section
/// 5.1).
fn settle(active: bool, stage: Stage) -> Stage
    ensures { result ≡ settled active stage }
{
    match stage {
        Stage::Failing(_) if !active => Stage::Over,
        _ => stage,
    }
}

/// What the tunnel on a stream at this stage hears.
fn reply_at(stage: Stage, word: Word) -> Reply
    ensures { result ≡ reply_of stage word }
{
    match (stage, word) {
        (Stage::Asked, Word::Headers { status, end }) => answer(status, end),
        (Stage::Asked, Word::Data) => fault(),
        (Stage::Asked, Word::End) => refusal(0),
        (Stage::Asked, Word::Gone(cause)) => gone(cause),
        (Stage::Carrying, Word::Headers { .. }) => fault(),
        (Stage::Carrying, Word::Data) => Reply::Brings,
        (Stage::Carrying, Word::End) => Reply::Ends,
        (Stage::Carrying, Word::Gone(cause)) => gone(cause),
        _ => Reply::Passes,
    }
}

impl Stream {
    /// What is told then of the tunnel on this stream, of which the number is given, and whether a side of it is open.
    fn hears(&mut self, number: u32, word: Word, active: bool) -> Look
        ensures look { result ≡ look_by (reply_of self.old.stage word) number self.old }
        ensures stream { self.new ≡ left_by active (reply_of self.old.stage word) self.old }
    {
        match reply_at(self.stage, word) {
            Reply::Passes => Look::Passed,
            Reply::Opens { end } => {
                self.stage = Stage::Carrying;
                Look::Opens {
                    stream: number,
                    link: self.link,
                    end,
                }
            }
            Reply::Brings => Look::Brings {
                stream: number,
                link: self.link,
            },
            Reply::Ends => Look::Ends {
                stream: number,
                link: self.link,
            },
            Reply::Fails { stage, cause } => {
                self.stage = settle(active, stage);
                Look::Fails(Mail {
                    stream: number,
                    link: self.link,
                    cause,
                    begun: self.begun,
                })
            }
        }
    }
}

/// What is told then of the tunnel on a stream, of which a side is open or not. Of a stream of which nothing is left no more is kept.
pub(crate) fn hear(streams: &mut Counted<Stream>, number: u32, word: Word, active: bool) -> Look
    ensures look { result ≡ look_here number word (get streams.old number) }
    ensures streams { ChangesAt number (left_here active word (get streams.old number)) streams.old streams.new }
{
    let Some(stream) = streams.at(number) else {
        return Look::Passed;
    };
    let look = stream.hears(number, word, active);
    if stream.is_left() {
        streams.remove(number);
    }
    look
}
