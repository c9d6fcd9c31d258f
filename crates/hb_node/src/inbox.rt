//! What comes on the one stream of a link to the control plane.

ghost use Rattle.std.specs.Prelude.{◌≡◌, ◌≤◌, [], length, drop, IfOk, IfSome};
ghost use Rattle.hb_grpc.specs.Reading.{fed};
ghost use Rattle.hb_model.specs.Discovery.{end_by_headers, longest_message};
ghost use Rattle.hb_node.specs.Judging.{seen};
ghost use Rattle.hb_node.specs.Inbox.{TellsNext, TakesMessage, TakesFront, IsWithin, TakesAll, HearsData, Hears, ends, heard_of, headers_heard};

use crate::judge::Judge;
use crate::queue::Queue;
use crate::requests::add_answer;
use hb_base::{Bytes, Cause, NoMemory, Or};
use hb_conn::Happening;
use hb_disco::{LONGEST_MESSAGE, read_response};
use hb_grpc::{Fed, Framer, GrpcFault};
use hb_headers::status_of;
use hb_held::Held;
use hb_hpack::Header;
use std::alloc::Global;

/// The one stream of the link.
pub(crate) const STREAM: u32 = 1;

/// A part of a message, and the bytes of requests that no DATA frame has yet.
#[derive(Drop)]
pub(crate) struct Inbox {
    pub framer: Framer,
    pub waiting: Queue,
}

/// What stands in front of DATA.
#[derive(Clone, Copy)]
enum Front {
    /// A response in so many bytes, which was applied.
    Applied(usize),
    /// A message that is no response, or no message.
    Refused,
    /// No whole message: what is there is kept.
    Lacking,
}

/// What was heard of a connection.
#[derive(Clone, Copy)]
pub(crate) struct Heard {
    /// More may be told.
    pub more: bool,
    /// A status 200 came.
    pub accepted: bool,
    /// Why the link ends, if it does.
    pub end: Option<Cause>,
    /// How many octets of DATA came.
    pub counted: usize,
}

/// The message in front of DATA, and how many bytes it takes; None where no whole one is there, and DATA is kept.
fn next_message(framer: &mut Framer, chunk: &[u8]) -> Result<Option<(usize, Bytes)>, Or<GrpcFault>>
    ensures told { TellsNext framer.old chunk.now result }
    ensures after { IfOk result (λ _. framer.new ≡ fed framer.old chunk.now) }
    ensures within { IfOk result (λ next. IfSome next (λ given. given.0 ≤ length chunk.now)) }
{
    match framer.feed(chunk) {
        Ok(
            Fed {
                taken,
                message: Some(message),
            },
        ) => Ok(Some((taken, message))),
        Ok(Fed { message: None, .. }) => Ok(None),
        Err(why) => Err(why),
    }
}

/// What is behind the first `n` bytes.
fn behind(bytes: &[u8], n: usize) -> &[u8]
    requires { n ≤ length bytes.now }
    ensures { result.now ≡ drop n bytes.now }
{
    &bytes[n..]
}

/// Why headers of this status end the link, if they do: behind a status 200 only by the stream's end; a status below 200 is
/// passed over (RFC 9110 section 15.2).
fn end_by_headers(answered: bool, status: Option<u32>, end: bool) -> Option<Cause>
    ensures { result ≡ end_by_headers answered status end }
{
    if end {
        return Some(Cause::Discovery);
    }
    match status {
        _ if answered => None,
        Some(100..=200) => None,
        _ => Some(Cause::Discovery),
    }
}

impl Heard {
    fn end(end: Option<Cause>) -> Heard
        ensures { result ≡ ends end }
    {
        Heard {
            more: true,
            accepted: false,
            end,
            counted: 0,
        }
    }

    fn headers(answered: bool, headers: &[Header], end: bool) -> Heard
        ensures { result ≡ headers_heard answered headers.now end }
    {
        let status = status_of(headers);
        Heard {
            more: true,
            accepted: status == Some(200),
            end: end_by_headers(answered, status, end),
            counted: 0,
        }
    }
}

impl Inbox {
    /// No byte has come, and no answer waits.
    pub fn new(alloc: Global) -> Inbox
        ensures { result ≡ record { framer = record { limit = longest_message; held = [] }; waiting = [] } }
    {
        Inbox {
            framer: Framer::new(alloc, LONGEST_MESSAGE),
            waiting: Queue::new(alloc),
        }
    }

    /// Applies a message, if it is a response, answers it, and shows what is held then.
    fn take_message<J: Judge>(
        &mut self,
        alloc: Global,
        held: &mut Held,
        judge: &mut J,
        message: &[u8],
    ) -> Result<bool, NoMemory>
        ensures { IfOk result (λ took. TakesMessage J.judges (seen held.old judge.old) self.old message.now took
            (seen held.new judge.new) self.new) }
    {
        match read_response(alloc, message) {
            Ok(response) => {
                let outcome = held.apply(alloc, &response)?;
                add_answer(alloc, &response, &outcome, &mut self.waiting)?;
                judge.applied(held, response.kind, outcome);
                Ok(true)
            }
            Err(Or::Fault(_)) => Ok(false),
            Err(Or::NoMemory) => Err(NoMemory),
        }
    }

    /// Takes the message in front of DATA.
    fn take_front<J: Judge>(
        &mut self,
        alloc: Global,
        held: &mut Held,
        judge: &mut J,
        chunk: &[u8],
    ) -> Result<Front, NoMemory>
        ensures told { IfOk result (λ front. TakesFront J.judges (seen held.old judge.old) self.old chunk.now front
            (seen held.new judge.new) self.new) }
        ensures within { IfOk result (λ front. IsWithin front chunk.now) }
    {
        match next_message(&mut self.framer, chunk) {
            Ok(Some((taken, message))) => {
                if self.take_message(alloc, held, judge, message.as_slice())? {
                    Ok(Front::Applied(taken))
                } else {
                    Ok(Front::Refused)
                }
            }
            Ok(None) => Ok(Front::Lacking),
            Err(Or::Fault(_)) => Ok(Front::Refused),
            Err(Or::NoMemory) => Err(NoMemory),
        }
    }

    /// Takes all messages of DATA; false where one is refused.
    fn take_chunk<J: Judge>(
        &mut self,
        alloc: Global,
        held: &mut Held,
        judge: &mut J,
        chunk: &[u8],
    ) -> Result<bool, NoMemory>
        ensures { IfOk result (λ whole. TakesAll J.judges (seen held.old judge.old) self.old chunk.now whole
            (seen held.new judge.new) self.new) }
    {
        let mut left = chunk;
        loop {
            match self.take_front(alloc, held, judge, left)? {
                Front::Applied(taken) => left = behind(left, taken),
                Front::Refused => return Ok(false),
                Front::Lacking => return Ok(true),
            }
        }
    }

    fn hear_chunk<J: Judge>(
        &mut self,
        alloc: Global,
        held: &mut Held,
        judge: &mut J,
        chunk: &[u8],
    ) -> Result<Heard, NoMemory>
        ensures { IfOk result (λ heard. HearsData J.judges (seen held.old judge.old) self.old chunk.now heard
            (seen held.new judge.new) self.new) }
    {
        if chunk.is_empty() {
            return Ok(Heard::end(None));
        }
        let whole = self.take_chunk(alloc, held, judge, chunk)?;
        Ok(Heard {
            counted: chunk.len(),
            ..Heard::end(if whole { None } else { Some(Cause::Discovery) })
        })
    }

    /// What is told of a connection: DATA is taken, and a message that it completes applied to what is held.
    ///
    /// Errors: `NoMemory`, after which the inbox isn't used again.
    pub fn hear<J: Judge>(
        &mut self,
        alloc: Global,
        held: &mut Held,
        judge: &mut J,
        answered: bool,
        told: Option<Happening<'_>>,
    ) -> Result<Heard, NoMemory>
        ensures { IfOk result (λ heard. Hears J.judges (seen held.old judge.old) self.old answered told.entry heard
            (seen held.new judge.new) self.new) }
    {
        match told {
            None => Ok(Heard {
                more: false,
                ..Heard::end(None)
            }),
            Some(Happening::Opened { headers, end, .. }) => {
                Ok(Heard::headers(answered, headers.kept.as_slice(), end))
            }
            Some(Happening::Chunk { bytes, .. }) => self.hear_chunk(alloc, held, judge, bytes),
            Some(Happening::Ended { .. } | Happening::Reset { .. } | Happening::Broken { .. }) => {
                Ok(Heard::end(Some(Cause::Discovery)))
            }
            Some(Happening::GoneAway { last }) => Ok(Heard::end(if last < STREAM {
                Some(Cause::GoneAway)
            } else {
                None
            })),
            Some(Happening::Fault { code }) => Ok(Heard::end(Some(Cause::ConnFault(code)))),
        }
    }
}
