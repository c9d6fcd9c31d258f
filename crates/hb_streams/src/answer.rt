//! What a frame is answered in each state of its stream.

ghost use Rattle.std.specs.Prelude.{◌≡◌};
ghost use Rattle.hb_streams.specs.Answers.{connection_error, stream_error, data_answer, begin_answer, more_headers_answer};
ghost use Rattle.hb_streams.specs.Answers.{headers_answer, control_answer};

use crate::fault::StreamFault;
use crate::role::Role;
use crate::state::State;
use crate::step::Step;
use hb_base::Scope;
use hb_frames::numbers::{PROTOCOL_ERROR, REFUSED_STREAM, STREAM_CLOSED};

fn connection_error(code: u32) -> Result<Step, StreamFault>
    ensures { result ≡ connection_error code }
{
    Err(StreamFault {
        code,
        scope: Scope::Connection,
    })
}

fn stream_error(stream: u32, code: u32) -> Result<Step, StreamFault>
    ensures { result ≡ stream_error stream code }
{
    Err(StreamFault {
        code,
        scope: Scope::Stream(stream),
    })
}

/// DATA (RFC 9113 section 6.1).
pub(crate) fn on_data(stream: u32, state: State) -> Result<Step, StreamFault>
    ensures { result ≡ data_answer stream state }
{
    match state {
        State::Idle => connection_error(PROTOCOL_ERROR),
        State::Open | State::HalfClosedLocal => Ok(Step::Goes),
        State::HalfClosedRemote => stream_error(stream, STREAM_CLOSED),
        State::Closed => connection_error(STREAM_CLOSED),
        State::Reset => Ok(Step::Ignored),
    }
}

/// HEADERS on an idle stream.
fn on_first_headers(role: Role, full: bool, stream: u32) -> Result<Step, StreamFault>
    ensures { result ≡ begin_answer role full stream }
{
    match role {
        Role::Client => connection_error(PROTOCOL_ERROR),
        Role::Server if stream % 2 == 0 => connection_error(PROTOCOL_ERROR),
        Role::Server if full => stream_error(stream, REFUSED_STREAM),
        Role::Server => Ok(Step::New),
    }
}

/// HEADERS on a stream whose peer's side is open.
fn on_more_headers(role: Role, stream: u32) -> Result<Step, StreamFault>
    ensures { result ≡ more_headers_answer role stream }
{
    match role {
        Role::Client => Ok(Step::Goes),
        Role::Server => stream_error(stream, PROTOCOL_ERROR),
    }
}

/// HEADERS with its whole field block (RFC 9113 section 6.2).
pub(crate) fn on_headers(
    role: Role,
    full: bool,
    stream: u32,
    state: State,
) -> Result<Step, StreamFault>
    ensures { result ≡ headers_answer role full stream state }
{
    match state {
        State::Idle => on_first_headers(role, full, stream),
        State::Open | State::HalfClosedLocal => on_more_headers(role, stream),
        State::HalfClosedRemote => stream_error(stream, STREAM_CLOSED),
        State::Closed => connection_error(STREAM_CLOSED),
        State::Reset => Ok(Step::Ignored),
    }
}

/// RST_STREAM and WINDOW_UPDATE (RFC 9113 sections 6.4 and 6.9).
pub(crate) fn on_control(state: State) -> Result<Step, StreamFault>
    ensures { result ≡ control_answer state }
{
    match state {
        State::Idle => connection_error(PROTOCOL_ERROR),
        State::Open | State::HalfClosedLocal | State::HalfClosedRemote => Ok(Step::Goes),
        State::Closed | State::Reset => Ok(Step::Ignored),
    }
}
