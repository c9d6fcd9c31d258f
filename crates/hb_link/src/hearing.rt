//! What is told of the connection.

ghost use Rattle.std.specs.Prelude.{◌≡◌};
ghost use Rattle.hb_link.specs.Looking.{asked_of, changed_at, came_here, up_ended_here, heard_of, tunnels_heard, IsFitting};

use crate::asking::Asked;
use crate::naming::named_by;
use crate::tunnel::Tunnel;
use hb_base::{Cause, Ip};
use hb_conn::Happening;
use hb_counted::Counted;
use hb_hpack::HeaderList;
use hb_verdict::read_request;

/// What was told, as far as it isn't done yet.
#[derive(Clone, Copy)]
pub(crate) enum Heard {
    /// All that came was looked at.
    Nothing,
    /// What it makes of the tunnels is done.
    Done,
    /// So it is, and DATA came on a stream.
    Data { stream: u32 },
    Request(Asked),
    /// The tunnel on a stream is to end, of which nothing is left.
    Left { stream: u32, cause: Cause },
    /// A connection error of this code.
    Fault { code: u32 },
}

/// A request with these headers.
fn asked_by(stream: u32, headers: &HeaderList, end: bool, destination: Ip) -> Asked
    ensures { result ≡ asked_of stream headers.now end destination }
{
    let request = read_request(headers, destination);
    Asked {
        stream,
        request,
        target: named_by(request, headers),
        end,
    }
}

/// These bytes came on a stream.
fn came_up(tunnels: &mut Counted<Tunnel>, stream: u32, bytes: &[u8])
    ensures { tunnels.new ≡ changed_at stream (came_here bytes.now) tunnels.old }
{
    if let Some(tunnel) = tunnels.at(stream) {
        tunnel.came_up(bytes);
    }
}

/// The peer ended its side of a stream.
fn end_up(tunnels: &mut Counted<Tunnel>, stream: u32)
    ensures { tunnels.new ≡ changed_at stream up_ended_here tunnels.old }
{
    if let Some(tunnel) = tunnels.at(stream) {
        tunnel.ways.end_up();
    }
}

/// What is told of a link to this destination. DATA and its end go to the tunnel of their stream at once.
pub(crate) fn hear(
    tunnels: &mut Counted<Tunnel>,
    destination: Ip,
    told: Option<Happening<'_>>,
) -> Heard
    ensures heard { result ≡ heard_of destination told.entry }
    ensures after { tunnels.new ≡ tunnels_heard told.entry tunnels.old }
    ensures fits { IsFitting result }
{
    match told {
        None => Heard::Nothing,
        Some(
            Happening::Opened {
                stream,
                headers,
                end,
            },
        ) => Heard::Request(asked_by(stream, headers, end, destination)),
        Some(Happening::Chunk { stream, bytes }) => {
            came_up(tunnels, stream, bytes);
            Heard::Data { stream }
        }
        Some(Happening::Ended { stream }) => {
            end_up(tunnels, stream);
            Heard::Done
        }
        Some(Happening::Reset { stream, code }) => Heard::Left {
            stream,
            cause: Cause::PeerReset(code),
        },
        Some(Happening::Broken { stream, code }) => Heard::Left {
            stream,
            cause: Cause::StreamFault(code),
        },
        Some(Happening::GoneAway { .. }) => Heard::Done,
        Some(Happening::Fault { code }) => Heard::Fault { code },
    }
}
