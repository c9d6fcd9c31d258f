//! The refusal of a stream.

ghost use Rattle.std.specs.Prelude.{◌≡◌, ◌≤◌, ◌<◌, IsTrue};
ghost use Rattle.hb_conn.specs.Observed.{own_side_open, sides};
ghost use Rattle.hb_inbound.specs.Runs.{refused_on};

use hb_conn::Conn;

/// Puts a refusal of this status with the end of this end's side of the stream, behind which the stream is reset with NO_ERROR where
/// the peer's side is open (RFC 9113 section 8.1).
pub(crate) fn refuse(conn: &mut Conn, stream: u32, status: u16)
    requires open { IsTrue (own_side_open conn.old stream) }
    requires low { 100 ≤ status }
    requires high { status < 1000 }
    ensures { conn.new ≡ refused_on stream status (sides conn.old stream).peer conn.old }
{
    let resets = conn.sides(stream).peer;
    conn.put_status(stream, status, true);
    if resets {
        conn.put_reset(stream, 0);
    }
}
