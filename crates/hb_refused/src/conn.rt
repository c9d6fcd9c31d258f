//! Of hb_conn.

ghost use Rattle.std.specs.Prelude.{◌≡◌, ◌≤◌, ◌<◌, length, IsTrue};
ghost use Rattle.hb_hpack.specs.Table.{total};
ghost use Rattle.hb_streams.specs.declared.role.Role.TheVariants.{Client};
ghost use Rattle.hb_conn.specs.Connection.{count_of, taken};
ghost use Rattle.hb_conn.specs.Observed.{output, room, role, own_side_open, IsActiveOn, creditable, count_put};
ghost use Rattle.hb_conn.specs.Observed.{KeepsWhatCame, wrote, Opens, data_put, credited, status_put, end_put, aborted};

use hb_base::{List, Or};
use hb_conn::Conn;
use hb_hpack::Header;
use hb_streams::OpenFault;

/// `Conn::take`.
pub fn take(conn: &mut Conn, b: &[u8]) -> usize
    ensures count { result ≡ count_of conn.old b.now }
    ensures after { conn.new ≡ taken conn.old b.now }
{
    conn.take(b)
}

/// `Conn::wrote`.
pub fn wrote(conn: &mut Conn, n: usize)
    requires { n ≤ length (output conn.old) }
    ensures { conn.new ≡ wrote conn.old n }
{
    conn.wrote(n);
}

/// `Conn::open`, with its Errors.
pub fn open(conn: &mut Conn, headers: &List<Header>, end: bool) -> Result<u32, Or<OpenFault>>
    requires client { role conn.old ≡ Client }
    requires room { 1024 ≤ room conn.old }
    requires headers { total headers.now ≤ 900 }
    ensures told { Opens conn.old headers.now end conn.new result }
    ensures rest { KeepsWhatCame conn.old conn.new }
{
    conn.open(headers, end)
}

/// `Conn::put_some`.
pub fn put_some(conn: &mut Conn, stream: u32, bytes: &[u8]) -> usize
    requires { IsTrue (own_side_open conn.old stream) }
    ensures count { result ≡ count_put conn.old stream bytes.now }
    ensures after { conn.new ≡ data_put conn.old stream bytes.now }
{
    conn.put_some(stream, bytes)
}

/// `Conn::credit`.
pub fn credit(conn: &mut Conn, stream: u32, n: u32)
    requires { n ≤ creditable conn.old stream }
    ensures { conn.new ≡ credited conn.old stream n }
{
    conn.credit(stream, n);
}

/// `Conn::put_status`.
pub fn put_status(conn: &mut Conn, stream: u32, status: u16, end: bool)
    requires open { IsTrue (own_side_open conn.old stream) }
    requires low { 100 ≤ status }
    requires high { status < 1000 }
    ensures { conn.new ≡ status_put conn.old stream (record { number = status; end = end }) }
{
    conn.put_status(stream, status, end);
}

/// `Conn::put_end`.
pub fn put_end(conn: &mut Conn, stream: u32)
    requires { IsTrue (own_side_open conn.old stream) }
    ensures { conn.new ≡ end_put conn.old stream }
{
    conn.put_end(stream);
}

/// `Conn::put_reset`.
pub fn put_reset(conn: &mut Conn, stream: u32, code: u32)
    requires { IsActiveOn conn.old stream }
    ensures { conn.new ≡ aborted conn.old stream code }
{
    conn.put_reset(stream, code);
}

/// `Conn::creditable`.
pub fn creditable(conn: &Conn, stream: u32) -> u32
    ensures { result ≡ creditable conn.now stream }
{
    conn.creditable(stream)
}
