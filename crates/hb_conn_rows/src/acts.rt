//! What one end of a connection does, by the words of a table.

ghost use Rattle.std.specs.Prelude.{◌≡◌, ◌≤◌};
ghost use Rattle.hb_hpack.specs.Table.{total};

use crate::octets::{cut, number_of, octets_of};
use hb_base::{Bytes, List};
use hb_conn::Conn;
use hb_hpack::Header;
use hb_streams::Role;
use std::alloc::Global;
use std::process::Abort;

/// The most pieces and the most happenings of one step.
pub const MANY: usize = 100_000;

/// A client's end, or a server's.
pub fn end_of(rt: &impl Abort, alloc: Global, role: &str) -> Conn {
    let made = if role == "client" {
        Conn::client(alloc)
    } else {
        Conn::server(alloc)
    };
    made.expect(rt, "memory")
}

fn header(rt: &impl Abort, alloc: Global, name: &[u8], value: &[u8]) -> Header
    ensures name { result.name ≡ name.now }
    ensures value { result.value ≡ value.now }
{
    Header {
        name: Bytes::of(alloc, name).expect(rt, "memory"),
        value: Bytes::of(alloc, value).expect(rt, "memory"),
    }
}

/// A CONNECT of this authority, or of none where its text is empty.
pub fn connect(rt: &impl Abort, alloc: Global, authority: &str) -> List<Header>
    ensures { total result ≤ 900 }
{
    assert!(rt; authority.len() <= 100);
    let mut headers = List::new(alloc);
    let method = header(rt, alloc, b":method", b"CONNECT");
    headers.push(method).expect(rt, "memory");
    if !authority.is_empty() {
        let authority = header(rt, alloc, b":authority", authority.as_bytes());
        headers.push(authority).expect(rt, "memory");
    }
    headers
}

/// Opens a stream, whose number has to be this; 0 where there is to be none.
pub fn open(
    rt: &impl Abort,
    conn: &mut Conn,
    row: &str,
    headers: &List<Header>,
    stream: u32,
    end: bool,
)
    requires { total headers.now ≤ 900 }
{
    let Role::Client = conn.role() else {
        panic!(rt; "a client");
    };
    assert!(rt; conn.room() >= 1_024);
    let opened = conn.open(headers, end).unwrap_or(0);
    assert!(rt; opened == stream, "{row}: opened {opened}, not {stream}");
}

pub fn status(rt: &impl Abort, conn: &mut Conn, stream: u32, words: &str) {
    let (digits, end) = cut(words, " ");
    let number = number_of(rt, digits);
    assert!(rt; number >= 100 && number < 1000);
    assert!(rt; conn.sides(stream).own);
    conn.put_status(stream, number as u16, end == "end");
}

pub fn end(rt: &impl Abort, conn: &mut Conn, stream: u32) {
    assert!(rt; conn.sides(stream).own);
    conn.put_end(stream);
}

pub fn reset(rt: &impl Abort, conn: &mut Conn, stream: u32, code: u32) {
    let sides = conn.sides(stream);
    assert!(rt; sides.own || sides.peer);
    conn.put_reset(stream, code);
}

pub fn credit(rt: &impl Abort, conn: &mut Conn, stream: u32, n: u32) {
    assert!(rt; n <= conn.creditable(stream));
    conn.credit(stream, n);
}

/// Puts octets, as many as are to be put.
pub fn some(rt: &impl Abort, conn: &mut Conn, row: &str, stream: u32, octets: &[u8], want: &str) {
    assert!(rt; conn.sides(stream).own);
    let n = conn.put_some(stream, octets);
    assert!(rt;
        n == number_of(rt, want) as usize,
        "{row}: put {n}, not {want}"
    );
}

/// Puts octets `a`: the stream, how many they are, and how many are to be put.
pub fn letters(rt: &impl Abort, alloc: Global, conn: &mut Conn, row: &str, words: &str) {
    let (stream, rest) = cut(words, " ");
    let (size, want) = cut(rest, " ");
    let word = format!(in alloc; "61*{size}").expect(rt, "memory");
    let octets = octets_of(rt, alloc, word.as_str());
    some(
        rt,
        conn,
        row,
        number_of(rt, stream),
        octets.as_slice(),
        want,
    );
}

pub fn wrote(rt: &impl Abort, conn: &mut Conn, n: usize) {
    assert!(rt; n <= conn.output().len());
    conn.wrote(n);
}
