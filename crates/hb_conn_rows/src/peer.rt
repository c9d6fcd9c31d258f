//! A peer that sends octets to a connection, and takes all that the connection sends.

use hb_conn::{Conn, Happening};
use std::alloc::Global;
use std::process::Abort;

/// The most happenings and the most pieces of one run.
const MANY: usize = 100_000;

/// What was told, in words, and what was sent.
#[derive(Drop)]
pub struct Seen {
    pub told: String,
    pub sent: Vec<u8>,
}

fn show_octets(rt: &impl Abort, told: &mut String, bytes: &[u8]) {
    for byte in bytes {
        write!(told, "{byte:02x}").expect(rt, "memory");
    }
}

/// The octets of a chunk, or `#` and how many they are.
fn show_chunk(rt: &impl Abort, told: &mut String, stream: u32, bytes: &[u8]) {
    if bytes.len() > 8 {
        write!(told, " c{stream}#{}", bytes.len()).expect(rt, "memory");
    } else {
        write!(told, " c{stream}:").expect(rt, "memory");
        show_octets(rt, told, bytes);
    }
}

fn show(rt: &impl Abort, told: &mut String, happening: Happening<'_>) {
    match happening {
        Happening::Opened { stream, end, .. } => {
            let end = if end { "e" } else { "" };
            write!(told, " o{stream}{end}").expect(rt, "memory");
        }
        Happening::Chunk { stream, bytes } => show_chunk(rt, told, stream, bytes),
        Happening::Ended { stream } => write!(told, " e{stream}").expect(rt, "memory"),
        Happening::Reset { stream, code } => {
            write!(told, " r{stream}:{code}").expect(rt, "memory");
        }
        Happening::Broken { stream, code } => {
            write!(told, " b{stream}:{code}").expect(rt, "memory");
        }
        Happening::GoneAway { last } => write!(told, " g{last}").expect(rt, "memory"),
        Happening::Fault { code } => write!(told, " f{code}").expect(rt, "memory"),
    }
}

/// All that happens until nothing more does.
fn drain(rt: &impl Abort, conn: &mut Conn, seen: &mut Seen) {
    for _ in 0..MANY {
        match conn.next_happening() {
            Ok(Some(happening)) => show(rt, &mut seen.told, happening),
            Ok(None) => return,
            Err(_) => panic!(rt; "memory"),
        }
    }
    panic!(rt; "no end");
}

fn write_all(rt: &impl Abort, conn: &mut Conn, seen: &mut Seen) {
    seen.sent
        .extend_from_slice(conn.output())
        .expect(rt, "memory");
    let n = conn.output().len();
    conn.wrote(n);
}

/// Gives a connection the octets in pieces of so many, and takes what it sends after each.
pub fn run(rt: &impl Abort, alloc: Global, conn: &mut Conn, octets: &[u8], size: usize) -> Seen {
    let mut seen = Seen {
        told: String::new(alloc),
        sent: Vec::new(alloc),
    };
    write_all(rt, conn, &mut seen);
    let mut left = octets;
    for _ in 0..MANY {
        let piece = &left[..size.min(left.len())];
        let taken = conn.take(piece).min(left.len());
        left = left.split_at(taken).1;
        drain(rt, conn, &mut seen);
        write_all(rt, conn, &mut seen);
        if left.is_empty() || taken == 0 {
            return seen;
        }
    }
    panic!(rt; "no end")
}
