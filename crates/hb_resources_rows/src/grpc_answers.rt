//! What each piece is answered.

use crate::hex::bytes_of;
use crate::told::{number_of, same};
use hb_base::Or;
use hb_grpc::Framer;
use std::alloc::Global;
use std::process::Abort;

/// The limit and the pieces with blanks between, and each answer: how many bytes are taken, and the message in hexadecimal
/// digits, which none stand for where it is empty; or the fault. `+` says that nothing is held then.
const ROWS: &str = "\
10 000000 0002616200; 3, 4 6162+
10 000000 0002616200 00 00000000; 3, 4 6162+, 1, 4 +
10 01; Compressed { flag: 1 }
10 ff 00 0000000000; Compressed { flag: 255 }, Compressed { flag: 255 }, Compressed { flag: 255 }
1 0000000002; TooLong { length: 2 }
1 00000000 02 61 0000000000; 4, TooLong { length: 2 }, TooLong { length: 2 }, TooLong { length: 2 }
1 000000000161; 6 61+
1 000000000161000000000261; 6 61+
0 0000000000; 5 +
0 0000000001; TooLong { length: 1 }
10 0000000000; 5 +
10 00000000000000000000; 5 +
10 0001020304; TooLong { length: 16909060 }
4294967295 00ffffffff 61; 5, 1
4294967294 00ffffffff 61; TooLong { length: 4294967295 }, TooLong { length: 4294967295 }
10 0000000003 61 62 63 00; 5, 1, 1, 1 616263+, 1
10 000000000161 0100000000; 6 61+, Compressed { flag: 1 }
10 000000000361620100 0100000000; 8 616201+, Compressed { flag: 1 }";

/// Tells the answer to a piece.
fn tell_answer(rt: &impl Abort, framer: &mut Framer, piece: &[u8], told: &mut String) {
    match framer.feed(piece) {
        Ok(fed) => {
            write!(told, "{}", fed.taken).expect(rt, "memory");
            if let Some(message) = fed.message {
                told.push(' ').expect(rt, "memory");
                for byte in message.as_slice() {
                    write!(told, "{byte:02x}").expect(rt, "memory");
                }
            }
        }
        Err(Or::Fault(fault)) => write!(told, "{fault:?}").expect(rt, "memory"),
        Err(Or::NoMemory) => told.push_str("no memory").expect(rt, "memory"),
    }
    if framer.between() {
        told.push('+').expect(rt, "memory");
    }
}

/// Tells the answer to each piece.
fn tell_answers(
    rt: &impl Abort,
    alloc: Global,
    framer: &mut Framer,
    pieces: &str,
    told: &mut String,
) {
    for piece in pieces.split(' ') {
        if !told.is_empty() {
            told.push_str(", ").expect(rt, "memory");
        }
        let piece = bytes_of(rt, alloc, piece);
        tell_answer(rt, framer, piece.as_slice(), told);
    }
}

fn assert_row(rt: &impl Abort, alloc: Global, row: &str) {
    let (fed, want) = row.split_once("; ").unwrap_or((row, ""));
    let (limit, pieces) = fed.split_once(" ").unwrap_or((fed, ""));
    let mut framer = Framer::new(alloc, number_of(rt, limit));
    let mut told = String::new(alloc);
    tell_answers(rt, alloc, &mut framer, pieces, &mut told);
    same(rt, row, told.as_str(), want);
}

#[test]
fn each_piece_has_its_answer(rt: HostRuntime) {
    for row in ROWS.lines() {
        assert_row(&rt, rt.alloc(), row);
    }
}
