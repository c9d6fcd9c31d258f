//! What the front of bytes that are there whole is.

use crate::hex::bytes_of;
use crate::told::{number_of, same};
use hb_grpc::first_length;
use std::alloc::Global;
use std::process::Abort;

/// The limit and the bytes in hexadecimal digits, and the length of the message in front, `none` or the fault.
const ROWS: &str = "\
10 ; none
10 00000000; none
10 0000000000; 0
10 000000000161; 1
10 0000000002616200; 2
10 0000000003616200; 3
10 00000000046162; none
10 01; Compressed { flag: 1 }
2 0000000002; none
2 00000000026162; 2
1 0000000002; TooLong { length: 2 }
10 0001020304; TooLong { length: 16909060 }
4294967295 00ffffffff61; none";

/// Tells what is in front.
fn tell(rt: &impl Abort, told: &mut String, bytes: &[u8], limit: u32) {
    match first_length(bytes, limit) {
        Ok(Some(length)) => write!(told, "{length}").expect(rt, "memory"),
        Ok(None) => told.push_str("none").expect(rt, "memory"),
        Err(fault) => write!(told, "{fault:?}").expect(rt, "memory"),
    }
}

fn assert_row(rt: &impl Abort, alloc: Global, row: &str) {
    let (given, want) = row.split_once("; ").unwrap_or((row, ""));
    let (limit, digits) = given.split_once(" ").unwrap_or((given, ""));
    let bytes = bytes_of(rt, alloc, digits);
    let mut told = String::new(alloc);
    tell(rt, &mut told, bytes.as_slice(), number_of(rt, limit));
    same(rt, row, told.as_str(), want);
}

#[test]
fn each_front_is_found(rt: HostRuntime) {
    for row in ROWS.lines() {
        assert_row(&rt, rt.alloc(), row);
    }
}
