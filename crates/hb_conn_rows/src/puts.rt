//! Steps of one end and the octets that wait or are sent afterwards, the opening and the first SETTINGS left out.

use crate::desk::Desk;
use crate::floods;
use crate::octets::cut;
use std::alloc::Global;
use std::process::Abort;

const ROWS: &str = "\
a status: server; peer 3; status 1 200; sent 0000020104000000012088; own 1 yes; ends 1 no
a status that ends: server; peer 3; status 1 404 end; ends 1 yes; own 1 no; sent 000002010500000001208d; ends 1 no
a status of other digits: server; peer 3; status 1 431 end; sent 000006010500000001200803343331
the table's size is updated once: server; peer 5; status 3 200; status 1 200; sent 000002010400000003208800000101040000000188
an end: server; peer 3; end 1; ends 1 yes; own 1 no; wrote 8; ends 1 yes; wrote 1; ends 1 no; sent
an end behind a status: server; peer 3; status 1 200; end 1; sent 0000020104000000012088 000000000100000001
a reset: server; peer 3; reset 1 8; own 1 no; sent 00000403000000000100000008
a reset behind an end: server; peer 3; end 1; reset 1 8; ends 1 no; sent 00000403000000000100000008
a reset behind a status: server; peer 3; status 1 401 end; reset 1 0; ends 1 yes; \
    sent 000006010500000001200803343031 00000403000000000100000000
DATA: server; peer 3; some 1 5 5; sent 0000050000000000016161616161
no octets: server; peer 3; some 1 0 0; sent
DATA begins: server; peer 3; data 1 no; some 1 5 5; data 1 unbegun; data 3 no; wrote 1; data 1 begun; data 3 no; wrote 13; data 1 no
one DATA frame waits: server; peer 5; some 1 5 5; some 1 5 0; some 3 5 0; wrote 13; some 3 1 0; wrote 1; some 3 1 1; \
    sent 00000100000000000361
nothing else waits in front: server; peer 3; status 1 200; some 1 5 0; sent 0000020104000000012088; some 1 1 1; sent 00000100000000000161
an ACK stands behind DATA: server; peer 3; some 1 1 1; take SET; sent 00000100000000000161 ACK
the peer's window of 5 octets: client; take 000006040000000000000400000005; sent ACK; open 1; sent 00000a010400000001200207434f4e4e454354; \
    some 1 9 5; sent 0000050000000000016161616161; some 1 9 0; end 1; sent 000000000100000001
a window of a stream that is below zero: server; peer 3; some 1 10 10; sent 00000a000000000001 61*10; \
    take 000006040000000000000400000005; sent ACK; some 1 1 0; end 1; sent 000000000100000001
a window of a stream grows: server; take 000006040000000000000400000005; sent ACK; peer 3; some 1 9 5; wrote 14; \
    take 00000408000000000100000002; some 1 9 2; sent 0000020000000000016161
the connection's window: server; peer 5; some 1 20000 16384; wrote 16393; some 3 20000 16384; wrote 16393; some 3 20000 16384; \
    wrote 16393; some 1 20000 16383; wrote 16392; some 1 1 0; some 3 1 0; \
    take 00000408000000000000000003; some 3 5 3; sent 000003000000000003616161
large frames of the peer: server; take 000006040000000000000500ffffff; sent ACK; peer 3; some 1 20000 16384
both windows come back at a reset: server; peer 5; some 1 16384 16384; reset 1 8; sent 00000403000000000100000008; some 3 20000 16384; \
    wrote 16393; some 3 20000 16384; wrote 16393; some 3 20000 16384; wrote 16393; some 3 20000 16383; wrote 16392; some 3 1 0
DATA that has begun goes: server; peer 3; some 1 5 5; wrote 1; reset 1 8; sent 00050000000000016161616161 00000403000000000100000008
DATA of a stream that the peer resets: server; peer 5; some 1 16384 16384; take 00000403000000000100000008; sent; some 3 20000 16384
a stream error takes DATA back: server; peer 5; some 1 9 9; take 00000408000000000100000000; sent 00000403000000000100000001; own 1 no
an end of a stream that the peer resets: server; peer 3; some 1 9 9; end 1; ends 1 yes; take 00000403000000000100000008; ends 1 no; sent
a connection error takes DATA back: server; peer 3; some 1 9 9; take 0000080800000000000000000000000000; \
    sent 0000080700000000000000000100000006
DATA is credited from 32,768 octets on: server; peer 3; take 004000000000000001 61*16384 004000000000000001 61*16384; \
    sent 00000408000000000000008000; credit 1 16384; sent; credit 1 16383; sent; credit 1 1; \
    sent 00000408000000000100008000; credit 1 0; sent
DATA of an ended stream isn't credited: server; peer 3; take 004000000000000001 61*16384 004000000100000001 61*16384; \
    sent 00000408000000000000008000; credit 1 32768; sent
DATA of this end's ended stream is credited: server; peer 3; end 1; sent 000000000100000001; \
    take 004000000000000001 61*16384 004000000000000001 61*16384; sent 00000408000000000000008000; credit 1 32768; \
    sent 00000408000000000100008000
streams of a client: client; open 1; sent 00000a010400000001200207434f4e4e454354; open 3 end; own 3 no; ends 3 yes; \
    sent 0000090105000000030207434f4e4e454354; own 1 yes; ends 3 no; open 5; sent 0000090104000000050207434f4e4e454354
the peer's limit: client; take 000006040000000000000300000001; sent ACK; open 1; wrote 19; open 0; sent; reset 1 8; wrote 13; \
    open 3; wrote 18
a limit of none: client; take 000006040000000000000300000000; sent ACK; open 0; sent
the lowest owed frame first: full; end 57; end 55; end 1; ends 1 yes; ends 57 yes; own 57 no; \
    wrote 1; room 0; waits 000000000100000035 000000000100000001; wrote 8; room 8; wrote 1; room 0; wrote 9; room 0; \
    waits 000000000100000035 000000000100000001 000000000100000037 000000000100000039; wrote 65536; sent; ends 57 no
an owed end behind an owed status: full; status 57 200; end 57; wrote 16; room 4; \
    waits 000000000100000035 0000020104000000392088 000000000100000039
an owed status that ends: full; status 57 404 end; ends 57 yes; own 57 no; wrote 9; room 6; ends 57 yes; \
    waits 000000000100000035 00000201050000003920 8d; wrote 65530; ends 57 no
an owed reset: full; reset 57 8; own 57 no; wrote 4; room 12; waits 000000000100000035; wrote 1; room 0; \
    waits 000000000100000035 00000403000000003900000008
a frame that has room: full; wrote 4; reset 57 8; end 59; room 3; waits 000000000100000035 00000000010000003b
an owed end goes with its stream: full; end 57; reset 57 8; ends 57 no; wrote 100; waits 000000000100000035 00000403000000003900000008
room by a reset: full; end 57; reset 1 8; room 16371; waits 000000000100000035 00000403000000000100000008 000000000100000039
an owed increment: credit; credit 1 32768; room 8; wrote 5; room 0; waits 000000000100000035 00000408000000000100008000
an owed increment goes with its stream: credit; credit 1 32768; reset 1 8; waits 000000000100000035 00000403000000000100000008
an owed increment in front of the end: credit; credit 1 32768; end 1; wrote 14; room 0; \
    waits 000000000100000035 00000408000000000100008000 000000000100000001
";

/// What goes in front of the steps: the opening is written; and a DATA frame of stream 1, PINGs and ends fill the output
/// up to 8 octets, in `credit` once 32,768 octets came on stream 1.
fn setup_of(name: &str) -> &str {
    match name {
        "client" => "take SET; wrote 54",
        "full" => "\
take PRE SET; wrote 30; peer 101; some 1 16376 16376; take 0000080600000000000102030405060708*2877; room 242; each end 3 55; room 8",
        "credit" => "\
take PRE SET; wrote 30; peer 101; take 004000000000000001 61*16384 004000000000000001 61*16384; wrote 13; some 1 16376 16376; \
take 0000080600000000000102030405060708*2877; room 242; each end 3 55; room 8",
        _ => "take PRE SET; wrote 30",
    }
}

fn do_steps(rt: &impl Abort, alloc: Global, desk: &mut Desk, row: &str, steps: &str) {
    for words in steps.split("; ") {
        desk.step(rt, alloc, row, words);
    }
}

/// Does the steps of a row on a connection of its own.
fn assert_row(rt: &impl Abort, alloc: Global, row: &str) {
    let (_, rest) = cut(row, ": ");
    let (name, steps) = cut(rest, "; ");
    let mut desk = Desk::new(rt, alloc, name);
    do_steps(rt, alloc, &mut desk, row, setup_of(name));
    do_steps(rt, alloc, &mut desk, row, steps);
}

#[test]
fn steps_leave_what_the_rows_say(rt: HostRuntime) {
    for row in ROWS.lines() {
        assert_row(&rt, rt.alloc(), row);
    }
}

#[test]
fn floods_are_answered_as_the_rows_say(rt: HostRuntime) {
    for row in floods::ROWS.lines() {
        assert_row(&rt, rt.alloc(), row);
    }
}
