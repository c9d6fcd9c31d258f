//! Steps and what waits afterwards. A frame is given by its octets: three of the length, the type, the flags, four of the
//! stream, and the payload.

use crate::outgoing_steps::step;
use hb_outgoing::Outgoing;
use std::alloc::Global;
use std::process::Abort;

const ROWS: &str = "\
nothing waits: waits; room 65536; unbegun 0 0; ends 0 no; back 1 0; wrote 0; waits
a DATA frame is taken back whole: put 000003000000000001616263; unbegun 1 3; back 1 3; waits; room 65536
one octet is written: put 000003000000000001616263; begun 1 no; wrote 1; unbegun 0 0; begun 1 yes; begun 3 no; back 1 0; \
    waits 0003000000000001616263; room 65525
in the middle of a header: put 00000100000000000161; put 00000100000000000362; wrote 14; back 3 0; waits 000000000362
at the end of a header: put 00000100000000000362; wrote 9; back 3 0; waits 62
in the middle of a payload: put 000003000000000003626364; put 00000100000000000365; wrote 10; back 3 1; waits 6364
at a frame's end: put 00000100000000000161; put 00000100000000000162; wrote 10; unbegun 1 1; back 1 1; waits
behind a control frame: put 000000040100000000; put 000003000000000001616263; wrote 4; unbegun 1 3; back 1 3; waits 0100000000
between control frames: put 000000040100000000; put 0000020000000000016162; put 00000408000000000000000007; back 1 2; \
    waits 00000004010000000000000408000000000000000007
two streams: put 00000100000000000161; put 0000020000000000036263; put 00000100000000000164; back 1 2; \
    waits 0000020000000000036263; back 3 2; waits
two frames begin at once: put 00000100000000000161; put 00000100000000000362; put 00000100000000000363; wrote 11; back 3 1; \
    waits 000100000000000362
HEADERS stay: put 00000101050000000182; put 00000100000000000161; back 1 1; waits 00000101050000000182; ends 1 yes
RST_STREAM stays: put 00000100000000000561; put 00000403000000000500000008; back 5 1; waits 00000403000000000500000008
the end of a stream without payload: put 000000000100000005; ends 5 yes; ends 7 no; unbegun 0 0; back 5 0; ends 5 no; waits
behind one without payload: put 000000000100000005; put 0000020000000000077879; unbegun 7 2; ends 7 no
a begun end: put 0000020001000000016162; wrote 10; ends 1 yes; ends 3 no; back 1 0; ends 1 yes; begun 1 yes; wrote 1; ends 1 no; \
    begun 1 no; waits
HEADERS that don't end: put 00000101040000000182; ends 1 no; wrote 3; ends 1 no; begun 1 no
HEADERS that end, begun: put 00000101050000000182; wrote 3; ends 1 yes; wrote 7; ends 1 no
another type's flag: put 0000080601000000003132333435363738; ends 0 no; put 00000109010000000182; ends 1 no
a padded end: put 000003000900000009016100; ends 9 yes; put 00000300080000000b016100; ends 11 no
stream numbers of four octets: put 00000100007fffffff61; back 2130706431 0; back 2147483647 1; waits
an opening: open 505249202a20485454502f322e300d0a0d0a534d0d0a0d0a; ends 0 no; put 00000100000000000161; wrote 20; unbegun 1 1; \
    back 1 1; waits 0d0a0d0a
an opening and a frame begun: open 505249202a20485454502f322e300d0a0d0a534d0d0a0d0a; put 00000100010000000161; wrote 25; \
    ends 1 yes; back 1 0; waits 000100010000000161
all DATA is taken back: put 00000100000000000161; put 000000040100000000; put 0000020001000000036263; put 000000000100000005; all; \
    waits 000000040100000000; unbegun 0 0; ends 3 no; room 65527
but what has begun: put 00000100000000000161; put 00000100000000000362; wrote 1; all; waits 000100000000000161; all; wrote 9; waits
an opening twice: open 41; wrote 1; open 42; waits 42; back 0 0
two DATA frames of 32,768 octets fill it to the last octet, also once others were written: put 007ff7000000000001 07*32759; \
    put 007ff7000100000003 07*32759; room 0; wrote 32768; room 32768; put 007ff7000000000005 07*32759; room 0; back 1 0; back 3 32759; \
    unbegun 5 32759; waits 007ff7000000000005 07*32759
";

/// Does the steps of a row on an Outgoing of its own.
fn assert_row(rt: &impl Abort, alloc: Global, row: &str) {
    let mut outgoing = Outgoing::new(alloc).expect(rt, "memory");
    let (_, steps) = row.split_once(": ").expect(rt, "a name");
    for words in steps.split("; ") {
        step(rt, alloc, &mut outgoing, row, words);
    }
}

#[test]
fn steps_leave_what_the_rows_say(rt: HostRuntime) {
    for row in ROWS.lines() {
        assert_row(&rt, rt.alloc(), row);
    }
}
