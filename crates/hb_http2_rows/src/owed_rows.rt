//! Steps and what waits afterwards. `fill` leaves so much room behind a DATA frame, which `wrote` takes away again.

use crate::owed_bench::Bench;
use std::alloc::Global;
use std::process::Abort;

const ROWS: &str = "\
nothing is owed: none yes; owes 1 no; ends 1 no; credits 1 0; pay; waits
a record that owes nothing: open 1; none yes; owes 1 no; pay; waits; none yes
in their order: open 1; end 1; credit 1 100; status 1 200 open; none no; owes 1 yes; ends 1 yes; pay; \
    waits 000002010400000001208800000408000000000100000064000000000100000001; none yes; owes 1 no; ends 1 no; credits 1 0
put once: open 1; end 1; pay; pay; waits 000000000100000001
owed anew: open 1; end 1; pay; none yes; end 1; none no; pay; waits 000000000100000001000000000100000001
a stream opened after a payment: pay; none yes; open 3; pay; credit 3 2; none no; pay; waits 00000408000000000300000002; none yes
a reset takes the end and the increment away: open 1; status 1 401 end; end 1; credit 1 5; reset 1 0; ends 1 no; credits 1 0; pay; \
    waits 00000601050000000120080334303100000403000000000100000000; none yes
the lowest stream first: open 5; open 3; reset 5 8; reset 3 2; pay; \
    waits 0000040300000000030000000200000403000000000500000008
a status of a higher stream: open 3; open 1; status 3 502 end; end 1; pay; \
    waits 000000000100000001000006010500000003200803353032
increments add up: open 1; credit 1 100; credit 1 200; credits 1 300; pay; waits 0000040800000000010000012c
the largest increment: open 1; credit 1 2147483646; credit 1 1; pay; waits 0000040800000000017fffffff
the largest stream and code: open 2147483647; reset 2147483647 4294967295; pay; waits 00000403007fffffffffffffff
one update of the table's size: open 1; open 3; status 3 200 open; status 1 404 open; pay; \
    waits 000002010400000001208d00000101040000000388
none in the second payment: open 1; status 1 200 open; pay; status 1 599 end; pay; \
    waits 00000201040000000120880000050105000000010803353939
no record: end 7; credit 7 1; reset 7 8; status 7 200 open; close 7; back 7; owes 7 no; none yes; pay; waits
a record goes at once: open 1; close 1; end 1; none yes; owes 1 no
a record goes once it is paid: open 1; reset 1 8; close 1; owes 1 yes; pay; waits 00000403000000000100000008; end 1; none yes
an open record stays: open 1; reset 1 8; pay; end 1; owes 1 yes; none no
closed and paid in part: fill 30; open 1; status 1 200 open; reset 1 8; close 1; pay; none yes; end 1; none yes
an end is taken back: open 1; end 1; ends 1 yes; back 1; ends 1 no; none yes; pay; waits; end 1; ends 1 yes
only the end is taken back: open 1; end 1; credit 1 9; back 1; owes 1 yes; pay; waits 00000408000000000100000009
a closed record's end is taken back: open 1; end 1; close 1; back 1; none yes; end 1; none yes
no room for an increment: fill 12; open 1; credit 1 7; pay; owes 1 yes; wrote 65524; waits; pay; waits 00000408000000000100000007
room for an increment: fill 13; open 1; credit 1 7; pay; none yes; wrote 65523; waits 00000408000000000100000007
no room for an end: fill 8; open 1; end 1; pay; owes 1 yes; wrote 65528; waits
room for an end: fill 9; open 1; end 1; pay; none yes; wrote 65527; waits 000000000100000001
no room for a reset: fill 12; open 1; reset 1 8; pay; owes 1 yes; wrote 65524; waits
room for a reset: fill 13; open 1; reset 1 8; pay; none yes; wrote 65523; waits 00000403000000000100000008
no room for a status: fill 16; open 1; status 1 200 end; pay; owes 1 yes; wrote 65520; waits; pay; waits 0000020105000000012088
room for a status: fill 17; open 1; status 1 451 end; pay; none yes; wrote 65519; waits 000006010500000001200803343531
nothing overtakes: fill 12; open 1; open 3; credit 1 7; end 3; pay; owes 1 yes; owes 3 yes; wrote 65524; waits; pay; \
    waits 00000408000000000100000007000000000100000003
nor on the same stream: fill 16; open 1; status 1 200 open; credit 1 7; end 1; pay; ends 1 yes; wrote 65520; waits
room for one of two: fill 25; open 1; open 3; reset 1 8; reset 3 8; pay; owes 1 no; owes 3 yes; wrote 65511; \
    waits 00000403000000000100000008; pay; waits 0000040300000000010000000800000403000000000300000008
room for both: fill 26; open 1; open 3; reset 1 8; reset 3 8; pay; none yes; wrote 65510; \
    waits 0000040300000000010000000800000403000000000300000008
room comes in between: fill 9; open 1; end 1; status 1 200 open; pay; ends 1 yes; wrote 65527; pay; \
    waits 0000020104000000012088000000000100000001; none yes
nothing is owed any more: open 1; open 3; end 1; reset 3 8; clear; none yes; owes 1 no; end 1; none yes; pay; waits
opened anew: open 1; end 1; credit 1 4; open 1; none yes; credits 1 0
";

/// Does the steps of a row on a bench of its own.
fn assert_row(rt: &impl Abort, alloc: Global, row: &str) {
    let mut bench = Bench::new(rt, alloc);
    let (_, steps) = row.split_once(": ").expect(rt, "a name");
    for words in steps.split("; ") {
        bench.step(rt, alloc, row, words);
    }
}

#[test]
fn steps_leave_what_the_rows_say(rt: HostRuntime) {
    for row in ROWS.lines() {
        assert_row(&rt, rt.alloc(), row);
    }
}
