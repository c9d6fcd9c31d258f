//! Reports of runs with notes.

use crate::report_entries::{cut, trace_of};
use crate::report_notes::notes_of;
use crate::reports::report_text;
use std::alloc::Global;
use std::process::Abort;

/// The lines that are asked for, a trace, notes, and their report without totals, each line ended by `|`. The reports are worked by hand. A line that
/// begins with `#` says what the next ones are.
const REPORTS: &str = "\
# nothing happened
links; ; ; total: 0 links, 0 accepted, 0 revoked, 0 up, 0 down|
brief; ; ; total: 0 links, 0 accepted, 0 revoked, 0 up, 0 down|
# an answer
links; ; verdict 2 1 200 10.0.0.9 spiffe://cluster.local/ns/a/sa/c 10.0.0.7:8080; \
verdict 2/1 200 10.0.0.9 cluster.local/ns/a/sa/c 10.0.0.7:8080|total: 0 links, 0 accepted, 0 revoked, 0 up, 0 down|
links; ; verdict 1 3 403 10.0.0.9 spiffe://td.example-1/ns/name_space.of.an.example/sa/an-account-of-more-than-23-octets 10.0.0.7:1; \
verdict 1/3 403 10.0.0.9 td.example-1/ns/name_space.of.an.example/sa/an-account-of-more-than-23-octets 10.0.0.7:1|\
total: 0 links, 0 accepted, 0 revoked, 0 up, 0 down|
# addresses of IPv6, by RFC 5952 section 4
links; ; verdict 1 1 200 2001:0DB8:0:0:0:0:0:0001 spiffe://t/ns/n/sa/s [2001:DB8:0:0:0:0:0:1]:80; \
verdict 1/1 200 2001:db8::1 t/ns/n/sa/s [2001:db8::1]:80|total: 0 links, 0 accepted, 0 revoked, 0 up, 0 down|
links; ; verdict 1 1 503 2001:db8:0:0:1:0:0:1 none [2001:db8:0:1:1:1:1:1]:8080; \
verdict 1/1 503 2001:db8::1:0:0:1 - [2001:db8:0:1:1:1:1:1]:8080|total: 0 links, 0 accepted, 0 revoked, 0 up, 0 down|
links; ; verdict 1 1 503 0:0:0:0:0:0:0:0 none [0:0:0:0:0:0:0:1]:65535; \
verdict 1/1 503 :: - [::1]:65535|total: 0 links, 0 accepted, 0 revoked, 0 up, 0 down|
links; ; verdict 1 1 503 FE80:0:0:1:0:0:0:2 none [1:0:0:0:0:0:0:0]:1; \
verdict 1/1 503 fe80:0:0:1::2 - [1::]:1|total: 0 links, 0 accepted, 0 revoked, 0 up, 0 down|
# no identity; no target; neither, malformed; the stream of a link that isn't HTTP/2
links; ; verdict 2 1 401 10.0.0.9 none 10.0.0.7:8080; \
verdict 2/1 401 10.0.0.9 - 10.0.0.7:8080|total: 0 links, 0 accepted, 0 revoked, 0 up, 0 down|
links; ; verdict 2 1 400 10.0.0.9 spiffe://t/ns/n/sa/s none; \
verdict 2/1 400 10.0.0.9 t/ns/n/sa/s -|total: 0 links, 0 accepted, 0 revoked, 0 up, 0 down|
links; ; verdict 2 7 0 10.0.0.9 none none; verdict 2/7 0 10.0.0.9 - -|total: 0 links, 0 accepted, 0 revoked, 0 up, 0 down|
links; ; verdict 4 0 200 10.0.0.9 none 10.0.0.7:8080; \
verdict 4/0 200 10.0.0.9 - 10.0.0.7:8080|total: 0 links, 0 accepted, 0 revoked, 0 up, 0 down|
# the largest numbers
links; ; verdict 18446744073709551615 4294967295 65535 255.255.255.255 none 255.255.255.255:65535; \
verdict 18446744073709551615/4294967295 65535 255.255.255.255 - 255.255.255.255:65535|\
total: 0 links, 0 accepted, 0 revoked, 0 up, 0 down|
links; ; end 18446744073709551615 4294967295 18446744073709551615 0 no route 4294967295; \
end 18446744073709551615/4294967295 no route 4294967295 up 18446744073709551615 down 0|\
total: 0 links, 0 accepted, 0 revoked, 0 up, 0 down|
# the ends of tunnels
links; ; end 2 1 5 6 done; end 2/1 done up 5 down 6|total: 0 links, 0 accepted, 0 revoked, 0 up, 0 down|
links; ; end 2 1 0 0 stream fault 3; end 2/1 stream fault 3 up 0 down 0|total: 0 links, 0 accepted, 0 revoked, 0 up, 0 down|
links; ; end 1 1 1 0 peer reset 8, end 1 3 2 0 up refused 503, end 1 5 4 0 conn fault 1, end 1 7 8 0 front fault 0, \
end 1 9 16 0 refused 403, end 1 11 32 0 no route 2; \
end 1/1 peer reset 8 up 1 down 0|end 1/3 up refused 503 up 2 down 0|end 1/5 conn fault 1 up 4 down 0|\
end 1/7 front fault 0 up 8 down 0|end 1/9 refused 403 up 16 down 0|end 1/11 no route 2 up 32 down 0|\
total: 0 links, 0 accepted, 0 revoked, 0 up, 0 down|
links; ; end 1 1 0 1 peer gone, end 1 3 0 2 up fault, end 1 5 0 4 gone away, end 1 7 0 8 revoked, end 1 9 0 16 no room, \
end 1 11 0 32 discovery, end 1 13 0 64 broken, end 1 15 0 128 stopped, end 1 17 0 256 no memory; \
end 1/1 peer gone up 0 down 1|end 1/3 up fault up 0 down 2|end 1/5 gone away up 0 down 4|end 1/7 revoked up 0 down 8|\
end 1/9 no room up 0 down 16|end 1/11 discovery up 0 down 32|end 1/13 broken up 0 down 64|end 1/15 stopped up 0 down 128|\
end 1/17 no memory up 0 down 256|total: 0 links, 0 accepted, 0 revoked, 0 up, 0 down|
# each note has its line, in order, also one that was there before
links; ; end 1 1 3 4 done, verdict 1 3 200 10.0.0.9 none none, end 1 1 3 4 done, verdict 1 3 200 10.0.0.9 none none; \
end 1/1 done up 3 down 4|verdict 1/3 200 10.0.0.9 - -|end 1/1 done up 3 down 4|verdict 1/3 200 10.0.0.9 - -|\
total: 0 links, 0 accepted, 0 revoked, 0 up, 0 down|
# links that are closed as revoked
links; inbound 1, upstream 2 1/3, upstream 3 1/5, closed 2 revoked, closed 3 done, closed 1 revoked; \
end 1 3 7 9 revoked, end 1 5 0 2 done; \
link 1 inbound: received 0, sent 0, closed revoked|link 2 upstream 10.0.0.7:8080 of 1/3: received 0, sent 0, closed revoked|\
link 3 upstream 10.0.0.7:8080 of 1/5: received 0, sent 0, closed done|end 1/3 revoked up 7 down 9|end 1/5 done up 0 down 2|\
total: 0 links, 0 accepted, 0 revoked, 0 up, 0 down|
# the order of lines, and a brief report of the same run
trace; inbound 1, came 1 ab, upstream 2 1/1, opened 2, went 2 ab, came 2 c, went 1 c, closed 2 done, closed 1 stopped; \
verdict 1 1 200 10.0.0.9 spiffe://cluster.local/ns/a/sa/c 10.0.0.7:8080, end 1 1 2 1 done; \
accepted 1 inbound|came 1 6162|dialled 2 10.0.0.7:8080|opened 2|went 2 6162|came 2 63|went 1 63|closed 2 done|closed 1 stopped|\
link 1 inbound: received 2, sent 1, closed stopped|link 2 upstream 10.0.0.7:8080 of 1/1: received 1, sent 2, closed done|\
verdict 1/1 200 10.0.0.9 cluster.local/ns/a/sa/c 10.0.0.7:8080|end 1/1 done up 2 down 1|\
total: 0 links, 0 accepted, 0 revoked, 0 up, 0 down|
brief; inbound 1, came 1 ab, upstream 2 1/1, opened 2, went 2 ab, came 2 c, went 1 c, closed 2 done, closed 1 stopped; \
verdict 1 1 200 10.0.0.9 spiffe://cluster.local/ns/a/sa/c 10.0.0.7:8080, end 1 1 2 1 done; \
total: 0 links, 0 accepted, 0 revoked, 0 up, 0 down|
both; inbound 1, closed 1 stopped; verdict 1 1 403 10.0.0.9 none 10.0.0.7:8080; \
total: 0 links, 0 accepted, 0 revoked, 0 up, 0 down|
";

fn assert_row(rt: &impl Abort, alloc: Global, row: &str) {
    let (flags, rest) = cut(row, "; ");
    let (trace, rest) = cut(rest, "; ");
    let (notes, want) = cut(rest, "; ");
    let trace = trace_of(rt, alloc, trace);
    let notes = notes_of(rt, alloc, notes);
    let told = report_text(rt, alloc, flags, trace.as_slice(), notes.as_slice());
    assert!(rt; told.as_str() == want, "{row} told {told}");
}

#[test]
fn runs_with_notes_have_the_wanted_reports(rt: HostRuntime) {
    let alloc = rt.alloc();
    for row in REPORTS.lines() {
        if !row.starts_with("#") {
            assert_row(&rt, alloc, row);
        }
    }
}
