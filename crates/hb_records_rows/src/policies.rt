//! Authorization policies.

/// Authorization policies, and what each is read as.
pub const POLICIES: &str = "\
# A policy of a selector, one that denies all, one without rules, and no bytes.
0a 01 'p 12 01 'a 18 02 2a 1f 12 1d 12 1b 1a 19 0a 17 'cluster 2e 'local/ns/a/sa/c; name=p namespace=a Selector Allow rule clause \
    match principal exact cluster.local/ns/a/sa/c
0a 01 'd 20 01 2a 00; name=d Global Deny rule
0a 01 'e; name=e Global Allow
; Global Allow
# Rules, clauses and matches in order, each with its own.
2a 00 2a 17 12 00 12 13 12 00 12 0f 1a 03 0a 01 'a 22 03 12 01 'b 1a 03 1a 01 'c 2a 08 12 06 12 04 22 02 22 00; Global Allow rule \
    rule clause clause match match principal exact a principal suffix c not_principal prefix b rule clause match not_principal presence
# Scope and action: the low 32 bits of the last occurrence.
18 00; Global Allow
18 01; Namespace Allow
18 02; Selector Allow
18 81 80 80 80 10; Namespace Allow
20 00; Global Allow
20 01; Global Deny
20 81 80 80 80 10; Global Deny
18 01 20 01 18 02 20 00; Selector Allow
# Values that they don't name.
18 03; bad enum 3 in field 3
18 83 80 80 80 10; bad enum 3 in field 3
18 ff ff ff ff ff ff ff ff ff 01; bad enum 4294967295 in field 3
20 02; bad enum 2 in field 4
20 82 80 80 80 10; bad enum 2 in field 4
20 80 80 80 80 08; bad enum 2147483648 in field 4
# A string that isn't UTF-8, in each field that is one.
0a 01 ff; utf8 in field 1
12 01 ff; utf8 in field 2
2a 09 12 07 12 05 1a 03 0a 01 ff; utf8 in field 1
2a 09 12 07 12 05 1a 03 12 01 ff; utf8 in field 2
2a 09 12 07 12 05 1a 03 1a 01 ff; utf8 in field 3
2a 09 12 07 12 05 22 03 12 01 ff; utf8 in field 2
# The last string wins.
0a 01 'a 12 01 'b 0a 01 'c; name=c namespace=b Global Allow
# A string match is its last member; the bytes of presence don't matter.
2a 0c 12 0a 12 08 1a 06 0a 01 'a 12 01 'b; Global Allow rule clause match principal prefix b
2a 0b 12 09 12 07 1a 05 12 01 'b 0a 00; Global Allow rule clause match principal exact
2a 0c 12 0a 12 08 1a 06 1a 01 'b 22 01 ff; Global Allow rule clause match principal presence
2a 10 12 0e 12 0c 1a 0a 22 00 1a 01 'b 2a 01 'c 08 01; Global Allow rule clause match principal suffix b
# One without a member is told as the field that it stands under.
2a 06 12 04 12 02 1a 00; no kind in field 3
2a 06 12 04 12 02 22 00; no kind in field 4
2a 06 12 04 12 02 0a 00; no kind in field 1
2a 06 12 04 12 02 12 00; no kind in field 2
2a 1b 12 19 12 17 1a 15 2a 01 'a 08 01 11 01 02 03 04 05 06 07 08 1d 01 02 03 04 20 01; no kind in field 3
# All ten attributes, each with its own.
2a 5d 12 5b 12 59 0a 03 0a 01 'a 12 03 12 01 'b 1a 03 1a 01 'c 22 02 22 00 2a 08 0a 04 0a 00 00 07 10 08 32 14 0a 10 20 01 0d b8 00 \
    00 00 00 00 00 00 00 00 00 00 07 10 40 3a 14 0a 10 00 00 00 00 00 00 00 00 00 00 ff ff 0a 00 00 07 10 68 42 06 0a 04 00 00 00 00 4a \
    03 50 90 3f 50 bb 03; Global Allow rule clause match namespace exact a not_namespace prefix b principal suffix c not_principal \
    presence source V4(167772167)/8 not_source V6(42540766411282592856903984951653826567)/64 destination V4(167772167)/8 not_destination \
    V4(0)/0 port 80 port 8080 not_port 443
2a 3a 12 38 12 36 50 bb 03 4a 01 50 42 06 0a 04 0a 00 00 07 3a 06 0a 04 0a 00 00 07 32 06 0a 04 0a 00 00 07 2a 06 0a 04 0a 00 00 07 \
    22 02 22 00 1a 02 22 00 12 02 22 00 0a 02 22 00; Global Allow rule clause match namespace presence not_namespace presence principal \
    presence not_principal presence source V4(167772167)/0 not_source V4(167772167)/0 destination V4(167772167)/0 not_destination \
    V4(167772167)/0 port 80 not_port 443
2a 22 12 20 12 1e 0a 03 0a 01 'b 0a 03 1a 01 'a 2a 08 0a 04 0a 00 00 07 10 20 2a 08 0a 04 0a 00 00 07 10 20; Global Allow rule clause \
    match namespace exact b namespace suffix a source V4(167772167)/32 source V4(167772167)/32
# A prefix's length is the last, of its low 32 bits, and 0 where it is missing; so is its address. The bits behind the length stay.
2a 0e 12 0c 12 0a 2a 08 10 08 0a 04 0a 00 00 07; Global Allow rule clause match source V4(167772167)/8
2a 10 12 0e 12 0c 2a 0a 0a 04 0a 00 00 07 10 21 10 20; Global Allow rule clause match source V4(167772167)/32
2a 12 12 10 12 0e 2a 0c 0a 04 0a 00 00 07 10 88 80 80 80 10; Global Allow rule clause match source V4(167772167)/8
2a 14 12 12 12 10 2a 0e 0a 04 00 00 00 01 0a 04 0a 00 00 07 10 09; Global Allow rule clause match source V4(167772167)/9
2a 20 12 1e 12 1c 2a 1a 0a 04 0a 00 00 07 10 21 0a 10 20 01 0d b8 00 00 00 00 00 00 00 00 00 00 00 07; Global Allow rule clause match \
    source V6(42540766411282592856903984951653826567)/33
2a 1b 12 19 12 17 2a 15 0a 10 20 01 0d b8 00 00 00 00 00 00 00 00 00 00 00 07 10 80 01; Global Allow rule clause match source \
    V6(42540766411282592856903984951653826567)/128
2a 18 12 16 12 14 2a 12 12 01 'x 08 01 18 01 0a 04 0a 00 00 07 15 01 02 03 04; Global Allow rule clause match source V4(167772167)/0
# Octets that map an IPv4 address, with a length from 96 on, are an IPv4 prefix.
2a 1a 12 18 12 16 2a 14 0a 10 00 00 00 00 00 00 00 00 00 00 ff ff 0a 00 00 07 10 60; Global Allow rule clause match source V4(167772167)/0
2a 1b 12 19 12 17 2a 15 0a 10 00 00 00 00 00 00 00 00 00 00 ff ff 0a 00 00 07 10 80 01; Global Allow rule clause match source \
    V4(167772167)/32
2a 1a 12 18 12 16 2a 14 0a 10 00 00 00 00 00 00 00 00 00 00 ff ff 0a 00 00 07 10 5f; Global Allow rule clause match source \
    V6(281470849515527)/95
2a 18 12 16 12 14 2a 12 0a 10 00 00 00 00 00 00 00 00 00 00 ff ff 0a 00 00 07; Global Allow rule clause match source V6(281470849515527)/0
# A prefix without an address, and one that is longer than its address, are told as the field that it stands under.
2a 06 12 04 12 02 2a 00; bad cidr in field 5
2a 0e 12 0c 12 0a 2a 08 0a 04 0a 00 00 07 10 21; bad cidr in field 5
2a 06 12 04 12 02 32 00; bad cidr in field 6
2a 0e 12 0c 12 0a 32 08 0a 04 0a 00 00 07 10 21; bad cidr in field 6
2a 06 12 04 12 02 3a 00; bad cidr in field 7
2a 0e 12 0c 12 0a 3a 08 0a 04 0a 00 00 07 10 21; bad cidr in field 7
2a 06 12 04 12 02 42 00; bad cidr in field 8
2a 0e 12 0c 12 0a 42 08 0a 04 0a 00 00 07 10 21; bad cidr in field 8
2a 08 12 06 12 04 2a 02 10 08; bad cidr in field 5
2a 12 12 10 12 0e 2a 0c 0a 04 0a 00 00 07 10 ff ff ff ff 0f; bad cidr in field 5
2a 1b 12 19 12 17 2a 15 0a 10 20 01 0d b8 00 00 00 00 00 00 00 00 00 00 00 07 10 81 01; bad cidr in field 5
2a 1b 12 19 12 17 2a 15 0a 10 00 00 00 00 00 00 00 00 00 00 ff ff 0a 00 00 07 10 81 01; bad cidr in field 5
2a 20 12 1e 12 1c 2a 1a 0a 10 20 01 0d b8 00 00 00 00 00 00 00 00 00 00 00 07 10 40 0a 04 0a 00 00 07; bad cidr in field 5
2a 0d 12 0b 12 09 2a 07 08 01 15 01 02 03 04; bad cidr in field 5
# Octets other than 4 or 16 are told where they stand, whatever comes behind them.
2a 08 12 06 12 04 2a 02 0a 00; bad ip in field 1
2a 0d 12 0b 12 09 2a 07 0a 05 00 00 00 00 00; bad ip in field 1
2a 11 12 0f 12 0d 2a 0b 0a 03 00 00 00 0a 04 0a 00 00 07; bad ip in field 1
2a 0d 12 0b 12 09 2a 07 10 21 0a 03 00 00 00; bad ip in field 1
2a 0c 12 0a 12 08 42 06 0a 03 00 00 00 0b; bad ip in field 1
# Ports one a field, packed and mixed, in order; the low 32 bits of each.
2a 06 12 04 12 02 48 50; Global Allow rule clause match port 80
2a 06 12 04 12 02 50 50; Global Allow rule clause match not_port 80
2a 09 12 07 12 05 4a 03 50 90 3f; Global Allow rule clause match port 80 port 8080
2a 09 12 07 12 05 52 03 50 90 3f; Global Allow rule clause match not_port 80 not_port 8080
2a 14 12 12 12 10 48 01 4a 02 02 03 50 09 48 04 4a 01 05 52 01 08; Global Allow rule clause match port 1 port 2 port 3 port 4 port 5 \
    not_port 9 not_port 8
2a 0c 12 0a 12 08 48 50 48 50 4a 02 50 00; Global Allow rule clause match port 80 port 80 port 80 port 0
2a 08 12 06 12 04 4a 00 52 00; Global Allow rule clause match
2a 18 12 16 12 14 4a 07 81 80 80 80 10 d0 00 48 ff ff ff ff ff ff ff ff ff 01; Global Allow rule clause match port 1 port 80 port \
    4294967295
# A packed run that ends inside a varint is cut at its own end; a varint that is too long has its place.
2a 0b 12 09 12 07 4a 02 50 90 52 01 01; Truncated at byte 10
2a 07 12 05 12 03 52 01 80; Truncated at byte 9
2a 11 12 0f 12 0d 4a 0b 01 ff ff ff ff ff ff ff ff ff ff; LongVarint at byte 18
# Unknown fields, and known ones of another wire type, are skipped.
32 01 ff 38 01 2a 49 0a 01 ff 10 01 11 01 02 03 04 05 06 07 08 12 39 0a 01 ff 15 01 02 03 04 10 01 12 2d 5a 01 ff 08 01 10 01 18 \
    01 20 01 28 01 40 01 58 01 49 01 02 03 04 05 06 07 08 55 01 02 03 04 19 01 02 03 04 05 06 07 08 25 01 02 03 04; Global Allow \
    rule clause match
08 01 11 01 02 03 04 05 06 07 08 1a 01 'x 1d 01 02 03 04 21 01 02 03 04 05 06 07 08 22 01 ff 28 01 2d 01 02 03 04; Global Allow
# The first fault of two, in both orders.
18 09 20 09; bad enum 9 in field 3
20 09 18 09; bad enum 9 in field 4
12 01 ff 2a 06 12 04 12 02 1a 00; utf8 in field 2
2a 06 12 04 12 02 1a 00 12 01 ff; no kind in field 3
2a 08 12 06 12 04 1a 00 2a 00; no kind in field 3
2a 08 12 06 12 04 2a 00 1a 00; bad cidr in field 5
2a 0b 12 09 12 07 22 03 0a 01 ff 1a 00; utf8 in field 1
2a 09 12 07 12 05 1a 01 0b 22 00; BadType at byte 8
# A fault that a later occurrence would have overridden.
18 09 18 00; bad enum 9 in field 3
20 09 20 00; bad enum 9 in field 4
0a 01 ff 0a 01 'a; utf8 in field 1
2a 0b 12 09 12 07 1a 05 0a 01 ff 22 00; utf8 in field 1
2a 06 12 04 12 02 1a 00 2a 08 12 06 12 04 1a 02 22 00; no kind in field 3
# A wire fault has its place in the whole record, a span's end too.
0a 02 'ab 2a 09 12 07 12 05 1a 03 0a 05 'a 0a 01 'c; Truncated at byte 15
2a 07 12 05 12 03 22 01 00; BadNumber at byte 8
2a 05 12 00 12 00 0a; Truncated at byte 7
2a 0f 12 0d 12 0b 08 80 80 80 80 80 80 80 80 80 02; LongVarint at byte 16
0a 01 'a 1b; BadType at byte 3
0a 01 'p 12 01 'a 18 02 2a 1f 12 1d 12 1b 1a 19 0a 17 'cluster 2e 'local/ns/a/sa/; Truncated at byte 40";
