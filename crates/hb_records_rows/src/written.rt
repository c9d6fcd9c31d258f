//! Records, what each is written as by the rules of the canonical spelling, and what both are read as.

/// Address records.
pub const WRITTEN_ADDRESSES: &str = "\
# A workload with most of its fields. One of which no field is set, and a service: the member is written.
0a 1f 0a 03 'web 12 01 'a 1a 04 0a 00 00 07 28 01 4a 02 'n1 82 01 03 'a/p a2 01 02 'u1; \
    0a 1f 0a 03 'web 12 01 'a 1a 04 0a 00 00 07 28 01 4a 02 'n1 82 01 03 'a/p a2 01 02 'u1; \
    name=web namespace=a node=n1 uid=u1 V4(167772167) policy=a/p hbone
0a 00; 0a 00;
12 00; 12 00; service
# Fields by rising number; the last string of two; no defaults, no unknown fields.
0a 06 12 01 'b 0a 01 'a; 0a 06 0a 01 'a 12 01 'b; name=a namespace=b
0a 06 0a 01 'b 0a 01 'a; 0a 03 0a 01 'a; name=a
0a 09 0a 00 28 00 88 01 00 58 01; 0a 00;
# Protocols other than HBONE are none; each status but healthy is 1.
0a 02 28 01; 0a 02 28 01; hbone
0a 02 28 02; 0a 00;
0a 03 88 01 01; 0a 03 88 01 01; unhealthy
0a 03 88 01 02; 0a 03 88 01 01; unhealthy
# Four octets or sixteen, and four of an address that is mapped.
0a 06 1a 04 00 00 00 00; 0a 06 1a 04 00 00 00 00; V4(0)
0a 12 1a 10 20 01 0d b8 00 00 00 00 00 00 00 00 00 00 00 07; 0a 12 1a 10 20 01 0d b8 00 00 00 00 00 00 00 00 00 00 00 07; \
    V6(42540766411282592856903984951653826567)
0a 12 1a 10 00 00 00 00 00 00 00 00 00 00 ff ff 0a 00 00 07; 0a 06 1a 04 0a 00 00 07; V4(167772167)
# An empty entry of a list is written.
0a 03 82 01 00; 0a 03 82 01 00; policy=
12 02 2a 00; 12 02 2a 00; service 0:0
12 08 22 06 12 04 0a 00 00 07; 12 08 22 06 12 04 0a 00 00 07; service address /V4(167772167)
# Entries of a map by the bytes of their keys: an empty key isn't written, and its value always is.
0a 0c b2 01 03 0a 01 'b b2 01 03 0a 01 'a; 0a 10 b2 01 05 0a 01 'a 12 00 b2 01 05 0a 01 'b 12 00; serves=a serves=b
0a 03 b2 01 00; 0a 05 b2 01 02 12 00; serves=
0a 08 b2 01 05 12 00 0a 01 'a; 0a 08 b2 01 05 0a 01 'a 12 00; serves=a
0a 0a b2 01 07 12 02 0a 00 0a 01 'a; 0a 0a b2 01 07 0a 01 'a 12 02 0a 00; serves=a 0:0
# The member of a gateway is written where it is empty, and in front of the port; a number in its shortest spelling.
0a 04 42 02 0a 00; 0a 04 42 02 0a 00; waypoint host / 0
0a 07 42 05 18 d0 00 0a 00; 0a 06 42 04 0a 00 18 50; waypoint host / 80
12 0a 3a 08 12 06 12 04 0a 00 00 07; 12 0a 3a 08 12 06 12 04 0a 00 00 07; service waypoint address /V4(167772167) 0";

/// Authorization policies.
pub const WRITTEN_POLICIES: &str = "\
# Policies in their canonical spelling.
0a 01 'p 12 01 'a 18 02 2a 1f 12 1d 12 1b 1a 19 0a 17 'cluster 2e 'local/ns/a/sa/c; \
    0a 01 'p 12 01 'a 18 02 2a 1f 12 1d 12 1b 1a 19 0a 17 'cluster 2e 'local/ns/a/sa/c; \
    name=p namespace=a Selector Allow rule clause match principal exact cluster.local/ns/a/sa/c
0a 01 'p 12 01 'a 18 02 2a 08 12 06 12 04 4a 02 82 47; 0a 01 'p 12 01 'a 18 02 2a 08 12 06 12 04 4a 02 82 47; \
    name=p namespace=a Selector Allow rule clause match port 9090
# Scope and action by their numbers, and no defaults.
20 01 18 81 80 80 80 10; 18 01 20 01; Namespace Deny
0a 00 18 00 20 00; ; Global Allow
# Empty rules, clauses and matches are written.
2a 00; 2a 00; Global Allow rule
2a 04 12 02 12 00; 2a 04 12 02 12 00; Global Allow rule clause match
# The member of a string match is written where it is empty; of presence nothing but that.
2a 08 12 06 12 04 1a 02 0a 00; 2a 08 12 06 12 04 1a 02 0a 00; Global Allow rule clause match principal exact
2a 08 12 06 12 04 12 02 12 00; 2a 08 12 06 12 04 12 02 12 00; Global Allow rule clause match not_namespace prefix
2a 08 12 06 12 04 0a 02 1a 00; 2a 08 12 06 12 04 0a 02 1a 00; Global Allow rule clause match namespace suffix
2a 09 12 07 12 05 22 03 22 01 ff; 2a 08 12 06 12 04 22 02 22 00; Global Allow rule clause match not_principal presence
# Numbers in one packed field, 0 too, and none of them in no field.
2a 08 12 06 12 04 48 50 48 51; 2a 08 12 06 12 04 4a 02 50 51; Global Allow rule clause match port 80 port 81
2a 06 12 04 12 02 50 00; 2a 07 12 05 12 03 52 01 00; Global Allow rule clause match not_port 0
2a 08 12 06 12 04 4a 00 52 00; 2a 04 12 02 12 00; Global Allow rule clause match
# A prefix keeps the bits behind its length, and of a mapped one with 96 bits or more the last four octets are written.
2a 0e 12 0c 12 0a 2a 08 10 08 0a 04 0a 00 00 07; 2a 0e 12 0c 12 0a 2a 08 0a 04 0a 00 00 07 10 08; \
    Global Allow rule clause match source V4(167772167)/8
2a 1a 12 18 12 16 42 14 0a 10 00 00 00 00 00 00 00 00 00 00 ff ff 0a 00 00 07 10 60; 2a 0c 12 0a 12 08 42 06 0a 04 0a 00 00 07; \
    Global Allow rule clause match not_destination V4(167772167)/0
2a 1a 12 18 12 16 3a 14 0a 10 00 00 00 00 00 00 00 00 00 00 ff ff 0a 00 00 07 10 5f; \
    2a 1a 12 18 12 16 3a 14 0a 10 00 00 00 00 00 00 00 00 00 00 ff ff 0a 00 00 07 10 5f; \
    Global Allow rule clause match destination V6(281470849515527)/95";
