//! Address records: workloads and services.

/// Address records, and what each is read as: what isn't a default, or the fault.
pub const ADDRESSES: &str = "\
# A whole workload, and one without a field.
0a 1f 0a 03 'web 12 01 'a 1a 04 0a 00 00 07 28 01 4a 02 'n 31 82 01 03 'a/p a2 01 02 'u 31; name=web namespace=a node=n1 uid=u1 \
    V4(167772167) policy=a/p hbone
0a 00;
# Every string, and text of several bytes a character.
0a 22 0a 01 'a 12 01 'b 22 01 'c 32 01 'd 3a 01 'e 4a 01 'f a2 01 01 'g aa 01 01 'h 82 01 01 'i 82 01 01 'j; name=a namespace=b \
    network=c trust_domain=d service_account=e node=f uid=g hostname=h policy=i policy=j
0a 0b 0a 09 c3 a9 e2 82 ac f0 9f 92 96; name=é€💖
# A text may have a NUL.
0a 05 0a 03 'a 00 'b; name=a\0b
# A string that isn't UTF-8, in each field that is one.
0a 03 0a 01 ff; utf8 in field 1
0a 03 12 01 ff; utf8 in field 2
0a 03 22 01 ff; utf8 in field 4
0a 03 32 01 ff; utf8 in field 6
0a 03 3a 01 ff; utf8 in field 7
0a 03 4a 01 ff; utf8 in field 9
0a 04 82 01 01 ff; utf8 in field 16
0a 04 a2 01 01 ff; utf8 in field 20
0a 04 aa 01 01 ff; utf8 in field 21
# An overlong character, a surrogate, a character cut short, and one past the last.
0a 04 4a 02 c0 80; utf8 in field 9
0a 05 4a 03 ed a0 80; utf8 in field 9
0a 04 4a 02 'a c3; utf8 in field 9
0a 06 4a 04 f4 90 80 80; utf8 in field 9
# Addresses are 4 or 16 octets; mapped ones are IPv4.
0a 2a 1a 04 0a 00 00 07 1a 10 20 01 0d b8 00 00 00 00 00 00 00 00 00 00 00 07 1a 10 00 00 00 00 00 00 00 00 00 00 ff ff 0a 00 00 \
    08; V4(167772167) V6(42540766411282592856903984951653826567) V4(167772168)
0a 02 1a 00; bad ip in field 3
0a 05 1a 03 00 00 00; bad ip in field 3
0a 07 1a 05 00 00 00 00 00; bad ip in field 3
0a 11 1a 0f 00 00 00 00 00 00 00 00 00 00 00 00 00 00 00; bad ip in field 3
0a 13 1a 11 00 00 00 00 00 00 00 00 00 00 00 00 00 00 00 00 00; bad ip in field 3
# Enums: the low 32 bits of the last occurrence.
0a 02 28 01; hbone
0a 02 28 02;
0a 06 28 81 80 80 80 10; hbone
0a 06 28 80 80 80 80 10;
0a 04 28 01 28 00;
0a 03 88 01 00;
0a 03 88 01 01; unhealthy
0a 03 88 01 07; unhealthy
0a 07 88 01 80 80 80 80 10;
0a 06 88 01 01 88 01 00;
# The last string wins, an empty one too.
0a 09 0a 01 'a 12 01 'b 0a 01 'c; name=c namespace=b
0a 05 0a 01 'a 0a 00;
# Occurrences of the workload merge: scalars by the last, lists by appending.
0a 0f 0a 01 'a 1a 04 00 00 00 01 28 01 82 01 01 'p 0a 10 0a 01 'c 12 01 'b 1a 04 00 00 00 02 82 01 01 'q; name=c namespace=b V4(1) \
    V4(2) policy=p policy=q hbone
0a 03 88 01 01 0a 03 0a 01 'a; name=a unhealthy
0a 03 0a 01 'a 0a 00; name=a
# Unknown fields, and known ones of another wire type, are skipped.
18 07 'y 01 02 03 04 05 06 07 08 0a 1d 0a 01 'a ba 01 01 'x 98 06 01 c1 3e 01 02 03 04 05 06 07 08 9d 01 01 02 03 04 52 01 ff 1a \
    01 ff fd ff ff ff 0f 01 02 03 04; name=a
0a 3a 08 05 09 01 02 03 04 05 06 07 08 0d 01 02 03 04 18 05 80 01 01 49 01 02 03 04 05 06 07 08 ad 01 01 02 03 04 2a 01 'x 8a 01 \
    01 ff 29 01 02 03 04 05 06 07 08 8d 01 01 02 03 04;
08 01 09 01 02 03 04 05 06 07 08 0d 01 02 03 04 10 01 0a 14 40 01 41 01 02 03 04 05 06 07 08 b0 01 01 b5 01 01 02 03 04;
# A record without a kind.
; no kind in field 0
08 01; no kind in field 0
1a 1f 0a 03 'web 12 01 'a 1a 04 0a 00 00 07 28 01 4a 02 'n 31 82 01 03 'a/p a2 01 02 'u 31; no kind in field 0
11 01 02 03 04 05 06 07 08 15 01 02 03 04; no kind in field 0
# A waypoint by a hostname and by an address, with its port and without; neither part of a hostname has to be there.
0a 0e 42 0c 0a 07 0a 02 'ns 12 01 'h 18 98 75; waypoint host ns/h 15000
0a 0e 42 0c 18 98 75 0a 07 12 01 'h 0a 02 'ns; waypoint host ns/h 15000
0a 04 42 02 0a 00; waypoint host / 0
0a 0d 42 0b 12 09 0a 01 'n 12 04 00 00 00 01; waypoint address n/V4(1) 0
0a 0d 42 0b 12 06 12 04 00 00 00 01 18 98 75; waypoint address /V4(1) 15000
0a 16 42 14 12 12 12 10 20 01 0d b8 00 00 00 00 00 00 00 00 00 00 00 07; waypoint address /V6(42540766411282592856903984951653826567) 0
0a 16 42 14 12 12 12 10 00 00 00 00 00 00 00 00 00 00 ff ff 0a 00 00 07; waypoint address /V4(167772167) 0
0a 0a 42 08 0a 00 18 81 80 80 80 10; waypoint host / 1
0a 08 42 06 0a 00 18 09 18 08; waypoint host / 8
# The last member counts; occurrences of one merge, if the other didn't come between.
0a 13 42 11 0a 07 0a 02 'ns 12 01 'h 12 06 12 04 00 00 00 01; waypoint address /V4(1) 0
0a 12 42 10 12 09 0a 01 'n 12 04 00 00 00 01 0a 03 12 01 'h; waypoint host /h 0
0a 0d 42 0b 0a 04 0a 02 'ns 0a 03 12 01 'h; waypoint host ns/h 0
0a 15 42 13 0a 04 0a 02 'ns 12 06 12 04 00 00 00 01 0a 03 12 01 'h; waypoint host /h 0
0a 0f 42 0d 12 06 12 04 00 00 00 01 12 03 0a 01 'n; waypoint address n/V4(1) 0
0a 15 42 13 12 09 0a 01 'n 12 04 00 00 00 01 12 06 12 04 00 00 00 02; waypoint address n/V4(2) 0
0a 17 42 15 12 09 0a 01 'n 12 04 00 00 00 01 0a 00 12 06 12 04 00 00 00 02; waypoint address /V4(2) 0
# So do occurrences of the waypoint, also over those of the workload.
0a 12 42 09 0a 04 0a 02 'ns 18 98 75 42 05 0a 03 12 01 'h; waypoint host ns/h 15000
0a 0f 42 09 0a 07 0a 02 'ns 12 01 'h 42 02 18 09; waypoint host ns/h 9
0a 18 42 0c 0a 07 0a 02 'ns 12 01 'h 18 98 75 42 08 12 06 12 04 00 00 00 01; waypoint address /V4(1) 15000
0a 0a 42 08 12 06 12 04 00 00 00 01 0a 07 42 05 12 03 0a 01 'n; waypoint address n/V4(1) 0
0a 0d 42 09 0a 07 0a 02 'ns 12 01 'h 42 00; waypoint host ns/h 0
# One without either, told as the field that it stands under; each occurrence is looked at where it ends.
0a 02 42 00; no kind in field 8
0a 05 42 03 18 98 75; no kind in field 8
0a 09 42 07 08 01 10 01 22 01 'x; no kind in field 8
0a 09 42 03 18 98 75 42 02 0a 00; no kind in field 8
12 02 3a 00; no kind in field 7
12 09 3a 03 18 98 75 3a 02 0a 00; no kind in field 7
# A network's address without octets, and with others than 4 or 16.
0a 04 42 02 12 00; bad ip in field 2
0a 07 42 05 12 03 0a 01 'n; bad ip in field 2
0a 0b 42 09 12 07 12 05 00 00 00 00 00; bad ip in field 2
0a 06 42 04 12 02 12 00; bad ip in field 2
0a 0f 42 0d 12 03 0a 01 'n 12 06 12 04 00 00 00 01; bad ip in field 2
0a 0d 42 0b 0a 04 0a 02 'ns 12 03 0a 01 'n; bad ip in field 2
0a 11 42 0f 12 06 12 04 00 00 00 01 0a 00 12 03 0a 01 'n; bad ip in field 2
12 02 22 00; bad ip in field 2
12 05 22 03 0a 01 'n; bad ip in field 2
12 0d 22 06 12 04 00 00 00 01 22 03 0a 01 'n; bad ip in field 2
12 07 22 05 12 03 00 00 00; bad ip in field 2
# A map of services, by the bytes of its keys whatever their order.
0a 12 b2 01 0f 0a 04 'ns/h 12 07 0a 05 08 50 10 90 3f; serves=ns/h 80:8080
0a 15 b2 01 12 12 0a 0a 02 08 50 0a 04 08 51 10 01 0a 04 'ns/h; serves=ns/h 80:0 81:1
0a 18 b2 01 03 0a 01 'c b2 01 09 0a 01 'a 12 04 0a 02 08 01 b2 01 03 0a 01 'b; serves=a 1:0 serves=b serves=c
0a 23 b2 01 04 0a 02 'é b2 01 03 0a 01 'z b2 01 04 0a 02 'ab b2 01 03 0a 01 'a b2 01 03 0a 01 'B b2 01 00; serves= serves=B serves=a \
    serves=ab serves=z serves=é
# A later equal key replaces, over merged occurrences too.
0a 18 b2 01 09 0a 01 'a 12 04 0a 02 08 01 b2 01 09 0a 01 'a 12 04 0a 02 08 02; serves=a 2:0
0a 1e b2 01 09 0a 01 'a 12 04 0a 02 08 01 b2 01 09 0a 01 'b 12 04 0a 02 08 03 b2 01 03 0a 01 'a; serves=a serves=b 3:0
0a 18 b2 01 09 0a 01 'b 12 04 0a 02 08 01 b2 01 09 0a 01 'a 12 04 0a 02 08 03 0a 0c b2 01 09 0a 01 'b 12 04 0a 02 08 02; serves=a 3:0 \
    serves=b 2:0
0a 12 b2 01 06 12 04 0a 02 08 01 b2 01 06 12 04 0a 02 08 02; serves= 2:0
# In one entry the last key counts, and its values merge; a missing part is its default.
0a 09 b2 01 06 0a 01 'b 0a 01 'a; serves=a
0a 12 b2 01 0f 12 04 0a 02 08 01 0a 01 'a 12 04 0a 02 08 02; serves=a 1:0 2:0
0a 06 b2 01 03 0a 01 'a; serves=a
0a 09 b2 01 06 12 04 0a 02 08 01; serves= 1:0
0a 0a b2 01 07 0a 01 'a 12 02 0a 00; serves=a 0:0
0a 16 b2 01 13 0a 01 'a 12 0e 0a 0c 08 01 08 02 10 03 10 84 80 80 80 10; serves=a 2:4
0a 20 b2 01 1d 08 01 10 01 1a 01 'x 0a 01 'a 12 11 08 01 12 01 ff 0a 0a 0a 01 'x 18 01 0d 01 02 03 04; serves=a 0:0
# A fault in it, also of an entry that a later one replaces.
0a 06 b2 01 03 0a 01 ff; utf8 in field 1
0a 0c b2 01 09 0a 01 'a 0a 01 ff 0a 01 'a; utf8 in field 1
0a 11 b2 01 08 0a 01 'a 12 03 0a 01 0b b2 01 03 0a 01 'a; BadType at byte 12
0a 0e b2 01 0b 0a 01 'a 12 03 0a 01 08 0a 01 'b; Truncated at byte 13
# A service with all its fields, and one without a field; addresses and ports don't merge.
12 35 0a 01 's 12 01 'a 1a 03 'h.x 22 09 0a 01 'n 12 04 00 00 00 01 22 06 12 04 00 00 00 02 2a 05 08 50 10 90 3f 2a 00 3a 0c 0a 07 0a \
    02 'ns 12 01 'h 18 98 75; service name=s namespace=a hostname=h.x address n/V4(1) address /V4(2) 80:8080 0:0 waypoint host ns/h 15000
12 3a 3a 17 12 15 0a 01 'n 12 10 20 01 0d b8 00 00 00 00 00 00 00 00 00 00 00 07 2a 02 10 01 22 12 12 10 00 00 00 00 00 00 00 00 00 \
    00 ff ff 0a 00 00 07 1a 01 'h 12 01 'a 0a 01 's; service name=s namespace=a hostname=h address /V4(167772167) 0:1 waypoint address \
    n/V6(42540766411282592856903984951653826567) 0
12 00; service
12 17 0a 01 's 22 06 12 04 00 00 00 01 2a 02 08 01 3a 06 0a 04 0a 02 'ns 12 16 0a 01 't 22 06 12 04 00 00 00 02 2a 02 08 02 3a 05 0a \
    03 12 01 'h; service name=t address /V4(1) address /V4(2) 1:0 2:0 waypoint host ns/h 0
12 15 08 01 10 01 18 01 20 01 28 01 38 01 32 01 ff 42 01 ff 0a 01 's; service name=s
12 03 0a 01 ff; utf8 in field 1
12 03 12 01 ff; utf8 in field 2
12 03 1a 01 ff; utf8 in field 3
12 05 22 03 0a 01 ff; utf8 in field 1
12 07 3a 05 0a 03 12 01 ff; utf8 in field 2
# Of a workload and a service the last counts; occurrences of one merge, if the other didn't come between.
0a 03 0a 01 'a 12 00; service
12 03 0a 01 's 0a 00;
0a 03 0a 01 'a 12 00 0a 03 12 01 'b; namespace=b
12 03 0a 01 's 0a 00 12 03 12 01 'b; service namespace=b
0a 03 0a 01 'a 12 03 0a 01 's 12 03 12 01 'b; service name=s namespace=b
0a 0c b2 01 09 0a 01 'a 12 04 0a 02 08 01 12 00 0a 06 b2 01 03 0a 01 'b; serves=b
0a 03 0a 01 'a 10 01; name=a
0a 03 0a 01 ff 12 00; utf8 in field 1
12 02 3a 00 0a 00; no kind in field 7
# The first fault of two, in both orders.
0a 08 0a 01 ff 1a 03 31 32 33; utf8 in field 1
0a 08 1a 03 31 32 33 0a 01 ff; bad ip in field 3
0a 07 aa 01 01 ff 0a 01 ff; utf8 in field 21
0a 05 42 00 0a 01 ff; no kind in field 8
0a 06 0a 01 ff b2 01 00; utf8 in field 1
0a 03 0a 01 ff 12 00; utf8 in field 1
12 00 0a 03 0a 01 ff; utf8 in field 1
0a 09 42 07 12 00 0a 03 0a 01 ff; bad ip in field 2
0a 09 42 07 0a 03 0a 01 ff 12 00; utf8 in field 1
0a 05 42 02 18 01 0b; no kind in field 8
0a 05 42 03 18 01 0b; BadType at byte 6
0a 03 0a 01 ff 0b; utf8 in field 1
0b 0a 03 0a 01 ff; BadType at byte 0
0a 03 0a 01 ff 0a 05; utf8 in field 1
0a 04 0a 01 ff 00; utf8 in field 1
0a 04 00 0a 01 ff; BadNumber at byte 2
# A fault that a later occurrence would have merged away.
0a 06 0a 01 ff 0a 01 'a; utf8 in field 1
0a 03 0a 01 ff 0a 03 0a 01 'a; utf8 in field 1
0a 02 1a 00 0a 00; bad ip in field 3
# A wire fault has its place in the whole record, a span's end too.
0a; Truncated at byte 1
0a 02 0a; Truncated at byte 3
0a 04 0a 05 'ab 0a 00; Truncated at byte 6
0a 00 0a 01 0b; BadType at byte 4
0a 03 28 01 00; BadNumber at byte 4
0a 0b 28 ff ff ff ff ff ff ff ff ff 02; LongVarint at byte 12
ff ff ff ff ff ff ff ff ff ff; LongVarint at byte 9
0a 05 42 03 0a 01 0b; BadType at byte 6
0a 06 42 04 12 02 12 04; Truncated at byte 8
12 03 2a 01 00; BadNumber at byte 4
0a 03 0a 01 'a 80; Truncated at byte 6";
