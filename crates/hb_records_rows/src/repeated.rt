//! Records with many entries of a repeated field, of which it may have 4,096.

/// Address records, and how what each is read as begins.
pub const REPEATED_IN_ADDRESSES: &str = "\
# Addresses of a workload, in one occurrence and over merged ones.
0a 80 c0 01 1a,04,00,00,00,01*4096; V4(1) V4(1) ..
0a 86 c0 01 1a,04,00,00,00,01*4097; too many in field 3: 4097
0a 82 c0 01 1a,04,00,00,00,01*4096 1a 00; too many in field 3: 4097
0a,06,1a,04,00,00,00,01*4096 0a 03 12 01 'a; namespace=a V4(1) V4(1) ..
0a,06,1a,04,00,00,00,01*4097; too many in field 3: 4097
0a 80 c0 01 1a,04,00,00,00,01*4096 0a 03 1a 01 31; too many in field 3: 4097
0a 03 1a 01 31 0a,06,1a,04,00,00,00,01*4097; bad ip in field 3
# Policies of a workload, beside as many addresses.
0a,09,1a,04,00,00,00,01,82,01,00*4096; V4(1) V4(1) ..
0a,03,82,01,00*4097; too many in field 16: 4097
0a,03,82,01,00*4096 0a 04 82 01 01 ff; too many in field 16: 4097
0a,03,82,01,00*4096 0a 03 0a 01 ff; utf8 in field 1
# Addresses and ports of a service.
12 80 80 02 22,06,12,04,00,00,00,01*4096; service address /V4(1) address /V4(1) ..
12 88 80 02 22,06,12,04,00,00,00,01*4097; too many in field 4: 4097
12 82 80 02 22,06,12,04,00,00,00,01*4096 22 00; too many in field 4: 4097
12 80 40 2a,00*4096; service 0:0 0:0 ..
12 82 40 2a,00*4097; too many in field 5: 4097
12 80 40 2a,00*4096 12 03 2a 01 0b; too many in field 5: 4097
# Entries of a map of services: equal keys count each, until a service comes between.
0a 80 60 b2,01,00*4096; serves=
0a 83 60 b2,01,00*4097; too many in field 22: 4097
0a 84 60 b2,01,00*4096 b2 01 01 0b; too many in field 22: 4097
0a 80 60 b2,01,00*4096 0a 06 b2 01 03 0a 01 'a; too many in field 22: 4097
0a 80 60 b2,01,00*4096 12 00 0a 06 b2 01 03 0a 01 'a; serves=a
# Ports of an entry, over its merged values; each entry has its own.
0a 91 80 01 b2 01 86 40 12 80 40 0a,00*4096 0a 01 'a b2 01 83 40 12 80 40 0a,00*4096; serves= 0:0 0:0 ..
0a 89 40 b2 01 85 40 12 82 40 0a,00*4097; too many in field 1: 4097
0a 8f 40 b2 01 8b 40 12 80 40 0a,00*4096 0a 01 'a 12 03 0a 01 0b; too many in field 1: 4097";

/// Policies, and how what each is read as begins.
pub const REPEATED_IN_POLICIES: &str = "\
# Rules of a policy.
2a,00*4096; Global Allow rule rule ..
2a,00*4097; too many in field 5: 4097
2a,00*4096 2a 01 0b; too many in field 5: 4097
2a 01 0b 2a,00*4097; BadType at byte 2
# Clauses of a rule.
2a 80 40 12,00*4096 2a 02 12 00; Global Allow rule clause clause ..
2a 82 40 12,00*4097; too many in field 2: 4097
2a 83 40 12,00*4096 12 01 0b; too many in field 2: 4097
# Matches of a clause.
2a 83 40 12 80 40 12,00*4096; Global Allow rule clause match match ..
2a 85 40 12 82 40 12,00*4097; too many in field 2: 4097
2a 87 40 12 84 40 12,00*4096 12 02 4a 00; too many in field 2: 4097
# Principals of a match, of both kinds.
2a 88 80 02 12 84 80 02 12 80 80 02 1a,02,22,00,22,02,22,00*4096; Global Allow rule clause match principal presence \
    principal presence ..
2a 8c 80 01 12 88 80 01 12 84 80 01 1a,02,22,00*4097; too many in field 3: 4097
2a 8a 80 01 12 86 80 01 12 82 80 01 1a,02,22,00*4096 1a 00; too many in field 3: 4097
2a 8c 80 01 12 88 80 01 12 84 80 01 22,02,22,00*4097; too many in field 4: 4097
2a 8a 80 01 12 86 80 01 12 82 80 01 22,02,22,00*4096 22 00; too many in field 4: 4097
2a 8a 80 01 12 86 80 01 12 82 80 01 22,02,22,00*4096 1a 00; no kind in field 3
# Namespaces of a match, and prefixes.
2a 88 80 01 12 84 80 01 12 80 80 01 0a,02,22,00*4096; Global Allow rule clause match namespace presence ..
2a 8a 80 01 12 86 80 01 12 82 80 01 0a,02,22,00*4096 0a 00; too many in field 1: 4097
2a 88 80 01 12 84 80 01 12 80 80 01 12,02,22,00*4096; Global Allow rule clause match not_namespace presence ..
2a 8a 80 01 12 86 80 01 12 82 80 01 12,02,22,00*4096 12 00; too many in field 2: 4097
2a 88 80 02 12 84 80 02 12 80 80 02 2a,06,0a,04,00,00,00,01*4096; Global Allow rule clause match source V4(1)/0 ..
2a 90 80 02 12 8c 80 02 12 88 80 02 2a,06,0a,04,00,00,00,01*4097; too many in field 5: 4097
2a 88 80 02 12 84 80 02 12 80 80 02 32,06,0a,04,00,00,00,01*4096; Global Allow rule clause match not_source V4(1)/0 ..
2a 90 80 02 12 8c 80 02 12 88 80 02 32,06,0a,04,00,00,00,01*4097; too many in field 6: 4097
2a 88 80 02 12 84 80 02 12 80 80 02 3a,06,0a,04,00,00,00,01*4096; Global Allow rule clause match destination V4(1)/0 ..
2a 90 80 02 12 8c 80 02 12 88 80 02 3a,06,0a,04,00,00,00,01*4097; too many in field 7: 4097
2a 88 80 02 12 84 80 02 12 80 80 02 42,06,0a,04,00,00,00,01*4096; Global Allow rule clause match not_destination V4(1)/0 ..
2a 90 80 02 12 8c 80 02 12 88 80 02 42,06,0a,04,00,00,00,01*4097; too many in field 8: 4097
2a 8c 80 02 12 88 80 02 12 84 80 02 2a,06,0a,04,00,00,00,01*4096 2a 02 0a 00; too many in field 5: 4097
# Ports of a match, packed or not, whatever the 4,097th is.
2a 8b 20 12 88 20 12 85 20 4a 80 20 50*4096 4a 00; Global Allow rule clause match port 80 port 80 ..
2a 8a 20 12 87 20 12 84 20 4a 81 20 50*4097; too many in field 9: 4097
2a 8a 20 12 87 20 12 84 20 4a 81 20 50*4096 80; too many in field 9: 4097
2a 86 40 12 83 40 12 80 40 48,50*4096; Global Allow rule clause match port 80 ..
2a 88 40 12 85 40 12 82 40 48,50*4097; too many in field 9: 4097
2a 89 40 12 86 40 12 83 40 48,50*4096 4a 01 80; too many in field 9: 4097
2a 8c 20 12 89 20 12 86 20 4a ff 1f 50*4095 48 01 48 01; too many in field 9: 4097
2a 8b 20 12 88 20 12 85 20 52 80 20 50*4096 52 00; Global Allow rule clause match not_port 80 not_port 80 ..
2a 8a 20 12 87 20 12 84 20 52 81 20 50*4097; too many in field 10: 4097
2a 8a 20 12 87 20 12 84 20 52 81 20 50*4096 80; too many in field 10: 4097
2a 86 40 12 83 40 12 80 40 50,50*4096; Global Allow rule clause match not_port 80 ..
2a 88 40 12 85 40 12 82 40 50,50*4097; too many in field 10: 4097
2a 89 40 12 86 40 12 83 40 50,50*4096 52 01 80; too many in field 10: 4097
2a 8c 20 12 89 20 12 86 20 52 ff 1f 50*4095 50 01 50 01; too many in field 10: 4097
2a 8c 20 12 89 20 12 86 20 4a 80 20 50*4096 52 01 50; Global Allow rule clause match port 80 ..
2a 89 20 12 86 20 12 83 20 4a 80 20 50*4095 80; Truncated at byte 4108";
