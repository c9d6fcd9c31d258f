//! Lives of an inbound link, number 7, worked by hand from RFC 9113 and the pages. Its upstreams have the numbers that the rows give them.
//!
//! Octets are names of `octets.rt`, or have hexadecimal digits. `S` is a stream, `N` a number.
//!
//! | Line | Says |
//! |---|---|
//! | `row NAME` | a link is accepted at the inbound door of a node that was told nothing |
//! | `turned away` | as many links were open as may be, when it came; a row's first line |
//! | `places N of N` | the tunnels of other links take so many places of so many |
//! | `update NAME` | this response comes, and the link's tunnels are judged |
//! | `came OCTETS`, `ended`, `broke` | these come of it, it ends, or it breaks |
//! | `sent OCTETS`, `last OCTETS` | these wait to be written, as its last words, and are; then none wait |
//! | `stopped` | the run ends |
//! | `reads N`, `upreads S N` | so many octets may be read of it, and of the upstream of a stream |
//! | `load N` | its tunnels take so many places |
//! | `act WORDS`, `note WORDS` | the act that is due, and the next note |
//! | `rouse`, `roused WORDS` | all its upstreams are roused; the next one that is, `none` where none is |
//! | `dialled S N`, `undialled S` | what was to be dialled for a stream gave the upstream N, or failed |
//! | `upopened S`, `upended S`, `upbroke S` | its upstream is open, ends, or breaks |
//! | `upcame S OCTETS` | these come of it |
//! | `upsent S OCTETS of them N` | these wait for it, and the first N of them are written |
//! | `serves`, `opens` | the lines below |

/// The target's workload is known and no policy is there; the link's header and preface come.
pub const SERVES: &[u8] = b"\
update KNOWN\n\
update NO_POLICY\n\
came INBOUND_FRONT\n\
sent OWN_SETTINGS\n\
came PREFACE SETTINGS\n\
sent SETTINGS_ACK";

/// A tunnel is asked for on stream 1, and its upstream, number 8, opens.
pub const OPENS: &[u8] = b"\
came CONNECT_1\n\
act dial 10.0.0.7:9090 of 7/1\n\
dialled 1 8\n\
act none\n\
upreads 1 0\n\
upopened 1\n\
note verdict 7/1 200 c 10.0.0.7:9090\n\
sent 000002010400000001 2088";

/// The lives.
pub const LIVES: &[u8] = b"\
row the header ends before it is whole\n\
came 0d0a0d0a000d0a515549540a2111002f0a000009\n\
ended\n\
reads 0\n\
act close 7 front fault 0\n\
act none\n\
row it is turned away\n\
turned away\n\
reads 0\n\
load 0\n\
sent\n\
act close 7 no room\n\
act none\n\
row the whole life of a tunnel, the peer's end first\n\
serves\n\
load 0\n\
rouse\n\
roused none\n\
opens\n\
load 1\n\
roused 8\n\
roused none\n\
came 000004000000000001 70696e67\n\
roused 8\n\
upsent 1 70696e67 of them 1\n\
upsent 1 696e67 of them 3\n\
upcame 1 706f6e67\n\
sent 000004000000000001 706f6e67\n\
came 000000000100000001\n\
act shut 8\n\
act none\n\
upcame 1 6d6f7265\n\
upended 1\n\
sent 000004000000000001 6d6f7265 000000000100000001\n\
note end 7/1 4 8 done\n\
act close 8 done\n\
act none\n\
load 0\n\
ended\n\
act close 7 done\n\
act none\n\
row a dial that fails\n\
serves\n\
came CONNECT_1\n\
act dial 10.0.0.7:9090 of 7/1\n\
undialled 1\n\
note verdict 7/1 502 c 10.0.0.7:9090\n\
sent 000006010500000001 200803353032 000004030000000001 00000000\n\
act none\n\
load 0\n\
row a request where all places are taken\n\
serves\n\
places 4095 of 4096\n\
came CONNECT_1 CONNECT_3\n\
note verdict 7/3 503 c 10.0.0.7:9090\n\
sent 000006010500000003 200803353033 000004030000000003 00000000\n\
act dial 10.0.0.7:9090 of 7/1\n\
load 1\n\
row its upstream breaks\n\
serves\n\
opens\n\
came 000004000000000001 70696e67\n\
upsent 1 70696e67 of them 4\n\
upbroke 1\n\
note end 7/1 4 0 up fault\n\
act close 8 up fault\n\
sent 000004030000000001 0000000a\n\
act none\n\
row an update ends its tunnel\n\
serves\n\
opens\n\
update KNOWN\n\
act none\n\
update ALLOWS_NONE\n\
note end 7/1 0 0 revoked\n\
act close 8 revoked\n\
sent 000004030000000001 00000008\n\
act none\n\
row an update comes in front of a dial\n\
serves\n\
came CONNECT_1\n\
update ALLOWS_NONE\n\
note verdict 7/1 401 c 10.0.0.7:9090\n\
act none\n\
sent 000006010500000001 200803343031 000004030000000001 00000000\n\
row an update ends a request that waits, and then two tunnels\n\
serves\n\
opens\n\
came CONNECT_3 CONNECT_5\n\
act dial 10.0.0.7:9090 of 7/3\n\
dialled 3 9\n\
act dial 10.0.0.7:9090 of 7/5\n\
dialled 5 10\n\
upopened 3\n\
note verdict 7/3 200 c 10.0.0.7:9090\n\
sent 000001010400000003 88\n\
update ALLOWS_NONE\n\
note verdict 7/5 401 c 10.0.0.7:9090\n\
note end 7/1 0 0 revoked\n\
note end 7/3 0 0 revoked\n\
act close 8 revoked\n\
act close 9 revoked\n\
act close 10 revoked\n\
act none\n\
sent 000005010500000005 0803343031 000004030000000005 00000000 000004030000000001 00000008 000004030000000003 00000008\n\
row bytes of its upstreams go by turns, and the turn passes over a stream that has none\n\
serves\n\
opens\n\
came CONNECT_3 CONNECT_5\n\
act dial 10.0.0.7:9090 of 7/3\n\
dialled 3 9\n\
act dial 10.0.0.7:9090 of 7/5\n\
dialled 5 10\n\
upopened 3\n\
note verdict 7/3 200 c 10.0.0.7:9090\n\
upopened 5\n\
note verdict 7/5 200 c 10.0.0.7:9090\n\
sent 000001010400000003 88 000001010400000005 88\n\
came 000008060000000000 3132333435363738\n\
upcame 1 61\n\
upcame 3 62\n\
upcame 5 63\n\
sent 000008060100000000 3132333435363738 000001000000000001 61 000001000000000003 62 000001000000000005 63\n\
came 000008060000000000 3132333435363738\n\
upcame 5 43\n\
upcame 3 42\n\
upcame 1 41\n\
sent 000008060100000000 3132333435363738 000001000000000001 41 000001000000000003 42 000001000000000005 43\n\
upcame 1 78\n\
sent 000001000000000001 78\n\
came 000008060000000000 3132333435363738\n\
upcame 1 61\n\
upcame 5 63\n\
sent 000008060100000000 3132333435363738 000001000000000005 63 000001000000000001 61\n\
upcame 5 79\n\
upcame 1 61\n\
upcame 3 62\n\
sent 000001000000000005 79 000001000000000001 61 000001000000000003 62\n\
row it breaks\n\
serves\n\
opens\n\
broke\n\
note end 7/1 0 0 peer gone\n\
act close 8 peer gone\n\
act close 7 broken\n\
act none\n\
row the run ends\n\
serves\n\
opens\n\
stopped\n\
note end 7/1 0 0 stopped\n\
act close 8 stopped\n\
act close 7 stopped\n\
act none\n\
row its peer breaks a rule of the connection\n\
serves\n\
opens\n\
came 000001000000000000 78\n\
note end 7/1 0 0 conn fault 1\n\
last 000008070000000000 00000001 00000001\n\
act close 8 conn fault 1\n\
act close 7 conn fault 1\n\
act none";
