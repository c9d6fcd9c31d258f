//! Lives of a link to a gateway, number 9, in octets of the PROXY protocol, RFC 9113 and RFC 7541. Each begins behind its opening.
//!
//! Octets have hexadecimal digits. `S` is a stream, `L` a captured link, `N` a number of bytes.
//!
//! | Line | Says |
//! |---|---|
//! | `row NAME` | a life begins, and its opening is played |
//! | `opened`, `ended`, `broke` | its connection opens, the gateway ends it, or it breaks |
//! | `stopped` | the run ends |
//! | `came OCTETS`, `sent OCTETS` | these come; these are written, and then none wait |
//! | `look WORDS`, `brought OCTETS` | the next look finds this; the last one brought these bytes |
//! | `mail WORDS` | the tunnel that is to be told its end: its stream, its link, how many of its bytes had begun to go, and the cause |
//! | `act WORDS` | the act that is due |
//! | `resets` | the streams of ended tunnels are reset as far as there is room |
//! | `full`, `last` | it offers no stream more; its last words wait |
//! | `ask S L` | a tunnel of the link to 10.0.0.8, port 80, is asked for, and gets the stream |
//! | `carries S L`, `carries S none` | the stream carries the tunnel of this link, or of none |
//! | `put S N OCTETS` | of these bytes so many are put |
//! | `credit S N`, `finish S` | so many bytes are granted again; the captured link ended its side |
//! | `leave S N`, `drop S N` | the tunnel is done, or its captured link ended, when so many of its bytes had begun to go |

/// The opening of each link: the header of the PROXY protocol (section 2.2), the connection preface (RFC 9113 section 3.4), SETTINGS 2 of
/// 0 and 6 of 16,384, and CONNECT to 10.0.0.8:80 on stream 1, behind a table size update (RFC 7541 sections 6.2.2 and 6.3); the gateway's
/// SETTINGS, and their acknowledgement.
pub const OPENING: &[u8] = b"\
opened\n\
ask 1 7\n\
sent 0d0a0d0a000d0a515549540a2111000c0a0000090a00000700003aa0 \
505249202a20485454502f322e300d0a0d0a534d0d0a0d0a \
00000c040000000000000200000000000600004000 \
000017010400000001200207434f4e4e454354010b31302e302e302e383a3830\n\
came 000000040000000000\n\
look nothing\n\
sent 000000040100000000";

/// The lives.
pub const LIVES: &[u8] = b"\
row it carries a tunnel both ways\n\
came 00000101040000000188\n\
look opens 1 7 false\n\
look nothing\n\
put 1 3 616263\n\
put 1 0 64\n\
sent 000003000000000001616263\n\
came 00000300000000000178797a\n\
look brings 1 7\n\
brought 78797a\n\
look nothing\n\
credit 1 3\n\
finish 1\n\
sent 000000000100000001\n\
came 000000000100000001\n\
look brings 1 7\n\
look ends 1 7\n\
look nothing\n\
leave 1 3\n\
carries 1 none\n\
row it resets the stream of a refusal\n\
came 0000050104000000010803353033\n\
look fails 1 7 0 up refused 503\n\
resets\n\
look nothing\n\
sent 00000403000000000100000008\n\
carries 1 none\n\
row it passes over an interim status\n\
came 0000050104000000010803313030\n\
look passed\n\
look nothing\n\
came 00000101040000000188\n\
look opens 1 7 false\n\
look nothing\n\
row it ends the streams above the last of a GOAWAY\n\
ask 3 8\n\
came 0000080700000000000000000100000000\n\
look passed\n\
mail 3 8 0 gone away\n\
mail none\n\
full\n\
carries 1 7\n\
row it says why it closes behind a connection error\n\
came 000000040000000001\n\
look passed\n\
mail 1 7 0 conn fault 1\n\
mail none\n\
last\n\
sent 0000080700000000000000000000000001\n\
act close 9 conn fault 1\n\
act none\n\
row it ends its tunnels with the gateway\n\
ended\n\
mail 1 7 0 peer gone\n\
act close 9 peer gone\n\
act none\n\
row it breaks\n\
broke\n\
mail 1 7 0 peer gone\n\
act close 9 broken\n\
act none\n\
row the run ends\n\
stopped\n\
mail 1 7 0 stopped\n\
act close 9 stopped\n\
act none\n\
row it resets the stream of a link that ended\n\
drop 1 0\n\
resets\n\
sent 00000403000000000100000008\n\
carries 1 none";
