//! Lives of a captured link, number 7, worked by hand from the pages. Its header comes from 10.0.0.9 and leads to 10.0.0.7, port 9090.
//!
//! A line may end with ` = ` and the note that it makes; another one makes none. `N` is a number of bytes, `CODE` a status or an error
//! code.
//!
//! | Line | Says |
//! |---|---|
//! | `row NAME: DOOR WORDS` | a link is accepted at a door, `plain` or `outbound`, of a node that was told these responses of `octets.rt` |
//! | | `inbound=TARGET` is a door of the node itself |
//! | `front BYTES` | its front header comes in two pieces, these bytes behind it |
//! | `came BYTES`, `ended`, `broke N` | these bytes come of it, it ends, or it breaks, when N of its bytes had begun to go |
//! | `sent BYTES` | these bytes wait to be written to it, and are |
//! | `reads N` | so many bytes may be read of it |
//! | `update NAME` | this response comes, and the link is judged |
//! | `stopped N` | the run ends |
//! | `turned away` | as many links were open as may be, when it came; a row's first line |
//! | `dial TARGET WHY` | this dial is due, until it is told what became of it |
//! | `act WORDS` | these acts are due, with `, ` between, and no other |
//! | `dialled`, `undialled` | what was to be dialled gave the upstream, or failed |
//! | `upopened`, `upended`, `upbroke` | the upstream is open, ends, or breaks |
//! | `upcame BYTES` | these bytes come of it |
//! | `upsent BYTES of them N` | these wait for the upstream, and the first N of them are written |
//! | `relays` | the lines below |
//! | `wants GATEWAY AUTHORITY` | it wants a stream of a link to this gateway, for this authority; `wants nothing` |
//! | `asked` | stream 1 of link 9 was asked for |
//! | `roomless` | no link to the gateway has room |
//! | `opened`, `opened end` | its stream is open; and the gateway ended its side at once |
//! | `puts BYTES of them N` | these wait for the stream, and the first N of them are put |
//! | `brings BYTES` | these come on the stream |
//! | `owes N`, `credited` | so many are to be given back, and are |
//! | `waits`, `finished` | END_STREAM may not be put; it may, and is |
//! | `closed` | the gateway ended its side |
//! | `open`, `complete N` | it isn't done; it is, and N of its bytes had begun to go |
//! | `refused CODE N`, `reset CODE N` | the stream failed so, when N had |
//! | `left` | it has no stream |

/// `abc` goes to its upstream and `def` comes.
pub const RELAYS: &[u8] = b"\
upsent abc of them 1\n\
upsent bc of them 2\n\
upcame def\n\
sent def\n\
act";

/// The lives.
pub const LIVES: &[u8] = b"\
row it relays both ways until both end: plain KNOWN NO_POLICY\n\
front abc\n\
wants nothing\n\
dial 10.0.0.7:9090 plain 7\n\
dialled\n\
act\n\
upopened = verdict 7/0 200 - 10.0.0.7:9090\n\
relays\n\
ended\n\
act shut 8\n\
upended = end 7/0 3 3 done\n\
act close 8 done, close 7 done\n\
row an update ends it: plain KNOWN NO_POLICY\n\
front abc\n\
dial 10.0.0.7:9090 plain 7\n\
dialled\n\
act\n\
upopened = verdict 7/0 200 - 10.0.0.7:9090\n\
relays\n\
update KNOWN\n\
act\n\
update ALLOWS_NONE = end 7/0 3 3 revoked\n\
act close 8 revoked, close 7 revoked\n\
row its upstream breaks: plain KNOWN NO_POLICY\n\
front abc\n\
dial 10.0.0.7:9090 plain 7\n\
dialled\n\
act\n\
upopened = verdict 7/0 200 - 10.0.0.7:9090\n\
relays\n\
upbroke = end 7/0 3 3 up fault\n\
act close 8 up fault, close 7 up fault\n\
row its dial fails: plain KNOWN NO_POLICY\n\
front\n\
undialled = verdict 7/0 502 - 10.0.0.7:9090\n\
act close 7 up fault\n\
row it is refused: plain KNOWN\n\
front = verdict 7/0 503 - 10.0.0.7:9090\n\
act close 7 refused 503\n\
row it is turned away: plain KNOWN NO_POLICY\n\
turned away\n\
reads 0\n\
act close 7 no room\n\
row its header is none: plain\n\
came G\n\
act close 7 front fault 1\n\
row it breaks before its header is whole: plain\n\
broke 0\n\
act close 7 peer gone\n\
row it has no way: outbound KNOWN NO_POLICY\n\
front = verdict 7/0 503 c 10.0.0.7:9090\n\
act close 7 no route 1\n\
row its way leads to a door of the node: outbound inbound=10.0.0.7:9090 SOURCE NO_POLICY\n\
front = verdict 7/0 400 c 10.0.0.7:9090\n\
act close 7 refused 400\n\
row it goes to the endpoint of a service, and isn't judged: outbound SOURCE SERVICE ENDPOINT NO_POLICY\n\
front abc\n\
dial 10.0.0.8:8080 direct 7\n\
dialled\n\
act\n\
upopened = verdict 7/0 200 c 10.0.0.7:9090\n\
relays\n\
update ALLOWS_NONE\n\
act\n\
upended\n\
act shut 7\n\
ended = end 7/0 3 3 done\n\
act close 8 done, close 7 done\n\
row it goes by a gateway until both end: outbound SOURCE TAKES_HBONE NO_POLICY\n\
front abc\n\
dial 10.0.0.7:15008 gateway 7\n\
wants 10.0.0.7:15008 10.0.0.7:9090\n\
asked\n\
wants nothing\n\
act\n\
opened = verdict 7/0 200 c 10.0.0.7:9090\n\
act\n\
puts abc of them 2\n\
puts c of them 1\n\
brings xyzzy\n\
sent xyzzy\n\
owes 5\n\
credited\n\
owes 0\n\
came de\n\
ended\n\
waits\n\
puts de of them 2\n\
finished\n\
waits\n\
act\n\
open\n\
closed\n\
act shut 7\n\
complete 5 = end 7/0 5 5 done\n\
left\n\
act close 7 done\n\
row its gateway ends its side at once: outbound SOURCE TAKES_HBONE NO_POLICY\n\
front abc\n\
asked\n\
ended\n\
opened end = verdict 7/0 200 c 10.0.0.7:9090\n\
act shut 7\n\
puts abc of them 3\n\
finished\n\
complete 3 = end 7/0 3 0 done\n\
act close 7 done\n\
row its gateway refuses it: outbound SOURCE TAKES_HBONE NO_POLICY\n\
front abc\n\
asked\n\
refused 404 0 = verdict 7/0 502 c 10.0.0.7:9090\n\
left\n\
wants nothing\n\
act close 7 up refused 404\n\
row its stream is reset: outbound SOURCE TAKES_HBONE NO_POLICY\n\
front abc\n\
asked\n\
opened = verdict 7/0 200 c 10.0.0.7:9090\n\
puts abc of them 3\n\
brings xyzzy\n\
sent xyzzy\n\
reset 8 2 = end 7/0 2 5 peer reset 8\n\
act close 7 peer reset 8\n\
row it breaks while its stream is asked for: outbound SOURCE TAKES_HBONE NO_POLICY\n\
front abc\n\
asked\n\
broke 0\n\
act close 7 peer gone\n\
row it breaks while it lives on its stream: outbound SOURCE TAKES_HBONE NO_POLICY\n\
front abc\n\
asked\n\
opened = verdict 7/0 200 c 10.0.0.7:9090\n\
puts abc of them 3\n\
broke 1 = end 7/0 1 0 peer gone\n\
act close 7 peer gone\n\
row the dial of its gateway fails: outbound SOURCE TAKES_HBONE NO_POLICY\n\
front abc\n\
undialled = verdict 7/0 502 c 10.0.0.7:9090\n\
act close 7 up fault\n\
row the run ends while it has a stream: outbound SOURCE TAKES_HBONE NO_POLICY\n\
front abc\n\
asked\n\
opened = verdict 7/0 200 c 10.0.0.7:9090\n\
stopped 0 = end 7/0 0 0 stopped\n\
act close 7 stopped\n\
row no link to its gateway has room: outbound SOURCE TAKES_HBONE NO_POLICY\n\
front abc\n\
roomless = verdict 7/0 503 c 10.0.0.7:9090\n\
left\n\
act close 7 no room";
