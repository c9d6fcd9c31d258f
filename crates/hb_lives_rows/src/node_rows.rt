//! Lives of a node with its link to the control plane, worked by hand from RFC 9113 and the pages.
//!
//! Octets are names of `octets.rt`, or have hexadecimal digits. `L` is a link, `N` a number.
//!
//! | Line | Says |
//! |---|---|
//! | `row NAME` | a node begins, which holds nothing |
//! | `act WORDS` | the act that is due; `idle`: none is |
//! | `dialled L`, `undialled` | the dial gave this link, or failed |
//! | `opened L`, `ended L`, `broke L` | the link is open, its peer ended it, or it broke |
//! | `tick`, `stopped` | time passed, and the run ends |
//! | `came L OCTETS` | these come on the link |
//! | `sent L OCTETS`, `part L OCTETS of them N` | these are all that waits, and they, or N of them, are written |
//! | `reads L N` | so many octets may be read of it |
//! | `last` | a write goes before its close |
//! | `link L`, `holds N` | the link that lives, or `none`; how many resources are held |

/// The lives.
pub const LIVES: &[u8] = b"\
row it applies and answers a response, and tells the next link what it holds\n\
link none\n\
act dial\n\
dialled 1\n\
act none\n\
idle\n\
link 1\n\
reads 1 0\n\
sent 1\n\
opened 1\n\
sent 1 NODE_OPENING\n\
sent 1 REQUESTS\n\
sent 1\n\
came 1 SETTINGS\n\
sent 1 SETTINGS_ACK\n\
came 1 STATUS_200\n\
holds 0\n\
came 1 KNOWN_TOLD\n\
holds 1\n\
sent 1 KNOWN_ANSWERED\n\
tick\n\
act none\n\
broke 1\n\
reads 1 0\n\
act close 1 broken\n\
act none\n\
link none\n\
tick\n\
act dial\n\
dialled 2\n\
opened 2\n\
sent 2 NODE_OPENING\n\
sent 2 REQUESTS_AGAIN\n\
ended 2\n\
act close 2 broken\n\
row it answers two messages of one frame\n\
dialled 1\n\
opened 1\n\
sent 1 NODE_OPENING\n\
sent 1 REQUESTS\n\
came 1 SETTINGS STATUS_200\n\
sent 1 SETTINGS_ACK\n\
came 1 BOTH_TOLD\n\
sent 1 BOTH_ANSWERED\n\
row its dial fails\n\
act dial\n\
act dial\n\
undialled\n\
act none\n\
tick\n\
act dial\n\
row it is refused\n\
dialled 1\n\
opened 1\n\
sent 1 NODE_OPENING\n\
came 1 SETTINGS STATUS_404\n\
act close 1 discovery\n\
act none\n\
row its peer breaks a rule of the connection\n\
dialled 1\n\
opened 1\n\
sent 1 NODE_OPENING\n\
sent 1 REQUESTS\n\
came 1 SETTINGS\n\
sent 1 SETTINGS_ACK\n\
came 1 000007060000000000 31323334353637\n\
reads 1 0\n\
last\n\
part 1 000008070000000000 00000000 00000006 of them 3\n\
sent 1\n\
act close 1 conn fault 6\n\
act none\n\
row another link's calls change nothing\n\
dialled 1\n\
opened 1\n\
opened 2\n\
ended 2\n\
broke 2\n\
reads 2 0\n\
came 2\n\
sent 2\n\
act none\n\
sent 1 NODE_OPENING\n\
row the run ends\n\
dialled 1\n\
opened 1\n\
stopped\n\
act close 1 stopped\n\
act none\n\
row the run ends while a dial is due\n\
stopped\n\
act none\n\
idle";
