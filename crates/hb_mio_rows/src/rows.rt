//! The lines of each run of a world of real sockets.
//!
//! A link is named by its number, as is its other end, which a test holds. A call of the world has what it answers behind ` = `; a line
//! without it makes the call and nothing more.
//!
//! | Line | Says |
//! |---|---|
//! | `row NAME` | a run begins, with another world |
//! | `listen DOOR`, `taken DOOR`, `far DOOR` | the world listens at a port that is free, at one that isn't, or at an address of another machine |
//! | `why PLACE DOOR REASON` | the one line that the world told: of this door, at the port that was free, at the one that is `taken`, or `far` |
//! | `call` | a connection to that free port; its link is the next that is born |
//! | `named DOOR` | the world waits until this door is ready: so often it is named then |
//! | `accept DOOR`, `finish LINK`, `read LINK`, `write LINK TEXT`, `look LINK`, `shut LINK`, `close LINK`, `close LINK CAUSE` | this call; a run that ends is the cause that isn't named |
//! | `pair`, `pair WHY` | a link is dialled, for the control plane or for this, its other end accepted, and the link opened |
//! | `dial` | a link to a port at which nobody listens |
//! | `await LINK` | what such a link comes to |
//! | `waits` | the world waits once |
//! | `seen LINK` | the world looks at a link until it isn't fine, and waits between: what the last look tells |
//! | `hear LINK MOST` | reads until the link's end, or until so many octets came: how many, the sum of their values, and how it went on |
//! | `send LINK COUNT` | writes so many octets, each of which has to come, and whether the link balked meanwhile |
//! | `says LINK TEXT`, `hears LINK TEXT` | the other end writes this, or reads this next |
//! | `ends LINK`, `leaves LINK`, `left LINK`, `broken LINK` | the other end sends no more; it is closed; nothing more comes at it; it was reset |

/// The runs.
pub const ROWS: &str = "\
row all that wait behind one event are accepted
listen inbound = listening
accept inbound = balked
call
call
call
named inbound = times 1
accept inbound = link 1
accept inbound = link 2
accept inbound = link 3
accept inbound = balked
says 2 hello
hear 2 5 = 5 532 more
close 2
left 2
call
named inbound = times 1
accept inbound = link 4
leaves 1
leaves 3
hear 1 5 = 0 0 end
hear 3 5 = 0 0 end
row a port that is taken is no door
taken plain = failed
why taken plain address in use
accept plain = balked
accept outbound = balked
row an address of another machine is no door
far outbound = failed
why far outbound address not of this machine
row two doors have no port in common
listen inbound = listening
listen plain = failed
why free plain address in use
row what is written comes both ways
pair = link 1
says 1 hello
hear 1 5 = 5 532 more
read 1 = balked
write 1 abc = took 3
hears 1 abc
ends 1
hear 1 1 = 0 0 end
write 1 d = took 1
shut 1
shut 1
hears 1 d
left 1
close 1
write 1 e = balked
row much is written in parts
pair = link 1
send 1 20000000 = in parts
row a reset breaks its link alone
pair = link 1
pair = link 2
write 1 unread = took 6
hears 1 u
leaves 1
hear 1 1 = 0 0 failed
says 2 hello
hear 2 5 = 5 532 more
row a reset behind an end is told by looks, once
pair = link 1
pair = link 2
write 1 unread = took 6
hears 1 u
ends 1
hear 1 1 = 0 0 end
ends 2
hear 2 1 = 0 0 end
look 1 = fine
leaves 1
seen 1 = failed
look 1 = fine
look 2 = fine
row a reset right behind an end is no end
pair = link 1
write 1 unread = took 6
hears 1 u
ends 1
leaves 1
waits
hear 1 1 = 0 0 failed
row a link of a tunnel's bytes that is done ends, and each other one is reset
pair upstream = link 1
pair upstream = link 2
pair relay = link 3
pair direct = link 4
write 1 whole = took 5
write 2 part = took 4
hears 2 part
close 1 done
close 2 revoked
close 3
close 4
hears 1 whole
left 1
broken 2
broken 3
broken 4
row a captured link that is refused is reset, and one with frames ends
listen plain = listening
call
named plain = times 1
accept plain = link 1
close 1 refused
broken 1
pair gateway = link 2
pair = link 3
close 2 revoked
close 3
left 2
left 3
row a dial that is refused fails at its finish
dial = link 1
await 1 = failed
close 1
dial = link 2
row a link that does not live balks
finish 7 = balked
read 7 = balked
write 7 x = balked
look 7 = fine
shut 7
close 7
";
