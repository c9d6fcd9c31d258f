//! Runs of a script's world.

use crate::calls::cut;
use crate::play::{lines_of, play, world_loaded, world_over};
use std::process::Abort;

/// A run is its name, its script in one line and its calls, each with what it answers. `play` and `calls` say how they are
/// written. The answers are worked by hand from the rules.
const RUNS: &str = "\
a piece is taken in three reads; \
{'bytes':'6162636465','link':1}|{'wake':true}; \
dial=1, read 1 2=balked, wait=woke 1, read 1 2=ab, read 1 2=cd, read 1 2=e, read 1 2=balked, entries=7
two pieces are never joined in one read; \
{'bytes':'6162','link':1}|{'bytes':'6364','link':1}|{'bytes':'65','link':1}|{'wake':true}; \
dial=1, wait=woke 1, read 1 1=a, read 1 9=b, read 1 9=cd, read 1 9=e, read 1 9=balked
pieces of two waits are read in order; \
{'bytes':'6162','link':1}|{'wake':true}|{'bytes':'6364','link':1}|{'wake':true}; \
dial=1, wait=woke 1, read 1 1=a, wait=woke 1, read 1 9=b, read 1 9=cd, read 1 9=balked
a buffer of one octet; \
{'bytes':'616263','link':1}|{'wake':true}; \
dial=1, wait=woke 1, read 1 1=a, read 1 1=b, read 1 1=c, read 1 1=balked
the end stands behind the pieces; \
{'end':1}|{'bytes':'61','link':1}|{'wake':true}; \
dial=1, wait=woke 1, read 1 9=a, read 1 9=end, read 1 9=end, write 1 xy=2, \
trace=dialled 1 10.0.0.7:8080|came 1 61|ended 1|ended 1|went 1 7879|
a piece behind an end that was told; \
{'end':1}|{'wake':true}|{'bytes':'61','link':1}|{'wake':true}; \
dial=1, wait=woke 1, read 1 9=end, wait=woke 1, read 1 9=a, read 1 9=end
a break stands behind the pieces for reads and holds at once for writes; \
{'break':1}|{'bytes':'6162','link':1}|{'wake':true}; \
dial=1, write 1 xy=2, wait=woke 1, write 1 xy=failed, read 1 1=a, read 1 9=b, read 1 9=failed, read 1 9=failed, \
write 1 xy=failed, entries=9
a broken link fails in place of its end; \
{'bytes':'61','link':1}|{'end':1}|{'wake':true}|{'break':1}|{'wake':true}; \
dial=1, wait=woke 1, read 1 9=a, read 1 9=end, wait=woke 1, read 1 9=failed, read 1 9=failed
a look tells a break behind an end, and nothing else; \
{'end':1}|{'wake':true}|{'break':1}|{'wake':true}; \
look 1=fine, dial=1, wait=woke 1, look 1=fine, read 1 9=end, look 1=fine, look 2=fine, wait=woke 1, look 1=failed, look 1=failed, \
look 2=fine, entries=11, trace=dialled 1 10.0.0.7:8080|ended 1|broke 1|broke 1|
a piece, a break and an end in one wait; \
{'end':1}|{'break':1}|{'bytes':'61','link':1}|{'wake':true}; \
dial=1, wait=woke 1, read 1 9=a, read 1 9=failed, read 1 9=failed, trace=dialled 1 10.0.0.7:8080|came 1 61|broke 1|broke 1|
a break of one link changes nothing for another; \
{'break':1}|{'bytes':'61','link':2}|{'wake':true}; \
dial=1, dial=2, wait=woke 1 2, read 1 9=failed, read 2 9=a, read 2 9=balked, write 2 xyz=3
a room is used up by two writes, and then there is more; \
{'link':1,'room':5}|{'wake':true}|{'link':1,'room':2}|{'wake':true}; \
dial=1, wait=woke 1, write 1 abcd=4, write 1 efg=1, write 1 fg=balked, wait=woke 1, write 1 fgh=2, write 1 h=balked, \
trace=dialled 1 10.0.0.7:8080|went 1 61626364|went 1 65|went 1 6667|
a new room stands in place of what was left; \
{'link':1,'room':5}|{'wake':true}|{'link':1,'room':4}|{'wake':true}|{'link':1,'room':1}|{'wake':true}; \
dial=1, wait=woke 1, write 1 ab=2, wait=woke 1, write 1 cdefgh=4, write 1 gh=balked, wait=woke 1, write 1 gh=1, \
write 1 h=balked
of two rooms in one wait the last counts; \
{'link':1,'room':5}|{'link':1,'room':3}|{'wake':true}; \
dial=1, wait=woke 1, write 1 abcdef=3, write 1 def=balked
a room of nothing; \
{'link':1,'room':0}|{'wake':true}; \
dial=1, write 1 abc=3, wait=woke 1, write 1 d=balked
without a room a link never balks; \
{'wake':true}; \
dial=1, write 1 abcdefgh=8, wait=woke, write 1 abcdefgh=8, wait=stop, write 1 abcdefgh=8
lines for a link that is born later; \
{'open':2}|{'bytes':'61','link':2}|{'link':2,'room':1}|{'wake':true}; \
dial=1, wait=woke, dial=2, finish 1=balked, finish 2=opened, read 1 9=balked, read 2 9=a, write 1 xy=2, write 2 xy=1
the last of open and refuse counts; \
{'refuse':1}|{'open':1}|{'wake':true}|{'open':1}|{'refuse':1}|{'wake':true}|{'open':1}|{'wake':true}; \
dial=1, finish 1=balked, wait=woke 1, finish 1=opened, finish 1=opened, wait=woke 1, finish 1=failed, finish 1=failed, \
wait=woke 1, finish 1=opened
only a door that listens accepts; \
{'accept':'inbound'}|{'accept':'plain'}|{'wake':true}; \
listen inbound=listening, wait=woke inbound, accept plain=balked, accept outbound=balked, accept inbound=1, \
accept inbound=balked, trace=accepted 1 inbound|, entries=6
a connection before the listen has no effect; \
{'accept':'inbound'}|{'wake':true}|{'accept':'inbound'}|{'wake':true}; \
wait=woke, listen inbound=listening, accept inbound=balked, wait=woke inbound, accept inbound=1, accept inbound=balked
three accepts on a door at which two wait; \
{'accept':'outbound'}|{'accept':'outbound'}|{'accept':'plain'}|{'wake':true}; \
listen outbound=listening, listen plain=listening, wait=woke outbound plain, accept outbound=1, accept outbound=2, \
accept outbound=balked, accept plain=3
connections of two waits add up; \
{'accept':'inbound'}|{'wake':true}|{'accept':'inbound'}|{'wake':true}; \
listen inbound=listening, wait=woke inbound, wait=woke inbound, accept inbound=1, accept inbound=2, accept inbound=balked
two dials that fail; \
{'nodial':2}|{'wake':true}; \
dial=1, wait=woke, dial=failed, dial=failed, dial=2, trace=dialled 1 10.0.0.7:8080|dial failed 10.0.0.7:8080|\
dial failed 10.0.0.7:8080|dialled 2 10.0.0.7:8080|
of two counts of failing dials the one that reaches farther counts; \
{'nodial':3}|{'wake':true}|{'nodial':1}|{'wake':true}; \
wait=woke, dial=failed, wait=woke, dial=failed, dial=failed, dial=1
the first listen alone fails where the first line says so; \
{'fault':'listen'}|{'accept':'inbound'}|{'wake':true}|{'accept':'inbound'}|{'wake':true}; \
listen inbound=failed, wait=woke, accept inbound=balked, listen plain=listening, listen inbound=listening, \
wait=woke inbound, accept inbound=1, accept inbound=balked
a fault of a listen behind the first line has no effect; \
{'wake':true}|{'fault':'listen'}|{'wake':true}; \
listen inbound=listening, wait=woke, listen plain=listening, wait=woke, listen outbound=listening
each item is told once, in the order of the lines; \
{'end':2}|{'accept':'plain'}|{'open':1}|{'accept':'plain'}|{'accept':'inbound'}|{'link':2,'room':9}|\
{'accept':'outbound'}|{'bytes':'61','link':1}|{'refuse':3}|{'nodial':1}|{'break':4}|{'wake':true}|{'open':1}|{'wake':true}; \
listen inbound=listening, listen plain=listening, dial=1, dial=2, dial=3, wait=woke 2 plain 1 inbound 3, wait=woke 1
a link that does not live is not told; \
{'open':1}|{'open':2}|{'open':3}|{'wake':true}; \
dial=1, dial=2, close 1=, wait=woke 2
a wait applies its own lines; \
{'open':1}|{'wake':true}|{'open':2}|{'wake':true}; \
dial=1, dial=2, finish 1=balked, wait=woke 1, finish 1=opened, finish 2=balked, wait=woke 2, finish 2=opened, wait=stop
how waits end; \
{'wake':true}|{'open':1}|{'tick':true}|{'open':1}|{'fault':'wait'}|{'open':1}|{'stop':true}|{'open':1}|{'wake':true}; \
dial=1, wait=woke, wait=tick 1, wait=failed 1, wait=stop 1, wait=woke 1, wait=stop, entries=8
lines behind the last end of a wait; \
{'wake':true}|{'open':1}; \
dial=1, wait=woke, finish 1=balked, wait=stop 1, finish 1=opened, wait=stop
a tick adds two entries; \
{'tick':true}; \
wait=tick, entries=2, trace=tick|, wait=stop, entries=3, trace=tick|
a glance finds nothing, adds an entry and uses up no line; \
{'bytes':'61','link':1}|{'wake':true}|{'tick':true}; \
dial=1, glance=woke, entries=2, read 1 9=balked, wait=woke 1, glance=woke, read 1 9=a, wait=tick, glance=woke, entries=9, \
wait=stop, glance=woke, entries=11
calls on a link that is not born; \
{'bytes':'61','link':1}|{'open':1}|{'wake':true}; \
wait=woke, finish 1=balked, read 1 9=balked, write 1 xy=balked, entries=4, shut 1=, close 1=, close 0=, entries=4, \
dial=1, finish 1=opened, read 1 9=a
calls on a link that is closed; \
{'bytes':'61','link':1}|{'open':1}|{'break':1}|{'wake':true}; \
dial=1, wait=woke 1, finish 1=opened, close 1=, entries=4, finish 1=balked, read 1 9=balked, write 1 xy=balked, entries=7, \
shut 1=, close 1=, entries=7, trace=dialled 1 10.0.0.7:8080|opened 1|closed 1 done|
a second shut does nothing; \
{'wake':true}; \
dial=1, dial=2, shut 1=, shut 1=, entries=3, shut 2=, close 1=, entries=5, \
trace=dialled 1 10.0.0.7:8080|dialled 2 10.0.0.7:8080|shut 1|shut 2|closed 1 done|
behind the end of the script; \
{'accept':'inbound'}|{'wake':true}; \
listen inbound=listening, wait=woke inbound, wait=stop, accept inbound=1, accept inbound=balked, wait=stop, dial=2, \
finish 2=balked, read 2 9=balked, write 2 abc=3, listen plain=listening, wait=stop, entries=12
a script without lines; \
; \
wait=stop, entries=1, dial=1, wait=stop, close 1=, entries=4
links are numbered from 1 in the order of births; \
{'accept':'inbound'}|{'accept':'plain'}|{'nodial':1}|{'wake':true}; \
listen inbound=listening, listen plain=listening, wait=woke inbound plain, dial=failed, dial=1, accept plain=2, \
accept outbound=balked, dial=3, close 2=, accept inbound=4, dial=5
a whole run; \
{'open':1}|{'wake':true}|{'accept':'inbound'}|{'bytes':'6869','link':2}|{'wake':true}|{'open':3}|{'wake':true}|\
{'bytes':'616263','link':3}|{'end':3}|{'tick':true}|{'break':2}|{'nodial':1}|{'wake':true}; \
listen inbound=listening, dial=1, finish 1=balked, wait=woke 1, finish 1=opened, write 1 hi=2, wait=woke inbound, \
accept inbound=2, accept inbound=balked, read 2 9=hi, dial=3, finish 3=balked, wait=woke 3, finish 3=opened, \
write 3 xyz=3, wait=tick 3, read 3 2=ab, read 3 2=c, read 3 2=end, shut 3=, wait=woke 2, dial=failed, read 2 9=failed, \
close 2=, close 3=, wait=stop, entries=27, \
trace=dialled 1 10.0.0.7:8080|opened 1|went 1 6869|accepted 2 inbound|came 2 6869|dialled 3 10.0.0.7:8080|opened 3|\
went 3 78797a|tick|came 3 6162|came 3 63|ended 3|shut 3|dial failed 10.0.0.7:8080|broke 2|closed 2 done|closed 3 done|";

#[test]
fn runs_answer_what_they_want(rt: HostRuntime) {
    for run in RUNS.lines() {
        let (name, rest) = cut(run, "; ");
        let (script, steps) = cut(rest, "; ");
        let world = world_over(&rt, rt.alloc(), lines_of(&rt, rt.alloc(), script));
        play(&rt, rt.alloc(), world, name, steps);
    }
}

#[test]
fn worlds_that_are_given_their_lines_later_answer_the_same(rt: HostRuntime) {
    for run in RUNS.lines() {
        let (name, rest) = cut(run, "; ");
        let (script, steps) = cut(rest, "; ");
        let world = world_loaded(&rt, rt.alloc(), lines_of(&rt, rt.alloc(), script));
        play(&rt, rt.alloc(), world, name, steps);
    }
}
