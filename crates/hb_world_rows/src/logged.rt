//! What a log around a world is told.

use crate::calls::{cut, make_call, put, put_number};
use crate::play::{empty_ready, lines_of, world_over};
use hb_log::{Log, LoggedWorld};
use hb_world::{Ready, ScriptWorld};
use std::alloc::Global;
use std::process::Abort;

/// A run is its name, its script in one line and its calls, each with what it answers, and behind that the lines that it gives the log, if
/// any. `play` and `calls` say how they are written, and a newline is `|`. The lines are worked by hand from the rules.
const RUNS: &str = "\
a door that listens is told; \
{'fault':'listen'}|{'accept':'inbound'}|{'wake':true}; \
listen inbound=failed, listen inbound=listening listens door=inbound at=10.0.0.7:8080|, \
listen plain=listening listens door=plain at=10.0.0.7:8080|, listen outbound=listening listens door=outbound at=10.0.0.7:8080|, \
wait=woke inbound, accept inbound=1, accept inbound=balked, close 1=
the control plane from its dial to its end; \
{'open':1}|{'bytes':'6162','link':1}|{'wake':true}; \
dial=1 control link=1 dialled=10.0.0.7:8080|, finish 1=balked, wait=woke 1, finish 1=opened control link=1 open|, read 1 9=ab, \
write 1 xy=2, look 1=fine, shut 1=, glance=woke, close 1 conn fault 6= control link=1 closed=\"conn fault 6\"|, \
dial=2 control link=2 dialled=10.0.0.7:8080|
of attempts in a row the first and the tenth are told, and of a later one that it is open, and its end; \
{'nodial':11}|{'open':2}|{'wake':true}; \
wait=woke, dial=failed control dial=10.0.0.7:8080 failed|, dial=failed, dial=failed, dial=failed, dial=failed, dial=failed, dial=failed, \
dial=failed, dial=failed, dial=failed control dial=10.0.0.7:8080 failed again=10|, dial=failed, dial=1, finish 1=balked, \
close 1 broken=, dial=2, finish 2=opened control link=2 open|, close 2 gone away= control link=2 closed=\"gone away\"|, \
dial=3 control link=3 dialled=10.0.0.7:8080|
a tenth attempt that begins a link is told to its end, and the next one isn't; \
{'nodial':9}|{'refuse':1}|{'wake':true}; \
wait=woke, dial=failed control dial=10.0.0.7:8080 failed|, dial=failed, dial=failed, dial=failed, dial=failed, dial=failed, dial=failed, \
dial=failed, dial=failed, dial=1 control link=1 dialled=10.0.0.7:8080 again=10|, finish 1=failed, \
close 1 broken= control link=1 closed=broken|, dial=2, close 2 broken=
each attempt at a gateway is told, and counts none at the control plane; \
{'nodial':2}|{'open':1}|{'wake':true}; \
wait=woke, dial gateway=failed gateway dial=10.0.0.7:8080 failed|, dial gateway=failed gateway dial=10.0.0.7:8080 failed|, \
dial gateway=1 gateway link=1 dialled=10.0.0.7:8080|, finish 1=opened gateway link=1 open|, \
dial=2 control link=2 dialled=10.0.0.7:8080|, close 1 gone away= gateway link=1 closed=\"gone away\"|, \
close 2 stopped= control link=2 closed=stopped|, close 2 stopped=
no link of a tunnel is told, but the way of an outbound one that goes straight; \
{'open':1}|{'refuse':2}|{'nodial':4}|{'wake':true}|{'wake':true}; \
dial upstream=1, dial plain=2, dial direct=3 way 1/0 direct=10.0.0.7:8080|, wait=woke 1 2, finish 1=opened, finish 2=failed, \
dial upstream=failed, \
close 1 broken=, close 2 broken=, close 3 conn fault 6=
a link of a door is told where it is closed for a fault, and once; \
{'accept':'inbound'}|{'accept':'inbound'}|{'accept':'plain'}|{'accept':'outbound'}|{'accept':'inbound'}|{'wake':true}; \
listen inbound=listening listens door=inbound at=10.0.0.7:8080|, listen plain=listening listens door=plain at=10.0.0.7:8080|, \
listen outbound=listening listens door=outbound at=10.0.0.7:8080|, wait=woke inbound plain outbound, accept inbound=1, accept inbound=2, \
accept plain=3, accept outbound=4, accept inbound=5, close 2 front fault 3= closed link=2 door=inbound cause=\"front fault 3\"|, \
close 2 front fault 3=, close 1=, close 5 stopped=, close 3 broken= closed link=3 door=plain cause=broken|, \
close 4 gone away= closed link=4 door=outbound cause=\"gone away\"|, close 6 broken=";

/// A log that keeps its lines.
#[derive(Drop)]
struct KeptLines {
    text: String,
}

impl Log for KeptLines {
    ghost use Rattle.std.specs.Prelude.{None};

    ghost handed = { λ l. None };

    fn line(&mut self, line: &str) {
        put(&mut self.text, line);
    }

    fn beside(&mut self, line: &str) {
        put(&mut self.text, line);
    }
}

type Logged = LoggedWorld<ScriptWorld, KeptLines>;

/// Tells the lines behind so many octets of the log.
fn tell_lines(told: &mut String, lines: &str, before: usize) {
    if lines.len() > before {
        put(told, " ");
    }
    for octet in lines.as_bytes().iter().skip(before) {
        let _ = match octet {
            b'\n' => told.push('|'),
            _ => told.push(char::from(*octet)),
        };
    }
}

/// A step of a run is a call, `=`, and what it has to answer, with its lines.
fn assert_logged_step(
    rt: &impl Abort,
    alloc: Global,
    world: &mut Logged,
    ready: &mut Ready,
    run: &str,
    step: &str,
) {
    let (call, want) = cut(step, "=");
    let before = world.log().text.len();
    let mut told = String::new(alloc);
    make_call(rt, world, ready, &mut told, call);
    tell_lines(&mut told, world.log().text.as_str(), before);
    assert!(rt; told.as_str() == want, "{run}: {step} told {told}");
}

/// How many entries the trace of the same world has behind the same calls, where no log is around it.
fn entries_without_log(rt: &impl Abort, alloc: Global, script: &str, steps: &str) -> usize {
    let mut world = world_over(rt, alloc, lines_of(rt, alloc, script));
    let mut ready = empty_ready(rt, alloc);
    let mut told = String::new(alloc);
    for step in steps.split(", ") {
        let (call, _) = cut(step, "=");
        make_call(rt, &mut world, &mut ready, &mut told, call);
    }
    world.entries().len()
}

/// Makes the calls of a run.
fn play_logged(rt: &impl Abort, alloc: Global, run: &str, script: &str, steps: &str) {
    let inner = world_over(rt, alloc, lines_of(rt, alloc, script));
    let log = KeptLines {
        text: String::new(alloc),
    };
    let mut world = LoggedWorld::over(alloc, inner, log);
    let mut ready = empty_ready(rt, alloc);
    for step in steps.split(", ") {
        assert_logged_step(rt, alloc, &mut world, &mut ready, run, step);
    }
    assert!(rt; world.lacks() == 0, "{run}: memory lacked");
    let entries = entries_without_log(rt, alloc, script, steps);
    assert!(rt;
        world.world().entries().len() == entries,
        "{run}: the trace is another"
    );
}

#[test]
fn calls_are_told_to_the_log(rt: HostRuntime) {
    let alloc = rt.alloc();
    for run in RUNS.lines() {
        let (name, rest) = cut(run, "; ");
        let (script, steps) = cut(rest, "; ");
        play_logged(&rt, alloc, name, script, steps);
    }
}

/// Steps that accept links 1 to 66 and close each for a fault, of which the first 64 are told.
fn put_faults(steps: &mut String) {
    for link in 1..=66 {
        put(steps, "accept plain=");
        put_number(steps, link);
        put(steps, ", close ");
        put_number(steps, link);
        put(steps, " broken=");
        if link <= 64 {
            put(steps, " closed link=");
            put_number(steps, link);
            put(steps, " door=plain cause=broken|");
        }
        put(steps, ", ");
    }
}

#[test]
fn of_links_closed_between_two_ticks_64_are_told_and_the_others_counted(rt: HostRuntime) {
    let alloc = rt.alloc();
    let mut script = String::new(alloc);
    for _ in 1..=67 {
        put(&mut script, "{'accept':'plain'}|");
    }
    put(&mut script, "{'wake':true}|{'tick':true}|{'tick':true}");
    let mut steps = String::new(alloc);
    put(
        &mut steps,
        "listen plain=listening listens door=plain at=10.0.0.7:8080|, wait=woke plain, ",
    );
    put_faults(&mut steps);
    put(
        &mut steps,
        "wait=tick closed more=2|, wait=tick, accept plain=67, ",
    );
    put(
        &mut steps,
        "close 67 broken= closed link=67 door=plain cause=broken|, wait=stop",
    );
    play_logged(&rt, alloc, "many", script.as_str(), steps.as_str());
}
