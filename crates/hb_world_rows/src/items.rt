//! What a wait found ready.

use crate::calls::{put, put_number, tell_items};
use crate::play::{empty_ready, lines_of, play, world_over};
use hb_base::Door;
use hb_world::ReadyItem;
use std::alloc::Global;

/// Lines that open links 1 to 1,500.
fn put_opens(script: &mut String) {
    for link in 1..=1500 {
        put(script, "{'open':");
        put_number(script, link);
        put(script, "}|");
    }
}

/// Steps that dial links 1 to 1,500.
fn put_dials(steps: &mut String) {
    for link in 1..=1500 {
        put(steps, "dial=");
        put_number(steps, link);
        put(steps, ", ");
    }
}

fn put_links(steps: &mut String, first: u64, last: u64) {
    for link in first..=last {
        put(steps, " ");
        put_number(steps, link);
    }
}

/// A script of 1,500 links, and of these lines.
fn script_with(alloc: Global, lines: &str) -> String {
    let mut script = String::new(alloc);
    put_opens(&mut script);
    put(&mut script, lines);
    script
}

/// Steps that dial 1,500 links and wait, which has to end so and to tell the first 1,024 of them.
fn first_steps(alloc: Global, woken: &str) -> String {
    let mut steps = String::new(alloc);
    put_dials(&mut steps);
    put(&mut steps, woken);
    put_links(&mut steps, 1, 1024);
    steps
}

#[test]
fn a_wait_tells_1024_items_and_the_next_the_rest_before_it_applies_a_line(rt: HostRuntime) {
    let alloc = rt.alloc();
    let script = script_with(alloc, "{'tick':true}|{'refuse':1}|{'fault':'wait'}");
    let mut steps = first_steps(alloc, "wait=tick");
    put(&mut steps, ", wait=woke");
    put_links(&mut steps, 1025, 1500);
    put(
        &mut steps,
        ", finish 1=opened, wait=failed 1, finish 1=failed, wait=stop",
    );
    let world = world_over(&rt, alloc, lines_of(&rt, alloc, script.as_str()));
    play(&rt, alloc, world, "the rest behind a tick", steps.as_str());
}

#[test]
fn a_stop_drops_the_items_that_it_does_not_tell(rt: HostRuntime) {
    let alloc = rt.alloc();
    let script = script_with(alloc, "{'stop':true}|{'end':7}|{'wake':true}");
    let mut steps = first_steps(alloc, "wait=stop");
    put(&mut steps, ", wait=woke 7, wait=stop");
    let world = world_over(&rt, alloc, lines_of(&rt, alloc, script.as_str()));
    play(&rt, alloc, world, "the rest behind a stop", steps.as_str());
}

#[test]
fn a_list_of_ready_items_is_filled_and_cleared(rt: HostRuntime) {
    let mut ready = empty_ready(&rt, rt.alloc());
    ready.push(ReadyItem::Link(9));
    ready.push(ReadyItem::Door(Door::Plain));
    let mut told = String::new(rt.alloc());
    tell_items(&mut told, ready.items());
    ready.clear();
    tell_items(&mut told, ready.items());
    ready.push(ReadyItem::Link(3));
    tell_items(&mut told, ready.items());
    assert!(rt; told.as_str() == " 9 plain 3");
}
