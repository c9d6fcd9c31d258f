//! What each front of bytes is read as.

use crate::front_rows::{LONG, READ};
use crate::words::bytes_of;
use hb_base::{Target, put_target};
use hb_front::{Front, FrontRead, read_front};
use std::alloc::Global;
use std::process::Abort;

fn push_end(rt: &impl Abort, alloc: Global, told: &mut String, end: Target) {
    let mut text = Vec::new(alloc);
    put_target(alloc, end, &mut text).expect(rt, "memory");
    let text = std::str::from_utf8(text.as_slice()).unwrap_or("?");
    write!(told, " {text}").expect(rt, "memory");
}

fn push_front(rt: &impl Abort, alloc: Global, told: &mut String, front: &Front<'_>) {
    write!(told, "whole {}", front.length).expect(rt, "memory");
    push_end(rt, alloc, told, front.source);
    push_end(rt, alloc, told, front.destination);
    let identity = std::str::from_utf8(front.identity.unwrap_or(b"-")).unwrap_or("?");
    write!(told, " {identity}").expect(rt, "memory");
}

fn told_of(rt: &impl Abort, alloc: Global, bytes: &[u8]) -> String {
    let mut told = String::new(alloc);
    match read_front(bytes) {
        FrontRead::Whole(front) => push_front(rt, alloc, &mut told, &front),
        FrontRead::More => told.push_str("more").expect(rt, "memory"),
        FrontRead::Fault(fault) => write!(told, "{fault:?}").expect(rt, "memory"),
    }
    told
}

/// The answers to all fronts of the bytes: from how many bytes on, and which.
fn changes_of(rt: &impl Abort, alloc: Global, bytes: &[u8]) -> String {
    let mut changes = String::new(alloc);
    let mut last = String::new(alloc);
    for n in 0..bytes.len() + 1 {
        let told = told_of(rt, alloc, bytes.split_at(n.min(bytes.len())).0);
        if told.as_bytes() != last.as_bytes() {
            let comma = if n == 0 { "" } else { ", " };
            write!(changes, "{comma}{n} {}", told.as_str()).expect(rt, "memory");
            last = told;
        }
    }
    changes
}

fn assert_rows(rt: &impl Abort, alloc: Global, table: &str) {
    for row in table.lines() {
        if !row.starts_with('#') {
            let (words, want) = row.split_once("; ").unwrap_or((row, ""));
            let bytes = bytes_of(rt, alloc, words);
            let changes = changes_of(rt, alloc, bytes.as_slice());
            assert!(rt; changes.as_bytes() == want.as_bytes(), "{row}: {changes}");
        }
    }
}

#[test]
fn each_front_of_a_header_has_its_answer(rt: HostRuntime) {
    assert_rows(&rt, rt.alloc(), READ);
}

#[test]
fn each_front_of_a_long_header_has_its_answer(rt: HostRuntime) {
    assert_rows(&rt, rt.alloc(), LONG);
}
