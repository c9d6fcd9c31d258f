//! A made script that is appended to another.

use hb_make::put_made;
use std::alloc::Global;
use std::process::Abort;

/// The text of a made script, behind another text.
fn made_behind(rt: &impl Abort, alloc: Global, n: u32, text: Vec<u8>) -> Vec<u8> {
    let mut text = text;
    if n <= 1000 {
        put_made(alloc, n, &mut text).expect(rt, "memory");
    }
    text
}

#[test]
fn a_script_is_appended(rt: HostRuntime) {
    let alloc = rt.alloc();
    let one = made_behind(&rt, alloc, 1, Vec::new(alloc));
    let two = made_behind(&rt, alloc, 2, Vec::new(alloc));
    let both = made_behind(&rt, alloc, 1, Vec::new(alloc));
    let both = made_behind(&rt, alloc, 2, both);
    assert!(&rt;
        both.as_slice().starts_with(one.as_slice()),
        "the first script"
    );
    assert!(&rt;
        both.as_slice().ends_with(two.as_slice()),
        "the second script"
    );
    assert!(&rt; both.len() == one.len() + two.len(), "both scripts");
}
