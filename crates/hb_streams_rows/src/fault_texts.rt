//! The texts of faults.

use hb_base::Scope;
use hb_streams::{OpenFault, StreamFault};

#[test]
fn faults_are_told_in_words(rt: HostRuntime) {
    let fault = StreamFault {
        code: 7,
        scope: Scope::Stream(201),
    };
    let told = format!(in rt.alloc(); "{fault}; {}; {}", OpenFault::Full, OpenFault::Spent);
    let told = told.ok().expect(&rt, "memory");
    let want = "error code 7, scope Stream(201); too many streams; no stream number is left";
    assert!(rt; told.as_bytes() == want.as_bytes());
}
